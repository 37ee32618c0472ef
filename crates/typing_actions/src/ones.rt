//! What `++` and `--` add and subtract.

ghost use Rattle.std.specs.Prelude.{◌≡◌, pos, Ok, IfOk};
ghost use Rattle.b4_core.specs.Vectors.{vec};
ghost use Rattle.expr_type.specs.Answers.{Gives};
ghost use Rattle.expr_type.specs.Statements as statement;
ghost use Rattle.typing_parts.specs.Operands.{as_operand};
ghost use Rattle.typing_parts.specs.Typists.{NarrowIfOk};

use b4_core::{Bit4, Vec4};
use expr_type::Halt;
use operand_types::by_itself;
use pattern_types::Operand;
use std::alloc::{AllocError, Global};
use sv_tree::{AssignmentOperator, StepOperator};
use sv_types::Form;
use type_kinds::vector;
use typing_parts::Names;

/// The operator of the assignment that counts up or down (IEEE 1800-2017 clause 11.4.2).
pub(crate) fn step_operator(op: StepOperator) -> AssignmentOperator
    ensures { result ≡ statement.step_operator op }
{
    match op {
        StepOperator::Increment => AssignmentOperator::Add,
        StepOperator::Decrement => AssignmentOperator::Subtract,
    }
}

// The bits of the number 1, the least significant one first.
const ONE: [Bit4; 32] = [
    Bit4::One,
    Bit4::Zero,
    Bit4::Zero,
    Bit4::Zero,
    Bit4::Zero,
    Bit4::Zero,
    Bit4::Zero,
    Bit4::Zero,
    Bit4::Zero,
    Bit4::Zero,
    Bit4::Zero,
    Bit4::Zero,
    Bit4::Zero,
    Bit4::Zero,
    Bit4::Zero,
    Bit4::Zero,
    Bit4::Zero,
    Bit4::Zero,
    Bit4::Zero,
    Bit4::Zero,
    Bit4::Zero,
    Bit4::Zero,
    Bit4::Zero,
    Bit4::Zero,
    Bit4::Zero,
    Bit4::Zero,
    Bit4::Zero,
    Bit4::Zero,
    Bit4::Zero,
    Bit4::Zero,
    Bit4::Zero,
    Bit4::Zero,
];

// The number 1 in 32 bits.
fn one_bits(alloc: Global) -> Result<Vec4, AllocError>
    ensures { IfOk result (λ v. v ≡ vec 32 (pos 1)) }
{
    Vec4::from_slice(alloc, &ONE)
}

/// The number 1 at an operator, signed and of 32 bits.
pub(crate) fn one<S: Names>(alloc: Global, names: &S, at: u32) -> Result<Operand, Halt>
    ensures value { Gives (as_operand (S.context names.now).source result) (Ok (statement.one (S.context names.now) at)) }
    ensures narrow { NarrowIfOk result }
{
    let bits = one_bits(alloc)?;
    let of = vector(alloc, 32, true)?;
    let form = Form::Literal {
        bits,
        goes_on: false,
    };
    Ok(Operand::Plain(by_itself(alloc, names.text(), at, of, form)?))
}
