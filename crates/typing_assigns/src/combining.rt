//! What an assignment with an operator combines.

ghost use Rattle.std.specs.Prelude.{◌≡◌, IfOk, Some};
ghost use Rattle.expr_type.specs.Answers.{Gives};
ghost use Rattle.expr_type.specs.Operands as rule;
ghost use Rattle.expr_type.specs.Statements as statement;
ghost use Rattle.expr_type.specs.Targets as def;
ghost use Rattle.pattern_types.specs.Meaning.{operand_of};
ghost use Rattle.typing_parts.specs.Operands.{as_operand};
ghost use Rattle.typing_parts.specs.Typists.{IsNarrowOperand, NarrowIfOk};
ghost use Rattle.operand_types.specs.Allowed.{IsNarrow};
ghost use Rattle.typing_assigns.specs.Assigning.{Pairs, both_of};
ghost use Rattle.typing_assigns.specs.Parts.{IsNarrowTarget};
ghost use Rattle.typing_assigns.specs.Targets.{StandsFor};

use crate::target::Target;
use expr_copies::copy_expr;
use expr_type::{Halt, Valued};
use operand_types::binary_of;
use pattern_types::Operand;
use std::alloc::{AllocError, Global};
use sv_source::Items;
use sv_tree::{AssignmentOperator, BinaryOperator};
use typing_parts::Names;

/// The operator of an assignment that combines its target with a value.
pub fn operator_of(op: AssignmentOperator) -> Option<BinaryOperator>
    ensures { result ≡ statement.operator_of op }
{
    match op {
        AssignmentOperator::Assign => None,
        AssignmentOperator::Nonblocking => None,
        AssignmentOperator::Add => Some(BinaryOperator::Add),
        AssignmentOperator::Subtract => Some(BinaryOperator::Subtract),
        AssignmentOperator::Multiply => Some(BinaryOperator::Multiply),
        AssignmentOperator::Divide => Some(BinaryOperator::Divide),
        AssignmentOperator::Remainder => Some(BinaryOperator::Remainder),
        AssignmentOperator::And => Some(BinaryOperator::And),
        AssignmentOperator::Or => Some(BinaryOperator::Or),
        AssignmentOperator::Xor => Some(BinaryOperator::Xor),
        AssignmentOperator::ShiftLeft => Some(BinaryOperator::ShiftLeft),
        AssignmentOperator::ShiftRight => Some(BinaryOperator::ShiftRight),
        AssignmentOperator::ArithmeticShiftLeft => Some(BinaryOperator::ArithmeticShiftLeft),
        AssignmentOperator::ArithmeticShiftRight => Some(BinaryOperator::ArithmeticShiftRight),
    }
}

// A copy of a value.
fn copy_valued(alloc: Global, v: &Valued) -> Result<Valued, AllocError>
    ensures { IfOk result (λ c. c ≡ v.now) }
{
    let arithmetic = Items::from_slice(alloc, v.arithmetic.as_slice())?;
    let expr = copy_expr(alloc, &v.expr)?;
    Ok(Valued {
        first: v.first,
        begins: v.begins,
        is_unsized: v.is_unsized,
        expr,
        arithmetic,
    })
}

// A target as the left operand of its operator; a stream is none (E512).
fn as_left<S: Names>(alloc: Global, names: &S, to: &Target) -> Result<Valued, Halt>
    requires { IsNarrowTarget to.now }
    ensures value { (d : def.Target) → StandsFor to.now d → Gives result (statement.as_operand (S.context names.now) d) }
    ensures narrow { IfOk result IsNarrow }
{
    match to {
        Target::Path(of) => Ok(copy_valued(alloc, of)?),
        Target::Parts { of, .. } => Ok(copy_valued(alloc, of)?),
        Target::Stream(of) => Err(Halt::Breaks {
            at: of.first,
            rule: 512,
        }),
    }
}

// What stands on the right of an operator: no pattern (E505) and no stream (E512).
fn as_right<S: Names>(names: &S, o: Operand) -> Result<Valued, Halt>
    requires { IsNarrowOperand o }
    ensures value { Gives result (rule.is_value (S.context names.now).source (operand_of (S.context names.now).source o)) }
    ensures narrow { IfOk result IsNarrow }
{
    match o {
        Operand::Plain(v) => Ok(v),
        Operand::Pattern { tick, items, .. } => {
            drop(items);
            Err(Halt::Breaks {
                at: tick,
                rule: 505,
            })
        }
        Operand::Stream(v) => Err(Halt::Breaks {
            at: v.first,
            rule: 512,
        }),
    }
}

/// Both, or why the first of them that isn't there isn't.
pub fn pair<A: Drop, B: Drop>(a: Result<A, Halt>, b: Result<B, Halt>) -> Result<(A, B), Halt>
    ensures { Pairs a b result }
{
    let a = a?;
    let b = b?;
    Ok((a, b))
}

// An operator at a token between two values.
fn both<S: Names>(
    alloc: Global,
    names: &S,
    at: u32,
    op: BinaryOperator,
    left: Valued,
    right: Valued,
) -> Result<Operand, Halt>
    requires left { IsNarrow left }
    requires right { IsNarrow right }
    ensures value { Gives (as_operand (S.context names.now).source result) (both_of (S.context names.now) at op left right) }
    ensures narrow { NarrowIfOk result }
{
    let made = binary_of(alloc, names.text(), op, at, left, right)?;
    Ok(Operand::Plain(made))
}

// An operator at a token between a target and what is typed.
#[tactic(auto, using(crate::proofs::Pairing::pairing))]
fn operated<S: Names>(
    alloc: Global,
    names: &S,
    at: u32,
    op: BinaryOperator,
    to: &Target,
    o: Operand,
) -> Result<Operand, Halt>
    requires target { IsNarrowTarget to.now }
    requires narrow { IsNarrowOperand o }
    ensures value { (d : def.Target) → StandsFor to.now d → Gives (as_operand (S.context names.now).source result) (statement.combined (S.context names.now) at (Some op) d (operand_of (S.context names.now).source o)) }
    ensures narrow { NarrowIfOk result }
{
    let (left, right) = pair(as_left(alloc, names, to), as_right(names, o))?;
    both(alloc, names, at, op, left, right)
}

/// What an assignment with an operator at a token gives to its target: `a op= b` is `a = a op b` (IEEE 1800-2017 clause 11.4.1), where
/// both are values. Without one it gives what stands on its right.
pub fn combined<S: Names>(
    alloc: Global,
    names: &S,
    at: u32,
    op: Option<BinaryOperator>,
    to: &Target,
    o: Operand,
) -> Result<Operand, Halt>
    requires target { IsNarrowTarget to.now }
    requires narrow { IsNarrowOperand o }
    ensures value { (d : def.Target) → StandsFor to.now d → Gives (as_operand (S.context names.now).source result) (statement.combined (S.context names.now) at op d (operand_of (S.context names.now).source o)) }
    ensures narrow { NarrowIfOk result }
{
    match op {
        None => Ok(o),
        Some(op) => operated(alloc, names, at, op, to, o),
    }
}
