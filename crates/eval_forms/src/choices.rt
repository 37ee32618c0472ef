//! The alternatives of `inside` (IEEE 1800-2017 clause 11.4.13).

ghost use Rattle.std.specs.Prelude.{◌≡◌, length, IfOk};
ghost use Rattle.sv_types.specs.declared.expression.Choice.{out-Choice};
ghost use Rattle.sv_types.specs.declared.expression.Expr.{Expr};
ghost use Rattle.eval_forms.specs.Asked.{choice_asked};
ghost use Rattle.eval_forms.specs.Tests.{test_of, tests_of, TestFits, TestsFit};

use b4_core::{Bit4, EqOp, OrdOp, Vec4, both, equal, order};
use eval_parts::are_signed;
use std::alloc::{AllocError, Global};
use sv_types::{Choice, Expr};

// How many values an alternative asks for.
fn count_asked(choice: &Choice) -> usize
    ensures { (x : Expr) → result ≡ length (choice_asked x (out-Choice choice.now)) }
{
    match choice {
        Choice::Value(_) => 2,
        Choice::Range(_, _) => 4,
    }
}

// Whether a value is an alternative, by the bits that were asked for it.
fn test(x: &Expr, choice: &Choice, values: &[Vec4]) -> Bit4
    requires { TestFits x.now choice.now values.now }
    ensures { result ≡ test_of x.now (out-Choice choice.now) values.now }
{
    match choice {
        Choice::Value(_) => equal(EqOp::Wild, &values[0], &values[1]),
        Choice::Range(low, high) => {
            let above = order(
                OrdOp::GreaterEqual,
                &values[0],
                &values[1],
                are_signed(x, low),
            );
            let below = order(
                OrdOp::LessEqual,
                &values[2],
                &values[3],
                are_signed(x, high),
            );
            both(above, below)
        }
    }
}

/// Which alternatives a value is, by the bits that were asked for all of them.
pub fn tests(
    alloc: Global,
    x: &Expr,
    choices: &[Choice],
    values: &[Vec4],
) -> Result<Vec4, AllocError>
    requires { TestsFit x.now choices.now values.now }
    ensures { IfOk result (λ v. v ≡ tests_of x.now choices.now values.now) }
{
    let mut bits = Vec::with_capacity(alloc, choices.len())?;
    let mut rest = values;
    for choice in choices {
        bits.push(test(x, choice, rest))?;
        rest = &rest[count_asked(choice)..];
    }
    Ok(Vec4::from_vec(bits))
}
