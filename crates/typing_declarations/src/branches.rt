//! Choices.

ghost use Rattle.std.specs.Prelude.{◌≡◌, List, Option, IfOk};
ghost use Rattle.expr_type.specs.declared.operand.Valued as v;
ghost use Rattle.expr_type.specs.Typings.{Typing};
ghost use Rattle.sv_types.specs.declared.statement.Function.{Function};
ghost use Rattle.sv_types.specs.declared.statement.Stmt as s;
ghost use Rattle.sv_types.specs.declared.statement.Stmt.TheVariants as made;
ghost use Rattle.typing_declarations.specs.Branches.{chosen};
ghost use Rattle.typing_steps.specs.Steps.{TypesTo};

use expr_type::{Halt, Valued};
use std::alloc::{AllocError, Global};
use sv_source::Boxed;
use sv_types::{Expr, Stmt};
use typing_sides::beside;

// A statement that may be left out, as a part of another one.
fn boxed(alloc: Global, s: Option<Stmt>) -> Result<Option<Boxed<Stmt>>, AllocError>
    ensures { IfOk result (λ b. b ≡ s) }
{
    match s {
        None => Ok(None),
        Some(s) => Ok(Some(Boxed::new(alloc, s)?)),
    }
}

// An `if` of its parts.
fn if_of(alloc: Global, on: Expr, body: Stmt, other: Option<Stmt>) -> Result<Stmt, AllocError>
    ensures { IfOk result (λ s. s ≡ made.If on body other) }
{
    let branches = pairs::both(Boxed::new(alloc, body), boxed(alloc, other));
    let ((body, other), on) = pairs::both(branches, Ok(on))?;
    Ok(Stmt::If { on, body, other })
}

/// An `if` of a condition and branches that have been looked at (IEEE 1800-2017 clause 12.4). The first break in the order of the text
/// counts.
#[tactic(auto, using(crate::proofs::Sides::choices))]
pub fn choice(
    alloc: Global,
    test: Result<Valued, Halt>,
    body: Result<Stmt, Halt>,
    other: Result<Option<Stmt>, Halt>,
) -> Result<Stmt, Halt>
    ensures { (x : Typing v.Valued) (y : Typing s.Stmt) (z : Typing (Option s.Stmt)) (fs gs hs js : List Function) → TypesTo test (x fs) gs → TypesTo body (y gs) hs → TypesTo other (z hs) js → TypesTo result (chosen x y z fs) js }
{
    let branches = beside(body, other);
    let (test, (body, other)) = beside(test, branches)?;
    Ok(if_of(alloc, test.expr, body, other)?)
}
