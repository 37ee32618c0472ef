//! What targets write.

ghost use Rattle.eval_parts.specs.Steps.{is_held};
ghost use Rattle.run_fits.specs.Statements.{HeldIf, AllHeldIf};

use b4_core::Vec4;
use eval_parts::{can_be_read, step_of};
use sv_types::{Expr, Form};

/// Whether an expression is a select path of what is held, or a concatenation or stream of such.
#[cycle(held)]
#[tactic(auto, using(crate::proofs::Parts::targets))]
pub fn is_held_target(e: &Expr, held: &[Option<Vec4>]) -> bool
    ensures { HeldIf result e.now (is_held held.now) }
{
    match &e.form {
        Form::Concat(es) => are_held(es.as_slice(), held),
        Form::Stream { parts, .. } => are_held(parts.as_slice(), held),
        _ => is_held_path(e, held),
    }
}

// Whether an expression is a select path of what is held.
#[tactic(auto, using(crate::proofs::Parts::targets))]
fn is_held_path(e: &Expr, held: &[Option<Vec4>]) -> bool
    ensures { HeldIf result e.now (is_held held.now) }
{
    match step_of(e) {
        None => false,
        Some(_) => can_be_read(e, held),
    }
}

/// Whether all of them are.
#[cycle(held)]
pub fn are_held(es: &[Expr], held: &[Option<Vec4>]) -> bool
    ensures { AllHeldIf result es.now (is_held held.now) }
{
    for e in es {
        if !is_held_target(e, held) {
            return false;
        }
    }
    true
}
