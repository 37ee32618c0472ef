//! Targets under one more condition (IEEE 1364-2005 clause 9.4).

ghost use Rattle.std.specs.Prelude.{◌≡◌, Some, reverse, IfOk, OnOk};
ghost use Rattle.v_meaning.specs.Values.{meaning};
ghost use Rattle.lowering_laws.specs.Terms.{and_guard};
ghost use Rattle.path_flatten.specs.Guards.{guard_meaning};
ghost use Rattle.guarded_writes.specs.Under.{IsUnder, PutsUnder};

use path_flatten::copy_expr;
use std::alloc::{AllocError, Global};
use target_flatten::{Write, Writes};
use v_build::both;
use v_tree::VExpr;

/// A condition, and a guard besides if there is one.
fn besides(
    alloc: Global,
    condition: &VExpr,
    guard: Option<VExpr>,
) -> Result<Option<VExpr>, AllocError>
    ensures { IfOk result (λ g. guard_meaning g ≡ and_guard (Some (meaning condition.now)) (guard_meaning guard)) }
{
    let condition = copy_expr(alloc, condition);
    match guard {
        None => {
            let made = condition?;
            Ok(Some(made))
        }
        Some(guard) => {
            let (condition, guard) = pairs::both(condition, Ok(guard))?;
            let made = both(alloc, condition, guard)?;
            Ok(Some(made))
        }
    }
}

/// A target under one more condition.
fn guarded(alloc: Global, condition: &VExpr, write: Write) -> Result<Write, AllocError>
    ensures { IfOk result (IsUnder (meaning condition.now) write) }
{
    let guard = besides(alloc, condition, write.guard);
    let (guard, to) = pairs::both(guard, Ok(write.to))?;
    Ok(Write {
        guard,
        to,
        low: write.low,
        width: write.width,
    })
}

/// Targets, the last one first.
#[tactic(auto, using(crate::proofs::Under::steps))]
fn turned(alloc: Global, writes: Writes) -> Result<Writes, AllocError>
    ensures { IfOk result (λ turned. reverse turned ≡ writes) }
{
    let mut writes = writes;
    let mut turned = Writes::new(alloc);
    while let Some(write) = writes.pop() {
        turned.push(write)?;
    }
    Ok(turned)
}

/// Targets more, each under a condition besides its own one. Or want of memory.
pub fn put_under(
    alloc: Global,
    condition: &VExpr,
    writes: Writes,
    all: &mut Writes,
) -> Result<(), AllocError>
    ensures { OnOk result (PutsUnder (meaning condition.now) writes all.old all.new) }
{
    let mut rest = turned(alloc, writes)?;
    while let Some(write) = rest.pop() {
        let made = guarded(alloc, condition, write)?;
        all.push(made)?;
    }
    Ok(())
}
