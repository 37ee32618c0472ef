//! Writes through targets (IEEE 1800-2017 clauses 10.4, 10.7 and 11.4.14): the indices of all parts of a target are valued
//! before the first part is written.

ghost use Rattle.std.specs.Prelude.{◌≡◌, ◌≤◌, map, take, drop, IfOk};
ghost use Rattle.sv_types.specs.Operators.{width_of_all};
ghost use Rattle.sv_types.specs.Expressions.{meaning};
ghost use Rattle.eval_parts.specs.Limits.{FitsAlone};
ghost use Rattle.eval_parts.specs.Steps.{is_held};
ghost use Rattle.eval_exprs.specs.Calls.{CallsRun};
ghost use Rattle.eval_exprs.specs.Held.{around, formals};
ghost use Rattle.eval_stmts.specs.Environments.{AllHeld};
ghost use Rattle.eval_stmts.specs.Parts.{PartsFit, TargetGives, TargetsGive};
ghost use Rattle.eval_stmts.specs.Targets.{AllNarrow};

use crate::env::Update;
use crate::parts::{Target, target_of};
use b4_core::Vec4;
use eval_exprs::{Call, Called, Held, bits, find};
use eval_parts::{Halt, own_sign, own_width, streamed_bits};
use std::alloc::{AllocError, Global};
use sv_types::{Expr, store};

/// The bits of expressions together.
pub fn total_width(es: &[Expr]) -> u32
    requires narrow { AllNarrow es.now }
    requires few { width_of_all (map meaning es.now) ≤ 4194304 }
    ensures { result ≡ width_of_all (map meaning es.now) }
{
    let mut width: u32 = 0;
    for e in es {
        width += own_width(e);
    }
    width
}

// So many bits of a vector from one on, as far as there are.
fn piece_of(alloc: Global, v: &Vec4, low: u32, count: u32) -> Result<Vec4, AllocError>
    ensures { IfOk result (λ r. r ≡ take count (drop low v.now)) }
{
    let from = (low as usize).min(v.len());
    let to = from + (count as usize).min(v.len() - from);
    Vec4::from_slice(alloc, &v.as_slice()[from..to])
}

/// Collects the updates that give a value to a target, whose indices are valued here.
#[cycle(collect)]
pub fn collect<C: Fn(Call) -> Result<Called, Halt>>(
    alloc: Global,
    calls: &C,
    held: Held<'_>,
    e: &Expr,
    value: &Vec4,
    to: &mut Vec<Update>,
    budget: &mut Option<u64>,
) -> Result<(), Halt>
    requires calls { CallsRun (C.IsAlwaysCallable calls.now) (C.post calls.now) held.scope }
    requires fits { FitsAlone (meaning e.now) (formals held.scope) }
    requires roots { AllHeld (meaning e.now).roots (is_held held.signals.now) }
    ensures { TargetGives result (meaning e.now) value.now (around held.entry) to.old.items to.new.items budget.old budget.new }
{
    match target_of(e) {
        Target::Path(_) => {
            let found = find(alloc, calls, held, e, budget)?;
            let stored = store(alloc, &e.of, value)?;
            to.push(Update {
                to: found,
                bits: stored,
            })?;
            Ok(())
        }
        Target::Concat(es) => collect_all(alloc, calls, held, es, value, to, budget),
        Target::Stream(stream) => {
            let copied = Vec4::from_slice(alloc, value.as_slice())?;
            let ordered = streamed_bits(alloc, stream.reversed, stream.slice, copied)?;
            collect_all(alloc, calls, held, stream.parts, &ordered, to, budget)
        }
        Target::Value => {
            let _value = bits(alloc, calls, held, e, own_width(e), own_sign(e), budget)?;
            Ok(())
        }
    }
}

/// Collects the updates that give a value to parts of a target, the first part most significant.
#[cycle(collect)]
pub fn collect_all<C: Fn(Call) -> Result<Called, Halt>>(
    alloc: Global,
    calls: &C,
    held: Held<'_>,
    es: &[Expr],
    value: &Vec4,
    to: &mut Vec<Update>,
    budget: &mut Option<u64>,
) -> Result<(), Halt>
    requires calls { CallsRun (C.IsAlwaysCallable calls.now) (C.post calls.now) held.scope }
    requires fits { PartsFit es.now (formals held.scope) (is_held held.signals.now) }
    ensures { TargetsGive result (map meaning es.now) value.now (around held.entry) to.old.items to.new.items budget.old budget.new }
{
    let mut above = total_width(es);
    for e in es {
        let width = own_width(e);
        above -= width;
        let piece = piece_of(alloc, value, above, width)?;
        collect(alloc, calls, held, e, &piece, to, budget)?;
    }
    Ok(())
}
