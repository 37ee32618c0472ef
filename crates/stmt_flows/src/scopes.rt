//! Blocks and their locals (IEEE 1800-2017 clause 9.3.1), and what stands for replaced calls.

ghost use Rattle.std.specs.Prelude.{IfOk, ◌≡◌, ◌∷◌, true, Bool, List, [], length, map, Option, Some};
ghost use Rattle.sv_types.specs.Expressions.{meaning};
ghost use Rattle.sv_types.specs.Flows as F;
ghost use Rattle.sv_types.specs.Statements.{scope_flow, marks_of, initial_of};
ghost use Rattle.eval_forms.specs.Callees.{formals_in};
ghost use Rattle.eval_parts.specs.Limits.{FitsAlone};
ghost use Rattle.eval_runs.specs.Functions.{AllCanRun};
ghost use Rattle.eval_stmts.specs.Limits.{LocalFits, AllLocalsFit};
ghost use Rattle.flow_sets.specs.Ends.{AreKnown};
ghost use Rattle.flow_sets.specs.Flows.{IsFlow};
ghost use Rattle.expr_flows.specs.Known.{sight};
ghost use Rattle.expr_flows.specs.Full.{is_full, all_full};
ghost use Rattle.part_flows.specs.Flows.{FlowGives};
ghost use Rattle.stmt_flows.specs.Full.{written_start, written_starts};
ghost use Rattle.stmt_flows.specs.Gives.{FoundGives};
ghost use Rattle.stmt_flows.specs.Long.{SomeHoldLong};
ghost use Rattle.stmt_flows.specs.Scopes.{ScopeGives};

use crate::fails::StmtFail;
use expr_flows::{FlowFail, Known};
use flow_sets::{Found, and_then, counted, uncounted, unset_in};
use part_flows::{condition, setting};
use std::alloc::Global;
use sv_types::{Expr, Local, width as width_of_type};

/// An expression is valued, and a local with so many bits is written whole.
pub fn started(
    alloc: Global,
    known: Known<'_>,
    local: u32,
    width: u32,
    e: &Expr,
) -> Result<Found, FlowFail>
    requires functions { AllCanRun known.functions.now }
    requires fits { FitsAlone (meaning e.now) (formals_in known.functions.now) }
    requires full { is_full (formals_in known.functions.now) e.now ≡ true }
    ensures known { IfOk result (λ r. AreKnown r.ends) }
    ensures gives { (marks : List Bool) → length marks ≡ width → FlowGives result known.entry (e.now ∷ []) (F.starting local marks (Some (meaning e.now)) (sight known.entry)) }
{
    let reads = condition(alloc, known, e)?;
    let set = setting(alloc, local, width)?;
    Ok(and_then(alloc, reads, set)?)
}

// A local that starts anew, and what comes behind it.
fn start_flow(alloc: Global, known: Known<'_>, l: &Local, behind: Found) -> Result<Found, FlowFail>
    requires functions { AllCanRun known.functions.now }
    requires fits { LocalFits l.now (formals_in known.functions.now) }
    requires full { all_full (formals_in known.functions.now) (written_start l.now) ≡ true }
    requires behind { AreKnown behind.ends }
    ensures known { IfOk result (λ r. AreKnown r.ends) }
    ensures gives { (f : F.Flow) → IsFlow behind f → FlowGives result known.entry (written_start l.now) (F.and_then (F.starting l.now.number (marks_of l.now) (initial_of l.now) (sight known.entry)) (F.unset_in l.now.number (marks_of l.now) (initial_of l.now) f)) }
{
    let width = width_of_type(&l.of);
    match &l.initial {
        None => {
            let unset = unset_in(l.number, width, behind)?;
            let set = setting(alloc, l.number, width)?;
            Ok(and_then(alloc, set, unset)?)
        }
        Some(e) => {
            let start = started(alloc, known, l.number, width, e)?;
            Ok(and_then(alloc, start, behind)?)
        }
    }
}

// Locals that start anew, the first one first, and what comes behind them.
fn starts_flow(
    alloc: Global,
    known: Known<'_>,
    locals: &[Local],
    body: Found,
) -> Result<Found, FlowFail>
    requires functions { AllCanRun known.functions.now }
    requires fits { AllLocalsFit locals.now (formals_in known.functions.now) }
    requires full { all_full (formals_in known.functions.now) (written_starts locals.now) ≡ true }
    requires body { AreKnown body.ends }
    ensures known { IfOk result (λ r. AreKnown r.ends) }
    ensures gives { (f : F.Flows) → IsFlow body (f (sight known.entry)) → FlowGives result known.entry (written_starts locals.now) (scope_flow locals.now f (sight known.entry)) }
{
    let mut found = body;
    let mut i = locals.len();
    while i > 0 {
        i -= 1;
        found = start_flow(alloc, known, &locals[i], found)?;
    }
    Ok(found)
}

/// A block of these locals with this body.
pub fn block_flow(
    alloc: Global,
    known: Known<'_>,
    locals: &[Local],
    body: Found,
) -> Result<Found, StmtFail>
    requires functions { AllCanRun known.functions.now }
    requires fits { AllLocalsFit locals.now (formals_in known.functions.now) }
    requires full { all_full (formals_in known.functions.now) (written_starts locals.now) ≡ true }
    requires body { AreKnown body.ends }
    ensures { (f : F.Flows) → IsFlow body (f (sight known.entry)) → ScopeGives result known.entry locals.now (F.counted (scope_flow locals.now f (sight known.entry))) }
{
    let found = starts_flow(alloc, known, locals, body)?;
    Ok(counted(found))
}

/// What stands for a replaced call without a body: one statement.
pub fn bare_made_flow(
    alloc: Global,
    known: Known<'_>,
    locals: &[Local],
    before: Found,
) -> Result<Found, StmtFail>
    requires functions { AllCanRun known.functions.now }
    requires fits { AllLocalsFit locals.now (formals_in known.functions.now) }
    requires full { all_full (formals_in known.functions.now) (written_starts locals.now) ≡ true }
    requires before { AreKnown before.ends }
    ensures { (f : F.Flows) → IsFlow before (f (sight known.entry)) → ScopeGives result known.entry locals.now (F.counted (record (scope_flow locals.now f (sight known.entry)) { statements = 0 })) }
{
    let found = starts_flow(alloc, known, locals, before)?;
    Ok(counted(uncounted(found)))
}

/// What stands for a replaced call: what stands before its body doesn't count.
pub fn made_flow(
    alloc: Global,
    known: Known<'_>,
    locals: &[Local],
    before: Found,
    body: Found,
) -> Result<Found, StmtFail>
    requires functions { AllCanRun known.functions.now }
    requires fits { AllLocalsFit locals.now (formals_in known.functions.now) }
    requires full { all_full (formals_in known.functions.now) (written_starts locals.now) ≡ true }
    requires before { AreKnown before.ends }
    requires body { AreKnown body.ends }
    ensures { (f g : F.Flows) → IsFlow before (f (sight known.entry)) → IsFlow body (g (sight known.entry)) → ScopeGives result known.entry locals.now (scope_flow locals.now (λ k. F.and_then (record (f k) { statements = 0 }) (g k)) (sight known.entry)) }
{
    let both = and_then(alloc, uncounted(before), body)?;
    let found = starts_flow(alloc, known, locals, both)?;
    Ok(found)
}
