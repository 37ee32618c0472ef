//! `if` and `case` (IEEE 1800-2017 clauses 12.4 and 12.5): any branch may be taken.

ghost use Rattle.std.specs.Prelude.{◌≡◌, ◌∷◌, ◌++◌, true, [], map};
ghost use Rattle.sv_types.specs.Expressions.{meaning};
ghost use Rattle.sv_types.specs.Flows as F;
ghost use Rattle.eval_forms.specs.Callees.{formals_in};
ghost use Rattle.eval_parts.specs.Limits.{AllFit, FitsAlone};
ghost use Rattle.eval_runs.specs.Functions.{AllCanRun};
ghost use Rattle.eval_stmts.specs.Targets.{CaseFits, values_of};
ghost use Rattle.flow_sets.specs.Ends.{AreKnown};
ghost use Rattle.flow_sets.specs.Flows.{IsFlow};
ghost use Rattle.expr_flows.specs.Full.{is_full, all_full};
ghost use Rattle.expr_flows.specs.Known.{sight};
ghost use Rattle.part_flows.specs.Flows.{FlowGives};
ghost use Rattle.stmt_flows.specs.Branches.{ItemsFitAlone, ValuesGive};
ghost use Rattle.stmt_flows.specs.Gives.{FoundGives};
ghost use Rattle.stmt_flows.specs.Long.{SomeHoldLong, item_values};
ghost use Rattle.stmt_flows.specs.Scopes.{OwnGives};

use crate::fails::StmtFail;
use crate::rows::either;
use bit_sets::Uses;
use expr_flows::{FlowFail, Known, add_reads};
use flow_sets::{Found, and_then, counted, reading};
use part_flows::condition;
use std::alloc::Global;
use sv_types::{CaseItem, Expr};

/// An `if`.
pub fn branch_flow(
    alloc: Global,
    known: Known<'_>,
    counting: bool,
    on: &Expr,
    body: Found,
    other: Found,
) -> Result<Found, StmtFail>
    requires functions { AllCanRun known.functions.now }
    requires fits { FitsAlone (meaning on.now) (formals_in known.functions.now) }
    requires full { is_full (formals_in known.functions.now) on.now ≡ true }
    requires body { AreKnown body.ends }
    requires other { AreKnown other.ends }
    ensures { (f g : F.Flow) → IsFlow body f → IsFlow other g → FoundGives result counting (SomeHoldLong (sight known.entry) (on.now ∷ [])) (F.counted (F.and_then (F.reading ((meaning on.now).reads (sight known.entry))) (F.or_else f g))) }
{
    let branches = either(alloc, counting, body, other)?;
    let test = condition(alloc, known, on)?;
    let found = and_then(alloc, test, branches)?;
    Ok(counted(found))
}

// Adds what some values read.
fn add_values(
    alloc: Global,
    known: Known<'_>,
    values: &[Expr],
    to: &mut Uses,
) -> Result<(), FlowFail>
    requires functions { AllCanRun known.functions.now }
    requires fits { AllFit values.now (formals_in known.functions.now) }
    requires full { all_full (formals_in known.functions.now) values.now ≡ true }
    ensures { ValuesGive result known.entry values.now (map meaning values.now) to.old to.new }
{
    for e in values {
        let _constant = add_reads(alloc, known, e, to)?;
    }
    Ok(())
}

// Adds what the values of all items read.
fn add_item_values(
    alloc: Global,
    known: Known<'_>,
    items: &[CaseItem],
    to: &mut Uses,
) -> Result<(), FlowFail>
    requires functions { AllCanRun known.functions.now }
    requires fits { ItemsFitAlone items.now (formals_in known.functions.now) }
    requires full { all_full (formals_in known.functions.now) (item_values items.now) ≡ true }
    ensures { ValuesGive result known.entry (item_values items.now) (values_of items.now) to.old to.new }
{
    for item in items {
        add_values(alloc, known, item.values.as_slice(), to)?;
    }
    Ok(())
}

// What the selector and all values of a `case` read.
fn selector_flow(
    alloc: Global,
    known: Known<'_>,
    on: &Expr,
    items: &[CaseItem],
) -> Result<Found, FlowFail>
    requires functions { AllCanRun known.functions.now }
    requires fits { FitsAlone (meaning on.now) (formals_in known.functions.now) }
    requires items { ItemsFitAlone items.now (formals_in known.functions.now) }
    requires full { is_full (formals_in known.functions.now) on.now ≡ true }
    requires full_values { all_full (formals_in known.functions.now) (item_values items.now) ≡ true }
    ensures { FlowGives result known.entry (on.now ∷ item_values items.now) (F.reading ((meaning on.now).reads (sight known.entry) ++ F.all_reads (values_of items.now) (sight known.entry))) }
{
    let mut reads = Uses::new(alloc);
    let _constant = add_reads(alloc, known, on, &mut reads)?;
    add_item_values(alloc, known, items, &mut reads)?;
    Ok(reading(alloc, reads)?)
}

/// A `case` with these branches.
pub fn selected_flow(
    alloc: Global,
    known: Known<'_>,
    on: &Expr,
    items: &[CaseItem],
    branches: Found,
) -> Result<Found, StmtFail>
    requires functions { AllCanRun known.functions.now }
    requires fits { CaseFits on.now items.now (formals_in known.functions.now) }
    requires full { is_full (formals_in known.functions.now) on.now ≡ true }
    requires full_values { all_full (formals_in known.functions.now) (item_values items.now) ≡ true }
    requires branches { AreKnown branches.ends }
    ensures { (f : F.Flow) → IsFlow branches f → OwnGives result known.entry (on.now ∷ item_values items.now) (F.counted (F.and_then (F.reading ((meaning on.now).reads (sight known.entry) ++ F.all_reads (values_of items.now) (sight known.entry))) f)) }
{
    let selector = selector_flow(alloc, known, on, items)?;
    let found = and_then(alloc, selector, branches)?;
    Ok(counted(found))
}
