//! What is known of statements without statements in them (IEEE 1800-2017 clauses 10.4 and 13.5).

ghost use Rattle.std.specs.Prelude.{◌≡◌, ◌∷◌, true, map, List, [], IfOk};
ghost use Rattle.sv_types.specs.Surroundings.{Use, Write};
ghost use Rattle.flow_sets.specs.Bits.{AreUses, AreWrites};
ghost use Rattle.flow_sets.specs.Ends.{AreKnown};
ghost use Rattle.flow_sets.specs.Flows.{IsFlow};
ghost use Rattle.part_flows.specs.Flows as spec;
ghost use Rattle.sv_types.specs.Expressions.{meaning};
ghost use Rattle.sv_types.specs.Flows as F;
ghost use Rattle.eval_parts.specs.Limits.{FitsAlone, AllFit};
ghost use Rattle.eval_forms.specs.Callees.{formals_in};
ghost use Rattle.eval_runs.specs.Functions.{AllCanRun};
ghost use Rattle.expr_flows.specs.Known.{sight};
ghost use Rattle.expr_flows.specs.Full.{is_full, all_full};
ghost use Rattle.part_flows.specs.Flows.{FlowGives};

use bit_sets::Uses;
use expr_flows::{FlowFail, Known, add_reads, add_targets};
use flow_sets::{Found, Writes, and_then, reading, writing, writing_later};
use std::alloc::{AllocError, Global};
use sv_types::Expr;

/// A condition is valued.
pub fn condition(alloc: Global, known: Known<'_>, e: &Expr) -> Result<Found, FlowFail>
    requires functions { AllCanRun known.functions.now }
    requires fits { FitsAlone (meaning e.now) (formals_in known.functions.now) }
    requires full { is_full (formals_in known.functions.now) e.now ≡ true }
    ensures { FlowGives result known.entry (e.now ∷ []) (F.reading ((meaning e.now).reads (sight known.entry))) }
{
    let mut reads = Uses::new(alloc);
    let _constant = add_reads(alloc, known, e, &mut reads)?;
    Ok(reading(alloc, reads)?)
}

// What is read, and then what is written, now or later.
fn written(alloc: Global, reads: Uses, writes: Writes, later: bool) -> Result<Found, AllocError>
    ensures known { IfOk result (λ r. AreKnown r.ends) }
    ensures flow { IfOk result (λ r. (us : List Use) (ws : List Write) → AreUses reads us → AreWrites writes ws → IsFlow r (spec.written later us ws)) }
{
    let first = reading(alloc, reads)?;
    let then = if later {
        writing_later(alloc, writes)
    } else {
        writing(alloc, writes)?
    };
    and_then(alloc, first, then)
}

/// An assignment.
pub fn assign_flow(
    alloc: Global,
    known: Known<'_>,
    to: &[Expr],
    value: &Expr,
    later: bool,
) -> Result<Found, FlowFail>
    requires functions { AllCanRun known.functions.now }
    requires targets { AllFit to.now (formals_in known.functions.now) }
    requires value { FitsAlone (meaning value.now) (formals_in known.functions.now) }
    requires full_targets { all_full (formals_in known.functions.now) to.now ≡ true }
    requires full_value { is_full (formals_in known.functions.now) value.now ≡ true }
    ensures { FlowGives result known.entry (value.now ∷ to.now) (F.assigning later (map meaning to.now) (meaning value.now) (sight known.entry)) }
{
    let mut reads = Uses::new(alloc);
    let mut writes = Writes::new(alloc);
    add_targets(alloc, known, to, &mut reads, &mut writes)?;
    let _constant = add_reads(alloc, known, value, &mut reads)?;
    Ok(written(alloc, reads, writes, later)?)
}
