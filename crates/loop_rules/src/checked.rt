//! Designs that are refused, and such as break no rule.

ghost use Rattle.std.specs.Prelude.{◌≡◌, ◌≤◌, ◌^◌, length, None, IfOk, IfErr};
ghost use Rattle.comb_order.specs.Bits.{KeepsLimits};
ghost use Rattle.design_breaks.specs.Breaks.{breaks, least_of};
ghost use Rattle.design_breaks.specs.Spots.{RefusesBreak};
ghost use Rattle.edge_breaks.specs.Joins.{LinksStand};
ghost use Rattle.unroll_laws.specs.Bodies.{DesignFits};

use crate::check::least_break;
use break_spots::check_least;
use std::alloc::Global;
use sv_source::Fail;
use sv_types::Design;

/// A typed design that breaks none of the rules on processes.
#[derive(Drop)]
pub struct Checked {
    /// The design.
    pub design: Design,
}

/// The same design where it breaks none of the rules on processes (IEEE 1800-2017 clauses 6.5, 9.2, 10.3, 12.7 and 13.4), or the
/// refusal of its least break, at the token where it stands: E601, E603 to E608, E611, E701 and E703. Or want of memory.
pub fn check_processes(alloc: Global, design: Design) -> Result<Checked, Fail>
    requires limits { KeepsLimits design }
    requires few { length design.signals ≤ 2 ^ 32 }
    requires links { LinksStand design }
    requires fits { DesignFits design }
    ensures same { IfOk result (λ c. c.design ≡ design) }
    ensures unbroken { IfOk result (λ c. least_of (breaks c.design) ≡ None) }
    ensures refused { IfErr result (λ e. RefusesBreak design e) }
{
    let least = least_break(alloc, &design)?;
    check_least(alloc, &design, least)?;
    Ok(Checked { design })
}
