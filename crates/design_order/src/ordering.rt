//! The order of a design's combinational processes.

ghost use Rattle.std.specs.Prelude.{◌≡◌, None, IfOk, IfErr};
ghost use Rattle.row_machine.specs.Valuation.{OneWriter};
ghost use Rattle.row_machine.specs.Machine as M;
ghost use Rattle.row_machine.specs.Order.{IsOrder};
ghost use Rattle.sv_types.specs.declared.design.Process.{Process};
ghost use Rattle.sv_types.specs.Machine.{machine};
ghost use Rattle.design_breaks.specs.Breaks.{breaks, least_of};
ghost use Rattle.design_breaks.specs.Circles.{IsStuck};
ghost use Rattle.break_laws.specs.Shapes.{Shaped};
ghost use Rattle.comb_order.specs.Combs.{combs_at, IsOrderOf};
ghost use Rattle.comb_order.specs.Stuck.{RefusesStuck};
ghost use Rattle.comb_order.specs.Bits.{KeepsLimits};
ghost use Rattle.unroll_laws.specs.Bodies.{DesignFits};
ghost use Rattle.design_order.specs.Running.{RunsIn};

use crate::flows::process_flows;
use comb_order::{Order, order_of};
use std::alloc::Global;
use sv_source::Fail;
use sv_types::Design;

/// The numbers of the combinational processes of a design that breaks no rule on processes, each behind those that it follows. If
/// some of them are stuck, E602 at the one whose break is the least. Of the design it is asked that no signal has over 2^22 bits,
/// as E702 lets all of them have together, that there are no more than 2^32 processes, and that all bodies are typed. If it is
/// shaped as an elaborated one too, it has exactly one trace for any rows.
pub fn order(alloc: Global, design: &Design) -> Result<Order, Fail>
    requires limits { KeepsLimits design.now }
    requires fits { DesignFits design.now }
    requires unbroken { least_of (breaks design.now) ≡ None }
    ensures order { IfOk result (λ o. IsOrderOf design.now o) }
    ensures runs { IfOk result (λ o. OneWriter (λ (p : M.Process). p.writes) (machine design.now).combs → IsOrder (machine design.now).combs (combs_at design.now o)) }
    ensures none_stuck { IfOk result (λ o. (p : Process) → IsStuck design.now p → ⊥) }
    ensures one_trace { IfOk result (λ o. Shaped design.now → RunsIn design.now o) }
    ensures refused { IfErr result (λ e. RefusesStuck design.now e) }
{
    let flows = process_flows(alloc, design)?;
    order_of(alloc, design, flows.as_slice())
}
