//! The order of the combinational processes.

ghost use Rattle.std.specs.Prelude.{◌≡◌, ◌<◌, ℕ, length, map, slice_index_or, IfOk, IfErr};
ghost use Rattle.row_machine.specs.Valuation.{OneWriter};
ghost use Rattle.row_machine.specs.Machine as M;
ghost use Rattle.row_machine.specs.Order.{IsOrder};
ghost use Rattle.sv_types.specs.declared.design.Process.{Process};
ghost use Rattle.sv_types.specs.Machine.{machine};
ghost use Rattle.design_breaks.specs.Circles.{IsStuck};
ghost use Rattle.comb_order.specs.Combs.{combs_at, numbers_from, number_at, IsOrderOf};
ghost use Rattle.comb_order.specs.Stuck.{IsRefusalOf, RefusesStuck};
ghost use Rattle.comb_order.specs.Bits.{AreFlows, AreFootprintsOf, KeepsLimits};

use crate::bits::widths;
use crate::combs::{comb_footprints, comb_numbers};
use crate::least::{first_of, refusal_of};
use bit_needs::{Footprint, needs_of};
use flow_sets::Found;
use peel::peel;
use sqlite_items::Items;
use std::alloc::{AllocError, Global};
use sv_source::{Fail, Refusal};
use sv_types::{Design, Process};

/// Numbers of processes, each behind those that it follows.
pub type Order = Items<u32>;

// The numbers at these places.
fn numbers_at(alloc: Global, numbers: &[u32], places: &[u32]) -> Result<Items<u32>, AllocError>
    requires { (k : ℕ) → k < length places.now → slice_index_or places.now k 0 < length numbers.now }
    ensures { IfOk result (λ r. r ≡ map (number_at numbers.now) places.now) }
{
    let mut all = Items::new(alloc);
    for place in places {
        all.push(numbers[*place as usize])?;
    }
    Ok(all)
}

// The refusal of the first of the processes at these places.
fn refused(
    alloc: Global,
    processes: &[Process],
    numbers: &[u32],
    left: &[u32],
) -> Result<Refusal, AllocError>
    requires some { 0 < length left.now }
    requires places { (k : ℕ) → k < length left.now → slice_index_or left.now k 0 < length numbers.now }
    requires within { (k : ℕ) → k < length numbers.now → slice_index_or numbers.now k 0 < length processes.now }
    ensures { IfOk result (λ r. IsRefusalOf processes.now (map (number_at numbers.now) left.now) r) }
{
    let stuck = numbers_at(alloc, numbers, left)?;
    let first = first_of(processes, stuck.as_slice());
    refusal_of(alloc, &processes[first as usize])
}

/// The numbers of the combinational processes of a design, each behind those that it follows, by the footprints of these
/// processes. If some of them are stuck, E602 at the one whose break is the least. It takes n log n steps for n spans of
/// footprints, and one for each two that have a bit in common, where no bit has two writers; no clause says so. Of the design it
/// is asked that no signal has over 2^22 bits, as E702 lets all of them have together, and no more than 2^32 processes.
pub fn order_by(
    alloc: Global,
    design: &Design,
    numbers: &[u32],
    footprints: &[Footprint],
) -> Result<Order, Fail>
    requires limits { KeepsLimits design.now }
    requires numbers { numbers.now ≡ numbers_from 0 design.now.processes }
    requires footprints { AreFootprintsOf design.now footprints.now }
    ensures order { IfOk result (λ o. IsOrderOf design.now o) }
    ensures runs { IfOk result (λ o. OneWriter (λ (p : M.Process). p.writes) (machine design.now).combs → IsOrder (machine design.now).combs (combs_at design.now o)) }
    ensures none_stuck { IfOk result (λ o. (p : Process) → IsStuck design.now p → ⊥) }
    ensures refused { IfErr result (λ e. RefusesStuck design.now e) }
{
    let needs = needs_of(alloc, footprints)?;
    let peeled = peel(alloc, needs.as_slice())?;
    let left = peeled.left.as_slice();
    if left.len() > 0 {
        let refusal = refused(alloc, design.processes.as_slice(), numbers, left)?;
        return Err(Fail::Refused(refusal));
    }
    let order = numbers_at(alloc, numbers, peeled.order.as_slice())?;
    Ok(order)
}

/// The numbers of the combinational processes of a design, each behind those that it follows, by what is found of each
/// process; what stands there of edge processes isn't looked at. If some are stuck, E602 at the one whose break is the least.
/// The limits are as for `order_by`.
pub fn order_of(alloc: Global, design: &Design, flows: &[Found]) -> Result<Order, Fail>
    requires limits { KeepsLimits design.now }
    requires flows { AreFlows design.now flows.now }
    ensures order { IfOk result (λ o. IsOrderOf design.now o) }
    ensures runs { IfOk result (λ o. OneWriter (λ (p : M.Process). p.writes) (machine design.now).combs → IsOrder (machine design.now).combs (combs_at design.now o)) }
    ensures none_stuck { IfOk result (λ o. (p : Process) → IsStuck design.now p → ⊥) }
    ensures refused { IfErr result (λ e. RefusesStuck design.now e) }
{
    let widths = widths(alloc, design.signals.as_slice())?;
    let numbers = comb_numbers(alloc, design.processes.as_slice())?;
    let footprints = comb_footprints(alloc, widths.as_slice(), numbers.as_slice(), flows)?;
    order_by(alloc, design, numbers.as_slice(), footprints.as_slice())
}
