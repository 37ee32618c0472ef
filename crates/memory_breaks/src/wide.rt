//! The least break of the rule on wide signals.

ghost use Rattle.std.specs.Prelude.{◌≡◌, ◌≤◌, ◌<◌, ◌^◌, length, IfOk, flat_map};
ghost use Rattle.sv_types.specs.Layouts.{width_of};
ghost use Rattle.comb_order.specs.Bits.{KeepsLimits};
ghost use Rattle.flow_breaks.specs.Pieces.{AreFound};
ghost use Rattle.design_breaks.specs.Breaks as B;
ghost use Rattle.least_breaks.specs.Least.{IsLeast};
ghost use Rattle.memory_breaks.specs.Wide as spec;
ghost use Rattle.memory_breaks.specs.Wide.{IsKnown, AreMarked};

use crate::memories::{Known, is_memory, is_unpacked_array};
use crate::processes::{Written, all_unsettled, all_whole, all_written};
use design_breaks::Break;
use flow_sets::Found;
use least_breaks::lesser;
use std::alloc::{AllocError, Global};
use sv_types::{Design, Signal, width};

const RULE: u16 = 701;

const MOST_BITS: u32 = 65536;

// The break of a signal, by what is known of it.
fn wide_break(
    alloc: Global,
    design: &Design,
    s: &Signal,
    known: Known,
) -> Result<Option<Break>, AllocError>
    requires narrow { width_of s.now.of ≤ 4194304 }
    ensures { IfOk result (λ r. r ≡ spec.wide_break design.now.instances s.now known) }
{
    if !is_unpacked_array(&s.of) || (width(&s.of) <= MOST_BITS || known.unsettled) {
        return Ok(None);
    }
    if is_memory(alloc, design, s, known)? {
        return Ok(None);
    }
    Ok(Some(Break {
        instance: s.instance,
        at: s.spot.at,
        rule: RULE,
    }))
}

// What is known of the signal with a number.
fn known_of(number: usize, whole: &[bool], unsettled: &[bool], written: &Written) -> Known
    requires whole { number < length whole.now }
    requires unsettled { number < length unsettled.now }
    requires edged { number < length written.now.edged }
    requires other { number < length written.now.other }
    ensures { result ≡ spec.known_of number whole.now unsettled.now written.now }
{
    Known {
        whole: whole[number],
        edged: written.edged.as_slice()[number],
        other: written.other.as_slice()[number],
        unsettled: unsettled[number],
    }
}

// The least break of all signals, by these marks.
fn least_wide(
    alloc: Global,
    design: &Design,
    whole: &[bool],
    unsettled: &[bool],
    written: &Written,
) -> Result<Option<Break>, AllocError>
    requires limits { KeepsLimits design.now }
    requires marked { AreMarked design.now whole.now unsettled.now written.now }
    ensures { IfOk result (λ r. IsLeast (spec.wide_breaks design.now) r) }
{
    let signals = design.signals.as_slice();
    let mut least = None;
    for n in 0..signals.len() {
        let known = known_of(n, whole, unsettled, written);
        let one = wide_break(alloc, design, &signals[n], known)?;
        least = lesser(least, one);
    }
    Ok(least)
}

// The same, by what is found of the processes that can be unrolled.
fn least_by(
    alloc: Global,
    design: &Design,
    found: &[Option<Found>],
    whole: &[bool],
    unsettled: &[bool],
) -> Result<Option<Break>, AllocError>
    requires limits { KeepsLimits design.now }
    requires few { length design.now.signals ≤ 2 ^ 32 }
    requires found { AreFound design.now found.now }
    requires whole { whole.now ≡ spec.whole_marks design.now }
    requires unsettled { unsettled.now ≡ spec.unsettled_marks design.now found.now }
    ensures { IfOk result (λ r. IsLeast (spec.wide_breaks design.now) r) }
{
    let signals = design.signals.len();
    let written = all_written(alloc, signals, design.processes.as_slice(), found)?;
    least_wide(alloc, design, whole, unsettled, &written)
}

/// The least break of E701, or none, or want of memory: an unpacked array of over 65,536 bits that is no memory, where all processes
/// that name it can be unrolled. It takes what is found of each process that can be (`stmt_flows`).
pub fn too_wide(
    alloc: Global,
    design: &Design,
    found: &[Option<Found>],
) -> Result<Option<Break>, AllocError>
    requires limits { KeepsLimits design.now }
    requires few { length design.now.signals ≤ 2 ^ 32 }
    requires found { AreFound design.now found.now }
    ensures { IfOk result (λ r. IsLeast (flat_map (B.too_wide design.now) (B.numbered design.now 0 design.now.signals)) r) }
{
    let signals = design.signals.len();
    let processes = design.processes.as_slice();
    let functions = design.functions.as_slice();
    let whole = all_whole(alloc, signals, processes)?;
    let unsettled = all_unsettled(alloc, signals, functions, processes, found)?;
    least_by(alloc, design, found, whole.as_slice(), unsettled.as_slice())
}
