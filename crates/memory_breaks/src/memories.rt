//! Signals that are memories.

ghost use Rattle.std.specs.Prelude.{◌≡◌, ◌≤◌, not, IfOk};
ghost use Rattle.std.specs.List.{list_all};
ghost use Rattle.sv_types.specs.Layouts.{layout, width_of};
ghost use Rattle.design_breaks.specs.Memories as M;
ghost use Rattle.memory_breaks.specs.Memories as spec;

use b4_core::Bit4;
use std::alloc::{AllocError, Global};
use sv_types::{Design, Instance, Signal, SignalKind, SvType, bits_of, default_of};

/// What is known of a signal by all processes.
#[derive(Clone, Copy)]
pub(crate) struct Known {
    /// Whether it stands in one as a whole.
    pub whole: bool,
    /// Whether an edge process may write it.
    pub edged: bool,
    /// Whether another process may write it.
    pub other: bool,
    /// Whether a process names it that can't be unrolled.
    pub unsettled: bool,
}

pub(crate) fn is_unpacked_array(t: &SvType) -> bool
    ensures { result ≡ M.is_unpacked_array t.now }
{
    match t {
        SvType::Scalar { .. } => false,
        SvType::PackedArray { .. } => false,
        SvType::Struct { .. } => false,
        SvType::Union { .. } => false,
        SvType::Enum { .. } => false,
        SvType::UnpackedArray { .. } => true,
    }
}

fn is_port(kind: SignalKind) -> bool
    ensures { result ≡ M.is_port kind }
{
    match kind {
        SignalKind::InputNet => true,
        SignalKind::InputVar => true,
        SignalKind::OutputNet => true,
        SignalKind::OutputVar => true,
        SignalKind::Net => false,
        SignalKind::Variable => false,
    }
}

// Whether the instance with a number is an interface.
fn in_interface(instances: &[Instance], number: u32) -> bool
    ensures { result ≡ spec.in_interface instances.now number }
{
    let place = number.saturating_sub(1) as usize;
    if place < instances.len() {
        instances[place].interface
    } else {
        false
    }
}

fn is_unknown(b: Bit4) -> bool
    ensures { result ≡ spec.is_unknown b }
{
    match b {
        Bit4::Zero => false,
        Bit4::One => false,
        Bit4::X => true,
        Bit4::Z => false,
    }
}

fn are_unknown(bits: &[Bit4]) -> bool
    ensures { result ≡ list_all spec.is_unknown bits.now }
{
    for b in bits {
        if !is_unknown(*b) {
            return false;
        }
    }
    true
}

// Whether all bits of a type are four-state: those that are x by default (clause 6.8).
fn is_four_state(alloc: Global, t: &SvType) -> Result<bool, AllocError>
    requires narrow { width_of t.now ≤ 4194304 }
    ensures { IfOk result (λ r. r ≡ list_all not (layout t.now).two_state) }
{
    let value = default_of(alloc, t)?;
    let bits = bits_of(alloc, t, &value)?;
    Ok(are_unknown(bits.as_slice()))
}

// Whether a signal is no port and has no declared value, edge processes write it and others don't, and it stands nowhere as a whole.
fn is_kept_by_edges(instances: &[Instance], s: &Signal, known: Known) -> bool
    ensures { result ≡ spec.is_kept_by_edges instances.now s.now known }
{
    !s.declared
        && (!is_port(s.kind)
            && (!in_interface(instances, s.instance)
                && (known.edged && (!known.other && !known.whole))))
}

/// Whether an unpacked array is a memory.
pub(crate) fn is_memory(
    alloc: Global,
    design: &Design,
    s: &Signal,
    known: Known,
) -> Result<bool, AllocError>
    requires narrow { width_of s.now.of ≤ 4194304 }
    ensures { IfOk result (λ r. r ≡ spec.is_memory design.now.instances s.now known) }
{
    if is_kept_by_edges(design.instances.as_slice(), s, known) {
        is_four_state(alloc, &s.of)
    } else {
        Ok(false)
    }
}
