//! Breaks of the rules on bits of one process.

ghost use Rattle.std.specs.Prelude.{◌≡◌, true, IfOk};
ghost use Rattle.sv_types.specs.declared.design.Design.{Design};
ghost use Rattle.design_breaks.specs.Memories.{flow, is_edged};
ghost use Rattle.design_breaks.specs.Breaks as B;
ghost use Rattle.flow_sets.specs.Flows.{IsFlow};
ghost use Rattle.comb_order.specs.Bits.{KeepsLimits, widths_of};
ghost use Rattle.flow_breaks.specs.Pieces.{IsFoundOf};
ghost use Rattle.least_breaks.specs.Least.{IsLeastToken};
ghost use Rattle.proc_rules.specs.Processes.{AreBitTokens};

use flow_breaks::{least_unset, left_out, read_early};
use flow_sets::Found;
use std::alloc::{AllocError, Global};
use sv_types::{Design, Process, ProcessKind};
use value_breaks::{drives_a_value, writes_input};

/// The least tokens of the rules on bits.
#[derive(Clone, Copy)]
pub struct BitTokens {
    /// Of E601, by a declared value.
    pub drives: Option<u32>,
    /// Of E603.
    pub left: Option<u32>,
    /// Of E604, by a bit.
    pub early: Option<u32>,
    /// Of E604, by a local.
    pub local: Option<u32>,
    /// Of E611.
    pub input: Option<u32>,
}

fn is_complete(kind: &ProcessKind) -> bool
    ensures { (d : Design) → result ≡ B.is_complete d kind.now }
{
    match kind {
        ProcessKind::Continuous => false,
        ProcessKind::Link(_) => false,
        ProcessKind::Comb => false,
        ProcessKind::Latch => true,
        ProcessKind::Star => false,
        ProcessKind::Edges(_) => true,
    }
}

fn waits_for_edges(kind: &ProcessKind) -> bool
    ensures { result ≡ is_edged kind.now }
{
    match kind {
        ProcessKind::Continuous => false,
        ProcessKind::Link(_) => false,
        ProcessKind::Comb => false,
        ProcessKind::Latch => false,
        ProcessKind::Star => false,
        ProcessKind::Edges(_) => true,
    }
}

// The least token of E603.
fn left_token(
    alloc: Global,
    design: &Design,
    widths: &[u32],
    p: &Process,
    found: &Found,
) -> Result<Option<u32>, AllocError>
    requires limits { KeepsLimits design.now }
    requires widths { widths.now ≡ widths_of design.now.signals }
    requires flow { IsFlow found.now (flow design.now p.now) }
    requires unrolls { B.unrolls design.now p.now.body ≡ true }
    ensures { IfOk result (λ r. IsLeastToken (B.left_out design.now p.now) r) }
{
    if is_complete(&p.kind) {
        return Ok(None);
    }
    let least = left_out(alloc, widths, found)?;
    Ok(least)
}

// The least token of E604 by a bit.
fn early_token(
    alloc: Global,
    design: &Design,
    widths: &[u32],
    p: &Process,
    found: &Found,
) -> Result<Option<u32>, AllocError>
    requires limits { KeepsLimits design.now }
    requires widths { widths.now ≡ widths_of design.now.signals }
    requires flow { IsFlow found.now (flow design.now p.now) }
    requires unrolls { B.unrolls design.now p.now.body ≡ true }
    ensures { IfOk result (λ r. IsLeastToken (B.read_early design.now p.now) r) }
{
    if waits_for_edges(&p.kind) {
        return Ok(None);
    }
    let least = read_early(alloc, widths, found)?;
    Ok(least)
}

fn found_tokens(
    alloc: Global,
    design: &Design,
    widths: &[u32],
    p: &Process,
    found: &Found,
) -> Result<BitTokens, AllocError>
    requires limits { KeepsLimits design.now }
    requires widths { widths.now ≡ widths_of design.now.signals }
    requires flow { IsFlow found.now (flow design.now p.now) }
    requires unrolls { B.unrolls design.now p.now.body ≡ true }
    ensures { IfOk result (λ r. AreBitTokens design.now p.now r) }
{
    let left = left_token(alloc, design, widths, p, found)?;
    let early = early_token(alloc, design, widths, p, found)?;
    let signals = design.signals.as_slice();
    Ok(BitTokens {
        drives: drives_a_value(signals, p, found),
        left,
        early,
        local: least_unset(found),
        input: writes_input(signals, p, found),
    })
}

/// The least tokens of a process, by what is found of it if it can be unrolled.
pub fn bit_tokens(
    alloc: Global,
    design: &Design,
    widths: &[u32],
    p: &Process,
    found: &Option<Found>,
) -> Result<BitTokens, AllocError>
    requires limits { KeepsLimits design.now }
    requires widths { widths.now ≡ widths_of design.now.signals }
    requires found { IsFoundOf design.now p.now found.now }
    ensures { IfOk result (λ r. AreBitTokens design.now p.now r) }
{
    match found {
        None => Ok(BitTokens {
            drives: None,
            left: None,
            early: None,
            local: None,
            input: None,
        }),
        Some(f) => found_tokens(alloc, design, widths, p, f),
    }
}
