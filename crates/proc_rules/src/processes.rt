//! The least break of one process, and of all.

ghost use Rattle.std.specs.Prelude.{◌≡◌, IfOk, flat_map};
ghost use Rattle.design_breaks.specs.Breaks as B;
ghost use Rattle.comb_order.specs.Bits.{KeepsLimits, widths_of};
ghost use Rattle.flow_breaks.specs.Pieces.{AreFound, IsFoundOf};
ghost use Rattle.action_breaks.specs.Misuse.{IsWrong};
ghost use Rattle.edge_breaks.specs.Joins.{AreJoined};
ghost use Rattle.least_breaks.specs.Least.{IsLeast, IsLeastToken};
ghost use Rattle.proc_rules.specs.Processes as spec;
ghost use Rattle.proc_rules.specs.Processes.{AreBitTokens, IsLoops, AreLoops, own_breaks};

use crate::bits::{BitTokens, bit_tokens};
use crate::bodies::Loops;
use action_breaks::{Wrong, process_wrong};
use design_breaks::Break;
use edge_breaks::unfit_edges;
use flow_sets::Found;
use least_breaks::{break_at, lesser};
use std::alloc::{AllocError, Global};
use sv_types::{Design, Process};

/// A token of E703.
pub fn long_token(loops: Loops, at: u32) -> Option<u32>
    ensures { result ≡ spec.long_token loops at }
{
    if loops.too_long { Some(at) } else { None }
}

// The least of the breaks at these tokens of a process.
fn least_of_tokens(
    design: &Design,
    p: &Process,
    bits: BitTokens,
    wrong: Wrong,
    unfit: Option<u32>,
    loops: Loops,
) -> Option<Break>
    requires bits { AreBitTokens design.now p.now bits }
    requires wrong { IsWrong design.now p.now wrong }
    requires unfit { IsLeastToken (B.unfit_edges design.now p.now) unfit }
    requires loops { IsLoops design.now p.now.body loops }
    ensures { IsLeast (own_breaks design.now p.now) result }
{
    let i = p.instance;
    let long = break_at(i, 703, long_token(loops, p.spot.at));
    let input = lesser(break_at(i, 611, bits.input), long);
    let endless = lesser(break_at(i, 608, loops.endless), input);
    let edges = lesser(break_at(i, 607, unfit), endless);
    let deferred = lesser(break_at(i, 606, wrong.deferred), edges);
    let at_once = lesser(break_at(i, 605, wrong.at_once), deferred);
    let local = lesser(break_at(i, 604, bits.local), at_once);
    let early = lesser(break_at(i, 604, bits.early), local);
    let left = lesser(break_at(i, 603, bits.left), early);
    lesser(break_at(i, 601, bits.drives), left)
}

// The least break of a process but for E601 by two writers.
fn process_break(
    alloc: Global,
    design: &Design,
    widths: &[u32],
    joined: &[bool],
    p: &Process,
    found: &Option<Found>,
    loops: Loops,
) -> Result<Option<Break>, AllocError>
    requires limits { KeepsLimits design.now }
    requires widths { widths.now ≡ widths_of design.now.signals }
    requires joined { AreJoined design.now joined.now }
    requires found { IsFoundOf design.now p.now found.now }
    requires loops { IsLoops design.now p.now.body loops }
    ensures { IfOk result (λ r. IsLeast (own_breaks design.now p.now) r) }
{
    let bits = bit_tokens(alloc, design, widths, p, found)?;
    let wrong = process_wrong(design.functions.as_slice(), p);
    let unfit = unfit_edges(design.signals.as_slice(), joined, p);
    Ok(least_of_tokens(design, p, bits, wrong, unfit, loops))
}

/// The least break of all processes but for E601 by two writers.
pub fn process_breaks(
    alloc: Global,
    design: &Design,
    widths: &[u32],
    joined: &[bool],
    found: &[Option<Found>],
    loops: &[Loops],
) -> Result<Option<Break>, AllocError>
    requires limits { KeepsLimits design.now }
    requires widths { widths.now ≡ widths_of design.now.signals }
    requires joined { AreJoined design.now joined.now }
    requires found { AreFound design.now found.now }
    requires loops { AreLoops design.now loops.now }
    ensures { IfOk result (λ r. IsLeast (flat_map (own_breaks design.now) design.now.processes) r) }
{
    let processes = design.processes.as_slice();
    let mut least = None;
    for k in 0..processes.len() {
        let one = process_break(
            alloc,
            design,
            widths,
            joined,
            &processes[k],
            &found[k],
            loops[k],
        )?;
        least = lesser(least, one);
    }
    Ok(least)
}
