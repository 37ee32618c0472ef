//! The combinational processes and the edge processes of a design.

ghost use Rattle.std.specs.Prelude.{◌≡◌, ◌<◌, ◌+◌, true, cond, [], length, IfOk, OnOk};
ghost use Rattle.cycle_dst.specs.Circuits.{waits_for_edges};
ghost use Rattle.cycle_dst.specs.Grounds.{Below, CombAdded, CombsOf, EdgeAdded, EdgesOf, IsGround, Made, NamesListed, StarMade, StarOf, machine_in};

use crate::combs::Comb;
use crate::ground::Ground;
use b4_core::Items;
use std::alloc::{AllocError, Global};
use v_modules::scope_in;
use v_processes::Does;
use v_stores::differ_in;
use v_tree::VBranch;
use v_zero::{Signals, names_without_repeats, triggered_by_listed};

// What is kept of a process that always runs.
fn always(alloc: Global, k: usize) -> Comb
    ensures process { result.process ≡ k }
    ensures from_zero { result.from_zero ≡ true }
    ensures waits { result.waits ≡ [] }
{
    Comb {
        process: k,
        from_zero: true,
        waits: Items::new(alloc),
    }
}

// What a process waits for that is started at time zero, or isn't: from then on it waits for nothing.
fn waits_of(alloc: Global, from_zero: bool, names: Signals) -> Signals
    ensures { result ≡ cond from_zero [] names }
{
    if from_zero { Items::new(alloc) } else { names }
}

// What is kept of a process that runs once one of these signals changes, which it names (IEEE 1364-2005 clause 9.7.5).
fn on_change(alloc: Global, ground: Ground<'_, '_>, k: usize, names: Signals) -> Comb
    requires ground { IsGround ground }
    requires names { NamesListed ground k names }
    ensures { StarMade ground.entry k result }
{
    triggered_by_listed();
    let from_zero = differ_in(names.as_slice(), ground.given, ground.initial);
    Comb {
        process: k,
        from_zero,
        waits: waits_of(alloc, from_zero, names),
    }
}

// What is kept of an `always @*` with this body. Each signal has its mark, below this one.
fn star(
    alloc: Global,
    ground: Ground<'_, '_>,
    k: usize,
    mark: usize,
    body: &VBranch,
    marks: &mut [usize],
) -> Result<Comb, AllocError>
    requires ground { IsGround ground }
    requires there { k < length ground.procs.now }
    requires long { length marks.old ≡ length ground.initial.now }
    requires marks { Below marks.old mark }
    requires body { StarOf ground k body.now }
    ensures long { length marks.new ≡ length marks.old }
    ensures marks { OnOk result (Below marks.new (mark + 1)) }
    ensures made { IfOk result (StarMade ground.entry k) }
{
    let process = &ground.procs[k];
    let table = &ground.tables[process.of];
    let scope = scope_in(table, process.first);
    let names = names_without_repeats(alloc, scope, body, mark, marks)?;
    Ok(on_change(alloc, ground, k, names))
}

// What is kept of the process with a number, if it is combinational.
fn comb_of(
    alloc: Global,
    ground: Ground<'_, '_>,
    k: usize,
    mark: usize,
    marks: &mut [usize],
) -> Result<Option<Comb>, AllocError>
    requires ground { IsGround ground }
    requires there { k < length ground.procs.now }
    requires long { length marks.old ≡ length ground.initial.now }
    requires marks { Below marks.old mark }
    ensures long { length marks.new ≡ length marks.old }
    ensures marks { OnOk result (Below marks.new (mark + 1)) }
    ensures made { IfOk result (Made ground.entry k) }
{
    let process = &ground.procs[k];
    match &process.does {
        Does::Assign { to: _, value: _ } => Ok(Some(always(alloc, k))),
        Does::Star(body) => {
            let comb = star(alloc, ground, k, mark, body, marks)?;
            Ok(Some(comb))
        }
        Does::Edges { edges: _, body: _ } => Ok(None),
        Does::Into { port: _, value: _ } => Ok(Some(always(alloc, k))),
        Does::From { to: _, port: _ } => Ok(Some(always(alloc, k))),
    }
}

// Adds what is kept of the process with a number, if it is combinational.
fn add_comb(
    alloc: Global,
    ground: Ground<'_, '_>,
    k: usize,
    mark: usize,
    marks: &mut [usize],
    combs: &mut Items<Comb>,
) -> Result<(), AllocError>
    requires ground { IsGround ground }
    requires there { k < length ground.procs.now }
    requires long { length marks.old ≡ length ground.initial.now }
    requires marks { Below marks.old mark }
    ensures long { length marks.new ≡ length marks.old }
    ensures marks { OnOk result (Below marks.new (mark + 1)) }
    ensures added { OnOk result (CombAdded ground.entry k combs.old combs.new) }
{
    match comb_of(alloc, ground, k, mark, marks)? {
        None => Ok(()),
        Some(comb) => combs.push(comb),
    }
}

// What is kept of the combinational processes, with a mark for each signal.
fn all_combs(
    alloc: Global,
    ground: Ground<'_, '_>,
    marks: &mut [usize],
) -> Result<Items<Comb>, AllocError>
    requires ground { IsGround ground }
    requires long { length marks.old ≡ length ground.initial.now }
    requires marks { Below marks.old 1 }
    ensures { IfOk result (λ cs. CombsOf ground.entry cs (machine_in ground.entry).combs) }
{
    let mut combs = Items::new(alloc);
    for k in 0..ground.procs.len() {
        add_comb(alloc, ground, k, k + 1, marks, &mut combs)?;
    }
    Ok(combs)
}

/// What is kept of the combinational processes, in their order. Or want of memory.
pub fn combs_of(alloc: Global, ground: Ground<'_, '_>) -> Result<Items<Comb>, AllocError>
    requires { IsGround ground }
    ensures { IfOk result (λ cs. CombsOf ground.entry cs (machine_in ground.entry).combs) }
{
    let mut marks = vec![in alloc; 0; ground.initial.len()]?;
    all_combs(alloc, ground, &mut marks)
}

// Whether a process runs at edges.
fn at_edges(does: &Does<'_>) -> bool
    ensures { result ≡ waits_for_edges does.now }
{
    match does {
        Does::Assign { to: _, value: _ } => false,
        Does::Star(_) => false,
        Does::Edges { edges: _, body: _ } => true,
        Does::Into { port: _, value: _ } => false,
        Does::From { to: _, port: _ } => false,
    }
}

// Adds the number of a process, if it runs at edges.
fn add_edge(ground: Ground<'_, '_>, k: usize, edges: &mut Items<usize>) -> Result<(), AllocError>
    requires ground { IsGround ground }
    requires there { k < length ground.procs.now }
    ensures { OnOk result (EdgeAdded ground.entry k edges.old edges.new) }
{
    let process = &ground.procs[k];
    if at_edges(&process.does) {
        edges.push(k)
    } else {
        Ok(())
    }
}

/// The numbers of the edge processes, in their order. Or want of memory.
pub fn edges_of(alloc: Global, ground: Ground<'_, '_>) -> Result<Items<usize>, AllocError>
    requires { IsGround ground }
    ensures { IfOk result (λ ks. EdgesOf ground.entry ks (machine_in ground.entry).edges) }
{
    let mut edges = Items::new(alloc);
    for k in 0..ground.procs.len() {
        add_edge(ground, k, &mut edges)?;
    }
    Ok(edges)
}
