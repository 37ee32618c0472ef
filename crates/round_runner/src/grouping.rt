//! A plan, made of the signals that processes read and write.

ghost use Rattle.std.specs.Prelude.{◌≡◌, ◌<◌, ◌≤◌, ◌++◌, ◌∷◌, [], true, length, All, slice_set, IfOk, IfSome, OnOk};
ghost use Rattle.round_runner.specs.Plans.{ArePlaces, Labelled, AllEmpty, Tells, Built, Listed, FitsPlan, under, group_at};

use crate::plan::Plan;
use crate::processes::Processes;
use b4_core::Items;
use std::alloc::{AllocError, Global};

// Puts a number behind those that stand under another one.
fn add(lists: &mut [Items<usize>], k: usize, n: usize) -> Result<(), AllocError>
    requires { k < length lists.old }
    ensures { OnOk result (lists.new ≡ slice_set lists.old k (under lists.old k ++ n ∷ [])) }
{
    let list = &mut lists[k];
    list.push(n)?;
    Ok(())
}

fn empty_lists(alloc: Global, size: usize) -> Result<Vec<Items<usize>>, AllocError>
    ensures { IfOk result (λ v. AllEmpty size v.items) }
{
    let mut lists = Vec::with_capacity(alloc, size)?;
    for _k in 0..size {
        lists.push(Items::new(alloc))?;
    }
    Ok(lists)
}

// Puts a group under some signals, unless one of them isn't there.
fn tell(readers: &mut [Items<usize>], signals: &[usize], group: usize) -> Result<bool, AllocError>
    ensures { IfOk result (λ all. all ≡ true → Tells signals.now group readers.old readers.new) }
{
    for n in signals {
        if *n >= readers.len() {
            return Ok(false);
        }
        add(readers, *n, group)?;
    }
    Ok(true)
}

fn group_of(places: &[usize], n: usize) -> usize
    ensures { result ≡ group_at places.now n }
{
    match places.get(n) {
        None => places.len(),
        Some(group) => *group,
    }
}

// Whether some signals have this group.
fn all_in_group(places: &[usize], signals: &[usize], group: usize) -> bool
    ensures { result ≡ true → All (λ n. group_at places.now n ≡ group) signals.now }
{
    for n in signals {
        if group_of(places, *n) != group {
            return false;
        }
    }
    true
}

// The group of the first of some signals; any group where there are none.
fn first_group(places: &[usize], signals: &[usize]) -> usize {
    match signals.first() {
        None => 0,
        Some(first) => group_of(places, *first),
    }
}

// The group of a process, if all signals that it may write are known and have one group.
fn label<P: Processes>(machine: &P, places: &[usize], i: usize) -> Option<usize>
    requires { i < length (P.machine machine.now).combs }
    ensures { IfSome result (Labelled (P.machine machine.now) places.now i) }
{
    let signals = machine.writes(i)?;
    let group = first_group(places, signals);
    if group < places.len() && all_in_group(places, signals, group) {
        Some(group)
    } else {
        None
    }
}

// Puts each process under its group, and the group under the signals that the process reads, if these are all known.
fn place_processes<P: Processes>(
    machine: &P,
    places: &[usize],
    processes: &mut [Items<usize>],
    readers: &mut [Items<usize>],
) -> Result<bool, AllocError>
    requires processes { AllEmpty (length places.now) processes.old }
    requires readers { AllEmpty (length places.now) readers.old }
    ensures { IfOk result (λ all. all ≡ true → Built (P.machine machine.now) places.now processes.new readers.new (length (P.machine machine.now).combs)) }
{
    for i in 0..machine.combs() {
        let Some(group) = label(machine, places, i) else {
            return Ok(false);
        };
        let Some(signals) = machine.reads(i) else {
            return Ok(false);
        };
        if !tell(readers, signals, group)? {
            return Ok(false);
        }
        add(processes, group, i)?;
    }
    Ok(true)
}

// Puts each signal under its group.
fn place_signals(places: &[usize], lists: &mut [Items<usize>]) -> Result<(), AllocError>
    requires places { All (λ g. g < length places.now) places.now }
    requires lists { AllEmpty (length places.now) lists.old }
    ensures { OnOk result (Listed places.now lists.new (length places.now)) }
{
    for n in 0..places.len() {
        add(lists, places[n], n)?;
    }
    Ok(())
}

// The least signal of those that are joined with one, by a way along ever lesser ones, which is made shorter.
fn root(parents: &mut [usize], n: usize) -> usize
    requires { n < length parents.old }
    ensures { result < length parents.old }
{
    let mut at = n;
    'up: while parents[at] < at {
        let parent = parents[at];
        if parents[parent] < parent {
            parents[at] = parents[parent];
        }
        at = parent;
    }
    at
}

// Joins two signals.
fn join(parents: &mut [usize], a: usize, b: usize)
    requires a { a < length parents.old }
    requires b { b < length parents.old }
{
    let first = root(parents, a);
    let second = root(parents, b);
    if first < second {
        parents[second] = first;
    } else {
        parents[first] = second;
    }
}

// Joins some signals, unless one of them isn't there.
fn join_all(parents: &mut [usize], signals: &[usize]) -> bool {
    let Some(first) = signals.first() else {
        return true;
    };
    for n in signals {
        if *n >= parents.len() || *first >= parents.len() {
            return false;
        }
        join(parents, *first, *n);
    }
    true
}

// Of each signal the least one of those that processes join it with.
fn roots(alloc: Global, parents: &mut [usize]) -> Result<Items<usize>, AllocError>
    ensures { IfOk result (ArePlaces (length parents.old)) }
{
    let mut all = Items::new(alloc);
    for n in 0..parents.len() {
        all.push(root(parents, n))?;
    }
    Ok(all)
}

// The groups of all signals: those that a process may write have one. It isn't said that they have; `label` looks.
fn places_of<P: Processes>(
    alloc: Global,
    machine: &P,
    size: usize,
) -> Result<Option<Items<usize>>, AllocError>
    ensures { IfOk result (λ o. IfSome o (ArePlaces size)) }
{
    let mut parents = Vec::with_capacity(alloc, size)?;
    for n in 0..size {
        parents.push(n)?;
    }
    for i in 0..machine.combs() {
        let Some(signals) = machine.writes(i) else {
            return Ok(None);
        };
        if !join_all(&mut parents, signals) {
            return Ok(None);
        }
    }
    Ok(Some(roots(alloc, &mut parents)?))
}

fn signal_lists(alloc: Global, places: &[usize]) -> Result<Items<Items<usize>>, AllocError>
    requires { All (λ g. g < length places.now) places.now }
    ensures { IfOk result (λ lists. Listed places.now lists (length places.now)) }
{
    let mut lists = empty_lists(alloc, places.len())?;
    place_signals(places, &mut lists)?;
    Ok(Items::from_vec(lists))
}

// Of each group its processes, and of each signal the groups that read it.
#[derive(Drop)]
struct Lists {
    processes: Items<Items<usize>>,
    readers: Items<Items<usize>>,
}

fn process_lists<P: Processes>(
    alloc: Global,
    machine: &P,
    places: &[usize],
) -> Result<Option<Lists>, AllocError>
    ensures { IfOk result (λ o. IfSome o (λ lists. Built (P.machine machine.now) places.now lists.processes lists.readers (length (P.machine machine.now).combs))) }
{
    let mut processes = empty_lists(alloc, places.len())?;
    let mut readers = empty_lists(alloc, places.len())?;
    if !place_processes(machine, places, &mut processes, &mut readers)? {
        return Ok(None);
    }
    Ok(Some(Lists {
        processes: Items::from_vec(processes),
        readers: Items::from_vec(readers),
    }))
}

/// A plan of a machine of so many signals, if what its processes read and write is known.
pub fn plan_of<P: Processes>(
    alloc: Global,
    machine: &P,
    size: usize,
) -> Result<Option<Plan>, AllocError>
    ensures { IfOk result (FitsPlan (P.machine machine.now) size) }
{
    let Some(places) = places_of(alloc, machine, size)? else {
        return Ok(None);
    };
    let signals = signal_lists(alloc, places.as_slice())?;
    let Some(lists) = process_lists(alloc, machine, places.as_slice())? else {
        return Ok(None);
    };
    let Lists { processes, readers } = lists;
    Ok(Some(Plan {
        places,
        signals,
        processes,
        readers,
    }))
}
