//! A round over the groups that have to be run again.

ghost use Rattle.std.specs.Prelude.{◌≡◌, ◌<◌, true, [], ◌∷◌, length, All, IfOk, OnOk};
ghost use Rattle.round_runner.specs.Stores.{widths};
ghost use Rattle.round_runner.specs.Plans.{IsPlan, Grouped, Taken, Picked, Remade, AddsChanges, AreChanges, SameNumbers, ReadersThere, AreTold, under};

use crate::plan::Plan;
use crate::processes::Processes;
use crate::stores::{copied_vector, differ};
use b4_core::{Items, Vec4};
use std::alloc::{AllocError, Global};

/// Takes the vectors of some signals from another store.
pub fn take_vectors(
    alloc: Global,
    signals: &[usize],
    from: &[Vec4],
    to: &mut [Vec4],
) -> Result<(), AllocError>
    requires there { All (λ n. n < length to.old) signals.now }
    requires shape { widths from.now ≡ widths to.old }
    ensures { OnOk result (Taken signals.now from.now to.old to.new) }
{
    for n in signals {
        let vector = copied_vector(alloc, &from[*n])?;
        to[*n] = vector;
    }
    Ok(())
}

// Puts what some processes assign over a store.
fn put_picked<P: Processes>(
    alloc: Global,
    machine: &P,
    started: &[bool],
    processes: &[usize],
    held: &[Vec4],
    to: &mut [Vec4],
) -> Result<(), AllocError>
    requires started { length started.now ≡ length (P.machine machine.now).combs }
    requires processes { All (λ i. i < length (P.machine machine.now).combs) processes.now }
    requires held { widths held.now ≡ P.shape machine.now }
    requires to { widths to.old ≡ P.shape machine.now }
    ensures { OnOk result (Picked (P.machine machine.now) started.now processes.now held.now to.old to.new) }
{
    for i in processes {
        if started[*i] {
            machine.run(alloc, *i, held, to)?;
        }
    }
    Ok(())
}

fn list_under(lists: &[Items<usize>], k: usize) -> &[usize]
    ensures { result.now ≡ under lists.now k }
{
    match lists.get(k) {
        None => &[],
        Some(list) => list.as_slice(),
    }
}

// Makes a group's signals anew.
fn remake<P: Processes>(
    alloc: Global,
    machine: &P,
    plan: &Plan,
    started: &[bool],
    base: &[Vec4],
    held: &[Vec4],
    group: usize,
    to: &mut [Vec4],
) -> Result<(), AllocError>
    requires plan { IsPlan (P.machine machine.now) plan.now }
    requires signals { length plan.now.places ≡ length (P.shape machine.now) }
    requires started { length started.now ≡ length (P.machine machine.now).combs }
    requires base { widths base.now ≡ P.shape machine.now }
    requires held { widths held.now ≡ P.shape machine.now }
    requires group { group < length plan.now.places }
    requires to { widths to.old ≡ P.shape machine.now }
    ensures { OnOk result (Remade (P.machine machine.now) plan.now started.now base.now held.now (group ∷ []) to.old to.new) }
{
    take_vectors(alloc, list_under(plan.signals.as_slice(), group), base, to)?;
    put_picked(
        alloc,
        machine,
        started,
        list_under(plan.processes.as_slice(), group),
        held,
        to,
    )?;
    Ok(())
}

/// Makes the signals of some groups anew, by a round over `base` on what `held` holds.
pub fn remake_all<P: Processes>(
    alloc: Global,
    machine: &P,
    plan: &Plan,
    started: &[bool],
    base: &[Vec4],
    held: &[Vec4],
    groups: &[usize],
    to: &mut [Vec4],
) -> Result<(), AllocError>
    requires plan { IsPlan (P.machine machine.now) plan.now }
    requires signals { length plan.now.places ≡ length (P.shape machine.now) }
    requires started { length started.now ≡ length (P.machine machine.now).combs }
    requires base { widths base.now ≡ P.shape machine.now }
    requires held { widths held.now ≡ P.shape machine.now }
    requires groups { All (λ g. g < length plan.now.places) groups.now }
    requires to { widths to.old ≡ P.shape machine.now }
    ensures { OnOk result (Remade (P.machine machine.now) plan.now started.now base.now held.now groups.now to.old to.new) }
{
    for group in groups {
        remake(alloc, machine, plan, started, base, held, *group, to)?;
    }
    Ok(())
}

// Adds those of some signals that differ between two stores.
fn add_changes(
    signals: &[usize],
    old: &[Vec4],
    new: &[Vec4],
    changed: &mut Items<usize>,
) -> Result<(), AllocError>
    requires there { All (λ n. n < length old.now) signals.now }
    requires shape { widths new.now ≡ widths old.now }
    ensures { OnOk result (AddsChanges signals.now old.now new.now changed.old changed.new) }
{
    for n in signals {
        if differ(&old[*n], &new[*n]) {
            changed.push(*n)?;
        }
    }
    Ok(())
}

/// The signals of some groups that differ between two stores.
pub fn changes(
    alloc: Global,
    plan: &Plan,
    groups: &[usize],
    old: &[Vec4],
    new: &[Vec4],
) -> Result<Items<usize>, AllocError>
    requires plan { Grouped plan.now }
    requires signals { length plan.now.places ≡ length old.now }
    requires groups { All (λ g. g < length plan.now.places) groups.now }
    requires shape { widths new.now ≡ widths old.now }
    ensures { IfOk result (AreChanges plan.now groups.now old.now new.now) }
{
    let mut changed = Items::new(alloc);
    for group in groups {
        add_changes(
            list_under(plan.signals.as_slice(), *group),
            old,
            new,
            &mut changed,
        )?;
    }
    Ok(changed)
}

fn is_last(last: Option<usize>, n: usize) -> bool
    ensures { result ≡ true → last ≡ Some n }
{
    match last {
        None => false,
        Some(last) => last == n,
    }
}

// The numbers of a sorted list, each once.
fn once_each(alloc: Global, sorted: &[usize]) -> Result<Items<usize>, AllocError>
    ensures { IfOk result (SameNumbers sorted.now) }
{
    let mut all = Items::new(alloc);
    let mut last = None;
    for n in sorted {
        if !is_last(last, *n) {
            all.push(*n)?;
            last = Some(*n);
        }
    }
    Ok(all)
}

/// The groups that read one of some signals.
pub fn told_groups(
    alloc: Global,
    plan: &Plan,
    changed: &[usize],
) -> Result<Items<usize>, AllocError>
    requires { ReadersThere plan.now }
    ensures { IfOk result (AreTold plan.now changed.now) }
{
    let mut all = Vec::new(alloc);
    for n in changed {
        all.extend_from_slice(list_under(plan.readers.as_slice(), *n))?;
    }
    all.sort()?;
    let groups = once_each(alloc, &all)?;
    Ok(groups)
}
