//! Whether designs are such as the rules on processes may look at.

ghost use Rattle.std.specs.Prelude.{◌≡◌, ◌||◌, is_some};
ghost use Rattle.proc_rules.specs.Processes.{AreLoops, IsLoops};
ghost use Rattle.unroll_laws.specs.Bodies.{BodyFits, DesignFits};
ghost use Rattle.edge_breaks.specs.Joins.{LinksStand};
ghost use Rattle.process_cases.specs.Fits.{IfSo, EachNarrow, EachFits, EachBodyFits, Limited, Stands, IsFit};

use crate::passing::passes_few;
use b4_core::Vec4;
use full_calls::is_stmt_full;
use loop_rules::process_loops;
use proc_rules::Loops;
use run_fits::{all_can_run, stmt_fits};
use std::alloc::Global;
use sv_types::{Design, Function, Process, ProcessKind, Signal, Stmt, is_narrow};

// As many signals or processes as may be numbered.
const MOST: usize = 4294967296;

fn all_narrow(signals: &[Signal]) -> bool
    ensures { IfSo result (EachNarrow signals.now) }
{
    for signal in signals {
        if !is_narrow(&signal.of) {
            return false;
        }
    }
    true
}

#[tactic(auto, using(crate::proofs::Parts::limits))]
fn is_limited(design: &Design) -> bool
    ensures { IfSo result (Limited design.now) }
{
    if design.signals.len() > MOST {
        return false;
    }
    if design.processes.len() > MOST {
        return false;
    }
    all_narrow(design.signals.as_slice())
}

#[tactic(auto, using(crate::proofs::Parts::bodies))]
fn body_fits(s: &Stmt, functions: &[Function], held: &[Option<Vec4>]) -> bool
    ensures { IfSo result (BodyFits s.now functions.now) }
{
    if !stmt_fits(s, functions, held) {
        return false;
    }
    if !is_stmt_full(s, functions) {
        return false;
    }
    passes_few(s, functions)
}

fn processes_fit(processes: &[Process], functions: &[Function], held: &[Option<Vec4>]) -> bool
    ensures { IfSo result (EachFits processes.now functions.now) }
{
    for process in processes {
        if !body_fits(&process.body, functions, held) {
            return false;
        }
    }
    true
}

fn functions_fit(callees: &[Function], functions: &[Function], held: &[Option<Vec4>]) -> bool
    ensures { IfSo result (EachBodyFits callees.now functions.now) }
{
    for function in callees {
        if !body_fits(&function.body, functions, held) {
            return false;
        }
    }
    true
}

#[tactic(auto, using(crate::proofs::Parts::designs))]
fn bodies_fit(design: &Design, held: &[Option<Vec4>]) -> bool
    ensures { IfSo result (DesignFits design.now) }
{
    let functions = design.functions.as_slice();
    if !all_can_run(functions) {
        return false;
    }
    if !functions_fit(functions, functions, held) {
        return false;
    }
    processes_fit(design.processes.as_slice(), functions, held)
}

// Whether a rule on loops is broken.
fn is_broken(loops: Loops) -> bool
    ensures { result ≡ (is_some loops.endless || loops.too_long) }
{
    match loops.endless {
        Some(_) => true,
        None => loops.too_long,
    }
}

#[tactic(auto, using(crate::proofs::Parts::kinds))]
fn link_stands(design: &Design, process: &Process, loops: Loops) -> bool
    requires loops { IsLoops design.now process.now.body loops }
    ensures { IfSo result (Stands design.now process.now) }
{
    match &process.kind {
        ProcessKind::Link(port) => {
            if *port as usize >= design.signals.len() {
                return false;
            }
            !is_broken(loops)
        }
        ProcessKind::Continuous => true,
        ProcessKind::Comb => true,
        ProcessKind::Latch => true,
        ProcessKind::Star => true,
        ProcessKind::Edges(_) => true,
    }
}

fn links_stand(design: &Design, loops: &[Loops]) -> bool
    requires loops { AreLoops design.now loops.now }
    ensures { IfSo result (LinksStand design.now) }
{
    let processes = design.processes.as_slice();
    for k in 0..processes.len() {
        if !link_stands(design, &processes[k], loops[k]) {
            return false;
        }
    }
    true
}

/// Whether a design is such as the rules on processes may look at, with a slot for each signal. It says so of none with too little
/// memory, nor of one that writes a signal without a slot.
#[tactic(auto, using(crate::proofs::Parts::whole))]
pub fn is_fit(alloc: Global, design: &Design, held: &[Option<Vec4>]) -> bool
    ensures { IfSo result (IsFit design.now) }
{
    if !is_limited(design) {
        return false;
    }
    if !bodies_fit(design, held) {
        return false;
    }
    match process_loops(alloc, design) {
        Ok(loops) => links_stand(design, loops.as_slice()),
        Err(_) => false,
    }
}
