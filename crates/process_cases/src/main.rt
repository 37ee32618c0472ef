//! Looks at typed designs by the rules on processes, and prints where something else comes than the tables say.
#![tactic(auto)]

mod designs;
mod fits;
mod judging;
mod passing;
mod tables;
mod texts;

use crate::designs::Case;
use crate::judging::judged;
use crate::tables::{ACCEPTED, FUNCTIONS, LOOPS, MEMORIES, REFUSED, SIGNALS, WHOLE};
use std::alloc::AllocError;
use std::io;

// The design of a line.
fn case_of(signals: &'static str, design: &'static str) -> Case {
    let (functions, processes) = design.split_once(" then ").unwrap_or(("", design));
    Case {
        signals,
        functions,
        processes,
    }
}

// Looks at a design, and prints what comes where that isn't what was wanted.
fn run(rt: &HostRuntime, wanted: &str, case: &Case) -> io::Result<()> {
    let came = judged(rt.alloc(), case)?;
    if came.as_str() == wanted {
        return Ok(());
    }
    println!(rt;
        "{came} in place of {wanted}: {} {}",
        case.functions, case.processes
    )
}

// Runs the lines of a table, and prints how many designs there are.
fn run_table(rt: &HostRuntime, name: &str, table: &'static str) -> io::Result<()> {
    let mut signals = SIGNALS;
    let mut count: usize = 0;
    for line in table.lines() {
        if line.starts_with('#') {
            continue;
        }
        let (wanted, rest) = line.split_once(':').unwrap_or((line, ""));
        if wanted == "signals" {
            signals = rest.trim_start();
        } else {
            run(rt, wanted, &case_of(signals, rest.trim_start()))?;
            count = count.saturating_add(1);
        }
    }
    println!(rt; "{name}: {count} designs")
}

fn main(rt: HostRuntime) -> io::Result<()> {
    run_table(&rt, "whole modules", WHOLE)?;
    run_table(&rt, "refused", REFUSED)?;
    run_table(&rt, "accepted", ACCEPTED)?;
    run_table(&rt, "loops", LOOPS)?;
    run_table(&rt, "functions", FUNCTIONS)?;
    run_table(&rt, "wide arrays", MEMORIES)
}
