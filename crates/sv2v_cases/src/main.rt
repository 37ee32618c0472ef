//! Runs the translator on the cases of case files, and prints the status, the output and the error text of each.
#![tactic(auto)]

use case_files::{Case, files_of, load_cases, print_bytes};
use std::{env, io};
use sv2v_top::{Status, translate_main};

/// The name of a status.
fn name_of(status: Status) -> &'static str {
    match status {
        Status::Done => "Done",
        Status::Refused => "Refused",
        Status::Usage => "Usage",
        Status::Memory => "Memory",
        Status::FileFault => "FileFault",
        Status::SinkFault => "SinkFault",
        Status::Unsettled => "Unsettled",
    }
}

/// Runs one case.
fn run(rt: &HostRuntime, case: Case) -> io::Result<()> {
    let alloc = rt.alloc();
    let mut files = files_of(case.files, case.failing_loads);
    let mut out = case.out.sink(alloc)?;
    let mut err = case.err.sink(alloc)?;
    let status = translate_main(alloc, case.words.as_slice(), &mut files, &mut out, &mut err);
    println!(rt; "== {}: {}", case.name, name_of(status))?;
    print_bytes(rt, "out", out.bytes())?;
    print_bytes(rt, "err", err.bytes())
}

fn main(rt: HostRuntime) -> io::Result<()> {
    for path in env::args(&rt)?.skip(1) {
        for case in load_cases(&rt, path.as_str())? {
            run(&rt, case)?;
        }
    }
    Ok(())
}
