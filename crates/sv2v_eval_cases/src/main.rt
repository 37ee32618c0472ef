//! Runs the evaluator on the cases of case files, and prints the status, the output and the error text of each.
#![tactic(auto)]

use case_files::{Case, files_of, load_cases, print_bytes};
use eval_top::eval_main;
use std::{env, io};

/// Runs one case.
fn run(rt: &HostRuntime, case: Case) -> io::Result<()> {
    let alloc = rt.alloc();
    let mut files = files_of(case.files, case.failing_loads);
    let mut out = case.out.sink(alloc)?;
    let mut err = case.err.sink(alloc)?;
    let status = eval_main(alloc, case.words.as_slice(), &mut files, &mut out, &mut err);
    println!(rt; "== {}: {status:?}", case.name)?;
    print_bytes(rt, "out", out.bytes())?;
    print_bytes(rt, "err", err.bytes())
}

fn main(rt: HostRuntime) -> io::Result<()> {
    for path in env::args(&rt)?.skip(1) {
        for case in load_cases(&rt, path.as_str())? {
            run(&rt, case)?;
        }
    }
    Ok(())
}
