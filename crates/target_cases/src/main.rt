//! Runs single layers of the way from target texts to designs.
//!
//! `target_cases cases FILE..` runs the cases of case files, and prints what comes. The folder of a file says what its cases are
//! for: `lexer`, `reader`, `tops` or `writer`.
//!
//! `target_cases read FILE..` is for measuring, and prints counts. So is `target_cases write FILE..`, which also writes the designs
//! again, and prints how long each text is and how long its reading and its writing took.
#![tactic(auto)]

mod designs;
mod tokens;
mod tops;
mod writing;

use crate::designs::{Shown, read, read_files};
use crate::tokens::cut;
use crate::tops::look;
use crate::writing::{write_again, write_files};
use case_files::{Case, load_cases};
use std::{env, io};

/// Runs a case of the layer that its folder names.
fn run(rt: &HostRuntime, layer: &str, case: &Case) -> io::Result<()> {
    println!(rt; "== {}", case.name)?;
    match layer {
        "lexer" => cut(rt, case),
        "reader" => read(rt, case),
        "tops" => look(rt, case),
        "writer" => write_again(rt, case),
        _ => println!(rt; "no layer has this name"),
    }
}

/// The name of the folder that a file lies in.
fn folder_of(path: &str) -> &str {
    match path.rsplit_once('/') {
        Some((above, _)) => above.rsplit('/').next().unwrap_or(above),
        None => "",
    }
}

/// Runs the cases of case files.
fn run_files(rt: &HostRuntime, paths: &[String]) -> io::Result<()> {
    for path in paths {
        let layer = folder_of(path.as_str());
        for case in load_cases(rt, path.as_str())? {
            run(rt, layer, &case)?;
        }
    }
    Ok(())
}

fn main(rt: HostRuntime) -> io::Result<()> {
    let mut words = env::args(&rt)?.skip(1);
    let Some(task) = words.next() else {
        return println!(rt; "no word says what to do");
    };
    let mut rest = Vec::new(rt.alloc());
    for word in words {
        rest.push(word)?;
    }
    match task.as_str() {
        "cases" => run_files(&rt, &rest),
        "read" => read_files(&rt, &rest, Shown::Count),
        "write" => write_files(&rt, &rest),
        _ => println!(rt; "no such task"),
    }
}
