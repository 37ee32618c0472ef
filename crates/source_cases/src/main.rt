//! Runs single layers of the way from files to names.
//!
//! `source_cases cases FILE..` runs the cases of case files, and prints what comes. The folder of a file says what its cases are
//! for: `lexer`, `words`, `expand`, `grammar`, `tree`, `events`, `names` or `places`.
//!
//! `source_cases expand|read|names FILE..` and `source_cases symbols flat|deep COUNT` are for measuring, and print counts.
#![tactic(auto)]

mod declarations;
mod events;
mod expansions;
mod grammar_cases;
mod measured;
mod symbols;
mod texts;
mod token_cases;
mod tree;
mod words_asked;

use crate::expansions::expand_case;
use crate::grammar_cases::parse_case;
use crate::measured::{expand_files, read_files, read_list};
use crate::texts::{Shown, show_text};
use crate::token_cases::cut;
use case_files::{Case, load_cases};
use ll_engine::Ll1;
use std::{env, io};
use sv_tree::grammar;

/// Shows the files of a case that are read whole.
fn show_case(rt: &HostRuntime, case: &Case, shown: Shown) -> io::Result<()> {
    for file in &case.files {
        show_text(rt, file.bytes.as_bytes(), shown)?;
    }
    Ok(())
}

/// Runs a case of the layer that its folder names.
fn run(rt: &HostRuntime, reader: &Ll1, layer: &str, case: Case) -> io::Result<()> {
    println!(rt; "== {}", case.name)?;
    match layer {
        "lexer" => cut(rt, &case),
        "words" => words_asked::read(rt, &case),
        "expand" => expand_case(rt, case),
        "grammar" => parse_case(rt, reader, &case),
        "tree" => show_case(rt, &case, Shown::Tree),
        "events" => show_case(rt, &case, Shown::Events),
        "names" => show_case(rt, &case, Shown::Names),
        "places" => show_case(rt, &case, Shown::Places),
        _ => println!(rt; "no layer has this name"),
    }
}

/// The name of the folder that a file lies in.
fn folder_of(path: &str) -> &str {
    match path.rsplit_once('/') {
        Some((above, _)) => above.rsplit('/').next().unwrap_or(above),
        None => "",
    }
}

/// Runs the cases of case files.
fn run_files(rt: &HostRuntime, paths: &[String]) -> io::Result<()> {
    let reader = grammar(rt.alloc())?;
    for path in paths {
        let layer = folder_of(path.as_str());
        for case in load_cases(rt, path.as_str())? {
            run(rt, &reader, layer, case)?;
        }
    }
    Ok(())
}

fn main(rt: HostRuntime) -> io::Result<()> {
    let mut words = env::args(&rt)?.skip(1);
    let Some(task) = words.next() else {
        return println!(rt; "no word says what to do");
    };
    let mut rest = Vec::new(rt.alloc());
    for word in words {
        rest.push(word)?;
    }
    match task.as_str() {
        "cases" => run_files(&rt, &rest),
        "expand" => expand_files(&rt, &rest),
        "read" => read_files(&rt, &rest, Shown::Counts),
        "names" => read_files(&rt, &rest, Shown::Found),
        "symbols" => read_list(&rt, &rest),
        _ => println!(rt; "no such task"),
    }
}
