//! The tokens of files that are expanded, or the line of a refusal or a fault.

use case_files::{Case, escaped, files_of, print_bytes};
use command_line::{Asked, read_words};
use std::io;
use sv_preproc::{ExpandFail, expand};
use sv_source::{FileNames, MemorySink, Refusal, Token, put_refusal};

/// The most files that are expanded.
const MOST: usize = 1 << 20;

/// Prints the texts of tokens, with one space between.
fn print_tokens(rt: &HostRuntime, tokens: &[Token]) -> io::Result<()> {
    let mut line = String::new(rt.alloc());
    for token in tokens {
        if !line.is_empty() {
            line.push(' ')?;
        }
        line.push_str(escaped(rt.alloc(), token.text.as_bytes())?.as_str())?;
    }
    println!(rt; "{line}")
}

/// Prints the line of a refusal.
fn print_refusal(rt: &HostRuntime, refusal: &Refusal, names: &FileNames) -> io::Result<()> {
    let mut sink = MemorySink::new(rt.alloc(), 1 << 20, Vec::new(rt.alloc()))?;
    match names.as_slice().get(refusal.place.file as usize) {
        Some(name) => {
            put_refusal(&mut sink, name.as_bytes(), refusal);
            print_bytes(rt, "err", sink.bytes())
        }
        None => println!(rt; "a file without a name"),
    }
}

/// Expands the files of a case by its words.
pub fn expand_case(rt: &HostRuntime, case: Case) -> io::Result<()> {
    let Some(Asked { settings, .. }) = read_words(rt.alloc(), case.words.as_slice())? else {
        return println!(rt; "the words aren't of the form");
    };
    if settings.files.len() > MOST {
        return println!(rt; "too many files");
    }
    let mut files = files_of(case.files, case.failing_loads);
    match expand(rt.alloc(), &settings, &mut files) {
        Ok(expanded) => print_tokens(rt, expanded.tokens.as_slice()),
        Err(ExpandFail::Memory) => println!(rt; "out of memory"),
        Err(ExpandFail::FileFault { path }) => {
            let path = escaped(rt.alloc(), path.as_bytes())?;
            println!(rt; "read fault: {path}")
        }
        Err(ExpandFail::Refused { refusal, files }) => print_refusal(rt, &refusal, &files),
    }
}
