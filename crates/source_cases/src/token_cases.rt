//! The tokens of files, each with its place, its kind and its text.

use case_files::{Case, escaped};
use std::io;
use sv_lexer::lex;

/// The longest file that is cut, in bytes.
const LONGEST: usize = 1 << 24;

/// Cuts a file into tokens, and prints them.
fn print_tokens(rt: &HostRuntime, bytes: &[u8]) -> io::Result<()> {
    if bytes.len() > LONGEST {
        return println!(rt; "too long");
    }
    for token in lex(rt.alloc(), 0, bytes)?.as_slice() {
        let text = escaped(rt.alloc(), token.text.as_bytes())?;
        let place = token.place;
        println!(rt; "{}:{} {:?} {text}", place.line, place.col, token.kind)?;
    }
    Ok(())
}

/// Cuts the files of a case.
pub fn cut(rt: &HostRuntime, case: &Case) -> io::Result<()> {
    for file in &case.files {
        print_tokens(rt, file.bytes.as_bytes())?;
    }
    Ok(())
}
