//! Where texts fail to read by the grammar of the source language.

use case_files::Case;
use ll_engine::{Ll1, ParseFail};
use std::alloc::{AllocError, Global};
use std::io;
use sv_lexer::lex;
use sv_source::Kind;
use sv_tree::symbol_of;

/// The longest text that is read, in bytes.
const LONGEST: usize = 1 << 20;

/// The symbols of a text, without those of its newlines.
fn symbols(alloc: Global, text: &[u8]) -> Result<Vec<u16>, AllocError> {
    let mut symbols = Vec::new(alloc);
    if text.len() < LONGEST {
        for token in lex(alloc, 0, text)?.as_slice() {
            if token.kind != Kind::Line {
                symbols.push(symbol_of(token))?;
            }
        }
    }
    Ok(symbols)
}

/// Prints what the reader answers for a text.
fn print_answer(rt: &HostRuntime, reader: &Ll1, text: &[u8], limit: u32) -> io::Result<()> {
    let symbols = symbols(rt.alloc(), text)?;
    if symbols.len() >= LONGEST {
        return println!(rt; "too long");
    }
    match reader.parse(symbols.as_slice(), limit) {
        Ok(_) => println!(rt; "reads"),
        Err(ParseFail::Memory) => println!(rt; "out of memory"),
        Err(ParseFail::NoText { at }) => println!(rt; "no text at {at}"),
        Err(ParseFail::Deep { at }) => println!(rt; "deep at {at}"),
    }
}

/// Reads the files of a case. Its word is the most nesting.
pub fn parse_case(rt: &HostRuntime, reader: &Ll1, case: &Case) -> io::Result<()> {
    let mut limit = 256;
    for word in &case.words {
        limit = word.parse::<u32>().unwrap_or(limit);
    }
    for file in &case.files {
        print_answer(rt, reader, file.bytes.as_bytes(), limit)?;
    }
    Ok(())
}
