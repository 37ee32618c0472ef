//! What the words of a command line ask for.

use case_files::{Case, escaped};
use command_line::{Asked, read_words};
use std::io;
use sv_source::{Text, Token};

/// Prints texts in quotes on one line.
fn print_texts(rt: &HostRuntime, what: &str, texts: &[Text]) -> io::Result<()> {
    print!(rt; "{what}:")?;
    for text in texts {
        let text = escaped(rt.alloc(), text.as_bytes())?;
        print!(rt; " '{text}'")?;
    }
    println!(rt; "")
}

/// Prints the body of a macro.
fn print_body(rt: &HostRuntime, name: &Text, body: &[Token]) -> io::Result<()> {
    let name = escaped(rt.alloc(), name.as_bytes())?;
    print!(rt; "macro {name}:")?;
    for token in body {
        let text = escaped(rt.alloc(), token.text.as_bytes())?;
        print!(rt; " '{text}'")?;
    }
    println!(rt; "")
}

/// Prints what the words ask for.
fn print_asked(rt: &HostRuntime, asked: &Asked) -> io::Result<()> {
    let top = escaped(rt.alloc(), asked.top.as_bytes())?;
    println!(rt; "top: {top}")?;
    print_texts(rt, "files", asked.settings.files.as_slice())?;
    print_texts(rt, "directories", asked.settings.dirs.as_slice())?;
    for define in asked.settings.defines.as_slice() {
        print_body(rt, &define.name, define.body.as_slice())?;
    }
    Ok(())
}

/// Reads the words of a case.
pub fn read(rt: &HostRuntime, case: &Case) -> io::Result<()> {
    match read_words(rt.alloc(), case.words.as_slice())? {
        Some(asked) => print_asked(rt, &asked),
        None => println!(rt; "not of the form"),
    }
}
