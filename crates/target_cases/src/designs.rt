//! Texts that are read as designs.

use case_files::{Case, escaped};
use std::{fs, io};
use sv_source::Text;
use v_reader::{ReadFail, discard, read_verilog};
use v_tree::VDesign;

/// The longest text that is read, in bytes.
pub const LONGEST: usize = 1 << 28;

/// What comes of a design.
#[derive(Clone, Copy)]
pub enum Shown {
    /// The names of its modules, and how many ports and items each has.
    Modules,
    /// How many modules it has.
    Count,
}

/// Prints the names of a design's modules, and how many ports and items each has.
fn print_modules(rt: &HostRuntime, design: &VDesign) -> io::Result<()> {
    for module in design.modules.as_slice() {
        let name = escaped(rt.alloc(), module.name.as_bytes())?;
        let ports = module.ports.len();
        let items = module.items.len();
        println!(rt; "module {name}, ports {ports}, items {items}")?;
    }
    Ok(())
}

/// Prints the rule that a text breaks, and the token at which it does.
fn refuse(rt: &HostRuntime, rule: u16, line: u32, col: u32, word: &Text) -> io::Result<()> {
    let word = escaped(rt.alloc(), word.as_bytes())?;
    println!(rt; "E{rule} {line}:{col} {word}")
}

/// Prints why a text isn't read.
pub fn explain(rt: &HostRuntime, fail: ReadFail) -> io::Result<()> {
    match fail {
        ReadFail::Memory => println!(rt; "want of memory"),
        ReadFail::NotVerilog {
            rule,
            line,
            col,
            word,
        } => refuse(rt, rule, line, col, &word),
    }
}

/// Shows a design that a text reads as.
fn show(rt: &HostRuntime, design: &VDesign, shown: Shown) -> io::Result<()> {
    match shown {
        Shown::Modules => print_modules(rt, design),
        Shown::Count => println!(rt; "{} modules", design.modules.len()),
    }
}

/// Reads a text, and shows the design.
fn show_text(rt: &HostRuntime, bytes: &[u8], shown: Shown) -> io::Result<()> {
    if bytes.len() > LONGEST {
        return println!(rt; "too long");
    }
    match read_verilog(rt.alloc(), bytes) {
        Ok(design) => {
            let printed = show(rt, &design, shown);
            discard(design);
            printed
        }
        Err(fail) => explain(rt, fail),
    }
}

/// Reads the files of a case.
pub fn read(rt: &HostRuntime, case: &Case) -> io::Result<()> {
    for file in &case.files {
        show_text(rt, file.bytes.as_bytes(), Shown::Modules)?;
    }
    Ok(())
}

/// Reads files one by one.
pub fn read_files(rt: &HostRuntime, paths: &[String], shown: Shown) -> io::Result<()> {
    for path in paths {
        let text = fs::read_to_string(rt, path.as_str())?;
        show_text(rt, text.as_bytes(), shown)?;
    }
    Ok(())
}
