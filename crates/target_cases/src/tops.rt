//! Designs that are looked at from their tops.

use crate::designs::{LONGEST, explain};
use case_files::{Case, escaped};
use std::io;
use sv_source::Text;
use v_reader::{TopFail, check_top, discard, read_verilog};
use v_tree::VDesign;

/// Prints whether a design can be run with a module as its top.
fn print_fit(rt: &HostRuntime, design: &VDesign, top: &str) -> io::Result<()> {
    let name = escaped(rt.alloc(), top.as_bytes())?;
    let top = Text::from_bytes(rt.alloc(), top.as_bytes())?;
    match check_top(rt.alloc(), design, &top) {
        Ok(()) => println!(rt; "{name} fits"),
        Err(TopFail::Memory) => println!(rt; "want of memory"),
        Err(TopFail::Unfit) => println!(rt; "{name} is unfit"),
    }
}

/// Prints for each of some names whether a design can be run with the module of this name as its top.
fn print_fits(rt: &HostRuntime, design: &VDesign, tops: &[String]) -> io::Result<()> {
    for top in tops {
        print_fit(rt, design, top.as_str())?;
    }
    Ok(())
}

/// Reads a text, and looks at the design from some tops.
fn look_from(rt: &HostRuntime, bytes: &[u8], tops: &[String]) -> io::Result<()> {
    if bytes.len() > LONGEST {
        return println!(rt; "too long");
    }
    match read_verilog(rt.alloc(), bytes) {
        Ok(design) => {
            let printed = print_fits(rt, &design, tops);
            discard(design);
            printed
        }
        Err(fail) => explain(rt, fail),
    }
}

/// Reads the files of a case, and looks at each design from the tops that its words name.
pub fn look(rt: &HostRuntime, case: &Case) -> io::Result<()> {
    for file in &case.files {
        look_from(rt, file.bytes.as_bytes(), &case.words)?;
    }
    Ok(())
}
