//! Texts that are read as designs and written again.

ghost use Rattle.v_tree.specs.Reading.{VReads};

use crate::designs::{LONGEST, explain};
use case_files::{Case, print_bytes};
use std::time::{Duration, Instant};
use std::{fs, io};
use sv_source::Text;
use v_reader::{discard, read_verilog};
use v_round_trip::{rewrite, write_read};
use v_tree::VDesign;

/// Prints what is written of the design that a text reads as, where it isn't the text itself.
fn show_again(rt: &HostRuntime, bytes: &[u8]) -> io::Result<()> {
    if bytes.len() > LONGEST {
        return println!(rt; "too long");
    }
    match rewrite(rt.alloc(), bytes) {
        Ok(text) => {
            if text.as_bytes() == bytes {
                println!(rt; "as it stands")
            } else {
                print_bytes(rt, "written", text.as_bytes())
            }
        }
        Err(fail) => explain(rt, fail),
    }
}

/// Reads the files of a case, and writes each again.
pub fn write_again(rt: &HostRuntime, case: &Case) -> io::Result<()> {
    for file in &case.files {
        show_again(rt, file.bytes.as_bytes())?;
    }
    Ok(())
}

/// The time since a start.
fn since(rt: &HostRuntime, start: io::Result<Instant>) -> io::Result<Duration> {
    start?.elapsed(rt)
}

/// Prints the length of a text that was written, how long the reading before it and the writing took, and whether the text that is
/// written of what it reads as is the same.
fn print_written(
    rt: &HostRuntime,
    text: &Text,
    reading: Duration,
    writing: Duration,
) -> io::Result<()> {
    let bytes = text.as_bytes();
    if bytes.len() > LONGEST {
        return println!(rt; "too long");
    }
    match rewrite(rt.alloc(), bytes) {
        Ok(again) => {
            let same = if again.as_bytes() == bytes {
                "the same again"
            } else {
                "another text"
            };
            let (length, read, write) = (bytes.len(), reading.as_millis(), writing.as_millis());
            println!(rt; "{length} bytes, {same}: read in {read} ms, written in {write} ms")
        }
        Err(fail) => explain(rt, fail),
    }
}

/// Writes the design that a text was read as, and shows the text.
fn write_design(
    rt: &HostRuntime,
    bytes: &[u8],
    design: VDesign,
    reading: io::Result<Duration>,
) -> io::Result<()>
    requires { VReads bytes.now design }
{
    let start = Instant::now(rt);
    let text = write_read(rt.alloc(), bytes, &design);
    let writing = since(rt, start);
    discard(design);
    print_written(rt, &text?, reading?, writing?)
}

/// Reads a text and writes the design.
fn write_text(rt: &HostRuntime, bytes: &[u8]) -> io::Result<()> {
    if bytes.len() > LONGEST {
        return println!(rt; "too long");
    }
    let start = Instant::now(rt);
    let read = read_verilog(rt.alloc(), bytes);
    let reading = since(rt, start);
    match read {
        Ok(design) => write_design(rt, bytes, design, reading),
        Err(fail) => explain(rt, fail),
    }
}

/// Reads files one by one, and writes each again.
pub fn write_files(rt: &HostRuntime, paths: &[String]) -> io::Result<()> {
    for path in paths {
        let text = fs::read_to_string(rt, path.as_str())?;
        write_text(rt, text.as_bytes())?;
    }
    Ok(())
}
