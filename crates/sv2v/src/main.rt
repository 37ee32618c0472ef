//! sv2v: translates SystemVerilog to Verilog-2005.
#![tactic(auto)]

use std::env;
use std::io::{self, ErrorKind};
use std::process::ExitCode;
use sv_source::{Put, RealFiles, RealSink, Sink, put_out_of_memory, put_usage};
use sv2v_top::{Status, translate_main};

/// The words after the program's name. A word that isn't UTF-8 is an error.
fn words(rt: &HostRuntime) -> io::Result<Vec<String>> {
    let mut words = Vec::new(rt.alloc());
    for word in env::args(rt)?.skip(1) {
        words.push(word)?;
    }
    Ok(words)
}

/// Says why there are no words. Those that aren't text aren't of the form.
fn without_words<E: Sink>(fault: io::Error, err: &mut E) -> Status {
    let (put, status) = match fault.kind() {
        ErrorKind::OutOfMemory => (put_out_of_memory(err), Status::Memory),
        _ => (put_usage(err), Status::Usage),
    };
    match put {
        Put::Ok => status,
        Put::Failed => Status::SinkFault,
    }
}

fn main(rt: HostRuntime) -> ExitCode {
    let mut files = RealFiles::new(&rt);
    let mut out = RealSink::new(rt.stdout());
    let mut err = RealSink::new(rt.stderr());
    let status = match words(&rt) {
        Ok(words) => translate_main(rt.alloc(), words.as_slice(), &mut files, &mut out, &mut err),
        Err(fault) => without_words(fault, &mut err),
    };
    ExitCode::from(status as u8)
}
