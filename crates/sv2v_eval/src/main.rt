//! sv2v_eval: runs a Verilog-2005 text over rows of inputs.
#![tactic(auto)]

use eval_top::{Status, eval_main};
use std::env;
use std::io::{self, ErrorKind};
use std::process::ExitCode;
use sv_source::{Put, RealFiles, RealSink, Sink, put_eval_usage, put_out_of_memory};

/// The words after the program's name. A word that isn't UTF-8 is an error.
fn words(rt: &HostRuntime) -> io::Result<Vec<String>> {
    let mut words = Vec::new(rt.alloc());
    for word in env::args(rt)?.skip(1) {
        words.push(word)?;
    }
    Ok(words)
}

/// Says why there are no words. Those that aren't text aren't of the form.
fn without_words<E: Sink>(fault: io::Error, err: &mut E) -> Status {
    let (put, status) = match fault.kind() {
        ErrorKind::OutOfMemory => (put_out_of_memory(err), Status::Memory),
        _ => (put_eval_usage(err), Status::Usage),
    };
    match put {
        Put::Ok => status,
        Put::Failed => Status::SinkFault,
    }
}

fn main(rt: HostRuntime) -> ExitCode {
    let mut files = RealFiles::new(&rt);
    let mut out = RealSink::new(rt.stdout());
    let mut err = RealSink::new(rt.stderr());
    let status = match words(&rt) {
        Ok(words) => eval_main(rt.alloc(), words.as_slice(), &mut files, &mut out, &mut err),
        Err(fault) => without_words(fault, &mut err),
    };
    ExitCode::from(status as u8)
}
