//! The top call: from words, files and sinks to a status.

ghost use Rattle.std.specs.Prelude.{◌≡◌, ◌≤◌, map, string_bytes};
ghost use Rattle.sv2v_top.specs.Endings.{Says, Writes, Runs, LevelUnless, line_of, status_of};
ghost use Rattle.sv2v_top.specs.Promises.{call, sink, OnDone, OnRefused, OnUsage, OnMemory, OnFileFault, OnSinkFault, UsageComes, DoneComes, RefusalComes, NeverUnsettled};
ghost use Rattle.sv_source.specs.Putting.{Gains, PutCause};
ghost use Rattle.sv2v_top.specs.declared.status.Status.TheVariants.{Done, SinkFault};

use crate::run::{Stop, run};
use crate::status::Status;
use std::alloc::Global;
use std::string::String;
use sv_source::{
    Files, Put, Sink, Text, put_all, put_out_of_memory, put_read_fault, put_refusal, put_usage,
    put_write_fault,
};

/// Puts the line of a stop on the error stream.
fn put_line<E: Sink>(stop: &Stop, err: &mut E) -> Put
    ensures bytes { Gains (E.written err.old) (E.written err.new) (line_of stop.now) result }
    ensures later { E.faults err.old ≤ E.faults err.new }
    ensures cause { PutCause result (E.faults err.old) (E.faults err.new) }
{
    match stop {
        Stop::Usage => put_usage(err),
        Stop::Memory => put_out_of_memory(err),
        Stop::FileFault(path) => put_read_fault(err, path.as_bytes()),
        Stop::Refused(path, refusal) => put_refusal(err, path.as_bytes(), refusal),
    }
}

/// The status of a stop.
fn stop_status(stop: &Stop) -> Status
    ensures is { result ≡ status_of stop.now }
    ensures undone { result ≡ Done → ⊥ }
{
    match stop {
        Stop::Usage => Status::Usage,
        Stop::Memory => Status::Memory,
        Stop::FileFault(_) => Status::FileFault,
        Stop::Refused(_, _) => Status::Refused,
    }
}

/// Says a stop on the error stream, and answers its status, or `SinkFault` where the stream fails.
fn say<E: Sink>(stop: &Stop, err: &mut E) -> Status
    ensures says { Says (sink E.written E.faults err.old err.new) (line_of stop.now) (status_of stop.now) result }
    ensures later { E.faults err.old ≤ E.faults err.new }
    ensures level { LevelUnless SinkFault result (E.faults err.old) (E.faults err.new) }
    ensures undone { result ≡ Done → ⊥ }
{
    match put_line(stop, err) {
        Put::Ok => stop_status(stop),
        Put::Failed => Status::SinkFault,
    }
}

/// Writes the text, and answers `Done`, or says a write fault and answers `SinkFault`.
fn write_out<O: Sink, E: Sink>(text: &Text, out: &mut O, err: &mut E) -> Status
    ensures writes { Writes (sink O.written O.faults out.old out.new) (sink E.written E.faults err.old err.new) text.now result }
    ensures out_later { O.faults out.old ≤ O.faults out.new }
    ensures err_later { E.faults err.old ≤ E.faults err.new }
    ensures out_level { LevelUnless SinkFault result (O.faults out.old) (O.faults out.new) }
    ensures err_level { LevelUnless SinkFault result (E.faults err.old) (E.faults err.new) }
{
    match put_all(out, text.as_bytes()) {
        Put::Ok => Status::Done,
        Put::Failed => {
            let _ = put_write_fault(err);
            Status::SinkFault
        }
    }
}

/// The whole run: what the words and files give, and how it ends on the sinks.
fn answer<F: Files, O: Sink, E: Sink>(
    alloc: Global,
    words: &[String],
    files: &mut F,
    out: &mut O,
    err: &mut E,
) -> Status
    ensures runs { Runs (map string_bytes words.now) (F.contents files.old) (F.faults files.old) (F.faults files.new) (sink O.written O.faults out.old out.new) (sink E.written E.faults err.old err.new) result }
    ensures files_later { F.faults files.old ≤ F.faults files.new }
    ensures out_later { O.faults out.old ≤ O.faults out.new }
    ensures err_later { E.faults err.old ≤ E.faults err.new }
    ensures out_level { LevelUnless SinkFault result (O.faults out.old) (O.faults out.new) }
    ensures err_level { LevelUnless SinkFault result (E.faults err.old) (E.faults err.new) }
    ensures files_level { result ≡ Done → F.faults files.new ≡ F.faults files.old }
{
    match run(alloc, words, files) {
        Ok(text) => write_out(&text, out, err),
        Err(stop) => say(&stop, err),
    }
}

/// sv2v as a call: reads the words `[-I DIR].. [-D NAME[=TEXT]].. --top=NAME FILE..`, expands the files (IEEE 1800-2017
/// clause 22), translates what they give, and puts the text on `out`.
///
/// Answers `Done` with the whole text on `out`; `Refused`, `Usage`, `Memory` or `FileFault` with nothing on `out` and one
/// line on `err`; `SinkFault` where a put failed, with a front of the text on `out`. Never `Unsettled`.
pub fn translate_main<F: Files, O: Sink, E: Sink>(
    alloc: Global,
    words: &[String],
    files: &mut F,
    out: &mut O,
    err: &mut E,
) -> Status
    // A right translation of the files is on the output, whole.
    ensures done { OnDone (call (map string_bytes words.now) F.contents F.faults files.old files.new (sink O.written O.faults out.old out.new) (sink E.written E.faults err.old err.new)) result }
    // The first break of the files is said, with its rule, place and word, and the output is as it was.
    ensures refused { OnRefused (call (map string_bytes words.now) F.contents F.faults files.old files.new (sink O.written O.faults out.old out.new) (sink E.written E.faults err.old err.new)) result }
    // The words aren't of the form, and the usage line is said.
    ensures usage { OnUsage (call (map string_bytes words.now) F.contents F.faults files.old files.new (sink O.written O.faults out.old out.new) (sink E.written E.faults err.old err.new)) result }
    // Want of memory is said.
    ensures memory { OnMemory (call (map string_bytes words.now) F.contents F.faults files.old files.new (sink O.written O.faults out.old out.new) (sink E.written E.faults err.old err.new)) result }
    // The load of a file that the expansion looks for failed, and its path is said.
    ensures file_fault { OnFileFault (call (map string_bytes words.now) F.contents F.faults files.old files.new (sink O.written O.faults out.old out.new) (sink E.written E.faults err.old err.new)) result }
    // A sink failed, with a front of what it was given.
    ensures sink_fault { OnSinkFault (call (map string_bytes words.now) F.contents F.faults files.old files.new (sink O.written O.faults out.old out.new) (sink E.written E.faults err.old err.new)) result }
    // Words that aren't of the form are answered so.
    ensures usage_comes { UsageComes (call (map string_bytes words.now) F.contents F.faults files.old files.new (sink O.written O.faults out.old out.new) (sink E.written E.faults err.old err.new)) result }
    // Files without a break are translated.
    ensures done_comes { DoneComes (call (map string_bytes words.now) F.contents F.faults files.old files.new (sink O.written O.faults out.old out.new) (sink E.written E.faults err.old err.new)) result }
    // Files with a break are refused with their first one.
    ensures refusal_comes { RefusalComes (call (map string_bytes words.now) F.contents F.faults files.old files.new (sink O.written O.faults out.old out.new) (sink E.written E.faults err.old err.new)) result }
    // No design is run.
    ensures never_unsettled { NeverUnsettled result }
    ensures files_later { F.faults files.old ≤ F.faults files.new }
    ensures out_later { O.faults out.old ≤ O.faults out.new }
    ensures err_later { E.faults err.old ≤ E.faults err.new }
    // Where it doesn't answer `SinkFault`, the counts of both sinks are as they were.
    ensures out_level { LevelUnless SinkFault result (O.faults out.old) (O.faults out.new) }
    ensures err_level { LevelUnless SinkFault result (E.faults err.old) (E.faults err.new) }
    // Where it answers `Done`, the count of the files is as it was.
    ensures files_level { result ≡ Done → F.faults files.new ≡ F.faults files.old }
{
    answer(alloc, words, files, out, err)
}
