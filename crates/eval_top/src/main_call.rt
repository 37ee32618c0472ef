//! The top call: from words, files and sinks to a status.

ghost use Rattle.std.specs.Prelude.{◌≡◌, ◌≤◌, map, string_bytes};
ghost use Rattle.sv_source.specs.Putting.{Gains, PutCause};
ghost use Rattle.endings.specs.Sinks.{sink};
ghost use Rattle.endings.specs.Ends.{Says, LevelUnless};
ghost use Rattle.endings.specs.Calls.{call};
ghost use Rattle.endings.specs.declared.status.Status.TheVariants.{Done, SinkFault};
ghost use Rattle.eval_top.specs.Endings.{Runs, line_of, status_of};
ghost use Rattle.eval_top.specs.Promises.{OnDone, OnRefused, OnUsage, OnMemory, OnFileFault, OnSinkFault, OnUnsettled, UsageComes, StageComes, RefusalComes, RunComes, LinesCome, UnsettledComes};

use crate::run::{Stop, run};
use endings::{Status, write_out};
use std::alloc::Global;
use std::string::String;
use sv_source::{
    Files, Put, Sink, put_eval_usage, put_out_of_memory, put_read_fault, put_refusal, put_unsettled,
};

/// Puts the line of a stop on the error stream.
fn put_line<E: Sink>(stop: &Stop, err: &mut E) -> Put
    ensures bytes { Gains (E.written err.old) (E.written err.new) (line_of stop.now) result }
    ensures later { E.faults err.old ≤ E.faults err.new }
    ensures cause { PutCause result (E.faults err.old) (E.faults err.new) }
{
    match stop {
        Stop::Usage => put_eval_usage(err),
        Stop::Memory => put_out_of_memory(err),
        Stop::FileFault(path) => put_read_fault(err, path.as_bytes()),
        Stop::Refused(path, refusal) => put_refusal(err, path.as_bytes(), refusal),
        Stop::Unsettled(row, name) => put_unsettled(err, *row, name.as_bytes()),
    }
}

/// The status of a stop.
fn stop_status(stop: &Stop) -> Status
    ensures is { result ≡ status_of stop.now }
    ensures undone { result ≡ Done → ⊥ }
{
    match stop {
        Stop::Usage => Status::Usage,
        Stop::Memory => Status::Memory,
        Stop::FileFault(_) => Status::FileFault,
        Stop::Refused(_, _) => Status::Refused,
        Stop::Unsettled(_, _) => Status::Unsettled,
    }
}

/// Says a stop on the error stream, and answers its status, or `SinkFault` where the stream fails.
fn say<E: Sink>(stop: &Stop, err: &mut E) -> Status
    ensures says { Says (sink E.written E.faults err.old err.new) (line_of stop.now) (status_of stop.now) result }
    ensures later { E.faults err.old ≤ E.faults err.new }
    ensures level { LevelUnless SinkFault result (E.faults err.old) (E.faults err.new) }
    ensures undone { result ≡ Done → ⊥ }
{
    match put_line(stop, err) {
        Put::Ok => stop_status(stop),
        Put::Failed => Status::SinkFault,
    }
}

/// The whole run: what the words and files give, and how it ends on the sinks.
fn answer<F: Files, O: Sink, E: Sink>(
    alloc: Global,
    words: &[String],
    files: &mut F,
    out: &mut O,
    err: &mut E,
) -> Status
    ensures runs { Runs (map string_bytes words.now) (F.contents files.old) (F.faults files.old) (F.faults files.new) (sink O.written O.faults out.old out.new) (sink E.written E.faults err.old err.new) result }
    ensures files_later { F.faults files.old ≤ F.faults files.new }
    ensures out_later { O.faults out.old ≤ O.faults out.new }
    ensures err_later { E.faults err.old ≤ E.faults err.new }
    ensures out_level { LevelUnless SinkFault result (O.faults out.old) (O.faults out.new) }
    ensures err_level { LevelUnless SinkFault result (E.faults err.old) (E.faults err.new) }
    ensures files_level { result ≡ Done → F.faults files.new ≡ F.faults files.old }
{
    match run(alloc, words, files) {
        Ok(lines) => write_out(lines.as_bytes(), out, err),
        Err(stop) => say(&stop, err),
    }
}

/// The evaluator as a call: reads the words `--lang v --top NAME ROWS FILE`, loads the target text FILE and the row file ROWS,
/// runs the design that the text reads as over the rows, with the module NAME as its top (IEEE 1364-2005), and puts a line for
/// each row on `out`: the bits of each output in port order, most significant first, one space between outputs.
///
/// Answers `Done` with all lines on `out`; `Refused`, `Usage`, `Memory`, `FileFault` or `Unsettled` with nothing on `out` and
/// one line on `err`; `SinkFault` where a put failed, with a front of the lines on `out`. `--lang sv` and `--gen N` are refused with
/// E999.
pub fn eval_main<F: Files, O: Sink, E: Sink>(
    alloc: Global,
    words: &[String],
    files: &mut F,
    out: &mut O,
    err: &mut E,
) -> Status
    // The lines of the trace of the text over the rows are on the output, all of them.
    ensures done { OnDone (call (map string_bytes words.now) F.contents F.faults files.old files.new (sink O.written O.faults out.old out.new) (sink E.written E.faults err.old err.new)) result }
    // The break of the text or of the row file is said, with its rule, place and word, and the output is as it was.
    ensures refused { OnRefused (call (map string_bytes words.now) F.contents F.faults files.old files.new (sink O.written O.faults out.old out.new) (sink E.written E.faults err.old err.new)) result }
    // The words aren't of the form, and the usage line is said.
    ensures usage { OnUsage (call (map string_bytes words.now) F.contents F.faults files.old files.new (sink O.written O.faults out.old out.new) (sink E.written E.faults err.old err.new)) result }
    // Want of memory is said.
    ensures memory { OnMemory (call (map string_bytes words.now) F.contents F.faults files.old files.new (sink O.written O.faults out.old out.new) (sink E.written E.faults err.old err.new)) result }
    // The load of the text or of the row file failed, and its path is said.
    ensures file_fault { OnFileFault (call (map string_bytes words.now) F.contents F.faults files.old files.new (sink O.written O.faults out.old out.new) (sink E.written E.faults err.old err.new)) result }
    // A sink failed, with a front of what it was given.
    ensures sink_fault { OnSinkFault (call (map string_bytes words.now) F.contents F.faults files.old files.new (sink O.written O.faults out.old out.new) (sink E.written E.faults err.old err.new)) result }
    // The row in which the design doesn't settle is said, with a signal.
    ensures unsettled { OnUnsettled (call (map string_bytes words.now) F.contents F.faults files.old files.new (sink O.written O.faults out.old out.new) (sink E.written E.faults err.old err.new)) result }
    // Words that aren't of the form are answered so.
    ensures usage_comes { UsageComes (call (map string_bytes words.now) F.contents F.faults files.old files.new (sink O.written O.faults out.old out.new) (sink E.written E.faults err.old err.new)) result }
    // What isn't built is refused.
    ensures stage_comes { StageComes (call (map string_bytes words.now) F.contents F.faults files.old files.new (sink O.written O.faults out.old out.new) (sink E.written E.faults err.old err.new)) result }
    // Files with a break are refused with it.
    ensures refusal_comes { RefusalComes (call (map string_bytes words.now) F.contents F.faults files.old files.new (sink O.written O.faults out.old out.new) (sink E.written E.faults err.old err.new)) result }
    // Files without a break are run.
    ensures run_comes { RunComes (call (map string_bytes words.now) F.contents F.faults files.old files.new (sink O.written O.faults out.old out.new) (sink E.written E.faults err.old err.new)) result }
    // Where the rows have a trace by rounds, its lines are put.
    ensures lines_come { LinesCome (call (map string_bytes words.now) F.contents F.faults files.old files.new (sink O.written O.faults out.old out.new) (sink E.written E.faults err.old err.new)) result }
    // Where they have none, that is answered.
    ensures unsettled_comes { UnsettledComes (call (map string_bytes words.now) F.contents F.faults files.old files.new (sink O.written O.faults out.old out.new) (sink E.written E.faults err.old err.new)) result }
    ensures files_later { F.faults files.old ≤ F.faults files.new }
    ensures out_later { O.faults out.old ≤ O.faults out.new }
    ensures err_later { E.faults err.old ≤ E.faults err.new }
    // Where it doesn't answer `SinkFault`, the counts of both sinks are as they were.
    ensures out_level { LevelUnless SinkFault result (O.faults out.old) (O.faults out.new) }
    ensures err_level { LevelUnless SinkFault result (E.faults err.old) (E.faults err.new) }
    // Where it answers `Done`, the count of the files is as it was.
    ensures files_level { result ≡ Done → F.faults files.new ≡ F.faults files.old }
{
    answer(alloc, words, files, out, err)
}
