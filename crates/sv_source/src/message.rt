// The lines that the programs print on their error stream.
ghost use Rattle.std.specs.Prelude.{◌≡◌, ◌≤◌, length};
ghost use Rattle.sv_source.specs.Putting.{Gains, PutCause, KeepsRoom};
ghost use Rattle.sv_source.specs.Message.{first_line, refusal_line, usage_line, eval_usage_line, memory_line, read_fault_line, write_fault_line, unsettled_line};

use crate::{Put, Refusal, Sink, put_all, put_parts};
use itoa::Buffer;

/// How many bytes stand before the first newline.
fn line_length(text: &[u8]) -> usize
    ensures value { result ≡ length (first_line text.now) }
    ensures within { result ≤ length text.now }
{
    text.iter().take_while(|byte| **byte != b'\n').count()
}

/// The bytes before the first newline.
fn first_line(text: &[u8]) -> &[u8]
    ensures { result.now ≡ first_line text.now }
{
    &text[..line_length(text)]
}

/// Puts `FILE:LINE:COL: Ennn WORD` and a newline: why a source is refused. `file` is the name of the file of the
/// refusal's place. A word of several lines, as a comment that isn't closed, is cut behind its first one.
pub fn put_refusal<S: Sink>(sink: &mut S, file: &[u8], refusal: &Refusal) -> Put
    ensures bytes { Gains (S.written sink.old) (S.written sink.new) (refusal_line file.now refusal.now) result }
    ensures later { S.faults sink.old ≤ S.faults sink.new }
    ensures cause { PutCause result (S.faults sink.old) (S.faults sink.new) }
    ensures room { length (refusal_line file.now refusal.now) ≤ S.spare sink.old → KeepsRoom (S.spare sink.old) (S.spare sink.new) (length (refusal_line file.now refusal.now)) result }
{
    let mut line = Buffer::new();
    let mut col = Buffer::new();
    let mut rule = Buffer::new();
    let parts = [
        file,
        b":",
        line.format(refusal.place.line).as_bytes(),
        b":",
        col.format(refusal.place.col).as_bytes(),
        b": E",
        rule.format(refusal.rule).as_bytes(),
        b" ",
        first_line(refusal.word.as_bytes()),
        b"\n",
    ];
    put_parts(sink, &parts)
}

/// Puts the line that says how `sv2v` is called.
pub fn put_usage<S: Sink>(sink: &mut S) -> Put
    ensures bytes { Gains (S.written sink.old) (S.written sink.new) usage_line result }
    ensures later { S.faults sink.old ≤ S.faults sink.new }
    ensures cause { PutCause result (S.faults sink.old) (S.faults sink.new) }
    ensures room { length usage_line ≤ S.spare sink.old → KeepsRoom (S.spare sink.old) (S.spare sink.new) (length usage_line) result }
{
    put_all(
        sink,
        b"usage: sv2v [-I DIR] [-D NAME[=TEXT]] --top=NAME FILE...\n",
    )
}

/// Puts the line that says how `sv2v_eval` is called.
pub fn put_eval_usage<S: Sink>(sink: &mut S) -> Put
    ensures bytes { Gains (S.written sink.old) (S.written sink.new) eval_usage_line result }
    ensures later { S.faults sink.old ≤ S.faults sink.new }
    ensures cause { PutCause result (S.faults sink.old) (S.faults sink.new) }
    ensures room { length eval_usage_line ≤ S.spare sink.old → KeepsRoom (S.spare sink.old) (S.spare sink.new) (length eval_usage_line) result }
{
    put_all(
        sink,
        b"usage: sv2v_eval --lang sv|v --top NAME ROWS FILE... | --gen N\n",
    )
}

/// Puts `out of memory` and a newline.
pub fn put_out_of_memory<S: Sink>(sink: &mut S) -> Put
    ensures bytes { Gains (S.written sink.old) (S.written sink.new) memory_line result }
    ensures later { S.faults sink.old ≤ S.faults sink.new }
    ensures cause { PutCause result (S.faults sink.old) (S.faults sink.new) }
    ensures room { length memory_line ≤ S.spare sink.old → KeepsRoom (S.spare sink.old) (S.spare sink.new) (length memory_line) result }
{
    put_all(sink, b"out of memory\n")
}

/// Puts `read fault: PATH` and a newline.
pub fn put_read_fault<S: Sink>(sink: &mut S, path: &[u8]) -> Put
    ensures bytes { Gains (S.written sink.old) (S.written sink.new) (read_fault_line path.now) result }
    ensures later { S.faults sink.old ≤ S.faults sink.new }
    ensures cause { PutCause result (S.faults sink.old) (S.faults sink.new) }
    ensures room { length (read_fault_line path.now) ≤ S.spare sink.old → KeepsRoom (S.spare sink.old) (S.spare sink.new) (length (read_fault_line path.now)) result }
{
    put_parts(sink, &[b"read fault: ", path, b"\n"])
}

/// Puts `write fault` and a newline.
pub fn put_write_fault<S: Sink>(sink: &mut S) -> Put
    ensures bytes { Gains (S.written sink.old) (S.written sink.new) write_fault_line result }
    ensures later { S.faults sink.old ≤ S.faults sink.new }
    ensures cause { PutCause result (S.faults sink.old) (S.faults sink.new) }
    ensures room { length write_fault_line ≤ S.spare sink.old → KeepsRoom (S.spare sink.old) (S.spare sink.new) (length write_fault_line) result }
{
    put_all(sink, b"write fault\n")
}

/// Puts `row K: NAME unsettled` and a newline; `row` is K, from 1.
pub fn put_unsettled<S: Sink>(sink: &mut S, row: u64, name: &[u8]) -> Put
    ensures bytes { Gains (S.written sink.old) (S.written sink.new) (unsettled_line row name.now) result }
    ensures later { S.faults sink.old ≤ S.faults sink.new }
    ensures cause { PutCause result (S.faults sink.old) (S.faults sink.new) }
    ensures room { length (unsettled_line row name.now) ≤ S.spare sink.old → KeepsRoom (S.spare sink.old) (S.spare sink.new) (length (unsettled_line row name.now)) result }
{
    let mut number = Buffer::new();
    let parts = [
        b"row ",
        number.format(row).as_bytes(),
        b": ",
        name,
        b" unsettled\n",
    ];
    put_parts(sink, &parts)
}
