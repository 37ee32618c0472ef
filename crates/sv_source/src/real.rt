// The files and streams of the system. They tell no content: what a real file or terminal held is not proved.
ghost use Rattle.std.specs.Prelude.{◌≡◌, ◌^◌, ◌<◌, ◌≤◌, length, None};
ghost use Rattle.std.specs.Str.{IsUtf8};
ghost use Rattle.sv_source.specs.Loading.{LoadsTold, LoadsWithin, LoadCause};
ghost use Rattle.sv_source.specs.Putting.{Gains, GainsKnown, PutCause, KeepsRoom};

use crate::{Files, Loaded, Put, Sink, Text};
use std::alloc::Global;
use std::io::{ErrorKind, Read, Write};
use std::{fs, rt};

// How many bytes one read asks for at most.
const CHUNK: usize = 4096;

/// The files of a runtime.
#[derive(Drop)]
pub struct RealFiles<'r, R: rt::Files> {
    runtime: &'r R,
    faults: u64,
}

impl<'r, R: rt::Files> RealFiles<'r, R> {
    /// The files of this runtime, without a fault so far.
    pub fn new(runtime: &'r R) -> RealFiles<'r, R>
        ensures { ⟦<RealFiles<'r, R> as Files>⟧.faults result ≡ 0 }
    {
        RealFiles { runtime, faults: 0 }
    }
}

// The rest of the file, if it has at most `limit` bytes. No more than `limit + 1` bytes are read.
fn read_rest<F: Read>(alloc: Global, file: &mut F, limit: u64) -> Loaded
    requires { limit < 2 ^ 32 }
    ensures within { LoadsWithin limit result }
{
    let mut text = Text::new(alloc);
    let mut chunk = [0; CHUNK];
    for _ in 0..=limit {
        let wanted = (limit + 1 - text.len() as u64).min(CHUNK as u64) as usize;
        let count = match file.read(&mut chunk[..wanted]) {
            Ok(0) => return Loaded::Bytes(text),
            Ok(count) => count,
            Err(_) => return Loaded::Failed,
        };
        if text.push_bytes(&chunk[..count]).is_err() {
            return Loaded::Memory;
        }
        if text.len() as u64 > limit {
            return Loaded::TooLong;
        }
    }
    Loaded::TooLong
}

fn load_file<R: rt::Files>(runtime: &R, alloc: Global, path: &[u8], limit: u64) -> Loaded
    requires { limit < 2 ^ 32 }
    ensures within { LoadsWithin limit result }
    ensures no_text { ¬ (IsUtf8 path.now) → result ≡ Loaded.Absent }
{
    let Ok(path) = str::from_utf8(path) else {
        return Loaded::Absent;
    };
    match fs::open(runtime, path) {
        Ok(mut file) => read_rest(alloc, &mut file, limit),
        Err(error) if error.kind() == ErrorKind::NotFound => Loaded::Absent,
        Err(_) => Loaded::Failed,
    }
}

impl<'r, R: rt::Files> Files for RealFiles<'r, R> {
    ghost contents = { λ _. None };

    ghost faults = { λ files. files.faults };

    fn load(&mut self, alloc: Global, path: &[u8], limit: u64) -> Loaded
        requires { limit < 2 ^ 32 }
        ensures answer { LoadsTold None path.now limit result }
        ensures within { LoadsWithin limit result }
        ensures later { self.old.faults ≤ self.new.faults }
        ensures cause { LoadCause result self.old.faults self.new.faults }
        // A path that isn't UTF-8 names no file.
        ensures no_text { ¬ (IsUtf8 path.now) → result ≡ Loaded.Absent }
    {
        let loaded = load_file(self.runtime, alloc, path, limit);
        if let Loaded::Failed = loaded {
            self.faults = self.faults.saturating_add(1);
        }
        loaded
    }
}

/// A stream of the system, as standard output.
#[derive(Drop)]
pub struct RealSink<W: Write> {
    stream: W,
    faults: u64,
}

impl<W: Write> RealSink<W> {
    /// This stream, without a fault so far.
    pub fn new(stream: W) -> RealSink<W>
        ensures { ⟦<RealSink<W> as Sink>⟧.faults result ≡ 0 }
    {
        RealSink { stream, faults: 0 }
    }
}

impl<W: Write> Sink for RealSink<W> {
    ghost written = { λ _. None };

    ghost faults = { λ sink. sink.faults };

    ghost spare = { λ _. 0 };

    fn put(&mut self, piece: &[u8]) -> Put
        ensures bytes { Gains None None piece.now result }
        ensures later { self.old.faults ≤ self.new.faults }
        ensures cause { PutCause result self.old.faults self.new.faults }
        ensures room { length piece.now ≤ 0 → KeepsRoom 0 0 (length piece.now) result }
        // The bytes go to the stream, as far as the stream tells what it has.
        ensures stream { GainsKnown (W.contents self.old.stream) (W.contents self.new.stream) piece.now result }
    {
        let mut rest = piece;
        while !rest.is_empty() {
            match self.stream.write(rest) {
                Ok(count) if count > 0 => rest = &rest[count..],
                _ => {
                    self.faults = self.faults.saturating_add(1);
                    return Put::Failed;
                }
            }
        }
        Put::Ok
    }
}
