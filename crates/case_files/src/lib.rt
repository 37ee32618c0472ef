//! Case files: what programs that run cases are given, in a form that a reader can edit.
//!
//! A file is a list of lines. A line `case NAME` begins a case; the lines below it say what it is run on:
//!
//! | line | what it says |
//! |---|---|
//! | `words A B ..` | words, with one space between |
//! | `word A` | one word, the rest of the line, spaces and all |
//! | `more TEXT` | a newline and this text, at the end of the last word |
//! | `file PATH` | a file, whose text is in the lines behind it |
//! | `\|TEXT` | a line of the last file, with its newline |
//! | `\TEXT` | bytes of the last file, without a newline |
//! | `byte N ..` | bytes of the last file, as decimal numbers |
//! | `repeat COUNT TEXT` | the text so often, at the end of the last file |
//! | `fill COUNT N` | the byte with this decimal number so often, at the end of the last file |
//! | `fails DEVICE N ..` | the calls of `files`, `out` or `err` that fail, counted from 1 |
//! | `room DEVICE N` | the room of `out` or `err` in bytes |
//! | an empty line, or one that begins with `#` | nothing |
#![tactic(auto)]

mod case;
mod printing;
mod reading;

pub use case::{Case, Device, files_of};
pub use printing::{escaped, print_bytes};
pub use reading::{CaseFault, load_cases, read_cases};
