//! Row files, and the lines of a trace.
//!
//! A row file gives the inputs of a design row by row; the lines of a trace give its outputs after each row, in the same
//! form: a line a row, the bits of each port most significant first, one space between ports.
#![tactic(auto)]

mod departures;
mod laws;
mod reading;
mod rows;
mod shape;
mod slots;
mod writing;

pub use laws::{none_departs, one_reading, rows_keep};
pub use rows::{ROW_LIMIT, read_rows};
pub use shape::{Port, Ports, Shape};
pub use writing::lines;
