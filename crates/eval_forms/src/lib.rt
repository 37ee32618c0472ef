//! What an expression asks of its operands: the direct operands of each form, in the order in which they are valued, with the
//! width and the sign of each (IEEE 1800-2017 clauses 11.6 to 11.8).
#![tactic(auto)]

mod asked;
mod asking;
mod assigned;
mod callees;
mod choices;
mod combining;

pub use asked::{Ask, Operand};
pub use asking::operands;
pub use assigned::{assigned_bits, given_bits};
pub use callees::{call_of, formals_of};
pub use combining::combine;
