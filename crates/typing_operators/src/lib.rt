//! Operators, `inside`, concatenations, replications and streams as they are typed, and the lists of expressions in them, each over
//! something that types an expression (IEEE 1800-2017 clause 11.4). Its proofs have what a walk over expressions owes these forms.
#![tactic(auto)]

mod insides;
mod joins;
mod lists;
mod operators;
mod slices;

pub use insides::inside;
pub use joins::{concatenation, replication, reverses, stream};
pub use operators::{binary, conditional, unary};
pub use slices::written_size;
