//! Four-state bits and vectors, and the operators on them (IEEE 1800-2017 clauses 6.3 and 11.4).
#![tactic(auto)]

mod arithmetic;
mod bit;
mod bitwise;
mod comparisons;
mod extension;
mod integers;
mod operators;
mod powers;
mod reductions;
mod shifts;
mod words;

pub use arithmetic::{binary, unary};
pub use bit::{Bit4, Edge, Vec4};
pub use bitwise::{both, either, merge, negate, two_state};
pub use comparisons::{equal, order};
pub use extension::extend;
pub use operators::{BinOp, EqOp, OrdOp, RedOp, ShiftOp, UnOp};
pub use powers::power;
pub use reductions::{edge, reduce, truth};
pub use shifts::shift;
pub use sqlite_items::Items;

/// The values of a design's top-level inputs, in port order.
pub type Row = Items<Vec4>;

/// Rows of inputs, the first one first.
pub type Rows = Items<Row>;

/// The value of each signal of a design, in the order of its signals.
pub type Valuation = Items<Vec4>;

/// The valuations after each row, the first one first.
pub type Trace = Items<Valuation>;
