//! Expressions of an elaborated design, lowered to the target language: at every width and sign of the context the lowered one
//! has the bits of the source's value (IEEE 1800-2017 clause 11.6, IEEE 1364-2005 clause 5.4).
#![tactic(auto)]

mod combining;
mod elements;
mod formed;
mod insides;
mod logarithms;
mod lowering;
mod numbers;
mod operands;
mod specials;

pub use lowering::lower;
