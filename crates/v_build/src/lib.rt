//! Expressions and statements of the target language, made by what they mean: each call gives a tree whose meaning is the
//! operation of `v_meaning` on the meanings of its parts. So what lowers never opens a tree.
#![tactic(auto)]

mod expressions;
mod operators;
mod selects;

pub use expressions::{
    binary, both, call, choose, compare, concatenation, either, literal, negate, order, power,
    reduce, repetition, shift, signing, unary,
};
pub use selects::{bit_select, decimal_bit, decimal_part, name, slide};
