//! The expressions and types of a source text, from the derivations of their tokens.
#![tactic(auto)]

mod expressions;
mod lists;
mod nodes;
mod rows;
mod types;
mod words;

pub use expressions::{
    NESTING_LIMIT, expression, expression_list, selects_alone, slice_size_alone,
};
pub use lists::{Piece, behind, each, pieces, with_last};
pub use nodes::{is_blank, kid, kids, kids_from, leaf, mark, row, token};
pub use types::{
    aggregate_text, alone, bare_text, declarator, declarators, declarators_behind,
    dimensioned_text, dims, initializer, keyword_text, named_dims_text, named_text, no_type,
    scoped, signed_text, type_text,
};
pub use words::{keyword_type, qualified, signing, stream_operator};
