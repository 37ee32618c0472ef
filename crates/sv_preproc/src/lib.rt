//! Macro expansion: the tokens of all files behind the directives of the compiler (IEEE 1800-2017 clause 22).
#![tactic(auto)]

mod branches;
mod calls;
mod expansion;
mod loading;
mod settings;
mod state;
mod step;
mod turn;

pub use expansion::{expand, first_is_answered, least_is_answered, one_relation};
pub use settings::{Define, Defines, ExpandFail, Expanded, Settings, Texts};
