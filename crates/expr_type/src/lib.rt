//! Types of expressions, statements and functions, and where they break the rules of elaboration. The functions are laws, and
//! do nothing; their proofs, to be cited by crates above, are in `proofs/`.
#![tactic(auto)]

ghost use Rattle.expr_type.specs.Breaks.{FirstsAreLeast};
ghost use Rattle.expr_type.specs.Placed.{FormsKeepOrder};

mod halt;
mod kinds;
mod operand;
mod source;
mod step;
mod uses;

pub use halt::Halt;
pub use kinds::{BinaryKind, UnaryKind};
pub use operand::{Number, Valued};
pub use source::Source;
pub use step::Step;
pub use uses::Uses;

/// Where breaks stand in the order of the text, the first of them is the least by turn and rule.
pub fn firsts_are_least()
    ensures { FirstsAreLeast }
{}

/// Expressions whose parts stand in the order of the text stand in it, and so do their breaks: operators, `?:`, parentheses,
/// concatenations, replications, names with members and indices behind them, calls, and numbers. A function that is first needed
/// breaks behind its call.
pub fn forms_keep_order()
    ensures { FormsKeepOrder }
{}

pub use b4_core::Vec4;
pub use pattern_fit::is_same;
pub use sv_tree::{BinaryOperator, UnaryOperator};
