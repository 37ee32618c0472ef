//! Parts of runs of typed statements (IEEE 1800-2017 clauses 9.3.1, 10.4, 12 and 13), where something else runs the functions
//! that they call: the values of expressions in an environment, writes, assignments, locals, the variables of loops, and how a
//! `case` chooses. Its proofs say how steps follow one another.
#![tactic(auto)]

mod assigns;
mod choices;
mod controls;
mod env;
mod inputs;
mod parts;
mod selectors;
mod starts;
mod targets;
mod values;
mod variables;
mod writes;

pub use assigns::{assign, write_all};
pub use choices::chosen_item;
pub use controls::{Control, MOST_TURNS};
pub use env::{Env, Update};
pub use inputs::take_all_in;
pub use parts::{Target, target_of};
pub use selectors::{Selector, agrees};
pub use starts::start_all;
pub use targets::{collect, collect_all};
pub use values::{alone_in, assigned_in, bits_in, count, is_true_in};
pub use variables::set_variable;
pub use writes::{default_bits_of, write, write_whole};
