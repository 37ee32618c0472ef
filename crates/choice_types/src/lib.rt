//! `?:` as it is typed (IEEE 1800-2017 clauses 11.4.11 and 11.6): the type that its arms give it, and the rules on what stands in it.
#![tactic(auto)]

mod choices;

pub use choices::choice_of;
