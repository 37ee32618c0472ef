//! The top call of the evaluator, for target texts.
#![tactic(auto)]

mod asking;
mod loading;
mod main_call;
mod run;
mod running;

pub use endings::Status;
pub use main_call::eval_main;
