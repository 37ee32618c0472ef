//! The words of the evaluator's command line.
#![tactic(auto)]

mod command;
mod words;

pub use words::{EvalRun, EvalWords, Language, read_eval_words};
