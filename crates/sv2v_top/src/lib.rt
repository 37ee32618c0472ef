//! The top call of sv2v, for single modules of variables and processes.
#![tactic(auto)]

mod design;
mod elab_build;
mod literals;
mod main_call;
mod name_table;
mod run;
mod status;
mod translation;
mod uses;

pub use main_call::translate_main;
pub use status::Status;
