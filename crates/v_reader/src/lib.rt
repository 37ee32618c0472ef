//! The reader of target texts: a text that keeps the rules is read as its design, and any other one is refused at a token.
#![tactic(auto)]

mod fails;
mod reading;

pub use fails::ReadFail;
pub use reading::{has_one_answer, read_verilog};
pub use v_parse::discard;
pub use v_top_rules::{TopFail, check_top};
