//! Constants as they are typed (IEEE 1800-2017 clause 11.2.1): whether they name a signal or a local (E406), hold or reach a stream
//! (E512), are valued within the limits of turns and statements (E608), and give a number in a range (E411).
#![tactic(auto)]

mod exprs;
mod keys;
mod marks;
mod numbers;
mod stmts;

pub use exprs::uses_of;
pub use keys::key_number;
pub use marks::{mark_of, stream_marks};
pub use numbers::number_in;
pub use type_kinds::copy_type;
