//! What may be given to what, and casts (IEEE 1800-2017 clauses 6.19.3, 6.22, 6.24, 7.6, 10.8 and 20.5 to 20.8).
#![tactic(auto)]

mod casts;
mod giving;
mod matching;
mod system;

pub use casts::{cast_of, converted, size_cast, with_sign};
pub use giving::{is_above, is_given, is_streamed, may_give};
pub use matching::is_assignable;
pub use operand_types::{copy_type, spot_at};
pub use system::clog2_of;
