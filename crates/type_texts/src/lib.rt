//! Types as they are written (IEEE 1800-2017 clauses 6.11, 7.2 to 7.4), where bounds and the types of members are known.
#![tactic(auto)]

mod aggregates;
mod dimensions;
mod keywords;
mod unions;

pub use aggregates::{Field, field_of, struct_of};
pub use dimensions::{Dim, named_type, under, unpacked};
pub use keywords::{implicit_type, keyword_type};
pub use unions::union_of;
