//! What names stand for behind the declarations of blocks, enums and loops in a text (IEEE 1800-2017 clauses 6.19, 6.21, 9.3.4 and
//! 12.7.1): a scope knows those around it and changes none of them.
#![tactic(auto)]

mod base;
mod declared;
mod level;
mod names;
mod rows;
mod scope;

pub use base::Base;
pub use declared::Declared;
pub use level::Level;
pub use scope::Scope;
