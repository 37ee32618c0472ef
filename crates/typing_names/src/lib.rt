//! What the names of a text of a frame stand for, found in near constant time, so that expressions can be typed in it.
#![tactic(auto)]

mod counting;
mod frame_text;
mod homes;
mod source_names;
mod source_nets;
mod text;
mod token_scopes;

pub use counting::Counts;
pub use source_names::SourceNames;
pub use text::{FrameText, Start};
pub use token_scopes::{TokenScopes, innermost_of, scope_of};
