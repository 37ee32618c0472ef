//! Reading lists of symbols by a table of rows, with one symbol of look-ahead.
#![tactic(auto)]

mod checks;
mod derive;
mod facts;
mod fails;
mod ll1;
mod machine;
mod rules;
mod table;
mod tables;
mod tree;

pub use fails::{NewFail, ParseFail};
pub use ll1::Ll1;
pub use sqlite_items::Items;
pub use table::{Part, Parts, Row, Table};
pub use tree::{Kids, Tree};
