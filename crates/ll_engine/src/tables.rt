ghost use Rattle.std.specs.Prelude.{◌≡◌};
ghost use Rattle.ll_engine.specs.Knows.{row_next, row_blank};

use crate::table::Table;
use sqlite_items::Items;

/// What is kept of a head: by symbol the row that it begins, the row that can be empty, and a rank above
/// those of all heads that its rows start with.
#[derive(Debug, Drop)]
pub struct Head {
    pub begun: Items<Option<u16>>,
    pub blank: Option<u16>,
    pub rank: u64,
}

/// A table with what is kept of its heads, by number.
#[derive(Debug, Drop)]
pub struct Tables {
    pub rows: Table,
    pub heads: Items<Head>,
}

impl Tables {
    /// The row of the head that the next token begins.
    pub fn row_next(&self, head: u16, token: Option<u16>) -> Option<u16>
        ensures { result ≡ row_next self.now.heads head token }
    {
        let token = token?;
        let head = self.heads.get(head as usize)?;
        *head.begun.get(token as usize)?
    }

    /// The row of the head that can be empty.
    pub fn row_blank(&self, head: u16) -> Option<u16>
        ensures { result ≡ row_blank self.now.heads head }
    {
        let head = self.heads.get(head as usize)?;
        head.blank
    }
}
