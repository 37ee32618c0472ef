ghost use Rattle.std.specs.Prelude.{◌≡◌, ◌<◌, ◌≤◌, ◌-◌, ◌^◌, length};
ghost use Rattle.ll_engine.specs.Answers.{NewGives, ParseGives};
ghost use Rattle.ll_engine.specs.Class.{IsFit};
ghost use Rattle.ll_engine.specs.Texts.{OneText, OneAnswer, FrontsBegin};

use crate::checks::{first_break, make_heads};
use crate::facts::make_facts;
use crate::fails::{NewFail, ParseFail};
use crate::table::Table;
use crate::tables::Tables;
use crate::tree::Tree;
use std::alloc::Global;
use std::marker::Model;

/// A table of the class, ready to read symbols.
#[derive(Drop)]
pub struct Ll1 {
    alloc: Global,
    tables: Tables,
}

impl Model for Ll1 {
    ghost use Rattle.std.specs.Prelude.{List};
    ghost use Rattle.ll_engine.specs.declared.table.Row.{Row};
    ghost use Rattle.ll_engine.specs.Knows.{Knows};

    ghost Value = { List Row };

    ghost view = { λ x. x.tables.rows };

    ghost invariant = { λ x. Knows x.tables.rows x.tables.heads };
}

impl Ll1 {
    /// A reader of the table, or `Unfit { row }` where the table isn't of the class: the first row whose head,
    /// or one of whose parts, breaks the class, and 0 for a table without rows.
    pub fn new(alloc: Global, rows: Table) -> Result<Ll1, NewFail>
        requires { length rows ≤ 65536 }
        ensures { NewGives rows result }
    {
        if rows.is_empty() {
            return Err(NewFail::Unfit { row: 0 });
        }
        let facts = make_facts(alloc, rows.as_slice())?;
        let heads = make_heads(alloc, rows.as_slice(), &facts)?;
        if let Some(row) = first_break(rows.as_slice(), &facts, heads.as_slice()) {
            return Err(NewFail::Unfit { row });
        }
        Ok(Ll1 {
            alloc,
            tables: Tables { rows, heads },
        })
    }

    /// The tree of the symbols by the table, with nesting at most `limit` at each symbol. A `Leaf` has the
    /// number of its symbol, from 0, and a `Node` that of its row. `NoText { at }` where no text begins with
    /// the symbols up to and with `at`, while one begins with those before, the end counted as a symbol behind
    /// all others; `Deep { at }` where nesting first passes the limit at the symbol `at`, whichever of the two
    /// comes first, `NoText` where they come together.
    pub fn parse(&self, symbols: &[u16], limit: u32) -> Result<Tree, ParseFail>
        requires { length symbols.now < 2 ^ 32 - 1 }
        ensures { ParseGives self.now symbols.now limit result }
    {
        self.tables.read(self.alloc, symbols, limit)
    }

    /// The law that a list of symbols has at most one derivation by the table.
    pub fn has_one_text(&self)
        ensures { OneText self.now }
    {
        let _tables = &self.tables;
    }

    /// The law that at most one of the answers of `parse` other than `Memory` is right.
    pub fn has_one_answer(&self, symbols: &[u16], limit: u32)
        ensures { OneAnswer self.now symbols.now limit }
    {
        let _tables = &self.tables;
    }

    /// The law that the table is of the class.
    pub fn is_fit(&self)
        ensures { IsFit self.now }
    {
        let _tables = &self.tables;
    }

    /// The law that each beginning of what a text begins with is the beginning of a text.
    pub fn has_fronts(&self)
        ensures { FrontsBegin self.now }
    {}
}
