//! The table of a text with its index.

ghost use Rattle.std.specs.Prelude.{◌≡◌, ◌-◌, ◌<◌, length, slice_get, IfOk, Some};
ghost use Rattle.std.specs.Option.{option_copied};
ghost use Rattle.package_scope.specs.Innermost.{scope_at};
ghost use Rattle.package_scope.specs.Lookup as means;
ghost use Rattle.package_scope.specs.Rules as rules;
ghost use Rattle.package_scope.specs.Tables as tables;

use crate::building::{number, table_of};
use crate::index::{Index, index_of};
use crate::meaning::{found, in_package, means, own};
use crate::table::{Declaration, Found, Scope, Table, Use};
use crate::walks::innermost;
use name_events::{Event, events_of};
use std::alloc::{AllocError, Global};
use std::marker::Model;
use sv_source::{Text, Token, at};
use sv_tree::SourceTree;

/// The scopes of a source text with their declarations and imports, in which names are looked up. Contracts see the table.
#[derive(Drop)]
pub struct NameTable {
    table: Table,
    index: Index,
    nothing: Text,
}

impl Model for NameTable {
    ghost use Rattle.std.specs.Prelude.{◌≡◌, ◌<◌, ◌^◌, [], length};
    ghost use Rattle.package_scope.specs.declared.table.Table.{Table};
    ghost use Rattle.package_scope.specs.Index.{Indexed};
    ghost use Rattle.package_scope.specs.Packages.{ArePackages};

    ghost Value = { Table };

    ghost view = { λ x. x.table };

    ghost invariant = { λ x. Indexed x.table x.index × (ArePackages x.table x.index.names x.index.packages × ((x.nothing ≡ []) × (length x.table.scopes < 2 ^ 32))) };
}

impl NameTable {
    /// The table of a text.
    #[tactic(auto, unfolding(crate::specs::Tables::table_of))]
    pub fn new(alloc: Global, tree: &SourceTree) -> Result<NameTable, AllocError>
        ensures { IfOk result (λ t. t ≡ tables.table_of tree.now) }
    {
        let events = events_of(alloc, tree)?;
        NameTable::of_events(alloc, tree.tokens.as_slice(), events.as_slice())
    }

    /// The table of events of a text with these tokens.
    pub fn of_events(
        alloc: Global,
        tokens: &[Token],
        events: &[Event],
    ) -> Result<NameTable, AllocError>
        ensures { IfOk result (λ t. t ≡ tables.steps tokens.now events.now (tables.start (length tokens.now - 1))) }
    {
        let last = number(tokens.len().saturating_sub(1))?;
        let table = table_of(alloc, tokens, events, last)?;
        let _count = number(table.scopes.len())?;
        let index = index_of(alloc, &table)?;
        Ok(NameTable {
            table,
            index,
            nothing: Text::new(alloc),
        })
    }

    /// The table.
    pub fn table(&self) -> &Table
        ensures { result.now ≡ self.now }
    {
        &self.table
    }

    /// The declaration with this number, if there is one.
    pub fn declaration(&self, number: u32) -> Option<&Declaration>
        ensures { option_copied result ≡ slice_get self.now.declared number }
    {
        at(self.table.declared.as_slice(), number as usize)
    }

    /// The scope with this number, if there is one.
    pub fn scope(&self, number: u32) -> Option<&Scope>
        ensures { option_copied result ≡ slice_get self.now.scopes number }
    {
        at(self.table.scopes.as_slice(), number as usize)
    }

    /// The innermost scope that holds a token, by its number. It takes no memory, and time by the number of scopes.
    pub fn scope_at(&self, token: u32) -> u32
        ensures { result ≡ scope_at self.now token }
    {
        innermost(self.table.scopes.as_slice(), token)
    }

    /// What a name stands for at a token of a scope (IEEE 1800-2017 clause 23.9). It takes no memory.
    pub fn lookup(&self, scope: u32, name: &Text, token: u32) -> Found
        ensures { result ≡ means.means self.now scope name.now token }
    {
        means(&self.table, &self.index, scope, name, token)
    }

    /// The declaration of a name in a scope that is visible at a token.
    pub fn own(&self, scope: u32, name: &Text, token: u32) -> Option<u32>
        ensures { result ≡ means.own self.now scope name.now token }
    {
        let number = self.index.names.number(name);
        own(&self.table, &self.index, scope, name, number, token)
    }

    /// What a package that is named at a token declares under a name.
    pub fn in_package(&self, source: &Text, source_at: u32, name: &Text, token: u32) -> Option<u32>
        ensures { result ≡ means.in_package self.now source.now source_at name.now token }
    {
        let number = self.index.names.number(name);
        in_package(
            &self.table,
            &self.index,
            source,
            source_at,
            name,
            number,
            token,
        )
    }

    /// The text of a token.
    pub fn word<'a>(&'a self, tokens: &'a [Token], token: u32) -> &'a Text
        ensures { result.now ≡ tables.word tokens.now token }
    {
        match at(tokens, token as usize) {
            Some(token) => &token.text,
            None => &self.nothing,
        }
    }

    /// What a use finds.
    pub fn finds(&self, tokens: &[Token], found_by: Use) -> Found
        ensures { result ≡ rules.finds tokens.now self.now found_by }
    {
        let name = self.word(tokens, found_by.at);
        match found_by.source {
            None => self.lookup(found_by.scope, name, found_by.at),
            Some(holder) => {
                let source = self.word(tokens, holder);
                found(self.in_package(source, holder, name, found_by.at))
            }
        }
    }
}
