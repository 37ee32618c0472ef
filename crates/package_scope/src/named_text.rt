//! The tokens of a text with its scopes.

ghost use Rattle.std.specs.Prelude.{◌≡◌, slice_get, filter};
ghost use Rattle.std.specs.Option.{option_copied};
ghost use Rattle.package_scope.specs.Finding.{is_loop_of, Kept};
ghost use Rattle.package_scope.specs.Rules as rules;
ghost use Rattle.package_scope.specs.Tables as tables;

use crate::found_uses::FoundUses;
use crate::loops::Loops;
use crate::name_table::NameTable;
use crate::table::{Declaration, Found, LoopRun, Table, Use};
use sv_source::{Text, Token};

/// The tokens of a text with its scopes, and with what its names stand for.
#[derive(Clone, Copy)]
pub struct NamedText<'t> {
    /// The tokens.
    pub tokens: &'t [Token],
    /// The table.
    pub names: &'t NameTable,
    /// What the use at each token finds.
    pub found: &'t FoundUses,
    /// The loops of each scope.
    pub loops: &'t Loops,
}

impl<'t> NamedText<'t> {
    /// The tokens.
    pub(crate) fn tokens(&self) -> &[Token]
        ensures { result.now ≡ self.now.tokens.now }
    {
        self.tokens
    }

    /// The table.
    pub(crate) fn table(&self) -> &Table
        ensures { result.now ≡ self.now.names.now }
    {
        self.names.table()
    }

    /// The names.
    pub(crate) fn names(&self) -> &NameTable
        ensures { result.now ≡ self.now.names.now }
    {
        self.names
    }

    /// The declaration with this number, if there is one.
    pub(crate) fn numbered(&self, number: u32) -> Option<&Declaration>
        ensures { option_copied result ≡ slice_get self.now.names.now.declared number }
    {
        self.names.declaration(number)
    }

    /// The text of a token.
    pub(crate) fn word(&self, token: u32) -> &Text
        ensures { result.now ≡ tables.word self.now.tokens.now token }
    {
        self.names.word(self.tokens, token)
    }

    /// What a use finds.
    pub(crate) fn finds(&self, found_by: Use) -> Found
        ensures { result ≡ rules.finds self.now.tokens.now self.now.names.now found_by }
    {
        self.names.finds(self.tokens, found_by)
    }

    /// The declaration that the use at a token finds.
    #[tactic(auto, using(crate::proofs::Kept::finding))]
    pub(crate) fn declaration_at(&self, token: u32) -> Option<&Declaration>
        requires kept { Kept self.now.tokens.now self.now.names.now self.now.found.now self.now.loops.now }
        ensures { option_copied result ≡ rules.declaration_at self.now.tokens.now self.now.names.now token }
    {
        match self.found.at(token) {
            Some(Found::Decl(number)) => self.names.declaration(number),
            _ => None,
        }
    }

    /// The number of the declaration that the use at a token finds.
    #[tactic(auto, using(crate::proofs::Kept::numbering))]
    pub(crate) fn number_at(&self, token: u32) -> Option<u32>
        requires kept { Kept self.now.tokens.now self.now.names.now self.now.found.now self.now.loops.now }
        ensures { result ≡ rules.number_at self.now.tokens.now self.now.names.now (rules.use_at token self.now.names.now.uses) }
    {
        match self.found.at(token) {
            Some(Found::Decl(number)) => Some(number),
            _ => None,
        }
    }

    /// What the generate loops of a scope run over.
    pub(crate) fn loops_in(&self, scope: u32) -> &[LoopRun]
        requires kept { Kept self.now.tokens.now self.now.names.now self.now.found.now self.now.loops.now }
        ensures { result.now ≡ filter (is_loop_of scope) self.now.names.now.loops }
    {
        self.loops.of(scope)
    }
}
