//! A source text with its scopes.

ghost use Rattle.std.specs.Prelude.{◌≡◌, slice_get};
ghost use Rattle.std.specs.Option.{option_copied};
ghost use Rattle.package_scope.specs.Innermost.{scope_at};

use crate::name_table::NameTable;
use crate::table::Declaration;
use sv_tree::SourceTree;

/// A source text with its scopes, and with what its names stand for.
#[derive(Drop)]
pub struct Scopes<'t> {
    tree: &'t SourceTree,
    names: NameTable,
}

impl<'t> Scopes<'t> {
    /// A tree with the names of its tokens.
    pub(crate) fn of_names(tree: &'t SourceTree, names: NameTable) -> Scopes<'t>
        ensures tree { result.tree.now ≡ tree.now }
        ensures names { result.names ≡ names }
    {
        Scopes { tree, names }
    }

    /// Its names.
    pub fn table(&self) -> &NameTable
        ensures { result.now ≡ self.now.names }
    {
        &self.names
    }

    /// The tree.
    pub fn tree(&self) -> &SourceTree
        ensures { result.now ≡ self.now.tree.now }
    {
        self.tree
    }

    /// The declaration with this number, if there is one.
    pub fn declaration(&self, number: u32) -> Option<&Declaration>
        ensures { option_copied result ≡ slice_get self.now.names.declared number }
    {
        self.names.declaration(number)
    }

    /// The innermost scope that holds a token, by its number (IEEE 1800-2017 clause 23.9). It takes no memory, and time by the
    /// number of scopes.
    pub fn scope_at(&self, token: u32) -> u32
        ensures { result ≡ scope_at self.now.names token }
    {
        self.names.scope_at(token)
    }
}
