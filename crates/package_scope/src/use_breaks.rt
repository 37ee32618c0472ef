//! Breaks of uses and imports of names.

ghost use Rattle.std.specs.Prelude.{◌≡◌, Some, None, is_some};
ghost use Rattle.package_scope.specs.Least.{package_least, least_over};
ghost use Rattle.package_scope.specs.Lookup as meaning;
ghost use Rattle.package_scope.specs.Finding.{Kept};
ghost use Rattle.package_scope.specs.Rules as means;

use crate::breaks::{Break, break_if, first};
use crate::meaning::package_found;
use crate::named_text::NamedText;
use crate::table::{Declaration, Found, NamedImport, Table, Use, WildcardImport};
use name_events::Role;

/// Whether the declaration with this number is that of a package.
fn is_package(table: &Table, number: u32) -> bool
    ensures { result ≡ is_some (meaning.package_found table.now (Some number)) }
{
    package_found(table, Some(number)).is_some()
}

/// Whether a use is a pattern's key that is a name alone.
fn is_key(role: Role) -> bool
    ensures { result ≡ means.is_key role }
{
    match role {
        Role::Key => true,
        _ => false,
    }
}

impl<'t> NamedText<'t> {
    /// The break of a use by the declaration that it finds.
    #[tactic(auto, using(crate::proofs::Orders::joining))]
    fn misfit(&self, found_by: Use, declaration: &Declaration) -> Option<Break>
        requires kept { Kept self.now.tokens.now self.now.names.now self.now.found.now self.now.loops.now }
        ensures { result ≡ means.least (means.fit_breaks self.now.tokens.now self.now.names.now found_by declaration.now) }
    {
        let fits = self.fits_role(found_by, declaration);
        let names_signal = self.names_signal(found_by, declaration);
        first(
            break_if(!fits, 404, found_by.at),
            break_if(names_signal, 610, found_by.at),
        )
    }

    /// The break of a use by what it finds.
    pub(crate) fn found_break(&self, found_by: Use, found: Found) -> Option<Break>
        requires kept { Kept self.now.tokens.now self.now.names.now self.now.found.now self.now.loops.now }
        ensures { result ≡ means.least (means.found_breaks self.now.tokens.now self.now.names.now found_by found) }
    {
        let at = found_by.at;
        match found {
            Found::Absent => Some(Break { at, rule: 401 }),
            Found::Twice => Some(Break { at, rule: 403 }),
            Found::Decl(number) => match self.numbered(number) {
                Some(declaration) => self.misfit(found_by, declaration),
                None => None,
            },
        }
    }

    /// The break of a package's name, or what stands behind it.
    fn package_break(&self, holder: u32, behind: Option<Break>) -> Option<Break>
        ensures { result ≡ package_least self.now.tokens.now self.now.names.now holder behind }
    {
        match self.names().own(0, self.word(holder), holder) {
            None => Some(Break {
                at: holder,
                rule: 401,
            }),
            Some(number) => {
                if is_package(self.table(), number) {
                    behind
                } else {
                    Some(Break {
                        at: holder,
                        rule: 404,
                    })
                }
            }
        }
    }

    /// The break of a use that isn't a key.
    #[tactic(auto, using(crate::proofs::Orders::packaging))]
    fn sought_break(&self, found_by: Use) -> Option<Break>
        requires kept { Kept self.now.tokens.now self.now.names.now self.now.found.now self.now.loops.now }
        ensures { result ≡ means.least (means.use_breaks_in self.now.tokens.now self.now.names.now found_by found_by.source) }
    {
        let found = self.found_break(found_by, self.finds(found_by));
        match found_by.source {
            None => found,
            Some(holder) => self.package_break(holder, found),
        }
    }

    /// The break of a use.
    fn use_break(&self, found_by: Use) -> Option<Break>
        requires kept { Kept self.now.tokens.now self.now.names.now self.now.found.now self.now.loops.now }
        ensures { result ≡ means.least (means.use_breaks self.now.tokens.now self.now.names.now found_by) }
    {
        if is_key(found_by.role) {
            None
        } else {
            self.sought_break(found_by)
        }
    }

    /// The break of an import of a name.
    #[tactic(auto, using(crate::proofs::Orders::packaging))]
    fn import_break(&self, import: &NamedImport) -> Option<Break>
        ensures { result ≡ means.least (means.import_breaks self.now.tokens.now self.now.names.now import.now) }
    {
        let brought = self
            .names()
            .in_package(&import.source, import.source_at, &import.name, import.at);
        let absent = break_if(brought.is_none(), 401, import.at);
        self.package_break(import.source_at, absent)
    }

    /// The break of an import of all names.
    #[tactic(auto, using(crate::proofs::Orders::packaging))]
    fn wildcard_break(&self, import: &WildcardImport) -> Option<Break>
        ensures { result ≡ means.least (means.wildcard_breaks self.now.tokens.now self.now.names.now import.now) }
    {
        self.package_break(import.source_at, None)
    }

    /// The least break of a use.
    pub(crate) fn uses_break(&self) -> Option<Break>
        requires kept { Kept self.now.tokens.now self.now.names.now self.now.found.now self.now.loops.now }
        ensures { result ≡ least_over (means.use_breaks self.now.tokens.now self.now.names.now) None self.now.names.now.uses }
    {
        let uses = self.table().uses.as_slice();
        let mut least = None;
        for found_by in uses {
            least = first(least, self.use_break(*found_by));
        }
        least
    }

    /// The least break of an import of a name.
    pub(crate) fn imports_break(&self) -> Option<Break>
        ensures { result ≡ least_over (means.import_breaks self.now.tokens.now self.now.names.now) None self.now.names.now.named }
    {
        let imports = self.table().named.as_slice();
        let mut least = None;
        for import in imports {
            least = first(least, self.import_break(import));
        }
        least
    }

    /// The least break of an import of all names.
    pub(crate) fn wildcards_break(&self) -> Option<Break>
        ensures { result ≡ least_over (means.wildcard_breaks self.now.tokens.now self.now.names.now) None self.now.names.now.wildcards }
    {
        let imports = self.table().wildcards.as_slice();
        let mut least = None;
        for import in imports {
            least = first(least, self.wildcard_break(import));
        }
        least
    }
}
