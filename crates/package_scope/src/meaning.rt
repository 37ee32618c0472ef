//! What a name stands for.

ghost use Rattle.std.specs.Prelude.{◌≡◌, length, filter, slice_get};
ghost use Rattle.package_scope.specs.Index.{Indexed, number_in, slots_in, under_number};
ghost use Rattle.package_scope.specs.Lookup as means;
ghost use Rattle.package_scope.specs.Packages as packages;
ghost use Rattle.package_scope.specs.Packages.{ArePackages, held, all_held};

use crate::building::outer;
use crate::clashes::is_before;
use crate::index::Index;
use crate::names::Slots;
use crate::table::{
    DeclKind, Declaration, Found, NamedImport, Table, WildcardImport, is_everywhere,
};
use sv_source::{Text, at};

/// What a scope has under a number.
fn under(slots: &Slots, scope: u32, number: Option<usize>) -> Option<u32>
    ensures { result ≡ under_number (slots_in slots.now) scope number }
{
    match number {
        None => None,
        Some(number) => slots.find(scope, number),
    }
}

/// Whether a declaration is visible at a token.
fn is_visible(token: u32, declaration: &Declaration) -> bool
    ensures { result ≡ means.is_visible token declaration.now }
{
    is_everywhere(declaration.what) || declaration.last < token
}

/// Whether the declaration with this number is visible at a token.
fn visible_in(table: &Table, declaration: u32, token: u32) -> bool
    ensures { result ≡ means.visible_in (slice_get table.now.declared declaration) token }
{
    match at(table.declared.as_slice(), declaration as usize) {
        None => false,
        Some(declaration) => is_visible(token, declaration),
    }
}

/// The first declaration, or where that isn't visible yet the one that is visible everywhere.
fn or_everywhere(
    table: &Table,
    token: u32,
    first: Option<u32>,
    everywhere: Option<u32>,
) -> Option<u32>
    ensures { result ≡ means.or_everywhere table.now token first everywhere }
{
    match first {
        None => everywhere,
        Some(first) => {
            if visible_in(table, first, token) {
                Some(first)
            } else {
                everywhere
            }
        }
    }
}

/// The declaration of a name in a scope that is visible at a token.
pub fn own(
    table: &Table,
    index: &Index,
    scope: u32,
    name: &Text,
    number: Option<usize>,
    token: u32,
) -> Option<u32>
    requires indexed { Indexed table.now index.now }
    requires known { number ≡ number_in index.now.names name.now }
    ensures { result ≡ means.own table.now scope name.now token }
{
    let first = under(&index.first, scope, number);
    let everywhere = under(&index.everywhere, scope, number);
    or_everywhere(table, token, first, everywhere)
}

/// The scope of a declaration, if it is a package.
fn scope_if_package(what: DeclKind, inner: u32) -> Option<u32>
    ensures { result ≡ means.scope_if_package what inner }
{
    match what {
        DeclKind::Package => Some(inner),
        _ => None,
    }
}

/// The scope of the package with this number of a declaration.
pub fn package_found(table: &Table, declaration: Option<u32>) -> Option<u32>
    ensures { result ≡ means.package_found table.now declaration }
{
    match declaration {
        None => None,
        Some(declaration) => match at(table.declared.as_slice(), declaration as usize) {
            None => None,
            Some(declaration) => scope_if_package(declaration.what, declaration.inner),
        },
    }
}

/// The scope of a package that is named at a token.
pub fn package_scope(table: &Table, index: &Index, source: &Text, token: u32) -> Option<u32>
    requires indexed { Indexed table.now index.now }
    ensures { result ≡ means.package_scope table.now source.now token }
{
    let number = index.names.number(source);
    package_found(table, own(table, index, 0, source, number, token))
}

/// What a package that is named at a token declares.
pub fn in_package(
    table: &Table,
    index: &Index,
    source: &Text,
    source_at: u32,
    name: &Text,
    number: Option<usize>,
    token: u32,
) -> Option<u32>
    requires indexed { Indexed table.now index.now }
    requires known { number ≡ number_in index.now.names name.now }
    ensures { result ≡ means.in_package table.now source.now source_at name.now token }
{
    match package_scope(table, index, source, source_at) {
        None => None,
        Some(scope) => own(table, index, scope, name, number, token),
    }
}

/// What an import of a name brings, behind it.
fn imported_by(table: &Table, index: &Index, import: &NamedImport, token: u32) -> Option<u32>
    requires indexed { Indexed table.now index.now }
    ensures { result ≡ means.imported_by table.now token (Some import.now) }
{
    if import.at < token {
        let number = index.names.number(&import.name);
        in_package(
            table,
            index,
            &import.source,
            import.source_at,
            &import.name,
            number,
            import.at,
        )
    } else {
        None
    }
}

/// What an import of a name in a scope brings.
fn by_import(
    table: &Table,
    index: &Index,
    scope: u32,
    name: &Text,
    number: Option<usize>,
    token: u32,
) -> Option<u32>
    requires indexed { Indexed table.now index.now }
    requires known { number ≡ number_in index.now.names name.now }
    ensures { result ≡ means.by_import table.now scope name.now token }
{
    match under(&index.imports, scope, number) {
        None => None,
        Some(import) => match at(table.named.as_slice(), import as usize) {
            None => None,
            Some(import) => imported_by(table, index, import, token),
        },
    }
}

/// What two imports of all names bring together.
fn both(one: Found, other: Found) -> Found
    ensures { result ≡ means.both one other }
{
    match one {
        Found::Absent => other,
        Found::Twice => Found::Twice,
        Found::Decl(n) => match other {
            Found::Absent => Found::Decl(n),
            Found::Twice => Found::Twice,
            Found::Decl(m) => { if n == m { Found::Decl(n) } else { Found::Twice } }
        },
    }
}

/// Whether two declarations were found.
fn is_twice(found: Found) -> bool
    ensures { result ≡ packages.is_twice found }
{
    match found {
        Found::Twice => true,
        _ => false,
    }
}

/// A declaration as what is found, if there is one.
pub fn found(declaration: Option<u32>) -> Found
    ensures { result ≡ means.found declaration }
{
    match declaration {
        None => Found::Absent,
        Some(declaration) => Found::Decl(declaration),
    }
}

/// What an import of all names brings, behind it.
fn brings(
    table: &Table,
    index: &Index,
    name: &Text,
    number: Option<usize>,
    token: u32,
    import: &WildcardImport,
) -> Found
    requires indexed { Indexed table.now index.now }
    requires known { number ≡ number_in index.now.names name.now }
    ensures { result ≡ means.brings table.now name.now token import.now }
{
    if import.at < token {
        found(in_package(
            table,
            index,
            &import.source,
            import.source_at,
            name,
            number,
            token,
        ))
    } else {
        Found::Absent
    }
}

/// What imports of all names bring together.
fn all_bring(
    table: &Table,
    index: &Index,
    name: &Text,
    number: Option<usize>,
    token: u32,
    list: &[WildcardImport],
) -> Found
    requires indexed { Indexed table.now index.now }
    requires known { number ≡ number_in index.now.names name.now }
    ensures { result ≡ means.all_bring table.now name.now token list.now }
{
    let mut together = Found::Absent;
    for import in list {
        together = both(together, brings(table, index, name, number, token, import));
        if is_twice(together) {
            return Found::Twice;
        }
    }
    together
}

/// What a scope brings that declares a name, if it is that of a package all whose names are imported before a token.
fn held_by(
    table: &Table,
    index: &Index,
    scope: u32,
    name: &Text,
    number: Option<usize>,
    token: u32,
    holder: u32,
) -> Found
    requires indexed { Indexed table.now index.now }
    requires packaged { ArePackages table.now index.now.names index.now.packages }
    requires known { number ≡ number_in index.now.names name.now }
    ensures { result ≡ held table.now scope name.now token holder }
{
    if is_before(index.packages.starts.find(scope, holder as usize), token) {
        found(own(table, index, holder, name, number, token))
    } else {
        Found::Absent
    }
}

/// What scopes that declare a name bring together.
fn all_hold(
    table: &Table,
    index: &Index,
    scope: u32,
    name: &Text,
    number: Option<usize>,
    token: u32,
    holders: &[u32],
) -> Found
    requires indexed { Indexed table.now index.now }
    requires packaged { ArePackages table.now index.now.names index.now.packages }
    requires known { number ≡ number_in index.now.names name.now }
    ensures { result ≡ all_held table.now scope name.now token holders.now }
{
    let mut together = Found::Absent;
    for holder in holders {
        together = both(
            together,
            held_by(table, index, scope, name, number, token, *holder),
        );
        if is_twice(together) {
            return Found::Twice;
        }
    }
    together
}

/// What the imports of all names in a scope bring together: import by import, or package by package where fewer scopes declare
/// the name.
fn by_wildcards(
    table: &Table,
    index: &Index,
    scope: u32,
    name: &Text,
    number: Option<usize>,
    token: u32,
) -> Found
    requires indexed { Indexed table.now index.now }
    requires packaged { ArePackages table.now index.now.names index.now.packages }
    requires known { number ≡ number_in index.now.names name.now }
    ensures { result ≡ means.by_wildcards table.now scope name.now token }
{
    let imports = index.wildcards.of(scope);
    let holders = index.packages.holders.under(number);
    if imports.len() <= holders.len() {
        all_bring(table, index, name, number, token, imports)
    } else {
        all_hold(table, index, scope, name, number, token, holders)
    }
}

/// What a name stands for by one scope alone.
fn in_scope(
    table: &Table,
    index: &Index,
    scope: u32,
    name: &Text,
    number: Option<usize>,
    token: u32,
) -> Found
    requires indexed { Indexed table.now index.now }
    requires packaged { ArePackages table.now index.now.names index.now.packages }
    requires known { number ≡ number_in index.now.names name.now }
    ensures { result ≡ means.in_scope table.now scope name.now token }
{
    match own(table, index, scope, name, number, token) {
        Some(declaration) => Found::Decl(declaration),
        None => match by_import(table, index, scope, name, number, token) {
            Some(declaration) => Found::Decl(declaration),
            None => by_wildcards(table, index, scope, name, number, token),
        },
    }
}

/// What a name stands for at a token of a scope.
pub fn means(table: &Table, index: &Index, scope: u32, name: &Text, token: u32) -> Found
    requires indexed { Indexed table.now index.now }
    requires packaged { ArePackages table.now index.now.names index.now.packages }
    ensures { result ≡ means.means table.now scope name.now token }
{
    let number = index.names.number(name);
    let mut scope = scope;
    let mut left = table.scopes.len();
    while left > 0 {
        left -= 1;
        match in_scope(table, index, scope, name, number, token) {
            Found::Absent => {}
            found => return found,
        }
        if scope == 0 {
            return Found::Absent;
        }
        scope = outer(table.scopes.as_slice(), scope);
    }
    Found::Absent
}
