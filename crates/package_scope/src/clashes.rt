//! Names that a scope has twice.

ghost use Rattle.std.specs.Prelude.{◌≡◌, ◌||◌, ℕ, List, None, IfOk, OnOk};
ghost use Rattle.package_scope.specs.Earliest as means;
ghost use Rattle.package_scope.specs.Index.{number_in};
ghost use Rattle.package_scope.specs.Least.{joined, least_over};
ghost use Rattle.package_scope.specs.Rules as rules;

use crate::breaks::{Break, break_if, first};
use crate::names::Names;
use crate::table::{Declaration, NamedImport, Table};
use indexmap::IndexMap;
use name_events::Declared;
use std::alloc::{AllocError, Global};
use sv_source::Text;

/// The things of one name in one scope, as far as they matter to another one.
#[derive(Clone, Copy)]
pub struct Earliest {
    /// The first one's token.
    pub at: u32,
    /// What it shares the name with things of.
    pub share: Option<usize>,
    /// The token of the first one that doesn't share the name with it.
    pub other: Option<u32>,
}

/// What a declaration shares its name with declarations of: a conditional generate, if it is a block of one.
fn construct_of(how: Declared) -> Option<usize>
    ensures { result ≡ means.construct_of how }
{
    match how {
        Declared::Alternative { construct } => Some(construct as usize),
        _ => None,
    }
}

/// Whether two things share a name.
fn shares(one: Option<usize>, other: Option<usize>) -> bool
    ensures { result ≡ means.shares one other }
{
    match (one, other) {
        (Some(one), Some(other)) => one == other,
        _ => false,
    }
}

/// Whether a token stands before another one.
pub fn is_before(one: Option<u32>, token: u32) -> bool
    ensures { result ≡ means.is_before one token }
{
    match one {
        Some(one) => one < token,
        None => false,
    }
}

/// Whether a thing at a token stands behind one of its name that doesn't share it.
fn clash(earliest: Option<Earliest>, token: u32, share: Option<usize>) -> bool
    ensures { result ≡ means.clash earliest token share }
{
    match earliest {
        None => false,
        Some(earliest) => {
            if shares(share, earliest.share) {
                is_before(earliest.other, token)
            } else {
                earliest.at < token
            }
        }
    }
}

/// The first of a token and another one.
pub fn sooner(token: u32, other: Option<u32>) -> u32
    ensures { result ≡ means.sooner token other }
{
    match other {
        None => token,
        Some(other) => { if token < other { token } else { other } }
    }
}

/// The other token, where an earlier thing comes to some.
fn other_behind(share: Option<usize>, earliest: Earliest) -> Option<u32>
    ensures { result ≡ (means.earlier 0 share earliest).other }
{
    if shares(share, earliest.share) {
        earliest.other
    } else {
        Some(earliest.at)
    }
}

/// The other token, where a later thing comes to some.
fn other_before(token: u32, share: Option<usize>, earliest: Earliest) -> Option<u32>
    ensures { result ≡ (means.later token share earliest).other }
{
    if shares(share, earliest.share) {
        earliest.other
    } else {
        Some(sooner(token, earliest.other))
    }
}

/// Some things of a name and one more.
fn with_one(token: u32, share: Option<usize>, earliest: Option<Earliest>) -> Earliest
    ensures { result ≡ means.with_one token share earliest }
{
    match earliest {
        None => Earliest {
            at: token,
            share,
            other: None,
        },
        Some(earliest) => {
            if token < earliest.at {
                Earliest {
                    at: token,
                    share,
                    other: other_behind(share, earliest),
                }
            } else {
                Earliest {
                    at: earliest.at,
                    share: earliest.share,
                    other: other_before(token, share, earliest),
                }
            }
        }
    }
}

/// The things of each name in each scope.
#[derive(Drop)]
pub struct Clashes {
    slots: IndexMap<(u32, usize), Earliest>,
}

impl Clashes {
    /// None. It takes no memory.
    fn new(alloc: Global) -> Clashes
        ensures { means.kept_in result ≡ (λ q. None) }
    {
        Clashes {
            slots: IndexMap::new(alloc),
        }
    }

    /// Those under the number of a name in a scope, whatever was there before.
    fn keep(&mut self, scope: u32, name: usize, earliest: Earliest) -> Result<(), AllocError>
        ensures { OnOk result (means.kept_in self.new ≡ means.keep (means.kept_in self.old) scope name earliest) }
    {
        self.slots.insert((scope, name), earliest)?;
        Ok(())
    }

    /// Those under the number of a name in a scope.
    fn find(&self, scope: u32, name: Option<usize>) -> Option<Earliest>
        ensures { result ≡ means.kept_number (means.kept_in self.now) scope name }
    {
        match name {
            None => None,
            Some(name) => self.slots.get(&(scope, name)).copied(),
        }
    }

    /// Adds a thing at a token under a name that has a number.
    fn add(
        &mut self,
        names: &Names,
        scope: u32,
        name: &Text,
        token: u32,
        share: Option<usize>,
    ) -> Result<(), AllocError>
        ensures { OnOk result (means.Adds names.now self.old self.new scope name.now token share) }
    {
        let Some(number) = names.number(name) else {
            return Err(AllocError);
        };
        let earliest = with_one(token, share, self.find(scope, Some(number)));
        self.keep(scope, number, earliest)?;
        Ok(())
    }

    /// Whether a thing at a token stands behind one of its name in its scope that doesn't share it.
    fn has_earlier(
        &self,
        names: &Names,
        scope: u32,
        name: &Text,
        token: u32,
        share: Option<usize>,
    ) -> bool
        ensures { result ≡ means.clash (means.kept_under names.now self.now scope name.now) token share }
    {
        clash(self.find(scope, names.number(name)), token, share)
    }
}

/// The names of declarations and imports, and those of the packages of imports.
fn names_of(alloc: Global, table: &Table) -> Result<Names, AllocError> {
    let mut names = Names::new(alloc);
    for declaration in table.declared.as_slice() {
        names.add(alloc, &declaration.name)?;
    }
    for import in table.named.as_slice() {
        names.add(alloc, &import.name)?;
        names.add(alloc, &import.source)?;
    }
    Ok(names)
}

/// Declarations by name and scope.
fn declared_of(alloc: Global, names: &Names, list: &[Declaration]) -> Result<Clashes, AllocError>
    ensures { IfOk result (λ x. (s : ℕ) (q : List ℕ) → means.kept_under names.now x s q ≡ means.earliest_from means.of_declaration s q list.now) }
{
    let mut clashes = Clashes::new(alloc);
    let mut at = list.len();
    while at > 0 {
        at -= 1;
        let last = &list[at];
        let share = construct_of(last.how);
        clashes.add(names, last.scope, &last.name, last.at, share)?;
    }
    Ok(clashes)
}

/// Imports of a name by name and scope.
fn imported_of(alloc: Global, names: &Names, list: &[NamedImport]) -> Result<Clashes, AllocError>
    ensures { IfOk result (λ x. (s : ℕ) (q : List ℕ) → means.kept_under names.now x s q ≡ means.earliest_from (means.of_import names.now) s q list.now) }
{
    let mut clashes = Clashes::new(alloc);
    let mut at = list.len();
    while at > 0 {
        at -= 1;
        let last = &list[at];
        let share = names.number(&last.source);
        clashes.add(names, last.scope, &last.name, last.at, share)?;
    }
    Ok(clashes)
}

/// The declarations and imports of a text by name and scope.
#[derive(Drop)]
pub struct Taken {
    names: Names,
    declared: Clashes,
    imported: Clashes,
}

/// The declarations and imports of a table by name and scope.
pub fn taken_of(alloc: Global, table: &Table) -> Result<Taken, AllocError>
    ensures { IfOk result (λ x. means.AreTaken table.now x) }
{
    let names = names_of(alloc, table)?;
    let declared = declared_of(alloc, &names, table.declared.as_slice())?;
    let imported = imported_of(alloc, &names, table.named.as_slice())?;
    Ok(Taken {
        names,
        declared,
        imported,
    })
}

/// Whether a name stands behind another one of its scope, by what declarations and imports share with it.
fn is_taken(
    taken: &Taken,
    scope: u32,
    name: &Text,
    token: u32,
    declared: Option<usize>,
    imported: Option<usize>,
) -> bool
    ensures { result ≡ (means.clash (means.kept_under taken.now.names taken.now.declared scope name.now) token declared || means.clash (means.kept_under taken.now.names taken.now.imported scope name.now) token imported) }
{
    taken
        .declared
        .has_earlier(&taken.names, scope, name, token, declared)
        || taken
            .imported
            .has_earlier(&taken.names, scope, name, token, imported)
}

/// The break of a declaration.
fn declaration_break(taken: &Taken, table: &Table, declaration: &Declaration) -> Option<Break>
    requires { means.AreTaken table.now taken.now }
    ensures { result ≡ rules.least (rules.declaration_breaks table.now declaration.now) }
{
    let at = declaration.at;
    let share = construct_of(declaration.how);
    let broken = is_taken(taken, declaration.scope, &declaration.name, at, share, None);
    break_if(broken, 402, at)
}

/// The break of an import of a name that the scope has already.
fn repeated_break(
    taken: &Taken,
    table: &Table,
    import: &NamedImport,
) -> Result<Option<Break>, AllocError>
    requires { means.AreTaken table.now taken.now }
    ensures { IfOk result (λ b. b ≡ rules.least (rules.repeated_import_breaks table.now import.now)) }
{
    let Some(source) = taken.names.number(&import.source) else {
        return Err(AllocError);
    };
    let at = import.at;
    let broken = is_taken(taken, import.scope, &import.name, at, None, Some(source));
    Ok(break_if(broken, 402, at))
}

/// The least break of a declaration.
fn declarations_break(taken: &Taken, table: &Table) -> Option<Break>
    requires { means.AreTaken table.now taken.now }
    ensures { result ≡ least_over (rules.declaration_breaks table.now) None table.now.declared }
{
    let list = table.declared.as_slice();
    let mut least = None;
    for declaration in list {
        least = first(least, declaration_break(taken, table, declaration));
    }
    least
}

/// The least break of an import of a name that a scope has already.
fn repeated_imports_break(taken: &Taken, table: &Table) -> Result<Option<Break>, AllocError>
    requires { means.AreTaken table.now taken.now }
    ensures { IfOk result (λ b. b ≡ least_over (rules.repeated_import_breaks table.now) None table.now.named) }
{
    let list = table.named.as_slice();
    let mut least = None;
    for import in list {
        least = first(least, repeated_break(taken, table, import)?);
    }
    Ok(least)
}

/// The least break by a name that a scope has twice.
pub fn clashes_break(alloc: Global, table: &Table) -> Result<Option<Break>, AllocError>
    ensures { IfOk result (λ b. b ≡ joined (least_over (rules.declaration_breaks table.now) None table.now.declared) (least_over (rules.repeated_import_breaks table.now) None table.now.named)) }
{
    let taken = taken_of(alloc, table)?;
    Ok(first(
        declarations_break(&taken, table),
        repeated_imports_break(&taken, table)?,
    ))
}
