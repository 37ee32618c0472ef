//! The table of a text, from what happens to names in it.

ghost use Rattle.std.specs.Prelude.{◌≡◌, [], ◌∷◌, IfOk, OnOk};
ghost use Rattle.package_scope.specs.Tables as means;

use crate::table::{
    DeclKind, Declaration, Head, Link, LoopRun, NamedImport, Rest, Scope, Table, Use,
    WildcardImport,
};
use name_events::{Declared, Event, Role, ScopeKind, SelectPath, events_of};
use std::alloc::{AllocError, Global};
use sv_source::{Items, Text, Token, at};
use sv_tree::SourceTree;

/// The text of a token.
pub fn word(alloc: Global, tokens: &[Token], index: u32) -> Result<Text, AllocError>
    ensures { IfOk result (λ w. w ≡ means.word tokens.now index) }
{
    match at(tokens, index as usize) {
        Some(token) => token.text.copy(alloc),
        None => Ok(Text::new(alloc)),
    }
}

/// What a declared name is, in short.
fn kind_of(what: Declared) -> DeclKind
    ensures { result ≡ means.kind_of what }
{
    match what {
        Declared::Package => DeclKind::Package,
        Declared::Module => DeclKind::Module,
        Declared::Interface => DeclKind::Interface,
        Declared::Parameter => DeclKind::Constant,
        Declared::TypeParameter => DeclKind::TypeName,
        Declared::TypeName(_) => DeclKind::TypeName,
        Declared::EnumName => DeclKind::EnumName,
        Declared::Net => DeclKind::Signal,
        Declared::Variable => DeclKind::Signal,
        Declared::InterfacePort => DeclKind::Signal,
        Declared::NamedPort { .. } => DeclKind::Signal,
        Declared::Genvar => DeclKind::Genvar,
        Declared::Function => DeclKind::Function,
        Declared::VoidFunction => DeclKind::Function,
        Declared::Task => DeclKind::Function,
        Declared::Instance { .. } => DeclKind::Instance,
        Declared::Block => DeclKind::Block,
        Declared::Alternative { .. } => DeclKind::Block,
        Declared::Modport => DeclKind::Modport,
        Declared::Formal => DeclKind::Formal,
        Declared::Local => DeclKind::Local,
        Declared::LoopVariable => DeclKind::Local,
    }
}

/// The scope around one.
pub fn outer(scopes: &[Scope], scope: u32) -> u32
    ensures { result ≡ means.outer scopes.now scope }
{
    match at(scopes, scope as usize) {
        Some(scope) => scope.outer,
        None => 0,
    }
}

/// A length as a number of an item, as long as it is one. No list has so many items that it isn't.
pub fn number(length: usize) -> Result<u32, AllocError>
    ensures { IfOk result (λ n. n ≡ length) }
{
    match u32::try_from(length) {
        Ok(number) => Ok(number),
        Err(_) => Err(AllocError),
    }
}

/// A scope begins.
fn opened(kind: ScopeKind, first: u32, last: u32, table: &mut Table) -> Result<(), AllocError>
    ensures { OnOk result (table.new ≡ means.opened kind first last table.old) }
{
    let inner = number(table.scopes.len())?;
    table.scopes.push(Scope {
        kind,
        first,
        last,
        outer: table.current,
    })?;
    table.current = inner;
    Ok(())
}

/// The innermost open scope ends.
fn closed(table: &mut Table)
    ensures { table.new ≡ means.closed table.old }
{
    table.current = outer(table.scopes.as_slice(), table.current);
}

/// The scope that a name belongs to which is declared where a scope is open.
fn holder(outside: bool, table: &Table) -> u32
    ensures { result ≡ means.holder outside table.now }
{
    if outside {
        outer(table.scopes.as_slice(), table.current)
    } else {
        table.current
    }
}

/// A name is declared.
fn declared(
    alloc: Global,
    tokens: &[Token],
    what: Declared,
    name: u32,
    last: u32,
    outside: bool,
    table: &mut Table,
) -> Result<(), AllocError>
    ensures { OnOk result (table.new ≡ means.declared tokens.now what name last outside table.old) }
{
    let scope = holder(outside, table);
    let inner = table.current;
    table.declared.push(Declaration {
        name: word(alloc, tokens, name)?,
        at: name,
        scope,
        what: kind_of(what),
        how: what,
        last,
        inner,
    })
}

/// A name is imported.
fn imported(
    alloc: Global,
    tokens: &[Token],
    source: u32,
    name: u32,
    table: &mut Table,
) -> Result<(), AllocError>
    ensures { OnOk result (table.new ≡ means.imported tokens.now source name table.old) }
{
    let scope = table.current;
    table.named.push(NamedImport {
        scope,
        source: word(alloc, tokens, source)?,
        source_at: source,
        name: word(alloc, tokens, name)?,
        at: name,
    })
}

/// All names of a package are imported.
fn all_imported(
    alloc: Global,
    tokens: &[Token],
    source: u32,
    star: u32,
    table: &mut Table,
) -> Result<(), AllocError>
    ensures { OnOk result (table.new ≡ means.all_imported tokens.now source star table.old) }
{
    let scope = table.current;
    table.wildcards.push(WildcardImport {
        scope,
        source: word(alloc, tokens, source)?,
        source_at: source,
        at: star,
    })
}

/// A name is used.
fn used(
    source: Option<u32>,
    name: u32,
    role: Role,
    path: SelectPath,
    table: &mut Table,
) -> Result<(), AllocError>
    ensures { OnOk result (table.new ≡ means.used source name role path table.old) }
{
    let scope = table.current;
    table.uses.push(Use {
        scope,
        source,
        at: name,
        role,
        path,
    })
}

/// A generate loop runs over a name.
fn run_over(name: u32, last: u32, table: &mut Table) -> Result<(), AllocError>
    ensures { OnOk result (table.new ≡ means.run_over name last table.old) }
{
    let scope = table.current;
    table.loops.push(LoopRun { scope, name, last })
}

/// A header ends.
fn headed(table: &mut Table) -> Result<(), AllocError>
    ensures { OnOk result (table.new ≡ means.headed table.old) }
{
    let scope = table.current;
    let declared = number(table.declared.len())?;
    table.heads.push(Head { scope, declared })
}

/// The number of the last declaration.
fn last_declared(table: &Table) -> Result<u32, AllocError>
    ensures { IfOk result (λ n. n ≡ means.last_declared table.now) }
{
    number(table.declared.len().saturating_sub(1))
}

/// A port of the last instance is connected by its name.
fn linked(alloc: Global, tokens: &[Token], port: u32, table: &mut Table) -> Result<(), AllocError>
    ensures { OnOk result (table.new ≡ means.linked tokens.now port table.old) }
{
    let instance = last_declared(table)?;
    table.links.push(Link {
        instance,
        name: word(alloc, tokens, port)?,
    })
}

/// The further ports of the last instance are connected.
fn rest_linked(mark: u32, table: &mut Table) -> Result<(), AllocError>
    ensures { OnOk result (table.new ≡ means.rest_linked mark table.old) }
{
    let instance = last_declared(table)?;
    table.rests.push(Rest { instance, at: mark })
}

/// What one event does.
fn step(alloc: Global, tokens: &[Token], event: Event, table: &mut Table) -> Result<(), AllocError>
    ensures { OnOk result (table.new ≡ means.step tokens.now event table.old) }
{
    match event {
        Event::Opens { kind, first, last } => opened(kind, first, last, table),
        Event::Heads => headed(table),
        Event::Closes => {
            closed(table);
            Ok(())
        }
        Event::Declares {
            what,
            name,
            last,
            outside,
        } => declared(alloc, tokens, what, name, last, outside, table),
        Event::ImportsName { package, name } => imported(alloc, tokens, package, name, table),
        Event::ImportsAll { package, star } => all_imported(alloc, tokens, package, star, table),
        Event::Uses {
            package,
            name,
            role,
            path,
        } => used(package, name, role, path, table),
        Event::Runs { name, last } => run_over(name, last, table),
        Event::Repeats { .. } => Ok(()),
        Event::Packs { .. } => Ok(()),
        Event::Undirected { .. } => Ok(()),
        Event::TypeArgument { .. } => Ok(()),
        Event::Connects { port } => linked(alloc, tokens, port, table),
        Event::ConnectsRest { mark } => rest_linked(mark, table),
        Event::Wrong { .. } => Ok(()),
    }
}

/// What events do.
fn steps(
    alloc: Global,
    tokens: &[Token],
    events: &[Event],
    table: &mut Table,
) -> Result<(), AllocError>
    ensures { OnOk result (table.new ≡ means.steps tokens.now events.now table.old) }
{
    for event in events {
        step(alloc, tokens, *event, table)?;
    }
    Ok(())
}

/// The table before the first event: the compilation unit, with its last token.
fn start(alloc: Global, last: u32) -> Result<Table, AllocError>
    ensures { IfOk result (λ t. t ≡ means.start last) }
{
    let mut scopes = Items::new(alloc);
    scopes.push(Scope {
        kind: ScopeKind::Unit,
        first: 0,
        last,
        outer: 0,
    })?;
    Ok(Table {
        current: 0,
        scopes,
        declared: Items::new(alloc),
        named: Items::new(alloc),
        wildcards: Items::new(alloc),
        uses: Items::new(alloc),
        loops: Items::new(alloc),
        heads: Items::new(alloc),
        links: Items::new(alloc),
        rests: Items::new(alloc),
    })
}

/// The table of events of a text with these tokens.
pub fn table_of(
    alloc: Global,
    tokens: &[Token],
    events: &[Event],
    last: u32,
) -> Result<Table, AllocError>
    ensures { IfOk result (λ t. t ≡ means.steps tokens.now events.now (means.start last)) }
{
    let mut table = start(alloc, last)?;
    steps(alloc, tokens, events, &mut table)?;
    Ok(table)
}
