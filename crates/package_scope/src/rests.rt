//! The ports that `.*` connects.

ghost use Rattle.std.specs.Prelude.{◌≡◌, ℕ, suc, List, Some, None, is_some, take, drop, IfOk, OnOk};
ghost use Rattle.package_scope.specs.Finding.{Kept};
ghost use Rattle.package_scope.specs.Index.{under};
ghost use Rattle.package_scope.specs.Least.{least_over};
ghost use Rattle.package_scope.specs.Rests as left;
ghost use Rattle.package_scope.specs.Rules as means;

use crate::breaks::{Break, first};
use crate::fitting::is_instantiated;
use crate::index::put;
use crate::named_text::NamedText;
use crate::names::{Names, Slots};
use crate::table::{DeclKind, Declaration, Head, Link, Rest, Table, Use};
use indexmap::IndexMap;
use name_events::{Declared, Role, SelectPath};
use std::alloc::{AllocError, Global};
use sv_source::Text;

/// The ends of headers, by their scopes.
#[derive(Drop)]
pub struct Heads {
    ends: IndexMap<u32, u32>,
}

impl Heads {
    /// None. It takes no memory.
    fn new(alloc: Global) -> Heads
        ensures { left.end_in result ≡ (λ q. None) }
    {
        Heads {
            ends: IndexMap::new(alloc),
        }
    }

    /// The end of the header of a scope, whatever was there before.
    fn put(&mut self, scope: u32, declared: u32) -> Result<(), AllocError>
        ensures { OnOk result (left.end_in self.new ≡ left.put_end (left.end_in self.old) scope declared) }
    {
        self.ends.insert(scope, declared)?;
        Ok(())
    }

    /// How many declarations stand before the end of the header of a scope.
    fn end_of(&self, scope: u32) -> u32
        ensures { result ≡ left.end_of self.now scope }
    {
        match self.ends.get(&scope) {
            Some(end) => *end,
            None => 0,
        }
    }
}

/// The first ends of headers.
fn heads_of(alloc: Global, list: &[Head]) -> Result<Heads, AllocError>
    ensures { IfOk result (λ x. (s : ℕ) → left.end_of x s ≡ means.head_of s list.now) }
{
    let mut heads = Heads::new(alloc);
    let mut at = list.len();
    while at > 0 {
        at -= 1;
        let head = list[at];
        heads.put(head.scope, head.declared)?;
    }
    Ok(heads)
}

/// The ports that are connected by their names, by instances and names.
#[derive(Drop)]
pub struct Links {
    names: Names,
    slots: Slots,
}

impl Links {
    /// Whether a port of an instance is connected by its name.
    fn has(&self, instance: u32, name: &Text) -> bool
        ensures { result ≡ is_some (left.linked_under self.now instance name.now) }
    {
        match self.names.number(name) {
            Some(number) => self.slots.find(instance, number).is_some(),
            None => false,
        }
    }
}

/// The names of ports that are connected by them.
fn names_of(alloc: Global, list: &[Link]) -> Result<Names, AllocError> {
    let mut names = Names::new(alloc);
    for link in list {
        names.add(alloc, &link.name)?;
    }
    Ok(names)
}

/// The first link of each name at each instance.
fn slots_of(alloc: Global, names: &Names, list: &[Link]) -> Result<Slots, AllocError>
    ensures { IfOk result (λ x. (n : ℕ) (q : List ℕ) → under names.now x n q ≡ left.link_from 0 n q list.now) }
{
    let mut slots = Slots::new(alloc);
    let mut at = list.len();
    while at > 0 {
        at -= 1;
        put(names, &mut slots, list[at].instance, &list[at].name, at)?;
    }
    Ok(slots)
}

/// What is kept for `.*`.
#[derive(Drop)]
pub struct Rests {
    heads: Heads,
    links: Links,
}

/// What is kept of a table for `.*`.
fn rests_of(alloc: Global, table: &Table) -> Result<Rests, AllocError>
    ensures { IfOk result (λ x. left.AreRests table.now x) }
{
    let heads = heads_of(alloc, table.heads.as_slice())?;
    let names = names_of(alloc, table.links.as_slice())?;
    let slots = slots_of(alloc, &names, table.links.as_slice())?;
    Ok(Rests {
        heads,
        links: Links { names, slots },
    })
}

/// Whether a declaration is that of a signal or a port.
pub(crate) fn is_signal_kind(what: DeclKind) -> bool
    ensures { result ≡ means.is_signal_kind what }
{
    match what {
        DeclKind::Signal => true,
        _ => false,
    }
}

/// The use of a port's name at a `.*`.
fn rest_use(scope: u32, at: u32) -> Use
    ensures { result ≡ means.rest_use scope at }
{
    Use {
        scope,
        source: None,
        at,
        role: Role::Connection,
        path: SelectPath::Alone,
    }
}

/// The declarations behind the one with a number, before an end.
fn behind(list: &[Declaration], number: u32, end: u32) -> &[Declaration]
    ensures { result.now ≡ drop (suc number) (take end list.now) }
{
    let end = list.len().min(end as usize);
    let start = end.min(number as usize + 1);
    &list[start..end]
}

impl<'t> NamedText<'t> {
    /// Whether a declaration is that of a port that isn't connected by its name.
    fn is_left(&self, rests: &Rests, instance: u32, scope: u32, port: &Declaration) -> bool
        requires { left.AreRests self.now.names.now rests.now }
        ensures { result ≡ means.is_left self.now.names.now instance scope port.now }
    {
        let is_port = port.scope == scope && is_signal_kind(port.what);
        is_port && !rests.links.has(instance, &port.name)
    }

    /// The break of a port that `.*` connects, if it does.
    fn port_break(
        &self,
        rests: &Rests,
        rest: Rest,
        around: u32,
        scope: u32,
        port: &Declaration,
    ) -> Option<Break>
        requires kept { Kept self.now.tokens.now self.now.names.now self.now.found.now self.now.loops.now }
        requires rests { left.AreRests self.now.names.now rests.now }
        ensures { result ≡ means.least (means.port_breaks self.now.tokens.now self.now.names.now rest around scope port.now) }
    {
        if !self.is_left(rests, rest.instance, scope, port) {
            return None;
        }
        let found = self.names().lookup(around, &port.name, rest.at);
        self.found_break(rest_use(around, rest.at), found)
    }

    /// The least break of the ports that `.*` connects.
    fn ports_break(
        &self,
        rests: &Rests,
        rest: Rest,
        around: u32,
        scope: u32,
        ports: &[Declaration],
    ) -> Option<Break>
        requires kept { Kept self.now.tokens.now self.now.names.now self.now.found.now self.now.loops.now }
        requires rests { left.AreRests self.now.names.now rests.now }
        ensures { result ≡ least_over (means.port_breaks self.now.tokens.now self.now.names.now rest around scope) None ports.now }
    {
        let mut least = None;
        for port in ports {
            least = first(least, self.port_break(rests, rest, around, scope, port));
        }
        least
    }

    /// The least break of a `.*` at an instance of what has a number.
    #[tactic(auto, using(crate::proofs::Orders::covering))]
    fn found_ports_break(
        &self,
        rests: &Rests,
        rest: Rest,
        around: u32,
        number: u32,
    ) -> Option<Break>
        requires kept { Kept self.now.tokens.now self.now.names.now self.now.found.now self.now.loops.now }
        requires rests { left.AreRests self.now.names.now rests.now }
        ensures { result ≡ means.least (means.found_ports self.now.tokens.now self.now.names.now rest around (Some number)) }
    {
        let module = self.numbered(number)?;
        if !is_instantiated(module.what) {
            return None;
        }
        let end = rests.heads.end_of(module.inner);
        let ports = behind(self.table().declared.as_slice(), number, end);
        self.ports_break(rests, rest, around, module.inner, ports)
    }

    /// The least break of a `.*`.
    fn rest_break(&self, rests: &Rests, rest: Rest) -> Option<Break>
        requires kept { Kept self.now.tokens.now self.now.names.now self.now.found.now self.now.loops.now }
        requires rests { left.AreRests self.now.names.now rests.now }
        ensures { result ≡ means.least (means.rest_breaks self.now.tokens.now self.now.names.now rest) }
    {
        let instance = self.numbered(rest.instance)?;
        match instance.how {
            Declared::Instance { of } => {
                let number = self.number_at(of)?;
                self.found_ports_break(rests, rest, instance.scope, number)
            }
            _ => None,
        }
    }

    /// The least break of each `.*`.
    pub(crate) fn rests_break(&self, alloc: Global) -> Result<Option<Break>, AllocError>
        requires kept { Kept self.now.tokens.now self.now.names.now self.now.found.now self.now.loops.now }
        ensures { IfOk result (λ b. b ≡ least_over (means.rest_breaks self.now.tokens.now self.now.names.now) None self.now.names.now.rests) }
    {
        let rests = rests_of(alloc, self.table())?;
        let list = self.table().rests.as_slice();
        let mut least = None;
        for rest in list {
            least = first(least, self.rest_break(&rests, *rest));
        }
        Ok(least)
    }
}
