//! The built forms of a module's items.

ghost use Rattle.std.specs.Prelude.{◌≡◌, ◌++◌, ◌&&◌, is_none, OnOk, IfOk};
ghost use Rattle.built_forms.specs.Built as means;

use crate::forms::{Declaration, Item, ModuleItems};
use crate::statements::{assign, body};
use crate::types::logic_range;
use crate::words::name;
use std::alloc::{AllocError, Global};
use sv_source::{Items, Token};
use sv_tree::{
    Always, DataDeclaration, Declarator, EdgeKeyword, EventEdge, NetAssignment, TypeText,
};

/// One continuous assignment.
fn one_assign(
    alloc: Global,
    tokens: &[Token],
    assignment: &NetAssignment,
) -> Result<Option<Option<Item>>, AllocError>
    ensures { IfOk result (λ i. i ≡ means.one_assign tokens.now assignment.now) }
{
    match assign(alloc, tokens, &assignment.target, &assignment.value)? {
        Some(assign) => Ok(Some(Some(Item::Assign(assign)))),
        None => Ok(None),
    }
}

/// The assignments behind `assign`, which are one.
fn assigns(
    alloc: Global,
    tokens: &[Token],
    assignments: &[NetAssignment],
) -> Result<Option<Option<Item>>, AllocError>
    ensures { IfOk result (λ i. i ≡ means.assigns_of tokens.now assignments.now) }
{
    match assignments {
        [] => Ok(None),
        [assignment] => one_assign(alloc, tokens, assignment),
        [_, _, ..] => Ok(None),
    }
}

/// Whether a declared name has no dimension and no first value.
fn is_plain(declarator: &Declarator) -> bool
    ensures { result ≡ means.is_plain declarator.now }
{
    declarator.unpacked.as_slice().is_empty() && declarator.initial.is_none()
}

/// A variable.
fn variable(
    alloc: Global,
    tokens: &[Token],
    of: &TypeText,
    index: u32,
) -> Result<Option<Option<Item>>, AllocError>
    ensures { IfOk result (λ i. i ≡ means.variable_by tokens.now of.now index) }
{
    let Some(range) = logic_range(alloc, tokens, of)? else {
        return Ok(None);
    };
    let Some(name) = name(alloc, tokens, index)? else {
        return Ok(None);
    };
    Ok(Some(Some(Item::Logic(Declaration { range, name }))))
}

/// A declared name of a type.
fn declared(
    alloc: Global,
    tokens: &[Token],
    of: &TypeText,
    declarator: &Declarator,
) -> Result<Option<Option<Item>>, AllocError>
    ensures { IfOk result (λ i. i ≡ means.variable_with tokens.now of.now declarator.now) }
{
    if is_plain(declarator) {
        variable(alloc, tokens, of, declarator.name)
    } else {
        Ok(None)
    }
}

/// The declared names of a type, which are one.
fn one_declared(
    alloc: Global,
    tokens: &[Token],
    of: &TypeText,
    declarators: &[Declarator],
) -> Result<Option<Option<Item>>, AllocError>
    ensures { IfOk result (λ i. i ≡ means.one_variable tokens.now of.now declarators.now) }
{
    match declarators {
        [] => Ok(None),
        [declarator] => declared(alloc, tokens, of, declarator),
        [_, _, ..] => Ok(None),
    }
}

/// A declaration of variables.
fn declaration(
    alloc: Global,
    tokens: &[Token],
    list: &DataDeclaration,
) -> Result<Option<Option<Item>>, AllocError>
    ensures { IfOk result (λ i. i ≡ means.variable_of tokens.now list.now) }
{
    if list.net.is_none() {
        one_declared(alloc, tokens, &list.of, list.declarators.as_slice())
    } else {
        Ok(None)
    }
}

/// Whether an edge is the rising one of a plain name.
fn is_plain_edge(edge: &EventEdge) -> bool
    ensures { result ≡ (means.is_rising edge.now.keyword && is_none edge.now.member) }
{
    let is_rising = match edge.keyword {
        EdgeKeyword::Posedge(_) => true,
        EdgeKeyword::Negedge(_) => false,
    };
    is_rising && edge.member.is_none()
}

/// An edge process, by its clock and its statement.
fn clocked(
    alloc: Global,
    tokens: &[Token],
    clock: u32,
    statement: &sv_tree::Stmt,
) -> Result<Option<Option<Item>>, AllocError>
    ensures { IfOk result (λ i. i ≡ means.clocked_by tokens.now clock statement.now) }
{
    let Some(clock) = name(alloc, tokens, clock)? else {
        return Ok(None);
    };
    let Some(body) = body(alloc, tokens, true, statement)? else {
        return Ok(None);
    };
    Ok(Some(Some(Item::Edge { clock, body })))
}

/// An edge process, by its edge and its statement.
fn edge(
    alloc: Global,
    tokens: &[Token],
    edge: &EventEdge,
    statement: &sv_tree::Stmt,
) -> Result<Option<Option<Item>>, AllocError>
    ensures { IfOk result (λ i. i ≡ means.edge_with tokens.now edge.now statement.now) }
{
    if is_plain_edge(edge) {
        clocked(alloc, tokens, edge.name, statement)
    } else {
        Ok(None)
    }
}

/// An edge process, by its edges, which are one, and its statement.
fn edges(
    alloc: Global,
    tokens: &[Token],
    edges: &[EventEdge],
    statement: &sv_tree::Stmt,
) -> Result<Option<Option<Item>>, AllocError>
    ensures { IfOk result (λ i. i ≡ means.edges_of tokens.now edges.now statement.now) }
{
    match edges {
        [] => Ok(None),
        [one] => edge(alloc, tokens, one, statement),
        [_, _, ..] => Ok(None),
    }
}

/// A combinational process.
fn comb(
    alloc: Global,
    tokens: &[Token],
    statement: &sv_tree::Stmt,
) -> Result<Option<Option<Item>>, AllocError>
    ensures { IfOk result (λ i. i ≡ means.comb_of tokens.now statement.now) }
{
    match body(alloc, tokens, false, statement)? {
        Some(body) => Ok(Some(Some(Item::Comb(body)))),
        None => Ok(None),
    }
}

/// A process.
fn always(
    alloc: Global,
    tokens: &[Token],
    always: &Always,
) -> Result<Option<Option<Item>>, AllocError>
    ensures { IfOk result (λ i. i ≡ means.always_of tokens.now always.now) }
{
    match always {
        Always::Comb { body, .. } => comb(alloc, tokens, body),
        Always::Latch { .. } => Ok(None),
        Always::Ff {
            edges: list,
            body,
            ..
        } => edges(alloc, tokens, list.as_slice(), body),
        Always::Plain { .. } => Ok(None),
    }
}

/// An item: an item of a built form, or nothing where it is empty.
fn item(
    alloc: Global,
    tokens: &[Token],
    item: &sv_tree::Item,
) -> Result<Option<Option<Item>>, AllocError>
    ensures { IfOk result (λ i. i ≡ means.item_of tokens.now item.now) }
{
    match item {
        sv_tree::Item::Assign(list) => assigns(alloc, tokens, list.assignments.as_slice()),
        sv_tree::Item::Data(list) => declaration(alloc, tokens, list),
        sv_tree::Item::Always(process) => always(alloc, tokens, process),
        sv_tree::Item::Empty { .. } => Ok(Some(None)),
        _ => Ok(None),
    }
}

/// Adds an item, if there is one.
fn put(to: &mut ModuleItems, found: Option<Item>) -> Result<(), AllocError>
    ensures { OnOk result (to.new ≡ to.old ++ means.only found) }
{
    match found {
        Some(item) => to.push(item),
        None => Ok(()),
    }
}

/// The items of a module.
pub fn items(
    alloc: Global,
    tokens: &[Token],
    list: &[sv_tree::Item],
) -> Result<Option<ModuleItems>, AllocError>
    ensures { IfOk result (λ is. is ≡ means.gathered (means.item_of tokens.now) list.now) }
{
    let mut items = Items::new(alloc);
    for one in list {
        let Some(found) = item(alloc, tokens, one)? else {
            return Ok(None);
        };
        put(&mut items, found)?;
    }
    Ok(Some(items))
}
