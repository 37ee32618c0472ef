//! The built form of a source text: one module, or none.

ghost use Rattle.std.specs.Prelude.{◌≡◌, ◌++◌, slice_get, OnOk, IfOk};
ghost use Rattle.built_forms.specs.Built as means;

use crate::forms::{Module, Ports};
use crate::items::items;
use crate::ports::ports;
use crate::words::name;
use std::alloc::{AllocError, Global};
use sv_source::{Items, Spot, Text, Token, at};
use sv_tree::{Header, Label, SourceTree, Unit};

/// Whether a header has no lifetime, no imports and no parameters.
fn is_plain_header(header: &Header) -> bool
    ensures { result ≡ means.is_plain_header header.now }
{
    header.lifetime.is_none() && header.imports.as_slice().is_empty() && header.parameters.is_none()
}

/// The ports of a header.
fn header_ports(
    alloc: Global,
    tokens: &[Token],
    header: &Header,
) -> Result<Option<Ports>, AllocError>
    ensures { IfOk result (λ ps. ps ≡ means.header_of tokens.now header.now) }
{
    if is_plain_header(header) {
        ports(alloc, tokens, &header.ports)
    } else {
        Ok(None)
    }
}

/// Whether a token has this text.
fn token_is(tokens: &[Token], index: u32, word: &Text) -> bool
    ensures { result ≡ means.token_is word.now (slice_get tokens.now index) }
{
    match at(tokens, index as usize) {
        None => false,
        Some(token) => token.text.is(word.as_bytes()),
    }
}

/// Whether the name behind an end, if there is one, is this name.
fn label_agrees(tokens: &[Token], name: &Spot, label: Option<Label>) -> bool
    ensures { result ≡ means.label_agrees tokens.now name.now label }
{
    match label {
        None => true,
        Some(label) => token_is(tokens, label.name, &name.word),
    }
}

/// The name of a module, with which its end label agrees.
fn agreed(
    alloc: Global,
    tokens: &[Token],
    label: Option<Label>,
    index: u32,
) -> Result<Option<Spot>, AllocError>
    ensures { IfOk result (λ s. s ≡ means.agreed tokens.now label (means.name_of tokens.now index)) }
{
    let Some(name) = name(alloc, tokens, index)? else {
        return Ok(None);
    };
    if label_agrees(tokens, &name, label) {
        Ok(Some(name))
    } else {
        Ok(None)
    }
}

/// A module.
fn module(
    alloc: Global,
    tokens: &[Token],
    source: &sv_tree::Module,
) -> Result<Option<Module>, AllocError>
    ensures { IfOk result (λ m. m ≡ means.module_of tokens.now source.now) }
{
    let Some(ports) = header_ports(alloc, tokens, &source.header)? else {
        return Ok(None);
    };
    let Some(items) = items(alloc, tokens, source.items.as_slice())? else {
        return Ok(None);
    };
    let Some(name) = agreed(alloc, tokens, source.end_label, source.header.name)? else {
        return Ok(None);
    };
    Ok(Some(Module { name, ports, items }))
}

/// A description: a module, or nothing where it is empty.
fn unit(alloc: Global, tokens: &[Token], unit: &Unit) -> Result<Option<Option<Module>>, AllocError>
    ensures { IfOk result (λ m. m ≡ means.unit_of tokens.now unit.now) }
{
    match unit {
        Unit::Module(found) => match module(alloc, tokens, found)? {
            Some(found) => Ok(Some(Some(found))),
            None => Ok(None),
        },
        Unit::Empty { .. } => Ok(Some(None)),
        _ => Ok(None),
    }
}

/// Adds a module, if there is one.
fn put(to: &mut Items<Module>, found: Option<Module>) -> Result<(), AllocError>
    ensures { OnOk result (to.new ≡ to.old ++ means.only found) }
{
    match found {
        Some(module) => to.push(module),
        None => Ok(()),
    }
}

/// The modules of a text.
fn modules(
    alloc: Global,
    tokens: &[Token],
    units: &[Unit],
) -> Result<Option<Items<Module>>, AllocError>
    ensures { IfOk result (λ ms. ms ≡ means.gathered (means.unit_of tokens.now) units.now) }
{
    let mut modules = Items::new(alloc);
    for one in units {
        let Some(found) = unit(alloc, tokens, one)? else {
            return Ok(None);
        };
        put(&mut modules, found)?;
    }
    Ok(Some(modules))
}

/// The last one, if they are one at most.
fn at_most_one(mut modules: Items<Module>) -> Option<Option<Module>>
    ensures { result ≡ means.at_most_one modules }
{
    let last = modules.pop();
    if modules.as_slice().is_empty() {
        Some(last)
    } else {
        None
    }
}

/// What a source text has built: its one module, or none, where all its forms are built.
pub fn built(alloc: Global, tree: &SourceTree) -> Result<Option<Option<Module>>, AllocError>
    ensures { IfOk result (λ m. m ≡ means.built tree.now) }
{
    let tokens = tree.tokens.as_slice();
    match modules(alloc, tokens, tree.units.as_slice())? {
        Some(modules) => Ok(at_most_one(modules)),
        None => Ok(None),
    }
}
