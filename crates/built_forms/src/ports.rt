//! The built forms of ports.

ghost use Rattle.std.specs.Prelude.{◌≡◌, ◌++◌, IfOk};
ghost use Rattle.built_forms.specs.Built as means;

use crate::forms::{Direction, Port, PortHead, Ports};
use crate::types::logic_range;
use crate::words::name;
use std::alloc::{AllocError, Global};
use sv_source::{Items, Token};
use sv_tree::{Dimension, PortList, PortText, TypeText};

/// A direction.
fn direction(direction: sv_tree::Direction) -> Direction
    ensures { result ≡ means.direction_of direction }
{
    match direction {
        sv_tree::Direction::Input(_) => Direction::Input,
        sv_tree::Direction::Output(_) => Direction::Output,
    }
}

/// A port with a direction, by its type and its name.
fn headed_port(
    alloc: Global,
    tokens: &[Token],
    way: sv_tree::Direction,
    of: &TypeText,
    index: u32,
) -> Result<Option<Port>, AllocError>
    ensures { IfOk result (λ p. p ≡ means.headed_by tokens.now way of.now index) }
{
    let Some(range) = logic_range(alloc, tokens, of)? else {
        return Ok(None);
    };
    let Some(name) = name(alloc, tokens, index)? else {
        return Ok(None);
    };
    let direction = direction(way);
    let head = Some(PortHead { direction, range });
    Ok(Some(Port { head, name }))
}

/// A port with a type.
fn typed_port(
    alloc: Global,
    tokens: &[Token],
    way: Option<sv_tree::Direction>,
    of: &TypeText,
    index: u32,
    unpacked: &[Dimension],
) -> Result<Option<Port>, AllocError>
    ensures { IfOk result (λ p. p ≡ means.typed_port tokens.now way of.now index unpacked.now) }
{
    let Some(way) = way else {
        return Ok(None);
    };
    if unpacked.is_empty() {
        headed_port(alloc, tokens, way, of, index)
    } else {
        Ok(None)
    }
}

/// A name alone.
fn named_port(alloc: Global, tokens: &[Token], index: u32) -> Result<Option<Port>, AllocError>
    ensures { IfOk result (λ p. p ≡ means.named_by tokens.now index) }
{
    match name(alloc, tokens, index)? {
        Some(name) => Ok(Some(Port { head: None, name })),
        None => Ok(None),
    }
}

/// A port without a type.
fn untyped_port(
    alloc: Global,
    tokens: &[Token],
    way: Option<sv_tree::Direction>,
    index: u32,
    unpacked: &[Dimension],
) -> Result<Option<Port>, AllocError>
    ensures { IfOk result (λ p. p ≡ means.untyped_port tokens.now way index unpacked.now) }
{
    if way.is_some() {
        return Ok(None);
    }
    if unpacked.is_empty() {
        named_port(alloc, tokens, index)
    } else {
        Ok(None)
    }
}

/// A port by its direction and its text.
fn port_text(
    alloc: Global,
    tokens: &[Token],
    way: Option<sv_tree::Direction>,
    text: &PortText,
) -> Result<Option<Port>, AllocError>
    ensures { IfOk result (λ p. p ≡ means.port_with tokens.now way text.now) }
{
    match text {
        PortText::Typed { of, name, unpacked } => {
            typed_port(alloc, tokens, way, of, *name, unpacked.as_slice())
        }
        PortText::Modport { .. } => Ok(None),
        PortText::Bare { name, unpacked } => {
            untyped_port(alloc, tokens, way, *name, unpacked.as_slice())
        }
    }
}

/// A port.
fn port(alloc: Global, tokens: &[Token], port: &sv_tree::Port) -> Result<Option<Port>, AllocError>
    ensures { IfOk result (λ p. p ≡ means.port_of tokens.now port.now) }
{
    if port.net.is_none() {
        port_text(alloc, tokens, port.direction, &port.text)
    } else {
        Ok(None)
    }
}

/// Ports in order.
fn each_port(
    alloc: Global,
    tokens: &[Token],
    list: &[sv_tree::Port],
) -> Result<Option<Ports>, AllocError>
    ensures { IfOk result (λ ps. ps ≡ means.each (means.port_of tokens.now) list.now) }
{
    let mut ports = Items::new(alloc);
    for item in list {
        let Some(port) = port(alloc, tokens, item)? else {
            return Ok(None);
        };
        ports.push(port)?;
    }
    Ok(Some(ports))
}

/// Whether the first port, if there is one, has a direction.
fn first_is_headed(ports: &[Port]) -> bool
    ensures { result ≡ means.first_is_headed ports.now }
{
    match ports {
        [] => true,
        [first, ..] => first.head.is_some(),
    }
}

/// The ports of a list, the first of which has a direction.
fn headed_ports(
    alloc: Global,
    tokens: &[Token],
    list: &[sv_tree::Port],
) -> Result<Option<Ports>, AllocError>
    ensures { IfOk result (λ ps. ps ≡ means.headed (means.each (means.port_of tokens.now) list.now)) }
{
    let Some(ports) = each_port(alloc, tokens, list)? else {
        return Ok(None);
    };
    if first_is_headed(ports.as_slice()) {
        Ok(Some(ports))
    } else {
        Ok(None)
    }
}

/// The ports of a header.
pub fn ports(
    alloc: Global,
    tokens: &[Token],
    list: &Option<PortList>,
) -> Result<Option<Ports>, AllocError>
    ensures { IfOk result (λ ps. ps ≡ means.ports_of tokens.now list.now) }
{
    match list {
        None => Ok(Some(Items::new(alloc))),
        Some(list) => headed_ports(alloc, tokens, list.ports.as_slice()),
    }
}
