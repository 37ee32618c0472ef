//! Headers of modules and interfaces, and what ports and formal arguments are.

ghost use Rattle.std.specs.Prelude.{◌≡◌, IfOk};
ghost use Rattle.sv_build.specs.Declarations as means;

use crate::declarations::{import, parameter_body};
use crate::rows;
use crate::words::{direction, lifetime, optional_net, optional_parameter_keyword};
use expr_build::{
    Piece, alone, dimensioned_text, dims, each, is_blank, keyword_text, kid, kids, named_text,
    pieces, row, scoped, signed_text, token,
};
use ll_engine::Tree;
use pairs::both;
use std::alloc::{AllocError, Global};
use sv_tree::{
    Header, Import, ParameterPort, ParameterPortList, Port, PortList, PortText, TypeText,
};

/// A port of this type.
fn typed_port(
    alloc: Global,
    of: TypeText,
    name: u32,
    dimensions: &Tree,
) -> Result<PortText, AllocError>
    ensures { IfOk result (λ p. p ≡ means.typed_port of name dimensions.now) }
{
    let (of, unpacked) = both(Ok(of), dims(alloc, dimensions))?;
    Ok(PortText::Typed { of, name, unpacked })
}

/// A port by a name and dimensions, and perhaps a second name.
fn port_from(alloc: Global, first: u32, tree: &Tree) -> Result<PortText, AllocError>
    ensures { IfOk result (λ p. p ≡ means.port_from first tree.now) }
{
    let name = kid(tree, 1);
    if is_blank(name) {
        let unpacked = dims(alloc, kid(tree, 0))?;
        return Ok(PortText::Bare {
            name: first,
            unpacked,
        });
    }
    let of = named_text(alloc, alone(first), kid(tree, 0))?;
    typed_port(alloc, of, token(name, 0), kid(name, 1))
}

/// A port that a name begins.
fn named_port(alloc: Global, first: u32, tree: &Tree) -> Result<PortText, AllocError>
    ensures { IfOk result (λ p. p ≡ means.named_port_of first tree.now) }
{
    match row(tree) {
        rows::MODPORT_PORT => Ok(PortText::Modport {
            interface: first,
            dot: token(tree, 0),
            modport: token(tree, 1),
            name: token(tree, 2),
        }),
        rows::SCOPED_PORT_TYPE => {
            let name = scoped(first, token(tree, 0), token(tree, 1));
            let of = named_text(alloc, name, kid(tree, 2))?;
            typed_port(alloc, of, token(tree, 3), kid(tree, 4))
        }
        _ => port_from(alloc, first, tree),
    }
}

/// Type and name of a port or a formal argument.
pub fn port_text(alloc: Global, tree: &Tree) -> Result<PortText, AllocError>
    ensures { IfOk result (λ p. p ≡ means.port_text_of tree.now) }
{
    match row(tree) {
        rows::KEYWORD_PORT => {
            let of = keyword_text(alloc, kid(tree, 0), kid(tree, 1))?;
            typed_port(alloc, of, token(tree, 2), kid(tree, 3))
        }
        rows::SIGNED_PORT => {
            let of = signed_text(alloc, kid(tree, 0), kid(tree, 1))?;
            typed_port(alloc, of, token(tree, 2), kid(tree, 3))
        }
        rows::DIMENSIONED_PORT => {
            let of = dimensioned_text(alloc, kid(tree, 0), kid(tree, 1))?;
            typed_port(alloc, of, token(tree, 2), kid(tree, 3))
        }
        _ => named_port(alloc, token(tree, 0), kid(tree, 1)),
    }
}

/// A port of a header.
#[tactic(auto, unfolding(crate::specs::Declarations::port_of))]
fn port(alloc: Global, tree: &Tree) -> Result<Port, AllocError>
    ensures { IfOk result (λ p. p ≡ means.port_of tree.now) }
{
    match row(tree) {
        rows::DIRECTED_PORT => {
            let text = port_text(alloc, kid(tree, 2))?;
            Ok(Port {
                direction: Some(direction(kid(tree, 0))),
                net: optional_net(kid(tree, 1)),
                text,
            })
        }
        _ => {
            let text = port_text(alloc, kid(tree, 0))?;
            Ok(Port {
                direction: None,
                net: None,
                text,
            })
        }
    }
}

/// Ports of a header.
struct PortPiece;

impl Piece for PortPiece {
    ghost use Rattle.sv_build.specs.Declarations.{port_of};

    type Value = Port;

    ghost value = { port_of };

    fn piece(alloc: Global, tree: &Tree) -> Result<Port, AllocError> {
        port(alloc, tree)
    }
}

/// `(ports)`, where it is written.
fn port_list(alloc: Global, tree: &Tree) -> Result<Option<PortList>, AllocError>
    ensures { IfOk result (λ p. p ≡ means.port_list_of tree.now) }
{
    if is_blank(tree) {
        return Ok(None);
    }
    let ports = pieces::<PortPiece>(alloc, kids(kid(tree, 1)))?;
    Ok(Some(PortList {
        opening: token(tree, 0),
        ports,
        closing: token(tree, 2),
    }))
}

/// A parameter of a header.
#[tactic(auto, unfolding(crate::specs::Declarations::parameter_port_of))]
fn parameter_port(alloc: Global, tree: &Tree) -> Result<ParameterPort, AllocError>
    ensures { IfOk result (λ p. p ≡ means.parameter_port_of tree.now) }
{
    let body = parameter_body(alloc, kid(tree, 1))?;
    Ok(ParameterPort {
        keyword: optional_parameter_keyword(kid(tree, 0)),
        body,
    })
}

/// Parameters of a header.
struct ParameterPortPiece;

impl Piece for ParameterPortPiece {
    ghost use Rattle.sv_build.specs.Declarations.{parameter_port_of};

    type Value = ParameterPort;

    ghost value = { parameter_port_of };

    fn piece(alloc: Global, tree: &Tree) -> Result<ParameterPort, AllocError> {
        parameter_port(alloc, tree)
    }
}

/// `#(parameters)`, where it is written.
fn parameter_list(alloc: Global, tree: &Tree) -> Result<Option<ParameterPortList>, AllocError>
    ensures { IfOk result (λ p. p ≡ means.parameter_list_of tree.now) }
{
    if is_blank(tree) {
        return Ok(None);
    }
    let parameters = pieces::<ParameterPortPiece>(alloc, kids(kid(tree, 2)))?;
    Ok(Some(ParameterPortList {
        hash: token(tree, 0),
        opening: token(tree, 1),
        parameters,
        closing: token(tree, 3),
    }))
}

/// Imports.
struct ImportPiece;

impl Piece for ImportPiece {
    ghost use Rattle.sv_build.specs.Declarations.{import_of};

    type Value = Import;

    ghost value = { import_of };

    fn piece(alloc: Global, tree: &Tree) -> Result<Import, AllocError> {
        import(alloc, tree)
    }
}

/// A header.
pub fn header(alloc: Global, tree: &Tree) -> Result<Header, AllocError>
    ensures { IfOk result (λ h. h ≡ means.header_of tree.now) }
{
    let imports = each::<ImportPiece>(alloc, kids(kid(tree, 2)));
    let parameters = parameter_list(alloc, kid(tree, 3));
    let lists = both(parameters, port_list(alloc, kid(tree, 4)));
    let (imports, lists) = both(imports, lists)?;
    let (parameters, ports) = lists;
    Ok(Header {
        lifetime: lifetime(kid(tree, 0)),
        name: token(tree, 1),
        imports,
        parameters,
        ports,
        semicolon: token(tree, 5),
    })
}
