//! Instances, modports and names of generate loops.

ghost use Rattle.std.specs.Prelude.{◌≡◌, IfOk};
ghost use Rattle.expr_build.specs.Nodes.{separated};
ghost use Rattle.sv_build.specs.Items as means;

use crate::loops::optional_expression;
use crate::rows;
use crate::words::optional_direction;
use expr_build::{Piece, behind, expression, is_blank, kid, kids, leaf, pieces, row, token};
use ll_engine::Tree;
use std::alloc::{AllocError, Global};
use sv_source::Items;
use sv_tree::{
    Bind, Connection, GenvarDeclaration, Instance, Instances, Modport, ModportDeclaration,
    ModportPort, Names, ParameterBinds,
};

/// What parameters are set to.
struct BindPiece;

impl Piece for BindPiece {
    ghost use Rattle.sv_build.specs.Items.{bind_of};

    type Value = Bind;

    ghost value = { bind_of };

    fn piece(alloc: Global, tree: &Tree) -> Result<Bind, AllocError> {
        match row(tree) {
            rows::NAMED_BIND => {
                let value = optional_expression(alloc, kid(tree, 3))?;
                Ok(Bind::Named {
                    dot: token(tree, 0),
                    name: token(tree, 1),
                    opening: token(tree, 2),
                    value,
                    closing: token(tree, 4),
                })
            }
            _ => Ok(Bind::Ordered(expression(alloc, kid(tree, 0))?)),
        }
    }
}

/// `#(binds)`, from its `#` on.
pub fn binds(alloc: Global, tree: &Tree) -> Result<ParameterBinds, AllocError>
    ensures { IfOk result (λ b. b ≡ means.binds_of tree.now) }
{
    let binds = pieces::<BindPiece>(alloc, kids(kid(tree, 2)))?;
    Ok(ParameterBinds {
        hash: token(tree, 0),
        opening: token(tree, 1),
        binds,
        closing: token(tree, 3),
    })
}

/// What a port is connected to, behind its name.
fn named_connection(
    alloc: Global,
    dot: u32,
    name: u32,
    tree: &Tree,
) -> Result<Connection, AllocError>
    ensures { IfOk result (λ c. c ≡ means.named_connection dot name tree.now) }
{
    if is_blank(tree) {
        return Ok(Connection::Implicit { dot, name });
    }
    let value = optional_expression(alloc, kid(tree, 1))?;
    Ok(Connection::Named {
        dot,
        name,
        opening: token(tree, 0),
        value,
        closing: token(tree, 2),
    })
}

/// What ports are connected to.
struct ConnectionPiece;

impl Piece for ConnectionPiece {
    ghost use Rattle.sv_build.specs.Items.{connection_of};

    type Value = Connection;

    ghost value = { connection_of };

    fn piece(alloc: Global, tree: &Tree) -> Result<Connection, AllocError> {
        match row(tree) {
            rows::NAMED_CONNECTION => {
                named_connection(alloc, token(tree, 0), token(tree, 1), kid(tree, 2))
            }
            rows::ALL_CONNECTION => Ok(Connection::All {
                mark: token(tree, 0),
            }),
            _ => Ok(Connection::Ordered(expression(alloc, kid(tree, 0))?)),
        }
    }
}

/// An instance, behind its name.
fn first_instance(alloc: Global, name: u32, tree: &Tree) -> Result<Instance, AllocError>
    ensures { IfOk result (λ i. i ≡ means.first_instance name tree.now) }
{
    let connections = pieces::<ConnectionPiece>(alloc, kids(kid(tree, 1)))?;
    Ok(Instance {
        name,
        opening: token(tree, 0),
        connections,
        closing: token(tree, 2),
    })
}

/// Instances.
struct InstancePiece;

impl Piece for InstancePiece {
    ghost use Rattle.sv_build.specs.Items.{instance_of};

    type Value = Instance;

    ghost value = { instance_of };

    fn piece(alloc: Global, tree: &Tree) -> Result<Instance, AllocError> {
        let connections = pieces::<ConnectionPiece>(alloc, kids(kid(tree, 2)))?;
        Ok(Instance {
            name: token(tree, 0),
            opening: token(tree, 1),
            connections,
            closing: token(tree, 3),
        })
    }
}

/// Instances between commas.
pub fn instances(alloc: Global, trees: &[Tree]) -> Result<Instances, AllocError>
    ensures { IfOk result (λ is. is ≡ separated means.instance_of trees.now) }
{
    pieces::<InstancePiece>(alloc, trees)
}

/// Instances of which the first one stands behind its name.
pub fn instances_behind(alloc: Global, name: u32, tree: &Tree) -> Result<Instances, AllocError>
    ensures { IfOk result (λ is. is ≡ means.instances_behind name tree.now) }
{
    let first = first_instance(alloc, name, tree)?;
    behind::<InstancePiece>(alloc, first, kids(kid(tree, 3)))
}

/// The members that a modport lists.
struct ModportPortPiece;

impl Piece for ModportPortPiece {
    ghost use Rattle.sv_build.specs.Items.{modport_port_of};

    type Value = ModportPort;

    ghost value = { modport_port_of };

    fn piece(_alloc: Global, tree: &Tree) -> Result<ModportPort, AllocError> {
        Ok(ModportPort {
            direction: optional_direction(kid(tree, 0)),
            name: token(tree, 1),
        })
    }
}

/// Modports.
struct ModportPiece;

impl Piece for ModportPiece {
    ghost use Rattle.sv_build.specs.Items.{one_modport_of};

    type Value = Modport;

    ghost value = { one_modport_of };

    fn piece(alloc: Global, tree: &Tree) -> Result<Modport, AllocError> {
        let ports = pieces::<ModportPortPiece>(alloc, kids(kid(tree, 2)))?;
        Ok(Modport {
            name: token(tree, 0),
            opening: token(tree, 1),
            ports,
            closing: token(tree, 3),
        })
    }
}

/// Modports.
pub fn modports(alloc: Global, tree: &Tree) -> Result<ModportDeclaration, AllocError>
    ensures { IfOk result (λ m. m ≡ means.modports_of tree.now) }
{
    let modports = pieces::<ModportPiece>(alloc, kids(kid(tree, 1)))?;
    Ok(ModportDeclaration {
        keyword: token(tree, 0),
        modports,
        semicolon: token(tree, 2),
    })
}

/// Names between commas.
fn names(alloc: Global, trees: &[Tree]) -> Result<Names, AllocError>
    ensures { IfOk result (λ ns. ns ≡ means.names_of trees.now) }
{
    let mut names = Items::new(alloc);
    let [first, rest @ ..] = trees else {
        return Ok(names);
    };
    names.push(leaf(first))?;
    for next in rest {
        names.push(token(next, 1))?;
    }
    Ok(names)
}

/// Names of generate loops.
pub fn genvars(alloc: Global, tree: &Tree) -> Result<GenvarDeclaration, AllocError>
    ensures { IfOk result (λ g. g ≡ means.genvars_of tree.now) }
{
    let names = names(alloc, kids(kid(tree, 1)))?;
    Ok(GenvarDeclaration {
        keyword: token(tree, 0),
        names,
        semicolon: token(tree, 2),
    })
}
