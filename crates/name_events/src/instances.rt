//! What happens to names in instances, modports, continuous assignments and processes.

ghost use Rattle.std.specs.Prelude.{◌≡◌, OnOk};
ghost use Rattle.name_events.specs.Items as means;

use crate::events::{Declared, Event, Events, Role, SelectPath};
use crate::expressions::{Position, expr};
use crate::statements::{lvalue, process_body};
use crate::steps::{declares, uses, wrong};
use std::alloc::AllocError;
use sv_tree::{
    Always, Bind, Connection, EventControl, EventEdge, EventMember, Expr, Instance, Instantiation,
    Modport, ModportDeclaration, ModportPort, NetAssignment, ParameterBinds, Stmt,
};

/// An assignment of a continuous assignment.
fn assignment(one: &NetAssignment, to: &mut Events) -> Result<(), AllocError>
    ensures { OnOk result (to.new ≡ means.assignment one.now to.old) }
{
    lvalue(Role::ContinuousTarget, &one.target, to)?;
    expr(&one.value, Position::Value, to)
}

/// Continuous assignments.
pub fn assignments(list: &[NetAssignment], to: &mut Events) -> Result<(), AllocError>
    ensures { OnOk result (to.new ≡ means.assignments list.now to.old) }
{
    for one in list {
        assignment(one, to)?;
    }
    Ok(())
}

/// The select behind the name of an event.
fn edge_path(member: Option<EventMember>) -> SelectPath
    ensures { result ≡ means.edge_path member }
{
    match member {
        None => SelectPath::Alone,
        Some(_) => SelectPath::Member,
    }
}

/// An edge that a process waits for.
fn edge(one: EventEdge, to: &mut Events) -> Result<(), AllocError>
    ensures { OnOk result (to.new ≡ means.edge one to.old) }
{
    to.push(Event::Uses {
        package: None,
        name: one.name,
        role: Role::Edge,
        path: edge_path(one.member),
    })
}

/// The edges that a process waits for.
fn edges(list: &[EventEdge], to: &mut Events) -> Result<(), AllocError>
    ensures { OnOk result (to.new ≡ means.edges list.now to.old) }
{
    for one in list {
        edge(*one, to)?;
    }
    Ok(())
}

/// What an `always` waits for.
fn control(one: &EventControl, to: &mut Events) -> Result<(), AllocError>
    ensures { OnOk result (to.new ≡ means.control one.now to.old) }
{
    match one {
        EventControl::Star { .. } => Ok(()),
        EventControl::ParenthesizedStar { .. } => Ok(()),
        EventControl::OpeningStar { .. } => Ok(()),
        EventControl::ClosingStar { .. } => Ok(()),
        EventControl::SpacedStar { .. } => Ok(()),
        EventControl::Edges { edges: list, .. } => edges(list.as_slice(), to),
    }
}

/// An `always`, by what it waits for and its statement.
fn plain_always(waits: &EventControl, body: &Stmt, to: &mut Events) -> Result<(), AllocError>
    ensures { OnOk result (to.new ≡ means.plain_always waits.now body.now to.old) }
{
    control(waits, to)?;
    process_body(body, to)
}

/// A process.
pub fn always(one: &Always, to: &mut Events) -> Result<(), AllocError>
    ensures { OnOk result (to.new ≡ means.always one.now to.old) }
{
    match one {
        Always::Comb { body, .. } => process_body(body, to),
        Always::Latch { body, .. } => process_body(body, to),
        Always::Ff {
            edges: list,
            body,
            ..
        } => {
            edges(list.as_slice(), to)?;
            process_body(body, to)
        }
        Always::Plain {
            control: waits,
            body,
            ..
        } => plain_always(waits, body, to),
    }
}

/// An expression, if there is one.
fn maybe_expr(position: Position, value: &Option<Expr>, to: &mut Events) -> Result<(), AllocError>
    ensures { OnOk result (to.new ≡ means.maybe_expr position value.now to.old) }
{
    match value {
        None => Ok(()),
        Some(value) => expr(value, position, to),
    }
}

/// What a parameter is set to.
fn bind(one: &Bind, to: &mut Events) -> Result<(), AllocError>
    ensures { OnOk result (to.new ≡ means.bind one.now to.old) }
{
    match one {
        Bind::Named { value, .. } => maybe_expr(Position::ValueOrType, value, to),
        Bind::Ordered(value) => expr(value, Position::ValueOrType, to),
    }
}

/// What parameters are set to.
fn binds(list: &[Bind], to: &mut Events) -> Result<(), AllocError>
    ensures { OnOk result (to.new ≡ means.binds list.now to.old) }
{
    for one in list {
        bind(one, to)?;
    }
    Ok(())
}

/// What the parameters of an instantiation are set to, if it has a list of them.
fn parameter_binds(list: &Option<ParameterBinds>, to: &mut Events) -> Result<(), AllocError>
    ensures { OnOk result (to.new ≡ means.parameter_binds list.now to.old) }
{
    match list {
        None => Ok(()),
        Some(list) => binds(list.binds.as_slice(), to),
    }
}

/// What a port is connected to.
fn connection(one: &Connection, to: &mut Events) -> Result<(), AllocError>
    ensures { OnOk result (to.new ≡ means.connection one.now to.old) }
{
    match one {
        Connection::Implicit { name, .. } => {
            to.push(Event::Connects { port: *name })?;
            uses(*name, Role::Connection, to)
        }
        Connection::Named { name, value, .. } => {
            to.push(Event::Connects { port: *name })?;
            maybe_expr(Position::Connection, value, to)
        }
        Connection::All { mark } => to.push(Event::ConnectsRest { mark: *mark }),
        Connection::Ordered(value) => expr(value, Position::Connection, to),
    }
}

/// What ports are connected to.
fn connections(list: &[Connection], to: &mut Events) -> Result<(), AllocError>
    ensures { OnOk result (to.new ≡ means.connections list.now to.old) }
{
    for one in list {
        connection(one, to)?;
    }
    Ok(())
}

/// An instance of the module or interface with this name.
fn instance(of: u32, one: &Instance, to: &mut Events) -> Result<(), AllocError>
    ensures { OnOk result (to.new ≡ means.instance_events of one.now to.old) }
{
    declares(Declared::Instance { of }, one.name, one.name, to)?;
    connections(one.connections.as_slice(), to)
}

/// Instances of the module or interface with this name.
fn instances(of: u32, list: &[Instance], to: &mut Events) -> Result<(), AllocError>
    ensures { OnOk result (to.new ≡ means.instances of list.now to.old) }
{
    for one in list {
        instance(of, one, to)?;
    }
    Ok(())
}

/// An instantiation.
pub fn instantiation(one: &Instantiation, to: &mut Events) -> Result<(), AllocError>
    ensures { OnOk result (to.new ≡ means.instantiation one.now to.old) }
{
    uses(one.of, Role::Instantiated, to)?;
    parameter_binds(&one.parameters, to)?;
    instances(one.of, one.instances.as_slice(), to)
}

/// What a modport lists.
fn modport_ports(list: &[ModportPort], to: &mut Events) -> Result<(), AllocError>
    ensures { OnOk result (to.new ≡ means.modport_ports list.now to.old) }
{
    for one in list {
        uses(one.name, Role::ModportPort, to)?;
    }
    Ok(())
}

/// A modport.
fn modport(one: &Modport, to: &mut Events) -> Result<(), AllocError>
    ensures { OnOk result (to.new ≡ means.modport one.now to.old) }
{
    declares(Declared::Modport, one.name, one.name, to)?;
    modport_ports(one.ports.as_slice(), to)
}

/// Modports.
fn modports(list: &[Modport], to: &mut Events) -> Result<(), AllocError>
    ensures { OnOk result (to.new ≡ means.modports list.now to.old) }
{
    for one in list {
        modport(one, to)?;
    }
    Ok(())
}

/// The word before modports, inside an interface or outside.
fn modport_place(inside: bool, at: u32, to: &mut Events) -> Result<(), AllocError>
    ensures { OnOk result (to.new ≡ means.modport_place inside at to.old) }
{
    if inside { Ok(()) } else { wrong(at, to) }
}

/// A declaration of modports, inside an interface or outside.
pub fn modport_declaration(
    inside: bool,
    one: &ModportDeclaration,
    to: &mut Events,
) -> Result<(), AllocError>
    ensures { OnOk result (to.new ≡ means.modport_declaration inside one.now to.old) }
{
    modport_place(inside, one.keyword, to)?;
    modports(one.modports.as_slice(), to)
}
