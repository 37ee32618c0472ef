//! What happens to names in headers of modules and interfaces.

ghost use Rattle.std.specs.Prelude.{◌≡◌, false, OnOk};
ghost use Rattle.name_events.specs.Items as means;

use crate::declarations::{imports, is_type_body, named_of_type, parameter_body};
use crate::events::{Before, Declared, Event, Events, Role};
use crate::steps::{declares, uses, wrong};
use crate::types::type_text;
use std::alloc::AllocError;
use sv_tree::{
    Dimension, Direction, Header, NetOrVariable, ParameterPort, ParameterPortList, Port, PortList,
    PortText, QualifiedName, TypeText,
};

/// What a port takes from the one before it.
#[derive(Clone, Copy)]
pub struct PortState {
    /// Whether its direction is `output`.
    pub output: bool,
    /// Whether it is a net.
    pub net: bool,
    /// What kind of port it is.
    pub before: Before,
}

/// Whether a direction is `output`.
fn is_output(direction: Direction) -> bool
    ensures { result ≡ means.is_output direction }
{
    match direction {
        Direction::Input(_) => false,
        Direction::Output(_) => true,
    }
}

/// Whether a port's direction is `output`, which it has from the port before where none is written.
fn output_of(before: bool, direction: Option<Direction>) -> bool
    ensures { result ≡ means.output_of before direction }
{
    match direction {
        None => before,
        Some(direction) => is_output(direction),
    }
}

/// Whether a type is written by more than a sign and dimensions.
fn is_written(of: &TypeText) -> bool
    ensures { result ≡ means.is_written of.now }
{
    match of {
        TypeText::Keyword { .. } => true,
        TypeText::Structure { .. } => true,
        TypeText::Enumeration { .. } => true,
        TypeText::Named { .. } => true,
        TypeText::Implicit { .. } => false,
    }
}

/// Whether a port has a written type.
fn has_type(text: &PortText) -> bool
    ensures { result ≡ means.has_type text.now }
{
    match text {
        PortText::Typed { of, .. } => is_written(of),
        PortText::Modport { .. } => true,
        PortText::Bare { .. } => false,
    }
}

/// Whether a port is a net.
fn net_of(output: bool, written: bool, net: Option<NetOrVariable>) -> bool
    ensures { result ≡ means.net_of output written net }
{
    match net {
        Some(NetOrVariable::Wire(_)) => true,
        Some(NetOrVariable::Var(_)) => false,
        None => !output || !written,
    }
}

/// Whether a port is a net, by its own words.
fn own_net(state: PortState, port: &Port) -> bool
    ensures { result ≡ means.own_net state port.now }
{
    net_of(
        output_of(state.output, port.direction),
        has_type(&port.text),
        port.net,
    )
}

/// Whether a port without direction is a net.
fn undirected_net(state: PortState, port: &Port) -> bool
    ensures { result ≡ means.undirected_net state port.now port.now.text }
{
    match &port.text {
        PortText::Bare { .. } => state.net,
        PortText::Typed { .. } => own_net(state, port),
        PortText::Modport { .. } => own_net(state, port),
    }
}

/// Whether a port is a net.
fn port_net(state: PortState, port: &Port) -> bool
    ensures { result ≡ means.port_net state port.now }
{
    match port.direction {
        None => undirected_net(state, port),
        Some(_) => own_net(state, port),
    }
}

/// A name without a package and dimensions.
fn plain_name(of: QualifiedName, packed: &[Dimension]) -> Option<u32>
    ensures { result ≡ means.plain_name of packed.now }
{
    if !packed.is_empty() {
        return None;
    }
    match of.scope {
        None => Some(of.name),
        Some(_) => None,
    }
}

/// The name of a type that may be that of an interface.
fn interface_of(of: &TypeText, unpacked: &[Dimension]) -> Option<u32>
    ensures { result ≡ means.interface_of of.now unpacked.now }
{
    if !unpacked.is_empty() {
        return None;
    }
    match of {
        TypeText::Named { of, packed } => plain_name(*of, packed.as_slice()),
        TypeText::Keyword { .. } => None,
        TypeText::Structure { .. } => None,
        TypeText::Enumeration { .. } => None,
        TypeText::Implicit { .. } => None,
    }
}

/// What kind of port one is whose type may be an interface.
fn named_before(name: Option<u32>) -> Before
    ensures { result ≡ means.named_before name }
{
    match name {
        None => Before::Data,
        Some(name) => Before::Named(name),
    }
}

/// What kind of port one without direction is.
fn undirected_before(text: &PortText) -> Before
    ensures { result ≡ means.undirected_before text.now }
{
    match text {
        PortText::Typed { of, unpacked, .. } => {
            named_before(interface_of(of, unpacked.as_slice()))
        }
        PortText::Modport { .. } => Before::Interface,
        PortText::Bare { .. } => Before::Data,
    }
}

/// What kind of port one is.
fn port_before(direction: Option<Direction>, text: &PortText) -> Before
    ensures { result ≡ means.port_before direction text.now }
{
    match direction {
        None => undirected_before(text),
        Some(_) => Before::Data,
    }
}

/// What the next port takes from a port.
fn after_port(state: PortState, port: &Port) -> PortState
    ensures { result ≡ means.after_port state port.now }
{
    PortState {
        output: output_of(state.output, port.direction),
        net: port_net(state, port),
        before: port_before(port.direction, &port.text),
    }
}

/// A net or a variable.
fn signal(net: bool) -> Declared
    ensures { result ≡ means.signal net }
{
    if net {
        Declared::Net
    } else {
        Declared::Variable
    }
}

/// Type and name of a port with a direction.
fn directed_text(net: bool, text: &PortText, to: &mut Events) -> Result<(), AllocError>
    ensures { OnOk result (to.new ≡ means.directed_text net text.now to.old) }
{
    match text {
        PortText::Typed { of, name, unpacked } => {
            type_text(of, to)?;
            named_of_type(signal(net), *name, unpacked.as_slice(), &None, to)
        }
        PortText::Modport {
            interface,
            name,
            ..
        } => {
            uses(*interface, Role::Interface, to)?;
            wrong(*interface, to)?;
            declares(Declared::InterfacePort, *name, *name, to)
        }
        PortText::Bare { name, unpacked } => {
            named_of_type(signal(net), *name, unpacked.as_slice(), &None, to)
        }
    }
}

/// A port without direction that isn't the modport of an interface.
fn undirected(name: u32, of: Option<u32>, before: Before, to: &mut Events) -> Result<(), AllocError>
    ensures { OnOk result (to.new ≡ means.undirected name of before to.old) }
{
    to.push(Event::Undirected { name, of, before })
}

/// A port without direction, with a type or an interface's name.
fn typed_port(
    before: Before,
    net: bool,
    of: &TypeText,
    name: u32,
    unpacked: &[Dimension],
    interface: Option<u32>,
    to: &mut Events,
) -> Result<(), AllocError>
    ensures { OnOk result (to.new ≡ means.typed_port before net of.now name unpacked.now interface to.old) }
{
    match interface {
        None => {
            type_text(of, to)?;
            named_of_type(signal(net), name, unpacked, &None, to)?;
            undirected(name, None, before, to)
        }
        Some(interface) => {
            uses(interface, Role::TypeOrInterface, to)?;
            let what = Declared::NamedPort { of: interface, net };
            declares(what, name, name, to)?;
            undirected(name, Some(interface), before, to)
        }
    }
}

/// Type and name of a port without direction.
fn undirected_text(
    before: Before,
    net: bool,
    text: &PortText,
    to: &mut Events,
) -> Result<(), AllocError>
    ensures { OnOk result (to.new ≡ means.undirected_text before net text.now to.old) }
{
    match text {
        PortText::Typed { of, name, unpacked } => {
            let interface = interface_of(of, unpacked.as_slice());
            typed_port(before, net, of, *name, unpacked.as_slice(), interface, to)
        }
        PortText::Modport {
            interface,
            name,
            ..
        } => {
            uses(*interface, Role::Interface, to)?;
            declares(Declared::InterfacePort, *name, *name, to)
        }
        PortText::Bare { name, unpacked } => {
            named_of_type(signal(net), *name, unpacked.as_slice(), &None, to)?;
            undirected(*name, None, before, to)
        }
    }
}

/// A port.
fn port(state: PortState, one: &Port, to: &mut Events) -> Result<(), AllocError>
    ensures { OnOk result (to.new ≡ means.port_events state one.now to.old) }
{
    let net = port_net(state, one);
    match one.direction {
        None => undirected_text(state.before, net, &one.text, to),
        Some(_) => directed_text(net, &one.text, to),
    }
}

/// Ports, the first of which stands behind no other one.
fn ports_in(list: &[Port], to: &mut Events) -> Result<(), AllocError>
    ensures { OnOk result (to.new ≡ means.ports_from means.no_port list.now to.old) }
{
    let mut state = PortState {
        output: false,
        net: true,
        before: Before::Nothing,
    };
    for one in list {
        port(state, one, to)?;
        state = after_port(state, one);
    }
    Ok(())
}

/// The ports of a header, if it has a list of them.
fn ports(list: &Option<PortList>, to: &mut Events) -> Result<(), AllocError>
    ensures { OnOk result (to.new ≡ means.ports list.now to.old) }
{
    match list {
        None => Ok(()),
        Some(list) => ports_in(list.ports.as_slice(), to),
    }
}

/// Whether a parameter may take its kind from the one before it.
fn goes_on(before: bool, port: &ParameterPort) -> bool
    ensures { result ≡ means.goes_on before port.now }
{
    before && port.keyword.is_none()
}

/// Parameters of a header.
fn parameter_ports_in(list: &[ParameterPort], to: &mut Events) -> Result<(), AllocError>
    ensures { OnOk result (to.new ≡ means.parameter_ports_from false list.now to.old) }
{
    let mut before = false;
    for port in list {
        let taken = goes_on(before, port);
        parameter_body(taken, &port.body, to)?;
        before = is_type_body(taken, &port.body);
    }
    Ok(())
}

/// The parameters of a header, if it has a list of them.
fn parameter_ports(list: &Option<ParameterPortList>, to: &mut Events) -> Result<(), AllocError>
    ensures { OnOk result (to.new ≡ means.parameter_ports list.now to.old) }
{
    match list {
        None => Ok(()),
        Some(list) => parameter_ports_in(list.parameters.as_slice(), to),
    }
}

/// A header behind its name.
pub fn header(one: &Header, to: &mut Events) -> Result<(), AllocError>
    ensures { OnOk result (to.new ≡ means.header one.now to.old) }
{
    imports(one.imports.as_slice(), to)?;
    parameter_ports(&one.parameters, to)?;
    ports(&one.ports, to)?;
    to.push(Event::Heads)
}
