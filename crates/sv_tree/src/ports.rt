//! Headers of modules and interfaces, with parameters and ports (IEEE 1800-2017 clause 23.2, A.1.2, A.1.3). Each `u32` is
//! the number of a token among the tree's tokens.

use crate::declarations::{Imports, ParameterBody, ParameterKeyword};
use crate::expressions::Dimensions;
use crate::names::{Direction, Lifetime, NetOrVariable};
use crate::types::TypeText;
use sv_source::Items;

/// A parameter of a header (IEEE 1800-2017 A.1.3 parameter_port_declaration).
#[derive(Drop)]
pub struct ParameterPort {
    /// The word before it. Without one the word of the parameter before it counts.
    pub keyword: Option<ParameterKeyword>,
    /// The parameter.
    pub body: ParameterBody,
}

/// The parameters of a header, in order.
pub type ParameterPorts = Items<ParameterPort>;

/// `#(parameters)` in a header (IEEE 1800-2017 A.1.3 parameter_port_list).
#[derive(Drop)]
pub struct ParameterPortList {
    /// The `#`.
    pub hash: u32,
    /// The `(`.
    pub opening: u32,
    /// The parameters.
    pub parameters: ParameterPorts,
    /// The `)`.
    pub closing: u32,
}

/// Type and name of a port or a formal argument (IEEE 1800-2017 A.1.3 ansi_port_declaration, A.2.7 tf_port_item).
#[derive(Drop)]
pub enum PortText {
    /// A type and a name.
    Typed {
        /// The type, or an interface's name in the place of one.
        of: TypeText,
        /// The name.
        name: u32,
        /// The unpacked dimensions.
        unpacked: Dimensions,
    },
    /// A modport of an interface, and a name.
    Modport {
        /// The interface's name.
        interface: u32,
        /// The `.`.
        dot: u32,
        /// The modport's name.
        modport: u32,
        /// The port's name.
        name: u32,
    },
    /// A name alone: without a direction it takes direction and type of the port before it.
    Bare {
        /// The name.
        name: u32,
        /// The unpacked dimensions.
        unpacked: Dimensions,
    },
}

/// A port of a header (IEEE 1800-2017 A.1.3 ansi_port_declaration).
#[derive(Drop)]
pub struct Port {
    /// The direction, where it is written.
    pub direction: Option<Direction>,
    /// Whether it is a net or a variable, where that is written.
    pub net: Option<NetOrVariable>,
    /// Its type and name.
    pub text: PortText,
}

/// The ports of a header, in order.
pub type Ports = Items<Port>;

/// `(ports)` in a header (IEEE 1800-2017 A.1.3 list_of_port_declarations).
#[derive(Drop)]
pub struct PortList {
    /// The `(`.
    pub opening: u32,
    /// The ports.
    pub ports: Ports,
    /// The `)`.
    pub closing: u32,
}

/// What stands between `module` or `interface` and the items (IEEE 1800-2017 A.1.2 module_ansi_header).
#[derive(Drop)]
pub struct Header {
    /// The lifetime, where it is written.
    pub lifetime: Option<Lifetime>,
    /// The name.
    pub name: u32,
    /// The imports of the header.
    pub imports: Imports,
    /// The parameters.
    pub parameters: Option<ParameterPortList>,
    /// The ports.
    pub ports: Option<PortList>,
    /// The `;`.
    pub semicolon: u32,
}
