//! Instances of modules and interfaces, and modports (IEEE 1800-2017 clauses 23.3 and 25.5, A.4.1.1, A.2.9). Each `u32` is
//! the number of a token among the tree's tokens.

use crate::expressions::Expr;
use crate::names::Direction;
use sv_source::Items;

/// What a parameter of an instance is set to (IEEE 1800-2017 A.4.1.1 named_parameter_assignment and
/// ordered_parameter_assignment).
#[derive(Drop)]
pub enum Bind {
    /// `.name(value)`
    Named {
        /// The `.`.
        dot: u32,
        /// The parameter's name.
        name: u32,
        /// The `(`.
        opening: u32,
        /// The value or type, where there is one.
        value: Option<Expr>,
        /// The `)`.
        closing: u32,
    },
    /// A value or type in its place.
    Ordered(Expr),
}

/// What the parameters of one instantiation are set to, in order.
pub type Binds = Items<Bind>;

/// `#(binds)` (IEEE 1800-2017 A.4.1.1 parameter_value_assignment).
#[derive(Drop)]
pub struct ParameterBinds {
    /// The `#`.
    pub hash: u32,
    /// The `(`.
    pub opening: u32,
    /// What the parameters are set to.
    pub binds: Binds,
    /// The `)`.
    pub closing: u32,
}

/// What a port of an instance is connected to (IEEE 1800-2017 A.4.1.1 named_port_connection and ordered_port_connection).
#[derive(Drop)]
pub enum Connection {
    /// `.name`, connected to the signal of that name.
    Implicit {
        /// The `.`.
        dot: u32,
        /// The port's name.
        name: u32,
    },
    /// `.name(value)`
    Named {
        /// The `.`.
        dot: u32,
        /// The port's name.
        name: u32,
        /// The `(`.
        opening: u32,
        /// What it is connected to, if anything.
        value: Option<Expr>,
        /// The `)`.
        closing: u32,
    },
    /// `.*`, each further port connected to the signal of its name.
    All {
        /// The `.*`.
        mark: u32,
    },
    /// What the port in this place is connected to.
    Ordered(Expr),
}

/// The connections of an instance, in order.
pub type Connections = Items<Connection>;

/// An instance (IEEE 1800-2017 A.4.1.1 hierarchical_instance).
#[derive(Drop)]
pub struct Instance {
    /// The name.
    pub name: u32,
    /// The `(`.
    pub opening: u32,
    /// What its ports are connected to.
    pub connections: Connections,
    /// The `)`.
    pub closing: u32,
}

/// Instances of one module, in order.
pub type Instances = Items<Instance>;

/// Instances of one module or interface (IEEE 1800-2017 A.4.1.1 module_instantiation).
#[derive(Drop)]
pub struct Instantiation {
    /// The name of the module or interface.
    pub of: u32,
    /// What its parameters are set to.
    pub parameters: Option<ParameterBinds>,
    /// The instances, at least one.
    pub instances: Instances,
    /// The `;`.
    pub semicolon: u32,
}

/// A member that a modport lists (IEEE 1800-2017 A.2.9 modport_simple_ports_declaration).
#[derive(Clone, Copy)]
pub struct ModportPort {
    /// The direction. Without one that of the member before it counts.
    pub direction: Option<Direction>,
    /// The member's name.
    pub name: u32,
}

/// The members that a modport lists, in order.
pub type ModportPorts = Items<ModportPort>;

/// A modport (IEEE 1800-2017 A.2.9 modport_item).
#[derive(Drop)]
pub struct Modport {
    /// The name.
    pub name: u32,
    /// The `(`.
    pub opening: u32,
    /// The members, at least one.
    pub ports: ModportPorts,
    /// The `)`.
    pub closing: u32,
}

/// The modports of one declaration, in order.
pub type Modports = Items<Modport>;

/// Modports of an interface (IEEE 1800-2017 A.2.9 modport_declaration).
#[derive(Drop)]
pub struct ModportDeclaration {
    /// The word `modport`.
    pub keyword: u32,
    /// The modports, at least one.
    pub modports: Modports,
    /// The `;`.
    pub semicolon: u32,
}
