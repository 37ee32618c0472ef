//! What the names of a text stand for while it is elaborated (IEEE 1800-2017 clauses 6.20, 23.10, 25 and 27).

use crate::statement::Functions;
use crate::types::{SvType, Value};
use sv_source::{Boxed, Items, Text};

/// Values of parameters and genvars.
pub type ParamValues = Items<ParamValue>;

/// Types of type parameters.
pub type ParamTypes = Items<ParamType>;

/// Signals that names stand for.
pub type SignalIds = Items<SignalId>;

/// Interfaces that are bound to ports.
pub type PortBindings = Items<PortBinding>;

/// The value of a parameter.
pub struct ParamValue {
    /// The number of the declaration.
    pub decl: u32,
    /// Its type.
    pub of: SvType,
    /// Its value.
    pub value: Value,
}

impl Drop for ParamValue {
    fn drop(self) {
        let ParamValue {
            decl: _,
            of: _,
            value: _,
        } = self;
    }
}

/// The type of a type parameter.
pub struct ParamType {
    /// The number of the declaration.
    pub decl: u32,
    /// The type.
    pub of: SvType,
}

impl Drop for ParamType {
    fn drop(self) {
        let ParamType { decl: _, of: _ } = self;
    }
}

/// The signal that a name stands for.
pub struct SignalId {
    /// The number of the declaration.
    pub decl: u32,
    /// The member's name where it is a member of an interface, else empty.
    pub member: Text,
    /// The number of the signal.
    pub signal: u32,
    /// Its type.
    pub of: SvType,
    /// Whether the modport of an interface port lists the member as input.
    pub input: bool,
}

impl Drop for SignalId {
    fn drop(self) {
        let SignalId {
            decl: _,
            member: _,
            signal: _,
            of: _,
            input: _,
        } = self;
    }
}

/// The text of an instance or a generate block, and what is known in it.
#[derive(Drop)]
pub struct Frame {
    /// The number of the instance.
    pub instance: u32,
    /// The path of the block inside the instance.
    pub path: Text,
    /// The number of the scope.
    pub scope: u32,
    /// Values of parameters and genvars.
    pub values: ParamValues,
    /// Types of type parameters.
    pub types: ParamTypes,
    /// Signals by name.
    pub signals: SignalIds,
    /// All functions that this elaboration has got so far.
    pub functions: Functions,
}

/// What tells two instances of a module apart: parameters, and the bindings of interface ports.
#[derive(Drop)]
#[cycle(binding)]
pub struct Binding {
    /// The number of the module's declaration.
    pub module: u32,
    /// Values of its parameters.
    pub values: ParamValues,
    /// Types of its type parameters.
    pub types: ParamTypes,
    /// The bindings of its interface ports.
    pub ports: PortBindings,
}

/// The interface that is bound to a port.
#[derive(Drop)]
#[cycle(binding)]
pub struct PortBinding {
    /// The number of the port's declaration.
    pub port: u32,
    /// The binding of the interface.
    pub interface: Boxed<Binding>,
    /// The modport's name, empty where none is known.
    pub modport: Text,
}
