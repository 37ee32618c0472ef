//! Elaborated designs (IEEE 1800-2017 clauses 6, 9, 23 and 25).

use crate::statement::{Functions, Stmt};
use crate::types::{SvType, Value};
use sv_source::{Items, Spot, Text};

/// Signals by number.
pub type Signals = Items<Signal>;

/// Processes in the order of the source.
pub type Processes = Items<Process>;

/// Instances in preorder, the top first; the top's number is 1.
pub type Instances = Items<Instance>;

/// Edges in the order of the source.
pub type EdgeList = Items<EdgeOn>;

/// Ports of an instance in the order of its header.
pub type InstancePorts = Items<InstancePort>;

/// Members of a modport in its order.
pub type LinkedMembers = Items<LinkedMember>;

/// What kind of signal a declaration makes (clauses 6.5 and 23.2.2.3).
#[derive(Clone, Copy, PartialEq, Eq, Debug)]
pub enum SignalKind {
    /// A net that is an input port.
    InputNet,
    /// A variable that is an input port.
    InputVar,
    /// A net that is an output port.
    OutputNet,
    /// A variable that is an output port.
    OutputVar,
    /// A net inside an instance.
    Net,
    /// A variable inside an instance.
    Variable,
}

/// A signal of an instance.
#[derive(Drop)]
pub struct Signal {
    /// The number of the instance.
    pub instance: u32,
    /// Its path inside the instance.
    pub path: Text,
    /// Its type.
    pub of: SvType,
    /// What kind of signal it is.
    pub kind: SignalKind,
    /// What it holds before the first row: a declared value, else the default of its type.
    pub initial: Value,
    /// Whether it is a variable with a declared value.
    pub declared: bool,
    /// Its name in the declaration.
    pub spot: Spot,
}

/// An edge that a process waits for (clause 9.4.2).
#[derive(Drop)]
pub struct EdgeOn {
    /// The number of the signal, which has one bit.
    pub signal: u32,
    /// Whether it is `posedge`; else it is `negedge`.
    pub rising: bool,
    /// Its name in the list.
    pub spot: Spot,
}

/// What starts a process.
#[derive(Drop)]
pub enum ProcessKind {
    /// A continuous assignment (clause 10.3).
    Continuous,
    /// A port connection (clause 23.3.3), to or from the port that is the signal with this number.
    Link(u32),
    /// `always_comb` (clause 9.2.2.2).
    Comb,
    /// `always_latch` (clause 9.2.2.3).
    Latch,
    /// `always @*` (clause 9.4.2.2).
    Star,
    /// `always_ff`, or `always` with edges (clauses 9.2.2.4 and 9.4.2).
    Edges(EdgeList),
}

/// A process.
#[derive(Drop)]
pub struct Process {
    /// The number of the instance in whose text it stands.
    pub instance: u32,
    /// What starts it.
    pub kind: ProcessKind,
    /// What it runs.
    pub body: Stmt,
    /// Its first token.
    pub spot: Spot,
}

/// A port of an instance.
#[derive(Drop)]
pub enum InstancePort {
    /// The signal with this number.
    Signal(u32),
    /// An interface port (clause 25.5).
    Interface {
        /// Its name.
        name: Text,
        /// The number of the interface's instance.
        instance: u32,
        /// The members of its modport.
        members: LinkedMembers,
    },
}

/// A member that an interface port lets through.
#[derive(Drop)]
pub struct LinkedMember {
    /// Its name.
    pub name: Text,
    /// The number of the signal.
    pub signal: u32,
    /// Whether the modport lists it as output.
    pub output: bool,
}

/// An instance of a module or interface (clause 23.3).
#[derive(Drop)]
pub struct Instance {
    /// The number of the instance that holds it.
    pub parent: u32,
    /// Its path inside that instance.
    pub name: Text,
    /// The name of its module.
    pub module: Text,
    /// The number of its binding among those of its module.
    pub binding: u32,
    /// Whether it is an interface.
    pub interface: bool,
    /// Its ports.
    pub ports: InstancePorts,
}

/// An elaborated design.
#[derive(Drop)]
pub struct Design {
    /// Its instances.
    pub instances: Instances,
    /// Its signals.
    pub signals: Signals,
    /// Its processes.
    pub processes: Processes,
    /// Its functions and tasks.
    pub functions: Functions,
}
