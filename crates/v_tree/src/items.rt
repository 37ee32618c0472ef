//! Modules and their items (IEEE 1364-2005 clauses 4, 6, 10 and 12, A.1 and A.2).

use crate::expressions::VExpr;
use crate::statements::{VBranch, VLval, VStmt};
use b4_core::Vec4;
use sv_source::{Items, Text};

/// Texts, in order.
pub type Texts = Items<Text>;

/// Sized binary numbers in the order of the text, the bits of each least first.
pub type VNumbers = Items<Vec4>;

/// A declared initial value (IEEE 1364-2005 clause 6.2.1).
#[derive(Drop)]
pub enum VInit {
    /// A number, its bits least first.
    Number(Vec4),
    /// `{numbers}`, at least one number, the first most significant.
    Concat(VNumbers),
}

/// What may stand behind the name of a `reg`.
#[derive(Drop)]
pub enum VRegRest {
    /// `[left:0]`: the `reg` is a memory of left + 1 words (IEEE 1364-2005 clause 4.9).
    Memory(u32),
    /// `= value`
    Initial(VInit),
}

/// The declaration of a signal. A range is `[left:0]`, and its left bound is kept; a signal without one has one bit
/// (IEEE 1364-2005 clause 4.3).
#[derive(Drop)]
pub enum VSignal {
    /// `input [left:0] name;`
    Input {
        /// The left bound of the range, if there is one.
        range: Option<u32>,
        /// The name.
        name: Text,
    },
    /// `output [left:0] name;`
    Output {
        /// The left bound of the range, if there is one.
        range: Option<u32>,
        /// The name.
        name: Text,
    },
    /// `output reg [left:0] name = initial;`
    OutputReg {
        /// The left bound of the range, if there is one.
        range: Option<u32>,
        /// The name.
        name: Text,
        /// The declared initial value, if there is one.
        initial: Option<VInit>,
    },
    /// `wire [left:0] name;`
    Wire {
        /// The left bound of the range, if there is one.
        range: Option<u32>,
        /// The name.
        name: Text,
    },
    /// `reg [left:0] name rest;`
    Reg {
        /// The left bound of the range, if there is one.
        range: Option<u32>,
        /// The name.
        name: Text,
        /// The range of a memory or the declared initial value, if one of them is there.
        rest: Option<VRegRest>,
    },
}

/// `initial name <= value;`
#[derive(Drop)]
pub struct VInitial {
    /// The name of the `reg`.
    pub name: Text,
    /// The value that it gets at time zero, its bits least first.
    pub value: Vec4,
}

/// An edge of an event control (IEEE 1364-2005 A.6.5).
#[derive(Drop)]
pub struct VEdge {
    /// Whether it is `posedge`; else it is `negedge`.
    pub rising: bool,
    /// The name of the signal.
    pub name: Text,
}

/// Edges in the order of the text.
pub type VEdges = Items<VEdge>;

/// What an `always` waits for (IEEE 1364-2005 clause 9.7).
#[derive(Drop)]
pub enum VSensitivity {
    /// `@*`
    Star,
    /// `@(edge or edge ..)`, with one edge at least.
    Edges(VEdges),
}

/// A process (IEEE 1364-2005 clauses 6.1 and 9.9).
#[derive(Drop)]
pub enum VProcess {
    /// `assign target = value;`
    Assign {
        /// What is driven.
        target: VLval,
        /// The expression that drives it.
        value: VExpr,
    },
    /// `always @.. body`
    Always {
        /// What it waits for.
        on: VSensitivity,
        /// What it runs.
        body: VBranch,
    },
}

/// An input or a variable of a function, or a variable of a block: `[left:0] name`.
#[derive(Drop)]
pub struct VLocal {
    /// The left bound of the range, if there is one.
    pub range: Option<u32>,
    /// The name.
    pub name: Text,
}

/// Inputs or variables in the order of the text.
pub type VLocals = Items<VLocal>;

/// A function (IEEE 1364-2005 clause 10.4). Its name holds its result in its body.
#[derive(Drop)]
pub struct VFunction {
    /// The left bound of the result's range, if there is one.
    pub range: Option<u32>,
    /// The name.
    pub name: Text,
    /// The inputs, at least one.
    pub inputs: VLocals,
    /// The variables.
    pub locals: VLocals,
    /// The body.
    pub body: VStmt,
}

/// A connection of a port (IEEE 1364-2005 clause 12.3.6): `.port(value)`.
#[derive(Drop)]
pub struct VConnection {
    /// The port's name.
    pub port: Text,
    /// What it is connected to; nothing leaves it open.
    pub value: Option<VExpr>,
}

/// Connections in the order of the text.
pub type VConnections = Items<VConnection>;

/// An instance of a module (IEEE 1364-2005 clause 12.1.2).
#[derive(Drop)]
pub struct VInstance {
    /// The module's name.
    pub of: Text,
    /// The instance's name.
    pub name: Text,
    /// The connections of its ports.
    pub connections: VConnections,
}

/// An item of a module (IEEE 1364-2005 A.1.4).
#[derive(Drop)]
pub enum VItem {
    /// The declaration of a signal.
    Signal(VSignal),
    /// The value of a `reg` at time zero.
    Initial(VInitial),
    /// A process.
    Process(VProcess),
    /// A function.
    Function(VFunction),
    /// An instance of a module.
    Instance(VInstance),
}

/// Items in the order of the text.
pub type VItems = Items<VItem>;

/// A module (IEEE 1364-2005 clause 12.1).
#[derive(Drop)]
pub struct VModule {
    /// Its name.
    pub name: Text,
    /// The names of the port list; without a port list there are none.
    pub ports: Texts,
    /// Its items.
    pub items: VItems,
}

/// Modules in the order of the text.
pub type VModules = Items<VModule>;

/// A whole text.
#[derive(Drop)]
pub struct VDesign {
    /// Its modules.
    pub modules: VModules,
}
