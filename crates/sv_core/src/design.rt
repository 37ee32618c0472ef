//! Elaborated designs: signals, and the processes that drive them.

use b4_core::{BinOp, Vec4};
use sv_source::{Boxed, Items, Text};

/// What kind of signal a declaration makes (IEEE 1800-2017 clauses 6.5 and 23.2.2.3).
#[derive(Clone, Copy, PartialEq, Eq)]
pub enum SignalKind {
    /// A net that is an input port.
    InputNet,
    /// A variable that is an output port.
    OutputVar,
    /// A variable inside the module.
    Variable,
}

/// A signal of a four-state unsigned vector type.
#[derive(Drop)]
pub struct Signal {
    /// The name inside its module.
    pub path: Text,
    /// The number of bits, from 1 to 65,536.
    pub width: u32,
    /// What kind of signal it is.
    pub kind: SignalKind,
}

/// What an operator is applied to.
#[derive(Drop)]
pub enum Primary {
    /// The signal with this number.
    Signal(u32),
    /// A literal, its bits least first.
    Literal(Vec4),
}

/// A primary, or its bitwise negation.
#[derive(Drop)]
pub struct Operand {
    /// Whether the primary's bits are negated.
    pub inverted: bool,
    /// The primary.
    pub primary: Primary,
}

/// A typed expression.
#[derive(Drop)]
pub enum Expr {
    /// An operand alone.
    Single(Operand),
    /// A bitwise operator between two operands.
    Binary {
        /// The operator.
        op: BinOp,
        /// Its left operand.
        left: Operand,
        /// Its right operand.
        right: Operand,
    },
}

/// Statements in order.
pub type Stmts = Items<Stmt>;

/// A statement.
#[cycle(statement)]
#[derive(Drop)]
pub enum Stmt {
    /// The statements of a block, in order (clause 9.3.1).
    Block(Stmts),
    /// `if` (clause 12.4)
    If {
        /// The condition.
        on: Expr,
        /// What runs where the condition is true.
        body: Boxed<Stmt>,
        /// What runs where it is false or unknown, if there is an `else`.
        other: Option<Boxed<Stmt>>,
    },
    /// An assignment to a whole signal (clause 10.4).
    Assign {
        /// The number of the signal.
        to: u32,
        /// The value.
        value: Expr,
        /// Whether the assignment is nonblocking.
        later: bool,
    },
}

/// An edge that an edge process waits for (clause 9.4.2).
#[derive(Drop)]
pub struct EdgeOn {
    /// The number of the signal, which has one bit.
    pub signal: u32,
    /// Whether it is `posedge`; else it is `negedge`.
    pub rising: bool,
}

/// Edges in the order of the source.
pub type EdgeList = Items<EdgeOn>;

/// What starts a process.
#[derive(Drop)]
pub enum ProcessKind {
    /// A continuous assignment (clause 10.3).
    Continuous,
    /// `always_comb` (clause 9.2.2.2)
    Comb,
    /// `always_ff` (clause 9.2.2.4)
    Edges(EdgeList),
}

/// A process.
#[derive(Drop)]
pub struct Process {
    /// What starts it.
    pub kind: ProcessKind,
    /// What it runs; for a continuous assignment a blocking assignment to the signal that it drives.
    pub body: Stmt,
}

/// Signals by number.
pub type Signals = Items<Signal>;

/// Processes in the order of the source.
pub type Processes = Items<Process>;

/// The elaborated design of one module.
#[derive(Drop)]
pub struct Design {
    /// The name of the top module.
    pub top: Text,
    /// The top's ports in order, and then its variables in order.
    pub signals: Signals,
    /// The processes in order.
    pub processes: Processes,
}
