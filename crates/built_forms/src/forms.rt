//! The trees of the forms that are built: one module of variables, continuous assignments and processes.

use b4_core::BinOp;
use sv_source::{Boxed, Items, Spot};

/// The direction of a port (IEEE 1800-2017 clause 23.2.2).
#[derive(Clone, Copy, PartialEq, Eq)]
pub enum Direction {
    /// `input`
    Input,
    /// `output`
    Output,
}

/// A packed dimension `[left:right]` (IEEE 1800-2017 clause 7.4.1), each bound a decimal number.
#[derive(Drop)]
pub struct Range {
    /// The bound of the most significant bit.
    pub left: Spot,
    /// The bound of the least significant bit.
    pub right: Spot,
}

/// What stands before the name of a port that has a direction of its own.
#[derive(Drop)]
pub struct PortHead {
    /// The written direction.
    pub direction: Direction,
    /// The packed dimension of the `logic` type, if it has one.
    pub range: Option<Range>,
}

/// A port of an ANSI header. One without a head takes direction and type of the port before it.
#[derive(Drop)]
pub struct Port {
    /// Direction and type, where they are written.
    pub head: Option<PortHead>,
    /// The port's name.
    pub name: Spot,
}

/// What an operator is applied to.
#[derive(Drop)]
pub enum Primary {
    /// A name.
    Name(Spot),
    /// A sized literal: its size and its digits with their base.
    Literal {
        /// The size.
        size: Spot,
        /// The base and the digits.
        digits: Spot,
    },
}

/// A primary, or its bitwise negation.
#[derive(Drop)]
pub struct Operand {
    /// Whether `~` stands before the primary.
    pub inverted: bool,
    /// What stands behind it.
    pub primary: Primary,
}

/// An expression of one or two operands.
#[derive(Drop)]
pub enum Expr {
    /// An operand alone.
    Single(Operand),
    /// A bitwise operator between two operands.
    Binary {
        /// The operator: and, or, exclusive or.
        op: BinOp,
        /// The operand before the operator.
        left: Operand,
        /// The operand behind it.
        right: Operand,
    },
}

/// An assignment to a whole signal (IEEE 1800-2017 clause 10.4).
#[derive(Drop)]
pub struct Assign {
    /// The name that is assigned to.
    pub target: Spot,
    /// The value.
    pub value: Expr,
}

/// Statements in order.
pub type Stmts = Items<Stmt>;

/// A statement of a process (clause 9.3.1 and A.6.4). Whether its assignments are blocking is the process's to say.
#[cycle(statement)]
#[derive(Drop)]
pub enum Stmt {
    /// `begin .. end`
    Block(Stmts),
    /// `if`
    If {
        /// The condition.
        on: Expr,
        /// The statement behind it.
        body: Boxed<Stmt>,
        /// The statement behind `else`, if there is one.
        other: Option<Boxed<Stmt>>,
    },
    /// An assignment.
    Assign(Assign),
}

/// The declaration of a variable (clause 6.8).
#[derive(Drop)]
pub struct Declaration {
    /// The packed dimension of the `logic` type, if it has one.
    pub range: Option<Range>,
    /// The variable's name.
    pub name: Spot,
}

/// An item of a module's body.
#[derive(Drop)]
pub enum Item {
    /// `assign` (clause 10.3.2)
    Assign(Assign),
    /// `logic`
    Logic(Declaration),
    /// `always_comb` (clause 9.2.2.2)
    Comb(Stmt),
    /// `always_ff @(posedge clock)` (clause 9.2.2.4)
    Edge {
        /// The name of the clock.
        clock: Spot,
        /// What it runs.
        body: Stmt,
    },
}

/// The ports of a header, in order.
pub type Ports = Items<Port>;

/// The items of a body, in order.
pub type ModuleItems = Items<Item>;

/// A module.
#[derive(Drop)]
pub struct Module {
    /// The module's name.
    pub name: Spot,
    /// Its ports, in the order of the header.
    pub ports: Ports,
    /// The items of its body, in order.
    pub items: ModuleItems,
}
