//! Statements (IEEE 1364-2005 clause 9 and A.6).

use crate::expressions::{VExpr, VExprs, VSels};
use crate::items::VLocals;
use sv_source::{Boxed, Items, Text};

/// Statements in the order of the text.
pub type VStmts = Items<VStmt>;

/// Targets in the order of the text.
pub type VLvals = Items<VLval>;

/// The items of a `case` in the order of the text.
pub type VCaseItems = Items<VCaseItem>;

/// What is assigned to (IEEE 1364-2005 A.8.5 net_lvalue and variable_lvalue).
#[cycle(target)]
#[derive(Drop)]
pub enum VLval {
    /// A name with at most two selects.
    Name {
        /// The name.
        name: Text,
        /// The selects.
        sels: VSels,
    },
    /// `{parts}`, at least one part, the first most significant.
    Concat(VLvals),
}

/// How the items of a `case` are compared (IEEE 1364-2005 clause 9.5).
#[derive(Clone, Copy)]
pub enum VCaseKind {
    /// `case`, exactly.
    Plain,
    /// `casez`, without the bits that are z on either side.
    Z,
    /// `casex`, without the bits that are x or z on either side.
    X,
}

/// The name of a block, and the variables that it declares (IEEE 1364-2005 clause 9.8.3).
#[derive(Drop)]
pub struct VLabel {
    /// The name.
    pub name: Text,
    /// The variables.
    pub locals: VLocals,
}

/// What an `if`, an `else`, an item of a `case` or an `always` governs (IEEE 1364-2005 A.6.4 statement_or_null).
#[cycle(statement)]
#[derive(Drop)]
pub enum VBranch {
    /// A statement.
    Statement(Boxed<VStmt>),
    /// `;`
    Empty,
}

/// An item of a `case` (IEEE 1364-2005 A.6.7 case_item).
#[cycle(statement)]
#[derive(Drop)]
pub enum VCaseItem {
    /// `values: body`
    Item {
        /// The values, at least one.
        values: VExprs,
        /// What runs where one of them matches first.
        body: VBranch,
    },
    /// `default: body`
    Default(VBranch),
}

/// A statement (IEEE 1364-2005 A.6.4 statement).
#[cycle(statement)]
#[derive(Drop)]
pub enum VStmt {
    /// `begin .. end`
    Block {
        /// The name, where there is one.
        label: Option<VLabel>,
        /// The statements.
        stmts: VStmts,
    },
    /// `if (on) then`, and perhaps `else other`
    If {
        /// The condition.
        on: VExpr,
        /// What runs where the condition is true.
        then: VBranch,
        /// What runs where it is false or unknown, if there is an `else`.
        other: Option<VBranch>,
    },
    /// `case (on) items endcase`
    Case {
        /// How the items are compared.
        kind: VCaseKind,
        /// The selector.
        on: VExpr,
        /// The items, at least one, and at most one of them a `default`.
        items: VCaseItems,
    },
    /// `target = value;` or `target <= value;`
    Assign {
        /// What is assigned to.
        target: VLval,
        /// The value.
        value: VExpr,
        /// Whether the assignment is nonblocking.
        later: bool,
    },
}
