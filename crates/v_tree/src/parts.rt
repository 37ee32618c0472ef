//! What the parts of a text mean, from its tokens up to the whole.

use crate::expressions::{VExpr, VExprs, VExtent, VPrim, VSel, VSels};
use crate::items::{
    Texts, VConnection, VConnections, VEdge, VInit, VItem, VLocal, VModule, VModules, VRegRest,
    VSensitivity,
};
use crate::operators::{VBinaryOp, VUnaryOp};
use crate::statements::{VBranch, VCaseItem, VCaseItems, VCaseKind, VLabel, VLval, VStmt};
use b4_core::Vec4;
use sv_source::{Items, Text};

/// What a part of a text means: a token, or what a row of the grammar reads.
#[derive(Drop)]
pub enum VPart {
    /// A mark or a word, which says nothing by itself.
    Nothing,
    /// A name.
    Name(Text),
    /// A sized binary number, its bits least first.
    Number(Vec4),
    /// A decimal number.
    Decimal(u32),
    /// The names of a port list.
    Ports(Texts),
    /// The left bound of a range.
    Range(u32),
    /// A declared initial value.
    Initial(VInit),
    /// What stands behind the name of a `reg`.
    RegRest(VRegRest),
    /// An input of a function.
    Input(VLocal),
    /// A variable of a function or a block.
    Local(VLocal),
    /// An edge.
    Edge(VEdge),
    /// What an `always` waits for.
    Event(VSensitivity),
    /// A connection.
    Connection(VConnection),
    /// The connections of an instance.
    Connections(VConnections),
    /// The name of a block with its variables.
    Label(VLabel),
    /// A statement.
    Stmt(VStmt),
    /// What another statement governs.
    Branch(VBranch),
    /// What stands behind an `else`.
    Else(VBranch),
    /// The word of a `case`.
    CaseKind(VCaseKind),
    /// An item of a `case`.
    CaseItem(VCaseItem),
    /// Items of a `case`.
    CaseItems(VCaseItems),
    /// The mark of an assignment: whether it is nonblocking.
    Later(bool),
    /// A target.
    Lval(VLval),
    /// A select.
    Sel(VSel),
    /// The selects behind a name.
    Sels(VSels),
    /// What stands behind the base of a select.
    Extent(VExtent),
    /// An expression.
    Expr(VExpr),
    /// An operand.
    Prim(VPrim),
    /// A binary operator.
    BinaryOp(VBinaryOp),
    /// A unary operator.
    UnaryOp(VUnaryOp),
    /// A binary operator and its right operand.
    Right(VBinaryOp, VPrim),
    /// The two values of `? :`.
    Arms(VPrim, VPrim),
    /// The arguments of a call.
    Args(VExprs),
    /// The word `$signed` or `$unsigned`: whether it is the former.
    Sign(bool),
    /// An item of a module.
    Item(VItem),
    /// A module.
    Module(VModule),
    /// A whole text.
    Text(VModules),
}

/// What parts that stand one behind the other mean.
pub type VParts = Items<VPart>;
