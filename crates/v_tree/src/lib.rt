//! The target language (IEEE 1364-2005): its trees, and in `specs/` what a text of it reads as.
#![tactic(auto)]

mod expressions;
mod grammar_text;
mod items;
mod names;
mod operators;
mod parts;
mod plain;
mod reader;
mod reading;
mod reserved;
mod statements;

pub use expressions::{VExpr, VExprs, VExtent, VPrim, VSel, VSels};
pub use items::{
    Texts, VConnection, VConnections, VDesign, VEdge, VEdges, VFunction, VInit, VInitial,
    VInstance, VItem, VItems, VLocal, VLocals, VModule, VModules, VNumbers, VProcess, VRegRest,
    VSensitivity, VSignal,
};
pub use names::{
    FunctionName, FunctionNames, Helper, HelperKind, LocalName, LocalNames, NameMap, Names,
    SignalName, SignalNames, helper_name, helper_names_differ, print_name,
};
pub use operators::{VBinaryOp, VUnaryOp};
pub use parts::{VPart, VParts};
pub use plain::print_names;
pub use reader::grammar;
pub use reading::reads_once;
pub use reserved::{is_reserved, is_simple};
pub use statements::{
    VBranch, VCaseItem, VCaseItems, VCaseKind, VLabel, VLval, VLvals, VStmt, VStmts,
};
