//! The kinds of parts.

mod expressions;
mod items;
mod statements;
mod tokens;

pub use expressions::{
    Args, Arms, BinaryOp, Expr, Extent, Lval, Prim, Right, Sel, Sels, Sign, UnaryOp,
};
pub use items::{
    Connection, Connections, Edge, Event, Initial, Input, Item, Module, Ports, Range, RegRest,
};
pub use statements::{Branch, CaseItem, CaseItems, CaseKind, Else, Label, Later, Local, Stmt};
pub use tokens::{Decimal, Name, Number, Something};
