//! The forms of the source language that are built, and which trees have no others.
#![tactic(auto)]

mod expressions;
mod forms;
mod items;
mod ports;
mod statements;
mod types;
mod units;
mod words;

pub use forms::{
    Assign, Declaration, Direction, Expr, Item, Module, ModuleItems, Operand, Port, PortHead,
    Ports, Primary, Range, Stmt, Stmts,
};
pub use units::built;
