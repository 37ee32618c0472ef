//! Elaborated designs: typed signals and processes, and in `specs/` their meaning as machines over rows.
#![tactic(auto)]

mod design;

pub use design::{
    Design, EdgeList, EdgeOn, Expr, Operand, Primary, Process, ProcessKind, Processes, Signal,
    SignalKind, Signals, Stmt, Stmts,
};
