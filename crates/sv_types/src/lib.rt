//! The elaborated language: types, values, typed expressions, statements and designs, and in `specs/` what they mean.
#![tactic(auto)]

mod convert;
mod design;
mod expression;
mod frame;
mod laws;
mod statement;
mod types;

pub use convert::{MOST_BITS, bits_of, default_of, is_narrow, of_bits, store, width};
pub use design::{
    Design, EdgeList, EdgeOn, Instance, InstancePort, InstancePorts, Instances, LinkedMember,
    LinkedMembers, Process, ProcessKind, Processes, Signal, SignalKind, Signals,
};
pub use expression::{Choice, Choices, Expr, Exprs, Form};
pub use frame::{
    Binding, Frame, ParamType, ParamTypes, ParamValue, ParamValues, PortBinding, PortBindings,
    SignalId, SignalIds,
};
pub use laws::{
    element_is_read, element_is_written, member_is_read, member_is_written, others_are_kept,
    outside_is_unknown, whole_is_read,
};
pub use statement::{
    CaseItem, CaseItems, CaseKind, Formal, Formals, Function, FunctionKind, Functions, Local,
    Locals, Outcome, Spots, Stmt, Stmts, Way,
};
pub use sv_source::{Items, Text, Token};
pub use types::{EnumName, EnumNames, Member, Members, SvType, Value, Values};
