//! Functions and tasks (IEEE 1800-2017 clauses 13.3 and 13.4, A.2.6, A.2.7). Each `u32` is the number of a token among the tree's tokens.

use crate::expressions::Dimensions;
use crate::names::{Label, Lifetime};
use crate::ports::PortText;
use crate::statements::BlockItems;
use crate::types::TypeText;
use sv_source::Items;

/// The direction of a formal argument (IEEE 1800-2017 A.2.7 tf_port_direction), with its word.
#[derive(Clone, Copy)]
pub enum FormalDirection {
    /// `input`
    Input(u32),
    /// `output`
    Output(u32),
    /// `inout`
    Inout(u32),
}

/// A formal argument (IEEE 1800-2017 A.2.7 tf_port_item).
#[derive(Drop)]
pub struct Formal {
    /// The direction. Without one that of the argument before it counts.
    pub direction: Option<FormalDirection>,
    /// The argument's type and name.
    pub text: PortText,
}

/// The formal arguments of a function or a task, in order.
pub type Formals = Items<Formal>;

/// `(formals)` behind the name of a function or a task.
#[derive(Drop)]
pub struct FormalList {
    /// The `(`.
    pub opening: u32,
    /// The formal arguments.
    pub formals: Formals,
    /// The `)`.
    pub closing: u32,
}

/// What a function gives (IEEE 1800-2017 A.2.6 function_data_type_or_implicit).
#[derive(Drop)]
pub enum FunctionResult {
    /// No value.
    Void {
        /// The word `void`.
        keyword: u32,
    },
    /// A value of this type.
    Value(TypeText),
}

/// A function (IEEE 1800-2017 A.2.6 function_declaration).
#[derive(Drop)]
pub struct Function {
    /// The word `function`.
    pub keyword: u32,
    /// The lifetime, where it is written.
    pub lifetime: Option<Lifetime>,
    /// What it gives.
    pub of: FunctionResult,
    /// The name.
    pub name: u32,
    /// The dimensions behind a name that has no type before it.
    pub unpacked: Dimensions,
    /// The formal arguments.
    pub formals: Option<FormalList>,
    /// The `;`.
    pub semicolon: u32,
    /// The body.
    pub items: BlockItems,
    /// The word `endfunction`.
    pub end: u32,
    /// The name behind it.
    pub end_label: Option<Label>,
}

/// A task (IEEE 1800-2017 A.2.7 task_declaration).
#[derive(Drop)]
pub struct Task {
    /// The word `task`.
    pub keyword: u32,
    /// The lifetime, where it is written.
    pub lifetime: Option<Lifetime>,
    /// The name.
    pub name: u32,
    /// The formal arguments.
    pub formals: Option<FormalList>,
    /// The `;`.
    pub semicolon: u32,
    /// The body.
    pub items: BlockItems,
    /// The word `endtask`.
    pub end: u32,
    /// The name behind it.
    pub end_label: Option<Label>,
}
