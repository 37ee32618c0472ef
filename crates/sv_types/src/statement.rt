//! Typed statements and functions (IEEE 1800-2017 clauses 10, 12 and 13).

use crate::expression::{Expr, Exprs};
use crate::types::SvType;
use sv_source::{Boxed, Items, Spot, Text};

/// Statements in order.
pub type Stmts = Items<Stmt>;

/// Items of a `case`, in order.
pub type CaseItems = Items<CaseItem>;

/// Locals in the order of their declarations.
pub type Locals = Items<Local>;

/// Formals in the order of the declaration.
pub type Formals = Items<Formal>;

/// Places of things, in order.
pub type Spots = Items<Spot>;

/// Functions by place.
pub type Functions = Items<Function>;

/// A statement. An empty one is an empty block.
#[derive(Drop)]
#[cycle(statement)]
pub enum Stmt {
    /// A block (clause 9.3.1).
    Block {
        /// Its locals.
        locals: Locals,
        /// Its statements.
        body: Stmts,
    },
    /// `if` (clause 12.4).
    If {
        /// The condition.
        on: Expr,
        /// What runs where it is true.
        body: Boxed<Stmt>,
        /// What runs where it is false or unknown.
        other: Option<Boxed<Stmt>>,
    },
    /// `case`, `casez` or `casex` (clause 12.5).
    Case {
        /// Which one.
        kind: CaseKind,
        /// The selector.
        on: Expr,
        /// The items.
        items: CaseItems,
        /// What stands at `default`.
        other: Option<Boxed<Stmt>>,
    },
    /// `for` with a variable of its own (clause 12.7.1).
    Loop {
        /// The number of the variable.
        local: u32,
        /// Its first value, of the variable's type.
        first: Expr,
        /// Whether another turn is made.
        test: Expr,
        /// Its value in the next turn, which is assigned to it.
        step: Expr,
        /// What a turn runs.
        body: Boxed<Stmt>,
        /// The `for`.
        spot: Spot,
    },
    /// An assignment (clauses 10.4 and 10.7).
    Assign {
        /// The parts of the target, the first one most significant.
        to: Exprs,
        /// The value.
        value: Expr,
        /// Whether it is nonblocking.
        later: bool,
        /// The operator.
        spot: Spot,
    },
    /// A call of a task or void function (clauses 13.3 and 13.4.1).
    Call {
        /// The place of the routine in the list of functions.
        function: u32,
        /// The actuals in the order of the formals.
        actuals: Exprs,
        /// The routine's name in the call.
        spot: Spot,
    },
    /// What stands for a call that was replaced: a block with these locals that holds `before` and then `body`.
    Made {
        /// Its locals.
        locals: Locals,
        /// What runs first.
        before: Stmts,
        /// What runs then.
        body: Option<Boxed<Stmt>>,
    },
    /// `break` (clause 12.8).
    Break,
    /// `continue` (clause 12.8).
    Continue,
    /// `return` (clause 12.8). The value, if there is one, was assigned to local 0 before.
    Return,
}

/// An item of a `case`.
#[derive(Drop)]
#[cycle(statement)]
pub struct CaseItem {
    /// The values that it stands for.
    pub values: Exprs,
    /// What runs.
    pub body: Stmt,
}

/// How a `case` compares (clause 12.5.1).
#[derive(Clone, Copy, PartialEq, Eq, Debug)]
pub enum CaseKind {
    /// `case`, exactly.
    Plain,
    /// `casez`: z of either side stands for any bit.
    Z,
    /// `casex`: x and z of either side stand for any bit.
    X,
}

/// A local variable.
pub struct Local {
    /// Its number in its process or function.
    pub number: u32,
    /// Its type.
    pub of: SvType,
    /// The value with which it starts each time, in place of its type's default.
    pub initial: Option<Expr>,
}

impl Drop for Local {
    fn drop(self) {
        let Local {
            number: _,
            of: _,
            initial: _,
        } = self;
    }
}

/// Which way a formal passes its value (clause 13.5).
#[derive(Clone, Copy, PartialEq, Eq, Debug)]
pub enum Way {
    /// `input`
    Input,
    /// `output`
    Output,
    /// `inout`
    Inout,
}

/// A formal of a function or task.
pub struct Formal {
    /// The local that it is in the body.
    pub local: Local,
    /// Which way it passes its value.
    pub way: Way,
    /// Its name in the declaration.
    pub spot: Spot,
}

impl Drop for Formal {
    fn drop(self) {
        let Formal {
            local: _,
            way: _,
            spot: _,
        } = self;
    }
}

/// How the run of a statement ends (clause 12.8).
#[derive(Clone, Copy, PartialEq, Eq, Debug)]
pub enum Outcome {
    /// At its end.
    Normal,
    /// By a `break`.
    Break,
    /// By a `continue`.
    Continue,
    /// By a `return`.
    Return,
}

/// What a function was in the source.
pub enum FunctionKind {
    /// A function with a result.
    Plain,
    /// A task or void function. Its type is one bit of which no rule speaks.
    Routine,
    /// A function that was made of a routine, with the formal's place for each member of its result; none where the result
    /// is one bit.
    Made(Spots),
}

impl Drop for FunctionKind {
    fn drop(self) {
        match self {
            FunctionKind::Plain => {}
            FunctionKind::Routine => {}
            FunctionKind::Made(_) => {}
        }
    }
}

/// A function or task (clause 13). Its result is its local 0.
#[derive(Drop)]
pub struct Function {
    /// The number of the instance in whose text it stands.
    pub instance: u32,
    /// Its path inside the instance.
    pub path: Text,
    /// Its name in the declaration.
    pub spot: Spot,
    /// What it was in the source.
    pub kind: FunctionKind,
    /// The type of its result.
    pub of: SvType,
    /// Its formals.
    pub formals: Formals,
    /// What it runs.
    pub body: Stmt,
}
