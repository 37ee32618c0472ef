//! Statements and the declarations of blocks (IEEE 1800-2017 clauses 10, 12 and 13, A.2.8, A.6). Each `u32` is the number of
//! a token among the tree's tokens.

use crate::declarations::{Declarators, ParameterDeclaration};
use crate::expressions::{Expr, Exprs, Selects, SliceSize};
use crate::names::{Label, QualifiedName};
use crate::operators::{AssignmentOperator, StepOperator, StreamOperator};
use crate::types::TypeText;
use sv_source::{Boxed, Items};

/// What is assigned (IEEE 1800-2017 A.8.5 variable_lvalue and net_lvalue).
#[derive(Drop)]
#[cycle(lvalue)]
pub enum Lvalue {
    /// A name and its selects.
    Name {
        /// The name.
        name: u32,
        /// The selects behind it.
        selects: Selects,
    },
    /// `{targets}`
    Concatenation {
        /// The `{`.
        opening: u32,
        /// The targets, at least one, the most significant first.
        targets: Lvalues,
        /// The `}`.
        closing: u32,
    },
    /// `{<<size{targets}}` or `{>>size{targets}}` (IEEE 1800-2017 A.8.1 streaming_concatenation).
    Stream {
        /// The outer `{`.
        opening: u32,
        /// The order of the slices.
        operator: StreamOperator,
        /// The operator's token.
        at: u32,
        /// The size of a slice, where it is written.
        size: Option<SliceSize>,
        /// The inner `{`.
        inner_opening: u32,
        /// The targets, at least one.
        targets: Lvalues,
        /// The inner `}`.
        inner_closing: u32,
        /// The outer `}`.
        closing: u32,
    },
}

/// Targets of an assignment, in order.
pub type Lvalues = Items<Lvalue>;

/// The variable of a loop, with its first value (IEEE 1800-2017 A.6.8 for_initialization).
#[derive(Drop)]
pub struct LoopStart {
    /// The variable's type.
    pub of: TypeText,
    /// Its name.
    pub name: u32,
    /// The `=`.
    pub equals: u32,
    /// The first value.
    pub value: Expr,
}

/// What a loop does behind each turn (IEEE 1800-2017 A.6.8 for_step).
#[derive(Drop)]
pub enum LoopStep {
    /// `name = value`, or with another operator.
    Assign {
        /// The name.
        name: u32,
        /// The operator.
        operator: AssignmentOperator,
        /// The operator's token.
        at: u32,
        /// The value.
        value: Expr,
    },
    /// `name++` or `name--`
    Postfix {
        /// The name.
        name: u32,
        /// The operator.
        operator: StepOperator,
        /// The operator's token.
        at: u32,
    },
    /// `++name` or `--name`
    Prefix {
        /// The operator.
        operator: StepOperator,
        /// The operator's token.
        at: u32,
        /// The name.
        name: u32,
    },
}

/// What is promised of the branches of a choice (IEEE 1800-2017 A.6.6 unique_priority), with its word.
#[derive(Clone, Copy)]
pub enum UniquePriority {
    /// `unique`
    Unique(u32),
    /// `unique0`
    Unique0(u32),
    /// `priority`
    Priority(u32),
}

/// Which bits of a case item are left out of the comparison (IEEE 1800-2017 A.6.7 case_keyword), with its word.
#[derive(Clone, Copy)]
pub enum CaseKeyword {
    /// `case`
    Case(u32),
    /// `casez`
    Casez(u32),
    /// `casex`
    Casex(u32),
}

/// `else` and its statement (IEEE 1800-2017 A.6.6).
#[derive(Drop)]
#[cycle(stmt)]
pub struct Else {
    /// The word `else`.
    pub keyword: u32,
    /// The statement.
    pub body: Stmt,
}

/// An item of a `case` (IEEE 1800-2017 A.6.7 case_item). At most one is the default.
#[derive(Drop)]
#[cycle(stmt)]
pub enum CaseItem {
    /// `values: statement`
    Values {
        /// The values, at least one.
        values: Exprs,
        /// The `:`.
        colon: u32,
        /// The statement.
        body: Stmt,
    },
    /// `default: statement`
    Default {
        /// The word `default`.
        keyword: u32,
        /// The `:`, where it is written.
        colon: Option<u32>,
        /// The statement.
        body: Stmt,
    },
}

/// The items of a `case`, in order.
pub type CaseItems = Items<CaseItem>;

/// An item of a block (IEEE 1800-2017 A.2.8 block_item_declaration, or a statement).
#[derive(Drop)]
#[cycle(stmt)]
pub enum BlockItem {
    /// A statement.
    Statement(Stmt),
    /// Parameters.
    Parameters(ParameterDeclaration),
    /// Variables.
    Variables {
        /// The word `automatic`, where it is written.
        automatic: Option<u32>,
        /// The word `var`, where it is written.
        var: Option<u32>,
        /// The type.
        of: TypeText,
        /// The variables, at least one.
        declarators: Declarators,
        /// The `;`.
        semicolon: u32,
    },
    /// Variables of a type that is a name alone or a name with selects, which are to be dimensions.
    NamedVariables {
        /// The type's name.
        of: u32,
        /// The selects behind it.
        selects: Selects,
        /// The variables, at least one.
        declarators: Declarators,
        /// The `;`.
        semicolon: u32,
    },
}

/// The items of a block, in order.
pub type BlockItems = Items<BlockItem>;

/// A statement (IEEE 1800-2017 A.6.4 statement_item).
#[derive(Drop)]
#[cycle(stmt)]
pub enum Stmt {
    /// `begin items end`
    Block {
        /// The word `begin`.
        begin: u32,
        /// The name behind it.
        label: Option<Label>,
        /// The items.
        items: BlockItems,
        /// The word `end`.
        end: u32,
        /// The name behind it.
        end_label: Option<Label>,
    },
    /// `if (test) body else ..`
    If {
        /// What is promised of the branches.
        promise: Option<UniquePriority>,
        /// The word `if`.
        keyword: u32,
        /// The `(`.
        opening: u32,
        /// The condition.
        test: Expr,
        /// The `)`.
        closing: u32,
        /// The statement where it is true.
        body: Boxed<Stmt>,
        /// The statement where it isn't.
        other: Option<Boxed<Else>>,
    },
    /// `case (value) items endcase`
    Case {
        /// What is promised of the branches.
        promise: Option<UniquePriority>,
        /// The first word.
        keyword: CaseKeyword,
        /// The `(`.
        opening: u32,
        /// The value that is compared.
        value: Expr,
        /// The `)`.
        closing: u32,
        /// The items, at least one.
        items: CaseItems,
        /// The word `endcase`.
        end: u32,
    },
    /// `for (first; test; step) body`
    For {
        /// The word `for`.
        keyword: u32,
        /// The `(`.
        opening: u32,
        /// The variable and its first value.
        first: LoopStart,
        /// The `;` behind it.
        first_semicolon: u32,
        /// Whether there is another turn.
        test: Expr,
        /// The `;` behind it.
        test_semicolon: u32,
        /// What is done behind each turn.
        step: LoopStep,
        /// The `)`.
        closing: u32,
        /// The statement of a turn.
        body: Boxed<Stmt>,
    },
    /// `break;`
    Break {
        /// The word `break`.
        keyword: u32,
        /// The `;`.
        semicolon: u32,
    },
    /// `continue;`
    Continue {
        /// The word `continue`.
        keyword: u32,
        /// The `;`.
        semicolon: u32,
    },
    /// `return;` or `return value;`
    Return {
        /// The word `return`.
        keyword: u32,
        /// The result.
        value: Option<Expr>,
        /// The `;`.
        semicolon: u32,
    },
    /// A call of a task, or of a function without a value (IEEE 1800-2017 A.6.9 subroutine_call_statement).
    Call {
        /// The name.
        of: QualifiedName,
        /// The `(`.
        opening: u32,
        /// The arguments.
        arguments: Exprs,
        /// The `)`.
        closing: u32,
        /// The `;`.
        semicolon: u32,
    },
    /// `target = value;`, or with another operator.
    Assign {
        /// What is assigned.
        target: Lvalue,
        /// The operator.
        operator: AssignmentOperator,
        /// The operator's token.
        at: u32,
        /// The value.
        value: Expr,
        /// The `;`.
        semicolon: u32,
    },
    /// `name++;` or `name--;`
    Postfix {
        /// The name.
        name: u32,
        /// The selects behind it.
        selects: Selects,
        /// The operator.
        operator: StepOperator,
        /// The operator's token.
        at: u32,
        /// The `;`.
        semicolon: u32,
    },
    /// `++name;` or `--name;`
    Prefix {
        /// The operator.
        operator: StepOperator,
        /// The operator's token.
        at: u32,
        /// The name.
        name: u32,
        /// The selects behind it.
        selects: Selects,
        /// The `;`.
        semicolon: u32,
    },
    /// `;`
    Empty {
        /// The `;`.
        semicolon: u32,
    },
}
