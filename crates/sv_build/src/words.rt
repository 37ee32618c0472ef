//! The words and operators of declarations and statements, by the rows that they were read by.

ghost use Rattle.std.specs.Prelude.{◌≡◌};
ghost use Rattle.sv_build.specs.Words as means;

use crate::rows;
use expr_build::{is_blank, kid, row, token};
use ll_engine::Tree;
use sv_tree::{
    AssignmentOperator, CaseKeyword, Direction, EdgeKeyword, FormalDirection, Label, Lifetime,
    NetOrVariable, ParameterKeyword, StepOperator, UniquePriority,
};

/// `automatic` or `static`.
fn some_lifetime(tree: &Tree) -> Lifetime
    ensures { result ≡ means.lifetime_from tree.now }
{
    match row(tree) {
        rows::AUTOMATIC => Lifetime::Automatic(token(tree, 0)),
        _ => Lifetime::Static(token(tree, 0)),
    }
}

/// The lifetime, where it is written.
pub fn lifetime(tree: &Tree) -> Option<Lifetime>
    ensures { result ≡ means.lifetime_of tree.now }
{
    if is_blank(tree) {
        return None;
    }
    Some(some_lifetime(tree))
}

/// `: name`, where it is written.
pub fn label(tree: &Tree) -> Option<Label>
    ensures { result ≡ means.label_of tree.now }
{
    if is_blank(tree) {
        return None;
    }
    Some(Label {
        colon: token(tree, 0),
        name: token(tree, 1),
    })
}

/// `parameter` or `localparam`.
pub fn parameter_keyword(tree: &Tree) -> ParameterKeyword
    ensures { result ≡ means.parameter_keyword_of tree.now }
{
    match row(tree) {
        rows::PARAMETER => ParameterKeyword::Parameter(token(tree, 0)),
        _ => ParameterKeyword::Localparam(token(tree, 0)),
    }
}

/// `parameter` or `localparam`, where it is written.
pub fn optional_parameter_keyword(tree: &Tree) -> Option<ParameterKeyword>
    ensures { result ≡ means.optional_parameter_keyword_of tree.now }
{
    if is_blank(tree) {
        return None;
    }
    Some(parameter_keyword(kid(tree, 0)))
}

/// The direction of a port.
pub fn direction(tree: &Tree) -> Direction
    ensures { result ≡ means.direction_of tree.now }
{
    match row(tree) {
        rows::INPUT => Direction::Input(token(tree, 0)),
        _ => Direction::Output(token(tree, 0)),
    }
}

/// The direction of a port, where it is written.
pub fn optional_direction(tree: &Tree) -> Option<Direction>
    ensures { result ≡ means.optional_direction_of tree.now }
{
    if is_blank(tree) {
        return None;
    }
    Some(direction(kid(tree, 0)))
}

/// The direction of a formal argument.
fn some_formal_direction(tree: &Tree) -> FormalDirection
    ensures { result ≡ means.formal_direction_from tree.now }
{
    match row(tree) {
        rows::FORMAL_INPUT => FormalDirection::Input(token(tree, 0)),
        rows::FORMAL_OUTPUT => FormalDirection::Output(token(tree, 0)),
        _ => FormalDirection::Inout(token(tree, 0)),
    }
}

/// The direction of a formal argument, where it is written.
pub fn formal_direction(tree: &Tree) -> Option<FormalDirection>
    ensures { result ≡ means.formal_direction_of tree.now }
{
    if is_blank(tree) {
        return None;
    }
    Some(some_formal_direction(tree))
}

/// `wire` or `var`.
pub fn net_or_variable(tree: &Tree) -> NetOrVariable
    ensures { result ≡ means.net_of tree.now }
{
    match row(tree) {
        rows::WIRE => NetOrVariable::Wire(token(tree, 0)),
        _ => NetOrVariable::Var(token(tree, 0)),
    }
}

/// `wire` or `var`, where it is written.
pub fn optional_net(tree: &Tree) -> Option<NetOrVariable>
    ensures { result ≡ means.optional_net_of tree.now }
{
    if is_blank(tree) {
        return None;
    }
    Some(net_or_variable(kid(tree, 0)))
}

/// The operator of a row that counts by one.
pub fn step_operator(row: u16) -> StepOperator
    ensures { result ≡ means.step_operator_by row }
{
    match row {
        rows::INCREMENT => StepOperator::Increment,
        _ => StepOperator::Decrement,
    }
}

/// The assignment of a row with a shift.
fn shift_assignment(row: u16) -> AssignmentOperator
    ensures { result ≡ means.shift_assignment_by row }
{
    match row {
        rows::ASSIGN_SHIFT_LEFT => AssignmentOperator::ShiftLeft,
        rows::ASSIGN_SHIFT_RIGHT => AssignmentOperator::ShiftRight,
        rows::ASSIGN_ARITHMETIC_SHIFT_LEFT => AssignmentOperator::ArithmeticShiftLeft,
        _ => AssignmentOperator::ArithmeticShiftRight,
    }
}

/// The operator of a row that assigns.
pub fn assignment_operator(row: u16) -> AssignmentOperator
    ensures { result ≡ means.assignment_operator_by row }
{
    match row {
        rows::ASSIGN => AssignmentOperator::Assign,
        rows::ASSIGN_NONBLOCKING => AssignmentOperator::Nonblocking,
        rows::ASSIGN_ADD => AssignmentOperator::Add,
        rows::ASSIGN_SUBTRACT => AssignmentOperator::Subtract,
        rows::ASSIGN_MULTIPLY => AssignmentOperator::Multiply,
        rows::ASSIGN_DIVIDE => AssignmentOperator::Divide,
        rows::ASSIGN_REMAINDER => AssignmentOperator::Remainder,
        rows::ASSIGN_AND => AssignmentOperator::And,
        rows::ASSIGN_OR => AssignmentOperator::Or,
        rows::ASSIGN_XOR => AssignmentOperator::Xor,
        _ => shift_assignment(row),
    }
}

/// `posedge` or `negedge`.
pub fn edge_keyword(tree: &Tree) -> EdgeKeyword
    ensures { result ≡ means.edge_keyword_of tree.now }
{
    match row(tree) {
        rows::POSEDGE => EdgeKeyword::Posedge(token(tree, 0)),
        _ => EdgeKeyword::Negedge(token(tree, 0)),
    }
}

/// `unique`, `unique0` or `priority`.
pub fn promise(tree: &Tree) -> UniquePriority
    ensures { result ≡ means.promise_of tree.now }
{
    match row(tree) {
        rows::UNIQUE => UniquePriority::Unique(token(tree, 0)),
        rows::UNIQUE0 => UniquePriority::Unique0(token(tree, 0)),
        _ => UniquePriority::Priority(token(tree, 0)),
    }
}

/// `case`, `casez` or `casex`.
pub fn case_keyword(tree: &Tree) -> CaseKeyword
    ensures { result ≡ means.case_keyword_of tree.now }
{
    match row(tree) {
        rows::CASE => CaseKeyword::Case(token(tree, 0)),
        rows::CASEZ => CaseKeyword::Casez(token(tree, 0)),
        _ => CaseKeyword::Casex(token(tree, 0)),
    }
}
