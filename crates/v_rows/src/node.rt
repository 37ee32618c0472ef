//! What a node of a derivation means, by its row.

ghost use Rattle.std.specs.Prelude.{◌≡◌, ◌≤◌, ◌<◌, List, IfOk};
ghost use Rattle.v_tree.specs.declared.parts.VPart.{VPart};
ghost use Rattle.v_rows.specs.Rows.{meaning_of};

use crate::{expressions, items, numbers, statements, targets};
use std::alloc::{AllocError, Global};
use v_parts::same;
use v_tree::{VBinaryOp, VBranch, VCaseKind, VPart, VParts, VSensitivity, VUnaryOp};

/// A row of texts and modules.
#[tactic(auto, using(crate::proofs::Meanings::texts))]
fn text_row(alloc: Global, row: u16, parts: VParts) -> Result<VPart, AllocError>
    requires to { row < 4 }
    ensures { IfOk result (λ part. part ≡ meaning_of row parts) }
{
    match row {
        numbers::TEXT => Ok(items::text(alloc, parts)?),
        numbers::MODULE => Ok(items::module(alloc, parts)?),
        numbers::PORTS => Ok(items::ports(alloc, parts)?),
        _ => Ok(same(parts)),
    }
}

/// A row of items.
#[tactic(auto, using(crate::proofs::Meanings::items))]
fn item_row(alloc: Global, row: u16, parts: VParts) -> Result<VPart, AllocError>
    requires from { 4 ≤ row }
    requires to { row < 27 }
    ensures { IfOk result (λ part. part ≡ meaning_of row parts) }
{
    match row {
        numbers::INPUT => Ok(items::input(parts)),
        numbers::OUTPUT => Ok(same(parts)),
        numbers::WIRE => Ok(items::wire(parts)),
        numbers::REG => Ok(items::reg(parts)),
        numbers::INITIAL => Ok(items::initial(parts)),
        numbers::ASSIGN => Ok(items::assign(parts)),
        numbers::ALWAYS => Ok(items::always(parts)),
        numbers::FUNCTION => Ok(items::function(alloc, parts)?),
        numbers::INSTANCE => Ok(items::instance(alloc, parts)),
        numbers::OUTPUT_NET => Ok(items::output(parts)),
        numbers::OUTPUT_REG => Ok(items::output_reg(parts)),
        numbers::MEMORY => Ok(same(parts)),
        numbers::REG_VALUE => Ok(items::reg_value(parts)),
        numbers::MEMORY_RANGE => Ok(items::memory(parts)),
        numbers::INITIAL_VALUE => Ok(same(parts)),
        numbers::VALUE => Ok(items::value(parts)),
        numbers::PIECES => Ok(items::pieces(alloc, parts)?),
        numbers::NEXT_NUMBER => Ok(same(parts)),
        numbers::FUNCTION_INPUT => Ok(items::function_input(parts)),
        numbers::LOCAL => Ok(items::local(parts)),
        numbers::RANGE => Ok(items::range(parts)),
        numbers::DECIMAL_BOUND => Ok(same(parts)),
        _ => Ok(same(parts)),
    }
}

/// A row of events, connections or statements.
#[tactic(auto, using(crate::proofs::Meanings::statements))]
fn statement_row(alloc: Global, row: u16, parts: VParts) -> Result<VPart, AllocError>
    requires from { 27 ≤ row }
    requires to { row < 54 }
    ensures { IfOk result (λ part. part ≡ meaning_of row parts) }
{
    match row {
        numbers::STAR => Ok(VPart::Event(VSensitivity::Star)),
        numbers::EDGES => Ok(statements::edges(alloc, parts)?),
        numbers::NEXT_EDGE => Ok(same(parts)),
        numbers::POSEDGE => Ok(statements::edge(true, parts)),
        numbers::NEGEDGE => Ok(statements::edge(false, parts)),
        numbers::CONNECTIONS => Ok(statements::connections(alloc, parts)?),
        numbers::NEXT_CONNECTION => Ok(same(parts)),
        numbers::CONNECTION => Ok(statements::connection(parts)),
        numbers::BRANCH => Ok(statements::branch(alloc, parts)?),
        numbers::EMPTY_BRANCH => Ok(VPart::Branch(VBranch::Empty)),
        numbers::BLOCK => Ok(statements::block(alloc, parts)?),
        numbers::IF => Ok(statements::if_statement(parts)),
        numbers::CASE => Ok(statements::case_statement(parts)),
        numbers::STORE => Ok(statements::store(parts)),
        numbers::LABEL => Ok(statements::label(alloc, parts)?),
        numbers::ELSE => Ok(statements::else_branch(parts)),
        numbers::PLAIN_CASE => Ok(VPart::CaseKind(VCaseKind::Plain)),
        numbers::CASE_Z => Ok(VPart::CaseKind(VCaseKind::Z)),
        numbers::CASE_X => Ok(VPart::CaseKind(VCaseKind::X)),
        numbers::CASE_ITEMS => Ok(statements::case_items(alloc, parts)?),
        numbers::DEFAULT_ALONE => Ok(same(parts)),
        numbers::DEFAULT_REST => Ok(statements::case_items(alloc, parts)?),
        numbers::CASE_ITEM => Ok(statements::case_item(alloc, parts)?),
        numbers::DEFAULT_ITEM => Ok(statements::default_item(parts)),
        numbers::NEXT_EXPRESSION => Ok(same(parts)),
        numbers::BLOCKING => Ok(VPart::Later(false)),
        _ => Ok(VPart::Later(true)),
    }
}

/// A row of targets or selects.
#[tactic(auto, using(crate::proofs::Meanings::targets))]
fn target_row(alloc: Global, row: u16, parts: VParts) -> Result<VPart, AllocError>
    requires from { 54 ≤ row }
    requires to { row < 63 }
    ensures { IfOk result (λ part. part ≡ meaning_of row parts) }
{
    match row {
        numbers::LVALUE => Ok(targets::lvalue(alloc, parts)),
        numbers::LVALUES => Ok(targets::lvalues(alloc, parts)?),
        numbers::NEXT_LVALUE => Ok(same(parts)),
        numbers::SELECTS => Ok(targets::selects(alloc, parts)?),
        numbers::SELECT => Ok(targets::select(alloc, parts)?),
        numbers::NUMBER_BASE => Ok(same(parts)),
        numbers::EXPRESSION_BASE => Ok(same(parts)),
        numbers::DOWN => Ok(targets::down(parts)),
        _ => Ok(targets::up(parts)),
    }
}

/// A row of expressions.
#[tactic(auto, using(crate::proofs::Meanings::expressions))]
fn expression_row(alloc: Global, row: u16, parts: VParts) -> Result<VPart, AllocError>
    requires from { 63 ≤ row }
    requires to { row < 78 }
    ensures { IfOk result (λ part. part ≡ meaning_of row parts) }
{
    match row {
        numbers::EXPRESSION => Ok(expressions::expression(parts)),
        numbers::UNARY => Ok(expressions::unary(parts)),
        numbers::RIGHT => Ok(expressions::right(parts)),
        numbers::ARMS => Ok(expressions::arms(parts)),
        numbers::NUMBER => Ok(expressions::number(parts)),
        numbers::PAREN => Ok(expressions::paren(alloc, parts)?),
        numbers::NAME => Ok(expressions::name(alloc, parts)),
        numbers::BRACES => Ok(same(parts)),
        numbers::SIGN => Ok(expressions::sign(alloc, parts)?),
        numbers::ARGUMENTS => Ok(expressions::arguments(alloc, parts)?),
        numbers::NAME_SELECTS => Ok(same(parts)),
        numbers::REPEAT => Ok(expressions::repeat(alloc, parts)?),
        numbers::CONCAT => Ok(expressions::concat(alloc, parts)?),
        numbers::SIGNED => Ok(VPart::Sign(true)),
        _ => Ok(VPart::Sign(false)),
    }
}

/// An operator before an operand.
#[tactic(auto, using(crate::proofs::Meanings::unaries))]
fn unary_operator(row: u16) -> VPart
    requires from { 78 ≤ row }
    requires to { row < 87 }
    ensures { (parts : List VPart) → result ≡ meaning_of row parts }
{
    match row {
        numbers::NOT => VPart::UnaryOp(VUnaryOp::Not),
        numbers::LOGICAL_NOT => VPart::UnaryOp(VUnaryOp::LogicalNot),
        numbers::NEG => VPart::UnaryOp(VUnaryOp::Neg),
        numbers::REDUCE_AND => VPart::UnaryOp(VUnaryOp::And),
        numbers::REDUCE_NAND => VPart::UnaryOp(VUnaryOp::Nand),
        numbers::REDUCE_OR => VPart::UnaryOp(VUnaryOp::Or),
        numbers::REDUCE_NOR => VPart::UnaryOp(VUnaryOp::Nor),
        numbers::REDUCE_XOR => VPart::UnaryOp(VUnaryOp::Xor),
        _ => VPart::UnaryOp(VUnaryOp::Xnor),
    }
}

/// An operator between two operands.
#[tactic(auto, using(crate::proofs::Meanings::binaries))]
fn binary_operator(row: u16) -> VPart
    requires from { 87 ≤ row }
    ensures { (parts : List VPart) → result ≡ meaning_of row parts }
{
    match row {
        numbers::ADD => VPart::BinaryOp(VBinaryOp::Add),
        numbers::SUB => VPart::BinaryOp(VBinaryOp::Sub),
        numbers::MUL => VPart::BinaryOp(VBinaryOp::Mul),
        numbers::DIV => VPart::BinaryOp(VBinaryOp::Div),
        numbers::REM => VPart::BinaryOp(VBinaryOp::Rem),
        numbers::POWER => VPart::BinaryOp(VBinaryOp::Power),
        numbers::SHIFT_LEFT => VPart::BinaryOp(VBinaryOp::ShiftLeft),
        numbers::SHIFT_RIGHT => VPart::BinaryOp(VBinaryOp::ShiftRight),
        numbers::ARITHMETIC_LEFT => VPart::BinaryOp(VBinaryOp::ArithmeticLeft),
        numbers::ARITHMETIC_RIGHT => VPart::BinaryOp(VBinaryOp::ArithmeticRight),
        numbers::LESS => VPart::BinaryOp(VBinaryOp::Less),
        numbers::LESS_EQUAL => VPart::BinaryOp(VBinaryOp::LessEqual),
        numbers::GREATER => VPart::BinaryOp(VBinaryOp::Greater),
        numbers::GREATER_EQUAL => VPart::BinaryOp(VBinaryOp::GreaterEqual),
        numbers::EQUAL => VPart::BinaryOp(VBinaryOp::Equal),
        numbers::NOT_EQUAL => VPart::BinaryOp(VBinaryOp::NotEqual),
        numbers::CASE_EQUAL => VPart::BinaryOp(VBinaryOp::CaseEqual),
        numbers::CASE_NOT_EQUAL => VPart::BinaryOp(VBinaryOp::CaseNotEqual),
        numbers::AND => VPart::BinaryOp(VBinaryOp::And),
        numbers::OR => VPart::BinaryOp(VBinaryOp::Or),
        numbers::XOR => VPart::BinaryOp(VBinaryOp::Xor),
        numbers::XNOR => VPart::BinaryOp(VBinaryOp::Xnor),
        numbers::LOGICAL_AND => VPart::BinaryOp(VBinaryOp::LogicalAnd),
        numbers::LOGICAL_OR => VPart::BinaryOp(VBinaryOp::LogicalOr),
        _ => VPart::Nothing,
    }
}

/// What a node means that was read by this row, by what its parts mean, or want of memory. A row that the table doesn't have
/// means nothing.
pub fn node_part(alloc: Global, row: u16, parts: VParts) -> Result<VPart, AllocError>
    ensures { IfOk result (λ part. part ≡ meaning_of row parts) }
{
    if row < numbers::INPUT {
        text_row(alloc, row, parts)
    } else if row < numbers::STAR {
        item_row(alloc, row, parts)
    } else if row < numbers::LVALUE {
        statement_row(alloc, row, parts)
    } else if row < numbers::EXPRESSION {
        target_row(alloc, row, parts)
    } else if row < numbers::NOT {
        expression_row(alloc, row, parts)
    } else if row < numbers::ADD {
        Ok(unary_operator(row))
    } else {
        Ok(binary_operator(row))
    }
}
