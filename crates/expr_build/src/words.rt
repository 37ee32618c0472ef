//! The words and operators of a derivation, by the rows that they were read by.

ghost use Rattle.std.specs.Prelude.{◌≡◌};
ghost use Rattle.expr_build.specs.Words as means;

use crate::nodes::{is_blank, kid, row, token};
use crate::rows;
use ll_engine::Tree;
use sv_tree::{
    Aggregate, BinaryOperator, KeywordType, PackageScope, PartOperator, QualifiedName, Signing,
    StreamOperator, TypeKeyword, UnaryOperator,
};

/// A sign.
pub fn signing(tree: &Tree) -> Signing
    ensures { result ≡ means.signing_of tree.now }
{
    match row(tree) {
        rows::SIGNED => Signing::Signed(token(tree, 0)),
        _ => Signing::Unsigned(token(tree, 0)),
    }
}

/// A sign, where it is written.
pub fn optional_signing(tree: &Tree) -> Option<Signing>
    ensures { result ≡ means.optional_signing_of tree.now }
{
    if is_blank(tree) {
        return None;
    }
    Some(signing(kid(tree, 0)))
}

/// The type of a row.
pub fn type_keyword(row: u16) -> TypeKeyword
    ensures { result ≡ means.type_keyword_by row }
{
    match row {
        rows::BIT => TypeKeyword::Bit,
        rows::LOGIC => TypeKeyword::Logic,
        rows::REG => TypeKeyword::Reg,
        rows::BYTE => TypeKeyword::Byte,
        rows::SHORTINT => TypeKeyword::Shortint,
        rows::INT => TypeKeyword::Int,
        rows::LONGINT => TypeKeyword::Longint,
        _ => TypeKeyword::Integer,
    }
}

/// A word for a type, with its sign.
pub fn keyword_type(tree: &Tree) -> KeywordType
    ensures { result ≡ means.keyword_type_of tree.now }
{
    let word = kid(tree, 0);
    KeywordType {
        keyword: type_keyword(row(word)),
        at: token(word, 0),
        signing: optional_signing(kid(tree, 1)),
    }
}

/// `struct` or `union`.
pub fn aggregate(tree: &Tree) -> Aggregate
    ensures { result ≡ means.aggregate_of tree.now }
{
    match row(tree) {
        rows::STRUCT => Aggregate::Struct(token(tree, 0)),
        _ => Aggregate::Union(token(tree, 0)),
    }
}

/// A name, from its first token and what stands behind that: `::` and a name, or nothing.
pub fn qualified(first: u32, rest: &Tree) -> QualifiedName
    ensures { result ≡ means.qualified_of first rest.now }
{
    if is_blank(rest) {
        return QualifiedName {
            scope: None,
            name: first,
        };
    }
    let scope = Some(PackageScope {
        package: first,
        colons: token(rest, 0),
    });
    QualifiedName {
        scope,
        name: token(rest, 1),
    }
}

/// The operator of a row before its operand.
pub fn unary_operator(row: u16) -> UnaryOperator
    ensures { result ≡ means.unary_operator_by row }
{
    match row {
        rows::UNARY_PLUS => UnaryOperator::Plus,
        rows::UNARY_MINUS => UnaryOperator::Minus,
        rows::UNARY_NOT => UnaryOperator::Not,
        rows::UNARY_INVERT => UnaryOperator::Invert,
        rows::UNARY_AND => UnaryOperator::ReduceAnd,
        rows::UNARY_NAND => UnaryOperator::ReduceNand,
        rows::UNARY_OR => UnaryOperator::ReduceOr,
        rows::UNARY_NOR => UnaryOperator::ReduceNor,
        rows::UNARY_XOR => UnaryOperator::ReduceXor,
        _ => UnaryOperator::ReduceXnor,
    }
}

/// The arithmetic operator of a row.
fn arithmetic_operator(row: u16) -> BinaryOperator
    ensures { result ≡ means.arithmetic_operator_by row }
{
    match row {
        rows::ADD => BinaryOperator::Add,
        rows::SUBTRACT => BinaryOperator::Subtract,
        rows::MULTIPLY => BinaryOperator::Multiply,
        rows::DIVIDE => BinaryOperator::Divide,
        rows::REMAINDER => BinaryOperator::Remainder,
        _ => BinaryOperator::Power,
    }
}

/// The shift of a row, or an arithmetic operator.
fn shift_operator(row: u16) -> BinaryOperator
    ensures { result ≡ means.shift_operator_by row }
{
    match row {
        rows::SHIFT_LEFT => BinaryOperator::ShiftLeft,
        rows::SHIFT_RIGHT => BinaryOperator::ShiftRight,
        rows::ARITHMETIC_SHIFT_LEFT => BinaryOperator::ArithmeticShiftLeft,
        rows::ARITHMETIC_SHIFT_RIGHT => BinaryOperator::ArithmeticShiftRight,
        _ => arithmetic_operator(row),
    }
}

/// The order of a row, or a stronger operator.
fn order_operator(row: u16) -> BinaryOperator
    ensures { result ≡ means.order_operator_by row }
{
    match row {
        rows::LESS => BinaryOperator::Less,
        rows::LESS_OR_EQUAL => BinaryOperator::LessOrEqual,
        rows::GREATER => BinaryOperator::Greater,
        rows::GREATER_OR_EQUAL => BinaryOperator::GreaterOrEqual,
        _ => shift_operator(row),
    }
}

/// The equality of a row, or a stronger operator.
fn equality_operator(row: u16) -> BinaryOperator
    ensures { result ≡ means.equality_operator_by row }
{
    match row {
        rows::EQUAL => BinaryOperator::Equal,
        rows::NOT_EQUAL => BinaryOperator::NotEqual,
        rows::CASE_EQUAL => BinaryOperator::CaseEqual,
        rows::CASE_NOT_EQUAL => BinaryOperator::CaseNotEqual,
        rows::WILDCARD_EQUAL => BinaryOperator::WildcardEqual,
        rows::WILDCARD_NOT_EQUAL => BinaryOperator::WildcardNotEqual,
        _ => order_operator(row),
    }
}

/// The operator of a row between two operands.
pub fn binary_operator(row: u16) -> BinaryOperator
    ensures { result ≡ means.binary_operator_by row }
{
    match row {
        rows::LOGICAL_OR => BinaryOperator::LogicalOr,
        rows::LOGICAL_AND => BinaryOperator::LogicalAnd,
        rows::BITWISE_OR => BinaryOperator::Or,
        rows::BITWISE_XOR => BinaryOperator::Xor,
        rows::BITWISE_XNOR => BinaryOperator::Xnor,
        rows::OTHER_BITWISE_XNOR => BinaryOperator::Xnor,
        rows::BITWISE_AND => BinaryOperator::And,
        _ => equality_operator(row),
    }
}

/// What stands between the two expressions of a part-select, by its row.
pub fn part_operator(row: u16) -> PartOperator
    ensures { result ≡ means.part_operator_by row }
{
    match row {
        rows::PART_RANGE => PartOperator::Range,
        rows::PART_UP => PartOperator::Up,
        _ => PartOperator::Down,
    }
}

/// The order of the slices of a stream, by its row.
pub fn stream_operator(row: u16) -> StreamOperator
    ensures { result ≡ means.stream_operator_by row }
{
    match row {
        rows::STREAM_LEFT => StreamOperator::Left,
        _ => StreamOperator::Right,
    }
}
