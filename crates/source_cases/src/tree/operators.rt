//! The names of operators and of types that one word names.

use sv_tree::{
    AssignmentOperator, BinaryOperator, PartOperator, StepOperator, StreamOperator, TypeKeyword,
    UnaryOperator,
};

/// The name of an unary operator.
pub fn unary_operator_name(operator: UnaryOperator) -> &'static str {
    match operator {
        UnaryOperator::Plus => "Plus",
        UnaryOperator::Minus => "Minus",
        UnaryOperator::Not => "Not",
        UnaryOperator::Invert => "Invert",
        UnaryOperator::ReduceAnd => "ReduceAnd",
        UnaryOperator::ReduceNand => "ReduceNand",
        UnaryOperator::ReduceOr => "ReduceOr",
        UnaryOperator::ReduceNor => "ReduceNor",
        UnaryOperator::ReduceXor => "ReduceXor",
        UnaryOperator::ReduceXnor => "ReduceXnor",
    }
}

/// The name of a binary operator.
pub fn binary_operator_name(operator: BinaryOperator) -> &'static str {
    match operator {
        BinaryOperator::LogicalOr => "LogicalOr",
        BinaryOperator::LogicalAnd => "LogicalAnd",
        BinaryOperator::Or => "Or",
        BinaryOperator::Xor => "Xor",
        BinaryOperator::Xnor => "Xnor",
        BinaryOperator::And => "And",
        BinaryOperator::Equal => "Equal",
        BinaryOperator::NotEqual => "NotEqual",
        BinaryOperator::CaseEqual => "CaseEqual",
        BinaryOperator::CaseNotEqual => "CaseNotEqual",
        BinaryOperator::WildcardEqual => "WildcardEqual",
        BinaryOperator::WildcardNotEqual => "WildcardNotEqual",
        BinaryOperator::Less => "Less",
        BinaryOperator::LessOrEqual => "LessOrEqual",
        BinaryOperator::Greater => "Greater",
        BinaryOperator::GreaterOrEqual => "GreaterOrEqual",
        BinaryOperator::ShiftLeft => "ShiftLeft",
        BinaryOperator::ShiftRight => "ShiftRight",
        BinaryOperator::ArithmeticShiftLeft => "ArithmeticShiftLeft",
        BinaryOperator::ArithmeticShiftRight => "ArithmeticShiftRight",
        BinaryOperator::Add => "Add",
        BinaryOperator::Subtract => "Subtract",
        BinaryOperator::Multiply => "Multiply",
        BinaryOperator::Divide => "Divide",
        BinaryOperator::Remainder => "Remainder",
        BinaryOperator::Power => "Power",
    }
}

/// The name of an assignment operator.
pub fn assignment_operator_name(operator: AssignmentOperator) -> &'static str {
    match operator {
        AssignmentOperator::Assign => "Assign",
        AssignmentOperator::Nonblocking => "Nonblocking",
        AssignmentOperator::Add => "Add",
        AssignmentOperator::Subtract => "Subtract",
        AssignmentOperator::Multiply => "Multiply",
        AssignmentOperator::Divide => "Divide",
        AssignmentOperator::Remainder => "Remainder",
        AssignmentOperator::And => "And",
        AssignmentOperator::Or => "Or",
        AssignmentOperator::Xor => "Xor",
        AssignmentOperator::ShiftLeft => "ShiftLeft",
        AssignmentOperator::ShiftRight => "ShiftRight",
        AssignmentOperator::ArithmeticShiftLeft => "ArithmeticShiftLeft",
        AssignmentOperator::ArithmeticShiftRight => "ArithmeticShiftRight",
    }
}

/// The name of a step operator.
pub fn step_operator_name(operator: StepOperator) -> &'static str {
    match operator {
        StepOperator::Increment => "Increment",
        StepOperator::Decrement => "Decrement",
    }
}

/// The name of a stream operator.
pub fn stream_operator_name(operator: StreamOperator) -> &'static str {
    match operator {
        StreamOperator::Left => "Left",
        StreamOperator::Right => "Right",
    }
}

/// The name of a part operator.
pub fn part_operator_name(operator: PartOperator) -> &'static str {
    match operator {
        PartOperator::Range => "Range",
        PartOperator::Up => "Up",
        PartOperator::Down => "Down",
    }
}

/// The name of a type keyword.
pub fn type_keyword_name(operator: TypeKeyword) -> &'static str {
    match operator {
        TypeKeyword::Bit => "Bit",
        TypeKeyword::Logic => "Logic",
        TypeKeyword::Reg => "Reg",
        TypeKeyword::Byte => "Byte",
        TypeKeyword::Shortint => "Shortint",
        TypeKeyword::Int => "Int",
        TypeKeyword::Longint => "Longint",
        TypeKeyword::Integer => "Integer",
    }
}
