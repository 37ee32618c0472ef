//! Operators (IEEE 1364-2005 table 5-1).

/// An operator between two operands (IEEE 1364-2005 A.8.6 binary_operator).
#[derive(Clone, Copy)]
pub enum VBinaryOp {
    /// `+`
    Add,
    /// `-`
    Sub,
    /// `*`
    Mul,
    /// `/`
    Div,
    /// `%`
    Rem,
    /// `**`
    Power,
    /// `<<`
    ShiftLeft,
    /// `>>`
    ShiftRight,
    /// `<<<`
    ArithmeticLeft,
    /// `>>>`
    ArithmeticRight,
    /// `<`
    Less,
    /// `<=`
    LessEqual,
    /// `>`
    Greater,
    /// `>=`
    GreaterEqual,
    /// `==`
    Equal,
    /// `!=`
    NotEqual,
    /// `===`
    CaseEqual,
    /// `!==`
    CaseNotEqual,
    /// `&`
    And,
    /// `|`
    Or,
    /// `^`
    Xor,
    /// `~^`
    Xnor,
    /// `&&`
    LogicalAnd,
    /// `||`
    LogicalOr,
}

/// An operator before its operand (IEEE 1364-2005 A.8.6 unary_operator).
#[derive(Clone, Copy)]
pub enum VUnaryOp {
    /// `~`
    Not,
    /// `!`
    LogicalNot,
    /// `-`
    Neg,
    /// `&`
    And,
    /// `~&`
    Nand,
    /// `|`
    Or,
    /// `~|`
    Nor,
    /// `^`
    Xor,
    /// `~^`
    Xnor,
}
