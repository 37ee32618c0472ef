//! Operators (IEEE 1800-2017 clause 11.4 and A.8.6).

/// An operator with one operand (A.8.6 unary_operator).
#[derive(Clone, Copy, PartialEq, Eq)]
pub enum UnaryOperator {
    /// `+`
    Plus,
    /// `-`
    Minus,
    /// `!`
    Not,
    /// `~`
    Invert,
    /// `&`
    ReduceAnd,
    /// `~&`
    ReduceNand,
    /// `|`
    ReduceOr,
    /// `~|`
    ReduceNor,
    /// `^`
    ReduceXor,
    /// `~^` or `^~`
    ReduceXnor,
}

/// An operator between two operands (A.8.6 binary_operator), the weakest first.
#[derive(Clone, Copy, PartialEq, Eq)]
pub enum BinaryOperator {
    /// `||`
    LogicalOr,
    /// `&&`
    LogicalAnd,
    /// `|`
    Or,
    /// `^`
    Xor,
    /// `~^` or `^~`
    Xnor,
    /// `&`
    And,
    /// `==`
    Equal,
    /// `!=`
    NotEqual,
    /// `===`
    CaseEqual,
    /// `!==`
    CaseNotEqual,
    /// `==?`
    WildcardEqual,
    /// `!=?`
    WildcardNotEqual,
    /// `<`
    Less,
    /// `<=`
    LessOrEqual,
    /// `>`
    Greater,
    /// `>=`
    GreaterOrEqual,
    /// `<<`
    ShiftLeft,
    /// `>>`
    ShiftRight,
    /// `<<<`
    ArithmeticShiftLeft,
    /// `>>>`
    ArithmeticShiftRight,
    /// `+`
    Add,
    /// `-`
    Subtract,
    /// `*`
    Multiply,
    /// `/`
    Divide,
    /// `%`
    Remainder,
    /// `**`
    Power,
}

/// An operator of an assignment (A.6.2 assignment_operator, and `<=` of A.6.2 nonblocking_assignment).
#[derive(Clone, Copy, PartialEq, Eq)]
pub enum AssignmentOperator {
    /// `=`
    Assign,
    /// `<=`
    Nonblocking,
    /// `+=`
    Add,
    /// `-=`
    Subtract,
    /// `*=`
    Multiply,
    /// `/=`
    Divide,
    /// `%=`
    Remainder,
    /// `&=`
    And,
    /// `|=`
    Or,
    /// `^=`
    Xor,
    /// `<<=`
    ShiftLeft,
    /// `>>=`
    ShiftRight,
    /// `<<<=`
    ArithmeticShiftLeft,
    /// `>>>=`
    ArithmeticShiftRight,
}

/// An operator that counts by one (A.8.6 inc_or_dec_operator).
#[derive(Clone, Copy, PartialEq, Eq)]
pub enum StepOperator {
    /// `++`
    Increment,
    /// `--`
    Decrement,
}

/// How a stream orders its slices (A.8.1 stream_operator).
#[derive(Clone, Copy, PartialEq, Eq)]
pub enum StreamOperator {
    /// `<<`, the last slice first.
    Left,
    /// `>>`, as they stand.
    Right,
}

/// What stands between the two expressions of a part select (A.8.4 part_select_range).
#[derive(Clone, Copy, PartialEq, Eq)]
pub enum PartOperator {
    /// `:`, between the bounds.
    Range,
    /// `+:`, between the lowest index and the width.
    Up,
    /// `-:`, between the highest index and the width.
    Down,
}
