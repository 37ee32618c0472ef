/// A unary operator on a vector (IEEE 1800-2017 clauses 11.4.3 and 11.4.8).
#[derive(Clone, Copy, PartialEq, Eq, Debug)]
pub enum UnOp {
    /// `~`, bit by bit.
    Not,
    /// `-`, the negative.
    Neg,
}

/// A binary operator on two vectors of one length (IEEE 1800-2017 clauses 11.4.3 and 11.4.8).
#[derive(Clone, Copy, PartialEq, Eq, Debug)]
pub enum BinOp {
    /// `&`, bit by bit.
    And,
    /// `|`, bit by bit.
    Or,
    /// `^`, bit by bit.
    Xor,
    /// `~^` and `^~`, bit by bit.
    Xnor,
    /// `+`.
    Add,
    /// `-`.
    Sub,
    /// `*`.
    Mul,
    /// `/`, rounded toward zero.
    Div,
    /// `%`, with the sign of the left operand.
    Rem,
}

/// A shift of a vector (IEEE 1800-2017 clause 11.4.10).
#[derive(Clone, Copy, PartialEq, Eq, Debug)]
pub enum ShiftOp {
    /// `<<` and `<<<`, filled with 0 from below.
    Left,
    /// `>>`, filled with 0 from above.
    Right,
    /// `>>>`, filled from above with the top bit where the result is signed, else with 0.
    Arith,
}

/// A reduction of a vector to one bit (IEEE 1800-2017 clause 11.4.9).
#[derive(Clone, Copy, PartialEq, Eq, Debug)]
pub enum RedOp {
    /// `&`.
    And,
    /// `|`.
    Or,
    /// `^`.
    Xor,
    /// `~&`.
    Nand,
    /// `~|`.
    Nor,
    /// `~^` and `^~`.
    Xnor,
}

/// An order comparison of two vectors (IEEE 1800-2017 clause 11.4.4).
#[derive(Clone, Copy, PartialEq, Eq, Debug)]
pub enum OrdOp {
    /// `<`.
    Less,
    /// `<=`.
    LessEqual,
    /// `>`.
    Greater,
    /// `>=`.
    GreaterEqual,
}

/// An equality of two vectors (IEEE 1800-2017 clauses 11.4.5 and 11.4.6).
#[derive(Clone, Copy, PartialEq, Eq, Debug)]
pub enum EqOp {
    /// `==`, unknown where unknown bits leave it open.
    Logic,
    /// `===`, exactly the same bits.
    Case,
    /// `==?`, where x and z on the right stand for any bit.
    Wild,
}
