//! The rules on processes and on their order, as the breaks of a typed design.
#![tactic(auto)]

/// A break of a rule. It stands at a token of the text of an instance.
#[derive(Clone, Copy, Debug, Drop)]
pub struct Break {
    /// The number of the instance.
    pub instance: u32,
    /// The number of the token.
    pub at: u32,
    /// The rule.
    pub rule: u16,
}

/// How far the loops of a process or function could be unrolled.
#[derive(Clone, Copy, Debug, Drop)]
pub struct Unrolled {
    /// How many more statements may stand; none where more stand than may.
    pub left: Option<u32>,
    /// The least token found of a loop that makes too many turns or of a constant that takes too long.
    pub endless: Option<u32>,
}
