//! What is known of the loops of a body.

/// The rules on loops, as a body breaks them.
#[derive(Clone, Copy)]
pub struct Loops {
    /// The least token of E608: of a loop that can't be unrolled to its end, or of a constant that takes too long.
    pub endless: Option<u32>,
    /// Whether more statements stand than may (E703), each counted by itself.
    pub too_long: bool,
}
