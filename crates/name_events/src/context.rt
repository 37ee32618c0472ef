//! What stands around a statement.

/// What a statement belongs to.
#[derive(Clone, Copy)]
pub enum Body {
    /// A process.
    Process,
    /// A function with a value.
    Function,
    /// A task, or a function without a value.
    Routine,
}

/// Where a statement stands.
#[derive(Clone, Copy)]
pub struct Around {
    /// Whether it stands in a loop.
    pub looped: bool,
    /// What it belongs to.
    pub body: Body,
}
