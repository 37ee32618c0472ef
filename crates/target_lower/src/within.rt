//! Where a statement stands.

/// What a statement is part of, which says what calls in its constant indices give.
#[derive(Clone, Copy)]
pub enum Within {
    /// A process, from which the functions of a design are called: such an index is known.
    Process,
    /// The body of a function or task: what a call gives there isn't said, so that an index with calls isn't known.
    Routine,
}
