//! Where dimensions stand.

/// What a dimension is one of.
#[derive(Clone, Copy)]
pub enum Dimensioned {
    /// Dimensions behind a name.
    Unpacked,
    /// Dimensions of a type by a word, which have two bounds.
    Packed,
    /// Dimensions behind the name of a type, which have two bounds.
    PackedName(u32),
}
