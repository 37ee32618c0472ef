//! Types (IEEE 1800-2017 clauses 6 and 7, A.2.2.1). Each `u32` is the number of a token among the tree's tokens.

use crate::declarations::Initializer;
use crate::expressions::Dimensions;
use crate::names::{QualifiedName, Signing};
use sv_source::Items;

/// A type that one word names (IEEE 1800-2017 A.2.2.1 integer_vector_type and integer_atom_type).
#[derive(Clone, Copy, PartialEq, Eq)]
pub enum TypeKeyword {
    /// `bit`
    Bit,
    /// `logic`
    Logic,
    /// `reg`
    Reg,
    /// `byte`
    Byte,
    /// `shortint`
    Shortint,
    /// `int`
    Int,
    /// `longint`
    Longint,
    /// `integer`
    Integer,
}

/// A word for a type, with its sign.
#[derive(Clone, Copy)]
pub struct KeywordType {
    /// The type.
    pub keyword: TypeKeyword,
    /// The word.
    pub at: u32,
    /// The sign, where it is written.
    pub signing: Option<Signing>,
}

/// Whether the members have places of their own or share one (IEEE 1800-2017 A.2.2.1 struct_union).
#[derive(Clone, Copy)]
pub enum Aggregate {
    /// `struct`
    Struct(u32),
    /// `union`
    Union(u32),
}

/// `packed`, with its sign (IEEE 1800-2017 clause 7.2.1).
#[derive(Clone, Copy)]
pub struct Packing {
    /// The word `packed`.
    pub keyword: u32,
    /// The sign, where it is written.
    pub signing: Option<Signing>,
}

/// The type under an enumeration (IEEE 1800-2017 A.2.2.1 enum_base_type).
#[derive(Drop)]
pub enum EnumBase {
    /// A word and dimensions.
    Keyword {
        /// The word, with its sign.
        of: KeywordType,
        /// The packed dimensions.
        packed: Dimensions,
    },
    /// A named type and dimensions.
    Named {
        /// The name.
        of: QualifiedName,
        /// The packed dimensions.
        packed: Dimensions,
    },
}

/// A name of an enumeration (IEEE 1800-2017 A.2.2.1 enum_name_declaration).
#[derive(Drop)]
pub struct EnumName {
    /// The name.
    pub name: u32,
    /// Its value, where it is written.
    pub value: Option<Initializer>,
}

/// The names of an enumeration, in order.
pub type EnumNames = Items<EnumName>;

/// A name with unpacked dimensions.
#[derive(Drop)]
pub struct DimensionedName {
    /// The name.
    pub name: u32,
    /// The unpacked dimensions.
    pub unpacked: Dimensions,
}

/// Names with unpacked dimensions, in order.
pub type DimensionedNames = Items<DimensionedName>;

/// Members of one type (IEEE 1800-2017 A.2.2.1 struct_union_member).
#[derive(Drop)]
#[cycle(types)]
pub struct Member {
    /// The type.
    pub of: TypeText,
    /// The members, at least one.
    pub names: DimensionedNames,
    /// The `;`.
    pub semicolon: u32,
}

/// The members of a structure or a union, in order.
pub type Members = Items<Member>;

/// A type as it is written (IEEE 1800-2017 A.2.2.1 data_type and data_type_or_implicit).
#[derive(Drop)]
#[cycle(types)]
pub enum TypeText {
    /// A word and dimensions.
    Keyword {
        /// The word, with its sign.
        of: KeywordType,
        /// The packed dimensions.
        packed: Dimensions,
    },
    /// A structure or a union.
    Structure {
        /// The first word.
        aggregate: Aggregate,
        /// Whether it is packed.
        packing: Option<Packing>,
        /// The `{`.
        opening: u32,
        /// The members, at least one.
        members: Members,
        /// The `}`.
        closing: u32,
        /// The packed dimensions behind it.
        packed: Dimensions,
    },
    /// An enumeration.
    Enumeration {
        /// The word `enum`.
        keyword: u32,
        /// The type under it, where it is written.
        base: Option<EnumBase>,
        /// The `{`.
        opening: u32,
        /// The names, at least one.
        names: EnumNames,
        /// The `}`.
        closing: u32,
        /// The packed dimensions behind it.
        packed: Dimensions,
    },
    /// A named type and dimensions.
    Named {
        /// The name.
        of: QualifiedName,
        /// The packed dimensions.
        packed: Dimensions,
    },
    /// A sign and dimensions, dimensions, or nothing, where a type may be left out.
    Implicit {
        /// The sign, where it is written.
        signing: Option<Signing>,
        /// The packed dimensions.
        packed: Dimensions,
    },
}

/// `typedef` and a type's name (IEEE 1800-2017 A.2.1.3 type_declaration).
#[derive(Drop)]
pub struct TypeDeclaration {
    /// The word `typedef`.
    pub keyword: u32,
    /// The type.
    pub of: TypeText,
    /// The name that it gets.
    pub name: u32,
    /// The unpacked dimensions behind the name.
    pub unpacked: Dimensions,
    /// The `;`.
    pub semicolon: u32,
}
