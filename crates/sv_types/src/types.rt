//! Types and values (IEEE 1800-2017 clauses 6 and 7).

use b4_core::Vec4;
use sv_source::{Boxed, Items, Text};

/// Members of a struct or union, in the order of their declaration.
pub type Members = Items<Member>;

/// Names of an enum, in the order of their declaration.
pub type EnumNames = Items<EnumName>;

/// Values of members or elements: the first member or the leftmost element first.
pub type Values = Items<Value>;

/// A type.
#[derive(Drop)]
#[cycle(sv_type)]
pub enum SvType {
    /// One bit: `bit`, `logic` or `reg` (clause 6.11).
    Scalar {
        /// Whether the bit is four-state.
        four: bool,
        /// Whether it is signed.
        signed: bool,
    },
    /// A packed array (clause 7.4.1); its leftmost element is the most significant one.
    PackedArray {
        /// The left bound.
        left: i64,
        /// The right bound.
        right: i64,
        /// Whether the whole is signed.
        signed: bool,
        /// The type of an element.
        item: Boxed<SvType>,
    },
    /// A struct (clause 7.2); its first member is the most significant one.
    Struct {
        /// The number of the declaration, by which two structs are told apart.
        id: u32,
        /// Whether it is packed.
        packed: bool,
        /// Whether it is signed as a whole.
        signed: bool,
        /// Its members.
        members: Members,
    },
    /// A packed union (clause 7.3.1), whose members have one width.
    Union {
        /// The number of the declaration.
        id: u32,
        /// Whether it is signed as a whole.
        signed: bool,
        /// Its members.
        members: Members,
    },
    /// An enum (clause 6.19).
    Enum {
        /// The number of the declaration.
        id: u32,
        /// The type that its values have.
        base: Boxed<SvType>,
        /// Its names.
        names: EnumNames,
    },
    /// An unpacked array (clause 7.4.2).
    UnpackedArray {
        /// The left bound.
        left: i64,
        /// The right bound.
        right: i64,
        /// The type of an element.
        item: Boxed<SvType>,
    },
}

/// A member of a struct or union.
#[derive(Drop)]
#[cycle(sv_type)]
pub struct Member {
    /// Its name.
    pub name: Text,
    /// Its type.
    pub of: SvType,
}

/// A name of an enum with its value.
pub struct EnumName {
    /// The name.
    pub name: Text,
    /// Its value, of the width of the base.
    pub value: Vec4,
}

impl Drop for EnumName {
    fn drop(self) {
        let EnumName { name: _, value: _ } = self;
    }
}

/// A value of a type. A scalar, a union or an enum has bits, a struct or an array the values of its members or elements.
#[derive(Drop)]
#[cycle(value)]
pub enum Value {
    /// Bits, least significant first.
    Bits(Vec4),
    /// The values of members or elements: the first member or the leftmost element first.
    Items(Values),
}
