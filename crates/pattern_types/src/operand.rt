//! Operands as they stand in others: values, patterns and streams.

ghost use Rattle.std.specs.Prelude.{◌≡◌};
ghost use Rattle.pattern_types.specs.Meaning.{parts_in};

use expr_type::Valued;
use sv_tree::QualifiedName;

/// The items of a pattern in the order of the text.
pub type Items = sv_source::Items<Item>;

/// What a name before an item stands for where the type of the pattern has no members.
#[derive(Clone, Copy)]
pub enum NameKey {
    /// A constant with this number, or with none where a bit of it is x or z. An index has at most 64 bits, with or without a sign.
    Number(Option<i128>),
    /// Nothing.
    Nothing,
    /// Something that breaks a rule there.
    Breaks {
        /// The token that breaks it.
        at: u32,
        /// The rule's number, as 406 for E406.
        rule: u16,
    },
    /// Something whose declaration is broken.
    Quiet,
}

/// What stands before an item of a pattern.
#[derive(Clone, Copy)]
pub enum ItemKey {
    /// Nothing: the item is given by its place.
    InPlace,
    /// `default`
    ByDefault,
    /// A name: that of a member where the type has members, else that of a constant.
    Named {
        /// The name as it is written.
        of: QualifiedName,
        /// What it stands for where the type has no members.
        otherwise: NameKey,
    },
    /// A constant index, or none where a bit of it is x or z.
    Numbered(Option<i128>),
}

/// An operand whose own parts are typed.
#[cycle(operand)]
#[derive(Drop)]
pub enum Operand {
    /// A value.
    Plain(Valued),
    /// An assignment pattern (IEEE 1800-2017 clause 10.9), which has the type of what it is given to.
    Pattern {
        /// Its `'`.
        tick: u32,
        /// How often its items are repeated; once unless it is a replication.
        times: u32,
        /// Its items.
        items: Items,
    },
    /// A stream (IEEE 1800-2017 clause 11.4.14).
    Stream(Valued),
}

/// An item of a pattern.
#[cycle(operand)]
#[derive(Drop)]
pub struct Item {
    /// What stands before it.
    pub key: ItemKey,
    /// What it gives.
    pub value: Operand,
}

/// A pattern with its items.
#[derive(Clone, Copy)]
pub struct Parts<'p> {
    /// Its `'`.
    pub tick: u32,
    /// How often its items are repeated.
    pub times: u32,
    /// Its items.
    pub items: &'p [Item],
}

/// A pattern by its parts.
pub fn listed<'p>(tick: &u32, times: &u32, items: &'p Items) -> Parts<'p>
    ensures { parts_in result ≡ record { tick = tick.now; times = times.now; items = items.now } }
{
    Parts {
        tick: *tick,
        times: *times,
        items: items.as_slice(),
    }
}
