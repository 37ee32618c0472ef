//! What is kept of lists of expressions.

ghost use Rattle.std.specs.Prelude.{◌≡◌, slice_get};
ghost use Rattle.v_expr_rules.specs.Seen as means;

use crate::numbers::{bits_of, bits_plus, bits_times, earlier, mark, plus, range_bits};
use crate::seen::{Seen, in_context, is_wide, operand};
use sv_source::at;
use v_scopes::Entry;
use v_tree::VLocal;

/// What is kept of expressions with commas between.
#[derive(Clone, Copy, Drop)]
pub struct ListSeen {
    /// How many tokens they have.
    pub size: u32,
    /// The sum of their widths; 129 stands for all that are greater.
    pub width: u32,
    /// The first token that breaks a rule, where each stands alone or is assigned to an input.
    pub first: Option<u32>,
    /// Whether all are targets.
    pub is_target: bool,
    /// The first token that breaks a rule where an output drives them.
    pub driven: Option<u32>,
}

/// No expressions.
pub(crate) fn no_items() -> ListSeen
    ensures { result ≡ means.no_items }
{
    ListSeen {
        size: 0,
        width: 0,
        first: None,
        is_target: true,
        driven: None,
    }
}

/// How many tokens stand before the item with this number, behind items of so many.
pub fn commas(number: usize, size: u32) -> u32
    ensures { result ≡ means.commas number size }
{
    if number == 0 { 0 } else { plus(size, 1) }
}

/// Whether an input is there and has over 128 bits.
pub(crate) fn input_wide(inputs: &[VLocal], number: usize) -> bool
    ensures { result ≡ means.input_wide (slice_get inputs.now number) }
{
    match at(inputs, number) {
        None => false,
        Some(input) => 128 < bits_of(input.range),
    }
}

/// A list and one item more, with so many tokens before it.
pub(crate) fn item_added(wide: bool, list: ListSeen, before: u32, item: Seen) -> ListSeen
    ensures { result ≡ means.item_added wide list before item }
{
    ListSeen {
        size: plus(before, item.size),
        width: bits_plus(list.width, item.width),
        first: earlier(list.first, in_context(item, wide || is_wide(item.width))),
        is_target: list.is_target && item.is_target,
        driven: earlier(list.driven, item.driven),
    }
}

/// A concatenation.
pub(crate) fn concat_seen(list: ListSeen) -> Seen
    ensures { result ≡ means.concat_seen list }
{
    Seen {
        size: plus(2, list.size),
        width: list.width,
        narrow: list.first,
        wide: list.first,
        is_target: list.is_target,
        driven: list.driven,
    }
}

/// A replication, which begins at a token.
pub(crate) fn repeat_seen(count: u32, list: ListSeen, at: u32) -> Seen
    ensures { result ≡ means.repeat_seen count list at }
{
    let first = earlier(mark(count == 0, plus(at, 1)), list.first);
    operand(
        plus(5, list.size),
        bits_times(count, list.width),
        first,
        first,
    )
}

fn call_bits(entry: Option<Entry>) -> u32
    ensures { result ≡ means.call_bits entry }
{
    match entry {
        None => 0,
        Some(Entry::Value { kind: _, left: _ }) => 0,
        Some(Entry::Memory { left: _ }) => 0,
        Some(Entry::Function { left, item: _ }) => range_bits(left),
        Some(Entry::Result { left, item: _ }) => range_bits(left),
        Some(Entry::Part) => 0,
    }
}

/// Whether a name stands for a function where it is called.
pub fn is_function(entry: Option<Entry>) -> bool
    ensures { result ≡ means.is_function entry }
{
    match entry {
        None => false,
        Some(Entry::Value { kind: _, left: _ }) => false,
        Some(Entry::Memory { left: _ }) => false,
        Some(Entry::Function { left: _, item: _ }) => true,
        Some(Entry::Result { left: _, item: _ }) => true,
        Some(Entry::Part) => false,
    }
}

/// A call, which begins at a token, with so many arguments for so many inputs.
pub(crate) fn call_seen(
    entry: Option<Entry>,
    inputs: usize,
    args: usize,
    list: ListSeen,
    at: u32,
) -> Seen
    ensures { result ≡ means.call_seen entry inputs args list at }
{
    let first = earlier(
        mark(!(is_function(entry) && inputs == args), at),
        list.first,
    );
    operand(plus(3, list.size), call_bits(entry), first, first)
}
