//! What stands on the right of `inside`.

ghost use Rattle.std.specs.Prelude.{◌≡◌, ◌≤◌, map, max, IfOk};
ghost use Rattle.std.specs.List.{list_any};
ghost use Rattle.expr_type.specs.Operands.{too_wide, width};
ghost use Rattle.expr_type.specs.Operators as operator;
ghost use Rattle.expr_type.specs.Operators.{over};
ghost use Rattle.expr_type.specs.Shapes as shape;
ghost use Rattle.operand_types.specs.Allowed.{IsNarrow};
ghost use Rattle.sv_types.specs.Meanings.{most};
ghost use Rattle.inside_types.specs.Alternatives.{AllNarrowIn, IsNarrowIn, alternative, any_unpacked, first_of, first_wide_among, or_first, unpacked_in, wide_in};

use expr_type::Valued;
use operand_types::MOST_ARITHMETIC;
use std::alloc::{AllocError, Global};
use sv_source::Items;
use sv_types::{Choice, Choices, width};
use type_kinds::is_unpacked;

/// What a value may be on the right of `inside`.
#[derive(Drop)]
pub enum Alternative {
    /// This value.
    Only(Valued),
    /// From the first to the second, both included.
    Between {
        /// The least.
        low: Valued,
        /// The greatest.
        high: Valued,
    },
}

/// What stands on the right of `inside`, in order.
pub type Alternatives = Items<Alternative>;

// Whether a value of an item is unpacked.
fn is_unpacked_in(item: &Alternative) -> bool
    ensures { result ≡ unpacked_in item.now }
{
    match item {
        Alternative::Only(v) => is_unpacked(&v.expr.of),
        Alternative::Between { low, high } => {
            is_unpacked(&low.expr.of) || is_unpacked(&high.expr.of)
        }
    }
}

/// Whether a value of an item is unpacked.
pub fn is_any_unpacked(items: &[Alternative]) -> bool
    ensures { result ≡ any_unpacked items.now }
{
    for item in items {
        if is_unpacked_in(item) {
            return true;
        }
    }
    false
}

// The larger width of two values.
fn wider(v: &Valued, u: &Valued) -> u32
    requires left { IsNarrow v.now }
    requires right { IsNarrow u.now }
    ensures value { result ≡ max (width v.now) (width u.now) }
    ensures narrow { result ≤ 4194304 }
{
    width(&v.expr.of).max(width(&u.expr.of))
}

// The width of the comparisons of a value with an item.
fn compared(v: &Valued, item: &Alternative) -> u32
    requires left { IsNarrow v.now }
    requires item { IsNarrowIn item.now }
    ensures value { result ≡ operator.compared v.now (alternative item.now) }
    ensures narrow { result ≤ 4194304 }
{
    match item {
        Alternative::Only(u) => wider(v, u),
        Alternative::Between { low, high } => wider(v, low).max(wider(v, high)),
    }
}

// The width of those by order.
fn ordered(v: &Valued, item: &Alternative) -> u32
    requires left { IsNarrow v.now }
    requires item { IsNarrowIn item.now }
    ensures value { result ≡ operator.ordered v.now (alternative item.now) }
    ensures narrow { result ≤ 4194304 }
{
    match item {
        Alternative::Only(_) => 0,
        Alternative::Between { low, high } => wider(v, low).max(wider(v, high)),
    }
}

/// The greatest width of the comparisons of a value with some items.
pub fn most_compared(v: &Valued, items: &[Alternative]) -> u32
    requires left { IsNarrow v.now }
    requires items { AllNarrowIn items.now }
    ensures value { result ≡ most (map (operator.compared v.now) (map alternative items.now)) }
{
    let mut most: u32 = 0;
    for item in items {
        most = most.max(compared(v, item));
    }
    most
}

/// The greatest width of those by order.
pub fn most_ordered(v: &Valued, items: &[Alternative]) -> u32
    requires left { IsNarrow v.now }
    requires items { AllNarrowIn items.now }
    ensures value { result ≡ most (map (operator.ordered v.now) (map alternative items.now)) }
{
    let mut most: u32 = 0;
    for item in items {
        most = most.max(ordered(v, item));
    }
    most
}

/// The first operator that does arithmetic on more than 128 bits in a context of a width.
#[tactic(auto, using(crate::proofs::Firsts::wides))]
pub fn first_too_wide(width: u32, operators: &Items<u32>) -> Option<u32>
    ensures { result ≡ first_of (too_wide width operators.now) }
{
    if width <= MOST_ARITHMETIC {
        return None;
    }
    sv_source::at(operators.as_slice(), 0).copied()
}

/// An operator that works at a width, where that is too large.
#[tactic(auto, using(crate::proofs::Firsts::overs))]
pub fn first_over(at: u32, width: u32) -> Option<u32>
    ensures { result ≡ first_of (over at width) }
{
    if width <= MOST_ARITHMETIC {
        return None;
    }
    Some(at)
}

/// The first of two operators.
pub fn or_first(a: Option<u32>, b: Option<u32>) -> Option<u32>
    ensures { result ≡ or_first a b }
{
    match a {
        Some(at) => Some(at),
        None => b,
    }
}

// The first operator in an item that is too wide beside a value.
#[tactic(auto, using(crate::proofs::Firsts::items))]
fn first_wide_in(v: &Valued, item: &Alternative) -> Option<u32>
    requires left { IsNarrow v.now }
    requires item { IsNarrowIn item.now }
    ensures { result ≡ first_of (wide_in v.now item.now) }
{
    match item {
        Alternative::Only(u) => first_too_wide(wider(v, u), &u.arithmetic),
        Alternative::Between { low, high } => {
            let in_low = first_too_wide(wider(v, low), &low.arithmetic);
            or_first(in_low, first_too_wide(wider(v, high), &high.arithmetic))
        }
    }
}

/// The first operator in some items that is too wide beside a value.
pub fn first_wide_among(v: &Valued, items: &[Alternative]) -> Option<u32>
    requires left { IsNarrow v.now }
    requires items { AllNarrowIn items.now }
    ensures { result ≡ first_wide_among v.now items.now }
{
    for item in items {
        let first = first_wide_in(v, item);
        if first.is_some() {
            return first;
        }
    }
    None
}

// An item as a part of an expression.
fn choice(item: Alternative) -> Choice
    ensures { result ≡ operator.choice (alternative item) }
{
    match item {
        Alternative::Only(v) => Choice::Value(v.expr),
        Alternative::Between { low, high } => Choice::Range(low.expr, high.expr),
    }
}

/// Items as parts of an expression. Or want of memory.
#[tactic(auto, using(crate::proofs::Turns::turns))]
pub fn choices(alloc: Global, items: Alternatives) -> Result<Choices, AllocError>
    ensures { IfOk result (λ cs. cs ≡ map operator.choice (map alternative items)) }
{
    let mut left = items;
    let mut made = Vec::new(alloc);
    while let Some(item) = left.pop() {
        made.push(choice(item))?;
    }
    made.reverse();
    Ok(Items::from_vec(made))
}
