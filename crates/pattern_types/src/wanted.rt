//! The items of a pattern that are looked at.

ghost use Rattle.std.specs.Prelude.{◌≡◌, ◌<◌, ◌%◌, true};
ghost use Rattle.std.specs.List.{list_any};
ghost use Rattle.pattern_types.specs.Leaves.{number_behind, wanted_at, wants};
ghost use Rattle.pattern_types.specs.Meaning.{written};

use crate::items::is_default;
use crate::operand::ItemKey;
use pattern_fit::PatternItem;

/// Which item of a pattern is looked at.
#[derive(Clone, Copy)]
pub enum Wanted {
    /// The one behind `default`.
    Default,
    /// The one with this number, from 0, `default` left out.
    Numbered(usize),
}

/// The item that stands with a key, where so many with another key than `default` stand before it.
pub fn wanted_at(key: &ItemKey, n: usize) -> Wanted
    ensures { result ≡ wanted_at (written key.now) n }
{
    if is_default(key) {
        Wanted::Default
    } else {
        Wanted::Numbered(n)
    }
}

/// How many such items stand before the next one.
pub fn number_behind(wanted: Wanted, n: usize) -> usize
    requires { n < 18446744073709551615 }
    ensures { result ≡ number_behind wanted n }
{
    match wanted {
        Wanted::Default => n,
        Wanted::Numbered(_) => n + 1,
    }
}

/// What is left of a number by another one; the number itself where the other one is 0.
#[tactic(auto, using(crate::proofs::Showing::remainders))]
pub fn remainder(n: u32, by: usize) -> usize
    ensures value { result ≡ n % by }
    ensures within { result < 4294967296 }
{
    if by == 0 { n as usize } else { n as usize % by }
}

/// Whether a member or element takes the item, of so many that aren't behind `default`.
pub fn wants(wanted: Wanted, count: usize, take: PatternItem) -> bool
    ensures { result ≡ wants wanted count take }
{
    match wanted {
        Wanted::Default => match take {
            PatternItem::Item(_) => false,
            PatternItem::Default => true,
            PatternItem::Spread => true,
        },
        Wanted::Numbered(n) => match take {
            PatternItem::Item(m) => remainder(m, count) == n,
            PatternItem::Default => false,
            PatternItem::Spread => false,
        },
    }
}

// Whether the member or element at a place takes the item.
#[tactic(auto, using(crate::proofs::Showing::somewhere))]
fn wants_at(wanted: Wanted, count: usize, takes: &[PatternItem], at: usize) -> bool
    ensures { result ≡ true → list_any (wants wanted count) takes.now ≡ true }
{
    match sv_source::at(takes, at) {
        None => false,
        Some(take) => wants(wanted, count, *take),
    }
}

// Whether the member or element takes the item that stands at its place from the front or from the end.
fn wants_in_order(wanted: Wanted, count: usize, takes: &[PatternItem]) -> bool
    ensures { result ≡ true → list_any (wants wanted count) takes.now ≡ true }
{
    match wanted {
        Wanted::Default => false,
        Wanted::Numbered(n) => {
            n < takes.len()
                && (wants_at(wanted, count, takes, n)
                    || wants_at(wanted, count, takes, takes.len() - 1 - n))
        }
    }
}

/// Whether any of some members or elements takes the item. Items mostly stand in the order of the elements, or the other way round:
/// those are found at once.
pub fn any_wants(wanted: Wanted, count: usize, takes: &[PatternItem]) -> bool
    ensures { result ≡ list_any (wants wanted count) takes.now }
{
    if wants_in_order(wanted, count, takes) {
        return true;
    }
    takes.iter().any(|take| wants(wanted, count, *take))
}
