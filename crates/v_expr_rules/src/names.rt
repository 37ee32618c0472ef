//! What is kept of a name with selects.

ghost use Rattle.std.specs.Prelude.{◌≡◌};
ghost use Rattle.v_expr_rules.specs.Seen as means;

use crate::numbers::{earlier, mark, plus, range_bits};
use crate::seen::Seen;
use crate::sels::{SelSeen, SelsSeen};
use v_scopes::{Entry, Kind};

fn behind_first(first: Option<SelSeen>, at: u32) -> u32
    ensures { result ≡ means.behind_first first at }
{
    match first {
        None => at,
        Some(sel) => plus(at, sel.size),
    }
}

// Selects of bits stand behind a name with a range, one at most.
fn sels_mark(ranged: bool, sels: SelsSeen, at: u32) -> Option<u32>
    ensures { result ≡ means.sels_mark ranged sels at }
{
    earlier(
        mark(sels.outer.is_some() && !ranged, at),
        mark(sels.inner.is_some(), behind_first(sels.outer, at)),
    )
}

fn is_indexed(first: Option<SelSeen>) -> bool
    ensures { result ≡ means.is_indexed first }
{
    match first {
        None => false,
        Some(sel) => sel.is_index,
    }
}

// A memory stands with an index, and a second select behind words with a range.
fn memory_mark(ranged: bool, sels: SelsSeen, at: u32) -> Option<u32>
    ensures { result ≡ means.memory_mark ranged sels at }
{
    earlier(
        mark(!is_indexed(sels.outer), at),
        mark(
            sels.inner.is_some() && !ranged,
            behind_first(sels.outer, plus(at, 1)),
        ),
    )
}

/// The first token that breaks a rule on what a name with selects stands for.
pub fn name_mark(entry: Option<Entry>, sels: SelsSeen, at: u32) -> Option<u32>
    ensures { result ≡ means.name_mark entry sels at }
{
    match entry {
        None => Some(at),
        Some(Entry::Value { kind: _, left }) => sels_mark(left.is_some(), sels, plus(at, 1)),
        Some(Entry::Memory { left }) => memory_mark(left.is_some(), sels, at),
        Some(Entry::Function { left: _, item: _ }) => Some(at),
        Some(Entry::Result { left, item: _ }) => sels_mark(left.is_some(), sels, plus(at, 1)),
        Some(Entry::Part) => Some(at),
    }
}

fn selected(width: u32, sel: Option<SelSeen>) -> u32
    ensures { result ≡ means.selected width sel }
{
    match sel {
        None => width,
        Some(sel) => sel.bits,
    }
}

/// The width of a name with selects.
pub fn name_bits(entry: Option<Entry>, sels: SelsSeen) -> u32
    ensures { result ≡ means.name_bits entry sels }
{
    match entry {
        None => 0,
        Some(Entry::Value { kind: _, left }) => selected(range_bits(left), sels.outer),
        Some(Entry::Memory { left }) => selected(range_bits(left), sels.inner),
        Some(Entry::Function { left: _, item: _ }) => 0,
        Some(Entry::Result { left, item: _ }) => selected(range_bits(left), sels.outer),
        Some(Entry::Part) => 0,
    }
}

fn is_net_kind(kind: Kind) -> bool
    ensures { result ≡ means.is_net_kind kind }
{
    match kind {
        Kind::Input => false,
        Kind::Net => true,
        Kind::Variable => false,
        Kind::Local => false,
    }
}

/// Whether a name stands for a net that is no input.
pub fn is_net(entry: Option<Entry>) -> bool
    ensures { result ≡ means.is_net entry }
{
    match entry {
        None => false,
        Some(Entry::Value { kind, left: _ }) => is_net_kind(kind),
        Some(Entry::Memory { left: _ }) => false,
        Some(Entry::Function { left: _, item: _ }) => false,
        Some(Entry::Result { left: _, item: _ }) => false,
        Some(Entry::Part) => false,
    }
}

/// A name with selects, which begins at a token.
pub(crate) fn name_seen(entry: Option<Entry>, sels: SelsSeen, at: u32) -> Seen
    ensures { result ≡ means.name_seen entry sels at }
{
    let first = earlier(name_mark(entry, sels, at), sels.first);
    Seen {
        size: plus(1, sels.size),
        width: name_bits(entry, sels),
        narrow: first,
        wide: first,
        is_target: true,
        driven: earlier(mark(!is_net(entry), at), sels.moving),
    }
}
