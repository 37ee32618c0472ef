//! Whether two things write one number, and the least place at which that shows.
//!
//! `clashes_up_to` goes over all pieces once, and `least_clash` calls it at most 65 times.
#![tactic(auto)]

ghost use Rattle.std.specs.Prelude.{◌≡◌, ◌≤◌, ◌<◌, ◌&&◌, true, IfOk};
ghost use Rattle.std.specs.List.Sorted.{IsPermutation, IsNonDecreasingBy};
ghost use Rattle.bit_clashes.specs.Clashes as spec;
ghost use Rattle.bit_clashes.specs.Clashes.{ArePlaced, Clash, IsLeastClash, low_of};

use bit_sets::Span;
use sqlite_items::Items;
use std::alloc::AllocError;

/// Numbers that one thing writes, at a token. Its place is the instance's number times 2^32, and the token's.
#[derive(Clone, Copy)]
pub struct Piece {
    /// The numbers.
    pub span: Span,
    /// The number of the thing.
    pub by: u32,
    /// The instance in whose text it stands.
    pub instance: u32,
    /// Its token there.
    pub at: u32,
}

/// How far the pieces so far reach.
#[derive(Clone, Copy)]
pub struct Reach {
    /// The greatest end.
    pub end: u128,
    /// The thing whose piece it is.
    pub by: u32,
    /// The greatest end of pieces of other things.
    pub other: u128,
}

fn place_of(p: Piece) -> u64
    ensures value { result ≡ spec.place_of p }
    ensures placed { spec.IsPlaced p }
{
    p.instance as u64 * 4294967296 + p.at as u64
}

// Whether a piece stands at a place or before it, and has a number.
fn counts(limit: u64, p: Piece) -> bool
    ensures { result ≡ spec.counts limit p }
{
    place_of(p) <= limit && p.span.low < p.span.high
}

// Whether a piece begins before a piece of another thing ends.
fn meets_other(r: Reach, p: Piece) -> bool
    ensures { result ≡ spec.meets_other r p }
{
    let end = if p.by == r.by { r.other } else { r.end };
    p.span.low < end
}

fn grown(r: Reach, p: Piece) -> Reach
    ensures { result ≡ spec.grown r p }
{
    if p.by == r.by {
        return Reach {
            end: r.end.max(p.span.high),
            ..r
        };
    }
    if r.end < p.span.high {
        return Reach {
            end: p.span.high,
            by: p.by,
            other: r.end,
        };
    }
    Reach {
        other: r.other.max(p.span.high),
        ..r
    }
}

// Whether two things write one number, at that place or before it.
fn clashes_up_to(limit: u64, pieces: &[Piece]) -> bool
    ensures { result ≡ spec.sweep limit spec.start pieces.now }
{
    let mut reach = Reach {
        end: 0,
        by: 0,
        other: 0,
    };
    for p in pieces {
        if counts(limit, *p) {
            if meets_other(reach, *p) {
                return true;
            }
            reach = grown(reach, *p);
        }
    }
    false
}

// The numbers of instances and tokens have 32 bits.
#[tactic(auto, using(crate::proofs::Placed::placed_laws))]
fn are_placed(pieces: &[Piece])
    ensures { ArePlaced pieces.now }
{
    for p in pieces {
        let _place = place_of(*p);
    }
}

/// Puts pieces into the order of their first numbers.
pub fn in_order(pieces: Vec<Piece>) -> Result<Items<Piece>, AllocError>
    ensures same { IfOk result (λ r. IsPermutation pieces.items r) }
    ensures ordered { IfOk result (λ r. IsNonDecreasingBy low_of r) }
    ensures placed { IfOk result (λ r. ArePlaced r) }
{
    let mut all = pieces;
    all.sort_by_key(|p| p.span.low)?;
    let ordered = Items::from_vec(all);
    are_placed(ordered.as_slice());
    Ok(ordered)
}

/// The least place such that two things write one number there or before, by pieces in the order of their first numbers.
#[tactic(auto, using(crate::proofs::Sweeping::sweeps))]
pub fn least_clash(pieces: &[Piece]) -> Option<u64>
    requires { IsNonDecreasingBy low_of pieces.now }
    ensures { IsLeastClash pieces.now result }
{
    if !clashes_up_to(u64::MAX, pieces) {
        return None;
    }
    let mut low: u64 = 0;
    let mut high = u64::MAX;
    while low < high {
        let middle = low + (high - low) / 2;
        if clashes_up_to(middle, pieces) {
            high = middle;
        } else {
            low = middle + 1;
        }
    }
    Some(low)
}
