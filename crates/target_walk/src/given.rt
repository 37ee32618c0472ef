//! Indices of select paths that are written, through part-selects (IEEE 1800-2017 clauses 7.4.5 and 11.5.1).

ghost use Rattle.std.specs.Prelude.{◌≡◌, ◌≤◌, ◌^◌, unsigned_abs, Some};
ghost use Rattle.sv_types.specs.Layouts.{layout, width_of};
ghost use Rattle.sv_types.specs.Windows.{falls};
ghost use Rattle.target_laws.specs.Elements.{lies_between, far_from};
ghost use Rattle.target_walk.specs.Giving.{IsSmall, IsSmallIf, AllSmallIf, given_of, given_or_lost, moved_given, kept_given, element_given, given_on};

use eval_parts::bounds_of;
use path_flatten::Index;
use sv_types::SvType;

/// An index of a select path.
#[derive(Drop)]
pub enum Given {
    /// A known number, or none where the index has x or z.
    Known(Option<i128>),
    /// A lowered index, which may be moved.
    Lowered {
        /// The index.
        index: Index,
        /// How far it is moved.
        by: i128,
    },
}

/// Whether an index is one of at most 64 bits that is moved by at most 2^36.
fn is_small(given: &Given) -> bool
    ensures { IsSmallIf result given.now }
{
    match given {
        Given::Known(None) => true,
        Given::Known(Some(k)) => k.unsigned_abs() <= 1 << 64,
        Given::Lowered { index, by } => index.width <= 64 && by.unsigned_abs() <= 1 << 36,
    }
}

/// Whether indices are such as a typed path has: of at most 64 bits, lowered ones moved by at most 2^36.
pub fn are_small(indices: &[Given]) -> bool
    ensures { AllSmallIf result indices.now }
{
    for given in indices {
        if !is_small(given) {
            return false;
        }
    }
    true
}

/// An index without x and z, known or by a reference to what was lowered.
#[derive(Clone, Copy)]
pub(crate) enum Element<'a> {
    /// A known number.
    Known(i128),
    /// A lowered index that is moved so far.
    Lowered(&'a Index, i128),
}

/// The same index, or none where it has x or z.
pub(crate) fn element_of(given: &Given) -> Option<Element<'_>>
    ensures { given_or_lost result ≡ given.now }
{
    match given {
        Given::Known(None) => None,
        Given::Known(Some(k)) => Some(Element::Known(*k)),
        Given::Lowered { index, by } => Some(Element::Lowered(index, *by)),
    }
}

/// An index that is moved so far.
fn moved(given: &Given, far: i128) -> Option<Element<'_>>
    requires small { IsSmall given.now }
    requires far { unsigned_abs far ≤ 2 ^ 36 }
    ensures { given_or_lost result ≡ moved_given given.now far }
{
    match given {
        Given::Known(None) => None,
        Given::Known(Some(k)) => Some(Element::Known(*k + far)),
        Given::Lowered { index, by } => Some(Element::Lowered(index, *by + far)),
    }
}

/// Whether a number lies between two bounds.
fn lies_in(left: i64, right: i64, k: i128) -> bool
    ensures { result ≡ lies_between left right k }
{
    let left = i128::from(left);
    let right = i128::from(right);
    (right <= k && k <= left) || (left <= k && k <= right)
}

/// A known index of a part-select with known bounds, as one of what it selects from.
pub(crate) fn kept(given: Element<'_>, left: i64, right: i64) -> Option<Element<'_>>
    ensures { given_or_lost result ≡ kept_given left right (given_of given.entry) }
{
    match given {
        Element::Lowered(_, _) => None,
        Element::Known(k) => {
            if lies_in(left, right, k) {
                Some(Element::Known(k))
            } else {
                None
            }
        }
    }
}

/// How far element `j` of `n` lies from the index at which they begin.
fn far_away(falls: bool, up: bool, n: u32, j: i128) -> i128
    requires { unsigned_abs j ≤ 2 ^ 32 }
    ensures value { result ≡ far_from falls up n j }
    ensures small { unsigned_abs result ≤ 2 ^ 36 }
{
    let last = i128::from(n.saturating_sub(1));
    match (falls, up) {
        (true, true) => j,
        (true, false) => j - last,
        (false, true) => last - j,
        (false, false) => 0 - j,
    }
}

/// Element `j` of `n` from an index on, as one of what has this type.
fn element_on<'a>(j: i128, base: &'a Given, of: &SvType, up: bool, n: u32) -> Option<Element<'a>>
    requires narrow { width_of of.now ≤ 4194304 }
    requires base { IsSmall base.now }
    ensures { given_or_lost result ≡ element_given (falls (layout of.now)) up n base.now (Some j) }
{
    if j < 0 {
        return None;
    }
    if i128::from(n) <= j {
        return None;
    }
    let bounds = bounds_of(of);
    moved(base, far_away(bounds.right <= bounds.left, up, n, j))
}

/// A known index of a part-select of `n` elements from an index on, as one of what it selects from.
pub(crate) fn gone_on<'a>(
    given: Element<'_>,
    base: &'a Given,
    of: &SvType,
    up: bool,
    n: u32,
) -> Option<Element<'a>>
    requires narrow { width_of of.now ≤ 4194304 }
    requires base { IsSmall base.now }
    ensures { given_or_lost result ≡ given_on (falls (layout of.now)) up n base.now (given_of given.entry) }
{
    match given {
        Element::Lowered(_, _) => None,
        Element::Known(j) => element_on(j, base, of, up, n),
    }
}
