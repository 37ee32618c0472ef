//! Select paths, as far as their indices are known (IEEE 1800-2017 clause 11.5.1).

ghost use Rattle.std.specs.Prelude.{◌≡◌, ◌≤◌, ◌^◌, ◌&&◌, true, Some, None, slice_get};
ghost use Rattle.sv_types.specs.Layouts.{layout, width_of};
ghost use Rattle.sv_types.specs.Paths.{known_base, narrowed};
ghost use Rattle.sv_types.specs.Windows.{member_of, element_of, between, slide, whole};
ghost use Rattle.eval_parts.specs.Places.{IsNear, window_of};
ghost use Rattle.expr_flows.specs.Traces.{IsShort, prefix_of, stepped};

use eval_parts::{Window, between_at, element_at, entire, member_at, slide_at};
use sv_types::SvType;

/// A select path, as far as its indices are known.
#[derive(Clone, Copy)]
pub struct Traced {
    /// The number of the signal or local on which it stands, if it stands on one: that of a local and 2^32.
    pub root: Option<u64>,
    /// The bits that its longest prefix names whose indices are known.
    pub window: Window,
    /// Whether this is all of it.
    pub exact: bool,
    /// Whether what its last step selects from is known, where that is a value.
    pub base: bool,
}

/// An index, as far as it is known.
#[derive(Clone, Copy)]
pub enum Index {
    /// It isn't known.
    Variable,
    /// Its number, if no bit of it is x or z.
    Fixed(Option<i128>),
}

/// All of a signal or local.
pub fn whole_root(number: u64, width: u32) -> Traced
    ensures root { result.root ≡ Some number }
    ensures prefix { prefix_of result ≡ record { window = whole width; exact = true } }
    ensures base { result.base ≡ true }
    ensures near { IsNear result.window.shift }
{
    Traced {
        root: Some(number),
        window: entire(width),
        exact: true,
        base: true,
    }
}

/// All of a value, which may be known.
pub fn whole_value(width: u32, constant: bool) -> Traced
    ensures root { result.root ≡ None }
    ensures prefix { prefix_of result ≡ record { window = whole width; exact = constant } }
    ensures base { result.base ≡ constant }
    ensures near { IsNear result.window.shift }
{
    Traced {
        root: None,
        window: entire(width),
        exact: constant,
        base: constant,
    }
}

// Whether what a further step selects from is known, where that is a value.
fn base_of(from: Traced) -> bool
    ensures { result ≡ known_base from.root (from.exact && from.base) }
{
    match from.root {
        None => from.exact && from.base,
        Some(_) => true,
    }
}

/// A member of it.
pub fn member(from: Traced, t: &SvType, k: u32) -> Traced
    requires narrow { width_of t.now ≤ 4194304 }
    requires near { IsNear from.window.shift }
    ensures root { result.root ≡ from.root }
    ensures prefix { prefix_of result ≡ narrowed (member_of (slice_get (layout t.now).members k)) (prefix_of from) }
    ensures base { result.base ≡ known_base from.root (from.exact && from.base) }
    ensures near { IsNear result.window.shift }
{
    let base = base_of(from);
    if !from.exact {
        return Traced { base, ..from };
    }
    let window = member_at(t, k, from.window);
    Traced {
        window,
        base,
        ..from
    }
}

/// A part of it with constant bounds.
pub fn part(from: Traced, t: &SvType, left: i64, right: i64) -> Traced
    requires narrow { width_of t.now ≤ 4194304 }
    requires near { IsNear from.window.shift }
    ensures root { result.root ≡ from.root }
    ensures prefix { prefix_of result ≡ narrowed (between (layout t.now) left right) (prefix_of from) }
    ensures base { result.base ≡ known_base from.root (from.exact && from.base) }
    ensures near { IsNear result.window.shift }
{
    let base = base_of(from);
    if !from.exact {
        return Traced { base, ..from };
    }
    let window = between_at(t, left, right, from.window);
    Traced {
        window,
        base,
        ..from
    }
}

/// An element of it.
pub fn element(from: Traced, t: &SvType, index: Index) -> Traced
    requires narrow { width_of t.now ≤ 4194304 }
    requires short { IsShort index }
    requires near { IsNear from.window.shift }
    ensures root { result.root ≡ from.root }
    ensures prefix { prefix_of result ≡ stepped (element_of (layout t.now)) index (prefix_of from) }
    ensures base { result.base ≡ known_base from.root (from.exact && from.base) }
    ensures near { IsNear result.window.shift }
{
    let base = base_of(from);
    let Index::Fixed(number) = index else {
        return Traced {
            base,
            exact: false,
            ..from
        };
    };
    if !from.exact {
        return Traced { base, ..from };
    }
    let window = element_at(t, number, from.window);
    Traced {
        window,
        base,
        ..from
    }
}

/// So many elements of it from an index on, upward or downward.
pub fn elements(from: Traced, t: &SvType, index: Index, width: u32, up: bool) -> Traced
    requires narrow { width_of t.now ≤ 4194304 }
    requires short { IsShort index }
    requires near { IsNear from.window.shift }
    ensures root { result.root ≡ from.root }
    ensures prefix { prefix_of result ≡ stepped (slide (layout t.now) up width) index (prefix_of from) }
    ensures base { result.base ≡ known_base from.root (from.exact && from.base) }
    ensures near { IsNear result.window.shift }
{
    let base = base_of(from);
    let Index::Fixed(number) = index else {
        return Traced {
            base,
            exact: false,
            ..from
        };
    };
    if !from.exact {
        return Traced { base, ..from };
    }
    let window = slide_at(t, up, width, number, from.window);
    Traced {
        window,
        base,
        ..from
    }
}
