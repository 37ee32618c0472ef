//! What is kept of selects (IEEE 1364-2005 clause 5.2.1).

ghost use Rattle.std.specs.Prelude.{◌≡◌};
ghost use Rattle.v_expr_rules.specs.Seen as means;

use crate::numbers::{bits_capped, earlier, mark, plus};
use crate::seen::{Seen, alone};
use v_tree::VExtent;

/// What is kept of a select.
#[derive(Clone, Copy, Drop)]
pub struct SelSeen {
    /// How many tokens it has.
    pub size: u32,
    /// How many bits it takes; 129 stands for all that are more.
    pub bits: u32,
    /// Whether it has no extent.
    pub is_index: bool,
    /// Whether its base is a decimal number.
    pub is_decimal: bool,
    /// The first token that breaks a rule.
    pub first: Option<u32>,
}

/// What is kept of the selects of a name.
#[derive(Clone, Copy, Drop)]
pub struct SelsSeen {
    /// How many tokens they have.
    pub size: u32,
    /// The first token in them that breaks a rule.
    pub first: Option<u32>,
    /// The first token that is a base other than a decimal number.
    pub moving: Option<u32>,
    /// The first select.
    pub outer: Option<SelSeen>,
    /// The second select.
    pub inner: Option<SelSeen>,
}

fn extent_tokens(extent: Option<VExtent>) -> u32
    ensures { result ≡ means.extent_tokens extent }
{
    match extent {
        None => 0,
        Some(_) => 2,
    }
}

fn is_none(extent: Option<VExtent>) -> bool
    ensures { result ≡ means.is_none extent }
{
    match extent {
        None => true,
        Some(_) => false,
    }
}

// The bits of a select with a decimal base; none where the bounds are out of order.
fn decimal_bits(base: u32, extent: Option<VExtent>) -> u64
    ensures { result ≡ means.decimal_bits base extent }
{
    match extent {
        None => 1,
        Some(VExtent::Down(right)) => (u64::from(base) + 1).saturating_sub(u64::from(right)),
        Some(VExtent::Up(width)) => u64::from(width),
    }
}

// The base, where the bounds are out of order.
fn decimal_mark(base: u32, extent: Option<VExtent>, at: u32) -> Option<u32>
    ensures { result ≡ means.decimal_mark base extent at }
{
    match extent {
        None => None,
        Some(VExtent::Down(right)) => mark(base < right, at),
        Some(VExtent::Up(_)) => None,
    }
}

/// A select with a decimal number as its base.
pub(crate) fn decimal_sel(base: u32, extent: Option<VExtent>, at: u32) -> SelSeen
    ensures { result ≡ means.decimal_sel base extent at }
{
    SelSeen {
        size: 3 + extent_tokens(extent),
        bits: bits_capped(decimal_bits(base, extent)),
        is_index: is_none(extent),
        is_decimal: true,
        first: decimal_mark(base, extent, plus(at, 1)),
    }
}

fn moving_bits(extent: Option<VExtent>) -> u64
    ensures { result ≡ means.moving_bits extent }
{
    match extent {
        None => 1,
        Some(VExtent::Down(_)) => 1,
        Some(VExtent::Up(width)) => u64::from(width),
    }
}

// The base, where it is a bound.
fn moving_mark(extent: Option<VExtent>, at: u32) -> Option<u32>
    ensures { result ≡ means.moving_mark extent at }
{
    match extent {
        None => None,
        Some(VExtent::Down(_)) => Some(at),
        Some(VExtent::Up(_)) => None,
    }
}

/// A select with an expression as its base.
pub(crate) fn moving_sel(base: Seen, extent: Option<VExtent>, at: u32) -> SelSeen
    ensures { result ≡ means.moving_sel base extent at }
{
    SelSeen {
        size: plus(2 + extent_tokens(extent), base.size),
        bits: bits_capped(moving_bits(extent)),
        is_index: is_none(extent),
        is_decimal: false,
        first: earlier(moving_mark(extent, plus(at, 1)), alone(base)),
    }
}

/// No selects.
pub(crate) fn no_sels() -> SelsSeen
    ensures { result ≡ means.no_sels }
{
    SelsSeen {
        size: 0,
        first: None,
        moving: None,
        outer: None,
        inner: None,
    }
}

fn first_sel(first: Option<SelSeen>, sel: SelSeen) -> Option<SelSeen>
    ensures { result ≡ means.first_sel first sel }
{
    match first {
        None => Some(sel),
        Some(first) => Some(first),
    }
}

fn second_sel(first: Option<SelSeen>, second: Option<SelSeen>, sel: SelSeen) -> Option<SelSeen>
    ensures { result ≡ means.second_sel first second sel }
{
    match first {
        None => None,
        Some(_) => first_sel(second, sel),
    }
}

/// Selects and one more, which begins at a token.
pub(crate) fn sel_added(sels: SelsSeen, at: u32, sel: SelSeen) -> SelsSeen
    ensures { result ≡ means.sel_added sels at sel }
{
    SelsSeen {
        size: plus(sels.size, sel.size),
        first: earlier(sels.first, sel.first),
        moving: earlier(sels.moving, mark(!sel.is_decimal, plus(at, 1))),
        outer: first_sel(sels.outer, sel),
        inner: second_sel(sels.outer, sels.inner, sel),
    }
}
