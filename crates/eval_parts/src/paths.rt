//! The bits that select paths name (IEEE 1800-2017 clause 11.5.1).

ghost use Rattle.std.specs.Prelude.{◌≡◌, ◌≤◌, ◌^◌, ◌+ℤ◌, ◌≤ℤ◌, pos, max, min};
ghost use Rattle.picks.specs.Windows.{part, at_least_0, whole, nowhere, trimmed};
ghost use Rattle.eval_parts.specs.Places.{window_of, IsNear};

use b4_core::Vec4;

/// Bit j of a path is bit j + `shift` of what it stands on, where that lies from `low` up to, but not including, `high`.
#[derive(Clone, Copy)]
pub struct Window {
    pub shift: i128,
    pub low: u32,
    pub high: u32,
}

/// What a path stands on.
#[derive(Drop)]
pub enum Root {
    /// The signal with a number.
    Signal(u32),
    /// The local with a number.
    Local(u32),
    /// Bits of a value.
    Value(Vec4),
}

/// A path whose indices are valued.
#[derive(Drop)]
pub struct Found {
    pub root: Root,
    pub window: Window,
}

// The number, or 0 where it is negative.
fn at_least_zero(n: i128) -> u128
    ensures { result ≡ at_least_0 n }
{
    if n < 0 { 0 } else { n as u128 }
}

/// All of a signal or local.
pub fn entire(width: u32) -> Window
    ensures window { window_of result ≡ whole width }
    ensures near { IsNear result.shift }
{
    Window {
        shift: 0,
        low: 0,
        high: width,
    }
}

/// Nothing.
pub fn nothing() -> Window
    ensures window { window_of result ≡ nowhere }
    ensures near { IsNear result.shift }
{
    Window {
        shift: 0,
        low: 0,
        high: 0,
    }
}

// A sum that doesn't overflow.
fn sum(a: i128, b: i128) -> i128
    requires a { IsNear a }
    requires b { IsNear b }
    ensures { result ≡ a +ℤ b }
{
    a + b
}

// Where a part of so many bits ends.
fn end_of(shift: i128, width: u128) -> i128
    requires shift { shift ≤ℤ pos (2 ^ 101) }
    requires width { width ≤ 2 ^ 100 }
    ensures { result ≡ shift +ℤ pos width }
{
    shift + width as i128
}

// The lower end of a part, which starts at `from` if that is in range.
fn lower_end(low: u32, from: i128) -> u128
    ensures { result ≡ max low (at_least_0 from) }
{
    (low as u128).max(at_least_zero(from))
}

// Its upper end.
fn upper_end(high: u32, end: i128) -> u32
    ensures { result ≡ min high (at_least_0 end) }
{
    (high as u128).min(at_least_zero(end)) as u32
}

// A window, or nothing where it has no bit.
#[tactic(auto, using(crate::proofs::Seen::trimming))]
fn trim(shift: i128, low: u128, high: u32) -> Window
    ensures { window_of result ≡ trimmed (record { shift = shift; low = low; high = high }) }
{
    if low < high as u128 {
        Window {
            shift,
            low: low as u32,
            high,
        }
    } else {
        nothing()
    }
}

/// So many bits of a path from its bit number `from` on; some of them may be out of range.
#[tactic(auto, using(crate::proofs::Near::parts))]
pub fn part_of(path: Window, from: i128, width: u128) -> Window
    requires path { IsNear path.shift }
    requires from { IsNear from }
    requires width { width ≤ 2 ^ 100 }
    ensures window { window_of result ≡ part from width (window_of path) }
    ensures near { IsNear result.shift }
{
    let shift = sum(path.shift, from);
    let low = lower_end(path.low, shift);
    trim(shift, low, upper_end(path.high, end_of(shift, width)))
}
