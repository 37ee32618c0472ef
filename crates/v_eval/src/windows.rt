//! Bits of what a name stands for (IEEE 1364-2005 clause 5.2).

ghost use Rattle.std.specs.Prelude.{◌≡◌, ◌≤◌, ◌^◌, ◌+ℤ◌, ◌≤ℤ◌, pos, max, min, unsigned_abs};
ghost use Rattle.picks.specs.Windows.{part, at_least_0, whole, nowhere, trimmed};
ghost use Rattle.v_eval.specs.Windows.{window_of, IsNear};

/// Bit j of a path is bit j + `shift` of what its name stands for, where that lies from `low` up to, but not including,
/// `high`.
#[derive(Clone, Copy)]
pub struct Window {
    pub shift: i128,
    pub low: u128,
    pub high: u128,
}

// The number, or 0 where it is negative.
fn at_least_zero(n: i128) -> u128
    ensures { result ≡ at_least_0 n }
{
    if n < 0 { 0 } else { n as u128 }
}

/// All bits of what a name stands for.
pub fn entire(width: u128) -> Window
    requires { width ≤ 2 ^ 64 }
    ensures window { window_of result ≡ whole width }
    ensures near { IsNear result }
{
    Window {
        shift: 0,
        low: 0,
        high: width,
    }
}

/// No bit.
pub fn nothing() -> Window
    ensures window { window_of result ≡ nowhere }
    ensures near { IsNear result }
{
    Window {
        shift: 0,
        low: 0,
        high: 0,
    }
}

// Where a part starts.
fn start_of(path: Window, from: i128) -> i128
    requires path { IsNear path }
    requires from { unsigned_abs from ≤ 2 ^ 71 }
    ensures { result ≡ path.shift +ℤ from }
{
    path.shift + from
}

// Where a part of so many bits ends.
fn end_of(shift: i128, width: u64) -> i128
    requires { shift ≤ℤ pos (2 ^ 100) }
    ensures { result ≡ shift +ℤ pos width }
{
    shift + width as i128
}

// A window, or nothing where it has no bit.
#[tactic(auto, using(crate::proofs::Near::trimming))]
fn trim(shift: i128, low: u128, high: u128) -> Window
    ensures { window_of result ≡ trimmed (record { shift = shift; low = low; high = high }) }
{
    if low < high {
        Window { shift, low, high }
    } else {
        nothing()
    }
}

/// So many bits of a path from its bit number `from` on; some of them may be out of range.
#[tactic(auto, using(crate::proofs::Near::parts))]
pub fn part_of(path: Window, from: i128, width: u64) -> Window
    requires path { IsNear path }
    requires from { unsigned_abs from ≤ 2 ^ 71 }
    requires width { width ≤ 2 ^ 64 }
    ensures window { window_of result ≡ part from width (window_of path) }
    ensures near { IsNear result }
{
    let shift = start_of(path, from);
    let low = path.low.max(at_least_zero(shift));
    let high = path.high.min(at_least_zero(end_of(shift, width)));
    trim(shift, low, high)
}
