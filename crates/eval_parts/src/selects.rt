//! Steps of select paths by an index (IEEE 1800-2017 clauses 7.4.5 and 11.5.1).

ghost use Rattle.std.specs.Prelude.{◌≡◌, ◌≤◌, ◌^◌, ◌-◌, ◌*◌, ◌+ℤ◌, ◌-ℤ◌, ◌*ℤ◌, ◌&&◌, pos, int_le, int_lt, cond, unsigned_abs, length, ◌<◌, Some, None, IfSome};
ghost use Rattle.b4_core.specs.Vectors.{num, digit, number, known, top_bit};
ghost use Rattle.b4_core.specs.Bits.{is_one};
ghost use Rattle.sv_types.specs.Layouts.{layout, width_of, count_of};
ghost use Rattle.sv_types.specs.Windows.{element_of, elements, between, slide, rank, lowest_index};
ghost use Rattle.eval_parts.specs.Places.{window_of, IsNear};

use crate::layouts::{Bounds, bounds_of};
use crate::paths::{Window, nothing, part_of};
use crate::vectors::is_known;
use b4_core::{Bit4, Vec4};
use sv_types::SvType;

// How far elements of so many bits reach.
#[tactic(auto, using(crate::proofs::Products::products))]
fn scaled(rank: i128, width: u32) -> i128
    requires rank { unsigned_abs rank ≤ 2 ^ 70 }
    requires width { width ≤ 2 ^ 30 }
    ensures value { result ≡ rank *ℤ pos width }
    ensures near { IsNear result }
{
    rank * width as i128
}

// How many elements lie below the one with an index.
fn rank_of(bounds: Bounds, k: i128) -> i128
    requires { unsigned_abs k ≤ 2 ^ 65 }
    ensures value { result ≡ cond (int_le bounds.right bounds.left) (k -ℤ bounds.right) (bounds.right -ℤ k) }
    ensures small { unsigned_abs result ≤ 2 ^ 70 }
{
    if bounds.right <= bounds.left {
        k - bounds.right as i128
    } else {
        bounds.right as i128 - k
    }
}

// How many elements there are.
fn count(bounds: Bounds) -> u128
    ensures value { result ≡ count_of bounds.left bounds.right }
    ensures small { result ≤ 2 ^ 70 }
{
    (bounds.left as i128 - bounds.right as i128).unsigned_abs() + 1
}

// The bits of so many elements.
#[tactic(auto, using(crate::proofs::Products::products))]
fn width_of_elements(n: u128, width: u32) -> u128
    requires n { n ≤ 2 ^ 70 }
    requires width { width ≤ 2 ^ 30 }
    ensures value { result ≡ n * width }
    ensures small { result ≤ 2 ^ 100 }
{
    n * width as u128
}

// So many elements, of which the lowest has this rank.
fn elements_at(t: &SvType, lowest: i128, n: u128, path: Window) -> Window
    requires narrow { width_of t.now ≤ 4194304 }
    requires lowest { unsigned_abs lowest ≤ 2 ^ 70 }
    requires n { n ≤ 2 ^ 70 }
    requires path { IsNear path.shift }
    ensures window { window_of result ≡ elements (layout t.now) lowest n (window_of path) }
    ensures near { IsNear result.shift }
{
    let element = bounds_of(t).element;
    part_of(path, scaled(lowest, element), width_of_elements(n, element))
}

// The rank of an index in a type.
fn rank_in(t: &SvType, k: i128) -> i128
    requires narrow { width_of t.now ≤ 4194304 }
    requires index { unsigned_abs k ≤ 2 ^ 65 }
    ensures value { result ≡ rank (layout t.now) k }
    ensures small { unsigned_abs result ≤ 2 ^ 70 }
{
    rank_of(bounds_of(t), k)
}

// Whether a rank is one of so many.
fn is_within(rank: i128, count: u128) -> bool
    requires { count ≤ 2 ^ 70 }
    ensures { result ≡ (int_le (pos 0) rank && int_lt rank (pos count)) }
{
    0 <= rank && rank < count as i128
}

/// The element with an index.
pub fn element_at(t: &SvType, index: Option<i128>, path: Window) -> Window
    requires narrow { width_of t.now ≤ 4194304 }
    requires index { IfSome index (λ k. unsigned_abs k ≤ 2 ^ 65) }
    requires path { IsNear path.shift }
    ensures window { window_of result ≡ element_of (layout t.now) index (window_of path) }
    ensures near { IsNear result.shift }
{
    match index {
        None => nothing(),
        Some(k) => {
            let lowest = rank_in(t, k);
            if is_within(lowest, count(bounds_of(t))) {
                elements_at(t, lowest, 1, path)
            } else {
                nothing()
            }
        }
    }
}

/// The elements from one bound to the other.
pub fn between_at(t: &SvType, left: i64, right: i64, path: Window) -> Window
    requires narrow { width_of t.now ≤ 4194304 }
    requires path { IsNear path.shift }
    ensures window { window_of result ≡ between (layout t.now) left right (window_of path) }
    ensures near { IsNear result.shift }
{
    let n = count(Bounds {
        left,
        right,
        element: 1,
    });
    elements_at(t, rank_in(t, right as i128), n, path)
}

// The index of the lowest of so many elements from an index on, upward or downward.
fn lowest_in(t: &SvType, up: bool, k: i128, n: u32) -> i128
    requires narrow { width_of t.now ≤ 4194304 }
    requires index { unsigned_abs k ≤ 2 ^ 64 }
    ensures value { result ≡ lowest_index (layout t.now) up k n }
    ensures small { unsigned_abs result ≤ 2 ^ 65 }
{
    let bounds = bounds_of(t);
    let further = n.saturating_sub(1) as i128;
    let falls = bounds.right <= bounds.left;
    match (up, falls) {
        (true, true) => k,
        (true, false) => k + further,
        (false, true) => k - further,
        (false, false) => k,
    }
}

/// So many elements from an index on, upward or downward.
pub fn slide_at(t: &SvType, up: bool, n: u32, index: Option<i128>, path: Window) -> Window
    requires narrow { width_of t.now ≤ 4194304 }
    requires index { IfSome index (λ k. unsigned_abs k ≤ 2 ^ 64) }
    requires path { IsNear path.shift }
    ensures window { window_of result ≡ slide (layout t.now) up n index (window_of path) }
    ensures near { IsNear result.shift }
{
    match index {
        None => nothing(),
        Some(k) => elements_at(t, rank_in(t, lowest_in(t, up, k, n)), n as u128, path),
    }
}

// 1 for the bit 1, else 0.
fn digit_of(b: Bit4) -> u128
    ensures { result ≡ digit b }
{
    match b {
        Bit4::One => 1,
        Bit4::Zero => 0,
        Bit4::X => 0,
        Bit4::Z => 0,
    }
}

// The unsigned number of at most 64 bits, none of which is x or z.
#[tactic(auto, using(crate::proofs::Products::numbers))]
fn magnitude(v: &[Bit4]) -> u128
    requires { length v.now ≤ 64 }
    ensures value { result ≡ num v.now }
    ensures small { result < 2 ^ 64 }
{
    let mut n: u128 = 0;
    let mut i = v.len();
    while i > 0 {
        i -= 1;
        n = 2 * n + digit_of(v[i]);
    }
    n
}

// 2 to a power of at most 64.
#[tactic(auto, using(crate::proofs::Products::powers))]
fn power_of_two(n: usize) -> u128
    requires { n ≤ 64 }
    ensures value { result ≡ 2 ^ n }
    ensures small { result ≤ 2 ^ 64 }
{
    let mut power: u128 = 1;
    for _i in 0..n {
        power *= 2;
    }
    power
}

// Whether the most significant bit is 1.
fn is_top_one(v: &[Bit4]) -> bool
    ensures { result ≡ is_one (top_bit v.now) }
{
    if v.is_empty() {
        return false;
    }
    match v[v.len() - 1] {
        Bit4::One => true,
        Bit4::Zero => false,
        Bit4::X => false,
        Bit4::Z => false,
    }
}

// The number of at most 64 bits, none of which is x or z.
fn number_of(v: &[Bit4], signed: bool) -> i128
    requires { length v.now ≤ 64 }
    ensures value { result ≡ number signed v.now }
    ensures small { unsigned_abs result ≤ 2 ^ 64 }
{
    let n = magnitude(v) as i128;
    if signed && is_top_one(v) {
        n - power_of_two(v.len()) as i128
    } else {
        n
    }
}

/// The number of an index of at most 64 bits, if no bit of it is x or z.
pub fn index_of(v: &Vec4, signed: bool) -> Option<i128>
    requires { length v.now ≤ 64 }
    ensures value { result ≡ cond (known v.now) (Some (number signed v.now)) None }
    ensures small { IfSome result (λ k. unsigned_abs k ≤ 2 ^ 64) }
{
    if is_known(v) {
        Some(number_of(v.as_slice(), signed))
    } else {
        None
    }
}
