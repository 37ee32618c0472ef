//! Natural numbers of any size, by limbs of 32 bits, the least significant one first.

ghost use Rattle.std.specs.Prelude.{◌≡◌, ◌≤◌, ◌+◌, ◌*◌, ◌<◌, ◌==◌, nat_lt, IfOk};
ghost use Rattle.type_widths.specs.Limbs.{after, limb_at, number};

use std::alloc::{AllocError, Global};
use sv_source::Items;

/// The limbs of a number.
pub type Limbs = Items<u32>;

// One more than the largest limb.
const BASE: u64 = 4_294_967_296;

// A limb, or 0 behind the last one.
fn limb(a: &[u32], i: usize) -> u32
    ensures { result ≡ limb_at a.now i }
{
    match sv_source::at(a, i) {
        Some(x) => *x,
        None => 0,
    }
}

// A limb of a product with what is added to it.
fn sum(a: u32, x: u32, n: u32, carry: u32) -> u64
    ensures value { result ≡ a + x * n + carry }
    ensures range { result ≤ 18446744073709551615 }
{
    u64::from(a) + u64::from(x) * u64::from(n) + u64::from(carry)
}

/// A number and another one so often.
#[tactic(auto, using(crate::proofs::Adding::adding))]
pub fn add_times(alloc: Global, a: &[u32], x: &[u32], n: u32) -> Result<Limbs, AllocError>
    ensures { IfOk result (λ r. number r ≡ number a.now + n * number x.now) }
{
    let mut made = Limbs::new(alloc);
    let mut carry: u32 = 0;
    for i in 0..a.len().max(x.len()) {
        let t = sum(limb(a, i), limb(x, i), n, carry);
        made.push((t % BASE) as u32)?;
        carry = (t / BASE) as u32;
    }
    made.push(carry)?;
    Ok(made)
}

// A number times the base.
fn shifted(alloc: Global, x: &[u32]) -> Result<Limbs, AllocError>
    ensures { IfOk result (λ r. number r ≡ 4294967296 * number x.now) }
{
    let mut made = Limbs::new(alloc);
    made.push(0)?;
    made.append(Limbs::from_slice(alloc, x)?)?;
    Ok(made)
}

/// A number so often and once more.
#[tactic(auto, using(crate::proofs::Adding::products))]
pub fn times_more(alloc: Global, x: &[u32], n: u64) -> Result<Limbs, AllocError>
    ensures { IfOk result (λ r. number r ≡ (n + 1) * number x.now) }
{
    let low = add_times(alloc, x, x, (n % BASE) as u32)?;
    let high = shifted(alloc, x)?;
    add_times(alloc, low.as_slice(), high.as_slice(), (n / BASE) as u32)
}

/// Whether a number is less than another one.
#[tactic(auto, using(crate::proofs::Ordering::ordering))]
pub fn is_less(a: &[u32], b: &[u32]) -> bool
    ensures { result ≡ nat_lt (number a.now) (number b.now) }
{
    let mut less = false;
    for i in 0..a.len().max(b.len()) {
        let (x, y) = (limb(a, i), limb(b, i));
        less = is_less_after(x, y, less);
    }
    less
}

// Whether a number is less by a limb, and else by the limbs below.
fn is_less_after(x: u32, y: u32, below: bool) -> bool
    ensures { result ≡ after x y below }
{
    x < y || (x == y && below)
}

/// Whether two numbers are equal.
#[tactic(auto, using(crate::proofs::Ordering::same))]
pub fn is_equal(a: &[u32], b: &[u32]) -> bool
    ensures { result ≡ (number a.now == number b.now) }
{
    let less = is_less(a, b);
    let more = is_less(b, a);
    !less && !more
}
