//! Numbers of signals and locals.

ghost use Rattle.std.specs.Prelude.{◌≡◌, ◌++◌, ℕ, ◌&&◌, true, map, filter, IfOk, OnOk};
ghost use Rattle.v_meaning.specs.Scopes.{is_signal};
ghost use Rattle.v_meaning.specs.Values.{is_empty};
ghost use Rattle.v_reads.specs.Reads.{is_among};

use b4_core::Items;
use std::alloc::{AllocError, Global};

/// Numbers of signals and locals.
pub type Numbers = Items<u64>;

/// Adds these numbers. Or want of memory.
pub(crate) fn add_all(numbers: &[u64], to: &mut Numbers) -> Result<(), AllocError>
    ensures { OnOk result (to.new ≡ to.old ++ numbers.now) }
{
    for number in numbers {
        to.push(*number)?;
    }
    Ok(())
}

// Those of these numbers that are signals.
fn signals_among(alloc: Global, numbers: &[u64]) -> Result<Vec<u64>, AllocError>
    ensures { IfOk result (λ v. v.items ≡ filter is_signal numbers.now) }
{
    let mut signals = Vec::new(alloc);
    for number in numbers {
        if *number < 4294967296 {
            signals.push(*number)?;
        }
    }
    Ok(signals)
}

/// Those of these numbers that are signals, each once, in ascending order. Or want of memory.
pub(crate) fn signals_once(alloc: Global, numbers: &[u64]) -> Result<Numbers, AllocError>
    ensures { IfOk result (λ ns. (n : ℕ) → is_among ns n ≡ (is_signal n && is_among numbers.now n)) }
{
    let mut signals = signals_among(alloc, numbers)?;
    signals.sort_unstable();
    signals.dedup();
    Ok(Items::from_vec(signals))
}

// Whether numbers are the same.
fn is_equal(a: &[u64], b: &[u64]) -> bool
    ensures { result ≡ true → a.now ≡ b.now }
{
    a == b
}

/// Whether lists are the same, number by number.
pub(crate) fn is_same(a: &[Numbers], b: &[Numbers]) -> bool
    ensures { result ≡ true → a.now ≡ b.now }
{
    if a.len() != b.len() {
        return false;
    }
    for i in 0..a.len() {
        if !is_equal(a[i].as_slice(), b[i].as_slice()) {
            return false;
        }
    }
    true
}

// Whether there is no number.
fn is_none(numbers: &Numbers) -> bool
    ensures { result ≡ is_empty numbers.now }
{
    numbers.is_empty()
}

/// For each list whether it has no number. Or want of memory.
pub(crate) fn are_none(alloc: Global, lists: &[Numbers]) -> Result<Items<bool>, AllocError>
    ensures { IfOk result (λ r. r ≡ map is_empty lists.now) }
{
    let mut made = Items::new(alloc);
    for numbers in lists {
        made.push(is_none(numbers))?;
    }
    Ok(made)
}
