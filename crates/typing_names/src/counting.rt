//! How many declarations stand before each token of a source text.

ghost use Rattle.std.specs.Prelude.{◌≡◌, ◌<◌, ℕ, length, slice_index, IfOk, OnOk};
ghost use Rattle.typing_names.specs.Counts.{CountsMore, at_token, before_token};

use package_scope::Declaration;
use std::alloc::{AllocError, Global};
use sv_source::Items;

/// How many declarations stand before each token.
pub type Counts = Items<usize>;

// So many zeros.
fn zeros(alloc: Global, count: usize) -> Result<Counts, AllocError>
    ensures length { IfOk result (λ x. length x ≡ count) }
    ensures zeros { IfOk result (λ x. (q : ℕ) → slice_index x q ≡ 0) }
{
    let mut counts = Items::new(alloc);
    for _token in 0..count {
        counts.push(0)?;
    }
    Ok(counts)
}

// One more at a token, if it is there.
fn count_one(counts: &mut Counts, token: usize) -> Result<(), AllocError>
    ensures length { length counts.new ≡ length counts.old }
    ensures more { OnOk result (CountsMore token counts.old counts.new) }
{
    if token < counts.len() {
        let Some(more) = counts.as_slice()[token].checked_add(1) else {
            return Err(AllocError);
        };
        counts.set(token, more);
    }
    Ok(())
}

// How many declarations stand at each of so many tokens.
fn counts_at(alloc: Global, list: &[Declaration], count: usize) -> Result<Counts, AllocError>
    ensures length { IfOk result (λ x. length x ≡ count) }
    ensures counts { IfOk result (λ x. (q : ℕ) → q < count → slice_index x q ≡ at_token q list.now) }
{
    let mut counts = zeros(alloc, count)?;
    for declaration in list {
        count_one(&mut counts, declaration.at as usize)?;
    }
    Ok(counts)
}

/// How many of these declarations stand before each of so many tokens. It takes time by their numbers.
pub fn counts_before(
    alloc: Global,
    list: &[Declaration],
    count: usize,
) -> Result<Counts, AllocError>
    ensures length { IfOk result (λ x. length x ≡ count) }
    ensures counts { IfOk result (λ x. (q : ℕ) → q < count → slice_index x q ≡ before_token q list.now) }
{
    let counts = counts_at(alloc, list, count)?;
    let mut before = Items::new(alloc);
    let mut sum: usize = 0;
    for token in 0..counts.len() {
        before.push(sum)?;
        sum = match sum.checked_add(counts.as_slice()[token]) {
            None => return Err(AllocError),
            Some(sum) => sum,
        };
    }
    Ok(before)
}

/// How many of these declarations stand before a token.
pub fn count_before(list: &[Declaration], token: u32) -> usize
    ensures { result ≡ before_token token list.now }
{
    let mut count = 0;
    for declaration in list {
        if declaration.at < token {
            count += 1;
        }
    }
    count
}
