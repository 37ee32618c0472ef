//! What is kept of an expression.

ghost use Rattle.std.specs.Prelude.{◌≡◌};
ghost use Rattle.v_expr_rules.specs.Seen as means;

use crate::numbers::{bits_capped, plus};
use b4_core::Vec4;

/// What is kept of an expression.
#[derive(Clone, Copy, Drop)]
pub struct Seen {
    /// How many tokens it has.
    pub size: u32,
    /// Its width alone; 129 stands for all that are greater.
    pub width: u32,
    /// The first token that breaks a rule where the context has at most 128 bits.
    pub narrow: Option<u32>,
    /// The first token that breaks a rule where the context has more.
    pub wide: Option<u32>,
    /// Whether it is a name with selects or a concatenation of such.
    pub is_target: bool,
    /// The first token that breaks a rule where an output drives it.
    pub driven: Option<u32>,
}

/// Whether a width is over 128 bits.
pub fn is_wide(bits: u32) -> bool
    ensures { result ≡ means.is_wide bits }
{
    128 < bits
}

/// The first token that breaks a rule in a context of over 128 bits, or of at most so many.
pub fn in_context(seen: Seen, wide: bool) -> Option<u32>
    ensures { result ≡ means.in_context seen wide }
{
    if wide { seen.wide } else { seen.narrow }
}

/// The first token that breaks a rule where the expression stands alone.
pub fn alone(seen: Seen) -> Option<u32>
    ensures { result ≡ means.alone seen }
{
    in_context(seen, is_wide(seen.width))
}

/// An operand that is no target.
pub(crate) fn operand(size: u32, width: u32, narrow: Option<u32>, wide: Option<u32>) -> Seen
    ensures { result ≡ means.operand size width narrow wide }
{
    Seen {
        size,
        width,
        narrow,
        wide,
        is_target: false,
        driven: None,
    }
}

/// A number.
pub(crate) fn number_seen(bits: &Vec4) -> Seen
    ensures { result ≡ means.number_seen bits.now }
{
    operand(1, bits_capped(bits.len() as u64), None, None)
}

/// An expression in parentheses.
pub(crate) fn paren_seen(inner: Seen) -> Seen
    ensures { result ≡ means.paren_seen inner }
{
    operand(plus(2, inner.size), inner.width, inner.narrow, inner.wide)
}

/// An expression under a change of sign.
pub(crate) fn sign_seen(inner: Seen) -> Seen
    ensures { result ≡ means.sign_seen inner }
{
    operand(plus(3, inner.size), inner.width, alone(inner), alone(inner))
}
