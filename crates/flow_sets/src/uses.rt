//! Reads and writes of bits at tokens.

ghost use Rattle.std.specs.Prelude.{◌≡◌};
ghost use Rattle.flow_sets.specs.Bits.{use_of, span_of};
ghost use Rattle.sv_types.specs.Surroundings.{local_number};

use bit_sets::{Span, Use};
use sv_source::Items;

/// A write, and whether it is of exactly its bits.
#[derive(Clone, Copy)]
pub struct Write {
    /// The bits and the token.
    pub of: Use,
    /// Whether all of them are written.
    pub exact: bool,
}

/// Writes in order.
pub type Writes = Items<Write>;

/// The use, at a token, of the bits from `low` up to, but not including, `high` of a signal or local. A signal has its own
/// number, a local its number and 2^32.
pub fn use_at(number: u64, low: u32, high: u32, at: u32) -> Use
    ensures { result ≡ use_of (record { number = number; low = low; high = high; at = at }) }
{
    let first = number as u128 * 4294967296;
    Use {
        span: Span {
            low: first + low as u128,
            high: first + high as u128,
        },
        at,
    }
}

/// All bits of a local.
pub fn local_span(local: u32, width: u32) -> Span
    ensures { result ≡ span_of (record { number = local_number local; low = 0; high = width; at = 0 }) }
{
    let first = (local as u128 + 4294967296) * 4294967296;
    Span {
        low: first,
        high: first + width as u128,
    }
}
