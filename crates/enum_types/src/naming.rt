//! The values of names.

ghost use Rattle.std.specs.Prelude.{◌≡◌, ℤ, List, Option, nat_lt};
ghost use Rattle.expr_type.specs.Names.{Source};
ghost use Rattle.expr_type.specs.Types.{NameValue};
ghost use Rattle.sv_types.specs.Layouts.{width_of};
ghost use Rattle.enum_types.specs.Bits.{BitsOf};
ghost use Rattle.enum_types.specs.Naming.{IsInside, Names, named};
ghost use Rattle.enum_types.specs.Taken.{Holds};

use crate::taken::Taken;
use b4_core::Vec4;
use expr_type::Halt;
use std::alloc::Global;
use sv_types::{SvType, is_narrow, width};

/// The most bits of a constant.
pub const MOST_BITS: u32 = 65_536;

/// Whether a type has more bits than that.
pub fn is_long(t: &SvType) -> bool
    ensures { result ≡ nat_lt 65536 (width_of t.now) }
{
    if is_narrow(t) {
        return width(t) > MOST_BITS;
    }
    true
}

/// The value of an enum's name at a token by its bits in the base, or by none where the base doesn't hold it. It breaks E411 at the
/// first token of what gives it where there are none, E509 at the name where a name before has the value, and E701 there where the
/// base has more than 65,536 bits.
#[tactic(auto, using(crate::proofs::Said::naming))]
pub fn named_value(
    alloc: Global,
    first: u32,
    at: u32,
    base: &SvType,
    taken: &Taken,
    bits: Option<Vec4>,
) -> Result<Vec4, Halt>
    ensures { (k : Source) (before : List NameValue) (o : Option ℤ) → BitsOf base.now bits o → IsInside base.now o → Holds base.now taken.now before → Names base.now at result (named k first at base.now before o) }
{
    let Some(v) = bits else {
        return Err(Halt::Breaks {
            at: first,
            rule: 411,
        });
    };
    if taken.has(alloc, &v)? {
        return Err(Halt::Breaks { at, rule: 509 });
    }
    if is_long(base) {
        return Err(Halt::Breaks { at, rule: 701 });
    }
    Ok(v)
}
