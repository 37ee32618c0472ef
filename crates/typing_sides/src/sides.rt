//! Two things in the order of the text.

ghost use Rattle.typing_sides.specs.Sides.{Besides};

use expr_type::Halt;

/// Both of two things that have been looked at. The first break counts; behind what breaks no rule and isn't whole nothing is whole.
pub fn beside<A: Drop, B: Drop>(a: Result<A, Halt>, b: Result<B, Halt>) -> Result<(A, B), Halt>
    ensures { Besides a b result }
{
    match a {
        Ok(a) => Ok((a, b?)),
        Err(Halt::Quiet) => match b {
            Ok(_) => Err(Halt::Quiet),
            Err(halt) => Err(halt),
        },
        Err(Halt::Memory) => Err(Halt::Memory),
        Err(Halt::Breaks { at, rule }) => Err(Halt::Breaks { at, rule }),
    }
}
