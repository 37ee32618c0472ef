//! Things in a row, of which each may break rules.

ghost use Rattle.std.specs.Prelude.{◌≡◌};
ghost use Rattle.stmt_types.specs.Lists.{Follows, listed};

use expr_type::Halt;
use sv_source::Items;

/// What is made so far with one more thing behind it. The first break counts; behind what breaks no rule and isn't whole nothing is
/// whole.
pub fn followed<T: Drop>(made: Result<Vec<T>, Halt>, next: Result<T, Halt>) -> Result<Vec<T>, Halt>
    ensures { Follows made next result }
{
    match made {
        Ok(mut made) => {
            made.push(next?)?;
            Ok(made)
        }
        Err(Halt::Quiet) => match next {
            Ok(_) => Err(Halt::Quiet),
            Err(halt) => Err(halt),
        },
        Err(Halt::Memory) => Err(Halt::Memory),
        Err(Halt::Breaks { at, rule }) => Err(Halt::Breaks { at, rule }),
    }
}

/// What is made, as a list.
pub fn all_made<T: Drop>(made: Result<Vec<T>, Halt>) -> Result<Items<T>, Halt>
    ensures { result ≡ listed made }
{
    match made {
        Ok(made) => Ok(Items::from_vec(made)),
        Err(halt) => Err(halt),
    }
}
