//! Parts in a row, which are all looked at for their breaks, also behind one that breaks no rule and isn't whole.

ghost use Rattle.std.specs.Prelude.{◌≡◌};
ghost use Rattle.typing_rows.specs.Rows.{Adds, so_far};

use expr_type::Halt;
use sv_source::Items;

/// Adds a part that is whole, and answers whether all are so far. A break and want of memory end the walk.
pub fn add<T: Drop>(made: &mut Items<T>, whole: bool, one: Result<T, Halt>) -> Result<bool, Halt>
    ensures { Adds made.old whole one result made.new }
{
    match one {
        Ok(part) => {
            made.push(part)?;
            Ok(whole)
        }
        Err(Halt::Quiet) => Ok(false),
        Err(Halt::Memory) => Err(Halt::Memory),
        Err(Halt::Breaks { at, rule }) => Err(Halt::Breaks { at, rule }),
    }
}

/// The parts, if all are whole.
pub fn all_whole<T: Drop>(made: Items<T>, whole: bool) -> Result<Items<T>, Halt>
    ensures { result ≡ so_far whole made }
{
    if whole { Ok(made) } else { Err(Halt::Quiet) }
}
