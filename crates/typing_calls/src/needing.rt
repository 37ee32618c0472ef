//! Functions that are needed.

ghost use Rattle.std.specs.Prelude.{◌≡◌};
ghost use Rattle.typing_fits.specs.Sound.{Extends};
ghost use Rattle.typing_parts.specs.Typists.{CalledTo, IsReady, MakesKnown};
ghost use Rattle.typing_calls.specs.Calls.{has_count_of, needed_of};

use expr_type::Halt;
use sv_tree::QualifiedName;
use typing_parts::{Known, Names};

/// Whether the function that a name finds has as many formals as there are actuals, as far as it finds one.
pub fn has_count<S: Names>(names: &S, of: QualifiedName, count: usize) -> bool
    ensures { result ≡ has_count_of (S.context names.now) of count }
{
    match names.found(of) {
        None => true,
        Some(routine) => match names.formal_count(routine) {
            None => true,
            Some(formals) => formals == count,
        },
    }
}

/// The place of the function that a name finds among those that are known then: it is made known where it isn't, from the call on.
pub fn needed<S: Names, C: Fn(u32, &mut Known) -> Result<u32, Halt>>(
    names: &S,
    needs: &C,
    of: QualifiedName,
    known: &mut Known,
) -> Result<u32, Halt>
    requires needs { MakesKnown _ ((n : _) (k : _) → IsReady k.now → C.pre needs.now n k) (λ k. k.now) (C.post needs.now) (S.context names.now) }
    requires ready { IsReady known.old }
    ensures value { CalledTo result (needed_of (S.context names.now) of known.old.functions) known.new.functions }
    ensures ready { IsReady known.new }
    ensures keeps { Extends known.old.functions known.new.functions }
{
    match names.found(of) {
        None => Err(Halt::Quiet),
        Some(routine) => needs(routine, known),
    }
}
