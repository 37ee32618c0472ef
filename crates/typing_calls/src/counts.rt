//! Calls with another number of actuals than their functions have formals.

ghost use Rattle.std.specs.Prelude.{◌≡◌, ◌≤◌, length, take};
ghost use Rattle.routine_fits.specs.Sound.{AllSoundFunctions};
ghost use Rattle.typing_fits.specs.Sound.{Extends};
ghost use Rattle.typing_parts.specs.Typists.{IsReady, MakesKnown};
ghost use Rattle.typing_calls.specs.Calls.{first_halt, Uncounted};

use crate::needing::needed;
use expr_type::Halt;
use function_cuts::cut;
use std::alloc::Global;
use sv_tree::QualifiedName;
use typing_parts::{Known, Names};

// The first break of a function or of actuals that aren't whole. Where memory is wanting nothing else is said.
fn first_halt(place: Result<u32, Halt>, halt: Halt) -> Halt
    ensures { result ≡ first_halt place halt }
{
    match halt {
        Halt::Memory => Halt::Memory,
        Halt::Quiet => match place {
            Ok(_) => Halt::Quiet,
            Err(first) => first,
        },
        Halt::Breaks { at, rule } => match place {
            Ok(_) => Halt::Breaks { at, rule },
            Err(Halt::Quiet) => Halt::Breaks { at, rule },
            Err(Halt::Memory) => Halt::Memory,
            Err(Halt::Breaks { at, rule }) => Halt::Breaks { at, rule },
        },
    }
}

/// What a call breaks whose actuals aren't whole and of which there are more or fewer than its function has formals: the first break of
/// the function, which is looked at from the name on where so many functions were known, or else that of the actuals.
pub fn uncounted<S: Names, C: Fn(u32, &mut Known) -> Result<u32, Halt>>(
    alloc: Global,
    names: &S,
    needs: &C,
    of: QualifiedName,
    before: usize,
    halt: Halt,
    known: &mut Known,
) -> Halt
    requires needs { MakesKnown _ ((n : _) (k : _) → IsReady k.now → C.pre needs.now n k) (λ k. k.now) (C.post needs.now) (S.context names.now) }
    requires ready { IsReady known.old }
    requires within { before ≤ length known.old.functions }
    requires sound { AllSoundFunctions (take before known.old.functions) }
    ensures value { Uncounted (S.context names.now) of (take before known.old.functions) known.new.functions halt result }
    ensures ready { IsReady known.new }
    ensures keeps { Extends (take before known.old.functions) known.new.functions }
{
    cut(alloc, known, before);
    let place = needed(names, needs, of, known);
    first_halt(place, halt)
}
