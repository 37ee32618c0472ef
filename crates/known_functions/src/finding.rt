//! Functions that are known, by where they are declared.

ghost use Rattle.std.specs.Prelude.{◌≡◌, None, MatchOption};
ghost use Rattle.expr_type.specs.Functions.{known_from};
ghost use Rattle.function_places.specs.Places.{first_place};
ghost use Rattle.known_functions.specs.Behind.{IsFound};
ghost use Rattle.typing_parts.specs.Typists.{IsReady};

use function_places::WhereDeclared;
use typing_parts::Known;

/// The place of the function that is declared there, if it is known: that of the first such function.
#[tactic(auto, using(crate::proofs::Places::found))]
pub fn find(known: &Known, declared: &WhereDeclared) -> Option<usize>
    requires ready { IsReady known.now }
    ensures place { result ≡ first_place declared.now known.now.functions }
    ensures first { MatchOption result (known_from 0 declared.now.0 declared.now.1 declared.now.2 known.now.functions ≡ None) (λ n. IsFound n declared.now known.now.functions) }
{
    known.places.of(declared)
}
