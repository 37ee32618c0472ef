//! A function behind those that are known.

ghost use Rattle.std.specs.Prelude.{◌≡◌, [], ◌∷◌, ◌++◌, List, length, IfOk, OnOk, OnErr};
ghost use Rattle.function_places.specs.Places.{Declared, places_in};
ghost use Rattle.known_functions.specs.Behind.{or_else, place_if};
ghost use Rattle.routine_fits.specs.Sound.{AllSoundFunctions};
ghost use Rattle.typing_fits.specs.Sound.{Extends};
ghost use Rattle.typing_parts.specs.Typists.{IsReady};

use constant_types::mark_of;
use function_places::{FunctionPlaces, WhereDeclared};
use std::alloc::{AllocError, Global};
use sv_source::Items;
use sv_types::{Function, Functions};
use typing_parts::Known;

// Takes the last one away.
fn drop_last<T: Drop>(items: &mut Items<T>)
    ensures { (xs : List T) (x : T) → items.old ≡ xs ++ x ∷ [] → items.new ≡ xs }
{
    items.pop();
}

// Puts a function and its mark behind the others; where it wants memory, nothing is changed.
fn put(
    functions: &mut Functions,
    marks: &mut Items<bool>,
    function: Function,
    mark: bool,
) -> Result<(), AllocError>
    ensures functions { OnOk result (functions.new ≡ functions.old ++ function ∷ []) }
    ensures marks { OnOk result (marks.new ≡ marks.old ++ mark ∷ []) }
    ensures same_functions { OnErr result (functions.new ≡ functions.old) }
    ensures same_marks { OnErr result (marks.new ≡ marks.old) }
{
    functions.push(function)?;
    if let Err(error) = marks.push(mark) {
        drop_last(functions);
        return Err(error);
    }
    Ok(())
}

// Puts a place where there is none yet; where it wants memory, nothing is changed.
fn put_place(
    places: &mut FunctionPlaces,
    declared: WhereDeclared,
    place: usize,
) -> Result<(), AllocError>
    ensures ok { OnOk result ((d : Declared) → places_in places.new d ≡ or_else (places_in places.old d) (place_if declared place d)) }
    ensures err { OnErr result ((d : Declared) → places_in places.new d ≡ places_in places.old d) }
{
    if places.of(&declared).is_some() {
        return Ok(());
    }
    places.put(declared, place)
}

/// Puts a function behind those that are known, and gives its place; where one is known that is declared there, that one is still
/// the one that is found. Where it wants memory, nothing is changed.
pub fn add(alloc: Global, known: &mut Known, function: Function) -> Result<usize, AllocError>
    requires ready { IsReady known.old }
    requires sound { AllSoundFunctions (known.old.functions ++ function ∷ []) }
    ensures place { IfOk result (λ n. n ≡ length known.old.functions) }
    ensures ok { OnOk result (known.new.functions ≡ known.old.functions ++ function ∷ []) }
    ensures err { OnErr result (known.new.functions ≡ known.old.functions) }
    ensures ready { IsReady known.new }
    ensures keeps { Extends known.old.functions known.new.functions }
{
    let place = known.functions.len();
    let mark = mark_of(alloc, known.marks.as_slice(), &function)?;
    let path = function.path.copy(alloc)?;
    let declared = (function.instance, function.spot.at, path);
    put(&mut known.functions, &mut known.marks, function, mark)?;
    if let Err(error) = put_place(&mut known.places, declared, place) {
        drop_last(&mut known.functions);
        drop_last(&mut known.marks);
        return Err(error);
    }
    Ok(place)
}
