//! At which place each function of a list stands.

ghost use Rattle.std.specs.Prelude.{◌≡◌, IfOk, OnOk};
ghost use Rattle.function_places.specs.Places.{Declared, first_place, places_in};
ghost use Rattle.known_functions.specs.Behind.{declared_of, or_else, place_if};

use function_places::{FunctionPlaces, WhereDeclared};
use std::alloc::{AllocError, Global};
use sv_types::Function;

// Where a function is declared.
fn declared_at(alloc: Global, function: &Function) -> Result<WhereDeclared, AllocError>
    ensures { IfOk result (λ d. d ≡ declared_of function.now) }
{
    let path = function.path.copy(alloc)?;
    Ok((function.instance, function.spot.at, path))
}

// Puts a place where there is none yet.
fn put_first(
    places: &mut FunctionPlaces,
    declared: WhereDeclared,
    place: usize,
) -> Result<(), AllocError>
    ensures { OnOk result ((d : Declared) → places_in places.new d ≡ or_else (places_in places.old d) (place_if declared place d)) }
{
    if places.of(&declared).is_some() {
        return Ok(());
    }
    places.put(declared, place)
}

/// At which place the first function with each declaration stands.
pub(crate) fn places_of(alloc: Global, functions: &[Function]) -> Result<FunctionPlaces, AllocError>
    ensures { IfOk result (λ x. (d : Declared) → places_in x d ≡ first_place d functions.now) }
{
    let mut places = FunctionPlaces::new(alloc);
    for place in 0..functions.len() {
        let declared = declared_at(alloc, &functions[place])?;
        put_first(&mut places, declared, place)?;
    }
    Ok(places)
}
