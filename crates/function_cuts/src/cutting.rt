//! Functions that are taken away again.

ghost use Rattle.std.specs.Prelude.{◌≡◌, ◌≤◌, ◌<◌, [], ◌∷◌, ◌++◌, List, length, take, Some, IsTrue, ◌↔◌, MatchOption};
ghost use Rattle.sv_types.specs.declared.statement.Function.{Function};
ghost use Rattle.function_places.specs.Places.{Declared, places_in, first_place};
ghost use Rattle.known_functions.specs.Behind.{declared_of};
ghost use Rattle.function_cuts.specs.Cuts.{IsIndexed, IsOneLess, IsRest};
ghost use Rattle.routine_fits.specs.Sound.{AllSoundFunctions};
ghost use Rattle.typing_parts.specs.Typists.{IsReady};

use function_places::{FunctionPlaces, WhereDeclared};
use std::alloc::Global;
use std::mem;
use sv_source::{Items, Text};
use sv_types::{Function, Functions};
use typing_parts::Known;

// Lets a value go: a generic function, since the drop of a whole function is too long for its caller's proof.
fn discard<T: Drop>(_item: T) {}

// Takes the last one away.
fn drop_last<T: Drop>(items: &mut Items<T>)
    ensures { (xs : List T) (x : T) → items.old ≡ xs ++ x ∷ [] → items.new ≡ xs }
{
    items.pop();
}

// Whether it is this place that was found.
fn is_at(found: Option<usize>, place: usize) -> bool
    ensures { IsTrue result ↔ (found ≡ Some place) }
{
    match found {
        None => false,
        Some(at) => at == place,
    }
}

// Takes away the place of the last function, unless one before it is declared there too.
fn remove_place(places: &mut FunctionPlaces, declared: &WhereDeclared, place: usize)
    ensures { (fs : List Function) (f : Function) → declared_of f ≡ declared.now → length fs ≡ place
        → ((d : Declared) → places_in places.old d ≡ first_place d (fs ++ f ∷ []))
        → (d : Declared) → places_in places.new d ≡ first_place d fs }
{
    if is_at(places.of(declared), place) {
        places.remove(declared);
    }
}

// Where a function is declared, by the path that is taken from it.
fn declared_by(alloc: Global, function: &mut Function) -> WhereDeclared
    ensures { result ≡ declared_of function.old }
{
    let path = mem::replace(&mut function.path, Text::new(alloc));
    (function.instance, function.spot.at, path)
}

// The same of a function that is given away.
fn taken_from(alloc: Global, function: Function) -> WhereDeclared
    ensures { result ≡ declared_of function }
{
    let mut function = function;
    let declared = declared_by(alloc, &mut function);
    discard(function);
    declared
}

// Takes the last function away, and tells where it is declared.
fn pop_declared(alloc: Global, functions: &mut Functions) -> Option<WhereDeclared>
    ensures { MatchOption result (functions.old ≡ []) (λ d. IsOneLess functions.old functions.new d) }
{
    match functions.pop() {
        None => None,
        Some(function) => Some(taken_from(alloc, function)),
    }
}

// Takes the last function away.
fn drop_function(alloc: Global, known: &mut Known)
    requires some { 0 < length known.old.functions }
    requires indexed { IsIndexed known.old }
    ensures rest { IsRest known.old.functions known.new.functions }
    ensures indexed { IsIndexed known.new }
{
    match pop_declared(alloc, &mut known.functions) {
        None => (),
        Some(declared) => {
            drop_last(&mut known.marks);
            remove_place(&mut known.places, &declared, known.functions.len());
        }
    }
}

/// Takes away the functions that are known behind the first `count`, which are those that are known then. Where each is declared and
/// whether it holds a stream is known of them as before. It wants no memory.
pub fn cut(alloc: Global, known: &mut Known, count: usize)
    requires ready { IsReady known.old }
    requires within { count ≤ length known.old.functions }
    requires sound { AllSoundFunctions (take count known.old.functions) }
    ensures functions { known.new.functions ≡ take count known.old.functions }
    ensures ready { IsReady known.new }
{
    while known.functions.len() > count {
        drop_function(alloc, known);
    }
}
