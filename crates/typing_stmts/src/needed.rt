//! Functions and tasks where they are first needed.

ghost use Rattle.std.specs.Prelude.{◌≡◌, ◌∷◌, ◌++◌, [], Some, None, length, IfOk, OnOk};
ghost use Rattle.expr_type.specs.Functions as means;
ghost use Rattle.routine_fits.specs.Sound.{AllSoundFunctions};
ghost use Rattle.source_routines.specs.Texts.{text_of};
ghost use Rattle.typing_fits.specs.Sound.{Extends};
ghost use Rattle.typing_parts.specs.Typists.{CalledTo, IsReady};
ghost use Rattle.typing_stmts.specs.Around.{IsPlaced, SoundAround, around, with_depth};

use crate::by_text;
use crate::routine_paths::function_path;
use crate::routine_texts::routine_text;
use expr_type::Halt;
use frame_things::FrameThings;
use known_functions::{add, find};
use source_routines::Routine;
use std::alloc::{AllocError, Global};
use sv_source::Text;
use sv_types::{Frame, Function};
use typing_names::SourceNames;
use typing_parts::Known;

// A place as the number of a function.
fn number(place: usize) -> Result<u32, AllocError>
    ensures { IfOk result (λ n. n ≡ place) }
{
    match u32::try_from(place) {
        Ok(place) => Ok(place),
        Err(_) => Err(AllocError),
    }
}

// A function behind those that are known, and its number.
fn appended(alloc: Global, known: &mut Known, function: Function) -> Result<u32, AllocError>
    requires ready { IsReady known.old }
    requires sound { AllSoundFunctions (known.old.functions ++ function ∷ []) }
    ensures place { IfOk result (λ n. n ≡ length known.old.functions) }
    ensures ok { OnOk result (known.new.functions ≡ known.old.functions ++ function ∷ []) }
    ensures ready { IsReady known.new }
    ensures keeps { Extends known.old.functions known.new.functions }
{
    let place = add(alloc, known, function)?;
    number(place)
}

// The instance of the function or task with a declaration, and its path there.
fn placed(
    alloc: Global,
    source: &SourceNames<'_>,
    frame: &Frame,
    declaration: u32,
    found: Routine<'_>,
) -> Result<(u32, Text), AllocError>
    ensures { IfOk result (λ p. IsPlaced source.now.tree.now source.now.names.now frame.now declaration (text_of found.entry) p.0 p.1) }
{
    let home = source.home(alloc, frame, declaration)?;
    let (instance, block) = home;
    let path = function_path(alloc, block, source.word(found.name()))?;
    Ok((instance, path))
}

/// The place of the function or task with a declaration among those that are known then, in which calls may lie one in another to a
/// depth: it is typed and put behind them where it isn't known yet. A declaration that is none of a function or task gives nothing and
/// breaks nothing (IEEE 1800-2017 clauses 13.3 to 13.5).
#[cycle(routine)]
pub fn routine(
    alloc: Global,
    source: &SourceNames<'_>,
    frame: FrameThings<'_>,
    at: u32,
    depth: usize,
    declaration: u32,
    known: &mut Known,
) -> Result<u32, Halt>
    requires sound { SoundAround source.now.tree.now frame.frame.now }
    requires ready { IsReady known.old }
    ensures value { CalledTo result (means.routine depth (around source.now.tree.now source.now.names.now frame.entry.frame.now at) declaration known.old.functions) known.new.functions }
    ensures ready { IsReady known.new }
    ensures keeps { Extends known.old.functions known.new.functions }
{
    if depth == 0 {
        return Err(Halt::Quiet);
    }
    match source.routine(declaration) {
        None => Err(Halt::Quiet),
        Some(found) => needed(
            alloc,
            source,
            frame,
            at,
            depth - 1,
            declaration,
            found,
            known,
        ),
    }
}

// The function or task with a declaration, which has this text.
#[cycle(routine)]
fn needed(
    alloc: Global,
    source: &SourceNames<'_>,
    frame: FrameThings<'_>,
    at: u32,
    below: usize,
    declaration: u32,
    found: Routine<'_>,
    known: &mut Known,
) -> Result<u32, Halt>
    requires sound { SoundAround source.now.tree.now frame.frame.now }
    requires text { (around source.now.tree.now source.now.names.now frame.frame.now at).text declaration ≡ Some (text_of found) }
    requires ready { IsReady known.old }
    ensures value { CalledTo result (means.routine_text (Some (text_of found.entry)) (with_depth source.now.tree.now source.now.names.now frame.entry.frame.now at below) declaration known.old.functions) known.new.functions }
    ensures ready { IsReady known.new }
    ensures keeps { Extends known.old.functions known.new.functions }
{
    let place = placed(alloc, source, frame.frame, declaration, found)?;
    let (instance, path) = place;
    let declared = (instance, found.name(), path);
    match find(known, &declared) {
        Some(place) => Ok(number(place)?),
        None => {
            let (_, _, path) = declared;
            unknown(
                alloc,
                source,
                frame,
                at,
                below,
                declaration,
                found,
                instance,
                path,
                known,
            )
        }
    }
}

// The function or task with a declaration that isn't known, by its text, its instance and its path.
#[cycle(routine)]
fn unknown(
    alloc: Global,
    source: &SourceNames<'_>,
    frame: FrameThings<'_>,
    at: u32,
    below: usize,
    declaration: u32,
    found: Routine<'_>,
    instance: u32,
    path: Text,
    known: &mut Known,
) -> Result<u32, Halt>
    requires sound { SoundAround source.now.tree.now frame.frame.now }
    requires text { (around source.now.tree.now source.now.names.now frame.frame.now at).text declaration ≡ Some (text_of found) }
    requires placed { IsPlaced source.now.tree.now source.now.names.now frame.frame.now declaration (text_of found) instance path }
    requires unknown { means.known_from 0 instance (means.name_of (text_of found)) path known.old.functions ≡ None }
    requires ready { IsReady known.old }
    ensures value { CalledTo result (means.routine_text (Some (text_of found.entry)) (with_depth source.now.tree.now source.now.names.now frame.entry.frame.now at below) declaration known.old.functions) known.new.functions }
    ensures ready { IsReady known.new }
    ensures keeps { Extends known.old.functions known.new.functions }
{
    let text = routine_text(alloc, source, frame, at, below, declaration);
    let needs = |inner: u32, k: &mut Known| -> Result<u32, Halt>
        requires sound { SoundAround source.now.tree.now frame.frame.now }
        requires ready { IsReady k.old }
        ensures value { CalledTo result (means.routine below (around source.entry.now.tree.now source.entry.now.names.now frame.entry.frame.now at) inner k.old.functions) k.new.functions }
        ensures ready { IsReady k.new }
        ensures keeps { Extends k.old.functions k.new.functions }
    { routine(alloc, source, frame, at, below, inner, k) };
    let function = by_text(alloc, &text, &needs, instance, path, found, known)?;
    Ok(appended(alloc, known, function)?)
}
