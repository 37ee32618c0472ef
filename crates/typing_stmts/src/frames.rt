//! Expressions, statements and functions of a frame, with the functions that it has got.

ghost use Rattle.std.specs.Prelude.{◌≡◌, List, Some, slice_get, true, IfOk};
ghost use Rattle.std.specs.Option.{option_copied};
ghost use Rattle.expr_type.specs.Names as names;
ghost use Rattle.expr_type.specs.Typings.{Typed};
ghost use Rattle.frame_texts.specs.Frames as means;
ghost use Rattle.routine_fits.specs.Sound.{AllSoundFunctions};
ghost use Rattle.stmt_laws.specs.Written.{stmt_written};
ghost use Rattle.sv_types.specs.declared.statement.Function.{Function};
ghost use Rattle.typing_fits.specs.Sound.{Extends};
ghost use Rattle.typing_parts.specs.Typists.{IsReady};
ghost use Rattle.typing_steps.specs.Steps.{StopsBy, TypesTo};
ghost use Rattle.typing_walks.specs.Written.{is_written};
ghost use Rattle.typing_stmts.specs.Around.{SoundAround};
ghost use Rattle.typing_stmts.specs.Frames.{AnswersTo, refusal_of, with_functions};

use crate::calls::{type_expr, type_function, type_stmt};
use expr_type::Halt;
use frame_functions::known_of;
use frame_things::{FrameThings, index_of};
use std::alloc::{AllocError, Global};
use sv_source::{Fail, Place, Refusal, at};
use sv_tree::{Expr, Stmt};
use sv_types::{Frame, SvType};
use typing_names::SourceNames;
use typing_parts::Known;

// The place of a token.
fn place_of(source: &SourceNames<'_>, token: u32) -> Place
    ensures { result ≡ names.place_in (slice_get source.now.tree.now.tokens token) }
{
    match at(source.tree.tokens.as_slice(), token as usize) {
        Some(token) => token.place,
        None => Place {
            file: 0,
            line: 1,
            col: 1,
        },
    }
}

// The refusal by a rule of a token.
fn refusal(
    alloc: Global,
    source: &SourceNames<'_>,
    token: u32,
    rule: u16,
) -> Result<Refusal, AllocError>
    ensures { IfOk result (λ r. r ≡ refusal_of source.now.tree.now.tokens (record { at = token; rule = rule })) }
{
    let word = source.word(token).copy(alloc)?;
    Ok(Refusal {
        rule,
        place: place_of(source, token),
        word,
    })
}

// What is answered of what isn't whole.
fn stopped<T>(alloc: Global, source: &SourceNames<'_>, halt: Halt) -> Result<Option<T>, Fail>
    ensures { (t : Typed T) (fs : List Function) → StopsBy halt t fs → AnswersTo source.now.tree.now.tokens result t fs }
{
    match halt {
        Halt::Memory => Err(Fail::Memory),
        Halt::Quiet => Ok(None),
        Halt::Breaks { at: token, rule } => {
            let refused = refusal(alloc, source, token, rule)?;
            Err(Fail::Refused(refused))
        }
    }
}

// What is answered of what was typed.
fn answer<T>(
    alloc: Global,
    source: &SourceNames<'_>,
    typed: Result<T, Halt>,
) -> Result<Option<T>, Fail>
    ensures { (t : Typed T) (fs : List Function) → TypesTo typed t fs → AnswersTo source.now.tree.now.tokens result t fs }
{
    match typed {
        Ok(typed) => Ok(Some(typed)),
        Err(halt) => stopped(alloc, source, halt),
    }
}

// The functions that are known go back to their frame.
fn put_back(frame: &mut Frame, known: Known)
    ensures { frame.new ≡ with_functions frame.old known.functions }
{
    let Known {
        functions,
        marks: _,
        places: _,
    } = known;
    frame.functions = functions;
}

// An expression of a frame, with functions that are known.
fn expr_with(
    alloc: Global,
    source: &SourceNames<'_>,
    frame: &Frame,
    at: u32,
    e: &Expr,
    want: Option<&SvType>,
    known: &mut Known,
) -> Result<sv_types::Expr, Halt>
    requires sound { SoundAround source.now.tree.now frame.now }
    requires written { is_written e.now ≡ true }
    requires ready { IsReady known.old }
    ensures value { TypesTo result (means.type_expr source.now.tree.now source.now.names.now (with_functions frame.now known.old.functions) at e.now (option_copied want.entry)) known.new.functions }
    ensures ready { IsReady known.new }
    ensures keeps { Extends known.old.functions known.new.functions }
{
    let index = index_of(alloc, frame)?;
    let things = FrameThings::new(frame, &index);
    type_expr(alloc, source, things, at, e, want, known)
}

// A statement of a frame, with functions that are known.
fn stmt_with(
    alloc: Global,
    source: &SourceNames<'_>,
    frame: &Frame,
    at: u32,
    s: &Stmt,
    known: &mut Known,
) -> Result<sv_types::Stmt, Halt>
    requires sound { SoundAround source.now.tree.now frame.now }
    requires written { stmt_written s.now ≡ true }
    requires ready { IsReady known.old }
    ensures value { TypesTo result (means.type_stmt source.now.tree.now source.now.names.now (with_functions frame.now known.old.functions) at s.now) known.new.functions }
    ensures ready { IsReady known.new }
    ensures keeps { Extends known.old.functions known.new.functions }
{
    let index = index_of(alloc, frame)?;
    let things = FrameThings::new(frame, &index);
    type_stmt(alloc, source, things, at, s, known)
}

// A function or task of a frame, with functions that are known.
fn function_with(
    alloc: Global,
    source: &SourceNames<'_>,
    frame: &Frame,
    declaration: u32,
    known: &mut Known,
) -> Result<u32, Halt>
    requires sound { SoundAround source.now.tree.now frame.now }
    requires ready { IsReady known.old }
    ensures value { TypesTo result (means.type_function source.now.tree.now source.now.names.now (with_functions frame.now known.old.functions) declaration) known.new.functions }
    ensures ready { IsReady known.new }
    ensures keeps { Extends known.old.functions known.new.functions }
{
    let index = index_of(alloc, frame)?;
    let things = FrameThings::new(frame, &index);
    type_function(alloc, source, things, declaration, known)
}

/// An expression of the text of a frame that begins at a token, by itself or given to a target of a type (IEEE 1800-2017 clause 11), or
/// nothing where it breaks no rule and names what has a broken declaration. The functions that it calls stand in the frame then, behind
/// those that it had; nothing else of it changes.
///
/// # Errors
/// The refusal of the first rule of elaboration that it breaks in the order of the text, or want of memory.
pub fn expr_of(
    alloc: Global,
    source: &SourceNames<'_>,
    frame: &mut Frame,
    at: u32,
    e: &Expr,
    want: Option<&SvType>,
) -> Result<Option<sv_types::Expr>, Fail>
    requires sound { SoundAround source.now.tree.now frame.old }
    requires functions { AllSoundFunctions frame.old.functions }
    requires written { is_written e.now ≡ true }
    ensures value { AnswersTo source.now.tree.now.tokens result (means.type_expr source.now.tree.now source.now.names.now frame.old at e.now (option_copied want.entry)) frame.new.functions }
    ensures functions { AllSoundFunctions frame.new.functions }
    ensures keeps { Extends frame.old.functions frame.new.functions }
    ensures same { frame.new ≡ with_functions frame.old frame.new.functions }
{
    let mut known = known_of(alloc, &mut frame.functions)?;
    let typed = expr_with(alloc, source, frame, at, e, want, &mut known);
    put_back(frame, known);
    answer(alloc, source, typed)
}

/// A statement of the text of a frame that begins at a token, whose locals are numbered from there (clauses 9.3, 10.4 and 12), or nothing
/// where it breaks no rule and names what has a broken declaration. The functions and tasks that it calls stand in the frame then, behind
/// those that it had; nothing else of it changes.
///
/// # Errors
/// The refusal of the first rule of elaboration that it breaks in the order of the text, or want of memory.
pub fn stmt_of(
    alloc: Global,
    source: &SourceNames<'_>,
    frame: &mut Frame,
    at: u32,
    s: &Stmt,
) -> Result<Option<sv_types::Stmt>, Fail>
    requires sound { SoundAround source.now.tree.now frame.old }
    requires functions { AllSoundFunctions frame.old.functions }
    requires written { stmt_written s.now ≡ true }
    ensures value { AnswersTo source.now.tree.now.tokens result (means.type_stmt source.now.tree.now source.now.names.now frame.old at s.now) frame.new.functions }
    ensures functions { AllSoundFunctions frame.new.functions }
    ensures keeps { Extends frame.old.functions frame.new.functions }
    ensures same { frame.new ≡ with_functions frame.old frame.new.functions }
{
    let mut known = known_of(alloc, &mut frame.functions)?;
    let typed = stmt_with(alloc, source, frame, at, s, &mut known);
    put_back(frame, known);
    answer(alloc, source, typed)
}

/// The place of the function or task with a declaration among those of a frame, where it stands then, behind those that it calls and
/// those that the frame had (clauses 13.3 and 13.4), or nothing where it breaks no rule and names what has a broken declaration. Nothing
/// else of the frame changes.
///
/// # Errors
/// The refusal of the first rule of elaboration that its text breaks, or want of memory.
pub fn function_of(
    alloc: Global,
    source: &SourceNames<'_>,
    frame: &mut Frame,
    declaration: u32,
) -> Result<Option<u32>, Fail>
    requires sound { SoundAround source.now.tree.now frame.old }
    requires functions { AllSoundFunctions frame.old.functions }
    ensures value { AnswersTo source.now.tree.now.tokens result (means.type_function source.now.tree.now source.now.names.now frame.old declaration) frame.new.functions }
    ensures functions { AllSoundFunctions frame.new.functions }
    ensures keeps { Extends frame.old.functions frame.new.functions }
    ensures same { frame.new ≡ with_functions frame.old frame.new.functions }
{
    let mut known = known_of(alloc, &mut frame.functions)?;
    let typed = function_with(alloc, source, frame, declaration, &mut known);
    put_back(frame, known);
    answer(alloc, source, typed)
}
