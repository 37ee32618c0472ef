//! Casts to types.

ghost use Rattle.std.specs.Prelude.{◌≡◌, List, IfOk};
ghost use Rattle.expr_type.specs.Answers.{Gives, source};
ghost use Rattle.expr_type.specs.Forms as form;
ghost use Rattle.expr_type.specs.Typings.{Checked, Typing, where_whole};
ghost use Rattle.given_types.specs.Casts.{cast_of};
ghost use Rattle.pattern_types.specs.Meaning.{operand_of};
ghost use Rattle.sv_types.specs.declared.expression.Expr as tree;
ghost use Rattle.sv_types.specs.declared.statement.Function.{Function};
ghost use Rattle.sv_types.specs.declared.types.SvType as types;
ghost use Rattle.typing_patterns.specs.Insides.{as_inside};
ghost use Rattle.typing_patterns.specs.Sized.{typed_by, whole_by, whole_of};
ghost use Rattle.typing_fits.specs.Operands.{SoundContext};
ghost use Rattle.typing_fits.specs.Sound.{Extends};
ghost use Rattle.typing_parts.specs.Typists.{AllCanType, IsReady};
ghost use Rattle.typing_steps.specs.Steps.{TypesTo};
ghost use Rattle.typing_patterns.specs.TypingValues.{in_cast};

use crate::behind_quiet;
use crate::cast_insides::{Inside, behind_tick};
use expr_type::{Halt, Source, Valued};
use given_types::{cast_of, converted};
use pattern_types::{Operand, fitted, listed};
use std::alloc::Global;
use sv_source::Items;
use sv_tree::{Cast, Expr};
use sv_types::SvType;
use typing_parts::{Known, Names};

// What has a type in front of it, which is whole by itself.
fn whole(alloc: Global, first: u32, expr: sv_types::Expr) -> Valued
    ensures { result ≡ whole_of first expr }
{
    Valued {
        first,
        begins: first,
        is_unsized: false,
        expr,
        arithmetic: Items::new(alloc),
    }
}

// What a pattern with its type in front of it is made of, as a value.
fn whole_pattern(
    alloc: Global,
    first: u32,
    made: Result<sv_types::Expr, Halt>,
) -> Result<Valued, Halt>
    ensures { result ≡ whole_by first made }
{
    match made {
        Ok(expr) => Ok(whole(alloc, first, expr)),
        Err(halt) => Err(halt),
    }
}

// A pattern with its type in front of it. What is no pattern isn't whole there, and breaks nothing.
fn pattern_of_type(
    alloc: Global,
    text: Source<'_>,
    first: u32,
    t: &SvType,
    of: Operand,
) -> Result<Valued, Halt>
    ensures { Gives result (form.pattern_of_type (source text.entry) first t.now (operand_of (source text.entry) of)) }
{
    match of {
        Operand::Plain(v) => {
            drop(v);
            Err(Halt::Quiet)
        }
        Operand::Pattern { tick, times, items } => {
            let made = fitted(alloc, text, first, t, listed(&tick, &times, &items));
            drop(items);
            whole_pattern(alloc, first, made)
        }
        Operand::Stream(v) => {
            drop(v);
            Err(Halt::Quiet)
        }
    }
}

// What a pattern in parentheses is made of, cast to its type.
#[tactic(auto, using(crate::proofs::CastPutting::wheres))]
fn cast_pattern(
    alloc: Global,
    text: Source<'_>,
    first: u32,
    tick: u32,
    t: SvType,
    made: Result<sv_types::Expr, Halt>,
) -> Result<Valued, Halt>
    ensures { (x : Checked tree.Expr) → Gives made x → Gives result (where_whole x (cast_of (source text.entry) first tick t)) }
{
    match made {
        Ok(e) => cast_of(alloc, text, first, tick, t, e),
        Err(halt) => {
            drop(t);
            Err(halt)
        }
    }
}

// A value, or a pattern in parentheses, that is cast to a type.
fn operand_to(
    alloc: Global,
    text: Source<'_>,
    first: u32,
    tick: u32,
    t: SvType,
    of: Operand,
) -> Result<Valued, Halt>
    ensures { Gives result (form.converted (source text.entry) first tick t (operand_of (source text.entry) of)) }
{
    match of {
        Operand::Plain(v) => converted(alloc, text, first, tick, t, v),
        Operand::Pattern {
            tick: other,
            times,
            items,
        } => {
            let made = fitted(alloc, text, other, &t, listed(&other, &times, &items));
            drop(items);
            cast_pattern(alloc, text, first, tick, t, made)
        }
        Operand::Stream(v) => Err(Halt::Breaks {
            at: v.first,
            rule: 512,
        }),
    }
}

// What stands behind the tick, cast to a type.
fn cast_to(
    alloc: Global,
    text: Source<'_>,
    first: u32,
    t: SvType,
    inside: Inside,
) -> Result<Valued, Halt>
    ensures { Gives result (form.type_cast (source text.entry) first t (as_inside (source text.entry) inside)) }
{
    let Inside {
        tick,
        is_pattern,
        of,
    } = inside;
    if is_pattern {
        pattern_of_type(alloc, text, first, &t, of)
    } else {
        operand_to(alloc, text, first, tick, t, of)
    }
}

/// A cast to a type, which is typed already: a value is converted as an assignment does it, but an enum takes any value that has bits
/// (E501), and a pattern is given to the type (E505 and what its items break). The whole begins with the token `first`. A type of more
/// than 65,536 bits breaks E701 at the tick.
#[tactic(auto, using(crate::proofs::CastPutting::both, typing_parts::proofs::Keeping::keepings))]
pub fn by_type<S: Names, F: Fn(&Expr, &mut Known) -> Result<Operand, Halt>>(
    alloc: Global,
    names: &S,
    typed: &F,
    first: u32,
    t: Result<SvType, Halt>,
    cast: &Cast,
    known: &mut Known,
) -> Result<Valued, Halt>
    requires names { SoundContext (S.context names.now) }
    requires can { AllCanType _ _ (λ e. e.now) (λ k. k.now) (F.pre typed.now) (F.post typed.now) (S.context names.now) (in_cast cast.now) }
    requires ready { IsReady known.old }
    ensures value { (x : Typing types.SvType) (fs : List Function) → TypesTo t (x fs) known.old.functions → TypesTo result (typed_by (S.context names.now) first x cast.now fs) known.new.functions }
    ensures ready { IsReady known.new }
    ensures keeps { Extends known.old.functions known.new.functions }
{
    match t {
        Ok(t) => {
            let of = behind_tick(alloc, names, typed, cast, known)?;
            cast_to(alloc, names.text(), first, t, of)
        }
        Err(Halt::Memory) => Err(Halt::Memory),
        Err(Halt::Breaks { at, rule }) => Err(Halt::Breaks { at, rule }),
        Err(Halt::Quiet) => {
            let of = behind_tick(alloc, names, typed, cast, known);
            Err(behind_quiet(of))
        }
    }
}
