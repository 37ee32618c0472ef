//! The walk over expressions.

ghost use Rattle.std.specs.Prelude.{◌≡◌, ◌<◌, true};
ghost use Rattle.std.specs.Option.{option_copied};
ghost use Rattle.expr_type.specs.Answers.{Gives, source};
ghost use Rattle.expr_type.specs.Expressions.{given_if, meaning, typed_expr};
ghost use Rattle.pattern_types.specs.Giving.{IsNarrowStream};
ghost use Rattle.pattern_types.specs.Meaning.{operand_of};
ghost use Rattle.routine_fits.specs.Sound.{AllSoundFunctions};
ghost use Rattle.typing_walks.specs.Keeps.{Surrounded};
ghost use Rattle.typing_walks.specs.Written.{is_written};
ghost use Rattle.typing_fits.specs.Sound.{Extends};
ghost use Rattle.typing_parts.specs.Operands.{as_operand};
ghost use Rattle.typing_steps.specs.Steps.{TypesTo};
ghost use Rattle.typing_parts.specs.Typists.{FitsIfOk, IsReady, MakesKnown, NarrowIfOk};
ghost use Rattle.typing_operators.specs.Children.{nodes};

use crate::forms::form;
use expr_type::{Halt, Source};
use pattern_types::{Operand, given, is_value};
use std::alloc::Global;
use sv_tree::Expr;
use sv_types::SvType;
use typing_parts::{Known, Names};

// A part of an expression.
#[cycle(typing)]
fn part<S: Names, C: Fn(u32, &mut Known) -> Result<u32, Halt>>(
    alloc: Global,
    names: &S,
    needs: &C,
    whole: &Expr,
    e: &Expr,
    known: &mut Known,
) -> Result<Operand, Halt>
    requires needs { MakesKnown _ ((n : _) (k : _) → IsReady k.now → C.pre needs.now n k) (λ k. k.now) (C.post needs.now) (S.context names.now) }
    requires names { Surrounded AllSoundFunctions (S.context names.now) }
    requires less { nodes e.now < nodes whole.now }
    requires written { is_written e.now ≡ true }
    requires ready { IsReady known.old }
    ensures value { TypesTo (as_operand (S.context names.now).source result) ((meaning e.now).typed (S.context names.now) known.old.functions) known.new.functions }
    ensures narrow { NarrowIfOk result }
    ensures fits { FitsIfOk result known.new.functions }
    ensures ready { IsReady known.new }
    ensures keeps { Extends known.old.functions known.new.functions }
{
    operand(alloc, names, needs, e, known)
}

/// An expression as an operand: where a name is that of a function that isn't known, `needs` is asked to make it known. Its first
/// break in the order of the text counts.
#[cycle(typing)]
#[tactic(auto, using(crate::proofs::Sounding::soundness))]
pub fn operand<S: Names, C: Fn(u32, &mut Known) -> Result<u32, Halt>>(
    alloc: Global,
    names: &S,
    needs: &C,
    e: &Expr,
    known: &mut Known,
) -> Result<Operand, Halt>
    requires needs { MakesKnown _ ((n : _) (k : _) → IsReady k.now → C.pre needs.now n k) (λ k. k.now) (C.post needs.now) (S.context names.now) }
    requires names { Surrounded AllSoundFunctions (S.context names.now) }
    requires written { is_written e.now ≡ true }
    requires ready { IsReady known.old }
    ensures value { TypesTo (as_operand (S.context names.now).source result) ((meaning e.now).typed (S.context names.now) known.old.functions) known.new.functions }
    ensures narrow { NarrowIfOk result }
    ensures fits { FitsIfOk result known.new.functions }
    ensures ready { IsReady known.new }
    ensures keeps { Extends known.old.functions known.new.functions }
{
    let typed = |child: &Expr, k: &mut Known| -> Result<Operand, Halt>
        requires needs { MakesKnown _ ((n : _) (k : _) → IsReady k.now → C.pre needs.now n k) (λ k. k.now) (C.post needs.now) (S.context names.now) }
        requires names { Surrounded AllSoundFunctions (S.context names.now) }
        requires less { nodes child.now < nodes e.now }
        requires written { is_written child.now ≡ true }
        requires ready { IsReady k.old }
        ensures value { TypesTo (as_operand (S.context names.entry.now).source result) ((meaning child.now).typed (S.context names.entry.now) k.old.functions) k.new.functions }
        ensures narrow { NarrowIfOk result }
        ensures fits { FitsIfOk result k.new.functions }
        ensures ready { IsReady k.new }
        ensures keeps { Extends k.old.functions k.new.functions }
    { part(alloc, names, needs, e, child, k) };
    form(alloc, names, needs, &typed, e, known)
}

// An operand alone, or given to a target of a type.
fn given_if(
    alloc: Global,
    text: Source<'_>,
    want: Option<&SvType>,
    o: Operand,
) -> Result<sv_types::Expr, Halt>
    requires { IsNarrowStream o }
    ensures { Gives result (given_if (source text.entry) (option_copied want.entry) (operand_of (source text.entry) o)) }
{
    match want {
        None => {
            let v = is_value(text, o)?;
            Ok(v.expr)
        }
        Some(t) => given(alloc, text, t, o),
    }
}

/// An expression of a text, by itself or given to a target of a type, with the functions that are known then; or the first rule of
/// elaboration that it breaks in the order of the text, with its token.
#[tactic(auto, using(crate::proofs::Putting::steps))]
pub fn type_expr<S: Names, C: Fn(u32, &mut Known) -> Result<u32, Halt>>(
    alloc: Global,
    names: &S,
    needs: &C,
    e: &Expr,
    want: Option<&SvType>,
    known: &mut Known,
) -> Result<sv_types::Expr, Halt>
    requires needs { MakesKnown _ ((n : _) (k : _) → IsReady k.now → C.pre needs.now n k) (λ k. k.now) (C.post needs.now) (S.context names.now) }
    requires names { Surrounded AllSoundFunctions (S.context names.now) }
    requires written { is_written e.now ≡ true }
    requires ready { IsReady known.old }
    ensures value { TypesTo result (typed_expr (S.context names.now) e.now (option_copied want.entry) known.old.functions) known.new.functions }
    ensures ready { IsReady known.new }
    ensures keeps { Extends known.old.functions known.new.functions }
{
    let o = operand(alloc, names, needs, e, known)?;
    given_if(alloc, names.text(), want, o)
}
