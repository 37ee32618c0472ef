//! `$bits`, `$clog2`, `$signed` and `$unsigned` (IEEE 1800-2017 clauses 11.7, 20.6.2 and 20.8.1).

ghost use Rattle.std.specs.Prelude.{◌≡◌, List, IfOk};
ghost use Rattle.sv_types.specs.declared.statement.Function.{Function};
ghost use Rattle.expr_type.specs.Forms as form;
ghost use Rattle.operand_types.specs.Allowed.{IsNarrow};
ghost use Rattle.typing_fits.specs.Sound.{Extends};
ghost use Rattle.typing_steps.specs.Steps.{TypesTo};
ghost use Rattle.typing_paths.specs.TypingValues.{AllCanType, CanType, IsReady};
ghost use Rattle.typing_paths.specs.TypingValuesParts as part;
ghost use Rattle.typing_paths.specs.Children.{in_type};
ghost use Rattle.typing_paths.specs.System.{bits_call_of, bits_function_of, bits_of_part_of, value_call_of};

use crate::asked_types::as_type;
use crate::{bits, value};
use bits_types::{bits_of_type, bits_of_value};
use expr_type::{Halt, Valued};
use given_types::{clog2_of, with_sign};
use pattern_types::Operand;
use std::alloc::Global;
use sv_tree::Expr;
use typing_parts::{Known, Names};

// Whether the word of a token is this one.
fn is_word<S: Names>(names: &S, at: u32, word: &[u8]) -> bool
    ensures { result ≡ form.is_word (S.context names.now).source at word.now }
{
    match sv_source::at(names.text().tokens, at as usize) {
        Some(token) => token.text.as_bytes() == word,
        None => word.is_empty(),
    }
}

// `$bits` of a value.
#[tactic(auto, using(typing_steps::proofs::Combining::steps))]
fn bits_of_part<S: Names, F: Fn(&Expr, &mut Known) -> Result<Operand, Halt>>(
    alloc: Global,
    names: &S,
    typed: &F,
    name: u32,
    e: &Expr,
    known: &mut Known,
) -> Result<Valued, Halt>
    requires can { CanType _ _ (λ e. e.now) (λ k. k.now) (F.pre typed.now) (F.post typed.now) (S.context names.now) e.now }
    requires ready { IsReady known.old }
    ensures value { TypesTo result (bits_of_part_of (S.context names.now) name e.now known.old.functions) known.new.functions }
    ensures narrow { IfOk result IsNarrow }
    ensures ready { IsReady known.new }
    ensures keeps { Extends known.old.functions known.new.functions }
{
    let v = value(names, typed, e, known)?;
    Ok(bits_of_value(alloc, names.text(), name, &v)?)
}

// `$bits` of a type or a value, which isn't valued.
#[tactic(auto, using(crate::proofs::Asking::calls))]
fn bits_call<S: Names, F: Fn(&Expr, &mut Known) -> Result<Operand, Halt>>(
    alloc: Global,
    names: &S,
    typed: &F,
    name: u32,
    argument: &Expr,
    known: &mut Known,
) -> Result<Valued, Halt>
    requires can { CanType _ _ (λ e. e.now) (λ k. k.now) (F.pre typed.now) (F.post typed.now) (S.context names.now) argument.now }
    requires dimensions { AllCanType _ _ (λ e. e.now) (λ k. k.now) (F.pre typed.now) (F.post typed.now) (S.context names.now) (in_type argument.now) }
    requires ready { IsReady known.old }
    ensures value { TypesTo result (bits_call_of (S.context names.now) name argument.now known.old.functions) known.new.functions }
    ensures narrow { IfOk result IsNarrow }
    ensures ready { IsReady known.new }
    ensures keeps { Extends known.old.functions known.new.functions }
{
    match as_type(alloc, names, typed, argument, known) {
        Ok(Some(t)) => Ok(bits_of_type(alloc, names.text(), name, &t)?),
        Ok(None) => bits_of_part(alloc, names, typed, name, argument, known),
        Err(halt) => Err(halt),
    }
}

// `$clog2`, `$signed` or `$unsigned` of a value with bits.
fn value_call<S: Names>(alloc: Global, names: &S, name: u32, v: Valued) -> Result<Valued, Halt>
    requires { IsNarrow v }
    ensures value { (fs : List Function) → TypesTo result (value_call_of (S.context names.now).source name v fs) fs }
    ensures narrow { IfOk result IsNarrow }
{
    if is_word(names, name, b"$clog2") {
        return Ok(clog2_of(alloc, names.text(), name, v)?);
    }
    let signed = is_word(names, name, b"$signed");
    Ok(with_sign(alloc, names.text(), name, signed, v)?)
}

// A call of `$clog2`, `$signed` or `$unsigned`.
#[tactic(auto, using(typing_steps::proofs::Combining::steps))]
fn bits_function<S: Names, F: Fn(&Expr, &mut Known) -> Result<Operand, Halt>>(
    alloc: Global,
    names: &S,
    typed: &F,
    name: u32,
    argument: &Expr,
    known: &mut Known,
) -> Result<Valued, Halt>
    requires can { CanType _ _ (λ e. e.now) (λ k. k.now) (F.pre typed.now) (F.post typed.now) (S.context names.now) argument.now }
    requires ready { IsReady known.old }
    ensures value { TypesTo result (bits_function_of (S.context names.now) name argument.now known.old.functions) known.new.functions }
    ensures narrow { IfOk result IsNarrow }
    ensures ready { IsReady known.new }
    ensures keeps { Extends known.old.functions known.new.functions }
{
    let v = bits(names, typed, argument, known)?;
    value_call(alloc, names, name, v)
}

/// A call of `$bits`, of a type or of a value, which isn't valued, or of `$clog2`, `$signed` or `$unsigned`, of a value with bits
/// (E508). The name is that of the function's token.
pub fn system_call<S: Names, F: Fn(&Expr, &mut Known) -> Result<Operand, Halt>>(
    alloc: Global,
    names: &S,
    typed: &F,
    name: u32,
    argument: &Expr,
    known: &mut Known,
) -> Result<Valued, Halt>
    requires can { CanType _ _ (λ e. e.now) (λ k. k.now) (F.pre typed.now) (F.post typed.now) (S.context names.now) argument.now }
    requires dimensions { AllCanType _ _ (λ e. e.now) (λ k. k.now) (F.pre typed.now) (F.post typed.now) (S.context names.now) (in_type argument.now) }
    requires ready { IsReady known.old }
    ensures value { TypesTo result (part.system_call (S.context names.now) name argument.now known.old.functions) known.new.functions }
    ensures narrow { IfOk result IsNarrow }
    ensures ready { IsReady known.new }
    ensures keeps { Extends known.old.functions known.new.functions }
{
    if is_word(names, name, b"$bits") {
        return bits_call(alloc, names, typed, name, argument, known);
    }
    bits_function(alloc, names, typed, name, argument, known)
}
