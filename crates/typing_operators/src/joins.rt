//! Concatenations, replications and streams (IEEE 1800-2017 clauses 11.4.12 and 11.4.14).

ghost use Rattle.std.specs.Prelude.{◌≡◌, IfOk};
ghost use Rattle.operand_types.specs.Allowed.{IsNarrow, IsShort};
ghost use Rattle.expr_type.specs.Forms.{reverses};
ghost use Rattle.typing_fits.specs.Operands.{SoundContext};
ghost use Rattle.typing_fits.specs.Sound.{Extends};
ghost use Rattle.typing_steps.specs.Steps.{TypesTo};
ghost use Rattle.typing_parts.specs.Typists.{AllCanType, CanType, IsReady};
ghost use Rattle.typing_values.specs.Children.{in_slice};
ghost use Rattle.typing_operators.specs.Joins.{ArePartsNarrow, as_repeated, concatenation, joined_of, repeated_of, replicated_of, replication, sliced_of, stream, stream_in};

use crate::lists::{parts, streamed_parts};
use crate::slices::slice;
use expr_type::{Halt, Valued};
use operand_types::{concat_of, repeat_of};
use pattern_types::Operand;
use std::alloc::Global;
use sv_source::Boxed;
use sv_tree::{Expr, SliceSize, StreamOperator};
use sv_types::Exprs;
use typing_parts::{Known, Names};
use typing_values::{behind_quiet, count, stream_of};

// A concatenation, by its parts as expressions.
#[tactic(auto, using(crate::proofs::Putting::steps))]
fn joined<S: Names, F: Fn(&Expr, &mut Known) -> Result<Operand, Halt>>(
    alloc: Global,
    names: &S,
    typed: &F,
    opening: u32,
    es: &[Expr],
    known: &mut Known,
) -> Result<Valued, Halt>
    requires can { AllCanType _ _ (λ e. e.now) (λ k. k.now) (F.pre typed.now) (F.post typed.now) (S.context names.now) es.now }
    requires ready { IsReady known.old }
    ensures value { TypesTo result (joined_of (S.context names.now) opening es.now known.old.functions) known.new.functions }
    ensures narrow { IfOk result IsNarrow }
    ensures ready { IsReady known.new }
    ensures keeps { Extends known.old.functions known.new.functions }
{
    let parts = parts(alloc, names, typed, es, known)?;
    concat_of(alloc, names.text(), opening, parts)
}

/// A concatenation at its `{`.
pub fn concatenation<S: Names, F: Fn(&Expr, &mut Known) -> Result<Operand, Halt>>(
    alloc: Global,
    names: &S,
    typed: &F,
    opening: u32,
    es: &[Expr],
    known: &mut Known,
) -> Result<Valued, Halt>
    requires can { AllCanType _ _ (λ e. e.now) (λ k. k.now) (F.pre typed.now) (F.post typed.now) (S.context names.now) es.now }
    requires ready { IsReady known.old }
    ensures value { TypesTo result (concatenation (S.context names.now) opening es.now known.old.functions) known.new.functions }
    ensures narrow { IfOk result IsNarrow }
    ensures ready { IsReady known.new }
    ensures keeps { Extends known.old.functions known.new.functions }
{
    joined(alloc, names, typed, opening, es, known)
}

// A number and parts: how often they are repeated, or how many bits a slice of them has.
#[derive(Drop)]
struct Repeated {
    number: u32,
    parts: Exprs,
}

// How often parts are repeated, and the parts, in the order of the text.
#[tactic(auto, using(crate::proofs::Putting::besides))]
fn counted_parts<S: Names, F: Fn(&Expr, &mut Known) -> Result<Operand, Halt>>(
    alloc: Global,
    names: &S,
    typed: &F,
    times: &Expr,
    es: &[Expr],
    known: &mut Known,
) -> Result<Repeated, Halt>
    requires times { CanType _ _ (λ e. e.now) (λ k. k.now) (F.pre typed.now) (F.post typed.now) (S.context names.now) times.now }
    requires can { AllCanType _ _ (λ e. e.now) (λ k. k.now) (F.pre typed.now) (F.post typed.now) (S.context names.now) es.now }
    requires ready { IsReady known.old }
    ensures value { TypesTo (as_repeated result) (repeated_of (S.context names.now) times.now es.now known.old.functions) known.new.functions }
    ensures narrow { IfOk result ArePartsNarrow }
    ensures ready { IsReady known.new }
    ensures keeps { Extends known.old.functions known.new.functions }
{
    match count(alloc, names, typed, times, known) {
        Ok(number) => {
            let parts = parts(alloc, names, typed, es, known)?;
            Ok(Repeated { number, parts })
        }
        Err(Halt::Memory) => Err(Halt::Memory),
        Err(Halt::Breaks { at, rule }) => Err(Halt::Breaks { at, rule }),
        Err(Halt::Quiet) => Err(behind_quiet(parts(alloc, names, typed, es, known))),
    }
}

// A replication, by its parts as expressions.
#[tactic(auto, using(crate::proofs::Putting::steps))]
fn replicated<S: Names, F: Fn(&Expr, &mut Known) -> Result<Operand, Halt>>(
    alloc: Global,
    names: &S,
    typed: &F,
    opening: u32,
    times: &Expr,
    es: &[Expr],
    known: &mut Known,
) -> Result<Valued, Halt>
    requires times { CanType _ _ (λ e. e.now) (λ k. k.now) (F.pre typed.now) (F.post typed.now) (S.context names.now) times.now }
    requires can { AllCanType _ _ (λ e. e.now) (λ k. k.now) (F.pre typed.now) (F.post typed.now) (S.context names.now) es.now }
    requires ready { IsReady known.old }
    ensures value { TypesTo result (replicated_of (S.context names.now) opening times.now es.now known.old.functions) known.new.functions }
    ensures narrow { IfOk result IsNarrow }
    ensures ready { IsReady known.new }
    ensures keeps { Extends known.old.functions known.new.functions }
{
    let Repeated { number, parts } = counted_parts(alloc, names, typed, times, es, known)?;
    repeat_of(alloc, names.text(), opening, number, parts)
}

/// A concatenation that is repeated, at its outer `{`.
pub fn replication<S: Names, F: Fn(&Expr, &mut Known) -> Result<Operand, Halt>>(
    alloc: Global,
    names: &S,
    typed: &F,
    opening: u32,
    times: &Expr,
    es: &[Expr],
    known: &mut Known,
) -> Result<Valued, Halt>
    requires times { CanType _ _ (λ e. e.now) (λ k. k.now) (F.pre typed.now) (F.post typed.now) (S.context names.now) times.now }
    requires can { AllCanType _ _ (λ e. e.now) (λ k. k.now) (F.pre typed.now) (F.post typed.now) (S.context names.now) es.now }
    requires ready { IsReady known.old }
    ensures value { TypesTo result (replication (S.context names.now) opening times.now es.now known.old.functions) known.new.functions }
    ensures narrow { IfOk result IsNarrow }
    ensures ready { IsReady known.new }
    ensures keeps { Extends known.old.functions known.new.functions }
{
    replicated(alloc, names, typed, opening, times, es, known)
}

/// Whether slices stand in reverse order: behind `<<`.
pub fn reverses(operator: StreamOperator) -> bool
    ensures { result ≡ reverses operator }
{
    match operator {
        StreamOperator::Left => true,
        StreamOperator::Right => false,
    }
}

// The bits of a slice, and the parts, in the order of the text.
#[tactic(auto, using(crate::proofs::Putting::besides))]
fn sliced<S: Names, F: Fn(&Expr, &mut Known) -> Result<Operand, Halt>>(
    alloc: Global,
    names: &S,
    typed: &F,
    size: &Option<Boxed<SliceSize>>,
    es: &[Expr],
    known: &mut Known,
) -> Result<Repeated, Halt>
    requires size { AllCanType _ _ (λ e. e.now) (λ k. k.now) (F.pre typed.now) (F.post typed.now) (S.context names.now) (in_slice size.now) }
    requires can { AllCanType _ _ (λ e. e.now) (λ k. k.now) (F.pre typed.now) (F.post typed.now) (S.context names.now) es.now }
    requires names { SoundContext (S.context names.now) }
    requires ready { IsReady known.old }
    ensures value { TypesTo (as_repeated result) (sliced_of (S.context names.now) size.now es.now known.old.functions) known.new.functions }
    ensures narrow { IfOk result ArePartsNarrow }
    ensures ready { IsReady known.new }
    ensures keeps { Extends known.old.functions known.new.functions }
{
    match slice(alloc, names, typed, size, known) {
        Ok(number) => {
            let parts = streamed_parts(alloc, names, typed, es, known)?;
            Ok(Repeated { number, parts })
        }
        Err(Halt::Memory) => Err(Halt::Memory),
        Err(Halt::Breaks { at, rule }) => Err(Halt::Breaks { at, rule }),
        Err(Halt::Quiet) => Err(behind_quiet(streamed_parts(alloc, names, typed, es, known))),
    }
}

// A stream, by its parts as expressions.
#[tactic(auto, using(crate::proofs::Putting::steps))]
fn streamed<S: Names, F: Fn(&Expr, &mut Known) -> Result<Operand, Halt>>(
    alloc: Global,
    names: &S,
    typed: &F,
    opening: u32,
    operator: StreamOperator,
    size: &Option<Boxed<SliceSize>>,
    es: &[Expr],
    known: &mut Known,
) -> Result<Valued, Halt>
    requires size { AllCanType _ _ (λ e. e.now) (λ k. k.now) (F.pre typed.now) (F.post typed.now) (S.context names.now) (in_slice size.now) }
    requires can { AllCanType _ _ (λ e. e.now) (λ k. k.now) (F.pre typed.now) (F.post typed.now) (S.context names.now) es.now }
    requires names { SoundContext (S.context names.now) }
    requires ready { IsReady known.old }
    ensures value { TypesTo result (stream_in (S.context names.now) opening operator size.now es.now known.old.functions) known.new.functions }
    ensures narrow { IfOk result IsShort }
    ensures ready { IsReady known.new }
    ensures keeps { Extends known.old.functions known.new.functions }
{
    let Repeated { number, parts } = sliced(alloc, names, typed, size, es, known)?;
    let reversed = reverses(operator);
    stream_of(alloc, names.text(), opening, reversed, number, parts)
}

/// A stream at its outer `{`.
pub fn stream<S: Names, F: Fn(&Expr, &mut Known) -> Result<Operand, Halt>>(
    alloc: Global,
    names: &S,
    typed: &F,
    opening: u32,
    operator: StreamOperator,
    size: &Option<Boxed<SliceSize>>,
    es: &[Expr],
    known: &mut Known,
) -> Result<Valued, Halt>
    requires size { AllCanType _ _ (λ e. e.now) (λ k. k.now) (F.pre typed.now) (F.post typed.now) (S.context names.now) (in_slice size.now) }
    requires can { AllCanType _ _ (λ e. e.now) (λ k. k.now) (F.pre typed.now) (F.post typed.now) (S.context names.now) es.now }
    requires names { SoundContext (S.context names.now) }
    requires ready { IsReady known.old }
    ensures value { TypesTo result (stream (S.context names.now) opening operator size.now es.now known.old.functions) known.new.functions }
    ensures narrow { IfOk result IsShort }
    ensures ready { IsReady known.new }
    ensures keeps { Extends known.old.functions known.new.functions }
{
    streamed(alloc, names, typed, opening, operator, size, es, known)
}
