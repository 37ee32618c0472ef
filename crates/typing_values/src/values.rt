//! Operands that are values, and what is asked of them where they stand.

ghost use Rattle.std.specs.Prelude.{◌≡◌, IfOk};
ghost use Rattle.operand_types.specs.Allowed.{IsNarrow};
ghost use Rattle.expr_type.specs.Answers.{Gives, source};
ghost use Rattle.expr_type.specs.Forms as form;
ghost use Rattle.expr_type.specs.Operands as rule;
ghost use Rattle.expr_type.specs.Operators as operator;
ghost use Rattle.pattern_types.specs.Meaning.{operand_of};
ghost use Rattle.pattern_types.specs.declared.operand.Operand.TheVariants as O;
ghost use Rattle.typing_fits.specs.Sound.{Extends};
ghost use Rattle.typing_steps.specs.Steps.{TypesTo};
ghost use Rattle.typing_parts.specs.Operands.{as_operand};
ghost use Rattle.typing_parts.specs.Typists.{CanType, FitsIfOk, IsNarrowOperand, IsReady, NarrowIfOk};
ghost use Rattle.typing_values.specs.Values.{ArePairNarrow, as_pair, behind, bits_of, index_of, part_of, streamed_of, two_of, unstreamed_of, value_of};

use call_types::is_streamed_value;
use expr_type::{Halt, Source, Valued};
use operand_types::{Operands, has_bits, is_part};
use pattern_types::Operand;
use select_types::is_index;
use sv_tree::Expr;
use typing_parts::{Known, Names};

/// An operand to which no type is given: a pattern has none there (E505 at its `'`), and a stream can't stand there (E512 at its `{`).
pub fn as_value(text: Source<'_>, o: Operand) -> Result<Valued, Halt>
    ensures value { Gives result (rule.is_value (source text.entry) (operand_of (source text.entry) o)) }
    ensures plain { IfOk result (λ v. o ≡ O.Plain v) }
{
    match o {
        Operand::Plain(v) => Ok(v),
        Operand::Pattern { tick, items, .. } => {
            drop(items);
            Err(Halt::Breaks {
                at: tick,
                rule: 505,
            })
        }
        Operand::Stream(v) => Err(Halt::Breaks {
            at: v.first,
            rule: 512,
        }),
    }
}

/// An expression as a value: no pattern (E505) and no stream (E512).
#[tactic(auto, using(crate::proofs::Putting::values))]
pub fn value<S: Names, F: Fn(&Expr, &mut Known) -> Result<Operand, Halt>>(
    names: &S,
    typed: &F,
    e: &Expr,
    known: &mut Known,
) -> Result<Valued, Halt>
    requires can { CanType _ _ (λ e. e.now) (λ k. k.now) (F.pre typed.now) (F.post typed.now) (S.context names.now) e.now }
    requires ready { IsReady known.old }
    ensures value { TypesTo result (value_of (S.context names.now) e.now known.old.functions) known.new.functions }
    ensures narrow { IfOk result IsNarrow }
    ensures ready { IsReady known.new }
    ensures keeps { Extends known.old.functions known.new.functions }
{
    let o = typed(e, known)?;
    as_value(names.text(), o)
}

/// What stops behind a part that breaks no rule and isn't whole: the first break of what stands behind it, if it has one.
pub fn behind_quiet<T: Drop>(second: Result<T, Halt>) -> Halt
    ensures { result ≡ behind second }
{
    match second {
        Ok(_) => Halt::Quiet,
        Err(halt) => halt,
    }
}

/// Two values in the order of the text.
#[tactic(auto, using(crate::proofs::Putting::besides))]
pub fn two<S: Names, F: Fn(&Expr, &mut Known) -> Result<Operand, Halt>>(
    names: &S,
    typed: &F,
    l: &Expr,
    r: &Expr,
    known: &mut Known,
) -> Result<Operands, Halt>
    requires left { CanType _ _ (λ e. e.now) (λ k. k.now) (F.pre typed.now) (F.post typed.now) (S.context names.now) l.now }
    requires right { CanType _ _ (λ e. e.now) (λ k. k.now) (F.pre typed.now) (F.post typed.now) (S.context names.now) r.now }
    requires ready { IsReady known.old }
    ensures value { TypesTo (as_pair result) (two_of (S.context names.now) l.now r.now known.old.functions) known.new.functions }
    ensures narrow { IfOk result ArePairNarrow }
    ensures ready { IsReady known.new }
    ensures keeps { Extends known.old.functions known.new.functions }
{
    match value(names, typed, l, known) {
        Ok(left) => {
            let right = value(names, typed, r, known)?;
            Ok(Operands { left, right })
        }
        Err(Halt::Memory) => Err(Halt::Memory),
        Err(Halt::Breaks { at, rule }) => Err(Halt::Breaks { at, rule }),
        Err(Halt::Quiet) => Err(behind_quiet(value(names, typed, r, known))),
    }
}

/// A value of which the bits are wanted (E508).
#[tactic(auto, using(crate::proofs::Putting::bits))]
pub fn bits<S: Names, F: Fn(&Expr, &mut Known) -> Result<Operand, Halt>>(
    names: &S,
    typed: &F,
    e: &Expr,
    known: &mut Known,
) -> Result<Valued, Halt>
    requires can { CanType _ _ (λ e. e.now) (λ k. k.now) (F.pre typed.now) (F.post typed.now) (S.context names.now) e.now }
    requires ready { IsReady known.old }
    ensures value { TypesTo result (bits_of (S.context names.now) e.now known.old.functions) known.new.functions }
    ensures narrow { IfOk result IsNarrow }
    ensures ready { IsReady known.new }
    ensures keeps { Extends known.old.functions known.new.functions }
{
    let v = value(names, typed, e, known)?;
    has_bits(names.text(), v)
}

/// An index, of at most 64 bits (E507).
#[tactic(auto, using(crate::proofs::Putting::indices))]
pub fn index<S: Names, F: Fn(&Expr, &mut Known) -> Result<Operand, Halt>>(
    names: &S,
    typed: &F,
    e: &Expr,
    known: &mut Known,
) -> Result<Valued, Halt>
    requires can { CanType _ _ (λ e. e.now) (λ k. k.now) (F.pre typed.now) (F.post typed.now) (S.context names.now) e.now }
    requires ready { IsReady known.old }
    ensures value { TypesTo result (index_of (S.context names.now) e.now known.old.functions) known.new.functions }
    ensures narrow { IfOk result IsNarrow }
    ensures ready { IsReady known.new }
    ensures keeps { Extends known.old.functions known.new.functions }
{
    let v = bits(names, typed, e, known)?;
    is_index(names.text(), v)
}

/// A part of a concatenation: a value with bits (E508) and a size (E501).
#[tactic(auto, using(crate::proofs::Putting::parts))]
pub fn part<S: Names, F: Fn(&Expr, &mut Known) -> Result<Operand, Halt>>(
    names: &S,
    typed: &F,
    e: &Expr,
    known: &mut Known,
) -> Result<Valued, Halt>
    requires can { CanType _ _ (λ e. e.now) (λ k. k.now) (F.pre typed.now) (F.post typed.now) (S.context names.now) e.now }
    requires ready { IsReady known.old }
    ensures value { TypesTo result (part_of (S.context names.now) e.now known.old.functions) known.new.functions }
    ensures narrow { IfOk result IsNarrow }
    ensures ready { IsReady known.new }
    ensures keeps { Extends known.old.functions known.new.functions }
{
    let v = value(names, typed, e, known)?;
    is_part(names.text(), v)
}

/// An operand as a part of a stream: a stream, or a value that isn't a number without a size (E501), and no pattern (E505).
#[tactic(auto, using(crate::proofs::Putting::streaming))]
pub fn as_streamed(text: Source<'_>, o: Operand) -> Result<Valued, Halt>
    requires narrow { IsNarrowOperand o }
    ensures value { Gives result (form.is_streamed_part (source text.entry) (operand_of (source text.entry) o)) }
    ensures narrow { IfOk result IsNarrow }
{
    match o {
        Operand::Plain(v) => is_streamed_value(text, v),
        Operand::Pattern { tick, items, .. } => {
            drop(items);
            Err(Halt::Breaks {
                at: tick,
                rule: 505,
            })
        }
        Operand::Stream(v) => Ok(v),
    }
}

/// A part of a stream: a value or a stream.
#[tactic(auto, using(crate::proofs::Putting::steps))]
pub fn streamed<S: Names, F: Fn(&Expr, &mut Known) -> Result<Operand, Halt>>(
    names: &S,
    typed: &F,
    e: &Expr,
    known: &mut Known,
) -> Result<Valued, Halt>
    requires can { CanType _ _ (λ e. e.now) (λ k. k.now) (F.pre typed.now) (F.post typed.now) (S.context names.now) e.now }
    requires ready { IsReady known.old }
    ensures value { TypesTo result (streamed_of (S.context names.now) e.now known.old.functions) known.new.functions }
    ensures narrow { IfOk result IsNarrow }
    ensures ready { IsReady known.new }
    ensures keeps { Extends known.old.functions known.new.functions }
{
    let o = typed(e, known)?;
    as_streamed(names.text(), o)
}

/// An operand that is no stream (E512).
pub fn not_streamed(text: Source<'_>, o: Operand) -> Result<Operand, Halt>
    ensures value { Gives (as_operand (source text.entry) result) (rule.no_stream (source text.entry) (operand_of (source text.entry) o)) }
    ensures same { IfOk result (λ p. p ≡ o) }
{
    match o {
        Operand::Plain(v) => Ok(Operand::Plain(v)),
        Operand::Pattern { tick, times, items } => Ok(Operand::Pattern { tick, times, items }),
        Operand::Stream(v) => Err(Halt::Breaks {
            at: v.first,
            rule: 512,
        }),
    }
}

/// An operand where no stream can stand (E512).
#[tactic(auto, using(crate::proofs::Putting::unstreaming))]
pub fn unstreamed<S: Names, F: Fn(&Expr, &mut Known) -> Result<Operand, Halt>>(
    names: &S,
    typed: &F,
    e: &Expr,
    known: &mut Known,
) -> Result<Operand, Halt>
    requires can { CanType _ _ (λ e. e.now) (λ k. k.now) (F.pre typed.now) (F.post typed.now) (S.context names.now) e.now }
    requires ready { IsReady known.old }
    ensures value { TypesTo (as_operand (S.context names.now).source result) (unstreamed_of (S.context names.now) e.now known.old.functions) known.new.functions }
    ensures narrow { NarrowIfOk result }
    ensures fits { FitsIfOk result known.new.functions }
    ensures ready { IsReady known.new }
    ensures keeps { Extends known.old.functions known.new.functions }
{
    let o = typed(e, known)?;
    not_streamed(names.text(), o)
}
