//! What stands behind the tick of a cast.

ghost use Rattle.std.specs.Prelude.{◌≡◌, IfOk};
ghost use Rattle.expr_type.specs.Answers.{Gives, source};
ghost use Rattle.expr_type.specs.Expressions.{meaning};
ghost use Rattle.operand_types.specs.Allowed.{IsNarrow};
ghost use Rattle.typing_patterns.specs.Insides.{as_bits, as_inside, bits_of, inside_bits, inside_of, operand_bits};
ghost use Rattle.pattern_types.specs.Meaning.{operand_of};
ghost use Rattle.typing_fits.specs.Operands.{SoundContext};
ghost use Rattle.typing_fits.specs.Sound.{Extends};
ghost use Rattle.typing_parts.specs.Typists.{AllCanType, CanType, IsNarrowOperand, IsReady, NarrowIfOk};
ghost use Rattle.typing_parts.specs.Operands.{as_operand};
ghost use Rattle.typing_rows.specs.Rows.{mapped};
ghost use Rattle.typing_steps.specs.Steps.{TypesTo};
ghost use Rattle.typing_patterns.specs.TypingValues.{in_cast};

use crate::{as_value, pattern};
use expr_type::{Halt, Source, Valued};
use operand_types::has_bits;
use pattern_types::Operand;
use std::alloc::Global;
use sv_tree::{Cast, Expr};
use typing_parts::{Known, Names};

/// What stands behind the tick of a cast.
#[derive(Drop)]
pub struct Inside {
    /// The tick.
    pub tick: u32,
    /// Whether it is a pattern that stands there without parentheses.
    pub is_pattern: bool,
    /// What is cast.
    pub of: Operand,
}

/// A value that has bits, with the tick before it.
#[derive(Drop)]
pub struct Bits {
    /// The tick.
    pub tick: u32,
    /// What is cast.
    pub of: Valued,
}

// An expression as an operand.
fn operand<S: Names, F: Fn(&Expr, &mut Known) -> Result<Operand, Halt>>(
    names: &S,
    typed: &F,
    e: &Expr,
    known: &mut Known,
) -> Result<Operand, Halt>
    requires can { CanType _ _ (λ e. e.now) (λ k. k.now) (F.pre typed.now) (F.post typed.now) (S.context names.now) e.now }
    requires ready { IsReady known.old }
    ensures value { TypesTo (as_operand (S.context names.now).source result) ((meaning e.now).typed (S.context names.now) known.old.functions) known.new.functions }
    ensures narrow { NarrowIfOk result }
    ensures ready { IsReady known.new }
    ensures keeps { Extends known.old.functions known.new.functions }
{
    typed(e, known)
}

/// What is cast: a value in parentheses, or a pattern.
pub fn behind_tick<S: Names, F: Fn(&Expr, &mut Known) -> Result<Operand, Halt>>(
    alloc: Global,
    names: &S,
    typed: &F,
    cast: &Cast,
    known: &mut Known,
) -> Result<Inside, Halt>
    requires names { SoundContext (S.context names.now) }
    requires can { AllCanType _ _ (λ e. e.now) (λ k. k.now) (F.pre typed.now) (F.post typed.now) (S.context names.now) (in_cast cast.now) }
    requires ready { IsReady known.old }
    ensures value { TypesTo (mapped (as_inside (S.context names.now).source) result) (inside_of (S.context names.now) cast.now known.old.functions) known.new.functions }
    ensures narrow { IfOk result (λ i. IsNarrowOperand i.of) }
    ensures ready { IsReady known.new }
    ensures keeps { Extends known.old.functions known.new.functions }
{
    match cast {
        Cast::Value { tick, value, .. } => {
            let of = operand(names, typed, value.get(), known)?;
            Ok(Inside {
                tick: *tick,
                is_pattern: false,
                of,
            })
        }
        Cast::Pattern {
            tick,
            pattern: p,
            ..
        } => {
            let of = pattern(alloc, names, typed, *tick, p, known)?;
            Ok(Inside {
                tick: *tick,
                is_pattern: true,
                of,
            })
        }
    }
}

// An operand as a value that has bits (E508): no pattern (E505) and no stream (E512).
#[tactic(auto, using(crate::proofs::CastPutting::operands))]
fn bits_of_operand(text: Source<'_>, of: Operand) -> Result<Valued, Halt>
    requires narrow { IsNarrowOperand of }
    ensures value { Gives result (operand_bits (source text.entry) (operand_of (source text.entry) of)) }
    ensures narrow { IfOk result IsNarrow }
{
    let v = as_value(text, of)?;
    has_bits(text, v)
}

// What is cast to a size or a sign has bits; a pattern without parentheses has no type there (E505).
#[tactic(auto, using(crate::proofs::CastPutting::insides))]
fn bits_of_inside(text: Source<'_>, inside: Inside) -> Result<Bits, Halt>
    requires narrow { IsNarrowOperand inside.of }
    ensures value { Gives (mapped as_bits result) (inside_bits (source text.entry) (as_inside (source text.entry) inside)) }
    ensures narrow { IfOk result (λ b. IsNarrow b.of) }
{
    let Inside {
        tick,
        is_pattern,
        of,
    } = inside;
    if is_pattern {
        drop(of);
        return Err(Halt::Breaks {
            at: tick,
            rule: 505,
        });
    }
    match bits_of_operand(text, of) {
        Ok(of) => Ok(Bits { tick, of }),
        Err(halt) => Err(halt),
    }
}

/// What is cast to a size or a sign, as a value that has bits.
#[tactic(auto, using(crate::proofs::CastPutting::bits))]
pub fn bits_inside<S: Names, F: Fn(&Expr, &mut Known) -> Result<Operand, Halt>>(
    alloc: Global,
    names: &S,
    typed: &F,
    cast: &Cast,
    known: &mut Known,
) -> Result<Bits, Halt>
    requires names { SoundContext (S.context names.now) }
    requires can { AllCanType _ _ (λ e. e.now) (λ k. k.now) (F.pre typed.now) (F.post typed.now) (S.context names.now) (in_cast cast.now) }
    requires ready { IsReady known.old }
    ensures value { TypesTo (mapped as_bits result) (bits_of (S.context names.now) cast.now known.old.functions) known.new.functions }
    ensures narrow { IfOk result (λ b. IsNarrow b.of) }
    ensures ready { IsReady known.new }
    ensures keeps { Extends known.old.functions known.new.functions }
{
    let inside = behind_tick(alloc, names, typed, cast, known)?;
    bits_of_inside(names.text(), inside)
}
