//! Casts to sizes.

ghost use Rattle.std.specs.Prelude.{◌≡◌, ℕ, List, IfOk};
ghost use Rattle.expr_type.specs.Operands as rule;
ghost use Rattle.expr_type.specs.Typings.{Typing};
ghost use Rattle.sv_types.specs.declared.statement.Function.{Function};
ghost use Rattle.typing_patterns.specs.Sized.{size_of, sized};
ghost use Rattle.typing_fits.specs.Operands.{SoundContext};
ghost use Rattle.typing_fits.specs.Sound.{Extends};
ghost use Rattle.typing_parts.specs.Operands.{as_operand};
ghost use Rattle.typing_parts.specs.Typists.{AllCanType, FitsIfOk, IsReady};
ghost use Rattle.typing_steps.specs.Steps.{TypesTo};
ghost use Rattle.typing_patterns.specs.TypingValues.{in_cast};
ghost use Rattle.typing_patterns.specs.TypingValuesParts as part;

use crate::cast_insides::{Bits, bits_inside};
use crate::{behind_quiet, number_of_operand};
use expr_type::{Halt, Valued};
use given_types::size_cast;
use literal_types::written_size;
use pattern_types::Operand;
use std::alloc::Global;
use sv_tree::{Cast, Expr};
use typing_parts::{Known, Names};

// The greatest size.
const MOST_OF_SIZE: i64 = 4_294_967_295;

// The size that an operand gives, from 1 to 2^32 - 1.
#[tactic(auto, using(crate::proofs::CastPutting::sizes))]
fn size_by<S: Names>(
    alloc: Global,
    names: &S,
    size: Result<Operand, Halt>,
    known: &Known,
) -> Result<u32, Halt>
    requires fits { FitsIfOk size known.now.functions }
    requires ready { IsReady known.now }
    ensures { (x : Typing rule.Operand) (fs : List Function) → TypesTo (as_operand (S.context names.now).source size) (x fs) known.now.functions → TypesTo result (size_of (S.context names.now).source x fs) known.now.functions }
{
    match size {
        Ok(o) => {
            let n = number_of_operand(alloc, names, 1, MOST_OF_SIZE, o, known)?;
            Ok(n.number as u32)
        }
        Err(halt) => Err(halt),
    }
}

// A cast to a size, which may be missing.
#[tactic(auto, using(crate::proofs::CastPutting::both, typing_parts::proofs::Keeping::keepings))]
fn sized<S: Names, F: Fn(&Expr, &mut Known) -> Result<Operand, Halt>>(
    alloc: Global,
    names: &S,
    typed: &F,
    first: u32,
    size: Result<u32, Halt>,
    cast: &Cast,
    known: &mut Known,
) -> Result<Valued, Halt>
    requires names { SoundContext (S.context names.now) }
    requires can { AllCanType _ _ (λ e. e.now) (λ k. k.now) (F.pre typed.now) (F.post typed.now) (S.context names.now) (in_cast cast.now) }
    requires ready { IsReady known.old }
    ensures value { (x : Typing ℕ) (fs : List Function) → TypesTo size (x fs) known.old.functions → TypesTo result (sized (S.context names.now) first x cast.now fs) known.new.functions }
    ensures ready { IsReady known.new }
    ensures keeps { Extends known.old.functions known.new.functions }
{
    match size {
        Ok(bits) => {
            let Bits { tick, of } = bits_inside(alloc, names, typed, cast, known)?;
            size_cast(alloc, names.text(), first, bits, tick, of)
        }
        Err(Halt::Memory) => Err(Halt::Memory),
        Err(Halt::Breaks { at, rule }) => Err(Halt::Breaks { at, rule }),
        Err(Halt::Quiet) => {
            let of = bits_inside(alloc, names, typed, cast, known);
            Err(behind_quiet(of))
        }
    }
}

/// A cast to a size that an operand gives, which is typed already: a constant from 1 to 2^32 - 1 (E411). The whole begins with the
/// token `first`. A size of more than 65,536 bits breaks E701 at the tick.
#[tactic(auto, using(typing_parts::proofs::Keeping::keepings))]
pub fn by_size<S: Names, F: Fn(&Expr, &mut Known) -> Result<Operand, Halt>>(
    alloc: Global,
    names: &S,
    typed: &F,
    first: u32,
    size: Result<Operand, Halt>,
    cast: &Cast,
    known: &mut Known,
) -> Result<Valued, Halt>
    requires names { SoundContext (S.context names.now) }
    requires fits { FitsIfOk size known.old.functions }
    requires can { AllCanType _ _ (λ e. e.now) (λ k. k.now) (F.pre typed.now) (F.post typed.now) (S.context names.now) (in_cast cast.now) }
    requires ready { IsReady known.old }
    ensures value { (x : Typing rule.Operand) (fs : List Function) → TypesTo (as_operand (S.context names.now).source size) (x fs) known.old.functions → TypesTo result (part.by_size (S.context names.now) first x cast.now fs) known.new.functions }
    ensures ready { IsReady known.new }
    ensures keeps { Extends known.old.functions known.new.functions }
{
    let bits = size_by(alloc, names, size, known);
    sized(alloc, names, typed, first, bits, cast, known)
}

/// A cast to a size that is written as a number, from 1 to 2^32 - 1 (E411).
pub fn by_written_size<S: Names, F: Fn(&Expr, &mut Known) -> Result<Operand, Halt>>(
    alloc: Global,
    names: &S,
    typed: &F,
    size: u32,
    cast: &Cast,
    known: &mut Known,
) -> Result<Valued, Halt>
    requires names { SoundContext (S.context names.now) }
    requires can { AllCanType _ _ (λ e. e.now) (λ k. k.now) (F.pre typed.now) (F.post typed.now) (S.context names.now) (in_cast cast.now) }
    requires ready { IsReady known.old }
    ensures value { TypesTo result (part.by_written_size (S.context names.now) size cast.now known.old.functions) known.new.functions }
    ensures ready { IsReady known.new }
    ensures keeps { Extends known.old.functions known.new.functions }
{
    let bits = written_size(alloc, names.text(), size);
    sized(alloc, names, typed, size, bits, cast, known)
}
