//! Casts to signs.

ghost use Rattle.std.specs.Prelude.{◌≡◌};
ghost use Rattle.sv_tree.specs.Extents.{signing_token};
ghost use Rattle.expr_type.specs.Forms.{is_signed_by};
ghost use Rattle.typing_fits.specs.Operands.{SoundContext};
ghost use Rattle.typing_fits.specs.Sound.{Extends};
ghost use Rattle.typing_parts.specs.Typists.{AllCanType, IsReady};
ghost use Rattle.typing_steps.specs.Steps.{TypesTo};
ghost use Rattle.typing_patterns.specs.TypingValues.{in_cast};
ghost use Rattle.typing_patterns.specs.TypingValuesParts as part;

use crate::cast_insides::{Bits, bits_inside};
use expr_type::{Halt, Valued};
use given_types::with_sign;
use pattern_types::Operand;
use std::alloc::Global;
use sv_tree::{Cast, Expr, Signing};
use typing_parts::{Known, Names};

// The word of a sign.
fn word_of(signing: Signing) -> u32
    ensures { result ≡ signing_token signing }
{
    match signing {
        Signing::Signed(at) => at,
        Signing::Unsigned(at) => at,
    }
}

// Whether it is `signed`.
fn is_signed(signing: Signing) -> bool
    ensures { result ≡ is_signed_by signing }
{
    match signing {
        Signing::Signed(_) => true,
        Signing::Unsigned(_) => false,
    }
}

/// A cast to a sign, which keeps the width.
#[tactic(auto, using(crate::proofs::CastPutting::signs))]
pub fn by_sign<S: Names, F: Fn(&Expr, &mut Known) -> Result<Operand, Halt>>(
    alloc: Global,
    names: &S,
    typed: &F,
    signing: Signing,
    cast: &Cast,
    known: &mut Known,
) -> Result<Valued, Halt>
    requires names { SoundContext (S.context names.now) }
    requires can { AllCanType _ _ (λ e. e.now) (λ k. k.now) (F.pre typed.now) (F.post typed.now) (S.context names.now) (in_cast cast.now) }
    requires ready { IsReady known.old }
    ensures value { TypesTo result (part.by_sign (S.context names.now) signing cast.now known.old.functions) known.new.functions }
    ensures ready { IsReady known.new }
    ensures keeps { Extends known.old.functions known.new.functions }
{
    let Bits { of, .. } = bits_inside(alloc, names, typed, cast, known)?;
    let first = word_of(signing);
    Ok(with_sign(alloc, names.text(), first, is_signed(signing), of)?)
}
