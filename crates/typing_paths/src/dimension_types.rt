//! Types that words and names with dimensions behind them stand for (IEEE 1800-2017 clauses 6.11, 6.18 and 7.4).

ghost use Rattle.std.specs.Prelude.{◌≡◌, option_copied};
ghost use Rattle.expr_type.specs.Forms as form;
ghost use Rattle.expr_type.specs.Names.{thing};
ghost use Rattle.typing_fits.specs.Sound.{Extends};
ghost use Rattle.typing_steps.specs.Steps.{TypesTo};
ghost use Rattle.typing_parts.specs.Typists.{AllCanType, IsReady};
ghost use Rattle.typing_values.specs.Children.{in_dimensions, in_selects};
ghost use Rattle.typing_values.specs.Parts as part;

use crate::written::{dimensions, select_dimensions};
use expr_type::Halt;
use pattern_types::Operand;
use std::alloc::Global;
use sv_tree::{Dimension, Expr, KeywordType, QualifiedName, Select};
use sv_types::SvType;
use type_kinds::copy_type;
use type_texts::{keyword_type, under};
use typing_parts::{Known, Names, Thing};

/// The type of a word with packed dimensions.
#[tactic(auto, using(typing_steps::proofs::Combining::steps))]
pub fn type_of_word<S: Names, F: Fn(&Expr, &mut Known) -> Result<Operand, Halt>>(
    alloc: Global,
    names: &S,
    typed: &F,
    of: KeywordType,
    packed: &[Dimension],
    known: &mut Known,
) -> Result<SvType, Halt>
    requires can { AllCanType _ _ (λ e. e.now) (λ k. k.now) (F.pre typed.now) (F.post typed.now) (S.context names.now) (in_dimensions packed.now) }
    requires ready { IsReady known.old }
    ensures value { TypesTo result (part.type_of_word (S.context names.now) of packed.now known.old.functions) known.new.functions }
    ensures ready { IsReady known.new }
    ensures keeps { Extends known.old.functions known.new.functions }
{
    let dims = dimensions(alloc, names, typed, packed, known)?;
    Ok(keyword_type(alloc, of, dims.as_slice())?)
}

/// The type that a name stands for, if it stands for one.
pub fn type_of_name<'t, S: Names>(names: &'t S, of: QualifiedName) -> Option<&'t SvType>
    ensures { option_copied result ≡ form.type_of_thing (thing (S.context names.now) of) }
{
    match names.thing(of) {
        Thing::TypeName(t) => Some(t),
        Thing::Signal(_, _) => None,
        Thing::Local(_, _) => None,
        Thing::Constant(_, _) => None,
        Thing::Interface(_) => None,
        Thing::Other(_) => None,
        Thing::Nothing => None,
    }
}

/// A named type with what is selected behind its name as its packed dimensions (E404 where it is unpacked).
#[tactic(auto, using(typing_steps::proofs::Combining::steps))]
pub fn dimensioned<S: Names, F: Fn(&Expr, &mut Known) -> Result<Operand, Halt>>(
    alloc: Global,
    names: &S,
    typed: &F,
    t: &SvType,
    selects: &[Select],
    known: &mut Known,
) -> Result<SvType, Halt>
    requires can { AllCanType _ _ (λ e. e.now) (λ k. k.now) (F.pre typed.now) (F.post typed.now) (S.context names.now) (in_selects selects.now) }
    requires ready { IsReady known.old }
    ensures value { TypesTo result (part.dimensioned (S.context names.now) t.now selects.now known.old.functions) known.new.functions }
    ensures ready { IsReady known.new }
    ensures keeps { Extends known.old.functions known.new.functions }
{
    let dims = select_dimensions(alloc, names, typed, selects, known)?;
    let t = copy_type(alloc, t)?;
    under(alloc, names.text(), t, dims.as_slice())
}
