//! Expressions as types (IEEE 1800-2017 clauses 6.11, 6.18 and 20.6.2).

ghost use Rattle.typing_fits.specs.Sound.{Extends};
ghost use Rattle.typing_steps.specs.Steps.{TypesTo};
ghost use Rattle.typing_paths.specs.TypingValues.{AllCanType, IsReady};
ghost use Rattle.typing_paths.specs.TypingValues.{in_dimensions, in_selects};
ghost use Rattle.typing_paths.specs.Children.{in_type};
ghost use Rattle.typing_paths.specs.Forms.{HasForm};
ghost use Rattle.typing_paths.specs.System.{as_type_of, named_type_of, word_type_of};

use crate::{dimensioned, type_of_name, type_of_word};
use expr_type::Halt;
use pattern_types::Operand;
use std::alloc::Global;
use sv_tree::{Dimension, Expr, KeywordType, QualifiedName, Select};
use sv_types::SvType;
use typing_parts::{Known, Names};

// How an expression may be a type.
#[derive(Clone, Copy)]
pub enum TypeForm<'e> {
    /// A word with packed dimensions.
    Word(KeywordType, &'e [Dimension]),
    /// A name with selects behind it, which may be a type's.
    Name(QualifiedName, &'e [Select]),
    /// It is none.
    Other,
}

// How an expression may be a type: nothing is cast to it.
fn type_form(e: &Expr) -> TypeForm<'_>
    ensures { HasForm result e.now }
{
    match e {
        Expr::Type { of, packed, cast } => match cast {
            None => TypeForm::Word(*of, packed.as_slice()),
            Some(_) => TypeForm::Other,
        },
        Expr::Name { of, selects, cast } => match cast {
            None => TypeForm::Name(*of, selects.as_slice()),
            Some(_) => TypeForm::Other,
        },
        Expr::Conditional { .. } => TypeForm::Other,
        Expr::Binary { .. } => TypeForm::Other,
        Expr::Inside { .. } => TypeForm::Other,
        Expr::Unary { .. } => TypeForm::Other,
        Expr::Decimal { .. } => TypeForm::Other,
        Expr::Sized { .. } => TypeForm::Other,
        Expr::SizeCast { .. } => TypeForm::Other,
        Expr::Based { .. } => TypeForm::Other,
        Expr::Fill { .. } => TypeForm::Other,
        Expr::Parenthesized { cast, .. } => match cast {
            None => TypeForm::Other,
            Some(_) => TypeForm::Other,
        },
        Expr::Replication { .. } => TypeForm::Other,
        Expr::Concatenation { .. } => TypeForm::Other,
        Expr::Stream { .. } => TypeForm::Other,
        Expr::Pattern { .. } => TypeForm::Other,
        Expr::SigningCast { .. } => TypeForm::Other,
        Expr::SystemCall { .. } => TypeForm::Other,
        Expr::Call { cast, .. } => match cast {
            None => TypeForm::Other,
            Some(_) => TypeForm::Other,
        },
    }
}

// The type of a word with packed dimensions.
#[tactic(auto, using(crate::proofs::Asking::types))]
fn word_type<S: Names, F: Fn(&Expr, &mut Known) -> Result<Operand, Halt>>(
    alloc: Global,
    names: &S,
    typed: &F,
    of: KeywordType,
    packed: &[Dimension],
    known: &mut Known,
) -> Result<Option<SvType>, Halt>
    requires can { AllCanType _ _ (λ e. e.now) (λ k. k.now) (F.pre typed.now) (F.post typed.now) (S.context names.now) (in_dimensions packed.now) }
    requires ready { IsReady known.old }
    ensures value { TypesTo result (word_type_of (S.context names.now) of packed.now known.old.functions) known.new.functions }
    ensures ready { IsReady known.new }
    ensures keeps { Extends known.old.functions known.new.functions }
{
    let t = type_of_word(alloc, names, typed, of, packed, known)?;
    Ok(Some(t))
}

// The type that a name with selects behind it stands for, if the name is a type's.
#[tactic(auto, using(crate::proofs::Asking::types))]
fn named_type<S: Names, F: Fn(&Expr, &mut Known) -> Result<Operand, Halt>>(
    alloc: Global,
    names: &S,
    typed: &F,
    of: QualifiedName,
    selects: &[Select],
    known: &mut Known,
) -> Result<Option<SvType>, Halt>
    requires can { AllCanType _ _ (λ e. e.now) (λ k. k.now) (F.pre typed.now) (F.post typed.now) (S.context names.now) (in_selects selects.now) }
    requires ready { IsReady known.old }
    ensures value { TypesTo result (named_type_of (S.context names.now) of selects.now known.old.functions) known.new.functions }
    ensures ready { IsReady known.new }
    ensures keeps { Extends known.old.functions known.new.functions }
{
    match type_of_name(names, of) {
        None => Ok(None),
        Some(named) => {
            let t = dimensioned(alloc, names, typed, named, selects, known)?;
            Ok(Some(t))
        }
    }
}

/// An expression as a type, if it is one: a word or a type's name, with packed dimensions behind it.
pub fn as_type<S: Names, F: Fn(&Expr, &mut Known) -> Result<Operand, Halt>>(
    alloc: Global,
    names: &S,
    typed: &F,
    e: &Expr,
    known: &mut Known,
) -> Result<Option<SvType>, Halt>
    requires can { AllCanType _ _ (λ e. e.now) (λ k. k.now) (F.pre typed.now) (F.post typed.now) (S.context names.now) (in_type e.now) }
    requires ready { IsReady known.old }
    ensures value { TypesTo result (as_type_of (S.context names.now) e.now known.old.functions) known.new.functions }
    ensures ready { IsReady known.new }
    ensures keeps { Extends known.old.functions known.new.functions }
{
    match type_form(e) {
        TypeForm::Word(of, packed) => word_type(alloc, names, typed, of, packed, known),
        TypeForm::Name(of, selects) => named_type(alloc, names, typed, of, selects, known),
        TypeForm::Other => Ok(None),
    }
}
