//! How many bits a slice of a stream has (IEEE 1800-2017 clause 11.4.14.2).

ghost use Rattle.std.specs.Prelude.{◌≡◌, [], Some};
ghost use Rattle.sv_types.specs.Layouts.{width_of};
ghost use Rattle.expr_type.specs.Answers.{Gives, source};
ghost use Rattle.expr_type.specs.Expressions.{meaning, slice_meaning};
ghost use Rattle.expr_type.specs.Forms as form;
ghost use Rattle.expr_type.specs.KeywordTypes.{keyword_type};
ghost use Rattle.typing_fits.specs.Operands.{SoundContext};
ghost use Rattle.typing_fits.specs.Sound.{Extends};
ghost use Rattle.typing_steps.specs.Steps.{TypesTo};
ghost use Rattle.typing_parts.specs.Typists.{AllCanType, CanType, IsReady};
ghost use Rattle.typing_values.specs.Children.{in_slice};
ghost use Rattle.typing_values.specs.Leaves.{as_thing};
ghost use Rattle.typing_values.specs.Numbers.{CanBeValued};
ghost use Rattle.typing_operators.specs.Joins.{slice_of_size};
ghost use Rattle.typing_operators.specs.Slices.{slice_in, slice_of_constant, slice_of_thing};

use expr_type::{Halt, Source, Valued};
use literal_types::written_slice;
use pattern_types::Operand;
use std::alloc::Global;
use sv_source::Boxed;
use sv_tree::{Expr, KeywordType, QualifiedName, SliceSize};
use sv_types::{SvType, is_narrow, width};
use type_texts::keyword_type;
use typing_parts::{Known, Names, Thing};
use typing_values::{named, number, number_of_value};

// The most bits of a slice.
const MOST_OF_SLICE: i64 = 65_536;

// A slice of so many bits (E411).
fn slice_of(text: Source<'_>, at: u32, bits: u32) -> Result<u32, Halt>
    ensures { Gives result (form.slice_of (source text.entry) at bits) }
{
    if bits == 0 || bits > 65_536 {
        return Err(Halt::Breaks { at, rule: 411 });
    }
    Ok(bits)
}

// A slice of as many bits as a type has.
fn slice_of_type(text: Source<'_>, at: u32, t: &SvType) -> Result<u32, Halt>
    ensures { Gives result (form.slice_of (source text.entry) at (width_of t.now)) }
{
    if !is_narrow(t) {
        return Err(Halt::Breaks { at, rule: 411 });
    }
    slice_of(text, at, width(t))
}

// A slice of as many bits as the type of a word has.
fn slice_of_word(alloc: Global, text: Source<'_>, of: KeywordType) -> Result<u32, Halt>
    ensures { Gives result (form.slice_of (source text.entry) of.at (width_of (keyword_type of []))) }
{
    let t = keyword_type(alloc, of, &[])?;
    slice_of_type(text, of.at, &t)
}

// The number of a constant as that of the bits of a slice.
fn slice_in<S: Names>(alloc: Global, names: &S, v: &Valued, known: &Known) -> Result<u32, Halt>
    requires ready { IsReady known.now }
    requires fits { CanBeValued known.now.functions v.now }
    ensures { Gives result (slice_in (S.context names.now).source known.now.functions v.now) }
{
    let n = number_of_value(alloc, names, 1, MOST_OF_SLICE, v, known)?;
    Ok(n.number as u32)
}

// The number of a named constant.
fn slice_of_constant<S: Names>(
    alloc: Global,
    names: &S,
    of: QualifiedName,
    known: &Known,
) -> Result<u32, Halt>
    requires names { SoundContext (S.context names.now) }
    requires ready { IsReady known.now }
    ensures { Gives result (slice_of_constant (S.context names.now) of known.now.functions) }
{
    let v = named(alloc, names, of)?;
    slice_in(alloc, names, &v, known)
}

// As many bits as a value of a named type has, or the number of a constant.
fn slice_of_thing<S: Names>(
    alloc: Global,
    names: &S,
    of: QualifiedName,
    thing: Thing<'_>,
    known: &Known,
) -> Result<u32, Halt>
    requires names { SoundContext (S.context names.now) }
    requires ready { IsReady known.now }
    ensures { Gives result (slice_of_thing (S.context names.now) of known.now.functions (as_thing thing.entry)) }
{
    match thing {
        Thing::TypeName(t) => slice_of_type(names.text(), of.first_token(), t),
        Thing::Signal(_, _) => slice_of_constant(alloc, names, of, known),
        Thing::Local(_, _) => slice_of_constant(alloc, names, of, known),
        Thing::Constant(_, _) => slice_of_constant(alloc, names, of, known),
        Thing::Interface(_) => slice_of_constant(alloc, names, of, known),
        Thing::Other(_) => slice_of_constant(alloc, names, of, known),
        Thing::Nothing => slice_of_constant(alloc, names, of, known),
    }
}

// A slice by a name.
#[tactic(auto, using(crate::proofs::Putting::names))]
fn slice_by_name<S: Names>(
    alloc: Global,
    names: &S,
    of: QualifiedName,
    known: &Known,
) -> Result<u32, Halt>
    requires names { SoundContext (S.context names.now) }
    requires ready { IsReady known.now }
    ensures { TypesTo result (form.slice_by_name (S.context names.now) of known.now.functions) known.now.functions }
{
    slice_of_thing(alloc, names, of, names.thing(of), known)
}

// The number of an expression in parentheses.
#[tactic(auto, using(crate::proofs::Putting::steps))]
fn slice_within<S: Names, F: Fn(&Expr, &mut Known) -> Result<Operand, Halt>>(
    alloc: Global,
    names: &S,
    typed: &F,
    e: &Expr,
    known: &mut Known,
) -> Result<u32, Halt>
    requires can { CanType _ _ (λ e. e.now) (λ k. k.now) (F.pre typed.now) (F.post typed.now) (S.context names.now) e.now }
    requires ready { IsReady known.old }
    ensures value { TypesTo result (form.slice_within (S.context names.now).source ((meaning e.now).typed (S.context names.now)) known.old.functions) known.new.functions }
    ensures ready { IsReady known.new }
    ensures keeps { Extends known.old.functions known.new.functions }
{
    let n = number(alloc, names, typed, 1, MOST_OF_SLICE, e, known)?;
    Ok(n.number as u32)
}

/// How many bits a slice of a stream has, from 1 to 65,536 (E411): one where nothing is written.
pub(crate) fn slice<S: Names, F: Fn(&Expr, &mut Known) -> Result<Operand, Halt>>(
    alloc: Global,
    names: &S,
    typed: &F,
    size: &Option<Boxed<SliceSize>>,
    known: &mut Known,
) -> Result<u32, Halt>
    requires can { AllCanType _ _ (λ e. e.now) (λ k. k.now) (F.pre typed.now) (F.post typed.now) (S.context names.now) (in_slice size.now) }
    requires names { SoundContext (S.context names.now) }
    requires ready { IsReady known.old }
    ensures value { TypesTo result (slice_of_size (S.context names.now) size.now known.old.functions) known.new.functions }
    ensures ready { IsReady known.new }
    ensures keeps { Extends known.old.functions known.new.functions }
{
    match size {
        None => Ok(1),
        Some(size) => written_size(alloc, names, typed, size.get(), known),
    }
}

/// How many bits a slice of a stream has, as it is written (E411).
#[tactic(auto, using(crate::proofs::Putting::steps))]
pub fn written_size<S: Names, F: Fn(&Expr, &mut Known) -> Result<Operand, Halt>>(
    alloc: Global,
    names: &S,
    typed: &F,
    size: &SliceSize,
    known: &mut Known,
) -> Result<u32, Halt>
    requires can { AllCanType _ _ (λ e. e.now) (λ k. k.now) (F.pre typed.now) (F.post typed.now) (S.context names.now) (in_slice (Some size.now)) }
    requires names { SoundContext (S.context names.now) }
    requires ready { IsReady known.old }
    ensures value { TypesTo result (slice_meaning size.now (S.context names.now) known.old.functions) known.new.functions }
    ensures ready { IsReady known.new }
    ensures keeps { Extends known.old.functions known.new.functions }
{
    match size {
        SliceSize::Decimal { digits } => written_slice(alloc, names.text(), *digits),
        SliceSize::Keyword(of) => slice_of_word(alloc, names.text(), *of),
        SliceSize::Name(of) => slice_by_name(alloc, names, *of, known),
        SliceSize::Parenthesized { value, .. } => {
            slice_within(alloc, names, typed, value.get(), known)
        }
    }
}
