//! Types in declarations.

ghost use Rattle.std.specs.Prelude.{◌≡◌, None, IfOk, map, true};
ghost use Rattle.expr_type.specs.Statements as statement;
ghost use Rattle.routine_fits.specs.Sound.{AllSoundFunctions};
ghost use Rattle.typing_fits.specs.Sound.{Extends};
ghost use Rattle.typing_parts.specs.Typists.{IsReady, MakesKnown};
ghost use Rattle.typing_steps.specs.Steps.{TypesTo};
ghost use Rattle.typing_walks.specs.Keeps.{Surrounded};
ghost use Rattle.typing_calls.specs.Lists.{as_meant};
ghost use Rattle.typing_scopes.specs.Scopes.{context_of};
ghost use Rattle.typing_walks.specs.Written as written;
ghost use Rattle.typing_walks.specs.WrittenTypes.{dims_written, type_written};
ghost use Rattle.typing_declarations.specs.Kinds.{written_of};

use crate::operands::with_selects;
use crate::{TypeFound, dims, typed_text};
use expr_type::Halt;
use std::alloc::{AllocError, Global};
use sv_tree::{Dimension, QualifiedName, Select, Signing, TypeText};
use sv_types::SvType;
use type_kinds::copy_type;
use type_texts::{implicit_type, unpacked};
use typing_parts::{Known, Names};
use typing_paths::type_of_name;
use typing_scopes::{Base, Scope};

/// A named type with selects in the place of dimensions. A name that stands for no type isn't whole and breaks nothing here.
#[tactic(auto, using(typing_parts::proofs::Keeping::keepings))]
pub(crate) fn selected_type<S: Names, C: Fn(u32, &mut Known) -> Result<u32, Halt>>(
    alloc: Global,
    names: &S,
    needs: &C,
    of: u32,
    selects: &[Select],
    known: &mut Known,
) -> Result<TypeFound, Halt>
    requires needs { MakesKnown _ ((n : _) (k : _) → IsReady k.now → C.pre needs.now n k) (λ k. k.now) (C.post needs.now) (S.context names.now) }
    requires names { Surrounded AllSoundFunctions (S.context names.now) }
    requires written { written.all (map written.select_written selects.now) ≡ true }
    requires ready { IsReady known.old }
    ensures value { TypesTo result (statement.selected_type (S.context names.now) of selects.now known.old.functions) known.new.functions }
    ensures ready { IsReady known.new }
    ensures keeps { Extends known.old.functions known.new.functions }
{
    let name = QualifiedName {
        scope: None,
        name: of,
    };
    match type_of_name(names, name) {
        None => Err(Halt::Quiet),
        Some(t) => {
            let t = with_selects(alloc, names, needs, t, selects, known)?;
            Ok(TypeFound::only(alloc, t))
        }
    }
}

/// What is written of a parameter's type (IEEE 1800-2017 clause 6.20.2).
#[derive(Drop)]
pub enum WrittenType {
    /// At most a sign: its value gives the rest.
    OfValue(Option<Signing>),
    /// A type.
    OfType(SvType),
}

// Whether nothing is written.
fn nothing_written(signing: Option<Signing>, packed: &[Dimension]) -> bool
    ensures { result ≡ statement.nothing_written signing packed.now }
{
    match signing {
        None => match packed {
            [] => true,
            [_, ..] => false,
        },
        Some(_) => false,
    }
}

/// Whether a type is left out.
pub(crate) fn is_unwritten(of: &TypeText) -> bool
    ensures { result ≡ statement.is_unwritten of.now }
{
    match of {
        TypeText::Keyword { .. } => false,
        TypeText::Structure { .. } => false,
        TypeText::Enumeration { .. } => false,
        TypeText::Named { .. } => false,
        TypeText::Implicit { signing, packed } => nothing_written(*signing, packed.as_slice()),
    }
}

// A sign that no dimensions stand behind.
fn if_alone(signing: Option<Signing>, packed: &[Dimension]) -> Option<Signing>
    ensures { result ≡ statement.if_alone signing packed.now }
{
    match packed {
        [] => signing,
        [_, ..] => None,
    }
}

// The sign of a type of which nothing else is written.
fn sign_alone(of: &TypeText) -> Option<Signing>
    ensures { result ≡ statement.sign_alone of.now }
{
    match of {
        TypeText::Keyword { .. } => None,
        TypeText::Structure { .. } => None,
        TypeText::Enumeration { .. } => None,
        TypeText::Named { .. } => None,
        TypeText::Implicit { signing, packed } => if_alone(*signing, packed.as_slice()),
    }
}

// A type that is written.
#[tactic(auto, using(typing_parts::proofs::Keeping::keepings))]
fn type_alone<B: Base, C: Fn(u32, &mut Known) -> Result<u32, Halt>>(
    alloc: Global,
    names: &Scope<'_, B>,
    needs: &C,
    of: &TypeText,
    known: &mut Known,
) -> Result<WrittenType, Halt>
    requires needs { MakesKnown _ ((n : _) (k : _) → IsReady k.now → C.pre needs.now n k) (λ k. k.now) (C.post needs.now) (context_of B.context names.now) }
    requires names { Surrounded AllSoundFunctions (context_of B.context names.now) }
    requires written { type_written of.now ≡ true }
    requires ready { IsReady known.old }
    ensures value { TypesTo (as_meant written_of result) (statement.sign_or_type (context_of B.context names.now) of.now None known.old.functions) known.new.functions }
    ensures ready { IsReady known.new }
    ensures keeps { Extends known.old.functions known.new.functions }
{
    let found = typed_text(alloc, names, needs, of, known)?;
    let TypeFound { of: t, .. } = found;
    Ok(WrittenType::OfType(t))
}

// A type that is written, or a sign alone, which takes the range of the value.
#[tactic(auto, using(typing_parts::proofs::Keeping::keepings))]
fn sign_or_type<B: Base, C: Fn(u32, &mut Known) -> Result<u32, Halt>>(
    alloc: Global,
    names: &Scope<'_, B>,
    needs: &C,
    signing: Option<Signing>,
    of: &TypeText,
    known: &mut Known,
) -> Result<WrittenType, Halt>
    requires needs { MakesKnown _ ((n : _) (k : _) → IsReady k.now → C.pre needs.now n k) (λ k. k.now) (C.post needs.now) (context_of B.context names.now) }
    requires names { Surrounded AllSoundFunctions (context_of B.context names.now) }
    requires written { type_written of.now ≡ true }
    requires ready { IsReady known.old }
    ensures value { TypesTo (as_meant written_of result) (statement.sign_or_type (context_of B.context names.now) of.now signing known.old.functions) known.new.functions }
    ensures ready { IsReady known.new }
    ensures keeps { Extends known.old.functions known.new.functions }
{
    match signing {
        Some(sign) => Ok(WrittenType::OfValue(Some(sign))),
        None => type_alone(alloc, names, needs, of, known),
    }
}

/// What is written of a parameter's type, or what is of that of the parameter before where nothing is (IEEE 1800-2017 clause 6.20.2).
#[tactic(auto, using(typing_parts::proofs::Keeping::keepings))]
pub(crate) fn type_or_before<B: Base, C: Fn(u32, &mut Known) -> Result<u32, Halt>>(
    alloc: Global,
    names: &Scope<'_, B>,
    needs: &C,
    before: WrittenType,
    of: &TypeText,
    known: &mut Known,
) -> Result<WrittenType, Halt>
    requires needs { MakesKnown _ ((n : _) (k : _) → IsReady k.now → C.pre needs.now n k) (λ k. k.now) (C.post needs.now) (context_of B.context names.now) }
    requires names { Surrounded AllSoundFunctions (context_of B.context names.now) }
    requires written { type_written of.now ≡ true }
    requires ready { IsReady known.old }
    ensures value { TypesTo (as_meant written_of result) (statement.written_type (context_of B.context names.now) (written_of before) of.now known.old.functions) known.new.functions }
    ensures ready { IsReady known.new }
    ensures keeps { Extends known.old.functions known.new.functions }
{
    if is_unwritten(of) {
        return Ok(before);
    }
    sign_or_type(alloc, names, needs, sign_alone(of), of, known)
}

// A type, or one bit where none is written.
fn type_or_bit(alloc: Global, t: &WrittenType) -> Result<SvType, AllocError>
    ensures { IfOk result (λ r. r ≡ statement.type_or_bit (written_of t.now)) }
{
    match t {
        WrittenType::OfValue(signing) => implicit_type(alloc, *signing, &[]),
        WrittenType::OfType(t) => copy_type(alloc, t),
    }
}

// The same once more.
fn copied(alloc: Global, t: &WrittenType) -> Result<WrittenType, AllocError>
    ensures { IfOk result (λ r. r ≡ t.now) }
{
    match t {
        WrittenType::OfValue(signing) => Ok(WrittenType::OfValue(*signing)),
        WrittenType::OfType(t) => Ok(WrittenType::OfType(copy_type(alloc, t)?)),
    }
}

/// What is written of a parameter's type, with the dimensions behind its name if there are any: under them stands one bit where no type is
/// written.
#[tactic(auto, using(typing_steps::proofs::Combining::steps, typing_parts::proofs::Keeping::keepings))]
pub(crate) fn with_dimensions<S: Names, C: Fn(u32, &mut Known) -> Result<u32, Halt>>(
    alloc: Global,
    names: &S,
    needs: &C,
    t: &WrittenType,
    ds: &[Dimension],
    known: &mut Known,
) -> Result<WrittenType, Halt>
    requires needs { MakesKnown _ ((n : _) (k : _) → IsReady k.now → C.pre needs.now n k) (λ k. k.now) (C.post needs.now) (S.context names.now) }
    requires names { Surrounded AllSoundFunctions (S.context names.now) }
    requires written { dims_written ds.now ≡ true }
    requires ready { IsReady known.old }
    ensures value { TypesTo (as_meant written_of result) (statement.with_dimensions (S.context names.now) (written_of t.now) ds.now known.old.functions) known.new.functions }
    ensures ready { IsReady known.new }
    ensures keeps { Extends known.old.functions known.new.functions }
{
    if ds.is_empty() {
        return Ok(copied(alloc, t)?);
    }
    let dims = dims(alloc, names, needs, ds, known)?;
    let under = type_or_bit(alloc, t)?;
    Ok(WrittenType::OfType(unpacked(alloc, dims.as_slice(), under)?))
}
