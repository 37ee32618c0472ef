//! Types by words and names, with dimensions.

ghost use Rattle.std.specs.Prelude.{◌≡◌, true, IfOk};
ghost use Rattle.std.specs.Option.{option_copied};
ghost use Rattle.expr_type.specs.Types as means;
ghost use Rattle.routine_fits.specs.Sound.{AllSoundFunctions};
ghost use Rattle.typing_fits.specs.Sound.{Extends};
ghost use Rattle.typing_walks.specs.Keeps.{Surrounded};
ghost use Rattle.typing_walks.specs.WrittenTypes.{base_written, dims_written};
ghost use Rattle.typing_parts.specs.Typists.{IsReady, MakesKnown};
ghost use Rattle.typing_steps.specs.Steps.{TypesTo};
ghost use Rattle.typing_declarations.specs.Types.{base_keyword, base_named, implicit_of, keyword_of};

use crate::dimensions::dims;
use expr_type::Halt;
use std::alloc::{AllocError, Global};
use sv_source::Boxed;
use sv_tree::{Dimension, EnumBase, KeywordType, QualifiedName, Signing};
use sv_types::SvType;
use type_kinds::{copy_type, is_unpacked};
use type_texts::{implicit_type, keyword_type, under, unpacked};
use typing_parts::{Known, Names};
use typing_paths::type_of_name;
use typing_values::behind_quiet;

/// The type of a word with packed dimensions (IEEE 1800-2017 clause 6.11).
#[tactic(auto, using(typing_steps::proofs::Combining::steps))]
pub fn keyword<S: Names, C: Fn(u32, &mut Known) -> Result<u32, Halt>>(
    alloc: Global,
    names: &S,
    needs: &C,
    of: KeywordType,
    packed: &[Dimension],
    known: &mut Known,
) -> Result<SvType, Halt>
    requires needs { MakesKnown _ ((n : _) (k : _) → IsReady k.now → C.pre needs.now n k) (λ k. k.now) (C.post needs.now) (S.context names.now) }
    requires names { Surrounded AllSoundFunctions (S.context names.now) }
    requires written { dims_written packed.now ≡ true }
    requires ready { IsReady known.old }
    ensures value { TypesTo result (keyword_of (S.context names.now) of packed.now known.old.functions) known.new.functions }
    ensures ready { IsReady known.new }
    ensures keeps { Extends known.old.functions known.new.functions }
{
    let dims = dims(alloc, names, needs, packed, known)?;
    Ok(keyword_type(alloc, of, dims.as_slice())?)
}

/// The type of a sign and packed dimensions, or of nothing (IEEE 1800-2017 clause 6.10).
#[tactic(auto, using(typing_steps::proofs::Combining::steps))]
pub fn implicit<S: Names, C: Fn(u32, &mut Known) -> Result<u32, Halt>>(
    alloc: Global,
    names: &S,
    needs: &C,
    signing: Option<Signing>,
    packed: &[Dimension],
    known: &mut Known,
) -> Result<SvType, Halt>
    requires needs { MakesKnown _ ((n : _) (k : _) → IsReady k.now → C.pre needs.now n k) (λ k. k.now) (C.post needs.now) (S.context names.now) }
    requires names { Surrounded AllSoundFunctions (S.context names.now) }
    requires written { dims_written packed.now ≡ true }
    requires ready { IsReady known.old }
    ensures value { TypesTo result (implicit_of (S.context names.now) signing packed.now known.old.functions) known.new.functions }
    ensures ready { IsReady known.new }
    ensures keeps { Extends known.old.functions known.new.functions }
{
    let dims = dims(alloc, names, needs, packed, known)?;
    Ok(implicit_type(alloc, signing, dims.as_slice())?)
}

/// A named type with packed dimensions (E404 where it is unpacked). A name that stands for no type isn't whole and breaks nothing here.
#[tactic(auto, using(typing_steps::proofs::Combining::besides, typing_steps::proofs::Combining::steps))]
pub fn named_with<S: Names, C: Fn(u32, &mut Known) -> Result<u32, Halt>>(
    alloc: Global,
    names: &S,
    needs: &C,
    of: QualifiedName,
    packed: &[Dimension],
    known: &mut Known,
) -> Result<SvType, Halt>
    requires needs { MakesKnown _ ((n : _) (k : _) → IsReady k.now → C.pre needs.now n k) (λ k. k.now) (C.post needs.now) (S.context names.now) }
    requires names { Surrounded AllSoundFunctions (S.context names.now) }
    requires written { dims_written packed.now ≡ true }
    requires ready { IsReady known.old }
    ensures value { TypesTo result (means.named_with (S.context names.now) of packed.now known.old.functions) known.new.functions }
    ensures ready { IsReady known.new }
    ensures keeps { Extends known.old.functions known.new.functions }
{
    match type_of_name(names, of) {
        None => Err(behind_quiet(dims(alloc, names, needs, packed, known))),
        Some(t) => {
            let dims = dims(alloc, names, needs, packed, known)?;
            let t = copy_type(alloc, t)?;
            under(alloc, names.text(), t, dims.as_slice())
        }
    }
}

/// A type under the dimensions behind a declared name, if it is whole.
#[tactic(auto, using(typing_steps::proofs::Combining::steps))]
pub fn declared_type<S: Names, C: Fn(u32, &mut Known) -> Result<u32, Halt>>(
    alloc: Global,
    names: &S,
    needs: &C,
    of: Option<&SvType>,
    behind: &[Dimension],
    known: &mut Known,
) -> Result<SvType, Halt>
    requires needs { MakesKnown _ ((n : _) (k : _) → IsReady k.now → C.pre needs.now n k) (λ k. k.now) (C.post needs.now) (S.context names.now) }
    requires names { Surrounded AllSoundFunctions (S.context names.now) }
    requires written { dims_written behind.now ≡ true }
    requires ready { IsReady known.old }
    ensures value { TypesTo result (means.declared_type (S.context names.now) (option_copied of.entry) behind.now known.old.functions) known.new.functions }
    ensures ready { IsReady known.new }
    ensures keeps { Extends known.old.functions known.new.functions }
{
    match of {
        None => {
            let _dims = dims(alloc, names, needs, behind, known)?;
            Err(Halt::Quiet)
        }
        Some(t) => {
            let dims = dims(alloc, names, needs, behind, known)?;
            let t = copy_type(alloc, t)?;
            Ok(unpacked(alloc, dims.as_slice(), t)?)
        }
    }
}

// The type of `int`.
fn int_type(alloc: Global) -> Result<SvType, AllocError>
    ensures { IfOk result (λ t. t ≡ means.int_type) }
{
    let bit = SvType::Scalar {
        four: false,
        signed: false,
    };
    Ok(SvType::PackedArray {
        left: 31,
        right: 0,
        signed: true,
        item: Boxed::new(alloc, bit)?,
    })
}

// A named type under an enum: it is packed (E404).
#[tactic(auto, using(typing_steps::proofs::Combining::steps))]
fn named_base<S: Names, C: Fn(u32, &mut Known) -> Result<u32, Halt>>(
    alloc: Global,
    names: &S,
    needs: &C,
    of: QualifiedName,
    packed: &[Dimension],
    known: &mut Known,
) -> Result<SvType, Halt>
    requires needs { MakesKnown _ ((n : _) (k : _) → IsReady k.now → C.pre needs.now n k) (λ k. k.now) (C.post needs.now) (S.context names.now) }
    requires names { Surrounded AllSoundFunctions (S.context names.now) }
    requires written { dims_written packed.now ≡ true }
    requires ready { IsReady known.old }
    ensures value { TypesTo result (base_named (S.context names.now) of packed.now known.old.functions) known.new.functions }
    ensures ready { IsReady known.new }
    ensures keeps { Extends known.old.functions known.new.functions }
{
    let t = named_with(alloc, names, needs, of, packed, known)?;
    if is_unpacked(&t) {
        return Err(Halt::Breaks {
            at: of.first_token(),
            rule: 404,
        });
    }
    Ok(t)
}

/// The type under an enum (IEEE 1800-2017 clause 6.19): `int` where none is written.
#[tactic(auto, using(crate::proofs::Declaring::basing))]
pub fn base_type<S: Names, C: Fn(u32, &mut Known) -> Result<u32, Halt>>(
    alloc: Global,
    names: &S,
    needs: &C,
    base: &Option<EnumBase>,
    known: &mut Known,
) -> Result<SvType, Halt>
    requires needs { MakesKnown _ ((n : _) (k : _) → IsReady k.now → C.pre needs.now n k) (λ k. k.now) (C.post needs.now) (S.context names.now) }
    requires names { Surrounded AllSoundFunctions (S.context names.now) }
    requires written { base_written base.now ≡ true }
    requires ready { IsReady known.old }
    ensures value { TypesTo result (means.base_type (S.context names.now) base.now known.old.functions) known.new.functions }
    ensures ready { IsReady known.new }
    ensures keeps { Extends known.old.functions known.new.functions }
{
    match base {
        None => Ok(int_type(alloc)?),
        Some(base) => match base {
            EnumBase::Keyword { of, packed } => {
                keyword(alloc, names, needs, *of, packed.as_slice(), known)
            }
            EnumBase::Named { of, packed } => {
                named_base(alloc, names, needs, *of, packed.as_slice(), known)
            }
        },
    }
}
