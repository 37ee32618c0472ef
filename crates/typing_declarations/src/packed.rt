//! Types with the dimensions behind them.

ghost use Rattle.std.specs.Prelude.{◌≡◌, List, true, IfOk};
ghost use Rattle.sv_types.specs.declared.statement.Function.{Function};
ghost use Rattle.expr_type.specs.Answers.{source};
ghost use Rattle.expr_type.specs.Types as means;
ghost use Rattle.expr_type.specs.Typings.{Typing};
ghost use Rattle.routine_fits.specs.Sound.{AllSoundFunctions};
ghost use Rattle.typing_fits.specs.Operands.{AllValuesSound};
ghost use Rattle.typing_fits.specs.Sound.{Extends};
ghost use Rattle.typing_walks.specs.Keeps.{Surrounded};
ghost use Rattle.typing_walks.specs.WrittenTypes.{dims_written};
ghost use Rattle.typing_parts.specs.Typists.{IsReady, MakesKnown};
ghost use Rattle.typing_scopes.specs.Scopes.{context_of};
ghost use Rattle.typing_steps.specs.Steps.{TypesTo};
ghost use Rattle.typing_declarations.specs.Texts.{packed_by, under_by};

use crate::{TypeFound, dims};
use expr_type::{Halt, Source};
use std::alloc::Global;
use sv_tree::Dimension;
use sv_types::SvType;
use type_texts::{Dim, under};
use typing_parts::{Known, Names};
use typing_scopes::{Base, Scope};
use typing_values::behind_quiet;

// Dimensions of a text in which these constants stand for their values, and the constants.
#[tactic(auto, using(crate::proofs::Under::under))]
fn dims_behind<B: Base, C: Fn(u32, &mut Known) -> Result<u32, Halt>>(
    alloc: Global,
    names: &Scope<'_, B>,
    needs: &C,
    found: TypeFound,
    packed: &[Dimension],
    known: &mut Known,
) -> Result<TypeFound, Halt>
    requires needs { MakesKnown _ ((n : _) (k : _) → IsReady k.now → C.pre needs.now n k) (λ k. k.now) (C.post needs.now) (context_of B.context names.now) }
    requires names { Surrounded AllSoundFunctions (context_of B.context names.now) }
    requires sound { AllValuesSound found.names }
    requires written { dims_written packed.now ≡ true }
    requires ready { IsReady known.old }
    ensures value { TypesTo result (under_by (context_of B.context names.now) found packed.now known.old.functions) known.new.functions }
    ensures sound { IfOk result (λ f. AllValuesSound f.names) }
    ensures ready { IsReady known.new }
    ensures keeps { Extends known.old.functions known.new.functions }
{
    let TypeFound {
        of,
        names: declared,
    } = found;
    let mut inner = Scope::inside(alloc, names);
    inner.add_values(declared)?;
    let dims = dims(alloc, &inner, needs, packed, known)?;
    let of = under(alloc, names.text(), of, dims.as_slice())?;
    Ok(TypeFound {
        of,
        names: inner.into_values(),
    })
}

/// A type under the dimensions behind it (E404 where it is unpacked), in which the names that its text declares stand for their values.
/// Where the type isn't whole, the dimensions are looked at for their breaks.
pub(crate) fn with_packed<B: Base, C: Fn(u32, &mut Known) -> Result<u32, Halt>>(
    alloc: Global,
    names: &Scope<'_, B>,
    needs: &C,
    found: Result<TypeFound, Halt>,
    packed: &[Dimension],
    known: &mut Known,
) -> Result<TypeFound, Halt>
    requires needs { MakesKnown _ ((n : _) (k : _) → IsReady k.now → C.pre needs.now n k) (λ k. k.now) (C.post needs.now) (context_of B.context names.now) }
    requires names { Surrounded AllSoundFunctions (context_of B.context names.now) }
    requires sound { IfOk found (λ f. AllValuesSound f.names) }
    requires written { dims_written packed.now ≡ true }
    requires ready { IsReady known.old }
    ensures value { (x : Typing means.TypeFound) (fs : List Function) → TypesTo found (x fs) known.old.functions → TypesTo result (packed_by (context_of B.context names.now) x packed.now fs) known.new.functions }
    ensures sound { IfOk result (λ f. AllValuesSound f.names) }
    ensures ready { IsReady known.new }
    ensures keeps { Extends known.old.functions known.new.functions }
{
    match found {
        Ok(found) => dims_behind(alloc, names, needs, found, packed, known),
        Err(Halt::Memory) => Err(Halt::Memory),
        Err(Halt::Breaks { at, rule }) => Err(Halt::Breaks { at, rule }),
        Err(Halt::Quiet) => Err(behind_quiet(dims(alloc, names, needs, packed, known))),
    }
}
