//! Types with the dimensions behind a name.

ghost use Rattle.std.specs.Prelude.{◌≡◌, List, true, IfOk};
ghost use Rattle.sv_types.specs.declared.statement.Function.{Function};
ghost use Rattle.expr_type.specs.Types as means;
ghost use Rattle.expr_type.specs.Typings.{Typing};
ghost use Rattle.routine_fits.specs.Sound.{AllSoundFunctions};
ghost use Rattle.typing_fits.specs.Operands.{AllValuesSound};
ghost use Rattle.typing_fits.specs.Sound.{Extends};
ghost use Rattle.typing_walks.specs.Keeps.{Surrounded};
ghost use Rattle.typing_walks.specs.WrittenTypes.{dims_written};
ghost use Rattle.typing_parts.specs.Typists.{IsReady, MakesKnown};
ghost use Rattle.typing_scopes.specs.Scopes.{context_of};
ghost use Rattle.typing_steps.specs.Steps.{TypesTo};
ghost use Rattle.typing_declarations.specs.Giving.{whole_dims, with_dims};

use crate::{TypeFound, declared_type};
use expr_type::Halt;
use std::alloc::Global;
use sv_tree::Dimension;
use sv_types::SvType;
use typing_parts::Known;
use typing_scopes::{Base, Scope};
use typing_values::behind_quiet;

// A type that is whole: the names of the enums in its text are known in the dimensions.
#[tactic(auto, using(crate::proofs::FormalUnder::unders, typing_parts::proofs::Keeping::keepings))]
fn dims_behind<B: Base, C: Fn(u32, &mut Known) -> Result<u32, Halt>>(
    alloc: Global,
    names: &Scope<'_, B>,
    needs: &C,
    found: TypeFound,
    ds: &[Dimension],
    known: &mut Known,
) -> Result<(TypeFound, SvType), Halt>
    requires needs { MakesKnown _ ((n : _) (k : _) → IsReady k.now → C.pre needs.now n k) (λ k. k.now) (C.post needs.now) (context_of B.context names.now) }
    requires names { Surrounded AllSoundFunctions (context_of B.context names.now) }
    requires sound { AllValuesSound found.names }
    requires written { dims_written ds.now ≡ true }
    requires ready { IsReady known.old }
    ensures value { TypesTo result (whole_dims (context_of B.context names.now) found ds.now known.old.functions) known.new.functions }
    ensures ready { IsReady known.new }
    ensures keeps { Extends known.old.functions known.new.functions }
{
    let TypeFound {
        of,
        names: declared,
    } = found;
    let mut inner = Scope::inside(alloc, names);
    inner.add_values(declared)?;
    let t = declared_type(alloc, &inner, needs, Some(&of), ds, known)?;
    let kept = TypeFound {
        of,
        names: inner.into_values(),
    };
    Ok((kept, t))
}

/// A type with the dimensions behind a name that has it. Where the type breaks nothing and isn't whole, the dimensions are looked at for
/// their breaks.
pub(crate) fn with_dims<B: Base, C: Fn(u32, &mut Known) -> Result<u32, Halt>>(
    alloc: Global,
    names: &Scope<'_, B>,
    needs: &C,
    found: Result<TypeFound, Halt>,
    ds: &[Dimension],
    known: &mut Known,
) -> Result<(TypeFound, SvType), Halt>
    requires needs { MakesKnown _ ((n : _) (k : _) → IsReady k.now → C.pre needs.now n k) (λ k. k.now) (C.post needs.now) (context_of B.context names.now) }
    requires names { Surrounded AllSoundFunctions (context_of B.context names.now) }
    requires sound { IfOk found (λ f. AllValuesSound f.names) }
    requires written { dims_written ds.now ≡ true }
    requires ready { IsReady known.old }
    ensures value { (x : Typing means.TypeFound) (fs : List Function) → TypesTo found (x fs) known.old.functions → TypesTo result (with_dims (context_of B.context names.now) x ds.now fs) known.new.functions }
    ensures ready { IsReady known.new }
    ensures keeps { Extends known.old.functions known.new.functions }
{
    match found {
        Ok(found) => dims_behind(alloc, names, needs, found, ds, known),
        Err(Halt::Memory) => Err(Halt::Memory),
        Err(Halt::Breaks { at, rule }) => Err(Halt::Breaks { at, rule }),
        Err(Halt::Quiet) => {
            Err(behind_quiet(declared_type(alloc, names, needs, None, ds, known)))
        }
    }
}
