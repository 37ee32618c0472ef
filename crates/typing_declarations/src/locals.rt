//! Variables of blocks.

ghost use Rattle.std.specs.Prelude.{◌≡◌, IfOk, true};
ghost use Rattle.std.specs.Option.{option_copied};
ghost use Rattle.expr_type.specs.Statements as statement;
ghost use Rattle.expr_type.specs.Types as types;
ghost use Rattle.routine_fits.specs.Sound.{AllSoundFunctions};
ghost use Rattle.typing_fits.specs.Sound.{Extends};
ghost use Rattle.typing_parts.specs.Typists.{IsReady, MakesKnown};
ghost use Rattle.typing_steps.specs.Steps.{TypesTo};
ghost use Rattle.typing_walks.specs.Keeps.{Surrounded};
ghost use Rattle.typing_scopes.specs.Scopes.{context_of};
ghost use Rattle.typing_calls.specs.Lists.{as_meant};
ghost use Rattle.typing_walks.specs.WrittenTypes.{dims_written, initial_written};
ghost use Rattle.stmt_laws.specs.Written.{declarator_written};
ghost use Rattle.typing_declarations.specs.Blocks.{declares};

use crate::block::Part;
use crate::operands::looked_at;
use crate::{declared_type, type_expr};
use expr_type::Halt;
use frame_things::NamedLocal;
use std::alloc::{AllocError, Global};
use stmt_types::local_type;
use sv_tree::{Declarator, Dimension, Initializer};
use sv_types::{Expr, Local, SvType};
use type_kinds::copy_type;
use typing_parts::{Known, Names};
use typing_scopes::{Base, Scope};

// The type of a local, which has at most 65,536 bits (E701).
#[tactic(auto, using(typing_steps::proofs::Combining::steps))]
fn type_of_local<S: Names, C: Fn(u32, &mut Known) -> Result<u32, Halt>>(
    alloc: Global,
    names: &S,
    needs: &C,
    at: u32,
    of: Option<&SvType>,
    ds: &[Dimension],
    known: &mut Known,
) -> Result<SvType, Halt>
    requires needs { MakesKnown _ ((n : _) (k : _) → IsReady k.now → C.pre needs.now n k) (λ k. k.now) (C.post needs.now) (S.context names.now) }
    requires names { Surrounded AllSoundFunctions (S.context names.now) }
    requires written { dims_written ds.now ≡ true }
    requires ready { IsReady known.old }
    ensures value { TypesTo result (statement.local_type (S.context names.now) at (types.declared_type (S.context names.now) (option_copied of.entry) ds.now) known.old.functions) known.new.functions }
    ensures ready { IsReady known.new }
    ensures keeps { Extends known.old.functions known.new.functions }
{
    let t = declared_type(alloc, names, needs, of, ds, known)?;
    local_type(at, t)
}

// The value with which a local starts, if one is written.
#[tactic(auto, using(typing_parts::proofs::Keeping::keepings))]
fn initial_value<S: Names, C: Fn(u32, &mut Known) -> Result<u32, Halt>>(
    alloc: Global,
    names: &S,
    needs: &C,
    t: &SvType,
    initial: &Option<Initializer>,
    known: &mut Known,
) -> Result<Option<Expr>, Halt>
    requires needs { MakesKnown _ ((n : _) (k : _) → IsReady k.now → C.pre needs.now n k) (λ k. k.now) (C.post needs.now) (S.context names.now) }
    requires names { Surrounded AllSoundFunctions (S.context names.now) }
    requires written { initial_written initial.now ≡ true }
    requires ready { IsReady known.old }
    ensures value { TypesTo result (statement.initial_value (S.context names.now) t.now initial.now known.old.functions) known.new.functions }
    ensures ready { IsReady known.new }
    ensures keeps { Extends known.old.functions known.new.functions }
{
    match initial {
        None => Ok(None),
        Some(i) => {
            let e = type_expr(alloc, names, needs, &i.value, Some(t), known)?;
            Ok(Some(e))
        }
    }
}

// A local whose name stands at a token.
fn local_of<B: Base>(
    alloc: Global,
    names: &Scope<'_, B>,
    at: u32,
    t: SvType,
    initial: Option<Expr>,
) -> Result<Part, AllocError>
    ensures { IfOk result (λ p. declares p ≡ statement.local_of (context_of B.context names.now) at t initial) }
{
    let number = names.local_number(at);
    let named = NamedLocal {
        decl: names.declaration(at),
        number,
        of: copy_type(alloc, &t)?,
    };
    let local = Local {
        number,
        of: t,
        initial,
    };
    Ok(Part::Local(named, local))
}

/// A variable of a type, if that is whole, with the dimensions behind its name and its first value. Where its type isn't whole and
/// breaks nothing, its value is looked at by itself.
#[tactic(auto, using(typing_parts::proofs::Keeping::keepings))]
pub(crate) fn variable<B: Base, C: Fn(u32, &mut Known) -> Result<u32, Halt>>(
    alloc: Global,
    names: &Scope<'_, B>,
    needs: &C,
    of: Option<&SvType>,
    d: &Declarator,
    known: &mut Known,
) -> Result<Part, Halt>
    requires needs { MakesKnown _ ((n : _) (k : _) → IsReady k.now → C.pre needs.now n k) (λ k. k.now) (C.post needs.now) (context_of B.context names.now) }
    requires names { Surrounded AllSoundFunctions (context_of B.context names.now) }
    requires written { declarator_written d.now ≡ true }
    requires ready { IsReady known.old }
    ensures value { TypesTo (as_meant declares result) (statement.variable (option_copied of.entry) d.now (context_of B.context names.now) known.old.functions) known.new.functions }
    ensures ready { IsReady known.new }
    ensures keeps { Extends known.old.functions known.new.functions }
{
    let unpacked = d.unpacked.as_slice();
    match type_of_local(alloc, names, needs, d.name, of, unpacked, known) {
        Ok(t) => {
            let initial = initial_value(alloc, names, needs, &t, &d.initial, known)?;
            Ok(local_of(alloc, names, d.name, t, initial)?)
        }
        Err(Halt::Quiet) => Err(looked_at(alloc, names, needs, &d.initial, known)),
        Err(Halt::Memory) => Err(Halt::Memory),
        Err(Halt::Breaks { at, rule }) => Err(Halt::Breaks { at, rule }),
    }
}
