//! Functions and tasks by their parts (IEEE 1800-2017 clauses 13.3 and 13.4).

ghost use Rattle.std.specs.Prelude.{◌≡◌, List, true, IfOk};
ghost use Rattle.expr_type.specs.Functions as means;
ghost use Rattle.expr_type.specs.Names.{Home};
ghost use Rattle.expr_type.specs.Typings.{Typing};
ghost use Rattle.routine_fits.specs.Sound.{AllSoundFunctions};
ghost use Rattle.routine_laws.specs.Sound.{SoundResult};
ghost use Rattle.routine_laws.specs.Texts.{formals_written};
ghost use Rattle.stmt_laws.specs.Written.{items_written};
ghost use Rattle.sv_types.specs.declared.statement.Function.{Function};
ghost use Rattle.typing_declarations.specs.Giving.{kind_by, result_of};
ghost use Rattle.typing_fits.specs.Sound.{Extends};
ghost use Rattle.typing_parts.specs.Typists.{IsReady, MakesKnown};
ghost use Rattle.typing_stmts.specs.Routines.{IsIdentity, function_by};
ghost use Rattle.typing_scopes.specs.Ahead.{mapped};
ghost use Rattle.typing_scopes.specs.Scopes.{context_of};
ghost use Rattle.typing_steps.specs.Steps.{TypesTo};
ghost use Rattle.typing_walks.specs.Keeps.{Surrounded};

use crate::bodies::{with_result, without_result};
use crate::identity::Identity;
use expr_type::Halt;
use std::alloc::Global;
use sv_tree::BlockItem;
use sv_types::{Formals, Function, FunctionKind, Stmt, SvType};
use typing_declarations::ResultFound;
use typing_parts::Known;
use typing_scopes::{Base, Scope};

// What a function is by whether it gives a value.
fn kind_of(plain: bool) -> FunctionKind
    ensures { result ≡ kind_by plain }
{
    if plain {
        FunctionKind::Plain
    } else {
        FunctionKind::Routine
    }
}

// A function of its parts.
fn function_of(identity: Identity, plain: bool, of: SvType, parts: (Formals, Stmt)) -> Function
    ensures { result ≡ function_by identity plain of parts.0 parts.1 }
{
    let Identity {
        instance,
        path,
        spot,
    } = identity;
    let (formals, body) = parts;
    Function {
        instance,
        path,
        spot,
        kind: kind_of(plain),
        of,
        formals,
        body,
    }
}

// A function whose result is whole.
fn whole_result<B: Base, C: Fn(u32, &mut Known) -> Result<u32, Halt>>(
    alloc: Global,
    outer: &Scope<'_, B>,
    needs: &C,
    identity: Identity,
    name: u32,
    found: ResultFound,
    list: &[sv_tree::Formal],
    items: &[BlockItem],
    known: &mut Known,
) -> Result<Function, Halt>
    requires needs { MakesKnown _ ((n : _) (k : _) → IsReady k.now → C.pre needs.now n k) (λ k. k.now) (C.post needs.now) (context_of B.context outer.now) }
    requires names { Surrounded AllSoundFunctions (context_of B.context outer.now) }
    requires result { SoundResult (result_of found) known.old.functions }
    requires written { formals_written list.now ≡ true }
    requires items { items_written items.now ≡ true }
    requires ready { IsReady known.old }
    ensures value { (h : Home) (x : Typing means.ResultFound) (fs : List Function) → IsIdentity identity (context_of B.context outer.now) h name → TypesTo (Ok (result_of found)) (x fs) known.old.functions → TypesTo result (means.typed_routine (context_of B.context outer.now) h name x list.now items.now fs) known.new.functions }
    ensures ready { IsReady known.new }
    ensures keeps { Extends known.old.functions known.new.functions }
{
    let ResultFound {
        plain,
        of,
        names: declared,
    } = found;
    match with_result(
        alloc, outer, needs, name, plain, &of, declared, list, items, known,
    ) {
        Ok(parts) => Ok(function_of(identity, plain, of, parts)),
        Err(halt) => Err(halt),
    }
}

/// A function or task by what it is known by, its result, formals and items. Its first break in the order of the text counts.
#[tactic(auto, using(typing_parts::proofs::Keeping::keepings))]
pub(crate) fn typed_routine<B: Base, C: Fn(u32, &mut Known) -> Result<u32, Halt>>(
    alloc: Global,
    outer: &Scope<'_, B>,
    needs: &C,
    identity: Identity,
    name: u32,
    found: Result<ResultFound, Halt>,
    list: &[sv_tree::Formal],
    items: &[BlockItem],
    known: &mut Known,
) -> Result<Function, Halt>
    requires needs { MakesKnown _ ((n : _) (k : _) → IsReady k.now → C.pre needs.now n k) (λ k. k.now) (C.post needs.now) (context_of B.context outer.now) }
    requires names { Surrounded AllSoundFunctions (context_of B.context outer.now) }
    requires result { IfOk found (λ r. SoundResult (result_of r) known.old.functions) }
    requires written { formals_written list.now ≡ true }
    requires items { items_written items.now ≡ true }
    requires ready { IsReady known.old }
    ensures value { (h : Home) (x : Typing means.ResultFound) (fs : List Function) → IsIdentity identity (context_of B.context outer.now) h name → TypesTo (mapped result_of found) (x fs) known.old.functions → TypesTo result (means.typed_routine (context_of B.context outer.now) h name x list.now items.now fs) known.new.functions }
    ensures ready { IsReady known.new }
    ensures keeps { Extends known.old.functions known.new.functions }
{
    match found {
        Ok(found) => whole_result(
            alloc, outer, needs, identity, name, found, list, items, known,
        ),
        Err(Halt::Memory) => Err(Halt::Memory),
        Err(Halt::Breaks { at, rule }) => Err(Halt::Breaks { at, rule }),
        Err(Halt::Quiet) => Err(without_result(alloc, outer, needs, name, list, items, known)),
    }
}
