//! Formals of functions and tasks, each behind those before it (IEEE 1800-2017 clauses 13.3 and 13.4).

ghost use Rattle.std.specs.Prelude.{◌≡◌, [], List, true, OnOk};
ghost use Rattle.sv_types.specs.declared.statement.Function.{Function};
ghost use Rattle.expr_type.specs.Functions as means;
ghost use Rattle.expr_type.specs.Typings.{Typed};
ghost use Rattle.routine_fits.specs.Sound.{AllSoundFunctions};
ghost use Rattle.routine_laws.specs.Sound.{PerhapsType};
ghost use Rattle.routine_laws.specs.Texts.{formals_written, port_written};
ghost use Rattle.typing_fits.specs.Sound.{Extends};
ghost use Rattle.typing_walks.specs.Keeps.{Surrounded};
ghost use Rattle.typing_parts.specs.Typists.{IsReady, MakesKnown};
ghost use Rattle.typing_scopes.specs.Ahead.{mapped};
ghost use Rattle.typing_scopes.specs.Scopes.{context_of};
ghost use Rattle.typing_steps.specs.Steps.{TypesTo};
ghost use Rattle.typing_declarations.specs.Formals.{Takes, TurnsTo, before_of, ended_by, formal_of};
ghost use Rattle.typing_declarations.specs.FormalRows.{FormalsTo};

use crate::formal_types::{Before, FormalFound, at_first, formal, way_by};
use crate::putting::put;
use expr_type::Halt;
use std::alloc::{AllocError, Global};
use sv_source::Items;
use sv_types::{Formal, Formals, Way};
use typing_parts::Known;
use typing_scopes::{Base, Scope};

/// A formal behind which the next one stands, if it is whole.
#[derive(Drop)]
pub struct Turn {
    /// The formal.
    pub formal: Option<Formal>,
    /// What the next one takes.
    pub before: Before,
}

/// Formals that were met.
#[derive(Drop)]
pub(crate) struct Met {
    /// Those that are whole.
    pub made: Formals,
    /// Whether all are.
    pub whole: bool,
}

// A formal that was found, put into a scope where it is whole.
fn turn_of<B: Base>(
    alloc: Global,
    inner: &mut Scope<'_, B>,
    way: Way,
    found: Result<FormalFound, Halt>,
) -> Result<Turn, Halt>
    ensures { (t : Typed means.FormalFound) (fs : List Function) → TypesTo (mapped (formal_of (context_of B.context inner.old)) found) t fs → TurnsTo result way (context_of B.context inner.new) (context_of B.context inner.old) t fs }
{
    match found {
        Ok(found) => {
            let (formal, before) = put(alloc, inner, found)?;
            Ok(Turn {
                formal: Some(formal),
                before,
            })
        }
        Err(Halt::Memory) => Err(Halt::Memory),
        Err(Halt::Breaks { at, rule }) => Err(Halt::Breaks { at, rule }),
        Err(Halt::Quiet) => Ok(Turn {
            formal: None,
            before: Before { way, of: None },
        }),
    }
}

/// A formal behind the one before, put into a scope where it is whole.
pub fn next_formal<B: Base, C: Fn(u32, &mut Known) -> Result<u32, Halt>>(
    alloc: Global,
    inner: &mut Scope<'_, B>,
    needs: &C,
    before: Before,
    one: &sv_tree::Formal,
    known: &mut Known,
) -> Result<Turn, Halt>
    requires needs { MakesKnown _ ((n : _) (k : _) → IsReady k.now → C.pre needs.now n k) (λ k. k.now) (C.post needs.now) (context_of B.context inner.old) }
    requires names { Surrounded AllSoundFunctions (context_of B.context inner.old) }
    requires before { (fs : List Function) → PerhapsType before.of fs }
    requires written { port_written one.now.text ≡ true }
    requires ready { IsReady known.old }
    ensures value { TurnsTo result (means.way_by before.way one.now.direction) (context_of B.context inner.new) (context_of B.context inner.old) (means.formal_text (context_of B.context inner.old) (before_of before) one.now.direction one.now.text known.old.functions) known.new.functions }
    ensures ready { IsReady known.new }
    ensures keeps { Extends known.old.functions known.new.functions }
{
    let way = way_by(before.way, one.direction);
    let found = formal(alloc, inner, needs, before, one, known);
    turn_of(alloc, inner, way, found)
}

// No formals.
fn none_met(alloc: Global) -> Met
    ensures { result ≡ record { made = []; whole = true } }
{
    Met {
        made: Items::new(alloc),
        whole: true,
    }
}

// One more formal, if it is whole.
fn take(met: &mut Met, formal: Option<Formal>) -> Result<(), AllocError>
    ensures { OnOk result (Takes formal met.old met.new) }
{
    match formal {
        None => {
            met.whole = false;
            Ok(())
        }
        Some(formal) => met.made.push(formal),
    }
}

// The formals, if all are whole.
fn ended(met: Met) -> Result<Formals, Halt>
    ensures { result ≡ ended_by met.whole met.made }
{
    let Met { made, whole } = met;
    if whole { Ok(made) } else { Err(Halt::Quiet) }
}

/// The formals of a function or task, each behind those before it, put into a scope. Their first break in the order of the text counts.
#[tactic(auto, using(typing_parts::proofs::Keeping::keepings))]
pub fn formals<B: Base, C: Fn(u32, &mut Known) -> Result<u32, Halt>>(
    alloc: Global,
    inner: &mut Scope<'_, B>,
    needs: &C,
    list: &[sv_tree::Formal],
    known: &mut Known,
) -> Result<Formals, Halt>
    requires needs { MakesKnown _ ((n : _) (k : _) → IsReady k.now → C.pre needs.now n k) (λ k. k.now) (C.post needs.now) (context_of B.context inner.old) }
    requires names { Surrounded AllSoundFunctions (context_of B.context inner.old) }
    requires written { formals_written list.now ≡ true }
    requires ready { IsReady known.old }
    ensures value { FormalsTo result (context_of B.context inner.new) (context_of B.context inner.old) (means.formals (context_of B.context inner.old) means.at_first list.now known.old.functions) known.new.functions }
    ensures ready { IsReady known.new }
    ensures keeps { Extends known.old.functions known.new.functions }
{
    let mut before = at_first(alloc);
    let mut met = none_met(alloc);
    for one in list {
        let turn = next_formal(alloc, inner, needs, before, one, known)?;
        before = turn.before;
        take(&mut met, turn.formal)?;
    }
    ended(met)
}
