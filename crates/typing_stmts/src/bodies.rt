//! Bodies of functions and tasks (IEEE 1800-2017 clauses 13.3 and 13.4): each is looked at behind its head, for its breaks also where
//! that isn't whole.

ghost use Rattle.std.specs.Prelude.{◌≡◌, List, Ok, Err, true, IfOk};
ghost use Rattle.expr_type.specs.Functions as means;
ghost use Rattle.expr_type.specs.Typings.{Typing};
ghost use Rattle.expr_type.specs.declared.halt.Halt.TheVariants.{Quiet};
ghost use Rattle.routine_fits.specs.Sound.{AllSoundFunctions};
ghost use Rattle.routine_laws.specs.Sound.{SoundResult};
ghost use Rattle.routine_laws.specs.Texts.{formals_written};
ghost use Rattle.stmt_laws.specs.Written.{items_written};
ghost use Rattle.sv_types.specs.declared.statement.Function.{Function};
ghost use Rattle.typing_declarations.specs.Giving.{plain_result};
ghost use Rattle.typing_fits.specs.Sound.{Extends};
ghost use Rattle.typing_parts.specs.Typists.{IsReady, MakesKnown};
ghost use Rattle.typing_stmts.specs.Routines.{BehindTo, BodyTo, PartsTo, StopsOn, body_typed};
ghost use Rattle.typing_scopes.specs.Scopes.{context_of};
ghost use Rattle.typing_steps.specs.Steps.{StopsBy, TypesTo};
ghost use Rattle.typing_walks.specs.Keeps.{Surrounded};

use crate::block;
use expr_type::Halt;
use frame_things::Rows;
use std::alloc::Global;
use sv_tree::BlockItem;
use sv_types::{Formals, ParamValue, Stmt, SvType};
use typing_declarations::{formals, head_formals, in_body};
use typing_parts::Known;
use typing_scopes::{Base, Scope};
use typing_values::behind_quiet;

// Formals, and the body behind them.
fn with_body<B: Base, C: Fn(u32, &mut Known) -> Result<u32, Halt>>(
    alloc: Global,
    inner: &Scope<'_, B>,
    needs: &C,
    made: Formals,
    items: &[BlockItem],
    known: &mut Known,
) -> Result<(Formals, Stmt), Halt>
    requires needs { MakesKnown _ ((n : _) (k : _) → IsReady k.now → C.pre needs.now n k) (λ k. k.now) (C.post needs.now) (context_of B.context inner.now) }
    requires names { Surrounded AllSoundFunctions (context_of B.context inner.now) }
    requires written { items_written items.now ≡ true }
    requires ready { IsReady known.old }
    ensures value { BodyTo made result (context_of B.context inner.now) items.now known.old.functions known.new.functions }
    ensures ready { IsReady known.new }
    ensures keeps { Extends known.old.functions known.new.functions }
{
    match block(alloc, inner, needs, items, known) {
        Ok(body) => Ok((made, body)),
        Err(halt) => Err(halt),
    }
}

// What stops a function whose head stopped. Where that breaks nothing, the body is looked at for its breaks.
#[tactic(auto, using(typing_parts::proofs::Keeping::keepings))]
fn stopped_on<B: Base, C: Fn(u32, &mut Known) -> Result<u32, Halt>>(
    alloc: Global,
    outer: &Scope<'_, B>,
    needs: &C,
    stop: Halt,
    items: &[BlockItem],
    known: &mut Known,
) -> Halt
    requires needs { MakesKnown _ ((n : _) (k : _) → IsReady k.now → C.pre needs.now n k) (λ k. k.now) (C.post needs.now) (context_of B.context outer.now) }
    requires names { Surrounded AllSoundFunctions (context_of B.context outer.now) }
    requires written { items_written items.now ≡ true }
    requires ready { IsReady known.old }
    ensures value { StopsOn stop result (context_of B.context outer.now) items.now known.old.functions known.new.functions }
    ensures ready { IsReady known.new }
    ensures keeps { Extends known.old.functions known.new.functions }
{
    match stop {
        Halt::Memory => Halt::Memory,
        Halt::Breaks { at, rule } => Halt::Breaks { at, rule },
        Halt::Quiet => behind_quiet(block(alloc, outer, needs, items, known)),
    }
}

// The body behind formals. Where these break nothing and aren't whole, it is looked at for its breaks before them.
fn body_behind<B: Base, C: Fn(u32, &mut Known) -> Result<u32, Halt>>(
    alloc: Global,
    outer: &Scope<'_, B>,
    inner: &Scope<'_, B>,
    needs: &C,
    made: Result<Formals, Halt>,
    items: &[BlockItem],
    known: &mut Known,
) -> Result<(Formals, Stmt), Halt>
    requires needs { MakesKnown _ ((n : _) (k : _) → IsReady k.now → C.pre needs.now n k) (λ k. k.now) (C.post needs.now) (context_of B.context outer.now) }
    requires behind { IfOk made (λ m. MakesKnown _ ((n : _) (k : _) → IsReady k.now → C.pre needs.now n k) (λ k. k.now) (C.post needs.now) (context_of B.context inner.now)) }
    requires names { Surrounded AllSoundFunctions (context_of B.context outer.now) }
    requires inside { IfOk made (λ m. Surrounded AllSoundFunctions (context_of B.context inner.now)) }
    requires written { items_written items.now ≡ true }
    requires ready { IsReady known.old }
    ensures value { BehindTo made result (context_of B.context inner.now) (context_of B.context outer.now) items.now known.old.functions known.new.functions }
    ensures ready { IsReady known.new }
    ensures keeps { Extends known.old.functions known.new.functions }
{
    match made {
        Ok(made) => with_body(alloc, inner, needs, made, items, known),
        Err(halt) => Err(stopped_on(alloc, outer, needs, halt, items, known)),
    }
}

/// The formals and the body of a function whose result is whole.
#[tactic(auto, using(typing_parts::proofs::Keeping::keepings))]
pub(crate) fn with_result<B: Base, C: Fn(u32, &mut Known) -> Result<u32, Halt>>(
    alloc: Global,
    outer: &Scope<'_, B>,
    needs: &C,
    name: u32,
    plain: bool,
    of: &SvType,
    names: Rows<ParamValue>,
    list: &[sv_tree::Formal],
    items: &[BlockItem],
    known: &mut Known,
) -> Result<(Formals, Stmt), Halt>
    requires needs { MakesKnown _ ((n : _) (k : _) → IsReady k.now → C.pre needs.now n k) (λ k. k.now) (C.post needs.now) (context_of B.context outer.now) }
    requires names { Surrounded AllSoundFunctions (context_of B.context outer.now) }
    requires result { SoundResult (plain_result plain of.now names) known.old.functions }
    requires written { formals_written list.now ≡ true }
    requires items { items_written items.now ≡ true }
    requires ready { IsReady known.old }
    ensures value { (x : Typing means.ResultFound) (fs : List Function) → TypesTo (Ok (plain_result plain of.now names)) (x fs) known.old.functions → PartsTo result (plain_result plain of.now names) (body_typed (context_of B.context outer.now) name x list.now items.now fs) known.new.functions }
    ensures ready { IsReady known.new }
    ensures keeps { Extends known.old.functions known.new.functions }
{
    let mut inner = in_body(alloc, outer, name, plain, of, names)?;
    let made = head_formals(alloc, &mut inner, needs, name, list, known);
    body_behind(alloc, outer, &inner, needs, made, items, known)
}

/// What stops a function whose result breaks nothing and isn't whole: its formals and its body are looked at for their breaks.
#[tactic(auto, using(typing_parts::proofs::Keeping::keepings))]
pub(crate) fn without_result<B: Base, C: Fn(u32, &mut Known) -> Result<u32, Halt>>(
    alloc: Global,
    outer: &Scope<'_, B>,
    needs: &C,
    name: u32,
    list: &[sv_tree::Formal],
    items: &[BlockItem],
    known: &mut Known,
) -> Halt
    requires needs { MakesKnown _ ((n : _) (k : _) → IsReady k.now → C.pre needs.now n k) (λ k. k.now) (C.post needs.now) (context_of B.context outer.now) }
    requires names { Surrounded AllSoundFunctions (context_of B.context outer.now) }
    requires written { formals_written list.now ≡ true }
    requires items { items_written items.now ≡ true }
    requires ready { IsReady known.old }
    ensures value { (x : Typing means.ResultFound) (fs : List Function) → TypesTo (Err Quiet) (x fs) known.old.functions → StopsBy result (body_typed (context_of B.context outer.now) name x list.now items.now fs) known.new.functions }
    ensures ready { IsReady known.new }
    ensures keeps { Extends known.old.functions known.new.functions }
{
    let mut inner = Scope::inside(alloc, outer);
    let made = formals(alloc, &mut inner, needs, list, known);
    let stop = behind_quiet(made);
    stopped_on(alloc, outer, needs, stop, items, known)
}
