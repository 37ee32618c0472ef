//! Functions and tasks by their texts.

ghost use Rattle.std.specs.Prelude.{◌≡◌, true};
ghost use Rattle.expr_type.specs.Functions as means;
ghost use Rattle.expr_type.specs.Names as names;
ghost use Rattle.expr_type.specs.Names.{Home, OfFunction, OfTask};
ghost use Rattle.routine_fits.specs.Sound.{AllSoundFunctions};
ghost use Rattle.routine_laws.specs.Texts.{head_written, items_of};
ghost use Rattle.source_routines.specs.Texts.{text_of};
ghost use Rattle.stmt_laws.specs.Written.{items_written};
ghost use Rattle.typing_fits.specs.Sound.{Extends};
ghost use Rattle.typing_parts.specs.Typists.{IsReady, MakesKnown};
ghost use Rattle.typing_stmts.specs.Routines.{IsIdentity, routine_of};
ghost use Rattle.typing_scopes.specs.Scopes.{context_of};
ghost use Rattle.typing_steps.specs.Steps.{TypesTo};
ghost use Rattle.typing_walks.specs.Keeps.{Surrounded};

use crate::identity::Identity;
use crate::parts::typed_routine;
use expr_type::Halt;
use operand_types::spot_at;
use source_routines::Routine;
use std::alloc::Global;
use sv_source::Text;
use sv_tree::{FormalList, Task};
use sv_types::Function;
use typing_declarations::{function_result, no_result};
use typing_parts::Known;
use typing_scopes::{Base, Scope};

// The formals in a list that may be left out.
fn formals_of(list: &Option<FormalList>) -> &[sv_tree::Formal]
    ensures { result.now ≡ means.formals_of list.now }
{
    match list {
        None => &[],
        Some(list) => list.formals.as_slice(),
    }
}

// A function by its text.
#[tactic(auto, using(typing_parts::proofs::Keeping::keepings))]
fn by_function<B: Base, C: Fn(u32, &mut Known) -> Result<u32, Halt>>(
    alloc: Global,
    outer: &Scope<'_, B>,
    needs: &C,
    identity: Identity,
    function: &sv_tree::Function,
    known: &mut Known,
) -> Result<Function, Halt>
    requires needs { MakesKnown _ ((n : _) (k : _) → IsReady k.now → C.pre needs.now n k) (λ k. k.now) (C.post needs.now) (context_of B.context outer.now) }
    requires names { Surrounded AllSoundFunctions (context_of B.context outer.now) }
    requires written { head_written (OfFunction function.now) ≡ true }
    requires items { items_written function.now.items ≡ true }
    requires ready { IsReady known.old }
    ensures value { (h : Home) → IsIdentity identity (context_of B.context outer.now) h function.now.name → TypesTo result (routine_of (context_of B.context outer.now) h (OfFunction function.now) known.old.functions) known.new.functions }
    ensures ready { IsReady known.new }
    ensures keeps { Extends known.old.functions known.new.functions }
{
    let found = function_result(alloc, outer, needs, function, known);
    let list = formals_of(&function.formals);
    let items = function.items.as_slice();
    let name = function.name;
    typed_routine(
        alloc, outer, needs, identity, name, found, list, items, known,
    )
}

// A task by its text.
fn by_task<B: Base, C: Fn(u32, &mut Known) -> Result<u32, Halt>>(
    alloc: Global,
    outer: &Scope<'_, B>,
    needs: &C,
    identity: Identity,
    task: &Task,
    known: &mut Known,
) -> Result<Function, Halt>
    requires needs { MakesKnown _ ((n : _) (k : _) → IsReady k.now → C.pre needs.now n k) (λ k. k.now) (C.post needs.now) (context_of B.context outer.now) }
    requires names { Surrounded AllSoundFunctions (context_of B.context outer.now) }
    requires written { head_written (OfTask task.now) ≡ true }
    requires items { items_written task.now.items ≡ true }
    requires ready { IsReady known.old }
    ensures value { (h : Home) → IsIdentity identity (context_of B.context outer.now) h task.now.name → TypesTo result (routine_of (context_of B.context outer.now) h (OfTask task.now) known.old.functions) known.new.functions }
    ensures ready { IsReady known.new }
    ensures keeps { Extends known.old.functions known.new.functions }
{
    let nothing = no_result(alloc);
    let list = formals_of(&task.formals);
    let items = task.items.as_slice();
    let name = task.name;
    typed_routine(
        alloc,
        outer,
        needs,
        identity,
        name,
        Ok(nothing),
        list,
        items,
        known,
    )
}

/// A function or task by its text, in an instance and under a path there, in the text in which it is typed: outside the locals of who
/// calls it (IEEE 1800-2017 clauses 13.3 to 13.5). Its first break in the order of the text counts.
#[tactic(auto, using(typing_parts::proofs::Keeping::keepings))]
pub fn by_text<B: Base, C: Fn(u32, &mut Known) -> Result<u32, Halt>>(
    alloc: Global,
    text: &B,
    needs: &C,
    instance: u32,
    path: Text,
    routine: Routine<'_>,
    known: &mut Known,
) -> Result<Function, Halt>
    requires needs { MakesKnown _ ((n : _) (k : _) → IsReady k.now → C.pre needs.now n k) (λ k. k.now) (C.post needs.now) (B.context text.now) }
    requires names { Surrounded AllSoundFunctions (B.context text.now) }
    requires written { head_written (text_of routine) ≡ true }
    requires items { items_written (items_of (text_of routine)) ≡ true }
    requires ready { IsReady known.old }
    ensures value { (h : Home) → h.instance ≡ instance → means.function_path h (names.word (B.context text.now).source (means.name_of (text_of routine.entry))) ≡ path → TypesTo result (routine_of (B.context text.now) h (text_of routine.entry) known.old.functions) known.new.functions }
    ensures ready { IsReady known.new }
    ensures keeps { Extends known.old.functions known.new.functions }
{
    let spot = spot_at(alloc, text.text(), routine.name())?;
    let identity = Identity {
        instance,
        path,
        spot,
    };
    let outer = Scope::over(alloc, text);
    match routine {
        Routine::Function(function) => by_function(alloc, &outer, needs, identity, function, known),
        Routine::Task(task) => by_task(alloc, &outer, needs, identity, task, known),
    }
}
