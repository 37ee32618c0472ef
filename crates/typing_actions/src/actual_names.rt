//! Names that are passed to outputs.

ghost use Rattle.std.specs.Prelude.{◌≡◌, map, true, IfOk};
ghost use Rattle.expr_type.specs.Expressions.{meaning, select_meaning};
ghost use Rattle.expr_type.specs.Names as names_def;
ghost use Rattle.expr_type.specs.TargetNames as def;
ghost use Rattle.operand_types.specs.Allowed.{IsNarrow};
ghost use Rattle.routine_fits.specs.Sound.{AllSoundFunctions};
ghost use Rattle.typing_fits.specs.Sound.{Extends};
ghost use Rattle.typing_parts.specs.Operands.{as_operand};
ghost use Rattle.typing_parts.specs.Typists.{FitsIfOk, IsReady, MakesKnown, NarrowIfOk};
ghost use Rattle.typing_steps.specs.Steps.{TypesTo};
ghost use Rattle.typing_paths.specs.Names.{named_target_of};
ghost use Rattle.typing_values.specs.Children.{in_selects};
ghost use Rattle.typing_walks.specs.Keeps.{Surrounded};
ghost use Rattle.typing_walks.specs.Written.{is_written};
ghost use Rattle.typing_operators.specs.Children.{AllWritten};

use expr_type::{Halt, Valued};
use pattern_types::Operand;
use std::alloc::Global;
use sv_tree::{Expr, QualifiedName, Select};
use typing_exprs::operand;
use typing_parts::{Known, Thing};
use typing_paths::{Nets, named_target};

// Whether selects behind an interface's instance or port name a net first.
fn is_net_member<S: Nets>(names: &S, interface: u32, selects: &[Select]) -> bool
    ensures { result ≡ def.is_net_of (S.context names.now) interface (map select_meaning selects.now) }
{
    match selects {
        [] => false,
        [select, ..] => match select {
            Select::Member { name, .. } => names.is_net_member(interface, *name),
            Select::Index { .. } => false,
            Select::Part { .. } => false,
        },
    }
}

// Whether a name with the selects behind it is a net of an interface.
fn is_net<S: Nets>(names: &S, of: QualifiedName, selects: &[Select]) -> bool
    ensures { result ≡ def.is_net_thing (S.context names.now) (map select_meaning selects.now) (names_def.thing (S.context names.now) of) }
{
    match names.thing(of) {
        Thing::Interface(interface) => is_net_member(names, interface, selects),
        Thing::Signal(_, _) => false,
        Thing::Local(_, _) => false,
        Thing::Constant(_, _) => false,
        Thing::TypeName(_) => false,
        Thing::Other(_) => false,
        Thing::Nothing => false,
    }
}

// A name with the selects behind it, as a statement assigns to it.
fn assigned_name<S: Nets, C: Fn(u32, &mut Known) -> Result<u32, Halt>>(
    alloc: Global,
    names: &S,
    needs: &C,
    of: QualifiedName,
    selects: &[Select],
    known: &mut Known,
) -> Result<Valued, Halt>
    requires needs { MakesKnown _ ((n : _) (k : _) → IsReady k.now → C.pre needs.now n k) (λ k. k.now) (C.post needs.now) (S.context names.now) }
    requires names { Surrounded AllSoundFunctions (S.context names.now) }
    requires written { AllWritten (in_selects selects.now) }
    requires ready { IsReady known.old }
    ensures value { TypesTo result (named_target_of (S.context names.now) true of selects.now known.old.functions) known.new.functions }
    ensures narrow { IfOk result IsNarrow }
    ensures ready { IsReady known.new }
    ensures keeps { Extends known.old.functions known.new.functions }
{
    let typed = |e: &Expr, k: &mut Known| -> Result<Operand, Halt>
        requires needs { MakesKnown _ ((n : _) (k : _) → IsReady k.now → C.pre needs.now n k) (λ k. k.now) (C.post needs.now) (S.context names.now) }
        requires names { Surrounded AllSoundFunctions (S.context names.now) }
        requires written { is_written e.now ≡ true }
        requires ready { IsReady k.old }
        ensures value { TypesTo (as_operand (S.context names.entry.now).source result) ((meaning e.now).typed (S.context names.entry.now) k.old.functions) k.new.functions }
        ensures narrow { NarrowIfOk result }
        ensures fits { FitsIfOk result k.new.functions }
        ensures ready { IsReady k.new }
        ensures keeps { Extends k.old.functions k.new.functions }
    { operand(alloc, names, needs, e, k) };
    named_target(alloc, names, &typed, true, of, selects, known)
}

/// A name with the selects behind it, as what is passed to an output: with the rules of `typing_paths::named_target` for statements,
/// but E501 at the name where it is a net of an interface.
#[tactic(auto, using(crate::proofs::ActualNaming::names))]
pub(crate) fn name_target<S: Nets, C: Fn(u32, &mut Known) -> Result<u32, Halt>>(
    alloc: Global,
    names: &S,
    needs: &C,
    of: QualifiedName,
    selects: &[Select],
    known: &mut Known,
) -> Result<Valued, Halt>
    requires needs { MakesKnown _ ((n : _) (k : _) → IsReady k.now → C.pre needs.now n k) (λ k. k.now) (C.post needs.now) (S.context names.now) }
    requires names { Surrounded AllSoundFunctions (S.context names.now) }
    requires written { AllWritten (in_selects selects.now) }
    requires ready { IsReady known.old }
    ensures value { TypesTo result (def.actual_target (S.context names.now) of (map select_meaning selects.now) known.old.functions) known.new.functions }
    ensures narrow { IfOk result IsNarrow }
    ensures ready { IsReady known.new }
    ensures keeps { Extends known.old.functions known.new.functions }
{
    if is_net(names, of, selects) {
        return Err(Halt::Breaks {
            at: of.first_token(),
            rule: 501,
        });
    }
    assigned_name(alloc, names, needs, of, selects, known)
}
