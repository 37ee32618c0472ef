//! Names with the selects behind them (IEEE 1800-2017 clauses 11.5.1, 23.9 and 25.3).

ghost use Rattle.std.specs.Prelude.{IfOk};
ghost use Rattle.expr_type.specs.Answers.{Gives};
ghost use Rattle.operand_types.specs.Allowed.{IsNarrow};
ghost use Rattle.typing_fits.specs.Operands.{SoundContext};
ghost use Rattle.typing_fits.specs.Sound.{Extends};
ghost use Rattle.typing_steps.specs.Steps.{TypesTo};
ghost use Rattle.typing_parts.specs.Typists.{AllCanType, IsReady};
ghost use Rattle.typing_paths.specs.TypingValues.{in_selects};
ghost use Rattle.typing_paths.specs.TypingValuesParts as part;
ghost use Rattle.typing_paths.specs.Paths.{member_of, member_path_of, value_path_of};

use crate::members::member_signal;
use crate::named;
use crate::paths::path;
use expr_type::{Halt, Valued};
use pattern_types::Operand;
use std::alloc::Global;
use sv_tree::{Expr, QualifiedName, Select};
use typing_parts::{Known, Names, Thing};

// The member of an interface's instance or port whose name stands at a token (E405).
fn member<S: Names>(
    alloc: Global,
    names: &S,
    first: u32,
    interface: u32,
    at: u32,
) -> Result<Valued, Halt>
    ensures value { Gives result (member_of (S.context names.now) first interface at) }
    ensures narrow { IfOk result IsNarrow }
{
    match names.member(interface, at) {
        Some(found) => member_signal(alloc, names, first, found),
        None => Err(Halt::Breaks { at, rule: 405 }),
    }
}

// An interface's instance or port with the selects behind it, of which the first one names a member.
fn member_path<S: Names, F: Fn(&Expr, &mut Known) -> Result<Operand, Halt>>(
    alloc: Global,
    names: &S,
    typed: &F,
    first: u32,
    interface: u32,
    selects: &[Select],
    known: &mut Known,
) -> Result<Valued, Halt>
    requires names { SoundContext (S.context names.now) }
    requires can { AllCanType _ _ (λ e. e.now) (λ k. k.now) (F.pre typed.now) (F.post typed.now) (S.context names.now) (in_selects selects.now) }
    requires ready { IsReady known.old }
    ensures value { TypesTo result (member_path_of (S.context names.now) first interface selects.now known.old.functions) known.new.functions }
    ensures narrow { IfOk result IsNarrow }
    ensures ready { IsReady known.new }
    ensures keeps { Extends known.old.functions known.new.functions }
{
    match selects {
        [] => Err(Halt::Quiet),
        [select, rest @ ..] => match select {
            Select::Member { name, .. } => {
                let from = member(alloc, names, first, interface, *name);
                path(alloc, names, typed, from, rest, known)
            }
            Select::Index { .. } => Err(Halt::Quiet),
            Select::Part { .. } => Err(Halt::Quiet),
        },
    }
}

// The name of a value with the selects behind it.
fn value_path<S: Names, F: Fn(&Expr, &mut Known) -> Result<Operand, Halt>>(
    alloc: Global,
    names: &S,
    typed: &F,
    of: QualifiedName,
    selects: &[Select],
    known: &mut Known,
) -> Result<Valued, Halt>
    requires names { SoundContext (S.context names.now) }
    requires can { AllCanType _ _ (λ e. e.now) (λ k. k.now) (F.pre typed.now) (F.post typed.now) (S.context names.now) (in_selects selects.now) }
    requires ready { IsReady known.old }
    ensures value { TypesTo result (value_path_of (S.context names.now) of selects.now known.old.functions) known.new.functions }
    ensures narrow { IfOk result IsNarrow }
    ensures ready { IsReady known.new }
    ensures keeps { Extends known.old.functions known.new.functions }
{
    let first = named(alloc, names, of);
    path(alloc, names, typed, first, selects, known)
}

/// A name with the selects behind it, as a value. A name that stands for no value, as that of a type, isn't whole and breaks nothing
/// here; of an interface's instance or port the first select names a member, which breaks E405 where there is none.
pub fn named_path<S: Names, F: Fn(&Expr, &mut Known) -> Result<Operand, Halt>>(
    alloc: Global,
    names: &S,
    typed: &F,
    of: QualifiedName,
    selects: &[Select],
    known: &mut Known,
) -> Result<Valued, Halt>
    requires names { SoundContext (S.context names.now) }
    requires can { AllCanType _ _ (λ e. e.now) (λ k. k.now) (F.pre typed.now) (F.post typed.now) (S.context names.now) (in_selects selects.now) }
    requires ready { IsReady known.old }
    ensures value { TypesTo result (part.named_path (S.context names.now) of selects.now known.old.functions) known.new.functions }
    ensures narrow { IfOk result IsNarrow }
    ensures ready { IsReady known.new }
    ensures keeps { Extends known.old.functions known.new.functions }
{
    match names.thing(of) {
        Thing::Signal(_, _) => value_path(alloc, names, typed, of, selects, known),
        Thing::Local(_, _) => value_path(alloc, names, typed, of, selects, known),
        Thing::Constant(_, _) => value_path(alloc, names, typed, of, selects, known),
        Thing::Interface(n) => {
            member_path(alloc, names, typed, of.first_token(), n, selects, known)
        }
        Thing::TypeName(_) => Err(Halt::Quiet),
        Thing::Other(_) => Err(Halt::Quiet),
        Thing::Nothing => Err(Halt::Quiet),
    }
}
