//! Names that are assigned to.

ghost use Rattle.std.specs.Prelude.{◌≡◌, ◌≤◌, IfOk};
ghost use Rattle.expr_type.specs.Answers.{Gives};
ghost use Rattle.expr_type.specs.TargetNames as def;
ghost use Rattle.operand_types.specs.Allowed.{IsNarrow};
ghost use Rattle.sv_types.specs.Layouts.{width_of};
ghost use Rattle.typing_fits.specs.Operands.{SoundContext};
ghost use Rattle.typing_fits.specs.Sound.{Extends};
ghost use Rattle.typing_steps.specs.Steps.{TypesTo};
ghost use Rattle.typing_parts.specs.Typists.{AllCanType, IsReady};
ghost use Rattle.typing_paths.specs.TypingValues.{in_selects};
ghost use Rattle.typing_paths.specs.Names.{local_path_of, member_path_of, member_target_of, named_target_of, signal_path_of, signal_target_of};

use crate::members::member_signal;
use crate::nets::Nets;
use crate::{leaf, path};
use expr_type::{Halt, Valued};
use pattern_types::Operand;
use std::alloc::Global;
use sv_tree::{Expr, QualifiedName, Select};
use sv_types::{Form, SvType};
use typing_parts::{Known, Thing};

// Whether what a name finds is a net.
fn finds_net<S: Nets>(names: &S, of: QualifiedName) -> bool
    ensures { result ≡ def.is_net_found (S.context names.now) ((S.context names.now).finds of) }
{
    match names.found(of) {
        None => false,
        Some(declaration) => names.is_net(declaration),
    }
}

// A signal that is assigned to: a statement assigns to no net (E501).
fn signal_target<S: Nets>(
    alloc: Global,
    names: &S,
    in_statement: bool,
    of: QualifiedName,
    signal: u32,
    t: &SvType,
) -> Result<Valued, Halt>
    requires narrow { width_of t.now ≤ 4194304 }
    ensures value { Gives result (signal_target_of (S.context names.now) in_statement of signal t.now) }
    ensures narrow { IfOk result IsNarrow }
{
    let first = of.first_token();
    if in_statement && finds_net(names, of) {
        return Err(Halt::Breaks {
            at: first,
            rule: 501,
        });
    }
    leaf(alloc, names, first, t, Form::Signal(signal))
}

// The member of an interface's instance or port whose name stands at a token (E405): a statement assigns to no net (E404), and nothing
// to an input of its modport (E410).
fn member_target<S: Nets>(
    alloc: Global,
    names: &S,
    in_statement: bool,
    first: u32,
    interface: u32,
    at: u32,
) -> Result<Valued, Halt>
    ensures value { Gives result (member_target_of (S.context names.now) in_statement first interface at) }
    ensures narrow { IfOk result IsNarrow }
{
    match names.member(interface, at) {
        None => Err(Halt::Breaks { at, rule: 405 }),
        Some(found) => {
            if in_statement && names.is_net_member(interface, at) {
                return Err(Halt::Breaks { at, rule: 404 });
            }
            if found.input {
                return Err(Halt::Breaks { at, rule: 410 });
            }
            member_signal(alloc, names, first, found)
        }
    }
}

// A signal with the selects behind it.
fn signal_path<S: Nets, F: Fn(&Expr, &mut Known) -> Result<Operand, Halt>>(
    alloc: Global,
    names: &S,
    typed: &F,
    in_statement: bool,
    of: QualifiedName,
    signal: u32,
    t: &SvType,
    selects: &[Select],
    known: &mut Known,
) -> Result<Valued, Halt>
    requires narrow { width_of t.now ≤ 4194304 }
    requires can { AllCanType _ _ (λ e. e.now) (λ k. k.now) (F.pre typed.now) (F.post typed.now) (S.context names.now) (in_selects selects.now) }
    requires ready { IsReady known.old }
    ensures value { TypesTo result (signal_path_of (S.context names.now) in_statement of signal t.now selects.now known.old.functions) known.new.functions }
    ensures narrow { IfOk result IsNarrow }
    ensures ready { IsReady known.new }
    ensures keeps { Extends known.old.functions known.new.functions }
{
    let from = signal_target(alloc, names, in_statement, of, signal, t);
    path(alloc, names, typed, from, selects, known)
}

// A local with the selects behind it.
fn local_path<S: Nets, F: Fn(&Expr, &mut Known) -> Result<Operand, Halt>>(
    alloc: Global,
    names: &S,
    typed: &F,
    of: QualifiedName,
    local: u32,
    t: &SvType,
    selects: &[Select],
    known: &mut Known,
) -> Result<Valued, Halt>
    requires narrow { width_of t.now ≤ 4194304 }
    requires can { AllCanType _ _ (λ e. e.now) (λ k. k.now) (F.pre typed.now) (F.post typed.now) (S.context names.now) (in_selects selects.now) }
    requires ready { IsReady known.old }
    ensures value { TypesTo result (local_path_of (S.context names.now) of local t.now selects.now known.old.functions) known.new.functions }
    ensures narrow { IfOk result IsNarrow }
    ensures ready { IsReady known.new }
    ensures keeps { Extends known.old.functions known.new.functions }
{
    let from = leaf(alloc, names, of.first_token(), t, Form::Local(local));
    path(alloc, names, typed, from, selects, known)
}

// An interface's instance or port with the selects behind it, of which the first one names a member.
fn member_path<S: Nets, F: Fn(&Expr, &mut Known) -> Result<Operand, Halt>>(
    alloc: Global,
    names: &S,
    typed: &F,
    in_statement: bool,
    first: u32,
    interface: u32,
    selects: &[Select],
    known: &mut Known,
) -> Result<Valued, Halt>
    requires names { SoundContext (S.context names.now) }
    requires can { AllCanType _ _ (λ e. e.now) (λ k. k.now) (F.pre typed.now) (F.post typed.now) (S.context names.now) (in_selects selects.now) }
    requires ready { IsReady known.old }
    ensures value { TypesTo result (member_path_of (S.context names.now) in_statement first interface selects.now known.old.functions) known.new.functions }
    ensures narrow { IfOk result IsNarrow }
    ensures ready { IsReady known.new }
    ensures keeps { Extends known.old.functions known.new.functions }
{
    match selects {
        [] => Err(Halt::Quiet),
        [select, rest @ ..] => match select {
            Select::Member { name, .. } => {
                let from = member_target(alloc, names, in_statement, first, interface, *name);
                path(alloc, names, typed, from, rest, known)
            }
            Select::Index { .. } => Err(Halt::Quiet),
            Select::Part { .. } => Err(Halt::Quiet),
        },
    }
}

/// A name with the selects behind it, as a target of a statement or of a continuous assignment. A constant can't be assigned to (E501),
/// nor, by a statement, a net (E501; E404 where it is a member of an interface), nor an input of a modport (E410). What is no value isn't
/// whole and breaks nothing here.
pub fn named_target<S: Nets, F: Fn(&Expr, &mut Known) -> Result<Operand, Halt>>(
    alloc: Global,
    names: &S,
    typed: &F,
    in_statement: bool,
    of: QualifiedName,
    selects: &[Select],
    known: &mut Known,
) -> Result<Valued, Halt>
    requires names { SoundContext (S.context names.now) }
    requires can { AllCanType _ _ (λ e. e.now) (λ k. k.now) (F.pre typed.now) (F.post typed.now) (S.context names.now) (in_selects selects.now) }
    requires ready { IsReady known.old }
    ensures value { TypesTo result (named_target_of (S.context names.now) in_statement of selects.now known.old.functions) known.new.functions }
    ensures narrow { IfOk result IsNarrow }
    ensures ready { IsReady known.new }
    ensures keeps { Extends known.old.functions known.new.functions }
{
    match names.thing(of) {
        Thing::Signal(n, t) => {
            signal_path(alloc, names, typed, in_statement, of, n, t, selects, known)
        }
        Thing::Local(n, t) => local_path(alloc, names, typed, of, n, t, selects, known),
        Thing::Constant(_, _) => Err(Halt::Breaks {
            at: of.first_token(),
            rule: 501,
        }),
        Thing::Interface(n) => {
            member_path(
                alloc,
                names,
                typed,
                in_statement,
                of.first_token(),
                n,
                selects,
                known,
            )
        }
        Thing::TypeName(_) => Err(Halt::Quiet),
        Thing::Other(_) => Err(Halt::Quiet),
        Thing::Nothing => Err(Halt::Quiet),
    }
}
