//! Assignments (IEEE 1364-2005 clauses 6.1 and 9.2).

ghost use Rattle.std.specs.Prelude.{◌≡◌, ◌≤◌, IfOk, OnOk};
ghost use Rattle.row_machine.specs.Valuation.{Valuation};
ghost use Rattle.v_meaning.specs.Runs as means;
ghost use Rattle.v_meaning.specs.Runs.{current, assign_as};
ghost use Rattle.v_meaning.specs.Statements.{target, changes_of as assigned_changes};
ghost use Rattle.v_meaning.specs.Values.{meaning, given as given_bits};
ghost use Rattle.v_eval.specs.Answering.{Answers};
ghost use Rattle.v_eval.specs.Holding.{holds};
ghost use Rattle.v_eval.specs.Limits.{limits, most_given};
ghost use Rattle.v_eval.specs.Scopes.{scope_of};
ghost use Rattle.v_run.specs.Changes.{changes_of, AllNear};
ghost use Rattle.v_run.specs.Limits.{target_most};
ghost use Rattle.v_run.specs.Standing.{Stands};

use crate::assigned::assign;
use crate::pieces::Pieces;
use crate::state::State;
use crate::targets::{put, target_wide};
use b4_core::Vec4;
use std::alloc::{AllocError, Global};
use v_eval::{Around, Context, Held, Scope, Vectors, cut, own, value};
use v_tree::{VExpr, VLval};

/// What an expression gives to a target of so many bits (IEEE 1364-2005 clause 5.4.1). Or want of memory.
#[tactic(auto, using(crate::proofs::Assigning::assigning))]
pub fn given<F: Fn(Held<'_>, usize, Vectors) -> Result<Vec4, AllocError>>(
    alloc: Global,
    around: Around<'_>,
    call: &F,
    e: &VExpr,
    width: usize,
) -> Result<Vec4, AllocError>
    requires callable { F.IsAlwaysCallable call.now }
    requires right { Answers around.scope (F.post call.now) }
    requires narrow { most_given width (limits e.now) (scope_of around.scope) ≤ 128 }
    ensures { IfOk result (λ v. v ≡ given_bits (meaning e.now) width (scope_of around.entry.scope) (holds around.entry.held)) }
{
    let own = own(around.scope, e)?;
    let at = Context {
        width: width.max(own.width),
        signed: own.signed,
    };
    let bits = value(alloc, around, call, e, at)?;
    Ok(cut(alloc, &bits, width)?)
}

/// What an assignment writes, its value and the indices of its target valued by what is held. Or want of memory.
#[tactic(auto, using(crate::proofs::Assigning::assigning))]
pub fn writes<F: Fn(Held<'_>, usize, Vectors) -> Result<Vec4, AllocError>>(
    alloc: Global,
    around: Around<'_>,
    call: &F,
    lval: &VLval,
    e: &VExpr,
) -> Result<Pieces, AllocError>
    requires callable { F.IsAlwaysCallable call.now }
    requires right { Answers around.scope (F.post call.now) }
    requires target { target_most lval.now (scope_of around.scope) ≤ 128 }
    requires narrow { most_given ((target lval.now).width (scope_of around.scope)) (limits e.now) (scope_of around.scope) ≤ 128 }
    ensures writes { IfOk result (λ ps. changes_of ps ≡ assigned_changes (target lval.now) (meaning e.now) (scope_of around.entry.scope) (holds around.entry.held)) }
    ensures near { IfOk result AllNear }
{
    let width = target_wide(around.scope, lval)?;
    let bits = given(alloc, around, call, e, width)?;
    let mut pieces = Pieces::new(alloc);
    put(alloc, around, call, lval, &bits, &mut pieces)?;
    Ok(pieces)
}

/// An assignment, which is made later where it is nonblocking. Or want of memory.
pub fn assignment<F: Fn(Held<'_>, usize, Vectors) -> Result<Vec4, AllocError>>(
    alloc: Global,
    scope: Scope<'_>,
    call: &F,
    state: &mut State<'_>,
    lval: &VLval,
    e: &VExpr,
    later: bool,
) -> Result<(), AllocError>
    requires callable { F.IsAlwaysCallable call.now }
    requires right { Answers scope (F.post call.now) }
    requires target { target_most lval.now (scope_of scope) ≤ 128 }
    requires narrow { most_given ((target lval.now).width (scope_of scope)) (limits e.now) (scope_of scope) ≤ 128 }
    ensures { (v : Valuation) (s : means.State) → Stands v s state.old → OnOk result (Stands v (assign_as later (assigned_changes (target lval.now) (meaning e.now) (scope_of scope.entry) (current v s)) s) state.new) }
{
    let around = Around {
        scope,
        held: state.held(),
    };
    let pieces = writes(alloc, around, call, lval, e)?;
    assign(alloc, state, later, pieces)
}
