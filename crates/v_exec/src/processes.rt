//! Runs of processes (IEEE 1364-2005 clauses 6.1 and 9.9).

ghost use Rattle.std.specs.Prelude.{◌≡◌, ◌≤◌, ℕ, List, false, [], IfOk};
ghost use Rattle.v_meaning.specs.Runs.{begun};
ghost use Rattle.v_meaning.specs.Statements as means;
ghost use Rattle.v_meaning.specs.Values.{meaning, given as given_bits};
ghost use Rattle.v_eval.specs.Holding.{holds, holding};
ghost use Rattle.v_eval.specs.Limits.{limits, most_given};
ghost use Rattle.v_run.specs.Changes.{changes_of, AllNear, Within};
ghost use Rattle.v_run.specs.Limits.{target_most};
ghost use Rattle.v_exec.specs.Inside.{NamesFit};
ghost use Rattle.v_exec.specs.Limits.{branch_most};
ghost use Rattle.v_exec.specs.Modules.{scope_in, signals_in, callee_in, FunctionsNarrow, HasRun};

use crate::functions::{begun_on, call_function};
use crate::statements::run_branch;
use b4_core::Vec4;
use std::alloc::{AllocError, Global};
use v_eval::{Around, Held, Module, Scope, Vectors};
use v_run::{Pieces, given, writes};
use v_tree::{VBranch, VExpr, VLval};

/// What a run of a process came to.
#[derive(Drop)]
pub struct Ran {
    /// What its blocking assignments have written.
    pub written: Pieces,
    /// What its nonblocking assignments will write.
    pub pending: Pieces,
}

/// Runs the body of an `always` on what signals hold, in an instance of a module whose signals are numbered from `first` on
/// and where calls go so deep. Or want of memory.
pub fn run_process(
    alloc: Global,
    of: &Module<'_>,
    first: u32,
    depth: usize,
    signals: &[Vec4],
    body: &VBranch,
) -> Result<Ran, AllocError>
    requires functions { FunctionsNarrow first of.now }
    requires narrow { branch_most body.now (scope_in first depth of.now) ≤ 128 }
    ensures { IfOk result (HasRun (means.doing_of body.now) (scope_in first depth of.now) (holding signals.now [] [])) }
{
    let call = |held: Held<'_>, i: usize, args: Vectors| -> Result<Vec4, AllocError>
        requires { FunctionsNarrow first of.now }
        ensures { IfOk result (λ x. x ≡ (callee_in first depth of.entry.now i).run (holds held.entry) args) }
    { call_function(alloc, of, first, depth, held, i, args) };
    let held = Held {
        signals,
        over: &[],
        locals: &[],
    };
    let scope = Scope {
        locals: &[],
        next: 0,
        module: of,
        first,
        depth,
    };
    let mut state = begun_on(alloc, held)?;
    run_branch(alloc, scope, &call, &mut state, body)?;
    Ok(Ran {
        written: state.written,
        pending: state.pending,
    })
}

/// What a continuous assignment writes by what signals hold. Or want of memory.
pub fn run_assignment(
    alloc: Global,
    of: &Module<'_>,
    first: u32,
    depth: usize,
    signals: &[Vec4],
    to: &VLval,
    value: &VExpr,
) -> Result<Pieces, AllocError>
    requires functions { FunctionsNarrow first of.now }
    requires target { target_most to.now (scope_in first depth of.now) ≤ 128 }
    requires narrow { most_given ((means.target to.now).width (scope_in first depth of.now)) (limits value.now) (scope_in first depth of.now) ≤ 128 }
    ensures writes { IfOk result (λ ps. changes_of ps ≡ ((means.assignment false (means.target to.now) (meaning value.now)).run (scope_in first depth of.now) (holding signals.now [] []) begun).written) }
    ensures near { IfOk result AllNear }
    ensures inside { IfOk result (λ ps. (ws : List ℕ) → NamesFit ws (signals_in first of.now) → Within ws (changes_of ps)) }
{
    let call = |held: Held<'_>, i: usize, args: Vectors| -> Result<Vec4, AllocError>
        requires { FunctionsNarrow first of.now }
        ensures { IfOk result (λ x. x ≡ (callee_in first depth of.entry.now i).run (holds held.entry) args) }
    { call_function(alloc, of, first, depth, held, i, args) };
    let around = Around {
        scope: Scope {
            locals: &[],
            next: 0,
            module: of,
            first,
            depth,
        },
        held: Held {
            signals,
            over: &[],
            locals: &[],
        },
    };
    writes(alloc, around, &call, to, value)
}

/// What an expression gives to a port or a target of so many bits, by what signals hold. Or want of memory.
pub fn given_in(
    alloc: Global,
    of: &Module<'_>,
    first: u32,
    depth: usize,
    signals: &[Vec4],
    e: &VExpr,
    width: usize,
) -> Result<Vec4, AllocError>
    requires functions { FunctionsNarrow first of.now }
    requires narrow { most_given width (limits e.now) (scope_in first depth of.now) ≤ 128 }
    ensures { IfOk result (λ v. v ≡ given_bits (meaning e.now) width (scope_in first depth of.now) (holding signals.now [] [])) }
{
    let call = |held: Held<'_>, i: usize, args: Vectors| -> Result<Vec4, AllocError>
        requires { FunctionsNarrow first of.now }
        ensures { IfOk result (λ x. x ≡ (callee_in first depth of.entry.now i).run (holds held.entry) args) }
    { call_function(alloc, of, first, depth, held, i, args) };
    let around = Around {
        scope: Scope {
            locals: &[],
            next: 0,
            module: of,
            first,
            depth,
        },
        held: Held {
            signals,
            over: &[],
            locals: &[],
        },
    };
    given(alloc, around, &call, e, width)
}
