//! Runs of statements (IEEE 1364-2005 clauses 9.2, 9.4, 9.5 and 9.8).

ghost use Rattle.std.specs.Prelude.{◌≡◌, ◌≤◌, ◌<◌, ◌+◌, ◌∷◌, length, map, Some, IfOk, OnOk};
ghost use Rattle.row_machine.specs.Valuation.{Valuation};
ghost use Rattle.v_meaning.specs.Runs as means;
ghost use Rattle.v_meaning.specs.Statements.{doing, doing_of, sequence, block_with, inside};
ghost use Rattle.v_meaning.specs.Values.{meaning};
ghost use Rattle.v_eval.specs.Answering.{Answers};
ghost use Rattle.v_eval.specs.Holding.{holding};
ghost use Rattle.v_eval.specs.Limits.{limits, most_alone};
ghost use Rattle.v_eval.specs.Scopes.{scope_of};
ghost use Rattle.v_run.specs.Standing.{Stands};
ghost use Rattle.v_exec.specs.Choices.{item_of, run_at, ChoosesIn};
ghost use Rattle.v_exec.specs.Entering.{Entered};
ghost use Rattle.v_exec.specs.Limits.{stmt_most, branch_most, limits_of_item, values_in, bodies_in, most_compared, most_in_turn};

use crate::choices::chosen;
use crate::selectors::selector_at;
use b4_core::Vec4;
use std::alloc::{AllocError, Global};
use v_eval::{Around, Held, Scope, Vectors};
use v_run::{Locals, State, assign, assignment, clears, declared, is_true};
use v_tree::{VBranch, VCaseItem, VCaseKind, VExpr, VLocal, VStmt};

/// A number behind so many, which memory runs out before.
pub fn number_behind(next: u32, count: usize) -> Result<u32, AllocError>
    ensures { IfOk result (λ n. n ≡ next + count) }
{
    let n = next as u128 + count as u128;
    if n < 4294967296 {
        Ok(n as u32)
    } else {
        Err(AllocError)
    }
}

// Whether a condition is true at some point of a run.
fn decides<F: Fn(Held<'_>, usize, Vectors) -> Result<Vec4, AllocError>>(
    alloc: Global,
    scope: Scope<'_>,
    call: &F,
    state: &State<'_>,
    on: &VExpr,
) -> Result<bool, AllocError>
    requires callable { F.IsAlwaysCallable call.now }
    requires right { Answers scope (F.post call.now) }
    requires narrow { most_alone (limits on.now) (scope_of scope) ≤ 128 }
    ensures { IfOk result (λ b. b ≡ means.is_true (meaning on.now) (scope_of scope.entry) (holding state.now.signals.now state.now.over.items state.now.locals.items)) }
{
    let held = state.held();
    is_true(alloc, Around { scope, held }, call, on)
}

// The number of the item of a `case` that runs at some point of a run.
fn chooses<F: Fn(Held<'_>, usize, Vectors) -> Result<Vec4, AllocError>>(
    alloc: Global,
    scope: Scope<'_>,
    call: &F,
    state: &State<'_>,
    kind: VCaseKind,
    on: &VExpr,
    items: &[VCaseItem],
) -> Result<Option<usize>, AllocError>
    requires callable { F.IsAlwaysCallable call.now }
    requires right { Answers scope (F.post call.now) }
    requires narrow { most_compared (limits on.now ∷ values_in (map limits_of_item items.now)) (scope_of scope) ≤ 128 }
    ensures { IfOk result (ChoosesIn kind (meaning on.now) (map item_of items.now) (scope_of scope.entry) (holding state.now.signals.now state.now.over.items state.now.locals.items)) }
{
    let held = state.held();
    let around = Around { scope, held };
    let selector = selector_at(alloc, around, call, kind, on, items)?;
    chosen(alloc, around, call, &selector, items)
}

// The locals in a block, its own made x.
fn entered(
    alloc: Global,
    scope: Scope<'_>,
    state: &mut State<'_>,
    locals: &[VLocal],
) -> Result<Locals, AllocError>
    ensures { IfOk result (Entered scope.entry locals.now state.old state.new) }
{
    let all = declared(alloc, scope.next, locals, scope.locals)?;
    let own = clears(alloc, &all.as_slice()[..locals.len()])?;
    assign(alloc, state, false, own)?;
    Ok(all)
}

// Runs statements one behind the other.
#[cycle(run)]
fn run_all<F: Fn(Held<'_>, usize, Vectors) -> Result<Vec4, AllocError>>(
    alloc: Global,
    scope: Scope<'_>,
    call: &F,
    state: &mut State<'_>,
    stmts: &[VStmt],
) -> Result<(), AllocError>
    requires callable { F.IsAlwaysCallable call.now }
    requires right { Answers scope (F.post call.now) }
    requires narrow { most_in_turn (map stmt_most stmts.now) (scope_of scope) ≤ 128 }
    ensures { (v : Valuation) (r : means.State) → Stands v r state.old → OnOk result (Stands v ((sequence (map doing stmts.now)).run (scope_of scope.entry) v r) state.new) }
{
    for s in stmts {
        run_stmt(alloc, scope, call, state, s)?;
    }
    Ok(())
}

// Runs a block with locals.
#[cycle(run)]
fn run_block<F: Fn(Held<'_>, usize, Vectors) -> Result<Vec4, AllocError>>(
    alloc: Global,
    scope: Scope<'_>,
    call: &F,
    state: &mut State<'_>,
    locals: &[VLocal],
    stmts: &[VStmt],
) -> Result<(), AllocError>
    requires callable { F.IsAlwaysCallable call.now }
    requires right { Answers scope (F.post call.now) }
    requires narrow { most_in_turn (map stmt_most stmts.now) (inside locals.now (scope_of scope)) ≤ 128 }
    ensures { (v : Valuation) (r : means.State) → Stands v r state.old → OnOk result (Stands v ((block_with locals.now (sequence (map doing stmts.now))).run (scope_of scope.entry) v r) state.new) }
{
    let own = entered(alloc, scope, state, locals)?;
    let inner = Scope {
        locals: own.as_slice(),
        next: number_behind(scope.next, locals.len())?,
        module: &*scope.module,
        first: scope.first,
        depth: scope.depth,
    };
    run_all(alloc, inner, call, state, stmts)
}

// Runs what an item of a `case` does.
#[cycle(run)]
fn run_item<F: Fn(Held<'_>, usize, Vectors) -> Result<Vec4, AllocError>>(
    alloc: Global,
    scope: Scope<'_>,
    call: &F,
    state: &mut State<'_>,
    item: &VCaseItem,
) -> Result<(), AllocError>
    requires callable { F.IsAlwaysCallable call.now }
    requires right { Answers scope (F.post call.now) }
    requires narrow { (limits_of_item item.now).body (scope_of scope) ≤ 128 }
    ensures { (v : Valuation) (r : means.State) → Stands v r state.old → OnOk result (Stands v ((item_of item.now).body.run (scope_of scope.entry) v r) state.new) }
{
    match item {
        VCaseItem::Item { values: _, body } => run_branch(alloc, scope, call, state, body),
        VCaseItem::Default(body) => run_branch(alloc, scope, call, state, body),
    }
}

// Runs the item of a `case` with a number.
#[cycle(run)]
#[tactic(auto, using(crate::proofs::Running::bodies))]
fn run_chosen<F: Fn(Held<'_>, usize, Vectors) -> Result<Vec4, AllocError>>(
    alloc: Global,
    scope: Scope<'_>,
    call: &F,
    state: &mut State<'_>,
    items: &[VCaseItem],
    k: usize,
) -> Result<(), AllocError>
    requires callable { F.IsAlwaysCallable call.now }
    requires right { Answers scope (F.post call.now) }
    requires there { k < length items.now }
    requires narrow { most_in_turn (bodies_in (map limits_of_item items.now)) (scope_of scope) ≤ 128 }
    ensures { (v : Valuation) (r : means.State) → Stands v r state.old → OnOk result (Stands v (run_at (map item_of items.now) (Some k) (scope_of scope.entry) v r) state.new) }
{
    run_item(alloc, scope, call, state, &items[k])
}

/// Runs a statement, or nothing where there is none. Or want of memory.
#[cycle(run)]
pub fn run_branch<F: Fn(Held<'_>, usize, Vectors) -> Result<Vec4, AllocError>>(
    alloc: Global,
    scope: Scope<'_>,
    call: &F,
    state: &mut State<'_>,
    branch: &VBranch,
) -> Result<(), AllocError>
    requires callable { F.IsAlwaysCallable call.now }
    requires right { Answers scope (F.post call.now) }
    requires narrow { branch_most branch.now (scope_of scope) ≤ 128 }
    ensures { (v : Valuation) (r : means.State) → Stands v r state.old → OnOk result (Stands v ((doing_of branch.now).run (scope_of scope.entry) v r) state.new) }
{
    match branch {
        VBranch::Statement(s) => run_stmt(alloc, scope, call, state, s.get()),
        VBranch::Empty => Ok(()),
    }
}

/// Runs a statement. `call` gives what the function at an item of the module gives for what is held and its inputs. Or want of
/// memory.
#[cycle(run)]
pub fn run_stmt<F: Fn(Held<'_>, usize, Vectors) -> Result<Vec4, AllocError>>(
    alloc: Global,
    scope: Scope<'_>,
    call: &F,
    state: &mut State<'_>,
    s: &VStmt,
) -> Result<(), AllocError>
    requires callable { F.IsAlwaysCallable call.now }
    requires right { Answers scope (F.post call.now) }
    requires narrow { stmt_most s.now (scope_of scope) ≤ 128 }
    ensures { (v : Valuation) (r : means.State) → Stands v r state.old → OnOk result (Stands v ((doing s.now).run (scope_of scope.entry) v r) state.new) }
{
    match s {
        VStmt::Block { label, stmts } => match label {
            None => run_all(alloc, scope, call, state, stmts.as_slice()),
            Some(label) => {
                let locals = label.locals.as_slice();
                run_block(alloc, scope, call, state, locals, stmts.as_slice())
            }
        },
        VStmt::If { on, then, other } => {
            if decides(alloc, scope, call, state, on)? {
                return run_branch(alloc, scope, call, state, then);
            }
            match other {
                None => Ok(()),
                Some(other) => run_branch(alloc, scope, call, state, other),
            }
        }
        VStmt::Case { kind, on, items } => {
            let items = items.as_slice();
            match chooses(alloc, scope, call, state, *kind, on, items)? {
                None => Ok(()),
                Some(k) => run_chosen(alloc, scope, call, state, items, k),
            }
        }
        VStmt::Assign {
            target,
            value,
            later,
        } => assignment(alloc, scope, call, state, target, value, *later),
    }
}
