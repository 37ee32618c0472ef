//! The signals that an `always @*` names (IEEE 1364-2005 clause 9.7.5).

ghost use Rattle.std.specs.Prelude.{◌≡◌, ℕ, ◌<◌, List, [], ◌∷◌, ◌++◌, length, slice_index, IfOk, OnOk};
ghost use Rattle.v_eval.specs.Scopes.{scope_of};
ghost use Rattle.v_meaning.specs.Statements.{doing_of};
ghost use Rattle.v_zero.specs.Zero.{Listed};

use b4_core::Items;
use std::alloc::{AllocError, Global};
use v_eval::Scope;
use v_names::{Numbers, branch_names};
use v_tree::VBranch;

/// Numbers of signals.
pub type Signals = Items<usize>;

// Lists a signal that hasn't the mark, which it then gets.
fn list_one(
    named: u64,
    mark: usize,
    marks: &mut [usize],
    to: &mut Signals,
) -> Result<(), AllocError>
    ensures long { length marks.new ≡ length marks.old }
    ensures listed { OnOk result ((ns : List ℕ) → Listed mark ns marks.old to.old → Listed mark (ns ++ named ∷ []) marks.new to.new) }
{
    let n = named as usize;
    if n >= marks.len() || marks[n] == mark {
        return Ok(());
    }
    marks[n] = mark;
    to.push(n)
}

/// The signals among these numbers, each once. Each signal has its mark, below `mark`; the listed ones get this one. Or want of
/// memory.
pub fn without_repeats(
    alloc: Global,
    numbers: &[u64],
    mark: usize,
    marks: &mut [usize],
) -> Result<Signals, AllocError>
    requires { (m : ℕ) → m < length marks.old → slice_index marks.old m < mark }
    ensures long { length marks.new ≡ length marks.old }
    ensures listed { IfOk result (λ listed. Listed mark numbers.now marks.new listed) }
{
    let mut listed = Signals::new(alloc);
    for n in numbers {
        list_one(*n, mark, marks, &mut listed)?;
    }
    Ok(listed)
}

/// The signals that the body of an `always @*` names, each once. Each signal has its mark, below `mark`; the named ones get this
/// one. Or want of memory.
pub fn names_without_repeats(
    alloc: Global,
    scope: Scope<'_>,
    body: &VBranch,
    mark: usize,
    marks: &mut [usize],
) -> Result<Signals, AllocError>
    requires { (m : ℕ) → m < length marks.old → slice_index marks.old m < mark }
    ensures long { length marks.new ≡ length marks.old }
    ensures listed { IfOk result (λ listed. Listed mark ((doing_of body.now).names (scope_of scope.entry)) marks.new listed) }
{
    let mut numbers = Numbers::new(alloc);
    branch_names(alloc, scope, body, &mut numbers)?;
    let listed = without_repeats(alloc, numbers.as_slice(), mark, marks)?;
    Ok(listed)
}
