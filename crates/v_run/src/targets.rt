//! Targets of assignments (IEEE 1364-2005 clauses 6.1 and 9.2).

ghost use Rattle.std.specs.Prelude.{◌≡◌, ◌≤◌, length, map, take, drop, IfOk, OnOk};
ghost use Rattle.row_machine.specs.Steps.{then_changes};
ghost use Rattle.v_meaning.specs.Statements.{target, parts_width, puts_parts};
ghost use Rattle.v_eval.specs.Answering.{Answers};
ghost use Rattle.v_eval.specs.Holding.{holds};
ghost use Rattle.v_eval.specs.Scopes.{scope_of};
ghost use Rattle.v_run.specs.Changes.{changes_of, AllNear};
ghost use Rattle.v_run.specs.Limits.{target_most, most_of_parts};

use crate::pieces::{Piece, Pieces};
use b4_core::Vec4;
use std::alloc::{AllocError, Global};
use v_eval::{Around, Held, Scope, Vectors, added, cut, name_wide, number_of, path};
use v_tree::VLval;

/// The width of the parts of a target together. Or want of memory, which a vector so wide would take.
#[cycle(wide)]
pub fn parts_wide(scope: Scope<'_>, parts: &[VLval]) -> Result<usize, AllocError>
    ensures { IfOk result (λ n. n ≡ parts_width (map target parts.now) (scope_of scope.entry)) }
{
    let mut bits = 0;
    let mut i = parts.len();
    while i > 0 {
        i -= 1;
        bits = added(bits, target_wide(scope, &parts[i])?)?;
    }
    Ok(bits)
}

/// The width of a target. Or want of memory, which a vector so wide would take.
#[cycle(wide)]
#[tactic(auto, using(crate::proofs::Targeted::widths))]
pub fn target_wide(scope: Scope<'_>, to: &VLval) -> Result<usize, AllocError>
    ensures { IfOk result (λ n. n ≡ (target to.now).width (scope_of scope.entry)) }
{
    match to {
        VLval::Name { name, sels } => Ok(name_wide(sels.as_slice(), scope.find(name))?),
        VLval::Concat(parts) => Ok(parts_wide(scope, parts.as_slice())?),
    }
}

// The bits from a number on.
#[tactic(auto, using(crate::proofs::Targeted::drops))]
fn from_bit(alloc: Global, v: &Vec4, low: usize) -> Result<Vec4, AllocError>
    ensures { IfOk result (λ r. r ≡ drop low v.now) }
{
    let bits = v.as_slice();
    if low > bits.len() {
        return Ok(Vec4::from_vec(Vec::new(alloc)));
    }
    Vec4::from_slice(alloc, &bits[low..])
}

// What the parts of a target write of these bits, the first part the top ones, behind other writes.
#[cycle(puts)]
fn put_parts<F: Fn(Held<'_>, usize, Vectors) -> Result<Vec4, AllocError>>(
    alloc: Global,
    around: Around<'_>,
    call: &F,
    parts: &[VLval],
    bits: &Vec4,
    to: &mut Pieces,
) -> Result<(), AllocError>
    requires callable { F.IsAlwaysCallable call.now }
    requires right { Answers around.scope (F.post call.now) }
    requires narrow { most_of_parts (map target_most parts.now) (scope_of around.scope) ≤ 128 }
    requires near { AllNear to.old }
    ensures writes { OnOk result (changes_of to.new ≡ then_changes (changes_of to.old) (puts_parts (map target parts.now) (scope_of around.entry.scope) (holds around.entry.held) bits.now)) }
    ensures near { OnOk result (AllNear to.new) }
{
    let mut rest = Vec4::from_slice(alloc, bits.as_slice())?;
    for i in 0..parts.len() {
        let low = parts_wide(around.scope, &parts[i + 1..])?;
        let own = from_bit(alloc, &rest, low)?;
        put(alloc, around, call, &parts[i], &own, to)?;
        rest = cut(alloc, &rest, low)?;
    }
    Ok(())
}

/// What a target writes of these bits, behind other writes. All its indices are valued by what is held. Or want of memory.
#[cycle(puts)]
pub fn put<F: Fn(Held<'_>, usize, Vectors) -> Result<Vec4, AllocError>>(
    alloc: Global,
    around: Around<'_>,
    call: &F,
    lval: &VLval,
    bits: &Vec4,
    to: &mut Pieces,
) -> Result<(), AllocError>
    requires callable { F.IsAlwaysCallable call.now }
    requires right { Answers around.scope (F.post call.now) }
    requires narrow { target_most lval.now (scope_of around.scope) ≤ 128 }
    requires near { AllNear to.old }
    ensures writes { OnOk result (changes_of to.new ≡ then_changes (changes_of to.old) ((target lval.now).puts (scope_of around.entry.scope) (holds around.entry.held) bits.now)) }
    ensures near { OnOk result (AllNear to.new) }
{
    match lval {
        VLval::Name { name, sels } => {
            let named = around.scope.find(name);
            let path = path(alloc, around, call, sels.as_slice(), named)?;
            to.push(Piece {
                number: number_of(named),
                window: path.window,
                bits: Vec4::from_slice(alloc, bits.as_slice())?,
            })
        }
        VLval::Concat(parts) => put_parts(alloc, around, call, parts.as_slice(), bits, to),
    }
}
