//! What assignments do to the state of a run (IEEE 1364-2005 clause 9.2).

ghost use Rattle.std.specs.Prelude.{◌≡◌, OnOk};
ghost use Rattle.row_machine.specs.Valuation.{Valuation, put};
ghost use Rattle.v_meaning.specs.Runs as means;
ghost use Rattle.v_eval.specs.Holding.{holding};
ghost use Rattle.v_run.specs.Changes.{changes_of, AllNear};
ghost use Rattle.v_run.specs.Standing.{Stands};

use crate::pieces::{Piece, Pieces};
use crate::slots::write;
use crate::state::State;
use b4_core::Vec4;
use std::alloc::{AllocError, Global};
use v_eval::Slot;

/// Makes writes in what locals hold, and over what signals hold, in their order. Or want of memory.
#[tactic(auto, using(crate::proofs::Changed::changes))]
pub fn write_all(
    alloc: Global,
    signals: &[Vec4],
    over: &mut Vec<Slot>,
    locals: &mut Vec<Vec4>,
    pieces: &[Piece],
) -> Result<(), AllocError>
    requires { AllNear pieces.now }
    ensures { OnOk result (holding signals.now over.new.items locals.new.items ≡ put (changes_of pieces.now) (holding signals.now over.old.items locals.old.items)) }
{
    for piece in pieces {
        write(
            alloc,
            signals,
            over,
            locals,
            piece.number,
            piece.window,
            &piece.bits,
        )?;
    }
    Ok(())
}

/// Assigns now, or later where the assignment is nonblocking. Or want of memory.
#[tactic(auto, using(crate::proofs::Changed::changes))]
pub fn assign(
    alloc: Global,
    state: &mut State<'_>,
    later: bool,
    pieces: Pieces,
) -> Result<(), AllocError>
    requires { AllNear pieces }
    ensures { (v : Valuation) (s : means.State) → Stands v s state.old → OnOk result (Stands v (means.assign_as later (changes_of pieces) s) state.new) }
{
    if later {
        return state.pending.append(pieces);
    }
    write_all(
        alloc,
        state.signals,
        &mut state.over,
        &mut state.locals,
        pieces.as_slice(),
    )?;
    state.written.append(pieces)
}
