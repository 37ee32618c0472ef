//! What a run has written, put over other signals (IEEE 1364-2005 clause 9.2).

ghost use Rattle.std.specs.Prelude.{◌≡◌, ◌≤◌, ◌<◌, ◌^◌, length, []};
ghost use Rattle.row_machine.specs.Valuation.{put};
ghost use Rattle.v_meaning.specs.Machine.{to_signals};
ghost use Rattle.v_eval.specs.Windows.{window_of, IsNear};
ghost use Rattle.v_eval.specs.Holding.{holding};
ghost use Rattle.v_run.specs.Changes.{change_of, changes_of, widths, AllNear, Within};
ghost use Rattle.v_run.specs.Writes.{InsideWritten};

use crate::bits::set_bits;
use crate::pieces::Piece;
use b4_core::Vec4;
use v_eval::Window;

// Writes bits through a window of what a slot holds, but for those behind its end.
#[tactic(auto, using(crate::proofs::PutOver::inside))]
fn write_inside(held: &mut Vec4, window: Window, bits: &Vec4)
    requires { IsNear window }
    ensures { InsideWritten held.old held.new (window_of window) bits.now }
{
    let inside = Window {
        shift: window.shift,
        low: window.low,
        high: window.high.min(held.len() as u128),
    };
    set_bits(held, inside, bits);
}

// Makes a write of the signal with a number, if it is one.
fn put_signal(piece: &Piece, to: &mut [Vec4])
    requires near { IsNear piece.now.window }
    ensures widths { widths to.new ≡ widths to.old }
    ensures values { Within (widths to.old) (change_of piece.now) → holding to.new [] [] ≡ put (to_signals (change_of piece.now)) (holding to.old [] []) }
{
    let n = piece.number as usize;
    if piece.number < 4294967296 && n < to.len() {
        write_inside(&mut to[n], piece.window, &piece.bits);
    }
}

/// Makes writes of signals in place, in their order; those of locals aren't made. It keeps how many bits each signal has, and
/// leaves out what lies behind them.
pub fn put_over(pieces: &[Piece], to: &mut [Vec4])
    requires near { AllNear pieces.now }
    ensures widths { widths to.new ≡ widths to.old }
    ensures values { Within (widths to.old) (changes_of pieces.now) → holding to.new [] [] ≡ put (to_signals (changes_of pieces.now)) (holding to.old [] []) }
{
    for piece in pieces {
        put_signal(piece, to);
    }
}
