//! What locals hold when their block or function is entered (IEEE 1364-2005 clauses 4.2.2 and 9.8).

ghost use Rattle.std.specs.Prelude.{◌≡◌, map, IfOk};
ghost use Rattle.v_meaning.specs.Runs.{cleared};
ghost use Rattle.v_eval.specs.Names.{local_named};
ghost use Rattle.v_eval.specs.Windows.{IsNear};
ghost use Rattle.v_run.specs.Changes.{change_of, changes_of, cleared_one, AllNear};

use crate::pieces::{Piece, Pieces};
use b4_core::{Bit4, Vec4};
use std::alloc::{AllocError, Global};
use v_eval::{Local, bits_of_range, entire};

// The write that makes a local x.
fn clear(alloc: Global, local: &Local) -> Result<Piece, AllocError>
    ensures change { IfOk result (λ p. change_of p ≡ cleared_one (local_named local.now)) }
    ensures near { IfOk result (λ p. IsNear p.window) }
{
    let width = bits_of_range(local.left);
    Ok(Piece {
        number: 4294967296 + local.number as u64,
        window: entire(width as u128),
        bits: Vec4::from_vec(vec![in alloc; Bit4::X; width as usize]?),
    })
}

/// The writes that make locals x. Or want of memory.
#[tactic(auto, using(crate::proofs::Clearing::clearing))]
pub fn clears(alloc: Global, locals: &[Local]) -> Result<Pieces, AllocError>
    ensures changes { IfOk result (λ ps. changes_of ps ≡ cleared (map local_named locals.now)) }
    ensures near { IfOk result AllNear }
{
    let mut pieces = Pieces::new(alloc);
    for local in locals {
        pieces.push(clear(alloc, local)?)?;
    }
    Ok(pieces)
}
