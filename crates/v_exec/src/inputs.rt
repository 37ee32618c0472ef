//! The locals of functions, and what is passed to them (IEEE 1364-2005 clause 10.4).

ghost use Rattle.std.specs.Prelude.{◌≡◌, ◌+◌, map, IfOk};
ghost use Rattle.v_meaning.specs.Functions as means;
ghost use Rattle.v_eval.specs.Names.{local_named};
ghost use Rattle.v_eval.specs.Windows.{IsNear};
ghost use Rattle.v_run.specs.Changes.{change_of, changes_of, AllNear};
ghost use Rattle.v_exec.specs.Modules.{bound_one};

use crate::statements::number_behind;
use b4_core::Vec4;
use std::alloc::{AllocError, Global};
use v_eval::{Local, bits_of_range, entire};
use v_run::{Locals, Piece, Pieces, declared};
use v_tree::VFunction;

// The inputs of a function as locals.
pub fn inputs_in(alloc: Global, f: &VFunction) -> Result<Locals, AllocError>
    ensures { IfOk result (λ r. map local_named r ≡ means.inputs_of f.now) }
{
    declared(alloc, 1, f.inputs.as_slice(), &[])
}

/// The locals of a function: its result, its inputs and its variables. Or want of memory.
pub fn locals_in(alloc: Global, f: &VFunction) -> Result<Locals, AllocError>
    ensures { IfOk result (λ r. map local_named r ≡ means.locals_of f.now) }
{
    let first = number_behind(1, f.inputs.len())?;
    let variables = declared(alloc, first, f.locals.as_slice(), &[])?;
    let behind = declared(alloc, 1, f.inputs.as_slice(), variables.as_slice())?;
    let mut all = Locals::new(alloc);
    all.push(Local {
        name: f.name.copy(alloc)?,
        number: 0,
        left: f.range,
    })?;
    all.append(behind)?;
    Ok(all)
}

// The write that gives an input what is passed to it.
fn bind(alloc: Global, local: &Local, bits: &Vec4) -> Result<Piece, AllocError>
    ensures change { IfOk result (λ p. change_of p ≡ bound_one (local_named local.now) bits.now) }
    ensures near { IfOk result (λ p. IsNear p.window) }
{
    Ok(Piece {
        number: 4294967296 + local.number as u64,
        window: entire(bits_of_range(local.left) as u128),
        bits: Vec4::from_slice(alloc, bits.as_slice())?,
    })
}

/// The writes that give inputs what is passed to them. Or want of memory.
#[tactic(auto, using(crate::proofs::Binding::binding))]
pub fn binds(alloc: Global, inputs: &[Local], args: &[Vec4]) -> Result<Pieces, AllocError>
    ensures changes { IfOk result (λ ps. changes_of ps ≡ means.bound (map local_named inputs.now) args.now) }
    ensures near { IfOk result AllNear }
{
    let mut pieces = Pieces::new(alloc);
    for i in 0..inputs.len().min(args.len()) {
        pieces.push(bind(alloc, &inputs[i], &args[i])?)?;
    }
    Ok(pieces)
}
