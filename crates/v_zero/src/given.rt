//! Values that `initial` gives to signals (IEEE 1364-2005 clauses 9.2.2 and 9.9.1).

ghost use Rattle.std.specs.Prelude.{◌≡◌, ◌<◌, length, slice_set, IfOk, OnOk};
ghost use Rattle.round_runner.specs.Stores.{Holds, holding, widths};
ghost use Rattle.v_processes.specs.Walks.{initials_of};
ghost use Rattle.v_zero.specs.Zero.{InitialsFit, given_over};

use b4_core::Vec4;
use std::alloc::{AllocError, Global};
use v_processes::Initial;

// A copy of a store.
fn copied(alloc: Global, store: &[Vec4]) -> Result<Vec<Vec4>, AllocError>
    ensures { IfOk result (λ v. v.items ≡ store.now) }
{
    let mut made = Vec::with_capacity(alloc, store.len())?;
    for vector in store {
        made.push(Vec4::from_slice(alloc, vector.as_slice())?)?;
    }
    Ok(made)
}

// Gives a signal its value.
fn give(alloc: Global, initial: &Initial<'_>, to: &mut [Vec4]) -> Result<(), AllocError>
    requires { initial.now.number < length to.old }
    ensures { OnOk result (to.new ≡ slice_set to.old initial.now.number initial.now.value.now) }
{
    to[initial.number as usize] = Vec4::from_slice(alloc, initial.value.as_slice())?;
    Ok(())
}

// Gives signals their values, one after the other.
fn give_all(alloc: Global, initials: &[Initial<'_>], to: &mut [Vec4]) -> Result<(), AllocError>
    requires { InitialsFit (widths to.old) (initials_of initials.now) }
    ensures { OnOk result (Holds (widths to.old) (given_over (initials_of initials.now) (holding to.old)) to.new) }
{
    for initial in initials {
        give(alloc, initial, to)?;
    }
    Ok(())
}

/// What signals hold at time zero, once every `initial name <= value;` has been made: of two for one signal the last counts.
/// Or want of memory.
pub fn given_store(
    alloc: Global,
    initials: &[Initial<'_>],
    initial: &[Vec4],
) -> Result<Vec<Vec4>, AllocError>
    requires { InitialsFit (widths initial.now) (initials_of initials.now) }
    ensures { IfOk result (λ v. Holds (widths initial.now) (given_over (initials_of initials.now) (holding initial.now)) v.items) }
{
    let mut made = copied(alloc, initial)?;
    give_all(alloc, initials, &mut made)?;
    Ok(made)
}
