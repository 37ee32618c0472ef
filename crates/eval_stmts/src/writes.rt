//! Writes of signals and locals in an environment.

ghost use Rattle.std.specs.Prelude.{◌≡◌, ◌≤◌, OnOk, IfOk};
ghost use Rattle.sv_types.specs.Layouts.{layout, width_of, default_bits};
ghost use Rattle.sv_types.specs.Runs.{set_local};
ghost use Rattle.eval_parts.specs.Steps.{is_held};
ghost use Rattle.eval_stmts.specs.Environments.{IsReady, Written, update_of};

use crate::env::{Env, Update};
use b4_core::{Bit4, Vec4};
use eval_parts::{Root, entire, filled};
use eval_store::{write_local, write_slot};
use std::alloc::{AllocError, Global};
use sv_types::{SvType, store, width};

/// Writes the bits of an update.
pub fn write(alloc: Global, update: &Update, env: &mut Env) -> Result<(), AllocError>
    requires { IsReady update.now (is_held env.old.signals.items) }
    ensures { OnOk result (Written env.old env.new (update_of update.now)) }
{
    match update.to.root {
        Root::Signal(n) => {
            let slot = &mut env.signals[n as usize];
            write_slot(alloc, slot, update.to.window, &update.bits)
        }
        Root::Local(n) => write_local(alloc, &mut env.locals, n, update.to.window, &update.bits),
        Root::Value(_) => Ok(()),
    }
}

/// Writes all bits of a local of a type.
pub fn write_whole(
    alloc: Global,
    number: u32,
    of: &SvType,
    bits: &Vec4,
    env: &mut Env,
) -> Result<(), AllocError>
    requires { width_of of.now ≤ 4194304 }
    ensures { OnOk result (Written env.old env.new (set_local number (layout of.now).two_state bits.now)) }
{
    write_local(alloc, &mut env.locals, number, entire(width(of)), bits)
}

/// The bits of a type's default (IEEE 1800-2017 clause 6.8).
pub fn default_bits_of(alloc: Global, of: &SvType) -> Result<Vec4, AllocError>
    requires { width_of of.now ≤ 4194304 }
    ensures { IfOk result (λ v. v ≡ default_bits (layout of.now).two_state) }
{
    store(alloc, of, &filled(alloc, width(of), Bit4::X)?)
}
