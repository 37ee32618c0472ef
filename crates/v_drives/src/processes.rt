//! What processes may write.

ghost use Rattle.std.specs.Prelude.{◌≡◌, ◌≤◌, ◌++◌, false, [], ◌∷◌, cond, map, IfOk, OnOk};
ghost use Rattle.v_meaning.specs.Modules as modules;
ghost use Rattle.v_meaning.specs.Modules.{port_target};
ghost use Rattle.v_meaning.specs.Statements as means;
ghost use Rattle.v_eval.specs.Holding.{holds};
ghost use Rattle.v_exec.specs.Limits.{branch_most};
ghost use Rattle.v_exec.specs.Modules.{callee_in, scope_in, FunctionsNarrow};
ghost use Rattle.v_run.specs.Limits.{target_most};
ghost use Rattle.v_modules.specs.Tables.{items_of};
ghost use Rattle.v_processes.specs.Processes.{does_in, port_named};
ghost use Rattle.v_steps.specs.Steps.{DoesNarrow};
ghost use Rattle.v_writes.specs.Writes.{use_in, made};
ghost use Rattle.v_drives.specs.Quiet.{AreQuietIn};

use b4_core::Vec4;
use std::alloc::{AllocError, Global};
use v_eval::{Held, Scope, Vectors};
use v_exec::call_function;
use v_modules::Table;
use v_processes::{Does, Port, Proc};
use v_tree::{VBranch, VLval};
use v_writes::{Writes, Written, branch_writes, lval_writes};

// Adds what a target may write.
fn target_writes(
    alloc: Global,
    table: &Table<'_>,
    first: u32,
    quiet: &[bool],
    to: &VLval,
    out: &mut Writes,
) -> Result<(), AllocError>
    requires functions { FunctionsNarrow first table.now.names }
    requires calls { AreQuietIn first table.now quiet.now }
    requires narrow { target_most to.now (scope_in first table.now.functions table.now.names) ≤ 128 }
    ensures { OnOk result (map use_in out.new ≡ map use_in out.old ++ (means.target to.now).writes (scope_in first table.now.functions table.now.names)) }
{
    let of = &table.names;
    let depth = table.functions;
    let call = |held: Held<'_>, i: usize, args: Vectors| -> Result<Vec4, AllocError>
        requires { FunctionsNarrow first of.now }
        ensures { IfOk result (λ x. x ≡ (callee_in first depth of.entry.now i).run (holds held.entry) args) }
    { call_function(alloc, of, first, depth, held, i, args) };
    let scope = Scope {
        locals: &[],
        next: 0,
        module: of,
        first,
        depth,
    };
    lval_writes(alloc, scope, quiet, &call, to, out)
}

// Adds what the body of an `always` may write.
fn body_writes(
    alloc: Global,
    table: &Table<'_>,
    first: u32,
    quiet: &[bool],
    later: bool,
    body: &VBranch,
    out: &mut Writes,
) -> Result<(), AllocError>
    requires functions { FunctionsNarrow first table.now.names }
    requires calls { AreQuietIn first table.now quiet.now }
    requires narrow { branch_most body.now (scope_in first table.now.functions table.now.names) ≤ 128 }
    ensures { OnOk result (map use_in out.new ≡ map use_in out.old ++ made later (means.doing_of body.now) (scope_in first table.now.functions table.now.names)) }
{
    let of = &table.names;
    let depth = table.functions;
    let call = |held: Held<'_>, i: usize, args: Vectors| -> Result<Vec4, AllocError>
        requires { FunctionsNarrow first of.now }
        ensures { IfOk result (λ x. x ≡ (callee_in first depth of.entry.now i).run (holds held.entry) args) }
    { call_function(alloc, of, first, depth, held, i, args) };
    let scope = Scope {
        locals: &[],
        next: 0,
        module: of,
        first,
        depth,
    };
    branch_writes(alloc, scope, quiet, &call, later, body, out)
}

// Adds the bits of a port.
fn port_writes(port: Port, out: &mut Writes) -> Result<(), AllocError>
    ensures { OnOk result (map use_in out.new ≡ map use_in out.old ++ record { number = port.number; low = 0; high = port.bits } ∷ []) }
{
    out.push(Written {
        number: port.number,
        low: 0,
        high: port.bits,
    })?;
    Ok(())
}

// Adds what a process may write.
#[tactic(auto, using(crate::proofs::Made::forms))]
fn does_writes(
    alloc: Global,
    table: &Table<'_>,
    first: u32,
    quiet: &[bool],
    later: bool,
    does: &Does<'_>,
    out: &mut Writes,
) -> Result<(), AllocError>
    requires functions { FunctionsNarrow first table.now.names }
    requires calls { AreQuietIn first table.now quiet.now }
    requires narrow { DoesNarrow does.now (scope_in first table.now.functions table.now.names) }
    ensures { OnOk result (map use_in out.new ≡ map use_in out.old ++ made later (does_in does.now (scope_in first table.now.functions table.now.names)).does (scope_in first table.now.functions table.now.names)) }
{
    match does {
        Does::Star(body) => body_writes(alloc, table, first, quiet, later, body, out),
        Does::Edges { edges: _, body } => body_writes(alloc, table, first, quiet, later, body, out),
        Does::Assign { to, value: _ } => {
            if later {
                return Ok(());
            }
            target_writes(alloc, table, first, quiet, to, out)
        }
        Does::From { to, port: _ } => {
            if later {
                return Ok(());
            }
            target_writes(alloc, table, first, quiet, to, out)
        }
        Does::Into { port, value: _ } => {
            if later {
                return Ok(());
            }
            port_writes(*port, out)
        }
    }
}

/// Adds what a process of an instance of a module, whose table this is, may write by its blocking and its continuous
/// assignments, or by its nonblocking ones where `later`. `quiet` says of each item of the module whether the function there
/// reads no signal. Or want of memory.
#[tactic(auto, using(crate::proofs::Made::scopes))]
pub fn process_writes(
    alloc: Global,
    table: &Table<'_>,
    quiet: &[bool],
    process: &Proc<'_>,
    later: bool,
    to: &mut Writes,
) -> Result<(), AllocError>
    requires functions { FunctionsNarrow process.now.first table.now.names }
    requires narrow { DoesNarrow process.now.does (modules.scope_of process.now.first (items_of table.now)) }
    requires calls { AreQuietIn process.now.first table.now quiet.now }
    ensures { OnOk result (map use_in to.new ≡ map use_in to.old ++ made later (does_in process.now.does (modules.scope_of process.now.first (items_of table.now))).does (modules.scope_of process.now.first (items_of table.now))) }
{
    does_writes(alloc, table, process.first, quiet, later, &process.does, to)
}
