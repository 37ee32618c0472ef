//! On which signals processes hang.

ghost use Rattle.std.specs.Prelude.{◌≡◌, ◌+◌, ◌<◌, ◌≤◌, ℕ, true, length, slice_index, IfOk, IfSome, OnOk};
ghost use Rattle.v_meaning.specs.Modules.{signals, scope_of as scope_of_items};
ghost use Rattle.v_eval.specs.Scopes.{scope_of};
ghost use Rattle.v_modules.specs.Tables.{items_of};
ghost use Rattle.v_processes.specs.Processes.{does_in};
ghost use Rattle.v_reads.specs.Reads.{Adds, FunctionsRead};
ghost use Rattle.v_hangs.specs.Hangs.{FunctionsReadIn, HangsOn, PortIsSignal};

use crate::numbers::signals_once;
use b4_core::Items;
use std::alloc::{AllocError, Global};
use v_eval::Scope;
use v_modules::Table;
use v_processes::{Does, Proc};
use v_reads::{Numbers, branch_reads, expr_reads, function_reads, lval_reads};
use v_zero::Signals;

/// For each item of a module, whose table this is, the signals that the function there reads, in an instance whose signals are
/// numbered from `first` on. Or want of memory.
pub fn table_reads(
    alloc: Global,
    table: &Table<'_>,
    first: u32,
) -> Result<Items<Numbers>, AllocError>
    ensures { IfOk result (λ lists. FunctionsReadIn first table.now lists) }
{
    let scope = Scope {
        locals: &[],
        next: 0,
        module: &table.names,
        first,
        depth: table.functions,
    };
    function_reads(alloc, scope)
}

// Whether the number of the port that a process reads is a signal's.
fn port_is_signal(does: &Does<'_>) -> bool
    ensures { result ≡ true → PortIsSignal does.now }
{
    match does {
        Does::Assign { to: _, value: _ } => true,
        Does::Star(_) => true,
        Does::Edges { edges: _, body: _ } => true,
        Does::Into { port: _, value: _ } => true,
        Does::From { to: _, port } => port.number < 4294967296,
    }
}

// Whether the signals of an instance of a module have numbers of signals.
#[tactic(auto, using(crate::proofs::Reading::counts))]
fn are_signals(table: &Table<'_>, first: u32) -> bool
    ensures { result ≡ true → first + length (signals (items_of table.now)) ≤ 4294967296 }
{
    first as u128 + table.inputs.len() as u128 <= 4294967296
}

// Adds what a process reads.
#[tactic(auto, using(crate::proofs::Reading::forms))]
fn does_reads(
    alloc: Global,
    scope: Scope<'_>,
    functions: &[Numbers],
    does: &Does<'_>,
    out: &mut Numbers,
) -> Result<(), AllocError>
    requires { FunctionsRead scope functions.now }
    ensures { OnOk result (Adds out.old out.new ((does_in does.now (scope_of scope.entry)).does.reads (scope_of scope.entry))) }
{
    match does {
        Does::Star(body) => branch_reads(alloc, scope, functions, body, out),
        Does::Edges { edges: _, body } => branch_reads(alloc, scope, functions, body, out),
        Does::Assign { to, value } => {
            expr_reads(scope, functions, value, out)?;
            lval_reads(scope, functions, to, out)
        }
        Does::Into { port: _, value } => expr_reads(scope, functions, value, out),
        Does::From { to, port } => {
            out.push(port.number)?;
            lval_reads(scope, functions, to, out)
        }
    }
}

/// The signals that a process of an instance of a module, whose table this is, hangs on, each once, or nothing where it reads
/// a number that no signal has. `functions` has for each item of the module what the function there reads. Each signal of the
/// design has its mark, below `mark`; the listed ones get this one. Or want of memory.
pub fn process_reads(
    alloc: Global,
    table: &Table<'_>,
    functions: &[Numbers],
    process: &Proc<'_>,
    mark: usize,
    marks: &mut [usize],
) -> Result<Option<Signals>, AllocError>
    requires functions { FunctionsReadIn process.now.first table.now functions.now }
    requires below { (m : ℕ) → m < length marks.old → slice_index marks.old m < mark }
    ensures long { length marks.new ≡ length marks.old }
    ensures newest { OnOk result ((m : ℕ) → m < length marks.new → slice_index marks.new m ≤ mark) }
    ensures hangs { IfOk result (λ o. IfSome o (HangsOn (does_in process.now.does (scope_of_items process.now.first (items_of table.now))))) }
{
    if !are_signals(table, process.first) || !port_is_signal(&process.does) {
        return Ok(None);
    }
    let scope = Scope {
        locals: &[],
        next: 0,
        module: &table.names,
        first: process.first,
        depth: table.functions,
    };
    let mut numbers = Numbers::new(alloc);
    does_reads(alloc, scope, functions, &process.does, &mut numbers)?;
    signals_once(alloc, numbers.as_slice(), mark, marks)
}
