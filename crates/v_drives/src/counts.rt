//! How many bits the processes of a design may write, and which.

ghost use Rattle.std.specs.Prelude.{◌≡◌, ◌≤◌, ℕ, [], ◌∷◌, map, IfOk};
ghost use Rattle.row_machine.specs.Rounds.{written_bits};
ghost use Rattle.v_meaning.specs.Machine.{machine_of, size};
ghost use Rattle.v_meaning.specs.Modules.{Parts};
ghost use Rattle.v_meaning.specs.Scopes.{Scope};
ghost use Rattle.v_processes.specs.Processes.{does_in, process_at, processes_at};
ghost use Rattle.v_drives.specs.Designs.{at_edges, bits_written, AllByTable, AreQuietBy, ByTable, ForModules, TellsQuiet};
ghost use Rattle.v_drives.specs.Rows.{all_bits};

use crate::designs::{add_writes, told, told_anew};
use crate::rows::BitRow;
use crate::sets::written_count;
use b4_core::Items;
use std::alloc::{AllocError, Global};
use v_modules::Table;
use v_processes::{Does, Proc};
use v_writes::Writes;

// Whether a process runs at edges alone.
fn runs_at_edges(does: &Does<'_>) -> bool
    ensures { (sc : Scope) → at_edges (does_in does.now sc).starts ≡ result }
{
    match does {
        Does::Assign { to: _, value: _ } => false,
        Does::Star(_) => false,
        Does::Edges { edges: _, body: _ } => true,
        Does::Into { port: _, value: _ } => false,
        Does::From { to: _, port: _ } => false,
    }
}

// How many bits a process may write that is combinational; none for another one.
fn process_bits(
    alloc: Global,
    row: &BitRow,
    tables: &[Table<'_>],
    quiet: &[bool],
    process: &Proc<'_>,
) -> Result<u128, AllocError>
    requires by_table { ByTable tables.now process.now }
    requires calls { AreQuietBy tables.now process.now.of process.now.first quiet.now }
    ensures most { IfOk result (λ n. n ≤ all_bits row.now.widths) }
    ensures value { IfOk result (λ n. ForModules tables.now (λ ms. (own : ℕ) (d : Parts) → map size d.signals ≡ row.now.widths → n ≡ bits_written own d (process_at ms process.now ∷ []))) }
{
    if runs_at_edges(&process.does) {
        return Ok(0);
    }
    let mut writes = Writes::new(alloc);
    add_writes(alloc, tables, quiet, process, false, &mut writes)?;
    written_count(alloc, row, writes.as_slice())
}

/// How many bits of signals the combinational processes of a design may write, each counted by itself, where its signals have
/// the bits of the row. `tell` says of each item of a module whether the function there reads no signal, in an instance whose
/// signals are numbered from a number on. Or want of memory.
pub fn comb_bits<Q: Fn(usize, u32) -> Result<Items<bool>, AllocError>>(
    alloc: Global,
    row: &BitRow,
    tables: &[Table<'_>],
    tell: &Q,
    procs: &[Proc<'_>],
) -> Result<u128, AllocError>
    requires callable { Q.IsAlwaysCallable tell.now }
    requires right { TellsQuiet tables.now (Q.post tell.now) }
    requires by_table { AllByTable tables.now procs.now }
    ensures { IfOk result (λ n. ForModules tables.now (λ ms. (own : ℕ) (d : Parts) → processes_at ms procs.now ≡ d.processes → map size d.signals ≡ row.now.widths → n ≡ written_bits (machine_of own d).combs)) }
{
    let mut count = 0;
    if procs.len() == 0 {
        return Ok(count);
    }
    let mut known = told_anew(tables, tell, &procs[0])?;
    for process in procs {
        known = told(tables, tell, known, process)?;
        count += process_bits(alloc, row, tables, known.functions.as_slice(), process)?;
    }
    Ok(count)
}
