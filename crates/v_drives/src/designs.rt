//! What all processes of a design may write.

ghost use Rattle.std.specs.Prelude.{◌≡◌, ◌++◌, map, IfOk, OnOk};
ghost use Rattle.v_processes.specs.Processes.{process_at, processes_at};
ghost use Rattle.v_writes.specs.Writes.{use_in};
ghost use Rattle.v_drives.specs.Designs.{process_made, all_made, AllByTable, AreQuietBy, ByTable, ForModules, TellsQuiet};

use crate::processes::process_writes;
use b4_core::Items;
use std::alloc::{AllocError, Global};
use sv_source::at;
use v_modules::Table;
use v_processes::Proc;
use v_writes::Writes;

// Which functions of an instance read no signal.
#[derive(Drop)]
pub struct Quiet {
    pub of: usize,
    pub first: u32,
    pub functions: Items<bool>,
}

// Which functions of the instance of a process read no signal.
pub fn told_anew<Q: Fn(usize, u32) -> Result<Items<bool>, AllocError>>(
    tables: &[Table<'_>],
    tell: &Q,
    process: &Proc<'_>,
) -> Result<Quiet, AllocError>
    requires callable { Q.IsAlwaysCallable tell.now }
    requires right { TellsQuiet tables.now (Q.post tell.now) }
    ensures here { IfOk result (λ q. AreQuietBy tables.now process.now.of process.now.first q.functions) }
    ensures known { IfOk result (λ q. AreQuietBy tables.now q.of q.first q.functions) }
{
    Ok(Quiet {
        of: process.of,
        first: process.first,
        functions: tell(process.of, process.first)?,
    })
}

// Which functions of the instance of a process read no signal, if that isn't known from the process before it.
pub fn told<Q: Fn(usize, u32) -> Result<Items<bool>, AllocError>>(
    tables: &[Table<'_>],
    tell: &Q,
    known: Quiet,
    process: &Proc<'_>,
) -> Result<Quiet, AllocError>
    requires callable { Q.IsAlwaysCallable tell.now }
    requires right { TellsQuiet tables.now (Q.post tell.now) }
    requires known { AreQuietBy tables.now known.of known.first known.functions }
    ensures here { IfOk result (λ q. AreQuietBy tables.now process.now.of process.now.first q.functions) }
    ensures known { IfOk result (λ q. AreQuietBy tables.now q.of q.first q.functions) }
{
    if known.of == process.of && known.first == process.first {
        return Ok(known);
    }
    told_anew(tables, tell, process)
}

// Adds what a process may write.
pub fn add_writes(
    alloc: Global,
    tables: &[Table<'_>],
    quiet: &[bool],
    process: &Proc<'_>,
    later: bool,
    to: &mut Writes,
) -> Result<(), AllocError>
    requires by_table { ByTable tables.now process.now }
    requires calls { AreQuietBy tables.now process.now.of process.now.first quiet.now }
    ensures { OnOk result (ForModules tables.now (λ ms. map use_in to.new ≡ map use_in to.old ++ process_made later (process_at ms process.now))) }
{
    match at(tables, process.of) {
        None => Ok(()),
        Some(table) => process_writes(alloc, table, quiet, process, later, to),
    }
}

/// What the processes of a design may write by their blocking and their continuous assignments, or by their nonblocking ones
/// where `later`. `tell` says of each item of a module whether the function there reads no signal, in an instance whose signals
/// are numbered from a number on. Processes of one instance stand next to each other. Or want of memory.
pub fn all_writes<Q: Fn(usize, u32) -> Result<Items<bool>, AllocError>>(
    alloc: Global,
    tables: &[Table<'_>],
    tell: &Q,
    procs: &[Proc<'_>],
    later: bool,
) -> Result<Writes, AllocError>
    requires callable { Q.IsAlwaysCallable tell.now }
    requires right { TellsQuiet tables.now (Q.post tell.now) }
    requires by_table { AllByTable tables.now procs.now }
    ensures { IfOk result (λ ws. ForModules tables.now (λ ms. map use_in ws ≡ all_made later (processes_at ms procs.now))) }
{
    let mut to = Writes::new(alloc);
    if procs.len() == 0 {
        return Ok(to);
    }
    let mut known = told_anew(tables, tell, &procs[0])?;
    for process in procs {
        known = told(tables, tell, known, process)?;
        add_writes(
            alloc,
            tables,
            known.functions.as_slice(),
            process,
            later,
            &mut to,
        )?;
    }
    Ok(to)
}
