//! The bits that the processes of a design may write.

ghost use Rattle.std.specs.Prelude.{◌≡◌, ◌++◌, false, true, List, map, IfOk};
ghost use Rattle.bit_sets.specs.Sets.{IsSet};
ghost use Rattle.row_machine.specs.Rounds.{written_bits};
ghost use Rattle.round_runner.specs.Stores.{widths};
ghost use Rattle.v_meaning.specs.Scopes.{Use};
ghost use Rattle.v_drives.specs.Designs.{AreQuietBy, all_made};
ghost use Rattle.v_drives.specs.Quiet.{AreQuietIn};
ghost use Rattle.v_drives.specs.Rows.{AreCovered};
ghost use Rattle.v_writes.specs.Writes.{use_in};
ghost use Rattle.cycle_dst.specs.Grounds.{IsGround, machine_in, processes_in, widths_in};
ghost use Rattle.cycle_dst.specs.Written.{MarksAre, MarksOf};

use crate::ground::Ground;
use b4_core::{Items, Vec4};
use bit_sets::{Marks, Span};
use std::alloc::{AllocError, Global};
use sv_source::at;
use v_drives::{BitRow, all_writes, comb_bits, marks_at, row_of, written_set};
use v_eval::Scope;
use v_modules::Table;
use v_reads::{function_reads, quiet_of};
use v_writes::Writes;

/// Which functions of an instance of a module with this table read no signal.
#[tactic(auto, using(crate::proofs::Covering::quiet))]
pub(crate) fn quiet_by(
    alloc: Global,
    table: &Table<'_>,
    first: u32,
) -> Result<Items<bool>, AllocError>
    ensures { IfOk result (AreQuietIn first table.now) }
{
    let scope = Scope {
        locals: &[],
        next: 0,
        module: &table.names,
        first,
        depth: table.functions,
    };
    let functions = function_reads(alloc, scope)?;
    quiet_of(alloc, scope, functions.as_slice())
}

// Which functions of an instance of the module with a number read no signal.
fn quiet_in(
    alloc: Global,
    tables: &[Table<'_>],
    of: usize,
    first: u32,
) -> Result<Items<bool>, AllocError>
    ensures { IfOk result (AreQuietBy tables.now of first) }
{
    match at(tables, of) {
        None => Ok(Items::new(alloc)),
        Some(table) => quiet_by(alloc, table, first),
    }
}

/// The row of the bits of signals that hold as many. Or want of memory.
pub fn row_in(alloc: Global, store: &[Vec4]) -> Result<BitRow, AllocError>
    ensures { IfOk result (λ r. r.widths ≡ widths store.now) }
{
    let mut all = Items::new(alloc);
    for vector in store {
        all.push(vector.len())?;
    }
    row_of(alloc, all)
}

/// How many bits the combinational processes may write, each counted by itself. Or want of memory.
#[tactic(auto, using(crate::proofs::Covering::counting))]
pub fn written_in(alloc: Global, ground: Ground<'_, '_>, row: &BitRow) -> Result<u64, AllocError>
    requires ground { IsGround ground }
    requires row { row.now.widths ≡ widths_in ground }
    ensures { IfOk result (λ n. n ≡ written_bits (machine_in ground.entry).combs) }
{
    let tables = ground.tables;
    let tell = |of: usize, first: u32| -> Result<Items<bool>, AllocError>
        ensures { IfOk result (AreQuietBy tables.entry.now of first) }
    { quiet_in(alloc, tables, of, first) };
    let bits = comb_bits(alloc, row, tables, &tell, ground.procs)?;
    match u64::try_from(bits) {
        Ok(bits) => Ok(bits),
        Err(_) => Err(AllocError),
    }
}

// What the processes may write.
#[tactic(auto, using(crate::proofs::Covering::counting))]
fn writes_in(alloc: Global, ground: Ground<'_, '_>) -> Result<Writes, AllocError>
    requires { IsGround ground }
    ensures { IfOk result (λ ws. map use_in ws ≡ all_made false (processes_in ground.entry) ++ all_made true (processes_in ground.entry)) }
{
    let tables = ground.tables;
    let tell = |of: usize, first: u32| -> Result<Items<bool>, AllocError>
        ensures { IfOk result (AreQuietBy tables.entry.now of first) }
    { quiet_in(alloc, tables, of, first) };
    let mut writes = all_writes(alloc, tables, &tell, ground.procs, false)?;
    let later = all_writes(alloc, tables, &tell, ground.procs, true)?;
    writes.append(later)?;
    Ok(writes)
}

// Of each bit of each signal whether a set of bits has it.
fn all_marks(alloc: Global, row: &BitRow, set: &[Span]) -> Result<Items<Marks>, AllocError>
    requires { IsSet set.now }
    ensures { IfOk result (λ ms. (us : List Use) → AreCovered row.now.widths us set.now → MarksAre row.now.widths us ms) }
{
    let mut all = Items::new(alloc);
    for n in 0..row.widths.len() {
        all.push(marks_at(alloc, row, set, n)?)?;
    }
    Ok(all)
}

// Of each bit of each signal whether writes name it.
fn marks_by(alloc: Global, row: &BitRow, writes: &Writes) -> Result<Items<Marks>, AllocError>
    ensures { IfOk result (MarksAre row.now.widths (map use_in writes.now)) }
{
    let set = written_set(alloc, row, writes.as_slice())?;
    all_marks(alloc, row, set.as_slice())
}

/// Of each bit of each signal whether a process may write it. Or want of memory.
#[tactic(auto, using(crate::proofs::Covering::marking))]
pub fn marks_in(
    alloc: Global,
    ground: Ground<'_, '_>,
    row: &BitRow,
) -> Result<Items<Marks>, AllocError>
    requires ground { IsGround ground }
    requires row { row.now.widths ≡ widths_in ground }
    ensures { IfOk result (MarksOf ground.entry) }
{
    let writes = writes_in(alloc, ground)?;
    marks_by(alloc, row, &writes)
}
