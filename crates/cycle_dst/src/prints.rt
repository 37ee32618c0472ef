//! Which signals the combinational processes of a design read, and which they may write.

ghost use Rattle.std.specs.Prelude.{◌≡◌, ◌+◌, ◌<◌, length, Some, slice_get, IfOk, IfSome, OnOk};
ghost use Rattle.v_drives.specs.Designs.{ByTable};
ghost use Rattle.v_drives.specs.Quiet.{AreQuietIn};
ghost use Rattle.v_exec.specs.Modules.{FunctionsNarrow};
ghost use Rattle.v_hangs.specs.Hangs.{FunctionsReadIn, WritesIn};
ghost use Rattle.v_meaning.specs.Modules.{scope_of};
ghost use Rattle.v_modules.specs.Tables.{items_of};
ghost use Rattle.v_steps.specs.Steps.{DoesNarrow};
ghost use Rattle.cycle_dst.specs.Circuits.{process_in};
ghost use Rattle.cycle_dst.specs.Grounds.{Below, CombsOf, IsGround, machine_in};
ghost use Rattle.cycle_dst.specs.Prints.{AllPrints, IsKnown, KnownFor, PrintsBy, PrintsIn};

use crate::combs::Comb;
use crate::ground::Ground;
use crate::written::quiet_by;
use b4_core::Items;
use std::alloc::{AllocError, Global};
use sv_source::at;
use v_drives::process_writes;
use v_hangs::{process_reads, signals_written, table_reads, writes_only_uses};
use v_modules::Table;
use v_processes::Proc;
use v_reads::Numbers;
use v_writes::Writes;
use v_zero::Signals;

/// The signals that a combinational process reads, and those that it may write, each list where it is known.
#[derive(Drop)]
pub struct Prints {
    /// Those that it reads: what it assigns hangs on their bits alone.
    pub reads: Option<Signals>,
    /// Those that it may write.
    pub writes: Option<Signals>,
}

// What the functions of an instance read, and which ones read no signal.
#[derive(Drop)]
pub struct Known {
    pub of: usize,
    pub first: u32,
    pub reads: Items<Numbers>,
    pub quiet: Items<bool>,
}

// What is known before the first process: nothing of no instance.
#[tactic(auto, using(crate::proofs::Printing::starting))]
fn none_known(alloc: Global, tables: &[Table<'_>]) -> Known
    ensures { IsKnown tables.now result }
{
    Known {
        of: tables.len(),
        first: 0,
        reads: Items::new(alloc),
        quiet: Items::new(alloc),
    }
}

// That of the instance of a process.
#[tactic(auto, using(crate::proofs::Printing::finding))]
fn known_anew(alloc: Global, tables: &[Table<'_>], process: &Proc<'_>) -> Result<Known, AllocError>
    requires { ByTable tables.now process.now }
    ensures { IfOk result (KnownFor tables.now process.now) }
{
    let table = &tables[process.of];
    let quiet = quiet_by(alloc, table, process.first)?;
    let reads = table_reads(alloc, table, process.first)?;
    Ok(Known {
        of: process.of,
        first: process.first,
        reads,
        quiet,
    })
}

// That of the instance of a process, if it isn't known from the process before it.
fn known_for(
    alloc: Global,
    tables: &[Table<'_>],
    known: Known,
    process: &Proc<'_>,
) -> Result<Known, AllocError>
    requires by_table { ByTable tables.now process.now }
    requires known { IsKnown tables.now known }
    ensures { IfOk result (KnownFor tables.now process.now) }
{
    if known.of == process.of && known.first == process.first {
        return Ok(known);
    }
    known_anew(alloc, tables, process)
}

// The signals that a process may write other than by nonblocking assignments.
fn writes_at(
    alloc: Global,
    table: &Table<'_>,
    quiet: &[bool],
    process: &Proc<'_>,
    mark: usize,
    marks: &mut [usize],
) -> Result<Option<Signals>, AllocError>
    requires functions { FunctionsNarrow process.now.first table.now.names }
    requires narrow { DoesNarrow process.now.does (scope_of process.now.first (items_of table.now)) }
    requires calls { AreQuietIn process.now.first table.now quiet.now }
    requires below { Below marks.old mark }
    ensures newest { OnOk result (Below marks.new (mark + 1)) }
    ensures writes { IfOk result (λ o. IfSome o (WritesIn (process_in process.now table.now))) }
{
    writes_only_uses();
    let mut writes = Writes::new(alloc);
    process_writes(alloc, table, quiet, process, false, &mut writes)?;
    signals_written(alloc, writes.as_slice(), mark, marks)
}

// The signals that a process reads, and those that it may write. Each signal has a mark of either kind, below this one.
#[tactic(auto, using(crate::proofs::Printing::printing))]
fn print_at(
    alloc: Global,
    table: &Table<'_>,
    known: &Known,
    process: &Proc<'_>,
    mark: usize,
    read: &mut [usize],
    written: &mut [usize],
) -> Result<Prints, AllocError>
    requires functions { FunctionsNarrow process.now.first table.now.names }
    requires narrow { DoesNarrow process.now.does (scope_of process.now.first (items_of table.now)) }
    requires reads { FunctionsReadIn process.now.first table.now known.now.reads }
    requires calls { AreQuietIn process.now.first table.now known.now.quiet }
    requires read { Below read.old mark }
    requires written { Below written.old mark }
    ensures read { OnOk result (Below read.new (mark + 1)) }
    ensures written { OnOk result (Below written.new (mark + 1)) }
    ensures made { IfOk result (PrintsBy process.now table.now) }
{
    let writes = writes_at(alloc, table, known.quiet.as_slice(), process, mark, written)?;
    let reads = process_reads(alloc, table, known.reads.as_slice(), process, mark, read)?;
    Ok(Prints { reads, writes })
}

// The same, by the table of its module.
#[tactic(auto, using(crate::proofs::Printing::placing))]
fn print_in(
    alloc: Global,
    tables: &[Table<'_>],
    known: &Known,
    process: &Proc<'_>,
    mark: usize,
    read: &mut [usize],
    written: &mut [usize],
) -> Result<Prints, AllocError>
    requires by_table { ByTable tables.now process.now }
    requires known { KnownFor tables.now process.now known.now }
    requires read { Below read.old mark }
    requires written { Below written.old mark }
    ensures read { OnOk result (Below read.new (mark + 1)) }
    ensures written { OnOk result (Below written.new (mark + 1)) }
    ensures made { IfOk result (PrintsIn tables.now process.now) }
{
    let table = &tables[process.of];
    print_at(alloc, table, known, process, mark, read, written)
}

// The process with a number.
fn process_at<'t, 'a>(procs: &'t [Proc<'a>], k: usize) -> &'t Proc<'a>
    requires { k < length procs.now }
    ensures { slice_get procs.now k ≡ Some result.now }
{
    &procs[k]
}

// Which signals combinational processes read, and which they may write, with two marks for each signal.
fn all_prints(
    alloc: Global,
    ground: Ground<'_, '_>,
    combs: &[Comb],
    read: &mut [usize],
    written: &mut [usize],
) -> Result<Items<Prints>, AllocError>
    requires ground { IsGround ground }
    requires combs { CombsOf ground combs.now (machine_in ground).combs }
    requires read { Below read.old 1 }
    requires written { Below written.old 1 }
    ensures { IfOk result (λ ps. AllPrints ps (machine_in ground.entry).combs) }
{
    let mut prints = Items::new(alloc);
    let mut known = none_known(alloc, ground.tables);
    for i in 0..combs.len() {
        let process = process_at(ground.procs, combs[i].process);
        known = known_for(alloc, ground.tables, known, process)?;
        prints.push(print_in(alloc, ground.tables, &known, process, i + 1, read, written)?)?;
    }
    Ok(prints)
}

/// Which signals the combinational processes of a design read, and which they may write, in their order. What the functions of an
/// instance read is found once for processes of it that stand next to each other. Or want of memory.
pub fn prints_of(
    alloc: Global,
    ground: Ground<'_, '_>,
    combs: &[Comb],
) -> Result<Items<Prints>, AllocError>
    requires ground { IsGround ground }
    requires combs { CombsOf ground combs.now (machine_in ground).combs }
    ensures { IfOk result (λ ps. AllPrints ps (machine_in ground.entry).combs) }
{
    let count = ground.initial.len();
    let mut read = vec![in alloc; 0; count]?;
    let mut written = vec![in alloc; 0; count]?;
    all_prints(alloc, ground, combs, &mut read, &mut written)
}
