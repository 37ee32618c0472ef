//! Runs of designs over rows.

ghost use Rattle.std.specs.Prelude.{◌≡◌, true, map, IfOk};
ghost use Rattle.round_runner.specs.Stores.{Holds};
ghost use Rattle.row_machine.specs.Rounds.{written_bits};
ghost use Rattle.v_tree.specs.Rules.{Keeps, FitsTop};
ghost use Rattle.v_rules.specs.Tables.{Tables};
ghost use Rattle.v_selects.specs.Few.{few_of_design};
ghost use Rattle.v_instances.specs.Slots.{signal_of};
ghost use Rattle.v_meaning.specs.Modules.{parts};
ghost use Rattle.v_processes.specs.Walks.{HasParts, IsTabled};
ghost use Rattle.cycle_dst.specs.Designs.{RowsFit, RunGives, top_inputs};
ghost use Rattle.cycle_dst.specs.Grounds.{IsGround, machine_in, widths_in};
ghost use Rattle.cycle_dst.specs.Wholes.{CanRun, InitialIs, IsWhole};
ghost use Rattle.cycle_dst.specs.Written.{MarksOf};

use crate::circuit::Circuit;
use crate::copies::copied;
use crate::fails::{RunFail, failed};
use crate::ground::Ground;
use crate::making::{combs_of, edges_of};
use crate::ports::inputs_of;
use crate::prints::prints_of;
use crate::whole::Whole;
use crate::written::{marks_in, row_in, written_in};
use b4_core::{Items, Rows, Trace, Vec4};
use bit_sets::Marks;
use std::alloc::{AllocError, Global};
use sv_source::Text;
use v_drives::BitRow;
use v_instances::{Slot, instances};
use v_modules::{names_stand_once, tables_of};
use v_processes::{Design, Found, processes_of};
use v_rules::Modules;
use v_stores::initial_store;
use v_tree::VDesign;
use v_zero::{given_store, start_store};

// Runs a circuit of these signals.
fn run_circuit(
    alloc: Global,
    circuit: Circuit<'_, '_>,
    slots: &[Slot],
    rows: &Rows,
) -> Result<Trace, RunFail>
    requires slots { map signal_of slots.now ≡ (parts circuit.design.now.modules circuit.top.now).signals }
    requires rows { RowsFit circuit.design.now circuit.top.now rows.now }
    ensures { RunGives circuit.entry.design.now circuit.entry.top.now rows.now result }
{
    match round_runner::run(alloc, &circuit, rows) {
        Ok(trace) => Ok(trace),
        Err(fail) => Err(failed(alloc, slots, fail)),
    }
}

// What the signals hold by themselves when the first row is settled, by the bits that processes may write.
#[tactic(auto, using(crate::proofs::Wholly::starting))]
fn start_by(alloc: Global, ground: Ground<'_, '_>, marks: &[Marks]) -> Result<Vec<Vec4>, AllocError>
    requires ground { IsGround ground }
    requires marks { MarksOf ground marks.now }
    ensures { IfOk result (λ v. Holds (widths_in ground.entry) (machine_in ground.entry).start v.items) }
{
    let mut store = copied(alloc, ground.given)?;
    start_store(ground.slots, marks, &mut store);
    Ok(store)
}

// What the signals hold by themselves when the first row is settled.
fn start_of(alloc: Global, ground: Ground<'_, '_>, row: &BitRow) -> Result<Vec<Vec4>, AllocError>
    requires ground { IsGround ground }
    requires row { row.now.widths ≡ widths_in ground }
    ensures { IfOk result (λ v. Holds (widths_in ground.entry) (machine_in ground.entry).start v.items) }
{
    let marks = marks_in(alloc, ground, row)?;
    start_by(alloc, ground, marks.as_slice())
}

// The signals that are the top's inputs, in port order.
#[tactic(auto, using(crate::proofs::Wholly::numbering))]
fn inputs_in(alloc: Global, ground: Ground<'_, '_>) -> Result<Items<usize>, AllocError>
    requires { IsGround ground }
    ensures { IfOk result (λ ns. ns ≡ top_inputs ground.entry.design.now ground.entry.top.now) }
{
    let design = Design {
        modules: ground.design.modules.as_slice(),
        numbers: ground.numbers,
        tables: ground.tables,
    };
    inputs_of(alloc, design, ground.top)
}

// Runs the processes of a design.
fn run_processes(
    alloc: Global,
    ground: Ground<'_, '_>,
    written: u64,
    start: &[Vec4],
    inputs: &[usize],
    rows: &Rows,
) -> Result<Trace, RunFail>
    requires ground { IsGround ground }
    requires written { written ≡ written_bits (machine_in ground).combs }
    requires start { Holds (widths_in ground) (machine_in ground).start start.now }
    requires inputs { inputs.now ≡ top_inputs ground.design.now ground.top.now }
    requires rows { RowsFit ground.design.now ground.top.now rows.now }
    ensures { RunGives ground.entry.design.now ground.entry.top.now rows.now result }
{
    let edges = edges_of(alloc, ground)?;
    let combs = combs_of(alloc, ground)?;
    let prints = prints_of(alloc, ground, combs.as_slice())?;
    let circuit = Circuit {
        design: ground.design,
        top: ground.top,
        tables: ground.tables,
        procs: ground.procs,
        combs: combs.as_slice(),
        prints: prints.as_slice(),
        edges: edges.as_slice(),
        inputs,
        initial: ground.initial,
        start,
        written,
    };
    run_circuit(alloc, circuit, ground.slots, rows)
}

// Runs a design, by what its signals hold at first.
fn run_ground(alloc: Global, ground: Ground<'_, '_>, rows: &Rows) -> Result<Trace, RunFail>
    requires ground { IsGround ground }
    requires rows { RowsFit ground.design.now ground.top.now rows.now }
    ensures { RunGives ground.entry.design.now ground.entry.top.now rows.now result }
{
    let row = row_in(alloc, ground.initial)?;
    let written = written_in(alloc, ground, &row)?;
    let start = start_of(alloc, ground, &row)?;
    let inputs = inputs_in(alloc, ground)?;
    run_processes(alloc, ground, written, &start, inputs.as_slice(), rows)
}

// Runs a design, by what its signals hold before the first row.
fn run_initially(
    alloc: Global,
    whole: Whole<'_, '_>,
    initial: &[Vec4],
    rows: &Rows,
) -> Result<Trace, RunFail>
    requires whole { IsWhole whole }
    requires initial { InitialIs whole initial.now }
    requires rows { RowsFit whole.design.now whole.top.now rows.now }
    ensures { RunGives whole.entry.design.now whole.entry.top.now rows.now result }
{
    let given = given_store(alloc, whole.found.initials.as_slice(), initial)?;
    let ground = Ground {
        design: whole.design,
        top: whole.top,
        numbers: whole.modules.numbers,
        tables: whole.modules.tables,
        procs: whole.found.procs.as_slice(),
        slots: whole.slots,
        initial,
        given: &given,
    };
    run_ground(alloc, ground, rows)
}

// Runs a design, by its signals and processes.
#[tactic(auto, using(crate::proofs::Wholly::at_first))]
fn run_whole(alloc: Global, whole: Whole<'_, '_>, rows: &Rows) -> Result<Trace, RunFail>
    requires whole { IsWhole whole }
    requires rows { RowsFit whole.design.now whole.top.now rows.now }
    ensures { RunGives whole.entry.design.now whole.entry.top.now rows.now result }
{
    let initial = initial_store(alloc, whole.slots)?;
    run_initially(alloc, whole, &initial, rows)
}

// Runs a design, by its processes.
fn run_found<'a>(
    alloc: Global,
    design: &VDesign,
    top: &Text,
    modules: Design<'a, '_>,
    found: &Found<'a>,
    rows: &Rows,
) -> Result<Trace, RunFail>
    requires runs { CanRun design.now top.now }
    requires modules { modules.modules.now ≡ design.now.modules }
    requires tabled { IsTabled modules }
    requires found { HasParts design.now.modules top.now found.now }
    requires rows { RowsFit design.now top.now rows.now }
    ensures { RunGives design.now top.now rows.now result }
{
    let walk = instances(alloc, design, top)?;
    let whole = Whole {
        design,
        top,
        modules,
        found,
        slots: walk.slots.as_slice(),
    };
    run_whole(alloc, whole, rows)
}

// Runs a design, by the tables of its modules.
fn run_tabled(
    alloc: Global,
    design: &VDesign,
    top: &Text,
    modules: Design<'_, '_>,
    rows: &Rows,
) -> Result<Trace, RunFail>
    requires runs { CanRun design.now top.now }
    requires modules { modules.modules.now ≡ design.now.modules }
    requires tabled { IsTabled modules }
    requires rows { RowsFit design.now top.now rows.now }
    ensures { RunGives design.now top.now rows.now result }
{
    let found = processes_of(alloc, modules, top)?;
    run_found(alloc, design, top, modules, &found, rows)
}

// Runs a design, by the numbers of its modules.
fn run_numbered(
    alloc: Global,
    design: &VDesign,
    top: &Text,
    numbers: &Modules,
    rows: &Rows,
) -> Result<Trace, RunFail>
    requires runs { CanRun design.now top.now }
    requires numbers { Tables numbers.now design.now.modules }
    requires rows { RowsFit design.now top.now rows.now }
    ensures { RunGives design.now top.now rows.now result }
{
    names_stand_once();
    let modules = design.modules.as_slice();
    let tables = tables_of(alloc, modules)?;
    let known = Design {
        modules,
        numbers,
        tables: tables.as_slice(),
    };
    run_tabled(alloc, design, top, known, rows)
}

/// The trace of the rows by rounds of the design, with the module `top` as its top (IEEE 1364-2005 clause 11): what each signal
/// holds after each row. Answers `RunFail::Unsettled` where there is none, and `RunFail::Memory` for want of memory alone.
pub fn run(alloc: Global, design: &VDesign, top: &Text, rows: &Rows) -> Result<Trace, RunFail>
    requires keeps { Keeps design.now }
    requires fits { FitsTop design.now top.now }
    requires few { few_of_design design.now ≡ true }
    requires rows { RowsFit design.now top.now rows.now }
    ensures { RunGives design.now top.now rows.now result }
{
    let numbers = Modules::of(alloc, design.modules.as_slice())?;
    run_numbered(alloc, design, top, &numbers, rows)
}
