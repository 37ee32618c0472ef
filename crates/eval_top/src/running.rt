//! The run of a text over rows.

ghost use Rattle.std.specs.Prelude.{◌≡◌, ◌≤◌, true, IfOk};
ghost use Rattle.v_tree.specs.Rules.{Keeps, FitsTop};
ghost use Rattle.v_selects.specs.Few.{few_of_design};
ghost use Rattle.round_runner.specs.Rows.{FitRows};
ghost use Rattle.eval_top.specs.Asking as asking;
ghost use Rattle.eval_top.specs.Loading.{IsText, HasText};
ghost use Rattle.cycle_dst.specs.Designs.{widths_of};
ghost use Rattle.eval_top.specs.Running as running;
ghost use Rattle.eval_top.specs.Running.{inputs_of};
ghost use Rattle.eval_top.specs.Parts as parts;
ghost use Rattle.eval_top.specs.Parts.{TraceGives, LinesGive};
ghost use Rattle.eval_top.specs.Answers.{TextGives};

use crate::asking::first_path;
use crate::loading::{check_fit, design_of, load_file, rows_in};
use crate::run::Stop;
use b4_core::{Rows, Trace};
use cycle_dst::RunFail;
use eval_words::EvalRun;
use std::alloc::{AllocError, Global};
use stim_rows::{Shape, lines};
use sv_source::{Files, Text};
use text_shape::shape_of_text;
use v_reader::discard;
use v_tree::{VDesign, is_simple};

/// The most bytes of a text: 256 MiB.
const TEXT_LIMIT: u64 = 268_435_456;

/// The most bytes of a row file: 64 MiB.
const ROWS_LIMIT: u64 = 67_108_864;

// A name as it is shown.
fn shown(alloc: Global, name: Text) -> Result<Text, AllocError>
    ensures { IfOk result (λ text. text ≡ running.shown name) }
{
    if is_simple(name.as_bytes()) {
        return Ok(name);
    }
    let mut text = Text::from_bytes(alloc, b"\\")?;
    text.push_bytes(name.as_bytes())?;
    Ok(text)
}

// Why there is no output, where a run of rows has no trace.
fn stop_of(alloc: Global, fail: RunFail) -> Result<Stop, AllocError>
    ensures { IfOk result (λ stop. stop ≡ parts.stop_of fail) }
{
    match fail {
        RunFail::Memory => Ok(Stop::Memory),
        RunFail::Unsettled { row, name, .. } => {
            let name = shown(alloc, name)?;
            Ok(Stop::Unsettled(u64::from(row) + 1, name))
        }
    }
}

// The trace of rows.
fn trace_of(alloc: Global, design: &VDesign, top: &Text, rows: &Rows) -> Result<Trace, Stop>
    requires keeps { Keeps design.now }
    requires fits { FitsTop design.now top.now }
    requires selects { few_of_design design.now ≡ true }
    requires rows { FitRows (widths_of design.now top.now) (inputs_of design.now top.now) rows.now }
    ensures { TraceGives design.now top.now rows.now result }
{
    match cycle_dst::run(alloc, design, top, rows) {
        Ok(trace) => Ok(trace),
        Err(fail) => Err(stop_of(alloc, fail)?),
    }
}

// The lines of the trace of rows.
fn lines_of(
    alloc: Global,
    design: &VDesign,
    top: &Text,
    shape: &Shape,
    rows: &Rows,
) -> Result<Text, Stop>
    requires keeps { Keeps design.now }
    requires fits { FitsTop design.now top.now }
    requires selects { few_of_design design.now ≡ true }
    requires rows { FitRows (widths_of design.now top.now) (inputs_of design.now top.now) rows.now }
    ensures { LinesGive design.now top.now shape.now rows.now result }
{
    let trace = trace_of(alloc, design, top, rows)?;
    Ok(Text::from_vec(lines(alloc, shape, &trace)?))
}

// The lines of a design that can be run with the top.
fn run_over_rows<F: Files>(
    alloc: Global,
    run: &EvalRun,
    design: &VDesign,
    files: &mut F,
) -> Result<Text, Stop>
    requires { HasText run.now (F.contents files.old) design.now }
    ensures gives { TextGives run.now (F.contents files.old) (F.faults files.old) (F.faults files.new) result }
    ensures later { F.faults files.old ≤ F.faults files.new }
    ensures level { IfOk result (λ _. F.faults files.new ≡ F.faults files.old) }
{
    let bytes = load_file(alloc, files, &run.rows, ROWS_LIMIT, 1)?;
    let shape = shape_of_text(alloc, design, &run.top)?;
    let rows = rows_in(alloc, &run.rows, &shape, bytes.as_bytes())?;
    lines_of(alloc, design, &run.top, &shape, &rows)
}

// The lines of a design.
fn run_design<F: Files>(
    alloc: Global,
    run: &EvalRun,
    path: &Text,
    design: &VDesign,
    files: &mut F,
) -> Result<Text, Stop>
    requires text { IsText run.now (F.contents files.old) design.now }
    requires path { path.now ≡ asking.first_path run.now }
    ensures gives { TextGives run.now (F.contents files.old) (F.faults files.old) (F.faults files.new) result }
    ensures later { F.faults files.old ≤ F.faults files.new }
    ensures level { IfOk result (λ _. F.faults files.new ≡ F.faults files.old) }
{
    check_fit(alloc, path, design, &run.top)?;
    run_over_rows(alloc, run, design, files)
}

/// The lines of a run of a text: it is loaded, read and checked, and then its row file.
pub fn run_text<F: Files>(alloc: Global, run: &EvalRun, files: &mut F) -> Result<Text, Stop>
    ensures gives { TextGives run.now (F.contents files.old) (F.faults files.old) (F.faults files.new) result }
    ensures later { F.faults files.old ≤ F.faults files.new }
    ensures level { IfOk result (λ _. F.faults files.new ≡ F.faults files.old) }
{
    let path = first_path(alloc, run)?;
    let bytes = load_file(alloc, files, &path, TEXT_LIMIT, 0)?;
    let design = design_of(alloc, &path, bytes.as_bytes())?;
    let result = run_design(alloc, run, &path, &design, files);
    discard(design);
    result
}
