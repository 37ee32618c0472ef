//! The tokens of processes, functions and signals of an instance.

ghost use Rattle.std.specs.Prelude.{◌≡◌, None, map, option_copied};
ghost use Rattle.break_spots.specs.Walk as spec;

use crate::exprs::look;
use crate::stmts::in_stmt;
use sv_source::Spot;
use sv_types::{Design, EdgeOn, Formal, Function, FunctionKind, Process, ProcessKind, Signal};

fn in_edges<'a>(edges: &'a [EdgeOn], at: u32, found: Option<&'a Spot>) -> Option<&'a Spot>
    ensures { option_copied result ≡ spec.edges_walk at edges.now (option_copied found.entry) }
{
    let mut first = found;
    for edge in edges {
        first = look(&edge.spot, at, first);
    }
    first
}

fn in_kind<'a>(kind: &'a ProcessKind, at: u32, found: Option<&'a Spot>) -> Option<&'a Spot>
    ensures { option_copied result ≡ spec.kind_walk at kind.now (option_copied found.entry) }
{
    match kind {
        ProcessKind::Continuous => found,
        ProcessKind::Link(_) => found,
        ProcessKind::Comb => found,
        ProcessKind::Latch => found,
        ProcessKind::Star => found,
        ProcessKind::Edges(edges) => in_edges(edges.as_slice(), at, found),
    }
}

fn in_process<'a>(process: &'a Process, at: u32, found: Option<&'a Spot>) -> Option<&'a Spot>
    ensures { option_copied result ≡ spec.process_walk at process.now (option_copied found.entry) }
{
    let first = in_kind(&process.kind, at, look(&process.spot, at, found));
    in_stmt(&process.body, at, first)
}

fn in_spots<'a>(spots: &'a [Spot], at: u32, found: Option<&'a Spot>) -> Option<&'a Spot>
    ensures { option_copied result ≡ spec.spots_walk at spots.now (option_copied found.entry) }
{
    let mut first = found;
    for spot in spots {
        first = look(spot, at, first);
    }
    first
}

fn in_result<'a>(kind: &'a FunctionKind, at: u32, found: Option<&'a Spot>) -> Option<&'a Spot>
    ensures { option_copied result ≡ spec.result_walk at kind.now (option_copied found.entry) }
{
    match kind {
        FunctionKind::Plain => found,
        FunctionKind::Routine => found,
        FunctionKind::Made(spots) => in_spots(spots.as_slice(), at, found),
    }
}

fn in_formals<'a>(formals: &'a [Formal], at: u32, found: Option<&'a Spot>) -> Option<&'a Spot>
    ensures { option_copied result ≡ spec.formals_walk at formals.now (option_copied found.entry) }
{
    let mut first = found;
    for formal in formals {
        first = look(&formal.spot, at, first);
    }
    first
}

fn in_function<'a>(function: &'a Function, at: u32, found: Option<&'a Spot>) -> Option<&'a Spot>
    ensures { option_copied result ≡ spec.function_walk at function.now (option_copied found.entry) }
{
    let first = in_result(&function.kind, at, look(&function.spot, at, found));
    let first = in_formals(function.formals.as_slice(), at, first);
    in_stmt(&function.body, at, first)
}

// In the text of an instance.
fn in_processes<'a>(
    processes: &'a [Process],
    instance: u32,
    at: u32,
    found: Option<&'a Spot>,
) -> Option<&'a Spot>
    ensures { option_copied result ≡ spec.in_turn (map (spec.process_here at instance) processes.now) (option_copied found.entry) }
{
    let mut first = found;
    for process in processes {
        if instance == process.instance {
            first = in_process(process, at, first);
        }
    }
    first
}

fn in_functions<'a>(
    functions: &'a [Function],
    instance: u32,
    at: u32,
    found: Option<&'a Spot>,
) -> Option<&'a Spot>
    ensures { option_copied result ≡ spec.in_turn (map (spec.function_here at instance) functions.now) (option_copied found.entry) }
{
    let mut first = found;
    for function in functions {
        if instance == function.instance {
            first = in_function(function, at, first);
        }
    }
    first
}

fn in_signals<'a>(
    signals: &'a [Signal],
    instance: u32,
    at: u32,
    found: Option<&'a Spot>,
) -> Option<&'a Spot>
    ensures { option_copied result ≡ spec.in_turn (map (spec.signal_here at instance) signals.now) (option_copied found.entry) }
{
    let mut first = found;
    for signal in signals {
        if instance == signal.instance {
            first = look(&signal.spot, at, first);
        }
    }
    first
}

/// The first spot at a token of an instance's text: of its processes, then of its functions, then of its signals.
pub(crate) fn spot_in(design: &Design, instance: u32, at: u32) -> Option<&Spot>
    ensures { option_copied result ≡ spec.design_walk at instance design.now None }
{
    let first = in_processes(design.processes.as_slice(), instance, at, None);
    let first = in_functions(design.functions.as_slice(), instance, at, first);
    in_signals(design.signals.as_slice(), instance, at, first)
}
