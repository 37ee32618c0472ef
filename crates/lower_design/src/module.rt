//! The target design of a core design.

ghost use Rattle.std.specs.Prelude.{◌≡◌, ◌++◌, IfOk};
ghost use Rattle.lower_design.specs.Lowered.{AllFit, lowered, lowered_items, process_items};
ghost use Rattle.lower_design.specs.Lowering.{Lowers};
ghost use Rattle.lower_design.specs.Translatable.{Translatable};

use crate::declare::{declare, declare_trigger, port_names};
use crate::process::lower_process;
use std::alloc::{AllocError, Global};
use sv_core::{Design, Process, Signal};
use sv_source::Items;
use v_tree::{VDesign, VItem, VItems, VModule};

/// Processes in order.
fn lower_processes(
    alloc: Global,
    signals: &[Signal],
    processes: &[Process],
) -> Result<VItems, AllocError>
    requires { AllFit signals.now processes.now }
    ensures { IfOk result (λ items. items ≡ process_items signals.now processes.now) }
{
    let mut items = Items::new(alloc);
    for process in processes {
        let lowered = lower_process(alloc, signals, process)?;
        items.push(VItem::Process(lowered))?;
    }
    Ok(items)
}

/// The items of the module: the declarations of the signals, the trigger where it is needed, and the processes.
fn lower_items(
    alloc: Global,
    signals: &[Signal],
    processes: &[Process],
) -> Result<VItems, AllocError>
    requires { AllFit signals.now processes.now }
    ensures { IfOk result (λ items. items ≡ lowered_items signals.now processes.now) }
{
    let mut items = declare(alloc, signals, processes)?;
    items.append(declare_trigger(alloc, processes)?)?;
    items.append(lower_processes(alloc, signals, processes)?)?;
    Ok(items)
}

/// The one module of the target design.
pub fn lower_module(alloc: Global, d: &Design) -> Result<VDesign, AllocError>
    requires { AllFit d.now.signals d.now.processes }
    ensures { IfOk result (λ e. e ≡ lowered d.now) }
{
    let module = VModule {
        name: d.top.copy(alloc)?,
        ports: port_names(alloc, d.signals.as_slice())?,
        items: lower_items(alloc, d.signals.as_slice(), d.processes.as_slice())?,
    };
    let mut modules = Items::new(alloc);
    modules.push(module)?;
    Ok(VDesign { modules })
}

/// The target design of a core design: a module with the design's name and ports, a declaration for each signal
/// and a process for each process.
///
/// A continuous assignment becomes an `assign`, an `always_ff` an `always` with its edges, and an `always_comb` an
/// `always @*` that begins by reading the trigger `sv2v_t`, whose `initial` starts it at time zero (IEEE 1800-2017
/// clause 9.2.2.2.2). The error is want of memory.
pub fn lower(alloc: Global, d: &Design) -> Result<VDesign, AllocError>
    requires { Translatable d.now }
    ensures { IfOk result (λ e. Lowers d.now e) }
{
    lower_module(alloc, d)
}
