//! Declarations of signals.

ghost use Rattle.std.specs.Prelude.{◌≡◌, ◌<◌, ◌||◌, ℕ, [], ◌∷◌, ◌++◌, map, filter, length, slice_index_or, replicate, false, None, IfOk};
ghost use Rattle.std.specs.List.{list_any};
ghost use Rattle.sv_core.specs.declared.design.Process.{Process as DesignProcess};
ghost use Rattle.sv_core.specs.declared.design.Signal.{Signal as DesignSignal};
ghost use Rattle.b4_core.specs.declared.bit.Bit4.TheVariants.{Zero};
ghost use Rattle.v_tree.specs.declared.items.VSignal.TheVariants.{Reg};
ghost use Rattle.lower_design.specs.Shape.{is_port, trigger};
ghost use Rattle.lower_design.specs.Lowered.{declaration_of, declarations, drives, is_driven, is_triggered, range_of, trigger_items};
ghost use Rattle.lower_design.specs.Translatable.{path_of};

use b4_core::{Bit4, Vec4};
use std::alloc::{AllocError, Global};
use sv_core::{Process, ProcessKind, Signal, SignalKind, Stmt};
use sv_source::{Items, Text};
use v_tree::{Texts, VInitial, VItem, VItems, VSignal};

/// Whether a signal of the kind is a port.
fn is_port(kind: SignalKind) -> bool
    ensures { result ≡ is_port kind }
{
    match kind {
        SignalKind::InputNet => true,
        SignalKind::OutputVar => true,
        SignalKind::Variable => false,
    }
}

/// The names of the ports.
pub fn port_names(alloc: Global, signals: &[Signal]) -> Result<Texts, AllocError>
    ensures { IfOk result (λ names. names ≡ map path_of (filter (λ (s : DesignSignal). is_port s.kind) signals.now)) }
{
    let mut names = Items::new(alloc);
    for signal in signals {
        if is_port(signal.kind) {
            names.push(signal.path.copy(alloc)?)?;
        }
    }
    Ok(names)
}

/// Marks the signal that a process drives, if it is a continuous assignment.
fn mark(driven: &mut Items<bool>, process: &Process)
    ensures same_length { length driven.new ≡ length driven.old }
    ensures marked { (n : ℕ) → n < length driven.old → slice_index_or driven.new n false ≡ (slice_index_or driven.old n false || drives process.now n) }
{
    if let ProcessKind::Continuous = &process.kind {
        if let Stmt::Assign { to, .. } = &process.body {
            let at = *to as usize;
            if at < driven.len() {
                driven.set(at, true);
            }
        }
    }
}

/// Which signals continuous assignments drive, by their numbers below `count`.
fn driven_signals(
    alloc: Global,
    count: usize,
    processes: &[Process],
) -> Result<Items<bool>, AllocError>
    ensures same_length { IfOk result (λ driven. length driven ≡ count) }
    ensures marked { IfOk result (λ driven. (n : ℕ) → n < count → slice_index_or driven n false ≡ is_driven processes.now n) }
{
    let mut driven = Items::new(alloc);
    for _ in 0..count {
        driven.push(false)?;
    }
    for process in processes {
        mark(&mut driven, process);
    }
    Ok(driven)
}

/// The left bound of the range of a signal: one bit has no range.
fn range(width: u32) -> Option<u32>
    ensures { result ≡ range_of width }
{
    if width == 1 {
        None
    } else {
        Some(width.saturating_sub(1))
    }
}

/// The declaration of a signal: a net if a continuous assignment drives it, else a `reg`.
fn declaration(alloc: Global, signal: &Signal, driven: bool) -> Result<VSignal, AllocError>
    ensures { IfOk result (λ declared. declared ≡ declaration_of driven signal.now) }
{
    let name = signal.path.copy(alloc)?;
    let range = range(signal.width);
    Ok(match signal.kind {
        SignalKind::InputNet => VSignal::Input { range, name },
        SignalKind::OutputVar if driven => VSignal::Output { range, name },
        SignalKind::OutputVar => VSignal::OutputReg {
            range,
            name,
            initial: None,
        },
        SignalKind::Variable if driven => VSignal::Wire { range, name },
        SignalKind::Variable => VSignal::Reg {
            range,
            name,
            rest: None,
        },
    })
}

/// The declarations of the signals, in order.
pub fn declare(
    alloc: Global,
    signals: &[Signal],
    processes: &[Process],
) -> Result<VItems, AllocError>
    ensures { IfOk result (λ items. items ≡ declarations (is_driven processes.now) 0 signals.now) }
{
    let driven = driven_signals(alloc, signals.len(), processes)?;
    let driven = driven.as_slice();
    let mut items = Items::new(alloc);
    for (n, signal) in signals.iter().enumerate() {
        let declared = declaration(alloc, signal, driven[n])?;
        items.push(VItem::Signal(declared))?;
    }
    Ok(items)
}

/// Whether a process is an `always_comb`.
fn is_comb(process: &Process) -> bool
    ensures { result ≡ is_triggered process.now.kind }
{
    match &process.kind {
        ProcessKind::Continuous => false,
        ProcessKind::Comb => true,
        ProcessKind::Edges(_) => false,
    }
}

/// Whether one of the processes is an `always_comb`.
fn needs_trigger(processes: &[Process]) -> bool
    ensures { result ≡ list_any (λ (p : DesignProcess). is_triggered p.kind) processes.now }
{
    for process in processes {
        if is_comb(process) {
            return true;
        }
    }
    false
}

/// `reg sv2v_t;`
fn trigger_signal(alloc: Global) -> Result<VSignal, AllocError>
    ensures { IfOk result (λ declared. declared ≡ Reg None trigger None) }
{
    let name = Text::from_bytes(alloc, b"sv2v_t")?;
    Ok(VSignal::Reg {
        range: None,
        name,
        rest: None,
    })
}

/// `initial sv2v_t <= 1'b0;`
fn trigger_value(alloc: Global) -> Result<VInitial, AllocError>
    ensures { IfOk result (λ value. value ≡ record { name = trigger; value = Zero ∷ [] }) }
{
    let name = Text::from_bytes(alloc, b"sv2v_t")?;
    let value = Vec4::from_slice(alloc, &[Bit4::Zero])?;
    Ok(VInitial { name, value })
}

/// Where there is an `always_comb`: the `reg` that starts it at time zero, and the `initial` that changes it then.
pub fn declare_trigger(alloc: Global, processes: &[Process]) -> Result<VItems, AllocError>
    ensures { IfOk result (λ items. items ≡ trigger_items (list_any (λ (p : DesignProcess). is_triggered p.kind) processes.now)) }
{
    let mut items = Items::new(alloc);
    if needs_trigger(processes) {
        items.push(VItem::Signal(trigger_signal(alloc)?))?;
        items.push(VItem::Initial(trigger_value(alloc)?))?;
    }
    Ok(items)
}
