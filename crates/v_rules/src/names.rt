//! The names that the items of a module declare (IEEE 1364-2005 clause 12.7), and its ports.

ghost use Rattle.std.specs.Prelude.{◌≡◌, OnOk, IfOk};
ghost use Rattle.v_scopes.specs.Env.{found};
ghost use Rattle.v_stmt_rules.specs.Stmts.{nothing};
ghost use Rattle.v_rules.specs.ModuleNames as means;

use std::alloc::{AllocError, Global};
use v_block_names::declare_parts;
use v_scopes::{Entry, Kind, Scope};
use v_stmt_rules::branch_labels;
use v_tree::{Texts, VItem, VProcess, VRegRest, VSignal};

// A signal that holds a value.
fn value(kind: Kind, left: Option<u32>) -> Entry
    ensures { result ≡ means.value_of kind left }
{
    Entry::Value { kind, left }
}

// A variable, or a memory.
fn reg_entry(range: Option<u32>, rest: &Option<VRegRest>) -> Entry
    ensures { result ≡ means.reg_entry range rest.now }
{
    match rest {
        None => value(Kind::Variable, range),
        Some(VRegRest::Memory(_)) => Entry::Memory { left: range },
        Some(VRegRest::Initial(_)) => value(Kind::Variable, range),
    }
}

// Declares a signal.
fn declare_signal(alloc: Global, scope: &mut Scope, signal: &VSignal) -> Result<(), AllocError>
    ensures { OnOk result (found scope.new ≡ means.signal_given signal.now (found scope.old)) }
{
    match signal {
        VSignal::Input { range, name } => scope.declare(alloc, name, value(Kind::Input, *range)),
        VSignal::Output { range, name } => scope.declare(alloc, name, value(Kind::Net, *range)),
        VSignal::OutputReg {
            range,
            name,
            initial: _,
        } => scope.declare(alloc, name, value(Kind::Variable, *range)),
        VSignal::Wire { range, name } => scope.declare(alloc, name, value(Kind::Net, *range)),
        VSignal::Reg { range, name, rest } => scope.declare(alloc, name, reg_entry(*range, rest)),
    }
}

// Declares the blocks of a process.
fn declare_process(alloc: Global, scope: &mut Scope, process: &VProcess) -> Result<(), AllocError>
    ensures { OnOk result (found scope.new ≡ means.process_given process.now (found scope.old)) }
{
    match process {
        VProcess::Assign {
            target: _,
            value: _,
        } => Ok(()),
        VProcess::Always { on: _, body } => {
            let mut names = Texts::new(alloc);
            branch_labels(alloc, body, &mut names)?;
            declare_parts(alloc, scope, names.as_slice())
        }
    }
}

// Declares what an item declares, which has this number.
fn declare_item(
    alloc: Global,
    scope: &mut Scope,
    number: usize,
    item: &VItem,
) -> Result<(), AllocError>
    ensures { OnOk result (found scope.new ≡ means.item_given number item.now (found scope.old)) }
{
    match item {
        VItem::Signal(signal) => declare_signal(alloc, scope, signal),
        VItem::Initial(_) => Ok(()),
        VItem::Process(process) => declare_process(alloc, scope, process),
        VItem::Function(function) => {
            let entry = Entry::Function {
                left: function.range,
                item: number,
            };
            scope.declare(alloc, &function.name, entry)
        }
        VItem::Instance(instance) => scope.declare(alloc, &instance.name, Entry::Part),
    }
}

/// What names stand for in a module of these items; of two with one name the first one counts. Or want of memory.
pub fn module_scope(alloc: Global, items: &[VItem]) -> Result<Scope, AllocError>
    ensures { IfOk result (λ scope. found scope ≡ means.items_given 0 items.now nothing) }
{
    let mut scope = Scope::new(alloc);
    let mut at = items.len();
    while at > 0 {
        at -= 1;
        declare_item(alloc, &mut scope, at, &items[at])?;
    }
    Ok(scope)
}

// Declares a port.
fn declare_port(alloc: Global, ports: &mut Scope, item: &VItem) -> Result<(), AllocError>
    ensures { OnOk result (found ports.new ≡ means.port_given item.now (found ports.old)) }
{
    match item {
        VItem::Signal(VSignal::Input { range, name }) => {
            ports.declare(alloc, name, value(Kind::Input, *range))
        }
        VItem::Signal(VSignal::Output { range, name }) => {
            ports.declare(alloc, name, value(Kind::Net, *range))
        }
        VItem::Signal(
            VSignal::OutputReg {
                range,
                name,
                initial: _,
            },
        ) => ports.declare(alloc, name, value(Kind::Net, *range)),
        VItem::Signal(VSignal::Wire { range: _, name: _ }) => Ok(()),
        VItem::Signal(
            VSignal::Reg {
                range: _,
                name: _,
                rest: _,
            },
        ) => Ok(()),
        VItem::Initial(_) => Ok(()),
        VItem::Process(_) => Ok(()),
        VItem::Function(_) => Ok(()),
        VItem::Instance(_) => Ok(()),
    }
}

/// The ports of a module of these items, as inputs and other nets; of two with one name the first one counts. Or want of memory.
pub(crate) fn module_ports(alloc: Global, items: &[VItem]) -> Result<Scope, AllocError>
    ensures { IfOk result (λ ports. found ports ≡ means.ports_given items.now nothing) }
{
    let mut ports = Scope::new(alloc);
    let mut at = items.len();
    while at > 0 {
        at -= 1;
        declare_port(alloc, &mut ports, &items[at])?;
    }
    Ok(ports)
}
