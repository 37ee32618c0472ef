//! Connections of ports (IEEE 1364-2005 clauses 12.3.6 and 12.3.9).

ghost use Rattle.std.specs.Prelude.{◌≡◌, ◌++◌, [], ◌∷◌, List, OnOk};
ghost use Rattle.std.specs.Option.{option_copied};
ghost use Rattle.v_tree.specs.declared.items.VModule.{VModule as ModuleTree};
ghost use Rattle.v_meaning.specs.Machine.{is_input};
ghost use Rattle.v_meaning.specs.Modules as means;
ghost use Rattle.v_meaning.specs.Scopes.{named, all_bits as bits_of_all};
ghost use Rattle.v_modules.specs.Tables.{items_of};
ghost use Rattle.v_processes.specs.Connections as spec;
ghost use Rattle.v_processes.specs.Processes.{processes_at, items_at};
ghost use Rattle.v_processes.specs.Stems.{sources_at, link_sources};

use crate::connected::lval_of;
use crate::process::{Does, Port, Proc, Procs};
use std::alloc::{AllocError, Global};
use sv_source::Text;
use v_eval::{all_bits, number_of};
use v_modules::{Table, names_input, scope_in};
use v_tree::{VConnection, VExpr};

/// An instance: the number of its module, and that of its first signal.
#[derive(Clone, Copy)]
pub struct Inst {
    /// The module.
    pub of: usize,
    /// The first signal.
    pub first: u32,
}

// The signal with a name of an instance whose signals are numbered from `first` on.
#[tactic(auto, using(crate::proofs::Kept::ports))]
fn signal_in(table: &Table<'_>, first: u32, name: &Text) -> Port
    ensures number { result.number ≡ (named (means.numbered first (means.signals (items_of table.now))) name.now).number }
    ensures bits { result.bits ≡ bits_of_all (named (means.numbered first (means.signals (items_of table.now))) name.now) }
{
    let found = scope_in(table, first).find(name);
    Port {
        number: number_of(found),
        bits: all_bits(found),
    }
}

// The same of an instance whose module may be none.
fn port_in(table: Option<&Table<'_>>, first: u32, name: &Text) -> Port
    ensures number { result.number ≡ (named (means.numbered first (spec.ports_of (option_copied table.entry))) name.now).number }
    ensures bits { result.bits ≡ bits_of_all (named (means.numbered first (spec.ports_of (option_copied table.entry))) name.now) }
{
    match table {
        None => Port { number: 0, bits: 0 },
        Some(table) => signal_in(table, first, name),
    }
}

// Whether the signal with a name is an input of a module that may be none.
fn is_input_in(table: Option<&Table<'_>>, name: &Text) -> bool
    ensures { result ≡ is_input (means.kind_of (spec.ports_of (option_copied table.entry)) name.now) }
{
    match table {
        None => false,
        Some(table) => names_input(table, name),
    }
}

// Adds the process that a connected expression is, if it is one.
fn connect<'a>(
    alloc: Global,
    own: Inst,
    port: Port,
    input: bool,
    value: &'a VExpr,
    to: &mut Procs<'a>,
) -> Result<(), AllocError>
    ensures processes { OnOk result ((ms : List ModuleTree) → processes_at ms to.new ≡ processes_at ms to.old ++ spec.connected input (means.scope_of own.first (items_at ms own.of)) port value.now) }
    ensures sources { OnOk result ((ms : List ModuleTree) → sources_at ms to.new ≡ sources_at ms to.old ++ spec.connected_source input (items_at ms own.of) port value.now) }
{
    if input {
        return to.push(Proc {
            of: own.of,
            first: own.first,
            does: Does::Into { port, value },
        });
    }
    match lval_of(alloc, value)? {
        None => Ok(()),
        Some(lval) => to.push(Proc {
            of: own.of,
            first: own.first,
            does: Does::From { to: lval, port },
        }),
    }
}

// Adds the process that a connection to a child is, if it is one.
fn add_connection<'a>(
    alloc: Global,
    own: Inst,
    child: Option<&Table<'_>>,
    first: u32,
    connection: &'a VConnection,
    to: &mut Procs<'a>,
) -> Result<(), AllocError>
    ensures processes { OnOk result ((ms : List ModuleTree) → processes_at ms to.new ≡ processes_at ms to.old ++ means.connections (means.scope_of own.first (items_at ms own.of)) first (spec.ports_of (option_copied child.entry)) (connection.now ∷ [])) }
    ensures sources { OnOk result ((ms : List ModuleTree) → sources_at ms to.new ≡ sources_at ms to.old ++ link_sources (items_at ms own.of) first (spec.ports_of (option_copied child.entry)) (connection.now ∷ [])) }
{
    match &connection.value {
        None => Ok(()),
        Some(value) => {
            let port = port_in(child, first, &connection.port);
            let input = is_input_in(child, &connection.port);
            connect(alloc, own, port, input, value, to)
        }
    }
}

/// Adds the processes that connections to a child are, whose signals are numbered from `first` on. Or want of memory.
pub fn add_connections<'a>(
    alloc: Global,
    own: Inst,
    child: Option<&Table<'_>>,
    first: u32,
    connections: &'a [VConnection],
    to: &mut Procs<'a>,
) -> Result<(), AllocError>
    ensures processes { OnOk result ((ms : List ModuleTree) → processes_at ms to.new ≡ processes_at ms to.old ++ means.connections (means.scope_of own.first (items_at ms own.of)) first (spec.ports_of (option_copied child.entry)) connections.now) }
    ensures sources { OnOk result ((ms : List ModuleTree) → sources_at ms to.new ≡ sources_at ms to.old ++ link_sources (items_at ms own.of) first (spec.ports_of (option_copied child.entry)) connections.now) }
{
    for connection in connections {
        add_connection(alloc, own, child, first, connection, to)?;
    }
    Ok(())
}
