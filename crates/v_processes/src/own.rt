//! What an instance has itself.

ghost use Rattle.std.specs.Prelude.{◌≡◌, ◌+◌, ◌++◌, [], ◌∷◌, map, OnOk, IfOk};
ghost use Rattle.v_meaning.specs.Modules as means;
ghost use Rattle.v_eval.specs.Scopes.{scope_of};
ghost use Rattle.v_processes.specs.Processes.{processes_at, items_at};
ghost use Rattle.v_processes.specs.Stems.{sources_at, process_source, link_sources, own_sources};
ghost use Rattle.v_processes.specs.Walks.{IsTabled, initials_of};

use crate::counting::signal_count;
use crate::design::Design;
use crate::found::{Initial, Initials};
use crate::making::does_of;
use crate::naming::table_named;
use crate::ports::{Inst, add_connections};
use crate::process::{Proc, Procs};
use std::alloc::{AllocError, Global};
use v_eval::{Scope, added, number_of};
use v_tree::{VInstance, VItem, VProcess};

// A number as a short one, which memory runs out before.
pub(crate) fn short(n: usize) -> Result<u32, AllocError>
    ensures { IfOk result (λ k. k ≡ n) }
{
    match u32::try_from(n) {
        Ok(n) => Ok(n),
        Err(_) => Err(AllocError),
    }
}

// Adds a process of an instance.
fn add_process<'a>(
    alloc: Global,
    design: Design<'a, '_>,
    own: Inst,
    scope: Scope<'_>,
    process: &'a VProcess,
    to: &mut Procs<'a>,
) -> Result<(), AllocError>
    requires { scope_of scope ≡ means.scope_of own.first (items_at design.modules.now own.of) }
    ensures processes { OnOk result (processes_at design.entry.modules.now to.new ≡ processes_at design.entry.modules.now to.old ++ means.process_of (means.scope_of own.first (items_at design.entry.modules.now own.of)) process.now ∷ []) }
    ensures sources { OnOk result (sources_at design.entry.modules.now to.new ≡ sources_at design.entry.modules.now to.old ++ process_source (items_at design.entry.modules.now own.of) process.now ∷ []) }
{
    let _modules = design.modules;
    let does = does_of(alloc, scope, process)?;
    to.push(Proc {
        of: own.of,
        first: own.first,
        does,
    })
}

// Adds the connections of a child, whose signals are numbered from n on and in which instances are so deep, and gives the number
// behind its signals.
fn add_child<'a>(
    alloc: Global,
    design: Design<'a, '_>,
    depth: usize,
    own: Inst,
    instance: &'a VInstance,
    n: usize,
    to: &mut Procs<'a>,
) -> Result<usize, AllocError>
    requires { IsTabled design }
    ensures processes { OnOk result (processes_at design.entry.modules.now to.new ≡ processes_at design.entry.modules.now to.old ++ means.connections (means.scope_of own.first (items_at design.entry.modules.now own.of)) n (means.signals (means.items_of design.entry.modules.now instance.now.of)) instance.now.connections) }
    ensures sources { OnOk result (sources_at design.entry.modules.now to.new ≡ sources_at design.entry.modules.now to.old ++ link_sources (items_at design.entry.modules.now own.of) n (means.signals (means.items_of design.entry.modules.now instance.now.of)) instance.now.connections) }
    ensures next { IfOk result (λ m. m ≡ n + means.signal_count depth design.entry.modules.now instance.now.of) }
{
    let first = short(n)?;
    let child = table_named(design, &instance.of);
    let connections = instance.connections.as_slice();
    add_connections(alloc, own, child, first, connections, to)?;
    added(n, signal_count(design, depth, &instance.of)?)
}

// Adds the processes that an item of an instance is, and gives the number of the next child's first signal.
#[tactic(auto, using(crate::proofs::ItemParts::own))]
fn add_item<'a>(
    alloc: Global,
    design: Design<'a, '_>,
    depth: usize,
    own: Inst,
    scope: Scope<'_>,
    item: &'a VItem,
    n: usize,
    to: &mut Procs<'a>,
) -> Result<usize, AllocError>
    requires tabled { IsTabled design }
    requires scope { scope_of scope ≡ means.scope_of own.first (items_at design.modules.now own.of) }
    ensures processes { OnOk result (processes_at design.entry.modules.now to.new ≡ processes_at design.entry.modules.now to.old ++ means.processes design.entry.modules.now (means.signal_count depth design.entry.modules.now) (means.scope_of own.first (items_at design.entry.modules.now own.of)) n (item.now ∷ [])) }
    ensures sources { OnOk result (sources_at design.entry.modules.now to.new ≡ sources_at design.entry.modules.now to.old ++ own_sources design.entry.modules.now (means.signal_count depth design.entry.modules.now) (items_at design.entry.modules.now own.of) n (item.now ∷ [])) }
    ensures next { IfOk result (λ m. m ≡ n + means.below (means.signal_count depth design.entry.modules.now) (item.now ∷ [])) }
{
    match item {
        VItem::Signal(_) => Ok(n),
        VItem::Initial(_) => Ok(n),
        VItem::Process(process) => {
            add_process(alloc, design, own, scope, process, to)?;
            Ok(n)
        }
        VItem::Function(_) => Ok(n),
        VItem::Instance(instance) => add_child(alloc, design, depth, own, instance, n, to),
    }
}

/// Adds the processes of an instance itself, its first child's signals being numbered from `n` on. Or want of memory.
pub fn add_processes<'a>(
    alloc: Global,
    design: Design<'a, '_>,
    depth: usize,
    own: Inst,
    scope: Scope<'_>,
    items: &'a [VItem],
    n: usize,
    to: &mut Procs<'a>,
) -> Result<(), AllocError>
    requires tabled { IsTabled design }
    requires scope { scope_of scope ≡ means.scope_of own.first (items_at design.modules.now own.of) }
    ensures processes { OnOk result (processes_at design.entry.modules.now to.new ≡ processes_at design.entry.modules.now to.old ++ means.processes design.entry.modules.now (means.signal_count depth design.entry.modules.now) (means.scope_of own.first (items_at design.entry.modules.now own.of)) n items.now) }
    ensures sources { OnOk result (sources_at design.entry.modules.now to.new ≡ sources_at design.entry.modules.now to.old ++ own_sources design.entry.modules.now (means.signal_count depth design.entry.modules.now) (items_at design.entry.modules.now own.of) n items.now) }
{
    let mut next = n;
    for item in items {
        next = add_item(alloc, design, depth, own, scope, item, next, to)?;
    }
    Ok(())
}

// Adds the initial value that an item is, if it is one.
#[tactic(auto, using(crate::proofs::Kept::edges))]
fn add_initial<'a>(
    scope: Scope<'_>,
    item: &'a VItem,
    to: &mut Initials<'a>,
) -> Result<(), AllocError>
    ensures { OnOk result (initials_of to.new ≡ initials_of to.old ++ means.initials (scope_of scope.entry) (item.now ∷ [])) }
{
    match item {
        VItem::Signal(_) => Ok(()),
        VItem::Initial(initial) => to.push(Initial {
            number: number_of(scope.find(&initial.name)),
            value: &initial.value,
        }),
        VItem::Process(_) => Ok(()),
        VItem::Function(_) => Ok(()),
        VItem::Instance(_) => Ok(()),
    }
}

/// Adds the initial values in an instance itself. Or want of memory.
pub fn add_initials<'a>(
    scope: Scope<'_>,
    items: &'a [VItem],
    to: &mut Initials<'a>,
) -> Result<(), AllocError>
    ensures { OnOk result (initials_of to.new ≡ initials_of to.old ++ means.initials (scope_of scope.entry) items.now) }
{
    for item in items {
        add_initial(scope, item, to)?;
    }
    Ok(())
}
