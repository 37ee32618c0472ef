//! The walk over the instances of a design.

ghost use Rattle.std.specs.Prelude.{◌≡◌, ◌+◌, ◌++◌, [], ◌∷◌, OnOk, IfOk};
ghost use Rattle.v_meaning.specs.Modules as means;
ghost use Rattle.v_modules.specs.Tables.{items_of};
ghost use Rattle.v_processes.specs.Processes.{processes_at, items_at};
ghost use Rattle.v_processes.specs.Stems.{sources_at, own_sources, sources_from};
ghost use Rattle.v_processes.specs.Walks.{IsTabled, initials_of, module_parts, child_parts, module_sources, below_sources, HasParts};

use crate::counting::signal_count;
use crate::design::Design;
use crate::found::{Found, Initials};
use crate::naming::number_named;
use crate::own::{add_initials, add_processes, short};
use crate::ports::Inst;
use crate::process::Procs;
use std::alloc::{AllocError, Global};
use sv_source::{Text, at};
use v_eval::added;
use v_modules::{Table, scope_in};
use v_tree::VItem;

// Adds what an instance of a module with this table has itself.
fn add_own<'a>(
    alloc: Global,
    design: Design<'a, '_>,
    depth: usize,
    own: Inst,
    table: &Table<'a>,
    behind: usize,
    to: &mut Found<'a>,
) -> Result<(), AllocError>
    requires tabled { IsTabled design }
    requires table { items_of table.now ≡ items_at design.modules.now own.of }
    ensures processes { OnOk result (processes_at design.entry.modules.now to.new.procs ≡ processes_at design.entry.modules.now to.old.procs ++ means.processes design.entry.modules.now (means.signal_count depth design.entry.modules.now) (means.scope_of own.first (items_at design.entry.modules.now own.of)) behind (items_at design.entry.modules.now own.of)) }
    ensures sources { OnOk result (sources_at design.entry.modules.now to.new.procs ≡ sources_at design.entry.modules.now to.old.procs ++ own_sources design.entry.modules.now (means.signal_count depth design.entry.modules.now) (items_at design.entry.modules.now own.of) behind (items_at design.entry.modules.now own.of)) }
    ensures initials { OnOk result (initials_of to.new.initials ≡ initials_of to.old.initials ++ means.initials (means.scope_of own.first (items_at design.entry.modules.now own.of)) (items_at design.entry.modules.now own.of)) }
{
    let items = table.names.items;
    let scope = scope_in(table, own.first);
    add_processes(
        alloc,
        design,
        depth,
        own,
        scope,
        items,
        behind,
        &mut to.procs,
    )?;
    add_initials(scope, items, &mut to.initials)
}

// Adds what an instance of the module with a number has, and the instances in it, which are so deep.
#[cycle(enter)]
#[tactic(auto, using(crate::proofs::Entering::entering))]
fn enter_module<'a>(
    alloc: Global,
    design: Design<'a, '_>,
    depth: usize,
    of: usize,
    n: usize,
    to: &mut Found<'a>,
) -> Result<(), AllocError>
    requires { IsTabled design }
    ensures processes { OnOk result (processes_at design.entry.modules.now to.new.procs ≡ processes_at design.entry.modules.now to.old.procs ++ (module_parts depth design.entry.modules.now n (items_at design.entry.modules.now of)).processes) }
    ensures sources { OnOk result (sources_at design.entry.modules.now to.new.procs ≡ sources_at design.entry.modules.now to.old.procs ++ module_sources depth design.entry.modules.now n (items_at design.entry.modules.now of)) }
    ensures initials { OnOk result (initials_of to.new.initials ≡ initials_of to.old.initials ++ (module_parts depth design.entry.modules.now n (items_at design.entry.modules.now of)).initials) }
{
    match at(design.tables, of) {
        None => Ok(()),
        Some(table) => {
            let first = short(n)?;
            let own = Inst { of, first };
            let behind = added(n, table.inputs.len())?;
            add_own(alloc, design, depth, own, table, behind, to)?;
            enter_children(alloc, design, depth, table.names.items, behind, to)
        }
    }
}

// Adds what an instance of the module with a name has, and the instances in it, which are so deep.
#[cycle(enter)]
#[tactic(auto, using(crate::proofs::Entering::entering))]
fn enter<'a>(
    alloc: Global,
    design: Design<'a, '_>,
    depth: usize,
    name: &Text,
    n: usize,
    to: &mut Found<'a>,
) -> Result<(), AllocError>
    requires { IsTabled design }
    ensures processes { OnOk result (processes_at design.entry.modules.now to.new.procs ≡ processes_at design.entry.modules.now to.old.procs ++ (means.parts_from depth design.entry.modules.now n name.now).processes) }
    ensures sources { OnOk result (sources_at design.entry.modules.now to.new.procs ≡ sources_at design.entry.modules.now to.old.procs ++ sources_from depth design.entry.modules.now n name.now) }
    ensures initials { OnOk result (initials_of to.new.initials ≡ initials_of to.old.initials ++ (means.parts_from depth design.entry.modules.now n name.now).initials) }
{
    if depth == 0 {
        return Ok(());
    }
    match number_named(design, name) {
        None => Ok(()),
        Some(of) => enter_module(alloc, design, depth - 1, of, n, to),
    }
}

// Adds what the child has that an item is, if it is one, and gives the number behind its signals.
#[cycle(enter)]
#[tactic(auto, using(crate::proofs::ItemParts::own))]
fn enter_child<'a>(
    alloc: Global,
    design: Design<'a, '_>,
    depth: usize,
    item: &'a VItem,
    n: usize,
    to: &mut Found<'a>,
) -> Result<usize, AllocError>
    requires { IsTabled design }
    ensures processes { OnOk result (processes_at design.entry.modules.now to.new.procs ≡ processes_at design.entry.modules.now to.old.procs ++ (child_parts depth design.entry.modules.now n (item.now ∷ [])).processes) }
    ensures sources { OnOk result (sources_at design.entry.modules.now to.new.procs ≡ sources_at design.entry.modules.now to.old.procs ++ below_sources depth design.entry.modules.now n (item.now ∷ [])) }
    ensures initials { OnOk result (initials_of to.new.initials ≡ initials_of to.old.initials ++ (child_parts depth design.entry.modules.now n (item.now ∷ [])).initials) }
    ensures next { IfOk result (λ m. m ≡ n + means.below (means.signal_count depth design.entry.modules.now) (item.now ∷ [])) }
{
    match item {
        VItem::Signal(_) => Ok(n),
        VItem::Initial(_) => Ok(n),
        VItem::Process(_) => Ok(n),
        VItem::Function(_) => Ok(n),
        VItem::Instance(instance) => {
            enter(alloc, design, depth, &instance.of, n, to)?;
            added(n, signal_count(design, depth, &instance.of)?)
        }
    }
}

// Adds what the children among items have, whose signals are numbered from n on, and the instances in them.
#[cycle(enter)]
fn enter_children<'a>(
    alloc: Global,
    design: Design<'a, '_>,
    depth: usize,
    items: &'a [VItem],
    n: usize,
    to: &mut Found<'a>,
) -> Result<(), AllocError>
    requires { IsTabled design }
    ensures processes { OnOk result (processes_at design.entry.modules.now to.new.procs ≡ processes_at design.entry.modules.now to.old.procs ++ (child_parts depth design.entry.modules.now n items.now).processes) }
    ensures sources { OnOk result (sources_at design.entry.modules.now to.new.procs ≡ sources_at design.entry.modules.now to.old.procs ++ below_sources depth design.entry.modules.now n items.now) }
    ensures initials { OnOk result (initials_of to.new.initials ≡ initials_of to.old.initials ++ (child_parts depth design.entry.modules.now n items.now).initials) }
{
    let mut next = n;
    for item in items {
        next = enter_child(alloc, design, depth, item, next, to)?;
    }
    Ok(())
}

/// The processes and initial values of a design from its top down. A name that no module has stands for a module without items;
/// of two modules with one name the first counts. Or want of memory.
pub fn processes_of<'a>(
    alloc: Global,
    design: Design<'a, '_>,
    top: &Text,
) -> Result<Found<'a>, AllocError>
    requires { IsTabled design }
    ensures { IfOk result (HasParts design.entry.modules.now top.now) }
{
    let mut found = Found {
        procs: Procs::new(alloc),
        initials: Initials::new(alloc),
    };
    enter(alloc, design, design.modules.len(), top, 0, &mut found)?;
    Ok(found)
}
