//! The walk over the instances of a design.

ghost use Rattle.std.specs.Prelude.{◌≡◌, ◌++◌, [], ◌∷◌, length, map, IfOk, OnOk};
ghost use Rattle.v_meaning.specs.Modules as means;
ghost use Rattle.v_rules.specs.Tables.{Tables, numbers_in};
ghost use Rattle.v_instances.specs.Instances.{child_instances, instances_from};
ghost use Rattle.v_instances.specs.Slots.{signal_of};
ghost use Rattle.v_instances.specs.Walks as spec;

use crate::slots::{Slots, slot_of};
use b4_core::Items;
use std::alloc::{AllocError, Global};
use sv_source::{Text, at};
use v_rules::Modules;
use v_tree::{VDesign, VItem, VModule};

/// An instance of a design.
#[derive(Clone, Copy, PartialEq, Eq, Debug)]
pub struct VInst {
    /// The number of its module, if there is one with the name.
    pub of: Option<usize>,
    /// The number of its first signal.
    pub first: usize,
}

/// Instances in preorder.
pub type VInsts = Items<VInst>;

/// What a walk has met.
#[derive(Drop)]
pub struct Walk {
    /// The signals in the order of their numbers: those of an instance in the order of their declarations, and then those of the
    /// instances in it.
    pub slots: Slots,
    /// The instances in preorder.
    pub insts: VInsts,
}

// The items of the module with a number.
fn items_at(modules: &[VModule], number: Option<usize>) -> &[VItem]
    ensures { result.now ≡ spec.items_at modules.now number }
{
    match number {
        None => &[],
        Some(number) => match at(modules, number) {
            None => &[],
            Some(module) => module.items.as_slice(),
        },
    }
}

// Adds the signal that an item declares, if it declares one.
fn add_signal(alloc: Global, item: &VItem, slots: &mut Slots) -> Result<(), AllocError>
    ensures { OnOk result (map signal_of slots.new ≡ map signal_of slots.old ++ means.signals (item.now ∷ [])) }
{
    match item {
        VItem::Signal(signal) => slots.push(slot_of(alloc, signal)?),
        VItem::Initial(_) => Ok(()),
        VItem::Process(_) => Ok(()),
        VItem::Function(_) => Ok(()),
        VItem::Instance(_) => Ok(()),
    }
}

// Adds the signals that items declare.
#[tactic(auto, using(crate::proofs::Counting::signals_cons))]
fn add_signals(alloc: Global, items: &[VItem], slots: &mut Slots) -> Result<(), AllocError>
    ensures { OnOk result (map signal_of slots.new ≡ map signal_of slots.old ++ means.signals items.now) }
{
    for item in items {
        add_signal(alloc, item, slots)?;
    }
    Ok(())
}

// Walks over the instance of a module and those in it, which are so deep.
#[cycle(walk)]
fn enter(
    alloc: Global,
    modules: &[VModule],
    table: &Modules,
    depth: usize,
    name: &Text,
    walk: &mut Walk,
) -> Result<(), AllocError>
    requires { Tables table.now modules.now }
    ensures signals { OnOk result (map signal_of walk.new.slots ≡ map signal_of walk.old.slots ++ spec.signals_from depth modules.now name.now) }
    ensures instances { OnOk result (walk.new.insts ≡ walk.old.insts ++ map (spec.inst_of (numbers_in table.now)) (instances_from depth modules.now (length walk.old.slots) name.now)) }
{
    if depth == 0 {
        return Ok(());
    }
    let of = table.number(name);
    let items = items_at(modules, of);
    let first = walk.slots.len();
    walk.insts.push(VInst { of, first })?;
    add_signals(alloc, items, &mut walk.slots)?;
    enter_children(alloc, modules, table, depth - 1, items, walk)
}

// Walks over a child, if an item is one, and over the instances in it, which are so deep.
#[cycle(walk)]
fn enter_child(
    alloc: Global,
    modules: &[VModule],
    table: &Modules,
    depth: usize,
    item: &VItem,
    walk: &mut Walk,
) -> Result<(), AllocError>
    requires { Tables table.now modules.now }
    ensures signals { OnOk result (map signal_of walk.new.slots ≡ map signal_of walk.old.slots ++ spec.child_signals (spec.signals_from depth modules.now) (item.now ∷ [])) }
    ensures instances { OnOk result (walk.new.insts ≡ walk.old.insts ++ map (spec.inst_of (numbers_in table.now)) (child_instances (instances_from depth modules.now) (means.signal_count depth modules.now) (length walk.old.slots) (item.now ∷ []))) }
{
    match item {
        VItem::Signal(_) => Ok(()),
        VItem::Initial(_) => Ok(()),
        VItem::Process(_) => Ok(()),
        VItem::Function(_) => Ok(()),
        VItem::Instance(instance) => enter(alloc, modules, table, depth, &instance.of, walk),
    }
}

// Walks over the children among items, and over the instances in them, which are so deep.
#[cycle(walk)]
fn enter_children(
    alloc: Global,
    modules: &[VModule],
    table: &Modules,
    depth: usize,
    items: &[VItem],
    walk: &mut Walk,
) -> Result<(), AllocError>
    requires { Tables table.now modules.now }
    ensures signals { OnOk result (map signal_of walk.new.slots ≡ map signal_of walk.old.slots ++ spec.child_signals (spec.signals_from depth modules.now) items.now) }
    ensures instances { OnOk result (walk.new.insts ≡ walk.old.insts ++ map (spec.inst_of (numbers_in table.now)) (child_instances (instances_from depth modules.now) (means.signal_count depth modules.now) (length walk.old.slots) items.now)) }
{
    for item in items {
        enter_child(alloc, modules, table, depth, item, walk)?;
    }
    Ok(())
}

/// The instances of a design from its top down, in preorder, and their signals. A name that no module has stands for a module
/// without items; of two modules with one name the first counts. It fails for want of memory alone.
pub fn instances(alloc: Global, design: &VDesign, top: &Text) -> Result<Walk, AllocError>
    ensures { IfOk result (λ w. spec.Meets design.now.modules top.now w) }
{
    let modules = design.modules.as_slice();
    let table = Modules::of(alloc, modules)?;
    let mut walk = Walk {
        slots: Slots::new(alloc),
        insts: VInsts::new(alloc),
    };
    enter(alloc, modules, &table, modules.len(), top, &mut walk)?;
    Ok(walk)
}
