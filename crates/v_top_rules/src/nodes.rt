//! The modules of a design by numbers: their signal bits, and the modules of their instances.

ghost use Rattle.std.specs.Prelude.{◌≡◌, ◌+◌, ◌++◌, [], map, IfOk, OnOk};
ghost use Rattle.v_rules.specs.Tables.{numbers_in};
ghost use Rattle.v_top_rules.specs.Sums as means;

use std::alloc::{AllocError, Global};
use sv_source::Items;
use v_expr_rules::bits_of;
use v_rules::Modules;
use v_tree::{VItem, VModule, VRegRest, VSignal};

/// Numbers of bits above this one are told from none that is allowed.
const MANY_BITS: u64 = 67_108_865;

/// The numbers of modules, none for a module that isn't there.
pub type Numbers = Items<Option<usize>>;

/// A module.
#[derive(Drop)]
pub struct Node {
    /// The bits of its signals; 2^26 + 1 stands for all that are more.
    pub bits: u32,
    /// The modules of its instances.
    pub below: Numbers,
}

/// Modules, by their numbers.
pub type Nodes = Items<Node>;

/// A number of bits, of which 2^26 + 1 stands for all that are more.
#[tactic(auto, unfolding(crate::specs::Sums::some_bits))]
fn some_bits(bits: u64) -> u32
    ensures { result ≡ means.some_bits bits }
{
    if bits < MANY_BITS {
        bits as u32
    } else {
        MANY_BITS as u32
    }
}

/// The sum of two numbers of bits.
#[tactic(auto, unfolding(crate::specs::Sums::some_bits))]
pub fn bits_added(a: u32, b: u32) -> u32
    ensures { result ≡ means.some_bits (a + b) }
{
    some_bits(u64::from(a) + u64::from(b))
}

// The bits of a memory of left + 1 words.
#[tactic(auto, unfolding(crate::specs::Sums::some_bits))]
fn memory_bits(range: Option<u32>, left: u32) -> u32
    ensures { result ≡ means.some_bits (means.memory_bits range left) }
{
    some_bits(bits_of(range).saturating_mul(u64::from(left) + 1))
}

fn reg_bits(range: Option<u32>, rest: &Option<VRegRest>) -> u32
    ensures { result ≡ means.some_bits (means.reg_bits range rest.now) }
{
    match rest {
        None => some_bits(bits_of(range)),
        Some(VRegRest::Memory(left)) => memory_bits(range, *left),
        Some(VRegRest::Initial(_)) => some_bits(bits_of(range)),
    }
}

fn signal_bits(signal: &VSignal) -> u32
    ensures { result ≡ means.some_bits (means.declared_bits signal.now) }
{
    match signal {
        VSignal::Input { range, name: _ } => some_bits(bits_of(*range)),
        VSignal::Output { range, name: _ } => some_bits(bits_of(*range)),
        VSignal::OutputReg {
            range,
            name: _,
            initial: _,
        } => some_bits(bits_of(*range)),
        VSignal::Wire { range, name: _ } => some_bits(bits_of(*range)),
        VSignal::Reg {
            range,
            name: _,
            rest,
        } => reg_bits(*range, rest),
    }
}

fn item_bits(item: &VItem) -> u32
    ensures { result ≡ means.some_bits (means.item_bits item.now) }
{
    match item {
        VItem::Signal(signal) => signal_bits(signal),
        VItem::Initial(_) => some_bits(0),
        VItem::Process(_) => some_bits(0),
        VItem::Function(_) => some_bits(0),
        VItem::Instance(_) => some_bits(0),
    }
}

// The bits of the signals of items.
fn items_bits(items: &[VItem]) -> u32
    ensures { result ≡ means.bits_from items.now (means.some_bits 0) }
{
    let mut bits = some_bits(0);
    for item in items {
        bits = bits_added(bits, item_bits(item));
    }
    bits
}

// Adds the module of an item, if it is an instance.
fn add_item(table: &Modules, item: &VItem, below: &mut Numbers) -> Result<(), AllocError>
    ensures { OnOk result (below.new ≡ below.old ++ means.item_below (numbers_in table.now) item.now) }
{
    match item {
        VItem::Signal(_) => Ok(()),
        VItem::Initial(_) => Ok(()),
        VItem::Process(_) => Ok(()),
        VItem::Function(_) => Ok(()),
        VItem::Instance(instance) => below.push(table.number(&instance.of)),
    }
}

// The modules of the instances of items.
fn items_below(alloc: Global, table: &Modules, items: &[VItem]) -> Result<Numbers, AllocError>
    ensures { IfOk result (λ below. below ≡ means.below_from (numbers_in table.now) items.now []) }
{
    let mut below = Numbers::new(alloc);
    for item in items {
        add_item(table, item, &mut below)?;
    }
    Ok(below)
}

// A module as a node.
fn module_node(alloc: Global, table: &Modules, module: &VModule) -> Result<Node, AllocError>
    ensures { IfOk result (λ node. node ≡ means.node_of (numbers_in table.now) «module».now) }
{
    let items = module.items.as_slice();
    Ok(Node {
        bits: items_bits(items),
        below: items_below(alloc, table, items)?,
    })
}

/// Modules as nodes. Or want of memory.
pub fn nodes_of(alloc: Global, table: &Modules, modules: &[VModule]) -> Result<Nodes, AllocError>
    ensures { IfOk result (λ nodes. nodes ≡ map (means.node_of (numbers_in table.now)) modules.now) }
{
    let mut nodes = Nodes::new(alloc);
    for module in modules {
        nodes.push(module_node(alloc, table, module)?)?;
    }
    Ok(nodes)
}
