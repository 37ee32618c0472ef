//! The instances and signal bits below modules, counted in rounds: each round looks one step further down.

ghost use Rattle.std.specs.Prelude.{◌≡◌, ◌+◌, true, length, map, IfOk};
ghost use Rattle.v_top_rules.specs.Sums as means;

use crate::nodes::{Node, Nodes, bits_added};
use crate::orders::are_settled;
use crate::search::{Found, search};
use std::alloc::{AllocError, Global};
use sv_source::{Items, at};

/// Numbers of instances above this one are told from none that is allowed.
const MANY_INSTANCES: u32 = 4097;

/// What stands below a module.
#[derive(Clone, Copy, Drop)]
pub struct Sum {
    /// The instances below it; 4,097 stands for all that are more.
    pub instances: u32,
    /// The signal bits of the module and of these; 2^26 + 1 stands for all that are more.
    pub bits: u32,
}

/// What stands below modules, by their numbers.
pub type Sums = Items<Sum>;

// One instance more, with what stands below it.
#[tactic(auto, unfolding(crate::specs::Sums::some_instances))]
fn instances_added(a: u32, b: u32) -> u32
    ensures { result ≡ means.some_instances (a + (b + 1)) }
{
    let sum = u64::from(a) + u64::from(b) + 1;
    if sum < MANY_INSTANCES as u64 {
        sum as u32
    } else {
        MANY_INSTANCES
    }
}

/// What stands below the module with a number; nothing below one that isn't there.
pub fn sum_at(sums: &[Sum], number: Option<usize>) -> Sum
    ensures { result ≡ means.sum_at sums.now number }
{
    let none = Sum {
        instances: 0,
        bits: 0,
    };
    match number {
        None => none,
        Some(number) => match at(sums, number) {
            None => none,
            Some(sum) => *sum,
        },
    }
}

fn added(all: Sum, one: Sum) -> Sum
    ensures { result ≡ means.added all one }
{
    Sum {
        instances: instances_added(all.instances, one.instances),
        bits: bits_added(all.bits, one.bits),
    }
}

// A module alone.
fn alone(node: &Node) -> Sum
    ensures { result ≡ means.alone node.now }
{
    Sum {
        instances: 0,
        bits: node.bits,
    }
}

// What stands below a module, where these stand below the modules of its instances.
pub(crate) fn node_sum(node: &Node, sums: &[Sum]) -> Sum
    ensures { result ≡ means.sum_from node.now.below sums.now (means.alone node.now) }
{
    let mut all = alone(node);
    for number in node.below.as_slice() {
        all = added(all, sum_at(sums, *number));
    }
    all
}

// The modules alone.
pub(crate) fn first_round(alloc: Global, nodes: &[Node]) -> Result<Sums, AllocError>
    ensures { IfOk result (λ sums. sums ≡ map means.alone nodes.now) }
{
    let mut sums = Sums::new(alloc);
    for node in nodes {
        sums.push(alone(node))?;
    }
    Ok(sums)
}

// One step further down.
fn next_round(alloc: Global, nodes: &[Node], sums: &[Sum]) -> Result<Sums, AllocError>
    ensures { IfOk result (λ next. next ≡ means.round nodes.now sums.now) }
{
    let mut next = Sums::new(alloc);
    for node in nodes {
        next.push(node_sum(node, sums))?;
    }
    Ok(next)
}

pub(crate) fn is_same(a: Sum, b: Sum) -> bool
    ensures { result ≡ means.is_same a b }
{
    a.instances == b.instances && a.bits == b.bits
}

// Whether these are the same.
fn are_same(a: &[Sum], b: &[Sum]) -> bool
    ensures { result ≡ true → a.now ≡ b.now }
{
    if a.len() != b.len() {
        return false;
    }
    for i in 0..a.len() {
        if !is_same(a[i], b[i]) {
            return false;
        }
    }
    true
}

// The same by rounds, each of which looks at all instances.
#[tactic(auto, using(crate::proofs::Rounds::stop_round))]
fn sums_by_rounds(alloc: Global, nodes: &[Node]) -> Result<Sums, AllocError>
    ensures { IfOk result (λ sums. sums ≡ means.rounds (length nodes.now) nodes.now) }
{
    let mut sums = first_round(alloc, nodes)?;
    for _round in 0..nodes.len() {
        let next = next_round(alloc, nodes, sums.as_slice())?;
        if are_same(next.as_slice(), sums.as_slice()) {
            return Ok(sums);
        }
        sums = next;
    }
    Ok(sums)
}

/// What stands below modules, to as many steps as there are modules. Each instance is looked at twice where no module holds
/// itself. Or want of memory.
#[tactic(auto, using(crate::proofs::Ordered::settled_rounds))]
pub fn sums_of(alloc: Global, nodes: &Nodes) -> Result<Sums, AllocError>
    ensures { IfOk result (λ sums. sums ≡ means.rounds (length nodes.now) nodes.now) }
{
    let nodes = nodes.as_slice();
    let Found { places, sums } = search(alloc, nodes)?;
    if are_settled(nodes, places.as_slice(), sums.as_slice()) {
        return Ok(sums);
    }
    sums_by_rounds(alloc, nodes)
}
