//! The test that sums were found in an order in which the modules of instances stand before those that hold them.

ghost use Rattle.std.specs.Prelude.{◌≡◌, nat_lt, true, slice_get};
ghost use Rattle.std.specs.List.{list_all};
ghost use Rattle.v_top_rules.specs.Orders as means;

use crate::nodes::Node;
use crate::sums::{Sum, is_same, node_sum, sum_at};
use sv_source::at;

// The place of a module in the order; 0 where it has none.
fn place_at(places: &[usize], number: Option<usize>) -> usize
    ensures { result ≡ means.place_at places.now number }
{
    match number {
        None => 0,
        Some(number) => match at(places, number) {
            None => 0,
            Some(place) => *place,
        },
    }
}

// Whether these modules stand before a place.
fn are_before(below: &[Option<usize>], places: &[usize], place: usize) -> bool
    ensures { result ≡ list_all (λ c. nat_lt (means.place_at places.now c) place) below.now }
{
    for number in below {
        if place_at(places, *number) >= place {
            return false;
        }
    }
    true
}

// Whether a module has a place behind those of its instances, and its sum is that of theirs.
fn is_settled(most: usize, places: &[usize], sums: &[Sum], node: &Node, number: usize) -> bool
    ensures { result ≡ means.is_settled most places.now sums.now node.now number }
{
    let place = place_at(places, Some(number));
    let is_placed = 0 < place && place <= most;
    let is_first = are_before(node.below.as_slice(), places, place);
    let is_sum = is_same(sum_at(sums, Some(number)), node_sum(node, sums));
    is_placed && (is_first && is_sum)
}

/// Whether this is so of each module.
pub fn are_settled(nodes: &[Node], places: &[usize], sums: &[Sum]) -> bool
    ensures { result ≡ true → means.Settled nodes.now places.now sums.now }
{
    if sums.len() != nodes.len() {
        return false;
    }
    for number in 0..nodes.len() {
        if !is_settled(nodes.len(), places, sums, &nodes[number], number) {
            return false;
        }
    }
    true
}
