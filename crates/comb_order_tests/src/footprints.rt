use bit_needs::{Footprint, needs_of};
use bit_sets::{Span, Spans, Use, Uses};
use comb_order::footprint_in;
use flow_sets::{Found, Write, Writes, and_then, reading, use_at, writing};
use peel::peel;
use sqlite_items::Items;
use std::alloc::{AllocError, Global};
use std::process::Abort;
use std::test::Fail;

// A use, as a signal's number, a colon, and the bits at its ends with a dash.
fn used(word: &str) -> Use {
    let mut parts = word.split(':');
    let number = parts.next().unwrap_or("").parse().unwrap_or(0);
    let mut ends = parts.next().unwrap_or("").split('-');
    let low = ends.next().unwrap_or("").parse().unwrap_or(0);
    let high = ends.next().unwrap_or("").parse().unwrap_or(0);
    use_at(number, low, high, 0)
}

fn uses(alloc: Global, text: &str) -> Result<Uses, AllocError> {
    let mut all = Uses::new(alloc);
    for word in text.split(',') {
        if !word.is_empty() {
            all.push(used(word))?;
        }
    }
    Ok(all)
}

fn writes(alloc: Global, text: &str) -> Result<Writes, AllocError> {
    let mut all = Writes::new(alloc);
    for u in uses(alloc, text)?.as_slice() {
        all.push(Write {
            of: *u,
            exact: true,
        })?;
    }
    Ok(all)
}

// What is found of a process that reads, and then writes.
fn found(alloc: Global, text: &str) -> Result<Found, AllocError> {
    let mut sides = text.split('>');
    let first = reading(alloc, uses(alloc, sides.next().unwrap_or(""))?)?;
    let then = writing(alloc, writes(alloc, sides.next().unwrap_or(""))?)?;
    and_then(alloc, first, then)
}

fn is_same(set: &[Span], wanted: &[Use]) -> bool {
    if set.len() != wanted.len() {
        return false;
    }
    for (s, u) in set.iter().zip(wanted) {
        if s.low != u.span.low || s.high != u.span.high {
            return false;
        }
    }
    true
}

// The widths of the first signals.
const WIDTHS: &[u32] = &[8, 4, 1, 0, 4_194_304];

// What a process reads and writes, and its footprint.
const FOOTPRINTS: &[(&str, &str)] = &[
    // nothing, and an input that nobody writes
    (">", ">"),
    ("2:0-1>1:0-4", "2:0-1>1:0-4"),
    // what it writes itself, in part
    ("0:0-8>0:0-8", ">0:0-8"),
    ("0:0-8>0:2-4", "0:0-2,0:4-8>0:2-4"),
    ("0:2-4>0:0-8", ">0:0-8"),
    // bits past the width, also of a signal without bits
    ("0:6-12>1:3-9", "0:6-8>1:3-4"),
    ("0:8-12>2:1-2", ">"),
    ("3:0-4>3:0-1", ">"),
    // a signal that isn't there, and a local
    ("5:0-8>7:0-1", ">"),
    ("4294967296:0-8,0:0-1>4294967296:0-8,1:0-1", "0:0-1>1:0-1"),
    // uses without bits
    ("0:3-3,0:5-2>1:2-2", ">"),
    // uses that overlap, in any order, and those that lie together
    ("1:2-4,0:4-8,0:0-5>2:0-1", "0:0-8,1:2-4>2:0-1"),
    // the last bit of a wide signal
    (
        "4:4194303-4194304>4:0-4194303",
        "4:4194303-4194304>4:0-4194303",
    ),
];

#[test]
fn footprints(rt: HostRuntime) -> Result<(), Fail> {
    let alloc = rt.alloc();
    for (text, wanted) in FOOTPRINTS {
        let process = found(alloc, text)?;
        let footprint = footprint_in(alloc, WIDTHS, &process)?;
        let mut sides = wanted.split('>');
        let reads = uses(alloc, sides.next().unwrap_or(""))?;
        let writes = uses(alloc, sides.next().unwrap_or(""))?;
        assert!(rt;
            is_same(footprint.reads.as_slice(), reads.as_slice()),
            "reads of {text}"
        );
        assert!(rt;
            is_same(footprint.writes.as_slice(), writes.as_slice()),
            "writes of {text}"
        );
    }
    Ok(())
}

fn all_in(alloc: Global, text: &str) -> Result<Items<Footprint>, AllocError> {
    let mut all = Items::new(alloc);
    for word in text.split(' ') {
        let process = found(alloc, word)?;
        all.push(footprint_in(alloc, WIDTHS, &process)?)?;
    }
    Ok(all)
}

// Processes, the order of their places, and those left.
const ORDERS: &[(&str, &[u32], &[u32])] = &[
    ("2:0-1>1:0-4 1:0-4>0:0-8", &[0, 1], &[]),
    ("1:0-4>0:0-8 2:0-1>1:0-4", &[1, 0], &[]),
    // bit by bit it would be no ring, but a process is run as a whole
    ("0:0-1>1:0-2 1:1-2>0:0-1", &[], &[0, 1]),
    // a ring through a bit that isn't there, or through a local, is none
    ("0:8-9>1:0-1 1:0-1>0:8-9", &[0, 1], &[]),
    (
        "4294967296:0-1>1:0-1,4294967296:0-1 1:0-1,4294967296:0-1>0:0-1,4294967296:0-1",
        &[0, 1],
        &[],
    ),
    // one that reads what it writes, and one behind a ring
    ("0:0-2>0:0-2 0:0-1>1:0-1", &[0, 1], &[]),
    ("0:0-1>1:0-1 1:0-1>0:0-1 1:0-1>2:0-1", &[], &[0, 1, 2]),
];

#[test]
fn orders(rt: HostRuntime) -> Result<(), Fail> {
    let alloc = rt.alloc();
    for (text, order, left) in ORDERS {
        let footprints = all_in(alloc, text)?;
        assert!(rt; footprints.len() < 1000);
        let needs = needs_of(alloc, footprints.as_slice())?;
        assert!(rt; needs.len() < 1000);
        let peeled = peel(alloc, needs.as_slice())?;
        assert_eq!(rt; peeled.order.as_slice(), *order, "order of {text}");
        assert_eq!(rt; peeled.left.as_slice(), *left, "left of {text}");
    }
    Ok(())
}
