use bit_needs::{Footprint, footprint_of, needs_of};
use bit_sets::{Span, Spans, Use, Uses};
use peel::peel;
use sqlite_items::Items;
use std::alloc::{AllocError, Global};
use std::process::Abort;
use std::test::Fail;

// A span, as the numbers at its ends with a dash.
fn span(word: &str) -> Span {
    let mut ends = word.split('-');
    let low = ends.next().unwrap_or("").parse().unwrap_or(0);
    let high = ends.next().unwrap_or("").parse().unwrap_or(0);
    Span { low, high }
}

fn spans(alloc: Global, text: &str) -> Result<Spans, AllocError> {
    let mut all = Spans::new(alloc);
    for word in text.split(',') {
        all.push(span(word))?;
    }
    Ok(all)
}

fn uses(alloc: Global, text: &str) -> Result<Uses, AllocError> {
    let mut all = Uses::new(alloc);
    for word in text.split(',') {
        all.push(Use {
            span: span(word),
            at: 0,
        })?;
    }
    Ok(all)
}

// Footprints, as what is read, a mark and what is written.
fn footprints(alloc: Global, text: &str) -> Result<Items<Footprint>, AllocError> {
    let mut all = Items::new(alloc);
    for word in text.split(' ') {
        let mut sides = word.split('>');
        let reads = uses(alloc, sides.next().unwrap_or(""))?;
        let writes = spans(alloc, sides.next().unwrap_or(""))?;
        all.push(footprint_of(alloc, reads.as_slice(), writes.as_slice())?)?;
    }
    Ok(all)
}

// Lists of needs, as numbers with commas.
fn needs(alloc: Global, text: &str) -> Result<Items<Items<u32>>, AllocError> {
    let mut all = Items::new(alloc);
    for word in text.split(' ') {
        let mut list = Items::new(alloc);
        for number in word.split(',') {
            if let Ok(number) = number.parse() {
                list.push(number)?;
            }
        }
        all.push(list)?;
    }
    Ok(all)
}

// What things read and write, the needs, the order, and those left.
const CASES: &[(&str, &str, &[u32], &[u32])] = &[
    // one that reads nothing, one that reads what it writes, one that reads what nobody writes
    (">0-4", "-", &[0], &[]),
    ("0-4>0-4", "-", &[0], &[]),
    ("4-8>0-4", "-", &[0], &[]),
    // a chain, in each order
    ("0-1>1-2 1-2>2-3 2-3>3-4", "- 0 1", &[0, 1, 2], &[]),
    ("2-3>3-4 1-2>2-3 0-1>1-2", "1 2 -", &[2, 1, 0], &[]),
    // spans that end where others begin
    ("4-8>20-21 >0-4 >8-9", "- - -", &[0, 1, 2], &[]),
    ("3-9>20-21 >0-4 >8-9", "1,2 - -", &[1, 2, 0], &[]),
    // one bit of many, and many pieces of one
    ("7-8>20-21 >0-16", "1 -", &[1, 0], &[]),
    ("0-16>20-21 >0-1,2-3,4-5", "1 -", &[1, 0], &[]),
    // what it writes in part, it reads in part
    ("0-8>0-4 >4-8", "1 -", &[1, 0], &[]),
    ("0-8>0-4,6-8 >4-5", "1 -", &[1, 0], &[]),
    ("0-4>0-8 8-9>9-10", "- -", &[0, 1], &[]),
    // spans without numbers
    ("3-3>0-1 0-1>5-3,3-3", "- 0", &[0, 1], &[]),
    ("9-2>0-1 5-6>2-9", "- -", &[0, 1], &[]),
    // spans in any order, which overlap
    ("8-9,0-2,1-3>20-21 >2-9,0-1", "1 -", &[1, 0], &[]),
    // a number with two writers
    ("0-1>20-21 >0-1 >0-1", "1,2 - -", &[1, 2, 0], &[]),
    ("5-6>20-21 >0-9 >1-2 >5-6", "1,3 - - -", &[1, 3, 0, 2], &[]),
    // it reads a number that it writes and another one writes too
    ("0-1>0-1 >0-1", "- -", &[0, 1], &[]),
    // a ring, though no number comes round, with one before it and one behind it
    ("0-1>1-2,3-4 1-2>0-1", "1 0", &[], &[0, 1]),
    (
        ">0-1 0-1,2-3>1-2 1-2>2-3 2-3>3-4",
        "- 0,2 1 2",
        &[0],
        &[1, 2, 3],
    ),
    // numbers far apart
    (
        "340282366920938463463374607431768211454-340282366920938463463374607431768211455>0-1 0-1>18446744073709551616-340282366920938463463374607431768211455",
        "1 0",
        &[],
        &[0, 1],
    ),
];

#[test]
fn orders(rt: HostRuntime) -> Result<(), Fail> {
    let alloc = rt.alloc();
    for (text, wanted, order, left) in CASES {
        let footprints = footprints(alloc, text)?;
        assert!(rt; footprints.len() < 1000);
        let found = needs_of(alloc, footprints.as_slice())?;
        let wanted = needs(alloc, wanted)?;
        assert_eq!(rt; found.len(), wanted.len(), "count of {text}");
        for (list, other) in found.as_slice().iter().zip(wanted.as_slice()) {
            assert_eq!(rt; list.as_slice(), other.as_slice(), "needs of {text}");
        }
        let peeled = peel(alloc, found.as_slice())?;
        assert_eq!(rt; peeled.order.as_slice(), *order, "order of {text}");
        assert_eq!(rt; peeled.left.as_slice(), *left, "left of {text}");
    }
    Ok(())
}
