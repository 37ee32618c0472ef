use peel::peel;
use sqlite_items::Items;
use std::alloc::{AllocError, Global};
use std::process::Abort;
use std::test::Fail;

// Lists of needs, as the words of a text: numbers by commas, or a dash for none.
fn needs(alloc: Global, text: &str) -> Result<Items<Items<u32>>, Fail> {
    let mut all = Items::new(alloc);
    for word in text.split(' ') {
        if word.is_empty() {
            continue;
        }
        let mut list = Items::new(alloc);
        for number in word.split(',') {
            if let Ok(number) = number.parse() {
                list.push(number)?;
            }
        }
        all.push(list)?;
    }
    Ok(all)
}

// Needs, the order, and those left.
const CASES: &[(&str, &[u32], &[u32])] = &[
    // nothing
    ("", &[], &[]),
    // one alone, and several that need nothing
    ("-", &[0], &[]),
    ("- - -", &[0, 1, 2], &[]),
    // chains, forwards and backwards
    ("- 0 1 2", &[0, 1, 2, 3], &[]),
    ("1 2 3 -", &[3, 2, 1, 0], &[]),
    // two ways to one, an entry twice, and one past the end
    ("1,2 3 3 -", &[3, 1, 2, 0], &[]),
    ("1,1 -", &[1, 0], &[]),
    ("7 9,0", &[0, 1], &[]),
    // it needs itself
    ("0", &[], &[0]),
    ("- 0,1 0", &[0, 2], &[1]),
    // a cycle, with one before it, one behind it, and one beside it
    ("1 2 0", &[], &[0, 1, 2]),
    ("- 0,2 3 1 3 0", &[0, 5], &[1, 2, 3, 4]),
    // one that is ready stands between those that wait
    ("2,1 0 -", &[2], &[0, 1]),
    // what needs one that is left behind one that is done
    ("1 1 3,0 -", &[3], &[0, 1, 2]),
    // two cycles
    ("1 0 3 2 -", &[4], &[0, 1, 2, 3]),
];

#[test]
fn orders(rt: HostRuntime) -> Result<(), Fail> {
    let alloc = rt.alloc();
    for (text, order, left) in CASES {
        let needs = needs(alloc, text)?;
        assert!(rt; needs.len() < 1000);
        let peeled = peel(alloc, needs.as_slice())?;
        assert_eq!(rt; peeled.order.as_slice(), *order, "order of {text}");
        assert_eq!(rt; peeled.left.as_slice(), *left, "left of {text}");
    }
    Ok(())
}

// A chain in which each number needs the next one, and the last one what is given.
fn chain(alloc: Global, count: u32, last: u32) -> Result<Items<Items<u32>>, AllocError> {
    let mut all = Items::new(alloc);
    for n in 0..count {
        let mut list = Items::new(alloc);
        list.push(if n < count - 1 { n + 1 } else { last })?;
        all.push(list)?;
    }
    Ok(all)
}

#[test]
fn long_chains(rt: HostRuntime) -> Result<(), Fail> {
    let alloc = rt.alloc();
    for (last, ordered, left) in [(2_000_000, 1_000_000, 0), (500_000, 0, 1_000_000)] {
        let needs = chain(alloc, 1_000_000, last)?;
        assert!(rt; needs.len() <= 1_000_000);
        let peeled = peel(alloc, needs.as_slice())?;
        assert_eq!(rt; peeled.order.len(), ordered);
        assert_eq!(rt; peeled.left.len(), left);
    }
    Ok(())
}
