ghost use Rattle.std.specs.Prelude.{◌<◌};

use bit_needs::{Footprint, footprint_of, needs_of};
use bit_sets::{Span, Spans, Use, Uses};
use peel::peel;
use sqlite_items::Items;
use std::alloc::{AllocError, Global};
use std::process::Abort;
use std::test::Fail;

const BITS: u128 = 8;

// The bits of one thing.
fn own(n: u32) -> Span {
    let low = u128::from(n) * BITS;
    Span {
        low,
        high: low + BITS,
    }
}

// A number below a limit, and the next state.
fn drawn(state: u32, limit: u32) -> (u32, u32)
    requires { 0 < limit }
{
    let next = state.wrapping_mul(1_664_525).wrapping_add(1_013_904_223);
    ((next / 65_536) % limit, next)
}

// What reads four bits of each of some things, itself left out, and writes its own bits.
fn reading(alloc: Global, n: u32, others: &[u32]) -> Result<Footprint, AllocError> {
    let mut reads = Uses::new(alloc);
    for other in others {
        let low = u128::from(*other) * BITS + 2;
        reads.push(Use {
            span: Span { low, high: low + 4 },
            at: 0,
        })?;
    }
    let mut writes = Spans::new(alloc);
    writes.push(own(n))?;
    footprint_of(alloc, reads.as_slice(), writes.as_slice())
}

// Things each of which reads of `degree` earlier ones, and the first of them of the last things in `closing`.
fn graph(
    alloc: Global,
    count: u32,
    degree: u32,
    closing: &[u32],
) -> Result<Items<Footprint>, AllocError> {
    let mut all = Items::new(alloc);
    let mut state = 1;
    all.push(reading(alloc, 0, closing)?)?;
    for n in 1..count {
        let mut others = Items::new(alloc);
        for _k in 0..degree {
            let (other, next) = drawn(state, n);
            state = next;
            others.push(other)?;
        }
        all.push(reading(alloc, n, others.as_slice())?)?;
    }
    Ok(all)
}

// How many things there are, of how many each reads, what the first one reads, how many have an order, and how many are left.
const GRAPHS: &[(u32, u32, &[u32], usize, usize)] = &[
    (100_000, 10, &[], 100_000, 0),
    (100_000, 1, &[], 100_000, 0),
    (1_000, 900, &[], 1_000, 0),
    (100_000, 1, &[0], 100_000, 0),
    (100_000, 10, &[99_999], 0, 100_000),
];

#[test]
fn random_graphs(rt: HostRuntime) -> Result<(), Fail> {
    let alloc = rt.alloc();
    for (count, degree, closing, ordered, left) in GRAPHS {
        let things = graph(alloc, *count, *degree, closing)?;
        assert!(rt; things.len() <= 100_000);
        let needs = needs_of(alloc, things.as_slice())?;
        assert!(rt; needs.len() <= 100_000);
        let peeled = peel(alloc, needs.as_slice())?;
        assert_eq!(rt; peeled.order.len(), *ordered, "of {count}");
        assert_eq!(rt; peeled.left.len(), *left, "left of {count}");
    }
    Ok(())
}
