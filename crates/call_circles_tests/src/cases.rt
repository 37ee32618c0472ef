use call_circles::{Call, Need, first_broken};
use std::alloc::{AllocError, Global};
use std::process::Abort;
use std::test::Fail;

// Calls, as the words of a text: the routine that a call stands in, or a dash, the one that it calls, and its token.
fn calls(alloc: Global, text: &str) -> Result<Vec<Call>, AllocError> {
    let mut all = Vec::new(alloc);
    for word in text.split(' ') {
        let mut parts = word.split(',');
        let from = parts.next().and_then(|part| part.parse().ok());
        let to = parts.next().and_then(|part| part.parse().ok());
        let at = parts.next().and_then(|part| part.parse().ok());
        if let (Some(to), Some(at)) = (to, at) {
            all.push(Call { from, to, at })?;
        }
    }
    Ok(all)
}

// Needs, as the words of a text: the routine, and the last token of what it needs.
fn needs(alloc: Global, text: &str) -> Result<Vec<Need>, AllocError> {
    let mut all = Vec::new(alloc);
    for word in text.split(' ') {
        let mut parts = word.split(',');
        let routine = parts.next().and_then(|part| part.parse().ok());
        let last = parts.next().and_then(|part| part.parse().ok());
        if let (Some(routine), Some(last)) = (routine, last) {
            all.push(Need { routine, last })?;
        }
    }
    Ok(all)
}

// Calls, needs, and the token of the first broken call.
const CASES: &[(&str, &str, Option<u32>)] = &[
    // nothing, and calls without needs
    ("", "", None),
    ("-,0,5 0,1,6 1,2,7", "", None),
    // a routine calls itself
    ("0,0,5", "", Some(5)),
    ("-,0,3 0,0,5", "", Some(5)),
    // a circle of two, and the least token of it
    ("0,1,5 1,0,6", "", Some(5)),
    ("0,1,9 1,0,6", "", Some(6)),
    // a call into a circle and one out of it aren't in it
    ("0,1,3 1,2,5 2,1,6 2,3,4", "", Some(5)),
    // two circles with a chain between them
    ("0,1,20 1,0,21 1,2,2 2,3,1 3,4,11 4,3,10", "", Some(10)),
    // two ways to one, which is no circle
    ("0,1,5 0,2,6 1,3,7 2,3,8", "", None),
    // a circle through two ways
    ("0,1,5 0,2,6 1,3,7 2,3,8 3,0,9", "", Some(5)),
    // a call that stands twice
    ("0,1,5 0,1,6 1,2,7", "", None),
    // a need after the call, at its token, and before it
    ("-,0,5", "0,6", Some(5)),
    ("-,0,5", "0,5", Some(5)),
    ("-,0,5", "0,4", None),
    // a need of one that is called, and of one that isn't
    ("-,0,5 0,1,9 1,2,9", "2,6", Some(5)),
    ("-,0,5 0,1,9 1,2,9", "3,6", None),
    ("-,1,5 0,1,9", "0,6", None),
    // the latest of several needs counts, whatever their order
    ("-,0,5 0,1,9", "0,3 1,7", Some(5)),
    ("-,0,5 0,1,9", "0,7 1,3", Some(5)),
    ("-,0,5 0,1,9", "1,7 0,3 1,2", Some(5)),
    ("-,0,5 0,1,9", "1,4 0,3 1,2", None),
    // of two early calls the first one, and of several to one routine those before the declaration
    ("-,0,8 -,0,5", "0,9", Some(5)),
    ("-,0,12 -,0,8", "0,9", Some(8)),
    // a call in a routine is never early
    ("0,1,5", "1,9", None),
    // an early call beside a circle
    ("-,2,7 0,1,5 1,0,6", "2,9", Some(5)),
    ("-,2,3 0,1,5 1,0,6", "2,9", Some(3)),
    // an early call that leads through a circle
    ("-,0,3 0,1,5 1,0,6 1,2,7", "2,9", Some(3)),
];

#[test]
fn cases(rt: HostRuntime) -> Result<(), Fail> {
    let alloc = rt.alloc();
    for (calls_text, needs_text, first) in CASES {
        let calls = calls(alloc, calls_text)?;
        let needs = needs(alloc, needs_text)?;
        let found = first_broken(alloc, 5, calls.as_slice(), needs.as_slice())?;
        assert_eq!(rt; found, *first, "{calls_text} and {needs_text}");
        // numbers of routines that are too high are looked at by the definition
        let found = first_broken(alloc, 0, calls.as_slice(), needs.as_slice())?;
        assert_eq!(rt;
            found,
            *first,
            "{calls_text} and {needs_text} by the definition"
        );
    }
    Ok(())
}

// Calls of each routine by the one before it, each at ten times its place, behind the calls that stand already.
fn chain(all: &mut Vec<Call>, from: u32, to: u32) -> Result<(), AllocError> {
    for routine in from..to {
        all.push(Call {
            from: Some(routine),
            to: routine.saturating_add(1),
            at: routine.saturating_mul(10),
        })?;
    }
    Ok(())
}

const MANY: u32 = 100_000;

// Two rings with a chain between them, each of many routines, as far as they are asked for.
fn rings(alloc: Global, first: bool, second: bool) -> Result<Vec<Call>, AllocError> {
    let mut all = Vec::new(alloc);
    chain(&mut all, 0, 3 * MANY - 1)?;
    if first {
        all.push(Call {
            from: Some(MANY - 1),
            to: 0,
            at: 5,
        })?;
    }
    if second {
        all.push(Call {
            from: Some(3 * MANY - 1),
            to: 2 * MANY,
            at: 7,
        })?;
    }
    Ok(all)
}

#[test]
fn long_chains_and_rings(rt: HostRuntime) -> Result<(), Fail> {
    let alloc = rt.alloc();
    let none = Vec::new(alloc);
    for (first, second, at) in [
        (false, false, None),
        (true, false, Some(0)),
        (false, true, Some(7)),
        (true, true, Some(0)),
    ] {
        let calls = rings(alloc, first, second)?;
        let found = first_broken(alloc, 3 * MANY, calls.as_slice(), none.as_slice())?;
        assert_eq!(rt; found, at);
    }
    Ok(())
}

#[test]
fn early_calls_through_long_chains(rt: HostRuntime) -> Result<(), Fail> {
    let alloc = rt.alloc();
    let mut calls = rings(alloc, false, false)?;
    let mut needs = Vec::new(alloc);
    for routine in 0..MANY {
        calls.push(Call {
            from: None,
            to: MANY - 1 - routine,
            at: 4_000_000 + routine,
        })?;
        needs.push(Need {
            routine: 2 * MANY + routine,
            last: 4_000_500 - routine.min(1000),
        })?;
    }
    let found = first_broken(alloc, 3 * MANY, calls.as_slice(), needs.as_slice())?;
    assert_eq!(rt; found, Some(4_000_000));
    let mut needs_behind = Vec::new(alloc);
    for need in needs.as_slice() {
        if need.last < 4_000_000 {
            needs_behind.push(*need)?;
        }
    }
    let found = first_broken(alloc, 3 * MANY, calls.as_slice(), needs_behind.as_slice())?;
    assert_eq!(rt; found, None);
    Ok(())
}

// Calls and needs by numbers that look random.
fn mixed(alloc: Global, routines: u32, count: u32) -> Result<Vec<Call>, AllocError> {
    let mut all = Vec::new(alloc);
    let mut seed: u64 = 12345 + count as u64;
    for at in 0..count {
        seed = seed
            .wrapping_mul(6364136223846793005)
            .wrapping_add(1442695040888963407);
        let from = (seed >> 33) as u32 % routines.max(1);
        seed = seed
            .wrapping_mul(6364136223846793005)
            .wrapping_add(1442695040888963407);
        let to = (seed >> 33) as u32 % routines.max(1);
        all.push(Call {
            from: Some(from),
            to,
            at: count - at,
        })?;
    }
    Ok(all)
}

#[test]
fn many_mixed_calls(rt: HostRuntime) -> Result<(), Fail> {
    let alloc = rt.alloc();
    let mut needs = Vec::new(alloc);
    // few calls a routine make many small circles, and more of them a large one
    for count in [80_000, 100_000, 150_000, 300_000] {
        let calls = mixed(alloc, MANY, count)?;
        needs.push(Need {
            routine: count % MANY,
            last: 3,
        })?;
        let found = first_broken(alloc, MANY, calls.as_slice(), needs.as_slice())?;
        assert!(rt; found.is_some());
    }
    // the search and the definition agree
    for count in 1..40 {
        let calls = mixed(alloc, 12, count)?;
        let found = first_broken(alloc, 12, calls.as_slice(), needs.as_slice())?;
        let defined = first_broken(alloc, 0, calls.as_slice(), needs.as_slice())?;
        assert_eq!(rt; found, defined);
    }
    Ok(())
}
