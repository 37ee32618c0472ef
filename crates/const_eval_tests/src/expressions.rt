//! The values and sizes of expressions.

use crate::forms::{ALTERNATIVES, PATHS, PATTERNS, STATES};
use crate::operators::{ARITHMETIC, BITWISE, COMPARISONS, FILLS, LOGIC, SELECTS, SHIFTS};
use crate::runs::{environment, text_of_size, text_of_value};
use std::alloc::{AllocError, Global};
use std::process::Abort;
use std::test::Fail;
use tree_words::Word::{Bits, Constant, Signal, Signed, Type, Vector};
use tree_words::{Word, expression};

// Signals by number, the most significant bit first; the seventh isn't held.
const SIGNALS: &[&str] = &[
    "1010x0z1",
    "00001111",
    "11110000",
    "0101",
    "00000011000000100000000100000000",
    "10x10110",
    "",
    "11001010",
    "x1",
    "11110000101010100000111101010101",
    "1101",
    "1000000z",
];

// The place of the first expression that has another value.
fn first_wrong(alloc: Global, table: &[(&[Word], &str)]) -> Result<Option<usize>, AllocError> {
    let env = environment(alloc, SIGNALS)?;
    for (i, (words, wanted)) in table.iter().enumerate() {
        let e = expression(alloc, words)?;
        let text = text_of_value(alloc, &e, &env)?;
        if text.as_bytes() != wanted.as_bytes() {
            return Ok(Some(i));
        }
    }
    Ok(None)
}

#[test]
fn bitwise(rt: HostRuntime) -> Result<(), Fail> {
    assert_eq!(rt; first_wrong(rt.alloc(), BITWISE)?, None);
    Ok(())
}

#[test]
fn arithmetic(rt: HostRuntime) -> Result<(), Fail> {
    assert_eq!(rt; first_wrong(rt.alloc(), ARITHMETIC)?, None);
    Ok(())
}

#[test]
fn shifts(rt: HostRuntime) -> Result<(), Fail> {
    assert_eq!(rt; first_wrong(rt.alloc(), SHIFTS)?, None);
    Ok(())
}

#[test]
fn comparisons(rt: HostRuntime) -> Result<(), Fail> {
    assert_eq!(rt; first_wrong(rt.alloc(), COMPARISONS)?, None);
    Ok(())
}

#[test]
fn logic(rt: HostRuntime) -> Result<(), Fail> {
    assert_eq!(rt; first_wrong(rt.alloc(), LOGIC)?, None);
    Ok(())
}

#[test]
fn selects(rt: HostRuntime) -> Result<(), Fail> {
    assert_eq!(rt; first_wrong(rt.alloc(), SELECTS)?, None);
    Ok(())
}

#[test]
fn fills(rt: HostRuntime) -> Result<(), Fail> {
    assert_eq!(rt; first_wrong(rt.alloc(), FILLS)?, None);
    Ok(())
}

#[test]
fn paths(rt: HostRuntime) -> Result<(), Fail> {
    assert_eq!(rt; first_wrong(rt.alloc(), PATHS)?, None);
    Ok(())
}

#[test]
fn alternatives(rt: HostRuntime) -> Result<(), Fail> {
    assert_eq!(rt; first_wrong(rt.alloc(), ALTERNATIVES)?, None);
    Ok(())
}

#[test]
fn patterns(rt: HostRuntime) -> Result<(), Fail> {
    assert_eq!(rt; first_wrong(rt.alloc(), PATTERNS)?, None);
    Ok(())
}

#[test]
fn states(rt: HostRuntime) -> Result<(), Fail> {
    assert_eq!(rt; first_wrong(rt.alloc(), STATES)?, None);
    Ok(())
}

// An expression, the least and the greatest number, and what it is as a size.
const SIZES: &[(&[Word], i64, i64, &str)] = &[
    (&[Bits("0101")], 0, 10, "5"),
    (&[Bits("1101")], 0, 13, "13"),
    (&[Signed("1101")], -3, 13, "-3"),
    (&[Signed("1101")], -2, 13, "range 1"),
    (&[Bits("1101")], 0, 12, "range 1"),
    (&[Bits("1x01")], 0, 15, "range 1"),
    (&[Type("two packed 3 0"), Constant("1x01")], 0, 15, "9"),
    (&[Vector(7, 0), Signal(6)], 0, 15, "held 1"),
    (
        &[Bits("1111111111111111111111111111111111111111111111111111111111111111")],
        0,
        9223372036854775807,
        "range 1",
    ),
    (
        &[Signed("1000000000000000000000000000000000000000000000000000000000000000")],
        -9223372036854775808,
        0,
        "-9223372036854775808",
    ),
];

#[test]
fn sizes(rt: HostRuntime) -> Result<(), Fail> {
    let alloc = rt.alloc();
    let env = environment(alloc, SIGNALS)?;
    for (words, low, high, wanted) in SIZES {
        let e = expression(alloc, words)?;
        let text = text_of_size(alloc, &e, &env, *low, *high)?;
        assert_eq!(rt; text.as_bytes(), wanted.as_bytes());
    }
    Ok(())
}
