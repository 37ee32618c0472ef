use crate::maker::type_of;
use b4_core::{Bit4, Vec4};
use std::alloc::Global;
use std::process::Abort;
use std::test::Fail;
use sv_types::{SvType, Value, bits_of, default_of, is_narrow, of_bits, store, width};

// The words of a type; bits, the most significant first; the value that has them; and the default.
const CASES: &[(&str, &str, &str, &str)] = &[
    ("four", "z", "z", "x"),
    ("two", "z", "0", "0"),
    ("four packed 3 0", "1x0z", "[1 x 0 z]", "xxxx"),
    ("two packed 0 3", "1x01", "[1 0 0 1]", "0000"),
    (
        "four packed 1 0 packed 0 1",
        "1x0z",
        "[[1 x] [0 z]]",
        "xxxx",
    ),
    ("two four struct 2", "xz", "[x z]", "xx"),
    ("two two struct 2", "xz", "[0 0]", "00"),
    ("two four plain 2", "xz", "[0 z]", "0x"),
    (
        "two packed 1 0 four struct 2 packed 1 0",
        "xz1x00",
        "[[[x z] 1] [[x 0] 0]]",
        "xxxxxx",
    ),
    ("two packed 1 0 four packed 1 0 union 2", "xz", "xz", "xx"),
    ("two packed 1 0 two packed 1 0 union 2", "xz", "00", "00"),
    ("two packed 2 0 enum", "1x1", "101", "000"),
    (
        "four packed 1 0 enum array 0 2",
        "x01101",
        "[x0 11 01]",
        "xxxxxx",
    ),
    (
        "two four plain 2 array 1 0",
        "xxzz",
        "[[0 x] [0 z]]",
        "0x0x",
    ),
    (
        "four packed -1 -2 array -3 -2",
        "01xz",
        "[[0 1] [x z]]",
        "xxxx",
    ),
];

fn bit(c: u8) -> Bit4 {
    match c {
        b'0' => Bit4::Zero,
        b'1' => Bit4::One,
        b'x' => Bit4::X,
        _ => Bit4::Z,
    }
}

fn vector(alloc: Global, text: &str) -> Result<Vec4, Fail> {
    let mut bits = Vec::new(alloc);
    for c in text.bytes().rev() {
        bits.push(bit(c))?;
    }
    Ok(Vec4::from_vec(bits))
}

fn put_bits(v: &Vec4, to: &mut Vec<u8>) -> Result<(), Fail> {
    for b in v.as_slice().iter().rev() {
        to.push(match b {
            Bit4::Zero => b'0',
            Bit4::One => b'1',
            Bit4::X => b'x',
            Bit4::Z => b'z',
        })?;
    }
    Ok(())
}

fn put_value(v: &Value, to: &mut Vec<u8>) -> Result<(), Fail> {
    match v {
        Value::Bits(bits) => put_bits(bits, to),
        Value::Items(items) => {
            to.push(b'[')?;
            let mut first = true;
            for item in items.as_slice() {
                if !first {
                    to.push(b' ')?;
                }
                first = false;
                put_value(item, to)?;
            }
            to.push(b']')?;
            Ok(())
        }
    }
}

// The text of the value that has these bits, and of its bits.
fn there_and_back(alloc: Global, t: &SvType, v: &Vec4) -> Result<(Vec<u8>, Vec<u8>), Fail> {
    let (mut shown, mut back) = (Vec::new(alloc), Vec::new(alloc));
    if is_narrow(t) && v.len() == width(t) as usize {
        let value = of_bits(alloc, t, v)?;
        put_value(&value, &mut shown)?;
        put_bits(&bits_of(alloc, t, &value)?, &mut back)?;
    }
    Ok((shown, back))
}

fn default_text(alloc: Global, t: &SvType) -> Result<Vec<u8>, Fail> {
    let mut shown = Vec::new(alloc);
    if is_narrow(t) {
        put_bits(&bits_of(alloc, t, &default_of(alloc, t)?)?, &mut shown)?;
    }
    Ok(shown)
}

// The bits as the type stores them.
fn stored_text(alloc: Global, t: &SvType, v: &Vec4) -> Result<Vec<u8>, Fail> {
    let mut shown = Vec::new(alloc);
    if is_narrow(t) {
        put_bits(&store(alloc, t, v)?, &mut shown)?;
    }
    Ok(shown)
}

// The bits of a value's text, without its brackets.
fn is_flat(shown: &[u8], back: &[u8]) -> bool {
    shown
        .iter()
        .filter(|c| !matches!(c, b'[' | b']' | b' '))
        .eq(back.iter())
}

#[test]
fn values_and_bits(rt: HostRuntime) -> Result<(), Fail> {
    let alloc = rt.alloc();
    for (words, bits, value, default) in CASES {
        let t = type_of(alloc, words)?;
        let v = vector(alloc, bits)?;
        let (shown, back) = there_and_back(alloc, &t, &v)?;
        assert_eq!(rt; shown.as_slice(), value.as_bytes());
        assert!(rt; is_flat(&shown, &back));
        assert_eq!(rt; stored_text(alloc, &t, &v)?.as_slice(), back.as_slice());
        assert_eq!(rt; default_text(alloc, &t)?.as_slice(), default.as_bytes());
    }
    Ok(())
}

// A type of 2^22 bits is narrow, and one of a bit more isn't.
#[test]
fn widths(rt: HostRuntime) -> Result<(), Fail> {
    let alloc = rt.alloc();
    let most = type_of(alloc, "four packed 63 0 array 0 65535")?;
    assert!(rt; is_narrow(&most));
    let wide = type_of(alloc, "four packed 4194304 0")?;
    assert!(rt; !is_narrow(&wide));
    let widest = type_of(
        alloc,
        "four packed 9223372036854775807 -9223372036854775808 array 1 65536",
    )?;
    assert!(rt; !is_narrow(&widest));
    Ok(())
}
