//! Types from words, and bits from and to text.

use b4_core::{Bit4, Vec4};
use std::alloc::{AllocError, Global};
use sv_source::{Boxed, Text};
use sv_types::{EnumNames, Member, Members, SvType, Value};

/// One four-state bit.
pub fn bit_type() -> SvType {
    SvType::Scalar {
        four: true,
        signed: false,
    }
}

/// The type `int`.
pub fn int_type(alloc: Global) -> Result<SvType, AllocError> {
    let bit = SvType::Scalar {
        four: false,
        signed: false,
    };
    let item = Boxed::new(alloc, bit)?;
    Ok(SvType::PackedArray {
        left: 31,
        right: 0,
        signed: true,
        item,
    })
}

/// A four-state vector with these bounds.
pub fn bits_between(
    alloc: Global,
    left: i64,
    right: i64,
    signed: bool,
) -> Result<SvType, AllocError> {
    let item = Boxed::new(alloc, bit_type())?;
    Ok(SvType::PackedArray {
        left,
        right,
        signed,
        item,
    })
}

/// A four-state vector of so many bits.
pub fn vector(alloc: Global, width: u32, signed: bool) -> Result<SvType, AllocError> {
    bits_between(alloc, i64::from(width) - 1, 0, signed)
}

fn number(word: Option<&str>) -> i64 {
    word.and_then(|w| w.parse().ok()).unwrap_or(0)
}

// The last `count` types as members, in the order in which they were made.
fn members(alloc: Global, stack: &mut Vec<SvType>, count: i64) -> Result<Members, AllocError> {
    let mut taken = Vec::new(alloc);
    for _i in 0..count {
        if let Some(of) = stack.pop() {
            taken.push(Member {
                name: Text::new(alloc),
                of,
            })?;
        }
    }
    taken.reverse();
    Ok(Members::from_vec(taken))
}

fn item(alloc: Global, stack: &mut Vec<SvType>) -> Result<Boxed<SvType>, AllocError> {
    Boxed::new(alloc, stack.pop().unwrap_or(bit_type()))
}

/// The type of some words: `four` and `two` are scalars, `packed L R` and `array L R` arrays of the last type,
/// `struct N`, `plain N` and `union N` are made of the last N types, and `enum` has the last type as its base.
pub fn type_of(alloc: Global, words: &str) -> Result<SvType, AllocError> {
    let mut stack = Vec::new(alloc);
    let mut rest = words.split(' ');
    while let Some(word) = rest.next() {
        let made = match word {
            "two" => SvType::Scalar {
                four: false,
                signed: false,
            },
            "packed" => SvType::PackedArray {
                left: number(rest.next()),
                right: number(rest.next()),
                signed: false,
                item: item(alloc, &mut stack)?,
            },
            "array" => SvType::UnpackedArray {
                left: number(rest.next()),
                right: number(rest.next()),
                item: item(alloc, &mut stack)?,
            },
            "struct" | "plain" => SvType::Struct {
                id: 0,
                packed: word == "struct",
                signed: false,
                members: members(alloc, &mut stack, number(rest.next()))?,
            },
            "union" => SvType::Union {
                id: 0,
                signed: false,
                members: members(alloc, &mut stack, number(rest.next()))?,
            },
            "enum" => SvType::Enum {
                id: 0,
                base: item(alloc, &mut stack)?,
                names: EnumNames::new(alloc),
            },
            _ => bit_type(),
        };
        stack.push(made)?;
    }
    Ok(stack.pop().unwrap_or(bit_type()))
}

fn bit(c: u8) -> Bit4 {
    match c {
        b'0' => Bit4::Zero,
        b'1' => Bit4::One,
        b'x' => Bit4::X,
        _ => Bit4::Z,
    }
}

/// The vector of a text, the most significant bit first.
pub fn bits(alloc: Global, text: &str) -> Result<Vec4, AllocError> {
    let mut bits = Vec::new(alloc);
    for c in text.bytes().rev() {
        bits.push(bit(c))?;
    }
    Ok(Vec4::from_vec(bits))
}

/// Puts the bits of a vector, the most significant one first.
pub fn put_bits(v: &Vec4, to: &mut String) -> Result<(), AllocError> {
    for b in v.as_slice().iter().rev() {
        to.push(match b {
            Bit4::Zero => '0',
            Bit4::One => '1',
            Bit4::X => 'x',
            Bit4::Z => 'z',
        })?;
    }
    Ok(())
}

/// Puts a value, with brackets round members and elements.
pub fn put_value(v: &Value, to: &mut String) -> Result<(), AllocError> {
    match v {
        Value::Bits(bits) => put_bits(bits, to),
        Value::Items(items) => {
            to.push('[')?;
            for item in items.as_slice() {
                put_value(item, to)?;
            }
            to.push(']')?;
            Ok(())
        }
    }
}
