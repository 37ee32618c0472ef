//! Types from words, as a stack machine reads them.

use std::alloc::Global;
use std::test::Fail;
use sv_source::{Boxed, Text};
use sv_types::{EnumNames, Member, Members, SvType};

fn number(word: Option<&str>) -> i64 {
    word.and_then(|w| w.parse().ok()).unwrap_or(0)
}

// The last `count` types as members, in the order in which they were made.
fn members(alloc: Global, stack: &mut Vec<SvType>, count: i64) -> Result<Members, Fail> {
    let mut taken = Vec::new(alloc);
    for _i in 0..count {
        if let Some(of) = stack.pop() {
            taken.push(Member {
                name: Text::new(alloc),
                of,
            })?;
        }
    }
    taken.reverse();
    Ok(Members::from_vec(taken))
}

fn item(alloc: Global, stack: &mut Vec<SvType>) -> Result<Boxed<SvType>, Fail> {
    let of = stack.pop().unwrap_or(SvType::Scalar {
        four: true,
        signed: false,
    });
    Ok(Boxed::new(alloc, of)?)
}

/// The type of some words: `four` and `two` are scalars, `packed L R` and `array L R` arrays of the last type, `struct N`,
/// `plain N` and `union N` are made of the last N types, and `enum` has the last type as its base.
pub fn type_of(alloc: Global, words: &str) -> Result<SvType, Fail> {
    let mut stack = Vec::new(alloc);
    let mut rest = words.split(' ');
    while let Some(word) = rest.next() {
        let made = match word {
            "two" => SvType::Scalar {
                four: false,
                signed: false,
            },
            "packed" => SvType::PackedArray {
                left: number(rest.next()),
                right: number(rest.next()),
                signed: false,
                item: item(alloc, &mut stack)?,
            },
            "array" => SvType::UnpackedArray {
                left: number(rest.next()),
                right: number(rest.next()),
                item: item(alloc, &mut stack)?,
            },
            "struct" | "plain" => SvType::Struct {
                id: 0,
                packed: word == "struct",
                signed: false,
                members: members(alloc, &mut stack, number(rest.next()))?,
            },
            "union" => SvType::Union {
                id: 0,
                signed: false,
                members: members(alloc, &mut stack, number(rest.next()))?,
            },
            "enum" => SvType::Enum {
                id: 0,
                base: item(alloc, &mut stack)?,
                names: EnumNames::new(alloc),
            },
            _ => SvType::Scalar {
                four: true,
                signed: false,
            },
        };
        stack.push(made)?;
    }
    let last = item(alloc, &mut stack)?;
    Ok(last.into_inner())
}
