//! Values and steps from words. The name of the value is token 0, the `.` or `[` of a step 5, and what stands in it 6 and 7.

ghost use Rattle.std.specs.Prelude.{IsTrue};
ghost use Rattle.operand_types.specs.Allowed.{IsNarrow};
ghost use Rattle.select_types.specs.Selected.{StepFits};

use expr_type::{Halt, Number, Source, Step, Valued};
use operand_types::by_itself;
use select_types::{is_index, stepped};
use std::alloc::{AllocError, Global};
use sv_source::{Boxed, Kind, Place, Text, Token, Tokens};
use sv_types::{EnumNames, Form, Member, Members, SvType, is_narrow};
use type_kinds::{one_bit, vector};

fn token(alloc: Global, bytes: &[u8]) -> Result<Token, AllocError> {
    Ok(Token {
        kind: Kind::Name,
        text: Text::from_bytes(alloc, bytes)?,
        place: Place {
            file: 0,
            line: 1,
            col: 1,
        },
    })
}

/// The tokens `v a b c`.
pub fn tokens(alloc: Global) -> Result<Tokens, AllocError> {
    let mut tokens = Tokens::new(alloc);
    for byte in [b'v', b'a', b'b', b'c'] {
        tokens.push(token(alloc, &[byte])?)?;
    }
    Ok(tokens)
}

fn member(alloc: Global, name: u8, of: SvType) -> Result<Member, AllocError> {
    Ok(Member {
        name: Text::from_bytes(alloc, &[name])?,
        of,
    })
}

// Members `a` of 8 bits and `b` of 16.
fn members(alloc: Global) -> Result<Members, AllocError> {
    let mut members = Members::new(alloc);
    members.push(member(alloc, b'a', vector(alloc, 8, true)?)?)?;
    members.push(member(alloc, b'b', vector(alloc, 16, true)?)?)?;
    Ok(members)
}

fn structure(alloc: Global, packed: bool) -> Result<SvType, AllocError> {
    Ok(SvType::Struct {
        id: 1,
        packed,
        signed: false,
        members: members(alloc)?,
    })
}

fn packed(alloc: Global, left: i64, right: i64, item: SvType) -> Result<SvType, AllocError> {
    Ok(SvType::PackedArray {
        left,
        right,
        signed: true,
        item: Boxed::new(alloc, item)?,
    })
}

fn two_state() -> SvType {
    SvType::Scalar {
        four: false,
        signed: false,
    }
}

fn list(alloc: Global, last: i64) -> Result<SvType, AllocError> {
    Ok(SvType::UnpackedArray {
        left: 0,
        right: last,
        item: Boxed::new(alloc, vector(alloc, 8, true)?)?,
    })
}

// A vector that falls or rises, a vector of vectors, a list of vectors, one of over 65,536 bits, a packed and an unpacked struct, an
// enum and an integer of two states.
fn type_of(alloc: Global, word: &str) -> Result<SvType, Halt> {
    match word {
        "falling" => Ok(vector(alloc, 8, true)?),
        "rising" => Ok(packed(alloc, 0, 7, one_bit())?),
        "matrix" => Ok(packed(alloc, 1, 0, vector(alloc, 8, true)?)?),
        "list" => Ok(list(alloc, 3)?),
        "memory" => Ok(list(alloc, 65535)?),
        "packed" => Ok(structure(alloc, true)?),
        "plain" => Ok(structure(alloc, false)?),
        "enum" => Ok(SvType::Enum {
            id: 1,
            base: Boxed::new(alloc, vector(alloc, 8, true)?)?,
            names: EnumNames::new(alloc),
        }),
        "integer" => Ok(packed(alloc, 31, 0, two_state())?),
        _ => Err(Halt::Quiet),
    }
}

fn value(alloc: Global, text: Source<'_>, first: u32, of: SvType) -> Result<Valued, Halt> {
    Ok(by_itself(alloc, text, first, of, Form::Signal(0))?)
}

fn number(first: u32, number: i64) -> Number {
    Number { first, number }
}

fn part(left: i64, right: i64) -> Step {
    Step::Part {
        opening: 5,
        left: number(6, left),
        right: number(7, right),
    }
}

fn step_of(alloc: Global, text: Source<'_>, word: &str) -> Result<Step, Halt> {
    match word {
        ".a" => Ok(Step::Member(1)),
        ".b" => Ok(Step::Member(2)),
        ".c" => Ok(Step::Member(3)),
        "[i]" => Ok(Step::Index {
            opening: 5,
            index: value(alloc, text, 6, vector(alloc, 3, false)?)?,
        }),
        "[5:2]" => Ok(part(5, 2)),
        "[2:5]" => Ok(part(2, 5)),
        "[3:3]" => Ok(part(3, 3)),
        "[99999:0]" => Ok(part(99999, 0)),
        "[i+:4]" => Ok(Step::Slide {
            opening: 5,
            up: true,
            base: value(alloc, text, 6, vector(alloc, 3, false)?)?,
            width: number(7, 4),
        }),
        _ => Err(Halt::Quiet),
    }
}

fn fits(step: &Step) -> bool
    ensures { IsTrue result → StepFits step.now }
{
    match step {
        Step::Member(_) => true,
        Step::Index { .. } => true,
        Step::Part { .. } => true,
        Step::Slide { width, .. } => 1 <= width.number && width.number <= 4294967295,
    }
}

fn has_narrow_type(v: &Valued) -> bool
    ensures { IsTrue result → IsNarrow v.now }
{
    is_narrow(&v.expr.of)
}

#[derive(Drop)]
struct Selection {
    from: Valued,
    step: Step,
}

fn with_step(from: Valued, step: Result<Step, Halt>) -> Result<Selection, Halt> {
    match step {
        Ok(step) => Ok(Selection { from, step }),
        Err(halt) => Err(halt),
    }
}

fn one_step(alloc: Global, text: Source<'_>, parts: Selection) -> Result<Valued, Halt> {
    if has_narrow_type(&parts.from) && fits(&parts.step) {
        let Selection { from, step } = parts;
        stepped(alloc, text, from, step)
    } else {
        Err(Halt::Quiet)
    }
}

fn made(alloc: Global, text: Source<'_>, word: &str, step: &str) -> Result<Valued, Halt> {
    let from = value(alloc, text, 0, type_of(alloc, word)?)?;
    one_step(alloc, text, with_step(from, step_of(alloc, text, step))?)
}

/// A value of the type of a word with a step behind it.
pub fn selected(alloc: Global, word: &str, step: &str) -> Result<Valued, Halt> {
    let tokens = tokens(alloc)?;
    let text = Source {
        tokens: tokens.as_slice(),
        instance: 0,
    };
    made(alloc, text, word, step)
}

/// A value of so many bits as an index.
pub fn index(alloc: Global, bits: u32) -> Result<Valued, Halt> {
    let text = Source {
        tokens: &[],
        instance: 0,
    };
    let of = vector(alloc, bits, false)?;
    let v = value(alloc, text, 6, of)?;
    if has_narrow_type(&v) {
        is_index(text, v)
    } else {
        Err(Halt::Quiet)
    }
}
