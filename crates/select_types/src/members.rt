//! Members of structs and unions (IEEE 1800-2017 clause 7.2.1).

ghost use Rattle.std.specs.Prelude.{◌≡◌, [], Some, IfOk};
ghost use Rattle.std.specs.Str.{bytes_eq};
ghost use Rattle.expr_type.specs.Answers.{Gives, source};
ghost use Rattle.expr_type.specs.Names.{word};
ghost use Rattle.expr_type.specs.Selects as select;
ghost use Rattle.expr_type.specs.Shapes as shape;
ghost use Rattle.operand_types.specs.Allowed.{IsNarrow};
ghost use Rattle.select_types.specs.Found.{place};
ghost use Rattle.select_types.specs.Selected.{GivesIf};

use crate::steps::selected;
use expr_type::{Halt, Source, Valued};
use operand_types::copy_type;
use std::alloc::{AllocError, Global};
use sv_source::{Boxed, Text};
use sv_types::{Form, Member, SvType};

/// A member by its number and its type.
#[derive(Drop)]
pub struct Found {
    /// Its number, from 0.
    pub number: u32,
    /// Its type.
    pub of: SvType,
}

// Whether a name is the word at a token.
#[tactic(auto, using(crate::proofs::Longer::words))]
fn is_word(text: Source<'_>, at: u32, name: &Text) -> bool
    ensures { result ≡ bytes_eq name.now (word (source text.entry) at) }
{
    match sv_source::at(text.tokens, at as usize) {
        Some(token) => *name == token.text,
        None => name.len() == 0,
    }
}

// A member, unless its number is no machine word: then no memory holds so many.
fn member_found(alloc: Global, n: usize, of: &SvType) -> Result<Option<Found>, AllocError>
    ensures { IfOk result (λ o. place o ≡ Some (record { number = n; of = of.now })) }
{
    if n > u32::MAX as usize {
        return Err(AllocError);
    }
    let of = copy_type(alloc, of)?;
    Ok(Some(Found {
        number: n as u32,
        of,
    }))
}

// The first of some members with the name at a token.
fn found_in(
    alloc: Global,
    members: &[Member],
    text: Source<'_>,
    at: u32,
) -> Result<Option<Found>, AllocError>
    ensures { IfOk result (λ o. place o ≡ select.named 0 members.now (word (source text.entry) at)) }
{
    for (n, member) in members.iter().enumerate() {
        if is_word(text, at, &member.name) {
            return member_found(alloc, n, &member.of);
        }
    }
    Ok(None)
}

// The member of a type with the name at a token.
fn found_of(
    alloc: Global,
    t: &SvType,
    text: Source<'_>,
    at: u32,
) -> Result<Option<Found>, AllocError>
    ensures { IfOk result (λ o. place o ≡ select.named 0 (shape.members_of t.now) (word (source text.entry) at)) }
{
    match t {
        SvType::Struct { members, .. } => found_in(alloc, members.as_slice(), text, at),
        SvType::Union { members, .. } => found_in(alloc, members.as_slice(), text, at),
        SvType::Scalar { .. } => Ok(None),
        SvType::PackedArray { .. } => Ok(None),
        SvType::Enum { .. } => Ok(None),
        SvType::UnpackedArray { .. } => Ok(None),
    }
}

// A value's member that was found, or not (E405), or want of memory.
fn member_or(
    alloc: Global,
    text: Source<'_>,
    at: u32,
    v: Valued,
    member: Result<Option<Found>, AllocError>,
) -> Result<Valued, Halt>
    ensures value { GivesIf member (λ m. select.member_or (source text.entry) at v (place m)) result }
    ensures narrow { IfOk result IsNarrow }
{
    let first = v.first;
    let (whole, member) = pairs::both(Boxed::new(alloc, v.expr), member)?;
    match member {
        None => Err(Halt::Breaks { at, rule: 405 }),
        Some(Found { number, of }) => {
            selected(alloc, text, at, first, of, Form::Member(whole, number))
        }
    }
}

/// The member of a value whose name stands at a token. It breaks E405 where there is none, and E701 where it has more than 65,536
/// bits.
pub fn member_of(alloc: Global, text: Source<'_>, at: u32, v: Valued) -> Result<Valued, Halt>
    ensures value { Gives result (select.member_of (source text.entry) at v) }
    ensures narrow { IfOk result IsNarrow }
{
    let member = found_of(alloc, &v.expr.of, text, at);
    member_or(alloc, text, at, v, member)
}
