//! Structs and their members (IEEE 1800-2017 clauses 7.2 and 7.2.1).

ghost use Rattle.std.specs.Prelude.{◌≡◌, map, is_some, IfOk};
ghost use Rattle.expr_type.specs.Answers.{Gives, source};
ghost use Rattle.expr_type.specs.Names as names;
ghost use Rattle.expr_type.specs.Types as types;
ghost use Rattle.type_texts.specs.Fields as declared;
ghost use Rattle.sv_types.specs.declared.types.SvType.TheVariants.{Struct};

use crate::dimensions::{Dim, unpacked};
use expr_type::{Halt, Source};
use std::alloc::{AllocError, Global};
use std::marker::Model;
use sv_source::{Items, Text};
use sv_tree::{Packing, Signing};
use sv_types::{Member, Members, SvType};
use type_kinds::is_unpacked;

/// A member by the token of its name.
#[derive(Drop)]
pub struct Field {
    /// The token.
    pub at: u32,
    /// Its type.
    pub of: SvType,
}

impl Model for Field {
    ghost use Rattle.expr_type.specs.Types as types;
    ghost use Rattle.std.specs.Coded.{codes};
    ghost use Rattle.sv_types.specs.contracts.types.SvType as t;

    ghost Value = { types.Field };

    ghost view = { λ f. record { at = f.at; of = f.of } };

    ghost coded = { Prim.hlevel (codes, t.the_row.coded) };
}

/// A member of a type with unpacked dimensions. In a packed struct or union it breaks E404 at its name where it is unpacked.
pub fn field_of(
    alloc: Global,
    text: Source<'_>,
    inside_packed: bool,
    name: u32,
    dims: &[Dim],
    t: SvType,
) -> Result<Field, Halt>
    ensures { Gives result (declared.field (source text.entry) inside_packed name dims.now t) }
{
    let of = unpacked(alloc, dims, t)?;
    if inside_packed && is_unpacked(&of) {
        return Err(Halt::Breaks {
            at: name,
            rule: 404,
        });
    }
    Ok(Field { at: name, of })
}

/// The word of a token.
fn word_at(alloc: Global, text: Source<'_>, at: u32) -> Result<Text, AllocError>
    ensures { IfOk result (λ w. w ≡ names.word (source text.entry) at) }
{
    match sv_source::at(text.tokens, at as usize) {
        Some(token) => token.text.copy(alloc),
        None => Ok(Text::new(alloc)),
    }
}

// A member by its name.
fn member(alloc: Global, text: Source<'_>, f: Field) -> Result<Member, AllocError>
    ensures { IfOk result (λ m. m ≡ types.member (source text.entry) f) }
{
    match word_at(alloc, text, f.at) {
        Ok(name) => Ok(Member { name, of: f.of }),
        Err(want) => Err(want),
    }
}

/// Members in the order of the text.
#[tactic(auto, using(crate::proofs::Turns::turns))]
pub fn members_of(
    alloc: Global,
    text: Source<'_>,
    fields: Items<Field>,
) -> Result<Members, AllocError>
    ensures { IfOk result (λ ms. ms ≡ map (types.member (source text.entry)) fields) }
{
    let mut left = fields;
    let mut made = Vec::new(alloc);
    while let Some(f) = left.pop() {
        made.push(member(alloc, text, f)?)?;
    }
    made.reverse();
    Ok(Members::from_vec(made))
}

/// The sign of a packed struct or union.
pub fn sign_by(packing: Option<Packing>) -> bool
    ensures { result ≡ types.sign_by packing }
{
    match packing {
        None => false,
        Some(p) => match p.signing {
            None => false,
            Some(Signing::Signed(_)) => true,
            Some(Signing::Unsigned(_)) => false,
        },
    }
}

/// A struct by its first word and its members.
pub fn struct_of(
    alloc: Global,
    text: Source<'_>,
    at: u32,
    packing: Option<Packing>,
    fields: Items<Field>,
) -> Result<SvType, AllocError>
    ensures { IfOk result (λ t. t ≡ Struct at (is_some packing) (types.sign_by packing) (map (types.member (source text.entry)) fields)) }
{
    let members = members_of(alloc, text, fields)?;
    Ok(SvType::Struct {
        id: at,
        packed: packing.is_some(),
        signed: sign_by(packing),
        members,
    })
}
