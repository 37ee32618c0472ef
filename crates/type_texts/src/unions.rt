//! Unions (IEEE 1800-2017 clause 7.3.1).

ghost use Rattle.std.specs.Prelude.{◌≡◌, map, IfOk};
ghost use Rattle.expr_type.specs.Answers.{Gives, source};
ghost use Rattle.expr_type.specs.Types as types;
ghost use Rattle.sv_tree.specs.declared.types.Aggregate.TheVariants as aggregate;
ghost use Rattle.sv_types.specs.declared.types.SvType.TheVariants.{Union};
ghost use Rattle.type_texts.specs.Uniting.{Unites, first_other};
ghost use Rattle.type_widths.specs.Limbs.{number};

use crate::aggregates::{Field, members_of, sign_by};
use expr_type::{Halt, Source};
use std::alloc::{AllocError, Global};
use sv_source::Items;
use sv_tree::Packing;
use sv_types::SvType;
use type_widths::{Limbs, is_equal, wide};

// The name of the first member that hasn't so many bits.
fn first_other(alloc: Global, width: &[u32], fields: &[Field]) -> Result<Option<u32>, AllocError>
    ensures { IfOk result (λ at. at ≡ first_other (number width.now) fields.now) }
{
    for field in fields {
        let bits = wide(alloc, &field.of)?;
        if !is_equal(bits.as_slice(), width) {
            return Ok(Some(field.at));
        }
    }
    Ok(None)
}

// The bits of the first member.
fn first_width(alloc: Global, fields: &[Field]) -> Result<Limbs, AllocError>
    ensures { IfOk result (λ w. number w ≡ types.first_width fields.now) }
{
    match sv_source::at(fields, 0) {
        Some(field) => wide(alloc, &field.of),
        None => Ok(Limbs::new(alloc)),
    }
}

// That all members have as many bits as the first.
fn may_unite(alloc: Global, fields: &[Field]) -> Result<(), Halt>
    ensures { Unites result (first_other (types.first_width fields.now) fields.now) }
{
    let width = first_width(alloc, fields)?;
    match first_other(alloc, width.as_slice(), fields)? {
        Some(at) => Err(Halt::Breaks { at, rule: 506 }),
        None => Ok(()),
    }
}

// A union by its first word and its members.
fn unite(
    alloc: Global,
    text: Source<'_>,
    at: u32,
    packing: Option<Packing>,
    fields: Items<Field>,
) -> Result<SvType, AllocError>
    ensures { IfOk result (λ t. t ≡ Union at (types.sign_by packing) (map (types.member (source text.entry)) fields)) }
{
    let members = members_of(alloc, text, fields)?;
    Ok(SvType::Union {
        id: at,
        signed: sign_by(packing),
        members,
    })
}

/// A union by its first word and its members. It breaks E506, at the name of the first member that hasn't as many bits as the first
/// one.
#[tactic(auto, using(crate::proofs::Uniting::uniting))]
pub fn union_of(
    alloc: Global,
    text: Source<'_>,
    at: u32,
    packing: Option<Packing>,
    fields: Items<Field>,
) -> Result<SvType, Halt>
    ensures { Gives result (types.aggregate (source text.entry) (aggregate.Union at) packing fields) }
{
    match may_unite(alloc, fields.as_slice()) {
        Err(halt) => Err(halt),
        Ok(()) => Ok(unite(alloc, text, at, packing, fields)?),
    }
}
