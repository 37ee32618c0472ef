//! Elements of what is indexed (IEEE 1800-2017 clauses 7.2.1, 7.4.5, 7.4.6 and 11.5.1).

ghost use Rattle.std.specs.Prelude.{◌≡◌, map, IfOk};
ghost use Rattle.std.specs.List.{list_all};
ghost use Rattle.sv_types.specs.Layouts.{layout, member_layout, stacked_marks};
ghost use Rattle.expr_type.specs.Shapes as shape;

use crate::copies::copy_type;
use std::alloc::{AllocError, Global};
use sv_types::{Member, SvType};

/// Whether all bits of a type are two-state (clause 6.3.1).
#[cycle(states)]
#[tactic(auto, using(crate::proofs::States::states))]
pub fn is_two_state(t: &SvType) -> bool
    ensures { result ≡ list_all (λ b. b) (layout t.now).two_state }
{
    match t {
        SvType::Scalar { four, .. } => !*four,
        SvType::PackedArray { item, .. } => is_two_state(item.get()),
        SvType::Struct { members, .. } => are_two_state(members.as_slice()),
        SvType::Union { members, .. } => are_two_state(members.as_slice()),
        SvType::Enum { base, .. } => is_two_state(base.get()),
        SvType::UnpackedArray { item, .. } => is_two_state(item.get()),
    }
}

#[cycle(states)]
#[tactic(auto, using(crate::proofs::States::members))]
fn are_two_state(members: &[Member]) -> bool
    ensures { result ≡ list_all (λ b. b) (stacked_marks (map member_layout members.now)) }
{
    for member in members {
        if !is_two_state(&member.of) {
            return false;
        }
    }
    true
}

// One bit of a type.
fn bit_of_type(t: &SvType) -> SvType
    ensures { result ≡ shape.bit_of_type t.now }
{
    SvType::Scalar {
        four: !is_two_state(t),
        signed: false,
    }
}

/// The type of an element of what is indexed: a scalar, a packed struct and a union are indexed as vectors of their bits, and an
/// enum as its base. Or want of memory.
pub fn element_of(alloc: Global, t: &SvType) -> Result<SvType, AllocError>
    ensures { IfOk result (λ e. e ≡ shape.element_of t.now) }
{
    match t {
        SvType::Scalar { four, .. } => Ok(SvType::Scalar {
            four: *four,
            signed: false,
        }),
        SvType::PackedArray { item, .. } => copy_type(alloc, item.get()),
        SvType::Struct { .. } => Ok(bit_of_type(t)),
        SvType::Union { .. } => Ok(bit_of_type(t)),
        SvType::Enum { base, .. } => element_of(alloc, base.get()),
        SvType::UnpackedArray { item, .. } => copy_type(alloc, item.get()),
    }
}
