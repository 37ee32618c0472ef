//! The bits that a function is to write.

ghost use Rattle.std.specs.Prelude.{◌≡◌, ◌≤◌, ◌∷◌, ◌++◌, [], map, reverse, length, IfOk, OnOk};
ghost use Rattle.sv_types.specs.Layouts.{width_of};
ghost use Rattle.sv_types.specs.declared.types.Member.{Member};
ghost use Rattle.eval_parts.specs.Targets.{AllNarrow};
ghost use Rattle.eval_parts.proofs.Members.{total_of};
ghost use Rattle.eval_forms.specs.Callees.{FunctionFits};
ghost use Rattle.function_breaks.specs.Owed as spec;

use bit_sets::{Use, Uses};
use flow_sets::use_at;
use std::alloc::{AllocError, Global};
use sv_source::Spot;
use sv_types::{Formal, Function, FunctionKind, Member, SvType, Way, width};

// The use of some bits of a local.
fn local_use(local: u32, low: u32, high: u32, at: u32) -> Use
    ensures { result ≡ spec.local_use local low high at }
{
    use_at(4294967296 + local as u64, low, high, at)
}

fn is_output(way: Way) -> bool
    ensures { result ≡ spec.is_output way }
{
    match way {
        Way::Input => false,
        Way::Output => true,
        Way::Inout => false,
    }
}

// All bits of the result, at one token.
fn whole_result(alloc: Global, of: &SvType, at: u32) -> Result<Uses, AllocError>
    requires { width_of of.now ≤ 4194304 }
    ensures { IfOk result (λ r. r ≡ spec.local_use 0 0 (width_of of.now) at ∷ []) }
{
    let mut uses = Uses::new(alloc);
    uses.push(local_use(0, 0, width(of), at))?;
    Ok(uses)
}

// All bits of each output, at its name.
#[tactic(auto, using(crate::proofs::Listing::narrow_laws))]
fn outputs(alloc: Global, formals: &[Formal]) -> Result<Uses, AllocError>
    requires { AllNarrow formals.now }
    ensures { IfOk result (λ r. r ≡ spec.formal_uses formals.now) }
{
    let mut uses = Uses::new(alloc);
    for p in formals {
        if is_output(p.way) {
            uses.push(local_use(p.local.number, 0, width(&p.local.of), p.spot.at))?;
        }
    }
    Ok(uses)
}

// The bits of each member of a struct, the last one lowest, each at the token that stands for it, and no bit from `end` on.
fn members(alloc: Global, members: &[Member], spots: &[Spot], end: u32) -> Result<Uses, AllocError>
    requires narrow { total_of members.now ≤ 4194304 }
    requires end { end ≤ 4194304 }
    ensures { IfOk result (λ r. r ≡ spec.member_uses end 0 (reverse (map (λ (m : Member). width_of m.of) members.now)) (reverse spots.now)) }
{
    let mut uses = Uses::new(alloc);
    let mut low = 0;
    let mut k = 0;
    while k < members.len() && k < spots.len() {
        let member = &members[members.len() - 1 - k];
        let spot = &spots[spots.len() - 1 - k];
        let high = (low + width(&member.of)).min(end);
        uses.push(local_use(0, low, high, spot.at))?;
        low = high;
        k += 1;
    }
    Ok(uses)
}

// The members of a struct; none of another type.
fn members_of(of: &SvType) -> &[Member]
    requires { width_of of.now ≤ 4194304 }
    ensures narrow { total_of result.now ≤ 4194304 }
    ensures widths { spec.member_widths of.now ≡ reverse (map (λ (m : Member). width_of m.of) result.now) }
{
    match of {
        SvType::Scalar { .. } => &[],
        SvType::PackedArray { .. } => &[],
        SvType::Struct { members, .. } => members.as_slice(),
        SvType::Union { .. } => &[],
        SvType::Enum { .. } => &[],
        SvType::UnpackedArray { .. } => &[],
    }
}

// The bits of each member of a result.
fn made(alloc: Global, of: &SvType, spots: &[Spot]) -> Result<Uses, AllocError>
    requires { width_of of.now ≤ 4194304 }
    ensures { IfOk result (λ r. r ≡ spec.made_uses of.now spots.now) }
{
    members(alloc, members_of(of), spots, width(of))
}

/// The bits that a function is to write on every path, with the token that stands for each: those of its result at its name, those
/// of a routine's outputs at theirs, and those of a result that was made of outputs at the outputs' names. Bits are numbered as
/// `flow_sets` says.
pub fn owed(alloc: Global, f: &Function) -> Result<Uses, AllocError>
    requires { FunctionFits f.now }
    ensures { IfOk result (λ r. r ≡ spec.owed_uses f.now) }
{
    match &f.kind {
        FunctionKind::Plain => whole_result(alloc, &f.of, f.spot.at),
        FunctionKind::Routine => outputs(alloc, f.formals.as_slice()),
        FunctionKind::Made(spots) => made(alloc, &f.of, spots.as_slice()),
    }
}
