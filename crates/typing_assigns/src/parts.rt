//! Targets and what they are made of.

ghost use Rattle.std.specs.Prelude.{◌≡◌, ◌<◌, ◌+◌, ◌%◌, ◌&&◌, ◌==◌, not, map, IfOk};
ghost use Rattle.std.specs.List.{list_any};
ghost use Rattle.expr_type.specs.Answers.{Gives};
ghost use Rattle.expr_type.specs.Operators.{all_bits, exprs};
ghost use Rattle.expr_type.specs.Targets as def;
ghost use Rattle.operand_types.specs.Allowed.{AllNarrow};
ghost use Rattle.typing_assigns.specs.Parts.{AllNarrowParts, AllNarrowValues, GivesTarget, NarrowTarget, of_part, part_meant, part_result};
ghost use Rattle.typing_assigns.specs.Targets.{StandsFor};

use crate::target::{Target, TargetPart};
use call_types::stream_of;
use expr_type::{Halt, Valued};
use operand_types::concat_of;
use std::alloc::{AllocError, Global};
use sv_types::{Expr, Exprs, width};
use type_kinds::{is_enum, is_unpacked};
use typing_parts::Names;

/// A target as a part of a concatenated one: it has bits (E508), and is no stream (E512).
pub fn target_part<S: Names>(names: &S, t: Target) -> Result<TargetPart, Halt>
    ensures value { (d : def.Target) → StandsFor t d → Gives (part_result result) (def.is_target_part (S.context names.now) d) }
{
    match t {
        Target::Path(of) => {
            if is_unpacked(&of.expr.of) {
                return Err(Halt::Breaks {
                    at: of.first,
                    rule: 508,
                });
            }
            let has_enum = is_enum(&of.expr.of);
            Ok(TargetPart { of, has_enum })
        }
        Target::Parts { of, has_enum } => Ok(TargetPart { of, has_enum }),
        Target::Stream(of) => Err(Halt::Breaks {
            at: of.first,
            rule: 512,
        }),
    }
}

/// A target as a part of a stream.
pub fn whole_of(t: Target) -> Valued
    ensures value { (d : def.Target) → StandsFor t d → result ≡ def.whole_of d }
{
    match t {
        Target::Path(of) => of,
        Target::Parts { of, .. } => of,
        Target::Stream(of) => of,
    }
}

// The targets of parts, and whether one of them is an enum.
#[tactic(auto, using(crate::proofs::Joining::apart))]
fn taken_apart(alloc: Global, parts: Vec<TargetPart>) -> Result<(Exprs, bool), AllocError>
    ensures exprs { IfOk result (λ p. p.0 ≡ exprs (map of_part parts.items)) }
    ensures enums { IfOk result (λ p. p.1 ≡ list_any (λ (p : def.TargetPart). p.has_enum) (map part_meant parts.items)) }
{
    let mut made = Exprs::new(alloc);
    let mut has_enum = false;
    for part in parts {
        let TargetPart {
            of,
            has_enum: is_enum,
        } = part;
        let Valued { expr, .. } = of;
        has_enum = has_enum || is_enum;
        made.push(expr)?;
    }
    Ok((made, has_enum))
}

/// A concatenation of targets at its `{`, of at most 2^22 bits each. It breaks E701 where they have more than 65,536 together.
#[tactic(auto, using(crate::proofs::Joining::targets))]
pub fn joined_target<S: Names>(
    alloc: Global,
    names: &S,
    opening: u32,
    parts: Vec<TargetPart>,
) -> Result<Target, Halt>
    requires { AllNarrowParts parts.items }
    ensures value { GivesTarget result (def.joined_target (S.context names.now) opening (map part_meant parts.items)) }
    ensures narrow { NarrowTarget result }
{
    let (exprs, has_enum) = taken_apart(alloc, parts)?;
    match concat_of(alloc, names.text(), opening, exprs) {
        Ok(of) => Ok(Target::Parts { of, has_enum }),
        Err(halt) => Err(halt),
    }
}

// The expressions of values.
#[tactic(auto, using(crate::proofs::Joining::apart))]
fn exprs_of(alloc: Global, values: Vec<Valued>) -> Result<Exprs, AllocError>
    ensures { IfOk result (λ es. es ≡ exprs values.items) }
{
    let mut made = Exprs::new(alloc);
    for value in values {
        made.push(value.expr)?;
    }
    Ok(made)
}

// How many bits are left behind some more of them where slices of so many are taken.
fn next_left(left: u32, bits: u32, slice: u32) -> u32
    requires { 0 < slice }
    ensures left { result ≡ (left + bits) % slice }
    ensures small { result < slice }
{
    let bits = u64::from(left) + u64::from(bits);
    (bits % u64::from(slice)) as u32
}

// How many bits are left where slices of so many are taken.
#[tactic(auto, using(crate::proofs::Joining::lefts))]
fn left_over(slice: u32, parts: &[Expr]) -> u32
    requires slice { 0 < slice }
    requires narrow { AllNarrow parts.now }
    ensures { result ≡ all_bits parts.now % slice }
{
    let mut left: u32 = 0;
    for part in parts {
        left = next_left(left, width(&part.of), slice);
    }
    left
}

// Whether slices in reverse order aren't whole.
fn is_cut(reversed: bool, slice: u32, parts: &[Expr]) -> bool
    requires slice { 0 < slice }
    requires narrow { AllNarrow parts.now }
    ensures { result ≡ (reversed && not (all_bits parts.now % slice == 0)) }
{
    reversed && left_over(slice, parts) != 0
}

/// A stream of targets of at most 2^22 bits each, at its outer `{`, in slices of so many bits. Where these stand in reverse order they
/// are whole (E511), and it has at most 65,536 bits (E701).
#[tactic(auto, using(crate::proofs::Joining::targets))]
pub fn stream_target<S: Names>(
    alloc: Global,
    names: &S,
    opening: u32,
    reversed: bool,
    slice: u32,
    targets: Vec<Valued>,
) -> Result<Target, Halt>
    requires slice { 0 < slice }
    requires narrow { AllNarrowValues targets.items }
    ensures value { GivesTarget result (def.stream_target (S.context names.now) opening reversed slice targets.items) }
    ensures narrow { NarrowTarget result }
{
    let exprs = exprs_of(alloc, targets)?;
    if is_cut(reversed, slice, exprs.as_slice()) {
        return Err(Halt::Breaks {
            at: opening,
            rule: 511,
        });
    }
    match stream_of(alloc, names.text(), opening, reversed, slice, exprs) {
        Ok(of) => Ok(Target::Stream(of)),
        Err(halt) => Err(halt),
    }
}
