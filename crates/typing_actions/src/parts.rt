//! Concatenations and streams of targets that are typed, or not whole.

ghost use Rattle.std.specs.Prelude.{◌≡◌, ◌<◌, ℕ, List, IfOk};
ghost use Rattle.sv_types.specs.declared.statement.Function.{Function};
ghost use Rattle.expr_type.specs.declared.operand.Valued as def_valued;
ghost use Rattle.expr_type.specs.Targets as def;
ghost use Rattle.expr_type.specs.Typings.{Typing};
ghost use Rattle.operand_types.specs.Allowed.{IsNarrow};
ghost use Rattle.typing_assigns.specs.Parts.{AllNarrowParts, AllNarrowValues, NarrowTarget, part_meant};
ghost use Rattle.typing_assigns.specs.Targets.{TargetsTo};
ghost use Rattle.typing_calls.specs.Lists.{all_meant, as_meant};
ghost use Rattle.typing_steps.specs.Steps.{TypesTo};
ghost use Rattle.typing_actions.specs.Walks as walks;

use expr_type::{Halt, Valued};
use std::alloc::Global;
use sv_tree::StreamOperator;
use typing_assigns::{Target, TargetPart, joined_target, stream_target, target_part, whole_of};
use typing_exprs::reverses;
use typing_parts::Names;
use typing_sides::beside;

/// A target as a part of a concatenated one, where it is whole.
#[tactic(auto, using(crate::proofs::Joining::parts))]
pub(crate) fn as_part<S: Names>(names: &S, t: Result<Target, Halt>) -> Result<TargetPart, Halt>
    requires narrow { NarrowTarget t }
    ensures value { (x : Typing def.Target) (fs gs : List Function) → TargetsTo t (x fs) gs → TypesTo (as_meant part_meant result) (walks.as_part (S.context names.now) x fs) gs }
    ensures narrow { (x : Typing def.Target) (fs gs : List Function) → TargetsTo t (x fs) gs → IfOk result (λ p. IsNarrow p.of) }
{
    target_part(names, t?)
}

/// A target as a part of a stream, where it is whole.
#[tactic(auto, using(crate::proofs::Joining::wholes))]
pub(crate) fn as_whole(t: Result<Target, Halt>) -> Result<Valued, Halt>
    requires narrow { NarrowTarget t }
    ensures value { (x : Typing def.Target) (fs gs : List Function) → TargetsTo t (x fs) gs → TypesTo (as_meant walks.as_itself result) (walks.as_whole x fs) gs }
    ensures narrow { (x : Typing def.Target) (fs gs : List Function) → TargetsTo t (x fs) gs → IfOk result IsNarrow }
{
    Ok(whole_of(t?))
}

/// A concatenation of targets at its `{`, where all of them are whole.
#[tactic(auto, using(crate::proofs::Joining::joins))]
pub(crate) fn joined<S: Names>(
    alloc: Global,
    names: &S,
    opening: u32,
    parts: Result<Vec<TargetPart>, Halt>,
) -> Result<Target, Halt>
    requires narrow { IfOk parts (λ ps. AllNarrowParts ps.items) }
    ensures value { (x : Typing (List def.TargetPart)) (fs gs : List Function) → TypesTo (all_meant part_meant parts) (x fs) gs → TargetsTo result (walks.joined (S.context names.now) opening x fs) gs }
    ensures narrow { NarrowTarget result }
{
    joined_target(alloc, names, opening, parts?)
}

/// A stream of targets at its outer `{`, in slices of so many bits, where all of that is whole.
#[tactic(auto, using(crate::proofs::Joining::streams))]
pub(crate) fn streamed<S: Names>(
    alloc: Global,
    names: &S,
    opening: u32,
    operator: StreamOperator,
    slice: Result<u32, Halt>,
    targets: Result<Vec<Valued>, Halt>,
) -> Result<Target, Halt>
    requires some { IfOk slice (λ n. 0 < n) }
    requires narrow { IfOk targets (λ vs. AllNarrowValues vs.items) }
    ensures value { (x : Typing ℕ) (y : Typing (List def_valued.Valued)) (fs gs hs : List Function) → TypesTo slice (x fs) gs → TypesTo (all_meant walks.as_itself targets) (y gs) hs → TargetsTo result (walks.streamed (S.context names.now) opening operator x y fs) hs }
    ensures narrow { NarrowTarget result }
{
    let (slice, targets) = beside(slice, targets)?;
    stream_target(alloc, names, opening, reverses(operator), slice, targets)
}
