//! The walk over targets.

ghost use Rattle.std.specs.Prelude.{◌≡◌, map, true, IfOk};
ghost use Rattle.expr_type.specs.Targets as def;
ghost use Rattle.routine_fits.specs.Sound.{AllSoundFunctions};
ghost use Rattle.typing_fits.specs.Sound.{Extends};
ghost use Rattle.stmt_walks.specs.Written.{lvalue_written};
ghost use Rattle.typing_assigns.specs.Parts.{AllNarrowParts, AllNarrowValues, NarrowTarget, part_meant};
ghost use Rattle.typing_assigns.specs.Targets.{TargetsTo};
ghost use Rattle.typing_calls.specs.Lists.{all_meant};
ghost use Rattle.typing_parts.specs.Typists.{IsReady, MakesKnown};
ghost use Rattle.typing_steps.specs.Steps.{TypesTo};
ghost use Rattle.typing_walks.specs.Keeps.{Surrounded};
ghost use Rattle.typing_walks.specs.Written as written;
ghost use Rattle.typing_actions.specs.Walks as walks;

use crate::parts::{as_part, as_whole, joined, streamed};
use crate::paths::name_target;
use crate::sizes::slice_size;
use expr_type::{Halt, Valued};
use std::alloc::Global;
use sv_tree::Lvalue;
use typing_assigns::{Target, TargetPart};
use typing_calls::followed;
use typing_parts::Known;
use typing_paths::Nets;

// The parts of a concatenation, all of which are looked at.
#[cycle(lvalue)]
fn parts<S: Nets, C: Fn(u32, &mut Known) -> Result<u32, Halt>>(
    alloc: Global,
    names: &S,
    needs: &C,
    in_statement: bool,
    targets: &[Lvalue],
    known: &mut Known,
) -> Result<Vec<TargetPart>, Halt>
    requires needs { MakesKnown _ ((n : _) (k : _) → IsReady k.now → C.pre needs.now n k) (λ k. k.now) (C.post needs.now) (S.context names.now) }
    requires names { Surrounded AllSoundFunctions (S.context names.now) }
    requires written { written.all (map lvalue_written targets.now) ≡ true }
    requires ready { IsReady known.old }
    ensures value { TypesTo (all_meant part_meant result) (walks.parts_of (S.context names.now) in_statement targets.now known.old.functions) known.new.functions }
    ensures narrow { IfOk result (λ ps. AllNarrowParts ps.items) }
    ensures ready { IsReady known.new }
    ensures keeps { Extends known.old.functions known.new.functions }
{
    let mut made: Result<Vec<TargetPart>, Halt> = Ok(Vec::new(alloc));
    for to in targets {
        let next = target(alloc, names, needs, in_statement, to, known);
        made = followed(made, as_part(names, next));
    }
    made
}

// The parts of a stream, all of which are looked at.
#[cycle(lvalue)]
fn wholes<S: Nets, C: Fn(u32, &mut Known) -> Result<u32, Halt>>(
    alloc: Global,
    names: &S,
    needs: &C,
    in_statement: bool,
    targets: &[Lvalue],
    known: &mut Known,
) -> Result<Vec<Valued>, Halt>
    requires needs { MakesKnown _ ((n : _) (k : _) → IsReady k.now → C.pre needs.now n k) (λ k. k.now) (C.post needs.now) (S.context names.now) }
    requires names { Surrounded AllSoundFunctions (S.context names.now) }
    requires written { written.all (map lvalue_written targets.now) ≡ true }
    requires ready { IsReady known.old }
    ensures value { TypesTo (all_meant walks.as_itself result) (walks.wholes_of (S.context names.now) in_statement targets.now known.old.functions) known.new.functions }
    ensures narrow { IfOk result (λ vs. AllNarrowValues vs.items) }
    ensures ready { IsReady known.new }
    ensures keeps { Extends known.old.functions known.new.functions }
{
    let mut made: Result<Vec<Valued>, Halt> = Ok(Vec::new(alloc));
    for to in targets {
        let next = target(alloc, names, needs, in_statement, to, known);
        made = followed(made, as_whole(next));
    }
    made
}

/// What is assigned to, in a statement or in a continuous assignment: a name with selects, or a concatenation or stream of targets (IEEE
/// 1800-2017 clauses 10.3, 10.4, 11.4.12 and 11.4.14). Its first break in the order of the text counts: besides those of
/// `typing_paths::named_target` an unpacked part of a concatenation (E508), a stream in one (E512), slices that aren't whole (E511),
/// and more than 65,536 bits (E701).
#[cycle(lvalue)]
pub fn target<S: Nets, C: Fn(u32, &mut Known) -> Result<u32, Halt>>(
    alloc: Global,
    names: &S,
    needs: &C,
    in_statement: bool,
    to: &Lvalue,
    known: &mut Known,
) -> Result<Target, Halt>
    requires needs { MakesKnown _ ((n : _) (k : _) → IsReady k.now → C.pre needs.now n k) (λ k. k.now) (C.post needs.now) (S.context names.now) }
    requires names { Surrounded AllSoundFunctions (S.context names.now) }
    requires written { lvalue_written to.now ≡ true }
    requires ready { IsReady known.old }
    ensures value { TargetsTo result (def.target to.now (S.context names.now) in_statement known.old.functions) known.new.functions }
    ensures narrow { NarrowTarget result }
    ensures ready { IsReady known.new }
    ensures keeps { Extends known.old.functions known.new.functions }
{
    match to {
        Lvalue::Name { name, selects } => {
            let selects = selects.as_slice();
            name_target(alloc, names, needs, in_statement, *name, selects, known)
        }
        Lvalue::Concatenation {
            opening,
            targets,
            ..
        } => {
            let inner = targets.as_slice();
            let found = parts(alloc, names, needs, in_statement, inner, known);
            joined(alloc, names, *opening, found)
        }
        Lvalue::Stream {
            opening,
            operator,
            size,
            targets,
            ..
        } => {
            let streamed_here = targets.as_slice();
            let slice = slice_size(alloc, names, needs, size, known);
            let found = wholes(alloc, names, needs, in_statement, streamed_here, known);
            streamed(alloc, names, *opening, *operator, slice, found)
        }
    }
}
