//! Targets for select paths, and what names their indices where nothing is written.

ghost use Rattle.std.specs.Prelude.{◌≤◌, IfOk};
ghost use Rattle.sv_types.specs.Expressions.{meaning};
ghost use Rattle.target_flatten.specs.Owning.{AllOwn};
ghost use Rattle.case_targets.specs.Spreading.{AllShort, IsShaped};
ghost use Rattle.case_targets.specs.Naming.{SpreadsTo, BareOf};

use crate::indices::{PathIndex, givens_of};
use crate::targets::spread;
use std::alloc::{AllocError, Global};
use sv_source::Text;
use sv_types::Expr;
use target_walk::{Targets, with_names};

/// Targets for a select path in a vector of so many bits under a name, all of whose guards and indices are valued before the first one
/// is written. The indices are those of the path's `[i]`, `[i +: n]` and `[i -: n]`, the last step's first. For each number that an
/// index of a part-select may have there are those for the path with that number in its place, under the condition that the index
/// has it. Where nothing is written, an expression names what lowered indices do. Or want of memory.
pub fn spread_target(
    alloc: Global,
    name: &Text,
    bits: u32,
    e: &Expr,
    indices: &[PathIndex],
) -> Result<Targets, AllocError>
    requires narrow { (meaning e.now).widest ≤ 4194304 }
    requires shaped { IsShaped e.now indices.now }
    requires short { AllShort indices.now }
    ensures writes { IfOk result (SpreadsTo bits e.now indices.now) }
    ensures own { IfOk result (λ r. AllOwn name.now bits r.writes) }
    ensures plain { IfOk result (BareOf name.now indices.now) }
{
    let writes = spread(alloc, name, bits, e, &[], indices);
    let (givens, writes) = pairs::both(givens_of(alloc, indices), writes)?;
    with_names(alloc, givens.as_slice(), Ok(writes))
}
