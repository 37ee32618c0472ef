//! Breaks by what one process reads and writes.

ghost use Rattle.std.specs.Prelude.{◌≡◌, true, false, IfOk};
ghost use Rattle.flow_sets.specs.Ends.{IsKnown};
ghost use Rattle.flow_sets.specs.Flows.{IsFlow};
ghost use Rattle.sv_types.specs.declared.design.Design.{Design};
ghost use Rattle.sv_types.specs.declared.design.Process.{Process};
ghost use Rattle.design_breaks.specs.Memories.{flow, is_edged};
ghost use Rattle.design_breaks.specs.Breaks as B;
ghost use Rattle.comb_order.specs.Bits.{KeepsLimits, widths_of};
ghost use Rattle.least_breaks.specs.Least.{IsLeastToken};

use bit_sets::union_of;
use bit_tokens::{least_inside, least_outside};
use comb_order::{kept_write_uses, kept_writes};
use flow_sets::Found;
use least_breaks::least_of;
use std::alloc::{AllocError, Global};

/// The first write of a bit that a path to the end leaves unwritten, of a process that isn't a latch or an edge process.
#[tactic(auto, using(crate::proofs::Tokens::own_laws))]
pub fn left_out(alloc: Global, widths: &[u32], found: &Found) -> Result<Option<u32>, AllocError>
    requires known { IsKnown found.now.ends.normal }
    ensures { IfOk result (λ r. (d : Design) (p : Process) → KeepsLimits d → widths.now ≡ widths_of d.signals → IsFlow found.now (flow d p) → B.unrolls d p.body ≡ true → B.is_complete d p.kind ≡ false → IsLeastToken (B.left_out d p) r) }
{
    match &found.ends.normal {
        None => Ok(None),
        Some(set) => {
            let writes = kept_write_uses(alloc, widths, found.writes.as_slice())?;
            least_outside(alloc, set.as_slice(), writes.as_slice())
        }
    }
}

/// The first read of an own bit that a path reads before it wrote it, of a process that isn't an edge process.
#[tactic(auto, using(crate::proofs::Tokens::own_laws))]
pub fn read_early(alloc: Global, widths: &[u32], found: &Found) -> Result<Option<u32>, AllocError>
    ensures { IfOk result (λ r. (d : Design) (p : Process) → KeepsLimits d → widths.now ≡ widths_of d.signals → IsFlow found.now (flow d p) → B.unrolls d p.body ≡ true → is_edged p.kind ≡ false → IsLeastToken (B.read_early d p) r) }
{
    let spans = kept_writes(alloc, widths, found.writes.as_slice())?;
    let written = union_of(alloc, spans.as_slice())?;
    Ok(least_inside(written.as_slice(), found.early.as_slice()))
}

/// The first read of a local that a path reads before it wrote it.
#[tactic(auto, using(crate::proofs::Tokens::own_laws))]
pub fn least_unset(found: &Found) -> Option<u32>
    ensures { (d : Design) (p : Process) → KeepsLimits d → IsFlow found.now (flow d p) → B.unrolls d p.body ≡ true → IsLeastToken (B.local_early d p) result }
{
    least_of(found.unset.as_slice())
}
