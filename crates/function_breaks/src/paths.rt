//! Breaks by the paths through the body of a function.

ghost use Rattle.std.specs.Prelude.{◌≡◌, true, IfOk};
ghost use Rattle.flow_sets.specs.Ends.{IsKnown};
ghost use Rattle.flow_sets.specs.Flows.{IsFlow};
ghost use Rattle.sv_types.specs.declared.design.Design.{Design};
ghost use Rattle.sv_types.specs.declared.statement.Function.{Function};
ghost use Rattle.eval_forms.specs.Callees.{FunctionFits};
ghost use Rattle.design_breaks.specs.Breaks as B;
ghost use Rattle.function_breaks.specs.Owed.{owed_uses};
ghost use Rattle.function_breaks.specs.Early as E;
ghost use Rattle.least_breaks.specs.Least.{IsLeastToken};

use bit_sets::{Span, Spans, Use, common, union_of};
use bit_tokens::{least_inside, least_outside};
use flow_sets::Found;
use least_breaks::least_of;
use std::alloc::{AllocError, Global};

/// The first token of the bits that a function owes (`owed`) which a path to its end or to a `return` leaves unwritten (E603), by
/// what is found of its body, which can be unrolled.

pub fn result_left_out(
    alloc: Global,
    owed: &[Use],
    found: &Found,
) -> Result<Option<u32>, AllocError>
    requires normal { IsKnown found.now.ends.normal }
    requires returns { IsKnown found.now.ends.returns }
    ensures { IfOk result (λ r. (d : Design) (f : Function) → FunctionFits f → owed.now ≡ owed_uses f → IsFlow found.now (B.function_flow d f) → B.unrolls d f.body ≡ true → IsLeastToken (B.result_left_out d f) r) }
{
    match &found.ends.normal {
        None => match &found.ends.returns {
            None => Ok(None),
            Some(set) => least_outside(alloc, set.as_slice(), owed),
        },
        Some(set) => match &found.ends.returns {
            None => least_outside(alloc, set.as_slice(), owed),
            Some(other) => {
                let both = common(alloc, set.as_slice(), other.as_slice())?;
                least_outside(alloc, both.as_slice(), owed)
            }
        },
    }
}

// The bits of uses.
fn spans_of(alloc: Global, uses: &[Use]) -> Result<Spans, AllocError>
    ensures { IfOk result (λ r. r ≡ E.spans_of uses.now) }
{
    let mut spans = Spans::new(alloc);
    for u in uses {
        spans.push(u.span)?;
    }
    Ok(spans)
}

/// The first read of a bit that a function owes (`owed`) which a path makes before it wrote the bit (E604).
pub fn result_read_early(
    alloc: Global,
    owed: &[Use],
    found: &Found,
) -> Result<Option<u32>, AllocError>
    ensures { IfOk result (λ r. (d : Design) (f : Function) → FunctionFits f → owed.now ≡ owed_uses f → IsFlow found.now (B.function_flow d f) → B.unrolls d f.body ≡ true → IsLeastToken (E.result_early d f) r) }
{
    let spans = spans_of(alloc, owed)?;
    let bits = union_of(alloc, spans.as_slice())?;
    Ok(least_inside(bits.as_slice(), found.early.as_slice()))
}

/// The first read of a local of a block in a function that a path makes before it wrote the local (E604).
pub fn local_read_early(found: &Found) -> Option<u32>
    ensures { (d : Design) (f : Function) → IsFlow found.now (B.function_flow d f) → B.unrolls d f.body ≡ true → IsLeastToken (E.local_early d f) result }
{
    least_of(found.unset.as_slice())
}
