//! Locals: those that blocks start, and the variables of loops.

ghost use Rattle.std.specs.Prelude.{◌≡◌, ◌∷◌, IfOk, OnOk, length};
ghost use Rattle.std.specs.Prelude.{Bool, List};
ghost use Rattle.sv_types.specs.Flows as F;
ghost use Rattle.sv_types.specs.Surroundings.{local_number};
ghost use Rattle.flow_sets.specs.Ends.{AreKnown};
ghost use Rattle.flow_sets.specs.Flows.{IsFlow};
ghost use Rattle.part_flows.specs.Locals.{LocalHolds};

use b4_core::Vec4;
use bit_sets::Use;
use eval_parts::entire;
use eval_store::write_local;
use expr_flows::Variable;
use flow_sets::{Found, Write, Writes, local_span, writing};
use std::alloc::{AllocError, Global};

/// A local with so many bits is written whole.
pub fn setting(alloc: Global, local: u32, width: u32) -> Result<Found, AllocError>
    ensures known { IfOk result (λ r. AreKnown r.ends) }
    ensures flow { IfOk result (λ r. (marks : List Bool) → length marks ≡ width → IsFlow r (F.setting local marks)) }
{
    let mut writes = Writes::new(alloc);
    writes.push(Write {
        of: Use {
            span: local_span(local, width),
            at: 0,
        },
        exact: true,
    })?;
    writing(alloc, writes)
}

/// Another copy of what locals hold.
pub fn copied(alloc: Global, locals: &[Option<Vec4>]) -> Result<Vec<Option<Vec4>>, AllocError>
    ensures { IfOk result (λ r. r.items ≡ locals.now) }
{
    let mut all = Vec::with_capacity(alloc, locals.len())?;
    for slot in locals {
        all.push(match slot {
            None => None,
            Some(v) => Some(Vec4::from_slice(alloc, v.as_slice())?),
        })?;
    }
    Ok(all)
}

/// One more variable in front of some.
pub fn with_variable(
    alloc: Global,
    v: Variable,
    variables: &[Variable],
) -> Result<Vec<Variable>, AllocError>
    ensures { IfOk result (λ r. r.items ≡ v ∷ variables.now) }
{
    let mut all = Vec::with_capacity(alloc, variables.len() + 1)?;
    all.push(v)?;
    all.extend_from_slice(variables)?;
    Ok(all)
}

/// A local holds these bits from now on.
pub fn hold(
    alloc: Global,
    locals: &mut Vec<Option<Vec4>>,
    v: Variable,
    bits: &Vec4,
) -> Result<(), AllocError>
    ensures { OnOk result (LocalHolds v bits.now locals.old.items locals.new.items) }
{
    write_local(alloc, locals, v.local, entire(v.width), bits)
}
