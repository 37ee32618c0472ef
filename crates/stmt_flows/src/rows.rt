//! Flows one after another and side by side, where statements may be counted.

ghost use Rattle.std.specs.Prelude.{◌≡◌, IfOk};
ghost use Rattle.sv_types.specs.Flows as F;
ghost use Rattle.flow_sets.specs.Ends.{AreKnown};
ghost use Rattle.flow_sets.specs.Flows.{IsFlow};
ghost use Rattle.stmt_flows.specs.Gives.{FoundGives, no_token};

use crate::fails::StmtFail;
use flow_sets::{Found, and_then, or_else};
use std::alloc::Global;

const MOST: u32 = 1048576;

// No more statements run than may, if they are counted.
fn checked(counting: bool, found: Found) -> Result<Found, StmtFail>
    requires { AreKnown found.ends }
    ensures known { IfOk result (λ r. AreKnown r.ends) }
    ensures gives { (f : F.Flow) → IsFlow found f → FoundGives result counting no_token f }
{
    if counting && found.statements > MOST {
        return Err(StmtFail::TooMany);
    }
    Ok(found)
}

/// One statement and then another.
pub fn in_row(alloc: Global, counting: bool, first: Found, then: Found) -> Result<Found, StmtFail>
    requires first { AreKnown first.ends }
    requires then { AreKnown then.ends }
    ensures known { IfOk result (λ r. AreKnown r.ends) }
    ensures gives { (f g : F.Flow) → IsFlow first f → IsFlow then g → FoundGives result counting no_token (F.and_then f g) }
{
    let both = and_then(alloc, first, then)?;
    checked(counting, both)
}

/// One of two statements.
pub fn either(alloc: Global, counting: bool, first: Found, other: Found) -> Result<Found, StmtFail>
    requires first { AreKnown first.ends }
    requires other { AreKnown other.ends }
    ensures known { IfOk result (λ r. AreKnown r.ends) }
    ensures gives { (f g : F.Flow) → IsFlow first f → IsFlow other g → FoundGives result counting no_token (F.or_else f g) }
{
    let both = or_else(alloc, first, other)?;
    checked(counting, both)
}
