//! The values of constants that control loops (IEEE 1800-2017 clauses 10.7 and 12.7.1).

ghost use Rattle.std.specs.Prelude.{◌≡◌, ◌≤◌, true};
ghost use Rattle.b4_core.specs.Bits.{is_one};
ghost use Rattle.b4_core.specs.Bitwise.{truth_of};
ghost use Rattle.sv_types.specs.Layouts.{layout, width_of};
ghost use Rattle.sv_types.specs.Operators.{assigned_width};
ghost use Rattle.sv_types.specs.Expressions.{meaning};
ghost use Rattle.eval_parts.specs.Limits.{Fits, FitsAlone};
ghost use Rattle.eval_forms.specs.Callees.{formals_in};
ghost use Rattle.eval_runs.specs.Functions.{AllCanRun};
ghost use Rattle.expr_flows.specs.Known.{sight};
ghost use Rattle.part_flows.specs.Values.{AssignedGives, TruthGives};

use b4_core::{Bit4, Vec4, truth};
use eval_forms::given_bits;
use eval_parts::{own_sign, own_width};
use expr_flows::{FlowFail, Known, value_at, value_of};
use std::alloc::Global;
use sv_types::{Expr, SvType, store, width as width_of_type};

/// What a constant assigns to a place of a type.
pub fn assigned_value(
    alloc: Global,
    known: Known<'_>,
    of: &SvType,
    e: &Expr,
) -> Result<Vec4, FlowFail>
    requires functions { AllCanRun known.functions.now }
    requires narrow { width_of of.now ≤ 4194304 }
    requires fits { Fits (meaning e.now) (formals_in known.functions.now) (assigned_width (layout of.now).two_state (meaning e.now)) }
    requires constant { (meaning e.now).constant (sight known) ≡ true }
    ensures { AssignedGives result known.entry of.now e.now }
{
    let width = width_of_type(of);
    let value = value_at(alloc, known, e, width.max(own_width(e)), own_sign(e))?;
    let given = given_bits(alloc, e, width, &value)?;
    Ok(store(alloc, of, &given)?)
}

// Whether a bit of a vector is 1.
fn has_one(v: &Vec4) -> bool
    ensures { result ≡ is_one (truth_of v.now) }
{
    truth(v) == Bit4::One
}

/// Whether a known condition is true: a bit of it is 1.
pub fn is_true(alloc: Global, known: Known<'_>, e: &Expr) -> Result<bool, FlowFail>
    requires functions { AllCanRun known.functions.now }
    requires fits { FitsAlone (meaning e.now) (formals_in known.functions.now) }
    requires constant { (meaning e.now).constant (sight known) ≡ true }
    ensures { TruthGives result known.entry e.now }
{
    let value = value_of(alloc, known, e)?;
    Ok(has_one(&value))
}
