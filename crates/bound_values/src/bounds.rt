//! The bounds of loops (IEEE 1800-2017 clause 12.7.1), where no signal counts.

ghost use Rattle.std.specs.Prelude.{◌≡◌, ◌≤◌, true};
ghost use Rattle.b4_core.specs.Bits.{is_one};
ghost use Rattle.b4_core.specs.Bitwise.{truth_of};
ghost use Rattle.sv_types.specs.Layouts.{layout, width_of};
ghost use Rattle.sv_types.specs.Operators.{assigned_width};
ghost use Rattle.sv_types.specs.Expressions.{meaning};
ghost use Rattle.eval_parts.specs.Limits.{Fits, FitsAlone};
ghost use Rattle.eval_forms.specs.Callees.{formals_in};
ghost use Rattle.eval_runs.specs.Functions.{AllCanRun};
ghost use Rattle.expr_flows.specs.Full.{is_full};
ghost use Rattle.bound_values.specs.Bounds.{BoundGives, TestGives, AssignedGives};

use crate::looks::look_at;
use crate::values::value_at;
use b4_core::{Bit4, Vec4, truth};
use eval_forms::given_bits;
use eval_parts::{own_sign, own_width};
use expr_flows::Known;
use std::alloc::{AllocError, Global};
use sv_types::{Expr, SvType, store, width as width_of_type};

/// The value of a bound of a loop.
#[derive(Drop)]
pub enum Bound {
    /// A constant index in it takes too long, at the least token of these, or else it does.
    Long(u32),
    /// Its bits, least first.
    Bits(Vec4),
}

/// Whether another turn of a loop is made.
#[derive(Clone, Copy, Debug)]
pub enum Test {
    /// A constant index in the test takes too long, at the least token of these, or else it does.
    Long(u32),
    /// None is made.
    Stops,
    /// One is made.
    Goes,
}

// The value of a bound at a width and a sign.
fn bound_value(
    alloc: Global,
    known: Known<'_>,
    e: &Expr,
    width: u32,
    signed: bool,
) -> Result<Bound, AllocError>
    requires functions { AllCanRun known.functions.now }
    requires alone { FitsAlone (meaning e.now) (formals_in known.functions.now) }
    requires fits { Fits (meaning e.now) (formals_in known.functions.now) width }
    requires full { is_full (formals_in known.functions.now) e.now ≡ true }
    ensures { BoundGives result known.entry e.now width signed }
{
    let seen = look_at(alloc, known, e)?;
    if let Some(at) = seen.long {
        return Ok(Bound::Long(at));
    }
    match value_at(alloc, known, e, width, signed)? {
        None => Ok(Bound::Long(e.spot.at)),
        Some(v) => Ok(Bound::Bits(v)),
    }
}

// Whether a bit of a vector is 1.
fn has_one(v: &Vec4) -> bool
    ensures { result ≡ is_one (truth_of v.now) }
{
    truth(v) == Bit4::One
}

/// Whether another turn of a loop is made.
pub fn tested(alloc: Global, known: Known<'_>, test: &Expr) -> Result<Test, AllocError>
    requires functions { AllCanRun known.functions.now }
    requires fits { FitsAlone (meaning test.now) (formals_in known.functions.now) }
    requires full { is_full (formals_in known.functions.now) test.now ≡ true }
    ensures { TestGives result known.entry test.now }
{
    match bound_value(alloc, known, test, own_width(test), own_sign(test))? {
        Bound::Long(at) => Ok(Test::Long(at)),
        Bound::Bits(v) => {
            if has_one(&v) {
                Ok(Test::Goes)
            } else {
                Ok(Test::Stops)
            }
        }
    }
}

/// What is assigned to the variable of a loop, which has this type.
pub fn assigned(alloc: Global, known: Known<'_>, of: &SvType, e: &Expr) -> Result<Bound, AllocError>
    requires functions { AllCanRun known.functions.now }
    requires narrow { width_of of.now ≤ 4194304 }
    requires fits { Fits (meaning e.now) (formals_in known.functions.now) (assigned_width (layout of.now).two_state (meaning e.now)) }
    requires full { is_full (formals_in known.functions.now) e.now ≡ true }
    ensures { AssignedGives result known.entry of.now e.now }
{
    let width = width_of_type(of);
    match bound_value(alloc, known, e, width.max(own_width(e)), own_sign(e))? {
        Bound::Long(at) => Ok(Bound::Long(at)),
        Bound::Bits(v) => {
            let given = given_bits(alloc, e, width, &v)?;
            Ok(Bound::Bits(store(alloc, of, &given)?))
        }
    }
}
