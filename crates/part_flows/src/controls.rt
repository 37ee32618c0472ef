//! The control of loops, as far as it is known (IEEE 1800-2017 clause 12.7.1).

ghost use Rattle.std.specs.Prelude.{◌≡◌, ◌≤◌, true};
ghost use Rattle.sv_types.specs.Layouts.{layout, width_of};
ghost use Rattle.sv_types.specs.Operators.{assigned_width};
ghost use Rattle.sv_types.specs.Expressions.{meaning};
ghost use Rattle.eval_parts.specs.Limits.{Fits, FitsAlone};
ghost use Rattle.eval_forms.specs.Callees.{formals_in};
ghost use Rattle.eval_runs.specs.Functions.{AllCanRun};
ghost use Rattle.expr_flows.specs.Full.{is_full};
ghost use Rattle.part_flows.specs.Values.{ConstantGives, TestGives, NextGives};

use crate::values::{assigned_value, is_true};
use b4_core::Vec4;
use bit_sets::Uses;
use expr_flows::{FlowFail, Known, add_reads};
use std::alloc::Global;
use sv_types::{Expr, SvType};

// Whether the value of an expression is known.
fn is_constant(alloc: Global, known: Known<'_>, e: &Expr) -> Result<bool, FlowFail>
    requires functions { AllCanRun known.functions.now }
    requires fits { FitsAlone (meaning e.now) (formals_in known.functions.now) }
    requires full { is_full (formals_in known.functions.now) e.now ≡ true }
    ensures { ConstantGives result known.entry e.now }
{
    let mut reads = Uses::new(alloc);
    add_reads(alloc, known, e, &mut reads)
}

/// Whether another turn of a loop is made, if that is known.
pub fn tested(alloc: Global, known: Known<'_>, test: &Expr) -> Result<Option<bool>, FlowFail>
    requires functions { AllCanRun known.functions.now }
    requires fits { FitsAlone (meaning test.now) (formals_in known.functions.now) }
    requires full { is_full (formals_in known.functions.now) test.now ≡ true }
    ensures { TestGives result known.entry test.now }
{
    if !is_constant(alloc, known, test)? {
        return Ok(None);
    }
    let goes_on = is_true(alloc, known, test)?;
    Ok(Some(goes_on))
}

/// What is assigned to the variable of a loop, which has this type, if it is known.
pub fn next_value(
    alloc: Global,
    known: Known<'_>,
    of: &SvType,
    e: &Expr,
) -> Result<Option<Vec4>, FlowFail>
    requires functions { AllCanRun known.functions.now }
    requires narrow { width_of of.now ≤ 4194304 }
    requires fits { Fits (meaning e.now) (formals_in known.functions.now) (assigned_width (layout of.now).two_state (meaning e.now)) }
    requires full { is_full (formals_in known.functions.now) e.now ≡ true }
    ensures { NextGives result known.entry of.now e.now }
{
    if !is_constant(alloc, known, e)? {
        return Ok(None);
    }
    let value = assigned_value(alloc, known, of, e)?;
    Ok(Some(value))
}
