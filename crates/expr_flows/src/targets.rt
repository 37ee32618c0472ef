//! What targets read and write (IEEE 1800-2017 clauses 10.4, 10.7 and 11.4.14).

ghost use Rattle.std.specs.Prelude.{◌≡◌, true, false};
ghost use Rattle.sv_types.specs.declared.expression.Form.{out-Form};
ghost use Rattle.eval_parts.specs.Steps.{is_path};
ghost use Rattle.sv_types.specs.Expressions.{meaning};
ghost use Rattle.eval_parts.specs.Limits.{FitsAlone, AllFit};
ghost use Rattle.eval_forms.specs.Callees.{formals_in};
ghost use Rattle.eval_runs.specs.Functions.{AllCanRun};
ghost use Rattle.expr_flows.specs.Full.{is_full, all_full};
ghost use Rattle.expr_flows.specs.Targets.{AddsWrite, IsParts, TargetGives, TargetsGive};

use crate::fails::FlowFail;
use crate::known::Known;
use crate::reads::{add_reads, follow};
use crate::traced::Traced;
use bit_sets::Uses;
use eval_parts::step_of;
use flow_sets::{Write, Writes, use_at};
use std::alloc::{AllocError, Global};
use sv_types::{Expr, Form};

// The parts of a target that is a concatenation or a stream.
#[tactic(auto, using(crate::proofs::Wholes::wholes))]
fn parts_of(e: &Expr) -> Option<&[Expr]>
    ensures { IsParts result e.now }
{
    match &e.form {
        Form::Literal { .. } => None,
        Form::Fill(_) => None,
        Form::Constant(_) => None,
        Form::Signal(_) => None,
        Form::Local(_) => None,
        Form::Member(_, _) => None,
        Form::Index(_, _) => None,
        Form::Part { .. } => None,
        Form::Slide { .. } => None,
        Form::Unary(_, _) => None,
        Form::Reduce(_, _) => None,
        Form::Negate(_) => None,
        Form::Binary(_, _, _) => None,
        Form::Shift(_, _, _) => None,
        Form::Power(_, _) => None,
        Form::Order(_, _, _) => None,
        Form::Equal { .. } => None,
        Form::Both(_, _) => None,
        Form::Either(_, _) => None,
        Form::Choose(_, _, _) => None,
        Form::Concat(es) => Some(es.as_slice()),
        Form::Repeat(_, _) => None,
        Form::Inside(_, _) => None,
        Form::Cast(_) => None,
        Form::Clog2(_) => None,
        Form::Pattern(_) => None,
        Form::Call(_, _) => None,
        Form::Stream { parts, .. } => Some(parts.as_slice()),
    }
}

// Adds the write of the bits that a path names, if it stands on a signal or local.
fn add_write(traced: Traced, at: u32, to: &mut Writes) -> Result<(), AllocError>
    ensures { AddsWrite result traced at to.old to.new }
{
    match traced.root {
        None => Ok(()),
        Some(number) => {
            to.push(Write {
                of: use_at(number, traced.window.low, traced.window.high, at),
                exact: traced.exact,
            })?;
            Ok(())
        }
    }
}

/// Adds what the indices of a target read, and what it writes.
#[cycle(targets)]
pub fn add_target(
    alloc: Global,
    known: Known<'_>,
    e: &Expr,
    reads: &mut Uses,
    writes: &mut Writes,
) -> Result<(), FlowFail>
    requires functions { AllCanRun known.functions.now }
    requires fits { FitsAlone (meaning e.now) (formals_in known.functions.now) }
    requires full { is_full (formals_in known.functions.now) e.now ≡ true }
    ensures { TargetGives result known.entry e.now reads.old reads.new writes.old writes.new }
{
    match step_of(e) {
        Some(step) => {
            let traced = follow(alloc, known, e, step, reads)?;
            add_write(traced, e.spot.at, writes)?;
            Ok(())
        }
        None => add_other(alloc, known, e, reads, writes),
    }
}

// The same of a target that is no select path.
#[cycle(targets)]
fn add_other(
    alloc: Global,
    known: Known<'_>,
    e: &Expr,
    reads: &mut Uses,
    writes: &mut Writes,
) -> Result<(), FlowFail>
    requires functions { AllCanRun known.functions.now }
    requires kind { is_path (out-Form e.now.form) ≡ false }
    requires fits { FitsAlone (meaning e.now) (formals_in known.functions.now) }
    requires full { is_full (formals_in known.functions.now) e.now ≡ true }
    ensures { TargetGives result known.entry e.now reads.old reads.new writes.old writes.new }
{
    match parts_of(e) {
        Some(es) => add_targets(alloc, known, es, reads, writes),
        None => {
            let _constant = add_reads(alloc, known, e, reads)?;
            Ok(())
        }
    }
}

/// Adds what the indices of some targets read, and what these write.
#[cycle(targets)]
pub fn add_targets(
    alloc: Global,
    known: Known<'_>,
    es: &[Expr],
    reads: &mut Uses,
    writes: &mut Writes,
) -> Result<(), FlowFail>
    requires functions { AllCanRun known.functions.now }
    requires fits { AllFit es.now (formals_in known.functions.now) }
    requires full { all_full (formals_in known.functions.now) es.now ≡ true }
    ensures { TargetsGive result known.entry es.now reads.old reads.new writes.old writes.new }
{
    for e in es {
        add_target(alloc, known, e, reads, writes)?;
    }
    Ok(())
}
