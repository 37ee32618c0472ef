//! What expressions read (IEEE 1800-2017 clauses 9.2.2.2.1 and 11.5.1): the bits of the longest prefix of each select path whose
//! indices are known.

ghost use Rattle.std.specs.Prelude.{◌≡◌, ◌≤◌, ◌&&◌, false, true};
ghost use Rattle.sv_types.specs.declared.expression.Form.{out-Form};
ghost use Rattle.sv_types.specs.Meanings.{wide};
ghost use Rattle.sv_types.specs.Expressions.{meaning};
ghost use Rattle.eval_parts.specs.Limits.{Fits, FitsAlone};
ghost use Rattle.eval_parts.specs.Steps.{IsStep, is_path};
ghost use Rattle.eval_forms.specs.Asked.{asked, width_asked};
ghost use Rattle.eval_forms.specs.Callees.{formals_in};
ghost use Rattle.eval_forms.specs.Kinds.{IsCallOf};
ghost use Rattle.eval_runs.specs.Functions.{AllCanRun};
ghost use Rattle.expr_flows.specs.Full.{is_full};
ghost use Rattle.expr_flows.specs.Known.{sight};
ghost use Rattle.expr_flows.specs.Reads.{ReadsGive, AskedGives, TraceGives, FixedGives, IndexGives};
ghost use Rattle.expr_flows.specs.Traces.{AddsUse, AddsUnsure};

use crate::fails::FlowFail;
use crate::known::{Known, is_sure, value_of};
use crate::traced::{Index, Traced, element, elements, member, part, whole_root, whole_value};
use bit_sets::Uses;
use eval_forms::{Ask, Operand, call_of, operands};
use eval_parts::{Step, index_of, own_sign, own_width, step_of};
use flow_sets::use_at;
use std::alloc::{AllocError, Global};
use sv_types::Expr;

// Adds the use of the bits that a path names, if it stands on a signal or local.
fn add_use(traced: Traced, at: u32, to: &mut Uses) -> Result<(), AllocError>
    ensures { AddsUse result traced at to.old to.new }
{
    match traced.root {
        None => Ok(()),
        Some(number) => {
            to.push(use_at(number, traced.window.low, traced.window.high, at))?;
            Ok(())
        }
    }
}

// Adds it unless it is known.
fn add_unsure(traced: Traced, sure: bool, at: u32, to: &mut Uses) -> Result<(), AllocError>
    ensures { AddsUnsure result traced sure at to.old to.new }
{
    if sure {
        return Ok(());
    }
    add_use(traced, at, to)
}

// Whether the value of a path is known.
fn is_constant(traced: Traced, sure: bool) -> bool
    ensures { result ≡ (traced.exact && (traced.base && sure)) }
{
    traced.exact && (traced.base && sure)
}

fn both(a: bool, b: bool) -> bool
    ensures { result ≡ (a && b) }
{
    a && b
}

// The number of a known index.
fn fixed_index(alloc: Global, known: Known<'_>, i: &Expr) -> Result<Index, FlowFail>
    requires functions { AllCanRun known.functions.now }
    requires fits { FitsAlone (meaning i.now) (formals_in known.functions.now) }
    requires short { wide (meaning i.now) ≤ 64 }
    requires constant { (meaning i.now).constant (sight known) ≡ true }
    ensures { FixedGives result known.entry i.now }
{
    let signed = own_sign(i);
    let v = value_of(alloc, known, i)?;
    Ok(Index::Fixed(index_of(&v, signed)))
}

/// Adds what an expression reads, and tells whether its value is known.
pub fn add_reads(alloc: Global, known: Known<'_>, e: &Expr, to: &mut Uses) -> Result<bool, FlowFail>
    requires functions { AllCanRun known.functions.now }
    requires fits { FitsAlone (meaning e.now) (formals_in known.functions.now) }
    requires full { is_full (formals_in known.functions.now) e.now ≡ true }
    ensures { ReadsGive result known.entry e.now to.old to.new }
{
    let width = own_width(e);
    reads_at(alloc, known, e, width, own_sign(e), to)
}

// Adds what an expression reads that is valued at a width and a sign, and tells whether its value is known.
#[cycle(reads)]
fn reads_at(
    alloc: Global,
    known: Known<'_>,
    e: &Expr,
    width: u32,
    signed: bool,
    to: &mut Uses,
) -> Result<bool, FlowFail>
    requires functions { AllCanRun known.functions.now }
    requires fits { Fits (meaning e.now) (formals_in known.functions.now) width }
    requires full { is_full (formals_in known.functions.now) e.now ≡ true }
    ensures { ReadsGive result known.entry e.now to.old to.new }
{
    match step_of(e) {
        Some(step) => path_reads(alloc, known, e, step, to),
        None => operand_reads(alloc, known, e, call_of(e), width, signed, to),
    }
}

// Adds what a select path reads.
#[cycle(reads)]
fn path_reads(
    alloc: Global,
    known: Known<'_>,
    e: &Expr,
    step: Step<'_>,
    to: &mut Uses,
) -> Result<bool, FlowFail>
    requires functions { AllCanRun known.functions.now }
    requires step { IsStep step e.now }
    requires fits { FitsAlone (meaning e.now) (formals_in known.functions.now) }
    requires full { is_full (formals_in known.functions.now) e.now ≡ true }
    ensures { ReadsGive result known.entry e.now to.old to.new }
{
    let mut indices = Uses::new(alloc);
    let traced = follow(alloc, known, e, step, &mut indices)?;
    let sure = is_sure(known, traced.root);
    add_unsure(traced, sure, e.spot.at, to)?;
    to.append(indices)?;
    Ok(is_constant(traced, sure))
}

// Adds what the operands of an expression read that is no select path.
#[cycle(reads)]
fn operand_reads(
    alloc: Global,
    known: Known<'_>,
    e: &Expr,
    called: Option<u32>,
    width: u32,
    signed: bool,
    to: &mut Uses,
) -> Result<bool, FlowFail>
    requires functions { AllCanRun known.functions.now }
    requires kind { is_path (out-Form e.now.form) ≡ false }
    requires called { IsCallOf called e.now }
    requires fits { Fits (meaning e.now) (formals_in known.functions.now) width }
    requires full { is_full (formals_in known.functions.now) e.now ≡ true }
    ensures { ReadsGive result known.entry e.now to.old to.new }
{
    let asks = operands(alloc, e, width, signed, known.functions)?;
    let mut constant = true;
    for operand in &asks {
        let one = asked_reads(alloc, known, *operand, to)?;
        constant = both(constant, one);
    }
    Ok(constant)
}

// Adds what an operand reads, unless it was valued before.
#[cycle(reads)]
fn asked_reads(
    alloc: Global,
    known: Known<'_>,
    operand: Operand<'_>,
    to: &mut Uses,
) -> Result<bool, FlowFail>
    requires functions { AllCanRun known.functions.now }
    requires fits { Fits (meaning operand.of.now) (formals_in known.functions.now) (width_asked operand.ask (meaning operand.of.now)) }
    requires full { is_full (formals_in known.functions.now) operand.of.now ≡ true }
    ensures { AskedGives result known.entry (asked operand.entry) to.old to.new }
{
    match operand.ask {
        Ask::Bits(width, signed) => reads_at(alloc, known, operand.of, width, signed, to),
        Ask::Again(_, _) => Ok(true),
        Ask::Place => {
            let (width, signed) = (own_width(operand.of), own_sign(operand.of));
            reads_at(alloc, known, operand.of, width, signed, to)
        }
    }
}

// Traces what a step selects from, and adds what it takes to find it: the reads of its indices, or of a value.
#[cycle(reads)]
fn trace(alloc: Global, known: Known<'_>, e: &Expr, to: &mut Uses) -> Result<Traced, FlowFail>
    requires functions { AllCanRun known.functions.now }
    requires fits { FitsAlone (meaning e.now) (formals_in known.functions.now) }
    requires full { is_full (formals_in known.functions.now) e.now ≡ true }
    ensures { TraceGives result known.entry e.now to.old to.new }
{
    match step_of(e) {
        Some(step) => follow(alloc, known, e, step, to),
        None => {
            let width = own_width(e);
            let constant = reads_at(alloc, known, e, width, own_sign(e), to)?;
            Ok(whole_value(width, constant))
        }
    }
}

/// Traces a select path by its last step, and adds what its indices read.
#[cycle(reads)]
pub fn follow(
    alloc: Global,
    known: Known<'_>,
    e: &Expr,
    step: Step<'_>,
    to: &mut Uses,
) -> Result<Traced, FlowFail>
    requires functions { AllCanRun known.functions.now }
    requires step { IsStep step e.now }
    requires fits { FitsAlone (meaning e.now) (formals_in known.functions.now) }
    requires full { is_full (formals_in known.functions.now) e.now ≡ true }
    ensures { TraceGives result known.entry e.now to.old to.new }
{
    match step {
        Step::Signal(n) => Ok(whole_root(n as u64, own_width(e))),
        Step::Local(n) => Ok(whole_root(4294967296 + n as u64, own_width(e))),
        Step::Member(from, k) => {
            let traced = trace(alloc, known, from, to)?;
            Ok(member(traced, &from.of, k))
        }
        Step::Index(from, i) => {
            let traced = trace(alloc, known, from, to)?;
            let index = add_index(alloc, known, i, to)?;
            Ok(element(traced, &from.of, index))
        }
        Step::Part { from, left, right } => {
            let traced = trace(alloc, known, from, to)?;
            Ok(part(traced, &from.of, left, right))
        }
        Step::Slide {
            from,
            base,
            width,
            up,
        } => {
            let traced = trace(alloc, known, from, to)?;
            let index = add_index(alloc, known, base, to)?;
            Ok(elements(traced, &from.of, index, width, up))
        }
    }
}

// Adds what an index reads, and values it if it is known.
#[cycle(reads)]
fn add_index(alloc: Global, known: Known<'_>, i: &Expr, to: &mut Uses) -> Result<Index, FlowFail>
    requires functions { AllCanRun known.functions.now }
    requires fits { FitsAlone (meaning i.now) (formals_in known.functions.now) }
    requires short { wide (meaning i.now) ≤ 64 }
    requires full { is_full (formals_in known.functions.now) i.now ≡ true }
    ensures { IndexGives result known.entry i.now to.old to.new }
{
    let width = own_width(i);
    let constant = reads_at(alloc, known, i, width, own_sign(i), to)?;
    if constant {
        fixed_index(alloc, known, i)
    } else {
        Ok(Index::Variable)
    }
}
