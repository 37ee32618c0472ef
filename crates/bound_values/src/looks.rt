//! Whether the value of an expression is known, and which constant index in it takes too long.

ghost use Rattle.std.specs.Prelude.{◌≡◌, ◌≤◌, ◌&&◌, IfOk, false, true, None, Some};
ghost use Rattle.sv_types.specs.declared.expression.Form.{out-Form};
ghost use Rattle.sv_types.specs.Flows.{covers};
ghost use Rattle.sv_types.specs.Meanings.{wide};
ghost use Rattle.sv_types.specs.Expressions.{meaning};
ghost use Rattle.eval_parts.specs.Limits.{Fits, FitsAlone};
ghost use Rattle.eval_parts.specs.Steps.{IsStep, is_path};
ghost use Rattle.eval_forms.specs.Asked.{asked, width_asked};
ghost use Rattle.eval_forms.specs.Callees.{formals_in};
ghost use Rattle.eval_forms.specs.Kinds.{IsCallOf};
ghost use Rattle.eval_runs.specs.Functions.{AllCanRun};
ghost use Rattle.expr_flows.specs.Full.{is_full};
ghost use Rattle.expr_flows.specs.Known.{sure_of};
ghost use Rattle.design_breaks.specs.Indices as I;
ghost use Rattle.bound_values.specs.Looks.{both_looks, IndexLongGives, OwnLongGives, LookGives, LookAskedGives, LookBothGives};

use crate::roots::is_known;
use crate::values::value_at;
use eval_forms::{Ask, Operand, call_of, operands};
use eval_parts::{Step, own_sign, own_width, step_of};
use expr_flows::Known;
use std::alloc::{AllocError, Global};
use sv_types::Expr;

/// What is seen of an expression.
#[derive(Clone, Copy, Debug)]
pub struct Look {
    /// Whether its value is known.
    pub constant: bool,
    /// The least first token of the constant indices in it whose value takes too long.
    pub long: Option<u32>,
}

/// The lesser one of two tokens that may be missing.
pub fn lesser(a: Option<u32>, b: Option<u32>) -> Option<u32>
    ensures { result ≡ I.lesser a b }
{
    match a {
        None => b,
        Some(x) => match b {
            None => Some(x),
            Some(y) => Some(x.min(y)),
        },
    }
}

// Both of two expressions.
fn both(a: Look, b: Look) -> Look
    ensures { result ≡ both_looks a b }
{
    Look {
        constant: a.constant && b.constant,
        long: lesser(a.long, b.long),
    }
}

// A whole signal or local.
fn root(known: Known<'_>, number: u64) -> Look
    ensures { result ≡ record { constant = sure_of known.entry.variables.now (record { signal = number; bit = 0 }); long = None } }
{
    Look {
        constant: is_known(known.variables, number),
        long: None,
    }
}

/// What is seen of an expression.
#[cycle(looks)]
pub fn look_at(alloc: Global, known: Known<'_>, e: &Expr) -> Result<Look, AllocError>
    requires functions { AllCanRun known.functions.now }
    requires fits { FitsAlone (meaning e.now) (formals_in known.functions.now) }
    requires full { is_full (formals_in known.functions.now) e.now ≡ true }
    ensures { LookGives result known.entry e.now }
{
    let width = own_width(e);
    look_within(alloc, known, e, width, own_sign(e))
}

// What is seen of an expression that is valued at a width and a sign.
#[cycle(looks)]
fn look_within(
    alloc: Global,
    known: Known<'_>,
    e: &Expr,
    width: u32,
    signed: bool,
) -> Result<Look, AllocError>
    requires functions { AllCanRun known.functions.now }
    requires fits { Fits (meaning e.now) (formals_in known.functions.now) width }
    requires full { is_full (formals_in known.functions.now) e.now ≡ true }
    ensures { LookGives result known.entry e.now }
{
    match step_of(e) {
        Some(step) => path_look(alloc, known, e, step),
        None => operands_look(alloc, known, e, call_of(e), width, signed),
    }
}

// A select path, by its last step.
#[cycle(looks)]
fn path_look(alloc: Global, known: Known<'_>, e: &Expr, step: Step<'_>) -> Result<Look, AllocError>
    requires functions { AllCanRun known.functions.now }
    requires step { IsStep step e.now }
    requires fits { FitsAlone (meaning e.now) (formals_in known.functions.now) }
    requires full { is_full (formals_in known.functions.now) e.now ≡ true }
    ensures { LookGives result known.entry e.now }
{
    match step {
        Step::Signal(n) => Ok(root(known, n as u64)),
        Step::Local(n) => Ok(root(known, 4294967296 + n as u64)),
        Step::Member(from, _) => look_at(alloc, known, from),
        Step::Index(from, i) => indexed_look(alloc, known, from, i),
        Step::Part { from, .. } => look_at(alloc, known, from),
        Step::Slide { from, base, .. } => indexed_look(alloc, known, from, base),
    }
}

// What a step selects from, and its index.
#[cycle(looks)]
fn indexed_look(alloc: Global, known: Known<'_>, from: &Expr, i: &Expr) -> Result<Look, AllocError>
    requires functions { AllCanRun known.functions.now }
    requires fits { FitsAlone (meaning from.now) (formals_in known.functions.now) }
    requires full { is_full (formals_in known.functions.now) from.now ≡ true }
    requires index_fits { FitsAlone (meaning i.now) (formals_in known.functions.now) }
    requires index_full { is_full (formals_in known.functions.now) i.now ≡ true }
    ensures { LookBothGives result known.entry from.now i.now }
{
    let one = look_at(alloc, known, from)?;
    let index = look_at(alloc, known, i)?;
    let long = index_long(alloc, known, i, index)?;
    Ok(both(
        one,
        Look {
            constant: index.constant,
            long,
        },
    ))
}

// The token of a constant in an index that takes too long, or of the index itself if it is constant and does.
fn index_long(
    alloc: Global,
    known: Known<'_>,
    i: &Expr,
    seen: Look,
) -> Result<Option<u32>, AllocError>
    requires functions { AllCanRun known.functions.now }
    requires fits { FitsAlone (meaning i.now) (formals_in known.functions.now) }
    ensures { IndexLongGives result known.entry i.now seen }
{
    if !seen.constant {
        return Ok(seen.long);
    }
    match seen.long {
        Some(at) => Ok(Some(at)),
        None => own_long(alloc, known, i),
    }
}

// The first token of an expression whose value takes too long.
fn own_long(alloc: Global, known: Known<'_>, e: &Expr) -> Result<Option<u32>, AllocError>
    requires functions { AllCanRun known.functions.now }
    requires fits { FitsAlone (meaning e.now) (formals_in known.functions.now) }
    ensures { OwnLongGives result known.entry e.now }
{
    match value_at(alloc, known, e, own_width(e), own_sign(e))? {
        Some(_) => Ok(None),
        None => Ok(Some(e.spot.at)),
    }
}

// The operands of an expression that is no select path.
#[cycle(looks)]
fn operands_look(
    alloc: Global,
    known: Known<'_>,
    e: &Expr,
    called: Option<u32>,
    width: u32,
    signed: bool,
) -> Result<Look, AllocError>
    requires functions { AllCanRun known.functions.now }
    requires kind { is_path (out-Form e.now.form) ≡ false }
    requires called { IsCallOf called e.now }
    requires fits { Fits (meaning e.now) (formals_in known.functions.now) width }
    requires full { is_full (formals_in known.functions.now) e.now ≡ true }
    ensures { LookGives result known.entry e.now }
{
    let asks = operands(alloc, e, width, signed, known.functions)?;
    let mut seen = Look {
        constant: true,
        long: None,
    };
    for operand in &asks {
        let one = asked_look(alloc, known, *operand)?;
        seen = both(seen, one);
    }
    Ok(seen)
}

// An operand, unless it was looked at before.
#[cycle(looks)]
fn asked_look(alloc: Global, known: Known<'_>, operand: Operand<'_>) -> Result<Look, AllocError>
    requires functions { AllCanRun known.functions.now }
    requires fits { Fits (meaning operand.of.now) (formals_in known.functions.now) (width_asked operand.ask (meaning operand.of.now)) }
    requires full { is_full (formals_in known.functions.now) operand.of.now ≡ true }
    ensures { LookAskedGives result known.entry (asked operand.entry) }
{
    match operand.ask {
        Ask::Bits(width, signed) => look_within(alloc, known, operand.of, width, signed),
        Ask::Again(_, _) => Ok(Look {
            constant: true,
            long: None,
        }),
        Ask::Place => {
            let (width, signed) = (own_width(operand.of), own_sign(operand.of));
            look_within(alloc, known, operand.of, width, signed)
        }
    }
}
