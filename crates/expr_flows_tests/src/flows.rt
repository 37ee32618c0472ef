//! What is found of expressions and targets, as text.

use crate::tables::{CALLS, FUNCTIONS, READS, TARGETS};
use b4_core::{Bit4, Vec4};
use bit_sets::{Use, Uses};
use expr_fits::fits_alone;
use expr_flows::{FlowFail, Known, Variable, add_reads, add_target};
use flow_sets::{Write, Writes};
use full_calls::is_full;
use run_fits::all_can_run;
use std::alloc::{AllocError, Global};
use std::process::Abort;
use std::test::Fail;
use sv_types::{Expr, Function};
use tree_words::{Word, expression, functions};

const LOCALS: u128 = 4294967296;

// Puts bits of a signal, or of a local with an `L`.
fn put_use(alloc: Global, u: Use, exact: bool, to: &mut String) -> Result<(), AllocError> {
    let root = u.span.low / LOCALS;
    let (mark, root) = if root >= LOCALS {
        ("L", root - LOCALS)
    } else {
        ("", root)
    };
    let gap = if to.is_empty() { "" } else { " " };
    let end = if exact { "" } else { "?" };
    let low = u.span.low % LOCALS;
    let high = u.span.high % LOCALS;
    let text = format!(in alloc; "{gap}{mark}{root}[{low}:{high})@{}{end}", u.at)?;
    to.push_str(&text)?;
    Ok(())
}

fn put_uses(alloc: Global, uses: &[Use], to: &mut String) -> Result<(), AllocError> {
    for u in uses {
        put_use(alloc, *u, true, to)?;
    }
    Ok(())
}

fn put_writes(alloc: Global, writes: &[Write], to: &mut String) -> Result<(), AllocError> {
    for w in writes {
        put_use(alloc, w.of, w.exact, to)?;
    }
    Ok(())
}

fn put(to: &mut String, text: &str) -> Result<(), AllocError> {
    if !to.is_empty() {
        to.push(' ')?;
    }
    to.push_str(text)?;
    Ok(())
}

fn text_of_fail(alloc: Global, fail: FlowFail) -> Result<String, AllocError> {
    match fail {
        FlowFail::Memory => format!(in alloc; "memory"),
        FlowFail::TooLong { at } => format!(in alloc; "long @{at}"),
    }
}

// The local 0, which holds 2.
fn slots(alloc: Global) -> Result<Vec<Option<Vec4>>, AllocError> {
    let mut bits = vec![in alloc; Bit4::Zero; 32]?;
    bits[1] = Bit4::One;
    let mut slots = Vec::new(alloc);
    slots.push(Some(Vec4::from_vec(bits)))?;
    Ok(slots)
}

const VARIABLES: &[Variable] = &[Variable {
    local: 0,
    width: 32,
}];

fn reads_of(alloc: Global, known: Known<'_>, e: &Expr) -> Result<String, AllocError> {
    if !all_can_run(known.functions) {
        return format!(in alloc; "functions");
    }
    if !fits_alone(e, known.functions) || !is_full(e, known.functions) {
        return format!(in alloc; "expression");
    }
    let mut text = String::new(alloc);
    let mut reads = Uses::new(alloc);
    match add_reads(alloc, known, e, &mut reads) {
        Err(fail) => return text_of_fail(alloc, fail),
        Ok(constant) => {
            put_uses(alloc, reads.as_slice(), &mut text)?;
            if constant {
                put(&mut text, "known")?;
            }
        }
    }
    Ok(text)
}

fn target_of(alloc: Global, known: Known<'_>, e: &Expr) -> Result<String, AllocError> {
    if !all_can_run(known.functions) {
        return format!(in alloc; "functions");
    }
    if !fits_alone(e, known.functions) || !is_full(e, known.functions) {
        return format!(in alloc; "expression");
    }
    let mut text = String::new(alloc);
    let mut reads = Uses::new(alloc);
    let mut writes = Writes::new(alloc);
    match add_target(alloc, known, e, &mut reads, &mut writes) {
        Err(fail) => return text_of_fail(alloc, fail),
        Ok(()) => {
            put_uses(alloc, reads.as_slice(), &mut text)?;
            put(&mut text, "/")?;
            put_writes(alloc, writes.as_slice(), &mut text)?;
        }
    }
    Ok(text)
}

// What is found of the expression that words make.
fn found(
    alloc: Global,
    words: &[Word],
    functions: &[Function],
    target: bool,
) -> Result<String, AllocError> {
    let locals = slots(alloc)?;
    let known = Known {
        functions,
        locals: &locals,
        variables: VARIABLES,
    };
    let e = expression(alloc, words)?;
    if target {
        target_of(alloc, known, &e)
    } else {
        reads_of(alloc, known, &e)
    }
}

// The place of the first expression of which something else is found.
fn first_wrong(
    alloc: Global,
    table: &[(&[Word], &str)],
    target: bool,
) -> Result<Option<usize>, AllocError> {
    let functions = functions(alloc, FUNCTIONS)?;
    for (i, (words, wanted)) in table.iter().enumerate() {
        let text = found(alloc, words, functions.as_slice(), target)?;
        if text.as_bytes() != wanted.as_bytes() {
            return Ok(Some(i));
        }
    }
    Ok(None)
}

#[test]
fn reads(rt: HostRuntime) -> Result<(), Fail> {
    assert_eq!(rt; first_wrong(rt.alloc(), READS, false)?, None);
    Ok(())
}

#[test]
fn calls(rt: HostRuntime) -> Result<(), Fail> {
    assert_eq!(rt; first_wrong(rt.alloc(), CALLS, false)?, None);
    Ok(())
}

#[test]
fn targets(rt: HostRuntime) -> Result<(), Fail> {
    assert_eq!(rt; first_wrong(rt.alloc(), TARGETS, true)?, None);
    Ok(())
}
