//! What is found of statements, as text.

use crate::limits::fits_anywhere;
use crate::tables::{BRANCHES, FUNCTIONS, LOOPS};
use b4_core::{Bit4, Vec4};
use bit_sets::{Span, Spans, Use};
use flow_sets::{Found, Write};
use full_calls::is_stmt_full;
use run_fits::all_can_run;
use std::alloc::{AllocError, Global};
use std::process::Abort;
use std::test::Fail;
use stmt_flows::{StmtFail, body_flow};
use sv_source::Boxed;
use sv_types::{Function, Stmt};
use tree_words::{Word, functions, statement};

const LOCALS: u128 = 4294967296;

// Bits of a signal, or of a local with an `L`.
fn text_of_span(alloc: Global, span: Span) -> Result<String, AllocError> {
    let root = span.low / LOCALS;
    let (mark, root) = if root >= LOCALS {
        ("L", root - LOCALS)
    } else {
        ("", root)
    };
    let low = span.low % LOCALS;
    let high = span.high % LOCALS;
    format!(in alloc; " {mark}{root}[{low}:{high})")
}

fn put_use(alloc: Global, u: Use, exact: bool, to: &mut String) -> Result<(), AllocError> {
    let span = text_of_span(alloc, u.span)?;
    let end = if exact { "" } else { "?" };
    let text = format!(in alloc; "{span}@{}{end}", u.at)?;
    to.push_str(&text)?;
    Ok(())
}

// Puts the end of a list with a name, or nothing where the list is empty.
fn put_uses(alloc: Global, name: &str, uses: &[Use], to: &mut String) -> Result<(), AllocError> {
    if uses.is_empty() {
        return Ok(());
    }
    to.push_str(name)?;
    for u in uses {
        put_use(alloc, *u, true, to)?;
    }
    to.push_str("; ")?;
    Ok(())
}

fn put_writes(alloc: Global, name: &str, ws: &[Write], to: &mut String) -> Result<(), AllocError> {
    if ws.is_empty() {
        return Ok(());
    }
    to.push_str(name)?;
    for w in ws {
        put_use(alloc, w.of, w.exact, to)?;
    }
    to.push_str("; ")?;
    Ok(())
}

fn put_sure(alloc: Global, sure: &Option<Spans>, to: &mut String) -> Result<(), AllocError> {
    match sure {
        None => to.push_str("no end; "),
        Some(spans) => {
            if spans.as_slice().is_empty() {
                return Ok(());
            }
            to.push_str("sure")?;
            for span in spans.as_slice() {
                let text = text_of_span(alloc, *span)?;
                to.push_str(&text)?;
            }
            to.push_str("; ")
        }
    }
}

fn put_tokens(alloc: Global, tokens: &[u32], to: &mut String) -> Result<(), AllocError> {
    if tokens.is_empty() {
        return Ok(());
    }
    to.push_str("unset")?;
    for at in tokens {
        let text = format!(in alloc; " @{at}")?;
        to.push_str(&text)?;
    }
    to.push_str("; ")
}

fn put_if(holds: bool, text: &str, to: &mut String) -> Result<(), AllocError> {
    if holds {
        to.push_str(text)?;
    }
    Ok(())
}

fn text_of(alloc: Global, found: &Found) -> Result<String, AllocError> {
    let mut text = String::new(alloc);
    put_uses(alloc, "reads", found.reads.as_slice(), &mut text)?;
    put_writes(alloc, "writes", found.writes.as_slice(), &mut text)?;
    put_writes(alloc, "later", found.later.as_slice(), &mut text)?;
    put_sure(alloc, &found.ends.normal, &mut text)?;
    put_uses(alloc, "early", found.early.as_slice(), &mut text)?;
    put_tokens(alloc, found.unset.as_slice(), &mut text)?;
    put_if(found.ends.breaks.is_some(), "breaks; ", &mut text)?;
    put_if(found.ends.continues.is_some(), "continues; ", &mut text)?;
    put_if(found.ends.returns.is_some(), "returns; ", &mut text)?;
    put_if(!found.unrolls, "endless; ", &mut text)?;
    let count = format!(in alloc; "{}", found.statements)?;
    text.push_str(&count)?;
    Ok(text)
}

fn text_of_fail(alloc: Global, fail: StmtFail) -> Result<String, AllocError> {
    match fail {
        StmtFail::Memory => format!(in alloc; "memory"),
        StmtFail::TooLong { at } => format!(in alloc; "long @{at}"),
        StmtFail::TooMany => format!(in alloc; "many"),
    }
}

// Signals that may be written.
fn slots(alloc: Global) -> Result<Vec<Option<Vec4>>, AllocError> {
    let mut slots = Vec::new(alloc);
    for _n in 0..8 {
        slots.push(Some(Vec4::from_slice(alloc, &[Bit4::X])?))?;
    }
    Ok(slots)
}

fn found(alloc: Global, s: &Stmt, functions: &[Function]) -> Result<String, AllocError> {
    let held = slots(alloc)?;
    if !all_can_run(functions) {
        return format!(in alloc; "functions");
    }
    if !fits_anywhere(s, functions, &held) || !is_stmt_full(s, functions) {
        return format!(in alloc; "statement");
    }
    match body_flow(alloc, functions, s) {
        Ok(found) => text_of(alloc, &found),
        Err(fail) => text_of_fail(alloc, fail),
    }
}

fn boxed(alloc: Global, s: Result<Stmt, AllocError>) -> Result<Boxed<Stmt>, AllocError> {
    Boxed::new(alloc, s?)
}

fn made(alloc: Global, words: &[Word], functions: &[Function]) -> Result<String, AllocError> {
    let s = boxed(alloc, statement(alloc, words))?;
    found(alloc, s.get(), functions)
}

// The place of the first statement of which something else is found.
fn first_wrong(alloc: Global, table: &[(&[Word], &str)]) -> Result<Option<usize>, AllocError> {
    let functions = functions(alloc, FUNCTIONS)?;
    for (i, (words, wanted)) in table.iter().enumerate() {
        let text = made(alloc, words, functions.as_slice())?;
        if text.as_bytes() != wanted.as_bytes() {
            return Ok(Some(i));
        }
    }
    Ok(None)
}

#[test]
fn branches(rt: HostRuntime) -> Result<(), Fail> {
    assert_eq!(rt; first_wrong(rt.alloc(), BRANCHES)?, None);
    Ok(())
}

#[test]
fn loops(rt: HostRuntime) -> Result<(), Fail> {
    assert_eq!(rt; first_wrong(rt.alloc(), LOOPS)?, None);
    Ok(())
}
