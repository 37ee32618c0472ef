//! What is asked of constant evaluation, and its answers as text.

use crate::functions::no_functions;
use b4_core::Vec4;
use const_eval::{Env, EvalFail, SizeFail, size, value};
use expr_fits::fits_alone;
use std::alloc::{AllocError, Global};
use sv_types::{Expr, Value};
use tree_words::{bits, put_value};

// The bits of a signal; none where the text is empty.
fn slot(alloc: Global, text: &str) -> Result<Option<Vec4>, AllocError> {
    if text.is_empty() {
        return Ok(None);
    }
    Ok(Some(bits(alloc, text)?))
}

/// An environment of these signals, with one local.
pub fn environment(alloc: Global, texts: &[&str]) -> Result<Env, AllocError> {
    let mut signals = Vec::new(alloc);
    for text in texts {
        signals.push(slot(alloc, text)?)?;
    }
    let mut locals = Vec::new(alloc);
    locals.push(slot(alloc, "1z01")?)?;
    Ok(Env {
        signals,
        locals,
        pending: Vec::new(alloc),
        budget: None,
    })
}

/// Why there is no value.
pub fn text_of_fail(alloc: Global, fail: EvalFail) -> Result<String, AllocError> {
    match fail {
        EvalFail::Memory => format!(in alloc; "memory"),
        EvalFail::NotConstant { at } => format!(in alloc; "held {at}"),
        EvalFail::Turns { at } => format!(in alloc; "turns {at}"),
    }
}

/// The value of an expression.
pub fn text_of_value(alloc: Global, e: &Expr, env: &Env) -> Result<String, AllocError> {
    let functions = no_functions(alloc);
    if !fits_alone(e, functions.as_slice()) {
        return format!(in alloc; "expression");
    }
    match value(alloc, e, &functions, env) {
        Ok(v) => text_of(alloc, &v),
        Err(fail) => text_of_fail(alloc, fail),
    }
}

/// A value.
pub fn text_of(alloc: Global, v: &Value) -> Result<String, AllocError> {
    let mut text = String::new(alloc);
    put_value(v, &mut text)?;
    Ok(text)
}

/// An expression as a size.
pub fn text_of_size(
    alloc: Global,
    e: &Expr,
    env: &Env,
    low: i64,
    high: i64,
) -> Result<String, AllocError> {
    let functions = no_functions(alloc);
    if !fits_alone(e, functions.as_slice()) {
        return format!(in alloc; "expression");
    }
    match size(alloc, e, &functions, env, low, high) {
        Ok(n) => format!(in alloc; "{n}"),
        Err(SizeFail::Range { at }) => format!(in alloc; "range {at}"),
        Err(SizeFail::Eval(fail)) => text_of_fail(alloc, fail),
    }
}
