//! Expressions, lowered.

ghost use Rattle.std.specs.Prelude.{◌≡◌, true};
ghost use Rattle.eval_forms.specs.Callees.{AllFunctionsFit};

use crate::texts::put_expr;
use expr_fits::{are_narrow, fits};
use expr_lower::lower;
use lowered_forms::is_lowered;
use path_flatten::Helpers;
use std::alloc::{AllocError, Global};
use sv_source::Text;
use sv_types::{Expr, Function, is_narrow};
use v_tree::{
    FunctionName, FunctionNames, LocalName, LocalNames, NameMap, SignalName, SignalNames,
};

/// Names of signals, locals and functions: a, b, c and so on, the memory m, t, and f, g and h.
pub fn names(alloc: Global) -> Result<NameMap, AllocError> {
    let mut signals = SignalNames::new(alloc);
    for (signal, letter) in (0u32..).zip("abcdefgh".bytes()) {
        let name = Text::from_bytes(alloc, &[letter])?;
        signals.push(SignalName {
            signal,
            instance: 0,
            name,
            memory: false,
        })?;
    }
    let name = Text::from_bytes(alloc, b"m")?;
    signals.push(SignalName {
        signal: 8,
        instance: 0,
        name,
        memory: true,
    })?;
    let mut locals = LocalNames::new(alloc);
    let name = Text::from_bytes(alloc, b"t")?;
    locals.push(LocalName { local: 0, name })?;
    let mut functions = FunctionNames::new(alloc);
    for (function, letter) in (0u32..).zip("fgh".bytes()) {
        let name = Text::from_bytes(alloc, &[letter])?;
        functions.push(FunctionName { function, name })?;
    }
    Ok(NameMap {
        signals,
        functions,
        locals,
    })
}

/// Whether no formal and no result has more than 2^22 bits.
fn all_narrow(functions: &[Function]) -> bool
    ensures { result ≡ true → AllFunctionsFit functions.now }
{
    for f in functions {
        if !are_narrow(f.formals.as_slice()) {
            return false;
        }
        if !is_narrow(&f.of) {
            return false;
        }
    }
    true
}

/// The text of an expression that is lowered in an unsigned context of so many bits.
pub fn text_of(
    alloc: Global,
    names: &NameMap,
    functions: &[Function],
    e: &Expr,
    width: u32,
) -> Result<String, AllocError> {
    let mut text = String::new(alloc);
    if !all_narrow(functions) {
        text.push_str("not narrow")?;
        return Ok(text);
    }
    if !is_lowered(e) {
        text.push_str("not lowered")?;
        return Ok(text);
    }
    if !fits(e, functions, width) {
        text.push_str("not fit")?;
        return Ok(text);
    }
    let mut helpers = Helpers::new(alloc);
    let made = lower(alloc, names, functions, e, width, false, &mut helpers)?;
    put_expr(&made, &mut text)?;
    Ok(text)
}
