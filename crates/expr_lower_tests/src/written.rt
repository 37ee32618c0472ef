//! Targets for select paths, and their texts.

use crate::lowered::names;
use crate::texts::{put_expr, put_name, put_number, put_sels};
use expr_fits::fits_alone;
use lowered_forms::is_lowered;
use memory_lower::lower_written;
use path_flatten::Helpers;
use std::alloc::{AllocError, Global};
use sv_types::Expr;
use target_flatten::Write;
use target_lower::Within;
use target_walk::Targets;
use typed_paths::is_typed_path;
use v_tree::VLval;

fn put_target(to: &VLval, text: &mut String) -> Result<(), AllocError> {
    match to {
        VLval::Name { name, sels } => {
            put_name(name, text)?;
            put_sels(sels.as_slice(), text)
        }
        VLval::Concat(_) => text.push_str("several"),
    }
}

/// `guard?name[sels]=v[low+:width]`
fn put_write(write: &Write, text: &mut String) -> Result<(), AllocError> {
    if let Some(guard) = &write.guard {
        put_expr(guard, text)?;
        text.push('?')?;
    }
    put_target(&write.to, text)?;
    text.push_str("=v[")?;
    put_number(write.low, text)?;
    text.push_str("+:")?;
    put_number(write.width, text)?;
    text.push(']')
}

fn put_targets(targets: &Targets, text: &mut String) -> Result<(), AllocError> {
    let mut first = true;
    for write in targets.writes.as_slice() {
        if !first {
            text.push(';')?;
        }
        put_write(write, text)?;
        first = false;
    }
    if let Some(named) = &targets.named {
        text.push_str("names ")?;
        put_expr(named, text)?;
    }
    Ok(())
}

/// The text of the targets for a path that a process writes.
pub fn targets_of(alloc: Global, e: &Expr) -> Result<String, AllocError> {
    let mut text = String::new(alloc);
    if !is_lowered(e) || !fits_alone(e, &[]) || !is_typed_path(e) {
        text.push_str("not lowered")?;
        return Ok(text);
    }
    let names = names(alloc)?;
    let mut helpers = Helpers::new(alloc);
    let made = lower_written(alloc, &names, &[], Within::Process, e, &mut helpers)?;
    put_targets(&made, &mut text)?;
    Ok(text)
}
