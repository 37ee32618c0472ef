//! What comes of designs.

use crate::designs::{Case, design};
use crate::fits::is_fit;
use b4_core::{Bit4, Vec4};
use design_breaks::Break;
use loop_rules::{Checked, check_processes, least_break};
use std::alloc::{AllocError, Global};
use sv_source::Fail;

// Slots for so many signals as designs have.
fn slots(alloc: Global) -> Result<Vec<Option<Vec4>>, AllocError> {
    let mut slots = Vec::new(alloc);
    for _n in 0..16 {
        slots.push(Some(Vec4::from_slice(alloc, &[Bit4::X])?))?;
    }
    Ok(slots)
}

// The rule that a design is refused by, or 0.
fn rule_of(checked: Result<Checked, Fail>) -> u16 {
    match checked {
        Ok(_) => 0,
        Err(Fail::Refused(refusal)) => refusal.rule,
        Err(Fail::Memory) => 1,
    }
}

// The rule and the token of the least break, and its instance where that isn't the top, if the design was refused by that rule.
fn text_of(alloc: Global, least: Option<Break>, refusing: u16) -> Result<String, AllocError> {
    match least {
        None if refusing == 0 => format!(in alloc; "fine"),
        Some(Break { instance, at, rule }) if refusing == rule => {
            if instance == 1 {
                format!(in alloc; "{rule}@{at}")
            } else {
                format!(in alloc; "{rule}@{at} of {instance}")
            }
        }
        _ => format!(in alloc; "refused by {refusing}"),
    }
}

/// What comes of a case: `fine`, or the least break.
pub fn judged(alloc: Global, case: &Case) -> Result<String, AllocError> {
    let slots = slots(alloc)?;
    let design = design(alloc, case)?;
    if !is_fit(alloc, &design, slots.as_slice()) {
        return format!(in alloc; "unfit");
    }
    let least = least_break(alloc, &design);
    let refusing = rule_of(check_processes(alloc, design));
    text_of(alloc, least?, refusing)
}
