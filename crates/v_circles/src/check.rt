//! The first token of a design that breaks a rule.

ghost use Rattle.std.specs.Prelude.{◌≡◌, [], IfOk};
ghost use Rattle.call_circles.specs.Calls as calls;
ghost use Rattle.v_expr_rules.specs.Least.{first};
ghost use Rattle.v_rules.specs.Tables.{numbers_from, no_numbers};
ghost use Rattle.v_circles.specs.Calls.{modules_walked, nothing_walked};
ghost use Rattle.v_circles.specs.Plain.{design_checked};

use crate::calls::{module_calls, short};
use call_circles::Need;
use std::alloc::{AllocError, Global};
use sv_source::Items;
use v_expr_rules::earlier;
use v_rules::Modules;
use v_tree::{VDesign, VModule};

// The first instance that leads back, by the modules that count.
fn first_circle(alloc: Global, modules: &[VModule]) -> Result<Option<u32>, AllocError>
    ensures { IfOk result (λ r. r ≡ calls.first_broken (modules_walked (numbers_from 0 modules.now no_numbers) 0 modules.now nothing_walked).calls []) }
{
    let table = Modules::of(alloc, modules)?;
    let calls = module_calls(alloc, &table, modules)?;
    let needs: Items<Need> = Items::new(alloc);
    let count = short(modules.len())?;
    call_circles::first_broken(alloc, count, calls.as_slice(), needs.as_slice())
}

/// The first token of a design that breaks a rule on names, limits or circles of modules which needs no top, but for functions
/// that lead back to themselves; none where it breaks no such rule. Numbers end at 2^32 - 1. Or want of memory.
#[tactic(auto, using(crate::proofs::Whole::both_first))]
pub fn first_broken(alloc: Global, design: &VDesign) -> Result<Option<u32>, AllocError>
    ensures { IfOk result (λ r. r ≡ first (design_checked design.now)) }
{
    let other = v_rules::first_broken(alloc, design)?;
    let circle = first_circle(alloc, design.modules.as_slice())?;
    Ok(earlier(other, circle))
}
