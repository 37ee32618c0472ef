//! The first token of a design that breaks a rule.

ghost use Rattle.std.specs.Prelude.{◌≡◌, IfOk};
ghost use Rattle.v_tree.specs.Rules.{broken_tokens};
ghost use Rattle.v_expr_rules.specs.Least.{first};

use crate::modules::first_circle;
use std::alloc::{AllocError, Global};
use v_expr_rules::earlier;
use v_tree::VDesign;

/// The first token of a design that breaks a rule which needs no top (`Rules.broken_tokens`), none where it keeps them all.
/// Numbers end at 2^32 - 1. Or want of memory.
#[tactic(auto, using(crate::proofs::Whole::whole_first))]
pub fn first_broken(alloc: Global, design: &VDesign) -> Result<Option<u32>, AllocError>
    ensures { IfOk result (λ r. r ≡ first (broken_tokens design.now)) }
{
    let other = v_circles::first_broken(alloc, design)?;
    let circle = first_circle(alloc, design.modules.as_slice())?;
    Ok(earlier(other, circle))
}
