//! Conditions on an index (IEEE 1364-2005 clause 5.1.8).

ghost use Rattle.std.specs.Prelude.{◌≡◌, IfOk};
ghost use Rattle.v_meaning.specs.Values.{meaning};
ghost use Rattle.index_cases.specs.Cases.{matching};

use b4_core::Vec4;
use path_flatten::{braced, copy_expr};
use std::alloc::{AllocError, Global};
use v_build::{compare, literal};
use v_tree::VExpr;

/// `{e} === bits`: whether an expression, valued alone, has exactly these bits. Or want of memory.
pub fn has_bits(alloc: Global, e: &VExpr, bits: &Vec4) -> Result<VExpr, AllocError>
    ensures { IfOk result (λ m. meaning m ≡ matching (meaning e.now) bits.now) }
{
    let bits = Vec4::from_slice(alloc, bits.as_slice());
    let (e, bits) = pairs::both(copy_expr(alloc, e), bits)?;
    let (e, bits) = pairs::both(braced(alloc, e), Ok(bits))?;
    let made = compare(alloc, true, false, e, literal(bits))?;
    Ok(made)
}
