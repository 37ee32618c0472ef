//! Numbers of any width, in pieces of at most 128 bits (IEEE 1364-2005 clause 3.5.1).

ghost use Rattle.std.specs.Prelude.{◌≡◌, IfOk, cond};
ghost use Rattle.b4_core.specs.Vectors.{ext};
ghost use Rattle.v_meaning.specs.Values as means;
ghost use Rattle.v_meaning.specs.Values.{meaning};
ghost use Rattle.v_build.specs.Trees.{meanings};
ghost use Rattle.expr_lower.specs.Numbers.{IsNumber, ArePieces, signed_as};

use b4_core::{Bit4, Vec4};
use std::alloc::{AllocError, Global};
use v_build::{concatenation, literal, signing};
use v_tree::{VExpr, VExprs};

/// How many bits a sized number has at most.
const MOST: usize = 128;

/// A number in pieces, the first one most significant.
fn pieces(alloc: Global, bits: &[Bit4]) -> Result<VExprs, AllocError>
    ensures { IfOk result (λ ps. ArePieces (meanings ps) bits.now) }
{
    let mut made = VExprs::new(alloc);
    let mut end = bits.len();
    while end > 0 {
        let start = (end - 1) / MOST * MOST;
        let piece = Vec4::from_slice(alloc, &bits[start..end])?;
        made.push(literal(piece))?;
        end = start;
    }
    Ok(made)
}

/// A number, unsigned.
pub fn number(alloc: Global, bits: Vec4) -> Result<VExpr, AllocError>
    ensures { IfOk result (λ m. IsNumber (meaning m) bits) }
{
    if bits.len() <= MOST {
        return Ok(literal(bits));
    }
    let parts = pieces(alloc, bits.as_slice())?;
    Ok(concatenation(parts))
}

/// The same with a sign.
pub fn with_sign(alloc: Global, signed: bool, e: VExpr) -> Result<VExpr, AllocError>
    ensures { IfOk result (λ m. meaning m ≡ signed_as signed (meaning e)) }
{
    if signed {
        let made = signing(alloc, true, e)?;
        Ok(made)
    } else {
        Ok(e)
    }
}
