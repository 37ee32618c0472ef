//! The number of the word of an index that is only read: where no element has the index, it is the number of no word.

ghost use Rattle.std.specs.Prelude.{◌≡◌, ◌≤◌, true, IfOk};
ghost use Rattle.sv_types.specs.Layouts.{width_of};
ghost use Rattle.v_meaning.specs.Values as means;
ghost use Rattle.v_meaning.specs.Values.{meaning};
ghost use Rattle.lowering_laws.specs.Terms as terms;
ghost use Rattle.path_flatten.specs.Naming.{NamesLike};
ghost use Rattle.memory_words.specs.Words.{FindsNumber, FindsNumberAbove};

use crate::words::{NUMBER_BITS, lowest};
use b4_core::BinOp;
use eval_parts::bounds_of;
use pairs::both;
use path_flatten::{Index, bound, braced, signed_index};
use std::alloc::{AllocError, Global};
use sv_types::SvType;
use v_build::{binary, signing};
use v_tree::VExpr;

/// How far a signed number lies above a lowest one, by numbers of so many bits, read as an unsigned number.
fn above(alloc: Global, number: VExpr, width: u32, low: i64) -> Result<VExpr, AllocError>
    requires { width ≤ 128 }
    ensures { IfOk result (λ e. meaning e ≡ terms.above (means.signing true (meaning number)) width low) }
{
    let number = signing(alloc, true, number);
    let (number, low) = both(number, bound(alloc, width, i128::from(low)))?;
    let difference = binary(alloc, BinOp::Sub, number, low)?;
    braced(alloc, difference)
}

/// The number of the word of any index, which is how far it lies above the smaller bound.
fn number_above(alloc: Global, index: Index, low: i64) -> Result<VExpr, AllocError>
    requires short { index.width ≤ 64 }
    ensures number { IfOk result (FindsNumberAbove index low) }
    ensures names { IfOk result (λ e. NamesLike (meaning index.expr) (meaning e)) }
{
    let number = signed_index(alloc, index)?;
    let made = above(alloc, number.expr, NUMBER_BITS, low)?;
    Ok(made)
}

/// The number of the word of the element with an index: where no element has the index, it is behind those of all words, or has x or z.
/// So a memory reads x there (IEEE 1364-2005 clauses 4.9 and 5.2.2), and the index stands in it once. It names what the index does. Or
/// want of memory.
pub fn word_number(alloc: Global, index: Index, of: &SvType) -> Result<VExpr, AllocError>
    requires narrow { width_of of.now ≤ 4194304 }
    requires some { 1 ≤ width_of of.now }
    requires short { index.width ≤ 64 }
    ensures number { IfOk result (FindsNumber index of.now) }
    ensures names { IfOk result (λ e. NamesLike (meaning index.expr) (meaning e)) }
{
    let low = lowest(&bounds_of(of));
    if !index.signed && low == 0 {
        return Ok(index.expr);
    }
    let made = number_above(alloc, index, low)?;
    Ok(made)
}
