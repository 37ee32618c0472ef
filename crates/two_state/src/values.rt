//! The results of helper functions, as expressions of their inputs.

ghost use Rattle.std.specs.Prelude.{◌≡◌, ◌≤◌, ◌++◌, [], ◌∷◌, map, true, false, Some, None, IfOk, OnOk};
ghost use Rattle.v_meaning.specs.Values as means;
ghost use Rattle.v_meaning.specs.Values.{meaning, sel_meaning, decimal_base, expression_base};
ghost use Rattle.v_build.specs.Trees.{meanings, sel_meanings};
ghost use Rattle.b4_core.specs.declared.bit.Bit4.TheVariants.{X};
ghost use Rattle.b4_core.specs.declared.operators.BinOp.TheVariants.{Xnor};
ghost use Rattle.b4_core.specs.declared.operators.EqOp.TheVariants.{Case};
ghost use Rattle.b4_core.specs.declared.operators.RedOp.TheVariants.{And};
ghost use Rattle.b4_core.specs.declared.operators.UnOp.TheVariants.{Not};
ghost use Rattle.v_tree.specs.declared.expressions.VExtent.TheVariants.{Up};
ghost use Rattle.two_state.specs.Kinds.{vector, other, bit, each, is_set, matching};

use b4_core::{BinOp, Bit4, RedOp, UnOp, Vec4};
use pairs::both;
use std::alloc::{AllocError, Global};
use sv_source::{Items, Text};
use v_build::{
    binary, compare, concatenation, decimal_bit, literal, name, reduce, signing, slide, unary,
};
use v_tree::{VExpr, VExprs, VSel, VSels};

/// The name of the vector that a helper is given.
pub const VECTOR: &[u8] = b"v";

/// The name of its offset or second vector.
pub const OTHER: &[u8] = b"o";

/// A name alone.
fn whole(alloc: Global, of: &[u8]) -> Result<VExpr, AllocError>
    ensures { IfOk result (λ e. meaning e ≡ means.reference of.now []) }
{
    let text = Text::from_bytes(alloc, of)?;
    Ok(name(text, Items::from_vec(Vec::new(alloc))))
}

/// A name with one select.
fn with_select(alloc: Global, of: &[u8], sel: VSel) -> Result<VExpr, AllocError>
    ensures { IfOk result (λ e. meaning e ≡ means.reference of.now (sel_meaning sel ∷ [])) }
{
    let mut sels: VSels = Items::from_vec(Vec::new(alloc));
    sels.push(sel)?;
    let text = Text::from_bytes(alloc, of)?;
    Ok(name(text, sels))
}

/// `name[i]`
fn bit_of(alloc: Global, of: &[u8], i: u32) -> Result<VExpr, AllocError>
    ensures { IfOk result (λ e. meaning e ≡ bit of.now i) }
{
    with_select(alloc, of, decimal_bit(i))
}

/// A number of one bit.
fn one_bit(alloc: Global, b: Bit4) -> Result<VExpr, AllocError>
    ensures { IfOk result (λ e. meaning e ≡ means.literal (b ∷ [])) }
{
    let bits = Vec4::from_slice(alloc, &[b])?;
    Ok(literal(bits))
}

/// The vector itself.
pub fn same(alloc: Global) -> Result<VExpr, AllocError>
    ensures { IfOk result (λ e. meaning e ≡ means.reference vector []) }
{
    whole(alloc, VECTOR)
}

/// `v[$signed(o) +: part]`
pub fn selected(alloc: Global, part: u32) -> Result<VExpr, AllocError>
    ensures { IfOk result (λ e. meaning e ≡ means.reference vector (expression_base (means.signing true (means.reference other [])) (Some (Up part)) ∷ [])) }
{
    let offset = whole(alloc, OTHER)?;
    let offset = signing(alloc, true, offset)?;
    let sel = slide(alloc, offset, part)?;
    with_select(alloc, VECTOR, sel)
}

/// `v[i] === 1'b1`
fn set_bit(alloc: Global, i: u32) -> Result<VExpr, AllocError>
    ensures { IfOk result (λ e. meaning e ≡ is_set i) }
{
    let (read, one) = both(bit_of(alloc, VECTOR, i), one_bit(alloc, Bit4::One))?;
    compare(alloc, true, false, read, one)
}

/// `~o[i]`
fn inverse_bit(alloc: Global, i: u32) -> Result<VExpr, AllocError>
    ensures { IfOk result (λ e. meaning e ≡ means.unary Not (bit other i)) }
{
    let read = bit_of(alloc, OTHER, i)?;
    unary(alloc, UnOp::Not, read)
}

/// `(~o[i]) === 1'bx`
fn wild_bit(alloc: Global, i: u32) -> Result<VExpr, AllocError>
    ensures { IfOk result (λ e. meaning e ≡ means.equal Case (means.unary Not (bit other i)) (means.literal (X ∷ []))) }
{
    let (inverse, unknown) = both(inverse_bit(alloc, i), one_bit(alloc, Bit4::X))?;
    compare(alloc, true, false, inverse, unknown)
}

/// `v[i] ~^ o[i]`
fn equal_bit(alloc: Global, i: u32) -> Result<VExpr, AllocError>
    ensures { IfOk result (λ e. meaning e ≡ means.binary Xnor (bit vector i) (bit other i)) }
{
    let (left, right) = both(bit_of(alloc, VECTOR, i), bit_of(alloc, OTHER, i))?;
    binary(alloc, BinOp::Xnor, left, right)
}

/// `((~o[i]) === 1'bx) | (v[i] ~^ o[i])`
fn matching_bit(alloc: Global, i: u32) -> Result<VExpr, AllocError>
    ensures { IfOk result (λ e. meaning e ≡ matching i) }
{
    let (wild, equal) = both(wild_bit(alloc, i), equal_bit(alloc, i))?;
    binary(alloc, BinOp::Or, wild, equal)
}

/// One expression a bit, the most significant first.
fn set_bits(alloc: Global, width: u32) -> Result<VExprs, AllocError>
    ensures { IfOk result (λ es. meanings es ≡ each is_set width) }
{
    let mut made: VExprs = Items::from_vec(Vec::new(alloc));
    let mut rest = width;
    while rest > 0 {
        rest -= 1;
        made.push(set_bit(alloc, rest)?)?;
    }
    Ok(made)
}

/// The same for `==?`.
fn matching_bits(alloc: Global, width: u32) -> Result<VExprs, AllocError>
    ensures { IfOk result (λ es. meanings es ≡ each matching width) }
{
    let mut made: VExprs = Items::from_vec(Vec::new(alloc));
    let mut rest = width;
    while rest > 0 {
        rest -= 1;
        made.push(matching_bit(alloc, rest)?)?;
    }
    Ok(made)
}

/// 0 for each bit that isn't 1.
pub fn two_state(alloc: Global, width: u32) -> Result<VExpr, AllocError>
    ensures { IfOk result (λ e. meaning e ≡ means.concatenation (each is_set width)) }
{
    let bits = set_bits(alloc, width)?;
    Ok(concatenation(bits))
}

/// Whether all bits match.
pub fn wild_equal(alloc: Global, width: u32) -> Result<VExpr, AllocError>
    ensures { IfOk result (λ e. meaning e ≡ means.reduce And (means.concatenation (each matching width))) }
{
    let bits = matching_bits(alloc, width)?;
    reduce(alloc, RedOp::And, concatenation(bits))
}
