//! Where elements begin, from an index on that is known only when the text runs (IEEE 1800-2017 clause 11.5.1).

ghost use Rattle.std.specs.Prelude.{◌≡◌, ◌≤◌, ◌<◌, ◌^◌, unsigned_abs, int_le, true, [], ◌∷◌, ℤ, Option, IfOk};
ghost use Rattle.b4_core.specs.declared.bit.Bit4.TheVariants.{Zero};
ghost use Rattle.sv_types.specs.Layouts.{layout, width_of};
ghost use Rattle.v_meaning.specs.Values as means;
ghost use Rattle.v_meaning.specs.Values.{meaning};
ghost use Rattle.lowering_laws.specs.Signed.{FitsSigned};
ghost use Rattle.lowering_laws.specs.Slid.{begins, origin};
ghost use Rattle.lowering_laws.specs.Terms as terms;
ghost use Rattle.path_flatten.specs.Naming.{NamesLike};
ghost use Rattle.path_flatten.specs.Sliding.{IsSignedIndex, IsOffsetOf, IsBase, IsArgument, offset_names, NamesOffset, NamesIndex};
ghost use Rattle.path_flatten.specs.Distances.{distance_term, origin_by, IsNarrow};
ghost use Rattle.path_flatten.specs.declared.offsets.Offset.TheVariants as offsets;

use crate::numbers::bound;
use crate::ranks::braced;
use crate::readings::two_items;
use b4_core::{BinOp, Bit4, Vec4};
use eval_parts::{Bounds, bounds_of};
use std::alloc::{AllocError, Global};
use sv_types::SvType;
use v_build::{binary, concatenation, literal, signing};
use v_tree::VExpr;

/// An index of the source, lowered alone.
#[derive(Drop)]
pub struct Index {
    /// The expression of the target.
    pub expr: VExpr,
    /// How many bits it has.
    pub width: u32,
    /// Whether it is signed.
    pub signed: bool,
}

/// An offset in bits, which may be out of range.
#[derive(Drop)]
pub enum Offset {
    /// An index as it is.
    Index(Index),
    /// A signed number.
    Sum {
        /// The expression.
        expr: VExpr,
        /// How many bits it has.
        bits: u32,
    },
}

/// What is passed as a signed number of so many bits.
#[derive(Drop)]
pub struct Argument {
    /// The expression.
    pub expr: VExpr,
    /// How many bits it has.
    pub bits: u32,
}

/// A one-bit 0.
fn zero_bit(alloc: Global) -> Result<VExpr, AllocError>
    ensures { IfOk result (λ m. meaning m ≡ means.literal (Zero ∷ [])) }
{
    let bits = Vec4::from_slice(alloc, &[Bit4::Zero])?;
    Ok(literal(bits))
}

/// An expression with a 0 above it.
fn with_zero(alloc: Global, e: VExpr) -> Result<VExpr, AllocError>
    ensures { IfOk result (λ m. meaning m ≡ means.concatenation (means.literal (Zero ∷ []) ∷ meaning e ∷ [])) }
{
    let (zero, e) = pairs::both(zero_bit(alloc), Ok(e))?;
    let items = two_items(alloc, zero, e)?;
    Ok(concatenation(items))
}

/// An index as a signed number. Or want of memory.
pub fn signed_index(alloc: Global, index: Index) -> Result<Argument, AllocError>
    requires { index.width ≤ 64 }
    ensures bits { IfOk result (λ x. x.bits ≤ 65) }
    ensures number { IfOk result (λ x. IsSignedIndex index (meaning x.expr) x.bits) }
    ensures passed { IfOk result (λ x. IsArgument (offsets.Index index) x) }
    ensures names { IfOk result (λ x. NamesLike (meaning index.expr) (meaning x.expr)) }
{
    let Index {
        expr,
        width,
        signed,
    } = index;
    if signed {
        return Ok(Argument { expr, bits: width });
    }
    let expr = with_zero(alloc, expr)?;
    Ok(Argument {
        expr,
        bits: width + 1,
    })
}

/// An offset as the base of a select.
pub fn base_of(offset: Offset) -> VExpr
    ensures base { IsBase offset (meaning result) }
    ensures names { NamesOffset offset (meaning result) }
{
    match offset {
        Offset::Index(index) => index.expr,
        Offset::Sum { expr, bits: _bits } => expr,
    }
}

/// An offset as a signed argument.
pub(crate) fn passed_as(alloc: Global, offset: Offset) -> Result<Argument, AllocError>
    requires { IsNarrow offset }
    ensures passed { IfOk result (IsArgument offset) }
    ensures names { IfOk result (λ x. NamesOffset offset (meaning x.expr)) }
{
    match offset {
        Offset::Index(index) => {
            let made = signed_index(alloc, index)?;
            Ok(made)
        }
        Offset::Sum { expr, bits } => Ok(Argument { expr, bits }),
    }
}

/// Whether bounds fall from left to right.
fn fall(bounds: &Bounds) -> bool
    ensures { result ≡ int_le bounds.now.right bounds.now.left }
{
    bounds.right <= bounds.left
}

/// The index at which so many elements begin at the lowest one.
fn origin_in(bounds: &Bounds, up: bool, n: u32) -> i128
    ensures value { result ≡ origin_by bounds.now.right (int_le bounds.now.right bounds.now.left) up n }
    ensures small { unsigned_abs result < 2 ^ 64 }
{
    let further = i128::from(n.saturating_sub(1));
    let right = i128::from(bounds.right);
    match (up, fall(bounds)) {
        (true, true) => right,
        (true, false) => right - further,
        (false, true) => right + further,
        (false, false) => right,
    }
}

/// The same for what has a type.
fn origin_of(of: &SvType, up: bool, n: u32) -> i128
    requires narrow { width_of of.now ≤ 4194304 }
    ensures value { result ≡ origin (layout of.now) up n }
    ensures small { unsigned_abs result < 2 ^ 64 }
{
    let bounds = bounds_of(of);
    origin_in(&bounds, up, n)
}

/// So many bits that a number fits them and a sign.
#[tactic(auto, using(crate::proofs::Beginning::fitting))]
fn bits_for(n: i128) -> u32
    requires { unsigned_abs n < 2 ^ 64 }
    ensures fits { FitsSigned result n }
    ensures few { result ≤ 64 }
{
    let magnitude = n.unsigned_abs();
    if magnitude < 256 {
        8
    } else if magnitude < 65536 {
        16
    } else if magnitude < 4294967296 {
        32
    } else {
        64
    }
}

/// So many bits that an unsigned number fits them.
fn bits_of_width(n: u32) -> u32
    requires { n ≤ 4194304 }
    ensures fits { n ≤ 2 ^ result }
    ensures few { result ≤ 22 }
{
    if n <= 1 {
        0
    } else if n <= 8 {
        3
    } else if n <= 32 {
        5
    } else if n <= 256 {
        8
    } else {
        22
    }
}

/// The distance of an index from where elements begin at the lowest one, upward or downward, by numbers of so many bits.
fn distance(
    alloc: Global,
    index: VExpr,
    falls: bool,
    width: u32,
    start: i128,
) -> Result<VExpr, AllocError>
    requires { width ≤ 128 }
    ensures { IfOk result (λ e. meaning e ≡ distance_term falls (means.signing true (meaning index)) width start) }
{
    let index = signing(alloc, true, index);
    let (index, start) = pairs::both(index, bound(alloc, width, start))?;
    if falls {
        let difference = binary(alloc, BinOp::Sub, index, start)?;
        let made = braced(alloc, difference)?;
        Ok(made)
    } else {
        let difference = binary(alloc, BinOp::Sub, start, index)?;
        let made = braced(alloc, difference)?;
        Ok(made)
    }
}

/// So many bits for each element of a distance, by numbers of so many bits.
fn scaled(alloc: Global, of: VExpr, item: u32, width: u32) -> Result<VExpr, AllocError>
    requires { width ≤ 128 }
    ensures { IfOk result (λ e. meaning e ≡ terms.scaled (meaning of) item width) }
{
    let of = signing(alloc, true, of);
    let (of, item) = pairs::both(of, bound(alloc, width, i128::from(item)))?;
    let made = binary(alloc, BinOp::Mul, of, item)?;
    Ok(made)
}

/// Where so many elements begin, from an index on, by arithmetic.
fn sum_of(alloc: Global, of: &SvType, up: bool, n: u32, index: Index) -> Result<Offset, AllocError>
    requires narrow { width_of of.now ≤ 4194304 }
    requires index { index.width ≤ 64 }
    ensures begins { IfOk result (IsOffsetOf index of.now up n) }
    ensures narrow { IfOk result IsNarrow }
    ensures names { IfOk result (NamesIndex index) }
{
    let bounds = bounds_of(of);
    let start = origin_of(of, up, n);
    let number = signed_index(alloc, index)?;
    let bits = bits_for(start).max(number.bits) + 2 + bits_of_width(bounds.element);
    let far = distance(alloc, number.expr, fall(&bounds), bits, start)?;
    let expr = scaled(alloc, far, bounds.element, bits)?;
    Ok(Offset::Sum { expr, bits })
}

/// Whether elements begin where an index says: bounds fall, the lowest one is at 0, and an element has one bit.
fn is_plain(of: &SvType, up: bool, n: u32) -> bool
    requires narrow { width_of of.now ≤ 4194304 }
    ensures { result ≡ true → (z : Option ℤ) → begins (layout of.now) up n z ≡ z }
{
    let bounds = bounds_of(of);
    if !fall(&bounds) {
        return false;
    }
    if bounds.element != 1 {
        return false;
    }
    if origin_of(of, up, n) != 0 {
        return false;
    }
    true
}

/// Where so many elements begin, from an index on. Or want of memory.
pub fn offset_of(
    alloc: Global,
    of: &SvType,
    up: bool,
    n: u32,
    index: Index,
) -> Result<Offset, AllocError>
    requires narrow { width_of of.now ≤ 4194304 }
    requires index { index.width ≤ 64 }
    ensures begins { IfOk result (IsOffsetOf index of.now up n) }
    ensures narrow { IfOk result IsNarrow }
    ensures names { IfOk result (NamesIndex index) }
{
    if is_plain(of, up, n) {
        Ok(Offset::Index(index))
    } else {
        let made = sum_of(alloc, of, up, n, index)?;
        Ok(made)
    }
}
