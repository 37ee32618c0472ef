//! What reads the bits of a select path, while its steps are taken (IEEE 1800-2017 clause 11.5.1). Steps by known indices only
//! narrow a window; a step by another index is a select by an expression, or a call of a helper where bits beside the path's
//! own ones might be read. So no index stands twice in the text. What is read always names what it stands on, also where no
//! bit of that is in range, since an `always @*` waits for what it names (clause 9.4.2.2).

ghost use Rattle.std.specs.Prelude.{◌≡◌, ◌+◌, ◌≤◌, ◌<◌, ◌-ℤ◌, pos, [], ◌∷◌, IfOk, OnOk};
ghost use Rattle.b4_core.specs.declared.bit.Bit4.TheVariants.{X};
ghost use Rattle.v_meaning.specs.Values as means;
ghost use Rattle.v_meaning.specs.Values.{meaning, sel_meaning};
ghost use Rattle.v_build.specs.Trees.{meanings};
ghost use Rattle.eval_parts.specs.Places.{IsNear};
ghost use Rattle.path_flatten.specs.declared.readings.Root.TheVariants as roots;
ghost use Rattle.path_flatten.specs.Helping.{Grows};
ghost use Rattle.path_flatten.specs.Naming.{NamesRoot, NamesLike};
ghost use Rattle.path_flatten.specs.Selecting.{lost_bit, times, Cuts, CutsName, CutsValue, CutsNone, ReadsAll, ReadsPartly, IsSelectCall};

use crate::helpers::{Helpers, need};
use crate::numbers::bound;
use crate::ranks::braced;
use b4_core::{BinOp, Bit4, RedOp, Vec4};
use eval_parts::Window;
use std::alloc::{AllocError, Global};
use sv_source::{Items, Text};
use v_build::{binary, call, decimal_bit, decimal_part, literal, name, reduce, repetition};
use v_tree::{Helper, HelperKind, VExpr, VExprs, VSel, VSels};

/// What a reading stands on.
#[derive(Drop)]
pub enum Root {
    /// A name of the target, which is a vector.
    Name(Text),
    /// An unsigned expression, whose bits don't depend on where it stands.
    Value(VExpr),
}

/// A select path, as it is read: some bits of a name or of an expression.
#[derive(Drop)]
pub struct Reading {
    /// What it stands on.
    pub root: Root,
    /// How many bits that has.
    pub width: u32,
    /// Which of these bits are the path's.
    pub window: Window,
}

/// A name alone.
fn bare(alloc: Global, of: Text) -> VExpr
    ensures { meaning result ≡ means.reference of [] }
{
    name(of, Items::from_vec(Vec::new(alloc)))
}

/// A name with one select.
pub(crate) fn with_select(alloc: Global, of: Text, sel: VSel) -> Result<VExpr, AllocError>
    ensures { IfOk result (λ e. meaning e ≡ means.reference of (sel_meaning sel ∷ [])) }
{
    let mut sels: VSels = Items::from_vec(Vec::new(alloc));
    sels.push(sel)?;
    Ok(name(of, sels))
}

/// A one-bit x.
fn unknown_bit(alloc: Global) -> Result<VExpr, AllocError>
    ensures { IfOk result (λ m. meaning m ≡ means.literal (X ∷ [])) }
{
    let bits = Vec4::from_slice(alloc, &[Bit4::X])?;
    Ok(literal(bits))
}

/// A bit that is x, whatever an expression is. It names what that names.
fn lost(alloc: Global, of: VExpr) -> Result<VExpr, AllocError>
    ensures { IfOk result (λ m. meaning m ≡ lost_bit (meaning of)) }
{
    let parity = reduce(alloc, RedOp::Xor, of);
    let (parity, bit) = pairs::both(parity, unknown_bit(alloc))?;
    let made = binary(alloc, BinOp::Xor, parity, bit)?;
    braced(alloc, made)
}

/// A bit so many times.
fn repeated(alloc: Global, bit: VExpr, n: u32) -> Result<VExpr, AllocError>
    ensures { IfOk result (λ m. meaning m ≡ times n (meaning bit)) }
{
    if n == 1 {
        return Ok(bit);
    }
    let mut items: VExprs = Items::from_vec(Vec::new(alloc));
    items.push(bit)?;
    Ok(repetition(n, items))
}

/// A bit that is out of the range of a name of so many bits. A name of one bit has no selects.
fn bit_beyond(alloc: Global, of: Text, width: u32) -> Result<VExpr, AllocError>
    ensures cuts { IfOk result (λ m. CutsNone (roots.Name of) width 1 (meaning m)) }
    ensures names { IfOk result (λ m. NamesRoot (roots.Name of) (meaning m)) }
{
    if width < 2 {
        let made = lost(alloc, bare(alloc, of))?;
        Ok(made)
    } else {
        let made = with_select(alloc, of, decimal_bit(width))?;
        Ok(made)
    }
}

/// A bit of what a reading stands on that is out of range.
fn root_beyond(alloc: Global, root: Root, width: u32) -> Result<VExpr, AllocError>
    ensures cuts { IfOk result (λ m. CutsNone root width 1 (meaning m)) }
    ensures names { IfOk result (λ m. NamesRoot root (meaning m)) }
{
    match root {
        Root::Name(of) => {
            let made = bit_beyond(alloc, of, width)?;
            Ok(made)
        }
        Root::Value(of) => {
            let made = lost(alloc, of)?;
            Ok(made)
        }
    }
}

/// So many bits of what a reading stands on, all of them out of range.
fn beyond(alloc: Global, root: Root, width: u32, n: u32) -> Result<VExpr, AllocError>
    ensures cuts { IfOk result (λ m. CutsNone root width n (meaning m)) }
    ensures names { IfOk result (λ m. NamesRoot root (meaning m)) }
{
    let bit = root_beyond(alloc, root, width)?;
    let made = repeated(alloc, bit, n)?;
    Ok(made)
}

/// Two expressions, in order.
pub(crate) fn two_items(alloc: Global, a: VExpr, b: VExpr) -> Result<VExprs, AllocError>
    ensures { IfOk result (λ es. meanings es ≡ meaning a ∷ meaning b ∷ []) }
{
    let mut items: VExprs = Items::from_vec(Vec::new(alloc));
    items.push(a)?;
    items.push(b)?;
    Ok(items)
}

/// A call with two arguments.
fn call_two(alloc: Global, function: Text, a: VExpr, b: VExpr) -> Result<VExpr, AllocError>
    ensures { IfOk result (λ e. meaning e ≡ means.call function (meaning a ∷ meaning b ∷ [])) }
{
    let args = two_items(alloc, a, b)?;
    Ok(call(function, args))
}

/// How many bits a helper takes, out of how many, and how many bits its offset has.
#[derive(Clone, Copy)]
pub(crate) struct Slice {
    pub part: u32,
    pub of: u32,
    pub index: u32,
}

/// A call of the helper that takes some bits of a vector, from a signed offset on.
pub(crate) fn select_call(
    alloc: Global,
    slice: Slice,
    of: VExpr,
    offset: VExpr,
    helpers: &mut Helpers,
) -> Result<VExpr, AllocError>
    ensures grows { OnOk result (Grows helpers.old helpers.new) }
    ensures selects { IfOk result (λ e. IsSelectCall slice (meaning of) (meaning offset) helpers.new (meaning e)) }
{
    let kind = HelperKind::Select {
        part: slice.part,
        index: slice.index,
    };
    let helper = Helper {
        kind,
        width: slice.of,
    };
    let function = need(alloc, helper, helpers)?;
    call_two(alloc, function, of, offset)
}

/// Some bits of a name, all of them in range.
fn cut_name(alloc: Global, of: Text, width: u32, low: u32, n: u32) -> Result<VExpr, AllocError>
    requires fits { low + n ≤ width }
    requires some { 0 < n }
    ensures cuts { IfOk result (λ e. CutsName of width low n (meaning e)) }
    ensures names { IfOk result (λ e. NamesRoot (roots.Name of) (meaning e)) }
{
    if low == 0 && n == width {
        Ok(bare(alloc, of))
    } else if n == 1 {
        let made = with_select(alloc, of, decimal_bit(low))?;
        Ok(made)
    } else {
        let made = with_select(alloc, of, decimal_part(low + n - 1, low))?;
        Ok(made)
    }
}

/// Some bits of an expression, all of them in range.
fn cut_value(
    alloc: Global,
    of: VExpr,
    width: u32,
    low: u32,
    n: u32,
    helpers: &mut Helpers,
) -> Result<VExpr, AllocError>
    requires fits { low + n ≤ width }
    ensures grows { OnOk result (Grows helpers.old helpers.new) }
    ensures cuts { IfOk result (λ e. CutsValue (meaning of) width low n helpers.new (meaning e)) }
    ensures names { IfOk result (λ e. NamesLike (meaning of) (meaning e)) }
{
    if low == 0 && n == width {
        return Ok(of);
    }
    let offset = bound(alloc, 33, i128::from(low))?;
    let slice = Slice {
        part: n,
        of: width,
        index: 33,
    };
    let made = select_call(alloc, slice, of, offset, helpers)?;
    Ok(made)
}

/// Some bits of what a reading stands on, all of them in range.
pub(crate) fn cut(
    alloc: Global,
    root: Root,
    width: u32,
    low: u32,
    n: u32,
    helpers: &mut Helpers,
) -> Result<VExpr, AllocError>
    requires fits { low + n ≤ width }
    requires some { 0 < n }
    ensures grows { OnOk result (Grows helpers.old helpers.new) }
    ensures cuts { IfOk result (λ e. Cuts root width low n helpers.new (meaning e)) }
    ensures names { IfOk result (λ e. NamesRoot root (meaning e)) }
{
    match root {
        Root::Name(of) => {
            let made = cut_name(alloc, of, width, low, n)?;
            Ok(made)
        }
        Root::Value(of) => {
            let made = cut_value(alloc, of, width, low, n, helpers)?;
            Ok(made)
        }
    }
}

/// Where the first bit of a window lies, from its lowest bit in range on.
fn first_from_low(window: Window) -> i128
    requires { IsNear window.shift }
    ensures { result ≡ window.shift -ℤ pos window.low }
{
    window.shift - i128::from(window.low)
}

/// The n bits of a window some of which are out of range, by those from `low` up to `high`, which are `of`.
fn partly(
    alloc: Global,
    of: VExpr,
    window: Window,
    n: u32,
    helpers: &mut Helpers,
) -> Result<VExpr, AllocError>
    requires near { IsNear window.shift }
    requires some { window.low < window.high }
    ensures grows { OnOk result (Grows helpers.old helpers.new) }
    ensures reads { IfOk result (λ e. ReadsPartly (meaning of) window n helpers.new (meaning e)) }
    ensures names { IfOk result (λ e. NamesLike (meaning of) (meaning e)) }
{
    let first = first_from_low(window);
    let limit = -i128::from(n);
    if first > 0 {
        return Ok(of);
    }
    if first <= limit {
        return Ok(of);
    }
    let offset = bound(alloc, 33, first)?;
    let slice = Slice {
        part: n,
        of: window.high - window.low,
        index: 33,
    };
    let made = select_call(alloc, slice, of, offset, helpers)?;
    Ok(made)
}

/// The n bits of a reading, x where they are out of range.
pub fn all_bits(
    alloc: Global,
    reading: Reading,
    n: u32,
    helpers: &mut Helpers,
) -> Result<VExpr, AllocError>
    requires near { IsNear reading.window.shift }
    requires inside { reading.window.high ≤ reading.width }
    ensures grows { OnOk result (Grows helpers.old helpers.new) }
    ensures reads { IfOk result (λ e. ReadsAll reading n helpers.new (meaning e)) }
    ensures names { IfOk result (λ e. NamesRoot reading.root (meaning e)) }
{
    let Window { shift, low, high } = reading.window;
    if high <= low {
        let none = beyond(alloc, reading.root, reading.width, n)?;
        return Ok(none);
    }
    let there = cut(alloc, reading.root, reading.width, low, high - low, helpers)?;
    if shift == low as i128 && high - low == n {
        return Ok(there);
    }
    let made = partly(alloc, there, reading.window, n, helpers)?;
    Ok(made)
}
