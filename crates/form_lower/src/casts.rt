//! Casts, and what is assigned to places of a type (IEEE 1800-2017 clauses 6.24 and 10.7).

ghost use Rattle.std.specs.Prelude.{◌≡◌, ◌≤◌, [], ◌∷◌, IfOk, OnOk};
ghost use Rattle.sv_types.specs.Expressions.{meaning};
ghost use Rattle.sv_types.specs.Layouts.{layout, width_of};
ghost use Rattle.v_meaning.specs.Values as means;
ghost use Rattle.path_flatten.specs.Helping.{Grows};
ghost use Rattle.form_lower.specs.Calls.{Calls};
ghost use Rattle.form_lower.specs.Assigned as specs;
ghost use Rattle.form_lower.specs.Assigned.{cutter, Assigns, Keeps, Widens, Converts, Casts};

use crate::calls::{call_one, one_item, two_items};
use crate::wilds::bit;
use b4_core::Bit4;
use eval_parts::{is_signed, own_sign, own_width};
use path_flatten::{Helpers, braced};
use path_reads::{stored_bits, with_sign};
use std::alloc::{AllocError, Global};
use sv_types::{Expr, SvType, width};
use v_build::{concatenation, repetition, signing};
use v_tree::{Helper, HelperKind, VExpr};

/// An expression no times, which has no bits.
fn no_bits(alloc: Global, of: VExpr) -> Result<VExpr, AllocError>
    ensures { IfOk result (λ e. means.meaning e ≡ means.repetition 0 (means.meaning of ∷ [])) }
{
    let items = one_item(alloc, of)?;
    Ok(repetition(0, items))
}

/// What an expression gives to a target of so many bits.
pub(crate) fn cut_bits(
    alloc: Global,
    of: VExpr,
    n: u32,
    helpers: &mut Helpers,
) -> Result<VExpr, AllocError>
    ensures grows { OnOk result (Grows helpers.old helpers.new) }
    ensures calls { IfOk result (λ m. Calls (cutter n) (means.meaning of ∷ []) helpers.new (means.meaning m)) }
{
    let helper = Helper {
        kind: HelperKind::Cast,
        width: n,
    };
    let made = call_one(alloc, helper, of, helpers)?;
    Ok(made)
}

/// What an expression gives to a place of a type, as it is stored there.
pub(crate) fn assigned(
    alloc: Global,
    of: VExpr,
    to: &SvType,
    helpers: &mut Helpers,
) -> Result<VExpr, AllocError>
    requires narrow { width_of to.now ≤ 4194304 }
    ensures grows { OnOk result (Grows helpers.old helpers.new) }
    ensures assigns { IfOk result (λ m. Assigns (layout to.now).two_state (means.meaning of) helpers.new (means.meaning m)) }
{
    let n = width(to);
    if n == 0 {
        let none = no_bits(alloc, of)?;
        Ok(none)
    } else {
        let bits = cut_bits(alloc, of, n, helpers)?;
        let kept = stored_bits(alloc, bits, to, helpers)?;
        Ok(kept)
    }
}

/// What an operand that is lowered alone gives to a place of a type of as many bits: no helper is needed to value it alone.
pub(crate) fn whole(
    alloc: Global,
    of: VExpr,
    to: &SvType,
    helpers: &mut Helpers,
) -> Result<VExpr, AllocError>
    requires narrow { width_of to.now ≤ 4194304 }
    ensures grows { OnOk result (Grows helpers.old helpers.new) }
    ensures keeps { IfOk result (λ m. Keeps to.now (means.meaning of) helpers.new (means.meaning m)) }
{
    let bits = braced(alloc, of)?;
    let kept = stored_bits(alloc, bits, to, helpers)?;
    Ok(kept)
}

/// An expression with so many zeros on top, which is valued alone.
fn padded(alloc: Global, of: VExpr, zeros: u32) -> Result<VExpr, AllocError>
    ensures { IfOk result (λ m. means.meaning m ≡ specs.padded zeros (means.meaning of)) }
{
    let zero = bit(alloc, Bit4::Zero)?;
    let fill = one_item(alloc, zero)?;
    let items = two_items(alloc, repetition(zeros, fill), of)?;
    Ok(concatenation(items))
}

/// What an unsigned operand that is lowered alone gives to a place of a type with so many bits more.
fn widened(
    alloc: Global,
    of: VExpr,
    zeros: u32,
    to: &SvType,
    helpers: &mut Helpers,
) -> Result<VExpr, AllocError>
    requires narrow { width_of to.now ≤ 4194304 }
    ensures grows { OnOk result (Grows helpers.old helpers.new) }
    ensures widens { IfOk result (λ m. Widens zeros to.now (means.meaning of) helpers.new (means.meaning m)) }
{
    let bits = padded(alloc, of, zeros)?;
    let kept = stored_bits(alloc, bits, to, helpers)?;
    Ok(kept)
}

/// What an operand that is lowered alone gives to a place of a type, as it is stored there.
fn converted(
    alloc: Global,
    x: &Expr,
    to: &SvType,
    part: VExpr,
    helpers: &mut Helpers,
) -> Result<VExpr, AllocError>
    requires operand { (meaning x.now).widest ≤ 4194304 }
    requires narrow { width_of to.now ≤ 4194304 }
    ensures grows { OnOk result (Grows helpers.old helpers.new) }
    ensures converts { IfOk result (λ m. Converts (meaning x.now) (layout to.now).two_state (means.meaning part) helpers.new (means.meaning m)) }
{
    let n = width(to);
    let own = own_width(x);
    if n != 0 && own == n {
        let kept = whole(alloc, part, to, helpers)?;
        Ok(kept)
    } else if n <= own {
        let cut = assigned(alloc, part, to, helpers)?;
        Ok(cut)
    } else if own_sign(x) {
        let alone = signing(alloc, true, part)?;
        let by_sign = assigned(alloc, alone, to, helpers)?;
        Ok(by_sign)
    } else {
        let wide = widened(alloc, part, n - own, to, helpers)?;
        Ok(wide)
    }
}

/// A cast to a type of an operand that is lowered alone: size casts, sign casts, type casts, `$signed` and `$unsigned`. A helper is
/// called only where bits are cut or a sign is repeated, or where x and z become 0. Or want of memory.
pub fn cast(
    alloc: Global,
    x: &Expr,
    to: &SvType,
    part: VExpr,
    helpers: &mut Helpers,
) -> Result<VExpr, AllocError>
    requires operand { (meaning x.now).widest ≤ 4194304 }
    requires narrow { width_of to.now ≤ 4194304 }
    ensures grows { OnOk result (Grows helpers.old helpers.new) }
    ensures casts { IfOk result (λ m. Casts (meaning x.now) to.now (means.meaning part) helpers.new (means.meaning m)) }
{
    let bits = converted(alloc, x, to, part, helpers)?;
    let made = with_sign(alloc, is_signed(to), bits)?;
    Ok(made)
}
