//! `==?` and `!=?` (IEEE 1800-2017 clause 11.4.6).

ghost use Rattle.std.specs.Prelude.{◌≡◌, ◌≤◌, [], ◌∷◌, IfOk, OnOk};
ghost use Rattle.sv_types.specs.Expressions.{meaning};
ghost use Rattle.v_meaning.specs.Values as means;
ghost use Rattle.path_flatten.specs.Helping.{Grows};
ghost use Rattle.form_lower.specs.Calls.{Calls};
ghost use Rattle.form_lower.specs.Wilds as specs;
ghost use Rattle.form_lower.specs.Wilds.{matcher, IsMatch, WildEquals};

use crate::calls::call_two;
use b4_core::{Bit4, Vec4};
use eval_parts::{are_signed, own_sign, wider};
use pairs::both;
use path_flatten::Helpers;
use std::alloc::{AllocError, Global};
use sv_types::Expr;
use v_build::{choose, literal, negate};
use v_tree::{Helper, HelperKind, VExpr};

/// One bit as a number.
pub(crate) fn bit(alloc: Global, b: Bit4) -> Result<VExpr, AllocError>
    ensures { IfOk result (λ e. means.meaning e ≡ means.literal (b ∷ [])) }
{
    let bits = Vec4::from_slice(alloc, &[b])?;
    Ok(literal(bits))
}

/// `1'b1 ? of : 1'b0`
fn unsigned(alloc: Global, of: VExpr) -> Result<VExpr, AllocError>
    ensures { IfOk result (λ e. means.meaning e ≡ specs.unsigned (means.meaning of)) }
{
    let bits = both(bit(alloc, Bit4::One), bit(alloc, Bit4::Zero));
    let (bits, of) = both(bits, Ok(of))?;
    let (one, zero) = bits;
    choose(alloc, one, of, zero)
}

/// An operand of a comparison, by its own sign and that of both.
fn at_sign(alloc: Global, of: VExpr, own: bool, of_both: bool) -> Result<VExpr, AllocError>
    ensures { IfOk result (λ e. means.meaning e ≡ specs.at_sign own of_both (means.meaning of)) }
{
    match (own, of_both) {
        (true, true) => Ok(of),
        (true, false) => unsigned(alloc, of),
        (false, true) => Ok(of),
        (false, false) => Ok(of),
    }
}

/// One bit that says whether two operands match, which are lowered at the width and the sign at which they are compared.
pub fn matching(
    alloc: Global,
    x: &Expr,
    y: &Expr,
    left: VExpr,
    right: VExpr,
    helpers: &mut Helpers,
) -> Result<VExpr, AllocError>
    requires left { (meaning x.now).widest ≤ 4194304 }
    requires right { (meaning y.now).widest ≤ 4194304 }
    ensures grows { OnOk result (Grows helpers.old helpers.new) }
    ensures matches { IfOk result (λ m. IsMatch (meaning x.now) (meaning y.now) (means.meaning left) (means.meaning right) helpers.new (means.meaning m)) }
{
    let of_both = are_signed(x, y);
    let left = at_sign(alloc, left, own_sign(x), of_both);
    let (left, right) = both(left, at_sign(alloc, right, own_sign(y), of_both))?;
    let helper = Helper {
        kind: HelperKind::WildEq,
        width: wider(x, y),
    };
    let made = call_two(alloc, helper, left, right, helpers)?;
    Ok(made)
}

/// Whether two operands match, or negated whether they don't, from both operands lowered at the width and the sign at which
/// they are compared. Or want of memory.
pub fn wild_equal(
    alloc: Global,
    negated: bool,
    x: &Expr,
    y: &Expr,
    left: VExpr,
    right: VExpr,
    helpers: &mut Helpers,
) -> Result<VExpr, AllocError>
    requires left { (meaning x.now).widest ≤ 4194304 }
    requires right { (meaning y.now).widest ≤ 4194304 }
    ensures grows { OnOk result (Grows helpers.old helpers.new) }
    ensures equals { IfOk result (λ m. WildEquals negated (meaning x.now) (meaning y.now) (means.meaning left) (means.meaning right) helpers.new (means.meaning m)) }
{
    let equal = matching(alloc, x, y, left, right, helpers)?;
    if negated {
        let unequal = negate(alloc, equal)?;
        Ok(unequal)
    } else {
        Ok(equal)
    }
}
