//! `inside` (IEEE 1800-2017 clause 11.4.13).

ghost use Rattle.std.specs.Prelude.{◌≡◌, ◌≤◌, suc, [], ◌∷◌, length, reverse, IfOk, OnOk};
ghost use Rattle.b4_core.specs.declared.bit.Bit4.TheVariants.{Zero};
ghost use Rattle.b4_core.specs.declared.operators.OrdOp.TheVariants.{GreaterEqual, LessEqual};
ghost use Rattle.sv_types.specs.declared.expression.Form.TheVariants as forms;
ghost use Rattle.sv_types.specs.Expressions.{meaning};
ghost use Rattle.v_meaning.specs.Values as means;
ghost use Rattle.v_build.specs.Trees.{meanings};
ghost use Rattle.eval_forms.specs.Narrow.{ChoiceIsNarrow, AllChoicesNarrow};
ghost use Rattle.path_flatten.specs.Helping.{Grows};
ghost use Rattle.expr_lower.specs.Lowering.{CombinesAnywhere};
ghost use Rattle.expr_lower.specs.Insides.{choice_asks, choices_ask, Takes, Lists, any_of};

use crate::operands::{Pair, last_two, one};
use b4_core::{Bit4, OrdOp, RedOp, Vec4};
use form_lower::matching;
use path_flatten::Helpers;
use std::alloc::{AllocError, Global};
use sv_types::{Choice, Expr};
use v_build::{both, concatenation, literal, order, reduce};
use v_tree::{VExpr, VExprs};

/// `(low.left >= low.right) && (high.left <= high.right)`
fn between(alloc: Global, low: Pair, high: Pair) -> Result<VExpr, AllocError>
    ensures { IfOk result (λ m. means.meaning m ≡ means.both (means.order GreaterEqual (means.meaning low.left) (means.meaning low.right)) (means.order LessEqual (means.meaning high.left) (means.meaning high.right))) }
{
    let above = order(alloc, OrdOp::GreaterEqual, low.left, low.right);
    let below = order(alloc, OrdOp::LessEqual, high.left, high.right);
    let (above, below) = pairs::both(above, below)?;
    both(alloc, above, below)
}

/// One bit that says whether a value is an alternative, made of the last ones of what is lowered.
fn alternative(
    alloc: Global,
    x: &Expr,
    choice: &Choice,
    rest: &mut VExprs,
    helpers: &mut Helpers,
) -> Result<VExpr, AllocError>
    requires value { (meaning x.now).widest ≤ 4194304 }
    requires narrow { ChoiceIsNarrow choice.now }
    requires enough { length (choice_asks x.now choice.now) ≤ length rest.old }
    ensures grows { OnOk result (Grows helpers.old helpers.new) }
    ensures takes { IfOk result (λ m. Takes x.now choice.now rest.old rest.new helpers.new (means.meaning m)) }
{
    match choice {
        Choice::Value(y) => {
            let pair = last_two(rest);
            let equal = matching(alloc, x, y, pair.left, pair.right, helpers)?;
            Ok(equal)
        }
        Choice::Range(_, _) => {
            let high = last_two(rest);
            let low = last_two(rest);
            let inner = between(alloc, low, high)?;
            Ok(inner)
        }
    }
}

/// The same from the end on.
fn turned(alloc: Global, bits: VExprs) -> Result<VExprs, AllocError>
    ensures { IfOk result (λ made. made ≡ reverse bits) }
{
    let mut rest = bits;
    let mut made = VExprs::new(alloc);
    while let Some(bit) = rest.pop() {
        made.push(bit)?;
    }
    Ok(made)
}

/// One bit for each alternative, in order, from what is lowered in order.
fn alternatives(
    alloc: Global,
    x: &Expr,
    choices: &[Choice],
    parts: VExprs,
    helpers: &mut Helpers,
) -> Result<VExprs, AllocError>
    requires value { (meaning x.now).widest ≤ 4194304 }
    requires narrow { AllChoicesNarrow choices.now }
    requires count { length parts ≡ suc (length (choices_ask x.now choices.now)) }
    ensures grows { OnOk result (Grows helpers.old helpers.new) }
    ensures lists { IfOk result (λ bits. Lists x.now choices.now (meanings parts) helpers.new (meanings bits)) }
{
    let mut rest = parts;
    let mut made = VExprs::new(alloc);
    let mut i = choices.len();
    while i > 0 {
        i -= 1;
        let bit = alternative(alloc, x, &choices[i], &mut rest, helpers)?;
        made.push(bit)?;
    }
    let ordered = turned(alloc, made)?;
    Ok(ordered)
}

/// The bit of the only alternative, or whether that of any is 1: `|{first, .., last}`. A list of any length nests no deeper.
fn any(alloc: Global, bits: VExprs) -> Result<VExpr, AllocError>
    ensures { IfOk result (λ m. means.meaning m ≡ any_of (meanings bits)) }
{
    if bits.len() == 1 {
        return Ok(one(bits));
    }
    let made = reduce(alloc, RedOp::Or, concatenation(bits))?;
    Ok(made)
}

/// `value && 1'b0`
fn never(alloc: Global, value: VExpr) -> Result<VExpr, AllocError>
    ensures { IfOk result (λ m. means.meaning m ≡ means.both (means.meaning value) (means.literal (Zero ∷ []))) }
{
    let bits = Vec4::from_slice(alloc, &[Bit4::Zero]);
    let (bits, value) = pairs::both(bits, Ok(value))?;
    both(alloc, value, literal(bits))
}

/// `inside` from its operands in order: the value, and for each alternative the value again beside each bound. Without
/// alternatives it is 0, and names what the value names.
pub fn inside(
    alloc: Global,
    e: &Expr,
    x: &Expr,
    choices: &[Choice],
    parts: VExprs,
    helpers: &mut Helpers,
) -> Result<VExpr, AllocError>
    requires form { e.now.form ≡ forms.Inside x.now choices.now }
    requires value { (meaning x.now).widest ≤ 4194304 }
    requires narrow { AllChoicesNarrow choices.now }
    requires count { length parts ≡ suc (length (choices_ask x.now choices.now)) }
    ensures grows { OnOk result (Grows helpers.old helpers.new) }
    ensures combines { IfOk result (λ m. CombinesAnywhere helpers.new e.now (meanings parts) (means.meaning m)) }
{
    if choices.is_empty() {
        let nothing = never(alloc, one(parts))?;
        Ok(nothing)
    } else {
        let bits = alternatives(alloc, x, choices, parts, helpers)?;
        let made = any(alloc, bits)?;
        Ok(made)
    }
}
