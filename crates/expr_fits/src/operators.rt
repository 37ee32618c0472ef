//! What operators ask of their operands (IEEE 1800-2017 clause 11.6.1).

ghost use Rattle.std.specs.Prelude.{◌≡◌, ◌<◌, ℕ, List};
ghost use Rattle.sv_types.specs.declared.expression.Form.TheVariants as V;
ghost use Rattle.sv_types.specs.Surroundings.{Parameter};
ghost use Rattle.sv_types.specs.Operators.{unary_arithmetic, binary_arithmetic};
ghost use Rattle.expr_fits.specs.Needs.{IsNeed, WordIf};

use crate::needs::{Need, Part};
use crate::results::{has_bits, is_result, is_vector, own};
use b4_core::{BinOp, EqOp, OrdOp, RedOp, ShiftOp, UnOp};
use eval_parts::{are_signed, own_sign};
use sv_types::Expr;

// Arithmetic has at most 128 bits.
const WORD: u32 = 128;

/// Whether arithmetic of this width has at most 128 bits.
pub fn is_word(width: u32) -> bool
    ensures { WordIf result width }
{
    width <= WORD
}

fn is_unary_word(op: UnOp, width: u32) -> bool
    ensures { WordIf result (unary_arithmetic op width) }
{
    match op {
        UnOp::Not => true,
        UnOp::Neg => is_word(width),
    }
}

fn is_binary_word(op: BinOp, width: u32) -> bool
    ensures { WordIf result (binary_arithmetic op width) }
{
    match op {
        BinOp::And => true,
        BinOp::Or => true,
        BinOp::Xor => true,
        BinOp::Xnor => true,
        BinOp::Add => is_word(width),
        BinOp::Sub => is_word(width),
        BinOp::Mul => is_word(width),
        BinOp::Div => is_word(width),
        BinOp::Rem => is_word(width),
    }
}

/// `~` and `-`.
pub fn unary<'a>(e: &'a Expr, op: UnOp, x: &'a Expr, width: u32) -> Need<'a>
    requires form { e.now.form ≡ V.Unary op x.now }
    requires some { 0 < width }
    ensures { (fs : ℕ → List Parameter) → IsNeed result e.now fs width }
{
    if !is_vector(&e.of, u64::from(own(x)), own_sign(x)) {
        return Need::Never;
    }
    if !is_unary_word(op, width) {
        return Need::Never;
    }
    Need::One(Part { of: x, width })
}

/// Reductions.
pub fn reduce<'a>(e: &'a Expr, op: RedOp, x: &'a Expr, width: u32) -> Need<'a>
    requires form { e.now.form ≡ V.Reduce op x.now }
    requires some { 0 < width }
    ensures { (fs : ℕ → List Parameter) → IsNeed result e.now fs width }
{
    if !is_vector(&e.of, 1, false) {
        return Need::Never;
    }
    Need::One(Part {
        of: x,
        width: own(x),
    })
}

/// `!`.
pub fn negate<'a>(e: &'a Expr, x: &'a Expr, width: u32) -> Need<'a>
    requires form { e.now.form ≡ V.Negate x.now }
    requires some { 0 < width }
    ensures { (fs : ℕ → List Parameter) → IsNeed result e.now fs width }
{
    if !is_vector(&e.of, 1, false) {
        return Need::Never;
    }
    Need::One(Part {
        of: x,
        width: own(x),
    })
}

/// Binary operators whose operands take the width of the context.
pub fn binary<'a>(e: &'a Expr, op: BinOp, x: &'a Expr, y: &'a Expr, width: u32) -> Need<'a>
    requires form { e.now.form ≡ V.Binary op x.now y.now }
    requires some { 0 < width }
    ensures { (fs : ℕ → List Parameter) → IsNeed result e.now fs width }
{
    let bits = u64::from(own(x).max(own(y)));
    let signed = are_signed(x, y);
    if !is_vector(&e.of, bits, signed) {
        return Need::Never;
    }
    if !is_binary_word(op, width) {
        return Need::Never;
    }
    Need::Two(Part { of: x, width }, Part { of: y, width })
}

/// Shifts.
pub fn shift<'a>(e: &'a Expr, op: ShiftOp, x: &'a Expr, y: &'a Expr, width: u32) -> Need<'a>
    requires form { e.now.form ≡ V.Shift op x.now y.now }
    requires some { 0 < width }
    ensures { (fs : ℕ → List Parameter) → IsNeed result e.now fs width }
{
    if !is_vector(&e.of, u64::from(own(x)), own_sign(x)) {
        return Need::Never;
    }
    Need::Two(
        Part { of: x, width },
        Part {
            of: y,
            width: own(y),
        },
    )
}

/// `**`.
pub fn power<'a>(e: &'a Expr, x: &'a Expr, y: &'a Expr, width: u32) -> Need<'a>
    requires form { e.now.form ≡ V.Power x.now y.now }
    requires some { 0 < width }
    ensures { (fs : ℕ → List Parameter) → IsNeed result e.now fs width }
{
    if !is_vector(&e.of, u64::from(own(x)), own_sign(x)) {
        return Need::Never;
    }
    if !is_word(width.max(own(y))) {
        return Need::Never;
    }
    Need::Two(
        Part { of: x, width },
        Part {
            of: y,
            width: own(y),
        },
    )
}

/// `<`, `<=`, `>` and `>=`.
pub fn order<'a>(e: &'a Expr, op: OrdOp, x: &'a Expr, y: &'a Expr, width: u32) -> Need<'a>
    requires form { e.now.form ≡ V.Order op x.now y.now }
    requires some { 0 < width }
    ensures { (fs : ℕ → List Parameter) → IsNeed result e.now fs width }
{
    let bits = own(x).max(own(y));
    if !is_vector(&e.of, 1, false) {
        return Need::Never;
    }
    if !is_word(bits) {
        return Need::Never;
    }
    Need::Two(Part { of: x, width: bits }, Part { of: y, width: bits })
}

/// Equalities.
pub fn equal<'a>(
    e: &'a Expr,
    op: EqOp,
    negated: bool,
    x: &'a Expr,
    y: &'a Expr,
    width: u32,
) -> Need<'a>
    requires form { e.now.form ≡ V.Equal op negated x.now y.now }
    requires some { 0 < width }
    ensures { (fs : ℕ → List Parameter) → IsNeed result e.now fs width }
{
    let bits = own(x).max(own(y));
    if !is_vector(&e.of, 1, false) {
        return Need::Never;
    }
    Need::Two(Part { of: x, width: bits }, Part { of: y, width: bits })
}

/// `&&`.
pub fn both<'a>(e: &'a Expr, x: &'a Expr, y: &'a Expr, width: u32) -> Need<'a>
    requires form { e.now.form ≡ V.Both x.now y.now }
    requires some { 0 < width }
    ensures { (fs : ℕ → List Parameter) → IsNeed result e.now fs width }
{
    if !is_vector(&e.of, 1, false) {
        return Need::Never;
    }
    Need::Two(
        Part {
            of: x,
            width: own(x),
        },
        Part {
            of: y,
            width: own(y),
        },
    )
}

/// `||`.
pub fn either<'a>(e: &'a Expr, x: &'a Expr, y: &'a Expr, width: u32) -> Need<'a>
    requires form { e.now.form ≡ V.Either x.now y.now }
    requires some { 0 < width }
    ensures { (fs : ℕ → List Parameter) → IsNeed result e.now fs width }
{
    if !is_vector(&e.of, 1, false) {
        return Need::Never;
    }
    Need::Two(
        Part {
            of: x,
            width: own(x),
        },
        Part {
            of: y,
            width: own(y),
        },
    )
}

/// `?:`.
pub fn choose<'a>(e: &'a Expr, z: &'a Expr, x: &'a Expr, y: &'a Expr, width: u32) -> Need<'a>
    requires form { e.now.form ≡ V.Choose z.now x.now y.now }
    requires some { 0 < width }
    ensures { (fs : ℕ → List Parameter) → IsNeed result e.now fs width }
{
    let bits = u64::from(own(x).max(own(y)));
    let signed = are_signed(x, y);
    if !is_result(&e.of, bits, signed) {
        return Need::Never;
    }
    Need::Three(
        Part {
            of: z,
            width: own(z),
        },
        Part { of: x, width },
        Part { of: y, width },
    )
}

/// Casts.
pub fn cast<'a>(e: &'a Expr, x: &'a Expr, width: u32) -> Need<'a>
    requires form { e.now.form ≡ V.Cast x.now }
    requires some { 0 < width }
    ensures { (fs : ℕ → List Parameter) → IsNeed result e.now fs width }
{
    if !has_bits(&e.of) {
        return Need::Never;
    }
    Need::One(Part {
        of: x,
        width: own(x),
    })
}

/// `$clog2`.
pub fn clog2<'a>(e: &'a Expr, x: &'a Expr, width: u32) -> Need<'a>
    requires form { e.now.form ≡ V.Clog2 x.now }
    requires some { 0 < width }
    ensures { (fs : ℕ → List Parameter) → IsNeed result e.now fs width }
{
    if !is_vector(&e.of, 32, true) {
        return Need::Never;
    }
    Need::One(Part {
        of: x,
        width: own(x),
    })
}
