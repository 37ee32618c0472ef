//! Operands, and what operators ask of them.

ghost use Rattle.std.specs.Prelude.{◌≡◌, ◌≤◌, ◌++◌, ◌∷◌, [], max, ◌&&◌, ◌||◌, false, IfOk};
ghost use Rattle.expr_type.specs.Answers.{Gives, source};
ghost use Rattle.expr_type.specs.Typings.{at_all};
ghost use Rattle.expr_type.specs.Operands as rule;
ghost use Rattle.expr_type.specs.Operators as operator;
ghost use Rattle.expr_type.specs.Shapes as shape;
ghost use Rattle.expr_type.specs.Shapes.{sign_of, vector};
ghost use Rattle.expr_type.specs.declared.operand.Valued.{Valued};
ghost use Rattle.std.specs.List.{list_any};
ghost use Rattle.operand_types.specs.Allowed.{Allows, IsNarrow};
ghost use Rattle.sv_types.specs.Layouts.{width_of};

use eval_parts::is_signed;
use expr_type::{Halt, Source, Valued};
use std::alloc::{AllocError, Global};
use sv_source::{Boxed, Items};
use sv_types::{Expr, SvType, width};
use type_kinds::{is_unpacked, vector};

/// The most bits on which operators do arithmetic and compare by order.
pub const MOST_ARITHMETIC: u32 = 128;

/// Two operands of an operator.
#[derive(Drop)]
pub struct Operands {
    /// The left operand.
    pub left: Valued,
    /// The right operand.
    pub right: Valued,
}

/// The width of an operand.
pub fn width_of_operand(v: &Valued) -> u32
    requires { IsNarrow v.now }
    ensures value { result ≡ rule.width v.now }
    ensures narrow { result ≤ 4194304 }
{
    width(&v.expr.of)
}

/// The larger width of two operands.
pub fn both_wide(parts: &Operands) -> u32
    requires left { IsNarrow parts.now.left }
    requires right { IsNarrow parts.now.right }
    ensures value { result ≡ operator.both_wide parts.now.left parts.now.right }
    ensures narrow { result ≤ 4194304 }
{
    width_of_operand(&parts.left).max(width_of_operand(&parts.right))
}

/// The type that operators give to two operands: the larger width, signed if both are.
pub fn both_type(alloc: Global, parts: &Operands) -> Result<SvType, AllocError>
    requires left { IsNarrow parts.now.left }
    requires right { IsNarrow parts.now.right }
    ensures value { IfOk result (λ t. t ≡ operator.both_type parts.now.left parts.now.right) }
    ensures narrow { IfOk result (λ t. width_of t ≤ 4194304) }
{
    let signed = is_signed(&parts.left.expr.of) && is_signed(&parts.right.expr.of);
    vector(alloc, both_wide(parts), signed)
}

/// The vector of an expression's width and sign.
pub fn same_type(alloc: Global, e: &Expr) -> Result<SvType, AllocError>
    requires { width_of e.now.of ≤ 4194304 }
    ensures value { IfOk result (λ t. t ≡ vector (width_of e.now.of) (sign_of e.now.of)) }
    ensures narrow { IfOk result (λ t. width_of t ≤ 4194304) }
{
    vector(alloc, width(&e.of), is_signed(&e.of))
}

/// An operand of which the bits are wanted: it isn't unpacked (E508).
pub fn has_bits(text: Source<'_>, v: Valued) -> Result<Valued, Halt>
    ensures { Gives result (rule.has_bits (source text.entry) v) }
{
    if is_unpacked(&v.expr.of) {
        return Err(Halt::Breaks {
            at: v.first,
            rule: 508,
        });
    }
    Ok(v)
}

// Whether one of two tests says yes.
fn is_either(left: bool, right: bool) -> bool
    ensures { result ≡ (left || (right || false)) }
{
    left || right
}

/// Whether one of two operands is unpacked.
pub fn is_unpacked_pair(parts: &Operands) -> bool
    ensures { result ≡ list_any (λ (v : Valued). shape.is_unpacked v.expr.of) (parts.now.left ∷ parts.now.right ∷ []) }
{
    is_either(
        is_unpacked(&parts.left.expr.of),
        is_unpacked(&parts.right.expr.of),
    )
}

/// That no operator in an operand is too wide in a context of a width (E502).
#[tactic(auto, using(crate::proofs::Allowing::allowing))]
pub fn allowed_in(text: Source<'_>, width: u32, operators: &Items<u32>) -> Result<(), Halt>
    ensures { Allows result (at_all (source text.entry).instance 502 (rule.too_wide width operators.now)) }
{
    if width <= MOST_ARITHMETIC {
        return Ok(());
    }
    match sv_source::at(operators.as_slice(), 0) {
        None => Ok(()),
        Some(at) => Err(Halt::Breaks { at: *at, rule: 502 }),
    }
}

/// Two operands as parts of an expression, and the operators in both.
#[derive(Drop)]
pub struct Pair {
    /// The left operand.
    pub left: Boxed<Expr>,
    /// The right operand.
    pub right: Boxed<Expr>,
    /// The operators that do arithmetic at the width of the context.
    pub arithmetic: Items<u32>,
}

// Operators in the order of the text.
fn appended(left: Items<u32>, right: Items<u32>) -> Result<Items<u32>, AllocError>
    ensures { IfOk result (λ all. all ≡ left ++ right) }
{
    let mut all = left;
    all.append(right)?;
    Ok(all)
}

// Operators with one between them.
fn around(left: Items<u32>, at: u32, right: Items<u32>) -> Result<Items<u32>, AllocError>
    ensures { IfOk result (λ all. all ≡ left ++ at ∷ right) }
{
    let mut all = left;
    all.push(at)?;
    all.append(right)?;
    Ok(all)
}

// Two expressions and the operators in them.
fn pair_of(
    alloc: Global,
    left: Expr,
    right: Expr,
    arithmetic: Result<Items<u32>, AllocError>,
) -> Result<Pair, AllocError>
    ensures left { IfOk result (λ p. p.left ≡ left) }
    ensures right { IfOk result (λ p. p.right ≡ right) }
    ensures operators { IfOk result (λ p. arithmetic ≡ Ok p.arithmetic) }
{
    let boxes = pairs::both(Boxed::new(alloc, left), Boxed::new(alloc, right));
    let ((left, right), arithmetic) = pairs::both(boxes, arithmetic)?;
    Ok(Pair {
        left,
        right,
        arithmetic,
    })
}

/// Two operands of an operator that isn't arithmetic.
pub fn beside(alloc: Global, parts: Operands) -> Result<Pair, AllocError>
    ensures left { IfOk result (λ p. p.left ≡ parts.left.expr) }
    ensures right { IfOk result (λ p. p.right ≡ parts.right.expr) }
    ensures operators { IfOk result (λ p. p.arithmetic ≡ parts.left.arithmetic ++ parts.right.arithmetic) }
{
    let Operands { left, right } = parts;
    let arithmetic = appended(left.arithmetic, right.arithmetic);
    pair_of(alloc, left.expr, right.expr, arithmetic)
}

/// Two operands of an operator that does arithmetic.
pub fn around_operator(alloc: Global, at: u32, parts: Operands) -> Result<Pair, AllocError>
    ensures left { IfOk result (λ p. p.left ≡ parts.left.expr) }
    ensures right { IfOk result (λ p. p.right ≡ parts.right.expr) }
    ensures operators { IfOk result (λ p. p.arithmetic ≡ parts.left.arithmetic ++ at ∷ parts.right.arithmetic) }
{
    let Operands { left, right } = parts;
    let arithmetic = around(left.arithmetic, at, right.arithmetic);
    pair_of(alloc, left.expr, right.expr, arithmetic)
}

/// Two operands of which the right one is valued alone.
pub fn shifted(alloc: Global, parts: Operands) -> Result<Pair, AllocError>
    ensures left { IfOk result (λ p. p.left ≡ parts.left.expr) }
    ensures right { IfOk result (λ p. p.right ≡ parts.right.expr) }
    ensures operators { IfOk result (λ p. p.arithmetic ≡ parts.left.arithmetic) }
{
    let Operands { left, right } = parts;
    pair_of(alloc, left.expr, right.expr, Ok(left.arithmetic))
}

/// Two operands of an operator that does arithmetic, of which the right one is valued alone.
pub fn raised(alloc: Global, at: u32, parts: Operands) -> Result<Pair, AllocError>
    ensures left { IfOk result (λ p. p.left ≡ parts.left.expr) }
    ensures right { IfOk result (λ p. p.right ≡ parts.right.expr) }
    ensures operators { IfOk result (λ p. p.arithmetic ≡ parts.left.arithmetic ++ at ∷ []) }
{
    let Operands { left, right } = parts;
    let arithmetic = around(left.arithmetic, at, Items::new(alloc));
    pair_of(alloc, left.expr, right.expr, arithmetic)
}
