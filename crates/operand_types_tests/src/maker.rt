//! Expressions from words, as a stack machine reads them. Each word is a token.

ghost use Rattle.std.specs.Prelude.{IfOk, IsTrue};
ghost use Rattle.inside_types.specs.Alternatives.{AllNarrowIn, IsNarrowIn};
ghost use Rattle.operand_types.specs.Allowed.{AllNarrow, IsNarrow, IsNarrowExpr};

use choice_types::choice_of;
use expr_type::{Halt, Source, Valued};
use inside_types::{Alternative, Alternatives, inside_of};
use operand_types::{
    Operands, binary_of, by_itself, concat_of, has_bits, is_part, repeat_of, unary_of,
};
use std::alloc::Global;
use sv_source::Boxed;
use sv_tree::{BinaryOperator, UnaryOperator};
use sv_types::{EnumNames, Expr, Exprs, Form, SvType, is_narrow};
use type_kinds::{one_bit, vector};

fn enumeration(alloc: Global, id: u32) -> Result<SvType, Halt> {
    Ok(SvType::Enum {
        id,
        base: Boxed::new(alloc, vector(alloc, 2, false)?)?,
        names: EnumNames::new(alloc),
    })
}

fn list(alloc: Global) -> Result<SvType, Halt> {
    Ok(SvType::UnpackedArray {
        left: 0,
        right: 3,
        item: Boxed::new(alloc, one_bit())?,
    })
}

// 65,537 elements of a byte
fn memory(alloc: Global) -> Result<SvType, Halt> {
    Ok(SvType::UnpackedArray {
        left: 0,
        right: 65536,
        item: Boxed::new(alloc, vector(alloc, 8, false)?)?,
    })
}

// `u8`, `s8` and the like are vectors, `e` and `f` enums of two bits, `l` an unpacked list, and `m` one of over 65,536 bits.
fn type_of(alloc: Global, word: &str) -> Result<SvType, Halt> {
    match word {
        "bit" => Ok(one_bit()),
        "u8" => Ok(vector(alloc, 8, false)?),
        "s8" => Ok(vector(alloc, 8, true)?),
        "s16" => Ok(vector(alloc, 16, true)?),
        "u129" => Ok(vector(alloc, 129, false)?),
        "u40000" => Ok(vector(alloc, 40000, false)?),
        "e" => enumeration(alloc, 1),
        "f" => enumeration(alloc, 2),
        "l" => list(alloc),
        "m" => memory(alloc),
        _ => Err(Halt::Quiet),
    }
}

fn binary(word: &str) -> Option<BinaryOperator> {
    match word {
        "+" => Some(BinaryOperator::Add),
        "|" => Some(BinaryOperator::Or),
        "<" => Some(BinaryOperator::Less),
        "==" => Some(BinaryOperator::Equal),
        "<<" => Some(BinaryOperator::ShiftLeft),
        "**" => Some(BinaryOperator::Power),
        "&&" => Some(BinaryOperator::LogicalAnd),
        _ => None,
    }
}

fn unary(word: &str) -> Option<UnaryOperator> {
    match word {
        "plus" => Some(UnaryOperator::Plus),
        "minus" => Some(UnaryOperator::Minus),
        "!" => Some(UnaryOperator::Not),
        "~" => Some(UnaryOperator::Invert),
        "^" => Some(UnaryOperator::ReduceXor),
        _ => None,
    }
}

fn has_narrow_type(v: &Valued) -> bool
    ensures { IsTrue result → IsNarrow v.now }
{
    is_narrow(&v.expr.of)
}

fn popped(stack: &mut Vec<Valued>) -> Result<Valued, Halt> {
    stack.pop().ok_or(Halt::Quiet)
}

fn two(stack: &mut Vec<Valued>) -> Result<Operands, Halt> {
    let right = popped(stack)?;
    match stack.pop() {
        Some(left) => Ok(Operands { left, right }),
        None => Err(Halt::Quiet),
    }
}

fn short_two(parts: Operands) -> Result<Operands, Halt>
    ensures { IfOk result (λ parts. IsNarrow parts.left × IsNarrow parts.right) }
{
    if has_narrow_type(&parts.left) && has_narrow_type(&parts.right) {
        Ok(parts)
    } else {
        Err(Halt::Quiet)
    }
}

fn operated(
    alloc: Global,
    text: Source<'_>,
    op: BinaryOperator,
    at: u32,
    parts: Operands,
) -> Result<Valued, Halt> {
    let Operands { left, right } = short_two(parts)?;
    binary_of(alloc, text, op, at, left, right)
}

fn prefixed(
    alloc: Global,
    text: Source<'_>,
    op: UnaryOperator,
    at: u32,
    v: Valued,
) -> Result<Valued, Halt> {
    if has_narrow_type(&v) {
        unary_of(alloc, text, op, at, v)
    } else {
        Err(Halt::Quiet)
    }
}

fn choice(
    alloc: Global,
    text: Source<'_>,
    at: u32,
    stack: &mut Vec<Valued>,
) -> Result<Valued, Halt> {
    let arms = short_two(two(stack)?)?;
    match stack.pop() {
        Some(on) => {
            let Operands { left, right } = arms;
            choice_of(alloc, text, at, on, left, right)
        }
        None => Err(Halt::Quiet),
    }
}

fn part(text: Source<'_>, v: Valued) -> Result<Expr, Halt>
    ensures { IfOk result IsNarrowExpr }
{
    let v = is_part(text, v)?;
    if has_narrow_type(&v) {
        Ok(v.expr)
    } else {
        Err(Halt::Quiet)
    }
}

fn one(alloc: Global, e: Result<Expr, Halt>) -> Result<Exprs, Halt>
    requires { IfOk e IsNarrowExpr }
    ensures { IfOk result AllNarrow }
{
    let mut parts = Exprs::new(alloc);
    parts.push(e?)?;
    Ok(parts)
}

#[tactic(auto, using(crate::proofs::Lists::lists))]
fn more(parts: Result<Exprs, Halt>, e: Result<Expr, Halt>) -> Result<Exprs, Halt>
    requires parts { IfOk parts AllNarrow }
    requires last { IfOk e IsNarrowExpr }
    ensures { IfOk result AllNarrow }
{
    let mut parts = parts?;
    parts.push(e?)?;
    Ok(parts)
}

fn joined(
    alloc: Global,
    text: Source<'_>,
    at: u32,
    stack: &mut Vec<Valued>,
) -> Result<Valued, Halt> {
    let Operands { left, right } = two(stack)?;
    let parts = one(alloc, part(text, left));
    let parts = more(parts, part(text, right))?;
    concat_of(alloc, text, at, parts)
}

fn repeated(
    alloc: Global,
    text: Source<'_>,
    at: u32,
    count: u32,
    v: Valued,
) -> Result<Valued, Halt> {
    let parts = one(alloc, part(text, v))?;
    repeat_of(alloc, text, at, count, parts)
}

#[derive(Drop)]
struct Membership {
    value: Valued,
    items: Alternatives,
}

// `inside`, of a value, an item and a range.
fn compared(
    alloc: Global,
    text: Source<'_>,
    at: u32,
    stack: &mut Vec<Valued>,
) -> Result<Valued, Halt> {
    let items = items(alloc, stack)?;
    match stack.pop() {
        Some(value) => inside(alloc, text, at, Membership { value, items }),
        None => Err(Halt::Quiet),
    }
}

fn inside(alloc: Global, text: Source<'_>, at: u32, parts: Membership) -> Result<Valued, Halt>
    requires { AllNarrowIn parts.items }
{
    if has_narrow_type(&parts.value) {
        let Membership { value, items } = parts;
        inside_of(alloc, text, at, value, items)
    } else {
        Err(Halt::Quiet)
    }
}

fn between(range: Operands) -> Result<Alternative, Halt>
    ensures { IfOk result IsNarrowIn }
{
    let Operands { left, right } = short_two(range)?;
    Ok(Alternative::Between {
        low: left,
        high: right,
    })
}

fn only(v: Option<Valued>) -> Result<Alternative, Halt>
    ensures { IfOk result IsNarrowIn }
{
    let v = v.ok_or(Halt::Quiet)?;
    if has_narrow_type(&v) {
        Ok(Alternative::Only(v))
    } else {
        Err(Halt::Quiet)
    }
}

fn first_item(alloc: Global, item: Result<Alternative, Halt>) -> Result<Alternatives, Halt>
    requires { IfOk item IsNarrowIn }
    ensures { IfOk result AllNarrowIn }
{
    let mut items = Alternatives::new(alloc);
    items.push(item?)?;
    Ok(items)
}

#[tactic(auto, using(crate::proofs::Lists::lists))]
fn next_item(
    items: Result<Alternatives, Halt>,
    item: Result<Alternative, Halt>,
) -> Result<Alternatives, Halt>
    requires items { IfOk items AllNarrowIn }
    requires last { IfOk item IsNarrowIn }
    ensures { IfOk result AllNarrowIn }
{
    let mut items = items?;
    items.push(item?)?;
    Ok(items)
}

fn items(alloc: Global, stack: &mut Vec<Valued>) -> Result<Alternatives, Halt>
    ensures { IfOk result AllNarrowIn }
{
    let range = between(two(stack)?);
    let items = first_item(alloc, only(stack.pop()));
    next_item(items, range)
}

fn pushed(
    alloc: Global,
    text: Source<'_>,
    at: u32,
    stack: &mut Vec<Valued>,
    word: &str,
) -> Result<Valued, Halt> {
    if let Some(op) = binary(word) {
        let parts = two(stack)?;
        return operated(alloc, text, op, at, parts);
    }
    if let Some(op) = unary(word) {
        let v = popped(stack)?;
        return prefixed(alloc, text, op, at, v);
    }
    match word {
        "?" => choice(alloc, text, at, stack),
        "{}" => joined(alloc, text, at, stack),
        "9{}" => repeated(alloc, text, at, 9, popped(stack)?),
        "bits" => has_bits(text, popped(stack)?),
        "inside" => compared(alloc, text, at, stack),
        "number" => {
            let of = vector(alloc, 32, true)?;
            let mut v = by_itself(alloc, text, at, of, Form::Signal(at))?;
            v.is_unsized = true;
            Ok(v)
        }
        _ => {
            let of = type_of(alloc, word)?;
            Ok(by_itself(alloc, text, at, of, Form::Signal(at))?)
        }
    }
}

/// The expression of some words, or the first break among them, in the order of the words.
pub fn expression(alloc: Global, words: &str) -> Result<Valued, Halt> {
    let tokens = Vec::new(alloc);
    let text = Source {
        tokens: tokens.as_slice(),
        instance: 0,
    };
    let mut stack = Vec::new(alloc);
    let mut at: u32 = 0;
    for word in words.split(' ') {
        let v = pushed(alloc, text, at, &mut stack, word)?;
        stack.push(v)?;
        at = at.wrapping_add(1);
    }
    popped(&mut stack)
}
