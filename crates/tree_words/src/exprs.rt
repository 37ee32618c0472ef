//! The stack machine that makes trees of words.

use crate::types::{bit_type, bits, bits_between, int_type, type_of, vector};
use crate::words::Word;
use eval_parts::own_sign;
use expr_fits::own;
use pairs::both;
use std::alloc::{AllocError, Global};
use sv_source::{Boxed, Place, Spot, Text};
use sv_types::{Choice, Choices, Expr, Exprs, Form, SvType, Value, is_narrow, of_bits, width};

/// Types and expressions that were made.
#[derive(Drop)]
pub struct Stack {
    types: Vec<SvType>,
    exprs: Vec<Expr>,
    next: u32,
}

impl Stack {
    /// Nothing yet.
    pub fn new(alloc: Global) -> Stack {
        Stack {
            types: Vec::new(alloc),
            exprs: Vec::new(alloc),
            next: 1,
        }
    }
}

/// A place without a text.
pub fn spot(alloc: Global, at: u32) -> Spot {
    Spot {
        at,
        place: Place {
            file: 0,
            line: 0,
            col: 0,
        },
        word: Text::new(alloc),
    }
}

fn zero(alloc: Global) -> Expr {
    Expr {
        of: bit_type(),
        spot: spot(alloc, 0),
        form: Form::Fill(b4_core::Bit4::Zero),
    }
}

/// The last type.
pub fn last_type(stack: &mut Stack) -> SvType {
    stack.types.pop().unwrap_or(bit_type())
}

/// The last expression.
pub fn last(alloc: Global, stack: &mut Stack) -> Expr {
    match stack.exprs.pop() {
        Some(e) => e,
        None => zero(alloc),
    }
}

fn one(alloc: Global, stack: &mut Stack) -> Result<Boxed<Expr>, AllocError> {
    Boxed::new(alloc, last(alloc, stack))
}

// The last two, the first one first.
fn two(alloc: Global, stack: &mut Stack) -> Result<(Boxed<Expr>, Boxed<Expr>), AllocError> {
    let (y, x) = both(one(alloc, stack), one(alloc, stack))?;
    Ok((x, y))
}

/// The last `count` expressions in the order in which they were made.
pub fn several(alloc: Global, stack: &mut Stack, count: u32) -> Result<Exprs, AllocError> {
    let mut taken = Vec::new(alloc);
    for _i in 0..count {
        taken.push(last(alloc, stack))?;
    }
    taken.reverse();
    Ok(Exprs::from_vec(taken))
}

fn push(alloc: Global, stack: &mut Stack, of: SvType, form: Form) -> Result<(), AllocError> {
    let at = stack.next;
    stack.next = at.saturating_add(1);
    stack.exprs.push(Expr {
        of,
        spot: spot(alloc, at),
        form,
    })?;
    Ok(())
}

// One of the last type.
fn push_typed(alloc: Global, stack: &mut Stack, form: Form) -> Result<(), AllocError> {
    let of = last_type(stack);
    push(alloc, stack, of, form)
}

fn push_made(
    alloc: Global,
    stack: &mut Stack,
    of: Result<SvType, AllocError>,
    form: Form,
) -> Result<(), AllocError> {
    push(alloc, stack, of?, form)
}

// One of a vector.
fn push_vector(
    alloc: Global,
    stack: &mut Stack,
    bits: u32,
    signed: bool,
    form: Form,
) -> Result<(), AllocError> {
    push_made(alloc, stack, vector(alloc, bits, signed), form)
}

// One of a bit.
fn push_bit(alloc: Global, stack: &mut Stack, form: Form) -> Result<(), AllocError> {
    push(alloc, stack, bit_type(), form)
}

fn number(
    alloc: Global,
    stack: &mut Stack,
    text: &str,
    signed: bool,
    goes_on: bool,
) -> Result<(), AllocError> {
    let bits = bits(alloc, text)?;
    let long = text.len().min(1000) as u32;
    push_vector(alloc, stack, long, signed, Form::Literal { bits, goes_on })
}

// The value of a type that has these bits; the bits where they are of another number.
fn value_of(alloc: Global, t: &SvType, text: &str) -> Result<Value, AllocError> {
    let v = bits(alloc, text)?;
    if is_narrow(t) && v.len() == width(t) as usize {
        return of_bits(alloc, t, &v);
    }
    Ok(Value::Bits(v))
}

fn constant(alloc: Global, stack: &mut Stack, text: &str) -> Result<(), AllocError> {
    let of = last_type(stack);
    let value = value_of(alloc, &of, text)?;
    push(alloc, stack, of, Form::Constant(value))
}

// The widths and signs of two operands together.
fn wider(x: &Expr, y: &Expr) -> (u32, bool) {
    (own(x).max(own(y)), own_sign(x) && own_sign(y))
}

fn total(es: &[Expr]) -> u32 {
    let mut sum: u32 = 0;
    for e in es {
        sum = sum.saturating_add(own(e));
    }
    sum
}

fn choose(alloc: Global, stack: &mut Stack) -> Result<(), AllocError> {
    let ((x, y), z) = {
        let pair = two(alloc, stack);
        let on = one(alloc, stack);
        both(pair, on)?
    };
    let (bits, signed) = wider(x.get(), y.get());
    push_vector(alloc, stack, bits, signed, Form::Choose(z, x, y))
}

fn choices(alloc: Global, stack: &mut Stack, kinds: &str) -> Result<Choices, AllocError> {
    let mut taken = Vec::new(alloc);
    for kind in kinds.bytes().rev() {
        let high = last(alloc, stack);
        if kind == b'r' {
            let low = last(alloc, stack);
            taken.push(Choice::Range(low, high))?;
        } else {
            taken.push(Choice::Value(high))?;
        }
    }
    taken.reverse();
    Ok(Choices::from_vec(taken))
}

fn inside(alloc: Global, stack: &mut Stack, kinds: &str) -> Result<(), AllocError> {
    let (choices, x) = {
        let choices = choices(alloc, stack, kinds);
        let x = one(alloc, stack);
        both(choices, x)?
    };
    push_bit(alloc, stack, Form::Inside(x, choices))
}

// Operators of one operand, and those of two.
fn put_operator(alloc: Global, stack: &mut Stack, word: Word) -> Result<(), AllocError> {
    match word {
        Word::Unary(op) => {
            let x = one(alloc, stack)?;
            let (bits, signed) = (own(x.get()), own_sign(x.get()));
            push_vector(alloc, stack, bits, signed, Form::Unary(op, x))
        }
        Word::Reduce(op) => {
            let x = one(alloc, stack)?;
            push_bit(alloc, stack, Form::Reduce(op, x))
        }
        Word::Negate => {
            let x = one(alloc, stack)?;
            push_bit(alloc, stack, Form::Negate(x))
        }
        Word::Binary(op) => {
            let (x, y) = two(alloc, stack)?;
            let (bits, signed) = wider(x.get(), y.get());
            push_vector(alloc, stack, bits, signed, Form::Binary(op, x, y))
        }
        Word::Shift(op) => {
            let (x, y) = two(alloc, stack)?;
            let (bits, signed) = (own(x.get()), own_sign(x.get()));
            push_vector(alloc, stack, bits, signed, Form::Shift(op, x, y))
        }
        Word::Power => {
            let (x, y) = two(alloc, stack)?;
            let (bits, signed) = (own(x.get()), own_sign(x.get()));
            push_vector(alloc, stack, bits, signed, Form::Power(x, y))
        }
        Word::Order(op) => {
            let (x, y) = two(alloc, stack)?;
            push_bit(alloc, stack, Form::Order(op, x, y))
        }
        Word::Equal(op, negated) => {
            let (left, right) = two(alloc, stack)?;
            push_bit(
                alloc,
                stack,
                Form::Equal {
                    op,
                    negated,
                    left,
                    right,
                },
            )
        }
        Word::Both => {
            let (x, y) = two(alloc, stack)?;
            push_bit(alloc, stack, Form::Both(x, y))
        }
        Word::Either => {
            let (x, y) = two(alloc, stack)?;
            push_bit(alloc, stack, Form::Either(x, y))
        }
        Word::Choose => choose(alloc, stack),
        Word::Inside(kinds) => inside(alloc, stack, kinds),
        Word::Clog2 => {
            let x = one(alloc, stack)?;
            push_vector(alloc, stack, 32, true, Form::Clog2(x))
        }
        _ => Ok(()),
    }
}

/// Puts what a word of an expression makes.
pub fn put(alloc: Global, stack: &mut Stack, word: Word) -> Result<(), AllocError> {
    match word {
        Word::Type(words) => {
            stack.types.push(type_of(alloc, words)?)?;
            Ok(())
        }
        Word::Vector(left, right) => {
            stack.types.push(bits_between(alloc, left, right, false)?)?;
            Ok(())
        }
        Word::SignedVector(left, right) => {
            stack.types.push(bits_between(alloc, left, right, true)?)?;
            Ok(())
        }
        Word::Scalar => {
            stack.types.push(bit_type())?;
            Ok(())
        }
        Word::Int => {
            stack.types.push(int_type(alloc)?)?;
            Ok(())
        }
        Word::Bits(text) => number(alloc, stack, text, false, false),
        Word::Signed(text) => number(alloc, stack, text, true, false),
        Word::GoesOn(text) => number(alloc, stack, text, false, true),
        Word::Fill(b) => push_bit(alloc, stack, Form::Fill(b)),
        Word::Constant(text) => constant(alloc, stack, text),
        Word::Signal(n) => push_typed(alloc, stack, Form::Signal(n)),
        Word::Local(n) => push_typed(alloc, stack, Form::Local(n)),
        Word::Member(k) => {
            let x = one(alloc, stack)?;
            push_typed(alloc, stack, Form::Member(x, k))
        }
        Word::Index => {
            let (x, i) = two(alloc, stack)?;
            push_typed(alloc, stack, Form::Index(x, i))
        }
        Word::Part(left, right) => {
            let from = one(alloc, stack)?;
            push_typed(alloc, stack, Form::Part { from, left, right })
        }
        Word::Slide(width, up) => {
            let (from, base) = two(alloc, stack)?;
            push_typed(
                alloc,
                stack,
                Form::Slide {
                    from,
                    base,
                    width,
                    up,
                },
            )
        }
        Word::Concat(count) => {
            let es = several(alloc, stack, count)?;
            let bits = total(es.as_slice());
            push_vector(alloc, stack, bits, false, Form::Concat(es))
        }
        Word::Repeat(n, count) => {
            let es = several(alloc, stack, count)?;
            let bits = total(es.as_slice()).saturating_mul(n);
            push_vector(alloc, stack, bits, false, Form::Repeat(n, es))
        }
        Word::Cast => {
            let x = one(alloc, stack)?;
            push_typed(alloc, stack, Form::Cast(x))
        }
        Word::Pattern(count) => {
            let es = several(alloc, stack, count)?;
            push_typed(alloc, stack, Form::Pattern(es))
        }
        Word::Call(f, count) => {
            let es = several(alloc, stack, count)?;
            push_typed(alloc, stack, Form::Call(f, es))
        }
        Word::Stream(reversed, slice, count) => {
            let parts = several(alloc, stack, count)?;
            let bits = total(parts.as_slice());
            push_vector(
                alloc,
                stack,
                bits,
                false,
                Form::Stream {
                    reversed,
                    slice,
                    parts,
                },
            )
        }
        _ => put_operator(alloc, stack, word),
    }
}

/// The expression that words make.
pub fn expression(alloc: Global, words: &[Word]) -> Result<Expr, AllocError> {
    let mut stack = Stack::new(alloc);
    for word in words {
        put(alloc, &mut stack, *word)?;
    }
    Ok(last(alloc, &mut stack))
}
