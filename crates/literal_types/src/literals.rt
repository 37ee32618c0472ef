//! Numbers as operands (IEEE 1800-2017 clauses 5.7.1 and 11.6).

ghost use Rattle.std.specs.Prelude.{◌≡◌, ◌≤◌, true, IfOk};
ghost use Rattle.expr_type.specs.Answers.{Gives, source};
ghost use Rattle.expr_type.specs.Forms as form;
ghost use Rattle.expr_type.specs.Literals as number;
ghost use Rattle.expr_type.specs.Names as names;
ghost use Rattle.expr_type.specs.Operators as operator;
ghost use Rattle.expr_type.specs.Shapes as shape;
ghost use Rattle.sv_types.specs.declared.expression.Form.TheVariants as F;
ghost use Rattle.operand_types.specs.Allowed.{IsNarrow};
ghost use Rattle.literal_types.specs.Sizes.{number_size};

use crate::based::{Based, decimal_bits, fill_digit, is_known_bit};
use crate::numbers::{LARGE, digits_in, number_of};
use expr_type::{Halt, Source, Valued};
use operand_types::{by_itself, one_bit, vector};
use std::alloc::{AllocError, Global};
use sv_types::Form;

/// The most bits that a number may have.
pub const MOST_OF_LITERAL: u64 = 128;

/// The bits of a number without a size.
pub const UNSIZED: u32 = 32;

// The word of a token.
fn word<'t>(text: Source<'t>, at: u32) -> &'t [u8]
    ensures { result.now ≡ names.word (source text.entry) at }
{
    match sv_source::at(text.tokens, at as usize) {
        Some(token) => token.text.as_bytes(),
        None => &[],
    }
}

// A number of so many bits.
fn literal(
    alloc: Global,
    text: Source<'_>,
    first: u32,
    width: u32,
    signed: bool,
    form: Form,
) -> Result<Valued, AllocError>
    requires { width ≤ 128 }
    ensures value { IfOk result (λ v. v ≡ operator.by_itself (source text.entry) first (shape.vector width signed) form) }
    ensures narrow { IfOk result IsNarrow }
{
    let of = vector(alloc, width, signed)?;
    by_itself(alloc, text, first, of, form)
}

// A number without a size.
fn unsized_number(v: Valued) -> Valued
    ensures { result ≡ form.unsized v }
{
    let Valued {
        first,
        begins,
        expr,
        arithmetic,
        ..
    } = v;
    Valued {
        first,
        begins,
        is_unsized: true,
        expr,
        arithmetic,
    }
}

/// A decimal number without a base at its token: it is signed, and has 32 bits. It breaks E411 where it doesn't fit them.
pub fn decimal(alloc: Global, text: Source<'_>, at: u32) -> Result<Valued, Halt>
    ensures value { Gives result (form.decimal (source text.entry) at) }
    ensures narrow { IfOk result IsNarrow }
{
    let digits = digits_in(alloc, word(text, at))?;
    if number_of(digits.as_slice()) >= LARGE {
        return Err(Halt::Breaks { at, rule: 411 });
    }
    let bits = decimal_bits(alloc, UNSIZED, digits.as_slice())?;
    let form = Form::Literal {
        bits,
        goes_on: false,
    };
    Ok(unsized_number(literal(alloc, text, at, UNSIZED, true, form)?))
}

/// A based number without a size at its token: it has 32 bits, and an unsigned one whose first digit is x or z goes on with it.
/// It breaks E411 where it doesn't fit.
pub fn based_number(alloc: Global, text: Source<'_>, at: u32) -> Result<Valued, Halt>
    ensures value { Gives result (form.based (source text.entry) at) }
    ensures narrow { IfOk result IsNarrow }
{
    let b = Based::read(alloc, word(text, at))?;
    if !b.fits_unsized(alloc)? {
        return Err(Halt::Breaks { at, rule: 411 });
    }
    let bits = b.bits_in(alloc, UNSIZED)?;
    let signed = b.is_signed();
    let goes_on = !signed && !is_known_bit(b.above());
    let form = Form::Literal { bits, goes_on };
    Ok(unsized_number(literal(alloc, text, at, UNSIZED, signed, form)?))
}

// The size of a number.
fn size_of(alloc: Global, text: Source<'_>, at: u32) -> Result<u32, Halt>
    ensures value { Gives result (number_size (source text.entry) at) }
    ensures narrow { IfOk result (λ n. n ≤ 128) }
{
    let digits = digits_in(alloc, word(text, at))?;
    let n = number_of(digits.as_slice());
    if n == 0 {
        return Err(Halt::Breaks { at, rule: 411 });
    }
    if n > MOST_OF_LITERAL {
        return Err(Halt::Breaks { at, rule: 502 });
    }
    Ok(n as u32)
}

/// A based number behind its size. A size of 0 breaks E411, one above 128 breaks E502.
pub fn sized_number(alloc: Global, text: Source<'_>, size: u32, at: u32) -> Result<Valued, Halt>
    ensures value { Gives result (form.sized_number (source text.entry) size at) }
    ensures narrow { IfOk result IsNarrow }
{
    let width = size_of(alloc, text, size)?;
    let b = Based::read(alloc, word(text, at))?;
    let bits = b.bits_in(alloc, width)?;
    let form = Form::Literal {
        bits,
        goes_on: false,
    };
    Ok(literal(alloc, text, size, width, b.is_signed(), form)?)
}

/// `'0`, `'1`, `'x` or `'z` at its token.
pub fn fill(alloc: Global, text: Source<'_>, at: u32) -> Result<Valued, Halt>
    ensures value { Gives result (form.fill (source text.entry) at) }
    ensures narrow { IfOk result IsNarrow }
{
    let form = Form::Fill(fill_digit(word(text, at)));
    Ok(by_itself(alloc, text, at, one_bit(), form)?)
}

/// The size before a cast, written as a decimal number at its token: from 1 to 2^32 - 1, else it breaks E411.
pub fn written_size(alloc: Global, text: Source<'_>, at: u32) -> Result<u32, Halt>
    ensures { Gives result (form.written_size (source text.entry) at) }
{
    let digits = digits_in(alloc, word(text, at))?;
    let n = number_of(digits.as_slice());
    if n == 0 || n >= LARGE {
        return Err(Halt::Breaks { at, rule: 411 });
    }
    Ok(n as u32)
}

/// The bits of a slice, written as a decimal number at its token: from 1 to 65,536, else it breaks E411.
pub fn written_slice(alloc: Global, text: Source<'_>, at: u32) -> Result<u32, Halt>
    ensures { Gives result (form.slice_of (source text.entry) at (number.decimal (names.word (source text.entry) at))) }
{
    let digits = digits_in(alloc, word(text, at))?;
    let n = number_of(digits.as_slice());
    if n == 0 || n > 65_536 {
        return Err(Halt::Breaks { at, rule: 411 });
    }
    Ok(n as u32)
}
