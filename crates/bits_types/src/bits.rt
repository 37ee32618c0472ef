//! `$bits` of types and of values.

ghost use Rattle.std.specs.Prelude.{◌≡◌, ◌≤◌, pos, IfOk};
ghost use Rattle.b4_core.specs.Bits.{bit_of};
ghost use Rattle.b4_core.specs.Vectors.{vec};
ghost use Rattle.expr_type.specs.Answers.{source};
ghost use Rattle.expr_type.specs.Forms as rule;
ghost use Rattle.expr_type.specs.Operands as operand;
ghost use Rattle.expr_type.specs.Shapes.{integer};
ghost use Rattle.operand_types.specs.Allowed.{IsNarrow};
ghost use Rattle.sv_types.specs.Layouts.{width_of};
ghost use Rattle.sv_types.specs.Values.{value_of_bits};

use b4_core::{Bit4, Vec4};
use expr_type::{Source, Valued};
use operand_types::by_itself;
use std::alloc::{AllocError, Global};
use sv_types::{Form, SvType, Value, of_bits, width};
use type_kinds::vector;
use type_widths::low_width;

// A bit by a test.
fn bit_by(test: bool) -> Bit4
    ensures { result ≡ bit_of test }
{
    if test { Bit4::One } else { Bit4::Zero }
}

// The low digits of a number.
fn word(alloc: Global, n: u32, width: usize) -> Result<Vec4, AllocError>
    ensures { IfOk result (λ v. v ≡ vec width (pos n)) }
{
    let mut bits = Vec::with_capacity(alloc, width)?;
    let mut rest = n;
    for _i in 0..width {
        bits.push(bit_by(rest % 2 == 1))?;
        rest /= 2;
    }
    Ok(Vec4::from_vec(bits))
}

// A number as the value of an `integer`.
#[tactic(auto, using(crate::proofs::Integers::integers))]
fn integer_value(alloc: Global, of: &SvType, n: u32) -> Result<Value, AllocError>
    requires { of.now ≡ integer }
    ensures { IfOk result (λ v. v ≡ value_of_bits integer (vec 32 (pos n))) }
{
    let bits = word(alloc, n, 32)?;
    of_bits(alloc, of, &bits)
}

// A number that `$bits` gives.
fn bits_number(alloc: Global, text: Source<'_>, name: u32, n: u32) -> Result<Valued, AllocError>
    ensures value { IfOk result (λ v. v ≡ rule.bits_number (source text.entry) name n) }
    ensures narrow { IfOk result IsNarrow }
{
    let of = vector(alloc, 32, true)?;
    let value = integer_value(alloc, &of, n)?;
    by_itself(alloc, text, name, of, Form::Constant(value))
}

/// `$bits` at its name, of a type of any size: the low 32 bits of its number of bits. Or want of memory.
pub fn bits_of_type(
    alloc: Global,
    text: Source<'_>,
    name: u32,
    t: &SvType,
) -> Result<Valued, AllocError>
    ensures value { IfOk result (λ v. v ≡ rule.bits_number (source text.entry) name (width_of t.now)) }
    ensures narrow { IfOk result IsNarrow }
{
    let low = low_width(alloc, t)?;
    bits_number(alloc, text, name, low)
}

/// `$bits` at its name, of a value of at most 2^22 bits. Or want of memory.
pub fn bits_of_value(
    alloc: Global,
    text: Source<'_>,
    name: u32,
    v: &Valued,
) -> Result<Valued, AllocError>
    requires { IsNarrow v.now }
    ensures value { IfOk result (λ u. u ≡ rule.bits_number (source text.entry) name (operand.width v.now)) }
    ensures narrow { IfOk result IsNarrow }
{
    bits_number(alloc, text, name, width(&v.expr.of))
}
