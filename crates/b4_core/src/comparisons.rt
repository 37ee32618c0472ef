ghost use Rattle.std.specs.Prelude.{◌≡◌, ◌≤◌, ◌<◌, length};
ghost use Rattle.b4_core.specs.Bits.{xnor4, same4};
ghost use Rattle.b4_core.specs.Vectors.{bitwise};
ghost use Rattle.b4_core.specs.Bitwise.{all4, same_bits};
ghost use Rattle.b4_core.specs.Compare.{order_value, equality, wild4, in_order};

use crate::bit::{Bit4, Vec4};
use crate::bitwise::{both, equivalent};
use crate::integers::Integer;
use crate::operators::{EqOp, OrdOp};
use crate::words::{bit_of_test, words_of};

/// The order of two vectors as numbers (IEEE 1800-2017 clause 11.4.4), x where a bit of either is x or z. Both have one
/// length from 1 to 128 bits.
pub fn order(op: OrdOp, a: &Vec4, b: &Vec4, signed: bool) -> Bit4
    requires some { 0 < length a.now }
    requires same { length a.now ≡ length b.now }
    requires narrow { length a.now ≤ 128 }
    ensures { result ≡ order_value op signed a.now b.now }
{
    let (a, b) = (a.as_slice(), b.as_slice());
    let Some((x, y)) = words_of(a, b) else {
        return Bit4::X;
    };
    let (x, y) = (
        Integer::of_vector(a, x, signed),
        Integer::of_vector(b, y, signed),
    );
    bit_of_test(match op {
        OrdOp::Less => x.is_less(&y),
        OrdOp::LessEqual => !y.is_less(&x),
        OrdOp::Greater => y.is_less(&x),
        OrdOp::GreaterEqual => !x.is_less(&y),
    })
}

/// The equality of two vectors of one length (IEEE 1800-2017 clauses 11.4.5 and 11.4.6).
pub fn equal(op: EqOp, a: &Vec4, b: &Vec4) -> Bit4
    requires { length a.now ≡ length b.now }
    ensures { result ≡ equality op a.now b.now }
{
    let (a, b) = (a.as_slice(), b.as_slice());
    match op {
        EqOp::Logic => logically_equal(a, b),
        EqOp::Case => bit_of_test(same(a, b)),
        EqOp::Wild => wildly_equal(a, b),
    }
}

fn logically_equal(a: &[Bit4], b: &[Bit4]) -> Bit4
    ensures { result ≡ all4 (bitwise xnor4 a.now b.now) }
{
    a.iter()
        .zip(b)
        .map(|(p, q)| equivalent(*p, *q))
        .fold(Bit4::One, both)
}

fn wildly_equal(a: &[Bit4], b: &[Bit4]) -> Bit4
    ensures { result ≡ all4 (bitwise wild4 a.now b.now) }
{
    a.iter()
        .zip(b)
        .map(|(p, q)| wildly_equivalent(*p, *q))
        .fold(Bit4::One, both)
}

// A place of `==?`, where x and z on the right stand for any bit.
fn wildly_equivalent(p: Bit4, q: Bit4) -> Bit4
    ensures { result ≡ wild4 p q }
{
    match q {
        Bit4::X | Bit4::Z => Bit4::One,
        Bit4::Zero | Bit4::One => equivalent(p, q),
    }
}

// Whether two bits are exactly the same.
fn same_bit(p: Bit4, q: Bit4) -> bool
    ensures { result ≡ same4 p q }
{
    p == q
}

fn same(a: &[Bit4], b: &[Bit4]) -> bool
    requires { length a.now ≡ length b.now }
    ensures { result ≡ same_bits a.now b.now }
{
    a.iter().zip(b).all(|(p, q)| same_bit(*p, *q))
}
