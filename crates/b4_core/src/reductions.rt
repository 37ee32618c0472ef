ghost use Rattle.std.specs.Prelude.{◌≡◌, ◌<◌, length};
ghost use Rattle.b4_core.specs.Bitwise.{all4, any4, parity4, truth_of, edge_of};
ghost use Rattle.b4_core.specs.Reduce.{reduction};

use crate::bit::{Bit4, Edge, Vec4};
use crate::bitwise::{both, either, exclusive, negate};
use crate::operators::RedOp;

/// The operator between all bits of `v` (IEEE 1800-2017 clause 11.4.9). `v` has at least one bit.
pub fn reduce(op: RedOp, v: &Vec4) -> Bit4
    requires { 0 < length v.now }
    ensures { result ≡ reduction op v.now }
{
    match op {
        RedOp::And => all(v.as_slice()),
        RedOp::Or => any(v.as_slice()),
        RedOp::Xor => parity(v.as_slice()),
        RedOp::Nand => negate(all(v.as_slice())),
        RedOp::Nor => negate(any(v.as_slice())),
        RedOp::Xnor => negate(parity(v.as_slice())),
    }
}

/// The truth of `v` as a condition: 1 where some bit is 1, 0 where all are 0, else x (IEEE 1800-2017 clause 12.4).
pub fn truth(v: &Vec4) -> Bit4
    ensures { result ≡ truth_of v.now }
{
    any(v.as_slice())
}

/// The edge of a bit that was `old` and is `new` (IEEE 1800-2017 table 9-2).
pub fn edge(old: Bit4, new: Bit4) -> Edge
    ensures { result ≡ edge_of old new }
{
    match (old, new) {
        (Bit4::Zero, Bit4::Zero) | (Bit4::One, Bit4::One) => Edge::None,
        (Bit4::Zero, _) | (_, Bit4::One) => Edge::Pos,
        (Bit4::One, _) | (_, Bit4::Zero) => Edge::Neg,
        _ => Edge::None,
    }
}

// The `&` of all bits.
pub(crate) fn all(v: &[Bit4]) -> Bit4
    ensures { result ≡ all4 v.now }
{
    v.iter().fold(Bit4::One, |so_far, b| both(so_far, *b))
}

// The `|` of all bits.
fn any(v: &[Bit4]) -> Bit4
    ensures { result ≡ any4 v.now }
{
    v.iter().fold(Bit4::Zero, |so_far, b| either(so_far, *b))
}

// The `^` of all bits.
fn parity(v: &[Bit4]) -> Bit4
    ensures { result ≡ parity4 v.now }
{
    v.iter().fold(Bit4::Zero, |so_far, b| exclusive(so_far, *b))
}
