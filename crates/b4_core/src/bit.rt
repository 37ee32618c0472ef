ghost use Rattle.std.specs.Prelude.{◌≡◌, ◌<◌, length, slice_get, slice_set, IfOk};

use std::alloc::{AllocError, Global};
use std::marker::Model;

/// One bit of four-state logic: 0, 1, unknown or high impedance (IEEE 1800-2017 clause 6.3.1).
#[derive(Clone, Copy, PartialEq, Eq, Debug)]
pub enum Bit4 {
    /// Logic zero.
    Zero,
    /// Logic one.
    One,
    /// An unknown value.
    X,
    /// High impedance.
    Z,
}

/// The edge from one value of a bit to the next (IEEE 1800-2017 clause 9.4.2).
#[derive(Clone, Copy, PartialEq, Eq, Debug)]
pub enum Edge {
    /// From 0 to 1, x or z, or from x or z to 1.
    Pos,
    /// From 1 to 0, x or z, or from x or z to 0.
    Neg,
    /// Any other pair.
    None,
}

/// A vector of four-state bits, least significant first.
#[derive(Debug)]
pub struct Vec4 {
    bits: Vec<Bit4>,
}

impl Model for Vec4 {
    ghost use Rattle.std.specs.Prelude.{List};
    ghost use Rattle.b4_core.specs.declared.bit.Bit4.{Bit4};

    ghost Value = { List Bit4 };

    ghost view = { λ v. v.bits.items };
}

impl Drop for Vec4 {
    fn drop(self) {
        let Vec4 { bits: _ } = self;
    }
}

impl Vec4 {
    /// The vector of these bits, least significant first. `AllocError` where memory runs out.
    pub fn from_slice(alloc: Global, bits: &[Bit4]) -> Result<Vec4, AllocError>
        ensures { IfOk result (λ v. v ≡ bits.now) }
    {
        let bits = Vec::from_slice(alloc, bits)?;
        Ok(Vec4 { bits })
    }

    /// The vector of these bits, without a copy.
    pub fn from_vec(bits: Vec<Bit4>) -> Vec4
        ensures { result ≡ bits.items }
    {
        Vec4 { bits }
    }

    /// The bits, least significant first.
    pub fn as_slice(&self) -> &[Bit4]
        ensures { result.now ≡ self.now }
    {
        self.bits.as_slice()
    }

    /// How many bits there are.
    pub fn len(&self) -> usize
        ensures { result ≡ length self.now }
    {
        self.bits.len()
    }

    /// Bit `i`, the least significant being bit 0.
    pub fn at(&self, i: usize) -> Bit4
        requires { i < length self.now }
        ensures { slice_get self.now i ≡ Some result }
    {
        self.bits[i]
    }

    /// Sets bit `i` to `b`.
    pub fn put(&mut self, i: usize, b: Bit4)
        requires { i < length self.old }
        ensures { self.new ≡ slice_set self.old i b }
    {
        self.bits[i] = b;
    }
}
