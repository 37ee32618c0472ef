ghost use Rattle.std.specs.Prelude.{◌≡◌, length, map, IfOk};
ghost use Rattle.b4_core.specs.Bits.{and4, or4, xor4, not4, merge4};
ghost use Rattle.b4_core.specs.Bitwise.{same_bits, two_state_of};
ghost use Rattle.b4_core.specs.Vectors.{bitwise};

use crate::kernels::{And, Merge, Or, TwoState, Xor};
use crate::sweep::{sweep, sweep_value};
use crate::words::{invert, pack_all, same_planes, unpack_all};
use b4_core::Vec4;
use std::alloc::{AllocError, Global};
use std::marker::Model;

/// A vector of four-state bits as two planes of 64-bit words, its value bits and its unknown bits, least significant
/// first. Bits past its length are 0 in both.
#[derive(Drop)]
pub struct Planes {
    len: usize,
    values: Vec<u64>,
    unknowns: Vec<u64>,
}

impl Model for Planes {
    ghost use Rattle.std.specs.Prelude.{List, take};
    ghost use Rattle.b4_core.specs.declared.bit.Bit4.{Bit4};
    ghost use Rattle.b4_planes.specs.Planes.{plane_bits, IsPlanes};

    ghost Value = { List Bit4 };

    ghost view = { λ p. take p.len (plane_bits p.values.items p.unknowns.items) };

    ghost invariant = { λ p. IsPlanes p.len p.values.items p.unknowns.items };
}

impl Planes {
    /// The planes of a vector. `AllocError` where memory runs out.
    pub fn from_list(alloc: Global, v: &Vec4) -> Result<Planes, AllocError>
        ensures { IfOk result (λ p. p ≡ v.now) }
    {
        let bits = v.as_slice();
        let (values, unknowns) = pack_all(alloc, bits)?;
        Ok(Planes {
            len: bits.len(),
            values,
            unknowns,
        })
    }

    /// The vector of these planes. `AllocError` where memory runs out.
    pub fn to_list(&self, alloc: Global) -> Result<Vec4, AllocError>
        ensures { IfOk result (λ v. v ≡ self.now) }
    {
        let mut bits = unpack_all(alloc, &self.values, &self.unknowns)?;
        bits.truncate(self.len);
        Ok(Vec4::from_vec(bits))
    }

    /// How many bits there are.
    pub fn len(&self) -> usize
        ensures { result ≡ length self.now }
    {
        self.len
    }

    /// Makes this vector `self & b`, bit by bit (IEEE 1800-2017 table 11-11). Both have one length.
    pub fn and_into(&mut self, b: &Planes)
        requires { length self.old ≡ length b.now }
        ensures { self.new ≡ bitwise and4 self.old b.now }
    {
        sweep::<And>(&mut self.values, &mut self.unknowns, &b.values, &b.unknowns);
    }

    /// Makes this vector `self | b`, bit by bit (IEEE 1800-2017 table 11-12). Both have one length.
    pub fn or_into(&mut self, b: &Planes)
        requires { length self.old ≡ length b.now }
        ensures { self.new ≡ bitwise or4 self.old b.now }
    {
        sweep::<Or>(&mut self.values, &mut self.unknowns, &b.values, &b.unknowns);
    }

    /// Makes this vector `self ^ b`, bit by bit (IEEE 1800-2017 table 11-13). Both have one length.
    pub fn xor_into(&mut self, b: &Planes)
        requires { length self.old ≡ length b.now }
        ensures { self.new ≡ bitwise xor4 self.old b.now }
    {
        sweep::<Xor>(&mut self.values, &mut self.unknowns, &b.values, &b.unknowns);
    }

    /// Makes this vector what `?:` makes of the arms `self` and `b` where its condition is unknown: 0 or 1 where both bits
    /// are, else x (IEEE 1800-2017 table 11-20). Both have one length.
    pub fn merge_into(&mut self, b: &Planes)
        requires { length self.old ≡ length b.now }
        ensures { self.new ≡ bitwise merge4 self.old b.now }
    {
        sweep::<Merge>(&mut self.values, &mut self.unknowns, &b.values, &b.unknowns);
    }

    /// Makes this vector `~self`, bit by bit (IEEE 1800-2017 table 11-15).
    pub fn not_in_place(&mut self)
        ensures { self.new ≡ map not4 self.old }
    {
        invert(&mut self.values, &self.unknowns, self.len);
    }

    /// Makes each x and z bit 0, as a two-state type stores it (IEEE 1800-2017 clause 6.3.2).
    pub fn to_two_state(&mut self)
        ensures { self.new ≡ two_state_of self.old }
    {
        sweep_value::<TwoState>(&mut self.values, &self.unknowns);
        self.unknowns.fill(0);
    }

    /// `self === b`, exactly the same bits (IEEE 1800-2017 clause 11.4.5). Both have one length.
    pub fn case_eq(&self, b: &Planes) -> bool
        requires { length self.now ≡ length b.now }
        ensures { result ≡ same_bits self.now b.now }
    {
        same_planes(&self.values, &self.unknowns, &b.values, &b.unknowns)
    }
}
