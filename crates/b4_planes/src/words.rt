ghost use Rattle.std.specs.Prelude.{◌≡◌, ◌+◌, ◌-◌, ◌*◌, ◌≤◌, ◌++◌, ◌↔◌, IsTrue, length, replicate, map, take, drop, IfOk, OnOk};
ghost use Rattle.b4_core.specs.Bits.{not4};
ghost use Rattle.b4_core.specs.declared.bit.Bit4.TheVariants.{Zero};
ghost use Rattle.b4_planes.specs.Planes.{word_bits, plane_bits, plane_bit, words_for, value_digit, unknown_digit, x_for_z, odd};

use crate::kernels::Not;
use crate::sweep::{same_words, sweep_value};
use b4_core::Bit4;
use std::alloc::{AllocError, Global};

// The bit of each plane for a bit of a vector.
fn digits(b: Bit4) -> (u64, u64)
    ensures value { result.0 ≡ value_digit b }
    ensures unknown { result.1 ≡ unknown_digit b }
{
    match b {
        Bit4::Zero => (0, 0),
        Bit4::One => (1, 0),
        Bit4::Z => (0, 1),
        Bit4::X => (1, 1),
    }
}

// The bit of a vector for a bit of each plane.
fn bit(value: bool, unknown: bool) -> Bit4
    ensures { result ≡ plane_bit value unknown }
{
    match (value, unknown) {
        (false, false) => Bit4::Zero,
        (true, false) => Bit4::One,
        (false, true) => Bit4::Z,
        (true, true) => Bit4::X,
    }
}

#[tactic(auto, unfolding(crate::specs::Planes::odd))]
fn is_odd(word: u64) -> bool
    ensures { result ≡ odd word }
{
    word % 2 == 1
}

// The word of each plane for up to 64 bits of a vector.
fn pack(bits: &[Bit4]) -> (u64, u64)
    requires { length bits.now ≤ 64 }
    ensures { word_bits 64 result.0 result.1 ≡ bits.now ++ replicate (64 - length bits.now) Zero }
{
    let mut value: u64 = 0;
    let mut unknown: u64 = 0;
    let mut i = bits.len();
    while i > 0 {
        i -= 1;
        let (v, u) = digits(bits[i]);
        value = 2 * value + v;
        unknown = 2 * unknown + u;
    }
    (value, unknown)
}

// The words of both planes for a vector, with 0 past its length.
pub(crate) fn pack_all(alloc: Global, bits: &[Bit4]) -> Result<(Vec<u64>, Vec<u64>), AllocError>
    ensures values { IfOk result (λ p. length p.0.items ≡ words_for (length bits.now)) }
    ensures unknowns { IfOk result (λ p. length p.1.items ≡ words_for (length bits.now)) }
    ensures bits { IfOk result (λ p. plane_bits p.0.items p.1.items ≡ bits.now ++ replicate (64 * words_for (length bits.now) - length bits.now) Zero) }
{
    let mut values = Vec::new(alloc);
    let mut unknowns = Vec::new(alloc);
    let mut at = 0;
    while at < bits.len() {
        let end = at + (bits.len() - at).min(64);
        let (value, unknown) = pack(&bits[at..end]);
        values.push(value)?;
        unknowns.push(unknown)?;
        at = end;
    }
    Ok((values, unknowns))
}

// Appends the 64 bits of a word of each plane.
fn unpack(bits: &mut Vec<Bit4>, value: u64, unknown: u64) -> Result<(), AllocError>
    ensures { OnOk result (bits.new.items ≡ bits.old.items ++ word_bits 64 value unknown) }
{
    let mut v = value;
    let mut u = unknown;
    for _i in 0..64_usize {
        bits.push(bit(is_odd(v), is_odd(u)))?;
        v /= 2;
        u /= 2;
    }
    Ok(())
}

// The bits of all words of both planes.
pub(crate) fn unpack_all(
    alloc: Global,
    values: &[u64],
    unknowns: &[u64],
) -> Result<Vec<Bit4>, AllocError>
    requires { length values.now ≡ length unknowns.now }
    ensures { IfOk result (λ v. v.items ≡ plane_bits values.now unknowns.now) }
{
    let mut bits = Vec::new(alloc);
    for i in 0..values.len() {
        unpack(&mut bits, values[i], unknowns[i])?;
    }
    Ok(bits)
}

// Inverts the `len` lowest bits of a vector in its value plane. A z past them becomes x.
pub(crate) fn invert(values: &mut [u64], unknowns: &[u64], len: usize)
    requires values { length values.old ≡ words_for len }
    requires unknowns { length unknowns.now ≡ words_for len }
    ensures bits { plane_bits values.new unknowns.now ≡ map not4 (take len (plane_bits values.old unknowns.now)) ++ map x_for_z (drop len (plane_bits values.old unknowns.now)) }
    ensures len { length values.new ≡ words_for len }
{
    let full = len / 64;
    sweep_value::<Not>(&mut values[..full], &unknowns[..full]);
    if len % 64 > 0 {
        let ones = (1u64 << (len % 64)) - 1;
        values[full] = (values[full] ^ ones) | unknowns[full];
    }
}

// Whether the bits of both planes are the same in two vectors.
pub(crate) fn same_planes(a: &[u64], u: &[u64], b: &[u64], v: &[u64]) -> bool
    requires u { length u.now ≡ length a.now }
    requires b { length b.now ≡ length a.now }
    requires v { length v.now ≡ length a.now }
    ensures { IsTrue result ↔ (plane_bits a.now u.now ≡ plane_bits b.now v.now) }
{
    same_words(a, b) && same_words(u, v)
}
