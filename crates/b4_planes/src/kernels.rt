ghost use Rattle.std.specs.Prelude.{◌≡◌, length};

use crate::sweep::{Kernel, ValueKernel};
use std::simd::prelude::*;

// `a & b`.
pub(crate) struct And;

impl Kernel for And {
    ghost use Rattle.b4_planes.specs.Words.{and_value, and_unknown};

    ghost value = { and_value };

    ghost unknown = { and_unknown };

    fn word(a: u64, u: u64, b: u64, v: u64) -> (u64, u64) {
        let value = (a | u) & (b | v);
        (value, value & (u | v))
    }

    fn lanes(a: u64x8, u: u64x8, b: u64x8, v: u64x8) -> (u64x8, u64x8) {
        let values = (a | u) & (b | v);
        (values, values & (u | v))
    }
}

// `a | b`.
pub(crate) struct Or;

impl Kernel for Or {
    ghost use Rattle.b4_planes.specs.Words.{or_value, or_unknown};

    ghost value = { or_value };

    ghost unknown = { or_unknown };

    fn word(a: u64, u: u64, b: u64, v: u64) -> (u64, u64) {
        let one = ((a | u) ^ u) | ((b | v) ^ v);
        ((a | u) | (b | v), ((u | v) | one) ^ one)
    }

    fn lanes(a: u64x8, u: u64x8, b: u64x8, v: u64x8) -> (u64x8, u64x8) {
        let ones = ((a | u) ^ u) | ((b | v) ^ v);
        ((a | u) | (b | v), ((u | v) | ones) ^ ones)
    }
}

// `a ^ b`.
pub(crate) struct Xor;

impl Kernel for Xor {
    ghost use Rattle.b4_planes.specs.Words.{xor_value, xor_unknown};

    ghost value = { xor_value };

    ghost unknown = { xor_unknown };

    fn word(a: u64, u: u64, b: u64, v: u64) -> (u64, u64) {
        let unknown = u | v;
        ((a ^ b) | unknown, unknown)
    }

    fn lanes(a: u64x8, u: u64x8, b: u64x8, v: u64x8) -> (u64x8, u64x8) {
        let unknowns = u | v;
        ((a ^ b) | unknowns, unknowns)
    }
}

// What `?:` makes of its arms where the condition is unknown.
pub(crate) struct Merge;

impl Kernel for Merge {
    ghost use Rattle.b4_planes.specs.Words.{merge_value, merge_unknown};

    ghost value = { merge_value };

    ghost unknown = { merge_unknown };

    fn word(a: u64, u: u64, b: u64, v: u64) -> (u64, u64) {
        let unknown = (a ^ b) | (u | v);
        ((a & b) | unknown, unknown)
    }

    fn lanes(a: u64x8, u: u64x8, b: u64x8, v: u64x8) -> (u64x8, u64x8) {
        let unknowns = (a ^ b) | (u | v);
        ((a & b) | unknowns, unknowns)
    }
}

// The value plane of `~a`, in words whose bits all count.
pub(crate) struct Not;

impl ValueKernel for Not {
    ghost use Rattle.b4_planes.specs.Words.{not_value};

    ghost value = { not_value };

    fn word(a: u64, u: u64) -> u64 {
        (a ^ u64::MAX) | u
    }

    fn lanes(a: u64x8, u: u64x8) -> u64x8 {
        (a ^ u64x8::splat(u64::MAX)) | u
    }
}

// The value plane of the conversion to two-state.
pub(crate) struct TwoState;

impl ValueKernel for TwoState {
    ghost use Rattle.b4_planes.specs.Words.{one_of};

    ghost value = { one_of };

    fn word(a: u64, u: u64) -> u64 {
        (a | u) ^ u
    }

    fn lanes(a: u64x8, u: u64x8) -> u64x8 {
        (a | u) ^ u
    }
}
