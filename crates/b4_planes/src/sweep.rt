ghost use Rattle.std.specs.Prelude.{◌≡◌, ◌+◌, ◌≤◌, ◌↔◌, IsTrue, length};
ghost use Rattle.std.specs.Simd.Lanes.{chunk, put_chunk, zip2};
ghost use Rattle.b4_planes.specs.Words.{words4};

use std::simd::prelude::*;

// How many words a vector register's worth of lanes takes.
const LANES: usize = 8;

// An operator on two vectors, on one word or eight words of their four planes: the value and the unknown plane of the first
// vector are `a` and `u`, those of the second `b` and `v`. It gives the planes of the result.
pub(crate) trait Kernel {
    ghost use Rattle.std.specs.Prelude.{ℕ};

    ghost value: { ℕ → ℕ → ℕ → ℕ → ℕ };

    ghost unknown: { ℕ → ℕ → ℕ → ℕ → ℕ };

    fn word(a: u64, u: u64, b: u64, v: u64) -> (u64, u64)
        ensures value { result.0 ≡ value a u b v }
        ensures unknown { result.1 ≡ unknown a u b v };

    fn lanes(a: u64x8, u: u64x8, b: u64x8, v: u64x8) -> (u64x8, u64x8)
        requires a { length a ≡ 8 }
        requires u { length u ≡ 8 }
        requires b { length b ≡ 8 }
        requires v { length v ≡ 8 }
        ensures value { result.0 ≡ words4 value a u b v }
        ensures unknown { result.1 ≡ words4 unknown a u b v };
}

// An operator on one vector that keeps its unknown plane, on one word or eight words of its two planes.
pub(crate) trait ValueKernel {
    ghost use Rattle.std.specs.Prelude.{ℕ};

    ghost value: { ℕ → ℕ → ℕ };

    fn word(a: u64, u: u64) -> u64
        ensures { result ≡ value a u };

    fn lanes(a: u64x8, u: u64x8) -> u64x8
        requires a { length a ≡ 8 }
        requires u { length u ≡ 8 }
        ensures { result ≡ zip2 value a u };
}

fn load(words: &[u64], at: usize) -> u64x8
    requires { at + 8 ≤ length words.now }
    ensures value { result ≡ chunk at 8 words.now }
    ensures len { length result ≡ 8 }
{
    u64x8::from_slice(&words[at..])
}

fn store(words: &mut [u64], at: usize, lanes: u64x8)
    requires room { at + 8 ≤ length words.old }
    requires lanes { length lanes ≡ 8 }
    ensures { words.new ≡ put_chunk at words.old lanes }
{
    lanes.copy_to_slice(&mut words[at..]);
}

// Runs a kernel over all words: the first vector becomes the result.
pub(crate) fn sweep<K: Kernel>(a: &mut [u64], u: &mut [u64], b: &[u64], v: &[u64])
    requires u { length u.old ≡ length a.old }
    requires b { length b.now ≡ length a.old }
    requires v { length v.now ≡ length a.old }
    ensures value { a.new ≡ words4 K.value a.old u.old b.now v.now }
    ensures unknown { u.new ≡ words4 K.unknown a.old u.old b.now v.now }
{
    let mut at = 0;
    'chunks: while a.len() - at >= LANES {
        let (value, unknown) = K::lanes(load(a, at), load(u, at), load(b, at), load(v, at));
        store(a, at, value);
        store(u, at, unknown);
        at += LANES;
    }
    'rest: while at < a.len() {
        let (value, unknown) = K::word(a[at], u[at], b[at], v[at]);
        a[at] = value;
        u[at] = unknown;
        at += 1;
    }
}

// Runs a kernel over all words of a vector's planes.
pub(crate) fn sweep_value<K: ValueKernel>(a: &mut [u64], u: &[u64])
    requires { length u.now ≡ length a.old }
    ensures { a.new ≡ zip2 K.value a.old u.now }
{
    let mut at = 0;
    'chunks: while a.len() - at >= LANES {
        let value = K::lanes(load(a, at), load(u, at));
        store(a, at, value);
        at += LANES;
    }
    'rest: while at < a.len() {
        a[at] = K::word(a[at], u[at]);
        at += 1;
    }
}

// Whether two lists of words are the same.
pub(crate) fn same_words(a: &[u64], b: &[u64]) -> bool
    requires { length a.now ≡ length b.now }
    ensures { IsTrue result ↔ (a.now ≡ b.now) }
{
    let mut at = 0;
    'chunks: while a.len() - at >= LANES {
        if (load(a, at) ^ load(b, at)).reduce_or() != 0 {
            return false;
        }
        at += LANES;
    }
    'rest: while at < a.len() {
        if a[at] != b[at] {
            return false;
        }
        at += 1;
    }
    true
}
