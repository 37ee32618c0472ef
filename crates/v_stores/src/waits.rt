//! Whether signals that are waited for have changed (IEEE 1364-2005 clause 9.7.5).

ghost use Rattle.std.specs.Prelude.{◌≡◌, ◌≢◌, ℕ, true, false, length, slice_index_or, MatchOption};
ghost use Rattle.b4_core.specs.declared.bit.Bit4.TheVariants.{X};
ghost use Rattle.round_runner.specs.Stores.{holding, widths};
ghost use Rattle.row_machine.specs.Settle.{differs};
ghost use Rattle.v_stores.specs.Waits.{place, named_places, WaitsOfNames};

use b4_core::{Bit4, Vec4};

// The first bit that differs.
fn first_difference(v: &[Bit4], u: &[Bit4]) -> Option<usize>
    requires { length v.now ≡ length u.now }
    ensures { MatchOption result (v.now ≡ u.now) (λ k. slice_index_or v.now k X ≢ slice_index_or u.now k X) }
{
    for k in 0..v.len() {
        if v[k] != u[k] {
            return Some(k);
        }
    }
    None
}

// Whether a signal holds something else in one store than in another.
fn is_changed(now: &[Vec4], was: &[Vec4], n: usize) -> bool
    requires { widths now.now ≡ widths was.now }
    ensures apart { result ≡ true → (k : ℕ) × (holding now.now (place n k) ≢ holding was.now (place n k)) }
    ensures same { result ≡ false → (k : ℕ) → holding now.now (place n k) ≡ holding was.now (place n k) }
{
    if n >= now.len() || n >= was.len() {
        return false;
    }
    match first_difference(now[n].as_slice(), was[n].as_slice()) {
        None => false,
        Some(_) => true,
    }
}

/// Whether one of these signals holds something else in one store than in another.
pub fn differ_in(signals: &[usize], now: &[Vec4], was: &[Vec4]) -> bool
    requires { widths now.now ≡ widths was.now }
    ensures { result ≡ differs (named_places signals.now (widths was.now)) (holding now.now) (holding was.now) }
{
    for n in signals {
        if is_changed(now, was, *n) {
            return true;
        }
    }
    false
}

/// What a process waits for are all bits of the signals that it names (IEEE 1364-2005 clause 9.7.5).
#[tactic(auto, using(crate::proofs::Naming::waited))]
pub fn waits_of_names()
    ensures { WaitsOfNames }
{}
