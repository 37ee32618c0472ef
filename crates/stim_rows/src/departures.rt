//! Where a row file departs from the form.

ghost use Rattle.std.specs.Prelude.{◌≡◌, ◌-◌, ◌^◌, ◌<◌, ◌≤◌, [], length, IfOk, MatchOption};
ghost use Rattle.stim_rows.specs.Slots.{slots_of};
ghost use Rattle.stim_rows.specs.Departures as spec;

use crate::shape::{Port, Shape};
use crate::slots::Slot;
use std::alloc::{AllocError, Global};
use sv_source::{Place, Refusal, Text};

#[tactic(auto, unfolding(crate::specs::Departures::is_taken))]
fn is_taken(slots: &[Slot], bytes: &[u8], at: usize) -> bool
    requires { (slots.now ≡ []) → ⊥ }
    ensures { result ≡ spec.is_taken slots.now bytes.now at }
{
    match bytes.get(at) {
        None => false,
        Some(byte) => slots[at % slots.len()].takes(*byte),
    }
}

fn is_whole(slots: &[Slot], size: usize) -> bool
    requires { (slots.now ≡ []) → ⊥ }
    ensures { result ≡ spec.is_whole slots.now size }
{
    let place = size % slots.len();
    place == 0 || (slots.len() > 1 && place + 1 == slots.len())
}

/// The first byte that its place in its row doesn't take, or the file's end where it ends within a row.
pub fn departure(slots: &[Slot], bytes: &[u8]) -> Option<usize>
    requires { (slots.now ≡ []) → ⊥ }
    ensures { MatchOption result (spec.Keeps slots.now bytes.now) (λ at. spec.DepartsAt slots.now bytes.now at) }
{
    let mut at = 0;
    while at < bytes.len() && is_taken(slots, bytes, at) {
        at += 1;
    }
    if at == bytes.len() && is_whole(slots, at) {
        None
    } else {
        Some(at)
    }
}

/// The name of the input that is expected at a place of a row's line, or that the line's end is.
fn expected(alloc: Global, inputs: &[Port], place: usize) -> Result<Text, AllocError>
    ensures { IfOk result (λ word. word ≡ spec.expected inputs.now place) }
{
    let mut left = place;
    for port in inputs {
        let width = port.two_state.len();
        if left < width {
            return port.name.copy(alloc);
        }
        left = (left - width).saturating_sub(1);
    }
    Text::from_bytes(alloc, b"<line>")
}

/// The refusal of a file that departs at this byte.
pub fn departure_refusal(
    alloc: Global,
    shape: &Shape,
    size: usize,
    file: u32,
    at: usize,
) -> Result<Refusal, AllocError>
    requires size { size ≡ length (slots_of shape.now.inputs) }
    requires small { at < 2 ^ 32 - 1 }
    ensures { IfOk result (λ refusal. refusal ≡ spec.departure shape.now file at) }
{
    let word = expected(alloc, shape.inputs.as_slice(), at % size)?;
    let place = Place {
        file,
        line: (at / size) as u32 + 1,
        col: (at % size) as u32 + 1,
    };
    Ok(Refusal {
        rule: 801,
        place,
        word,
    })
}

/// The refusal of a file of too many rows.
pub fn too_many(alloc: Global, file: u32) -> Result<Refusal, AllocError>
    ensures { IfOk result (λ refusal. refusal ≡ spec.too_many file) }
{
    Ok(Refusal {
        rule: 802,
        place: Place {
            file,
            line: 1,
            col: 1,
        },
        word: Text::from_bytes(alloc, b"rows")?,
    })
}
