//! The first of some processes.

ghost use Rattle.std.specs.Prelude.{◌≡◌, ◌<◌, ℕ, length, slice_index_or, IfOk};
ghost use Rattle.design_breaks.specs.Breaks.{is_less};
ghost use Rattle.comb_order.specs.Stuck.{break_at, refusal_at, IsFirst};

use std::alloc::{AllocError, Global};
use sv_source::Refusal;
use sv_types::Process;

const RULE: u16 = 602;

// Whether the break of the process at one place comes before that at another one: by instance, then by token.
#[tactic(auto, using(crate::proofs::First::first_laws))]
fn comes_before(processes: &[Process], m: u32, n: u32) -> bool
    requires m { m < length processes.now }
    requires n { n < length processes.now }
    ensures { result ≡ is_less (break_at processes.now m) (break_at processes.now n) }
{
    let a = &processes[m as usize];
    let b = &processes[n as usize];
    a.instance < b.instance || (a.instance == b.instance && a.spot.at < b.spot.at)
}

/// The number of the process whose break comes first.
#[tactic(auto, using(crate::proofs::First::first_laws))]
pub fn first_of(processes: &[Process], numbers: &[u32]) -> u32
    requires some { 0 < length numbers.now }
    requires within { (k : ℕ) → k < length numbers.now → slice_index_or numbers.now k 0 < length processes.now }
    ensures { IsFirst processes.now numbers.now result }
{
    let mut first = numbers[0];
    for n in numbers {
        if comes_before(processes, *n, first) {
            first = *n;
        }
    }
    first
}

/// The refusal of a stuck process.
pub fn refusal_of(alloc: Global, process: &Process) -> Result<Refusal, AllocError>
    ensures { IfOk result (λ r. r ≡ refusal_at process.now.spot) }
{
    let word = process.spot.word.copy(alloc)?;
    Ok(Refusal {
        rule: RULE,
        place: process.spot.place,
        word,
    })
}
