//! The refusal of a break.

ghost use Rattle.std.specs.Prelude.{◌≡◌, ◌≤◌, ◌^◌, length, None, IfOk, IfErr};
ghost use Rattle.design_breaks.specs.Breaks.{breaks, least_of};
ghost use Rattle.design_breaks.specs.Spots.{IsRefusalOf, RefusesBreak};
ghost use Rattle.spot_laws.specs.Laws.{StandsIn};
ghost use Rattle.break_spots.specs.Walk.{refusal_at};

use crate::design::spot_in;
use design_breaks::Break;
use std::alloc::{AllocError, Global};
use sv_source::{Fail, Refusal, Spot};
use sv_types::Design;

// The refusal of a rule at a spot.
fn refusal_at(alloc: Global, rule: u16, spot: &Spot) -> Result<Refusal, AllocError>
    ensures { IfOk result (λ r. r ≡ refusal_at rule spot.now) }
{
    let word = spot.word.copy(alloc)?;
    Ok(Refusal {
        rule,
        place: spot.place,
        word,
    })
}

/// The refusal of a break that stands at a token of its instance's text: its rule, with the place and the word of that token. Or
/// want of memory. Each break of `breaks` stands at one (`breaks_have_spots` of `spot_laws`). It walks once over the processes,
/// functions and signals of the design; no clause says so.
pub fn refusal_of(alloc: Global, design: &Design, broken: &Break) -> Result<Refusal, AllocError>
    requires { StandsIn design.now broken.now.instance broken.now.at }
    ensures { IfOk result (λ r. IsRefusalOf design.now broken.now r) }
{
    match spot_in(design, broken.instance, broken.at) {
        None => unreachable!(),
        Some(spot) => refusal_at(alloc, broken.rule, spot),
    }
}

/// The refusal of the least break of the rules on processes, if there is one. Of the design it is asked that it has no more
/// than 2^32 signals.
pub fn check_least(alloc: Global, design: &Design, least: Option<Break>) -> Result<(), Fail>
    requires few { length design.now.signals ≤ 2 ^ 32 }
    requires least { least_of (breaks design.now) ≡ least }
    ensures unbroken { IfOk result (λ r. least_of (breaks design.now) ≡ None) }
    ensures refused { IfErr result (λ e. RefusesBreak design.now e) }
{
    match least {
        None => Ok(()),
        Some(first) => {
            let refusal = refusal_of(alloc, design, &first)?;
            Err(Fail::Refused(refusal))
        }
    }
}
