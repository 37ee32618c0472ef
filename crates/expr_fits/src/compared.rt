//! The width at which a value is compared with what stands on the right of `inside`.

ghost use Rattle.std.specs.Prelude.{◌≡◌, max};
ghost use Rattle.eval_parts.specs.Insides.{alternative};
ghost use Rattle.eval_forms.specs.Narrow.{AllChoicesNarrow, ChoiceIsNarrow};
ghost use Rattle.expr_fits.specs.Needs.{width_beside, width_inside};

use eval_parts::own_width;
use sv_types::Choice;

// Beside one of them.
#[tactic(auto, using(crate::proofs::Choices::beside))]
fn beside(bits: u32, choice: &Choice) -> u32
    requires { ChoiceIsNarrow choice.now }
    ensures { result ≡ width_beside bits (alternative choice.now) }
{
    match choice {
        Choice::Value(v) => bits.max(own_width(v)),
        Choice::Range(low, high) => bits.max(own_width(low)).max(bits.max(own_width(high))),
    }
}

/// Beside all of them.
pub fn widest_compared(bits: u32, choices: &[Choice]) -> u32
    requires { AllChoicesNarrow choices.now }
    ensures { result ≡ width_inside bits choices.now }
{
    let mut widest = bits;
    for choice in choices {
        widest = widest.max(beside(bits, choice));
    }
    widest
}
