//! Steps of select paths (IEEE 1800-2017 clauses 7.2.1, 7.4.5 and 7.4.6).

ghost use Rattle.std.specs.Prelude.{◌≡◌, ◌≤◌, nat_lt, IfOk};
ghost use Rattle.expr_type.specs.Answers.{Gives, source};
ghost use Rattle.expr_type.specs.Selects as select;
ghost use Rattle.operand_types.specs.Allowed.{IsNarrow};
ghost use Rattle.select_types.specs.Selected as made;
ghost use Rattle.select_types.specs.Selected.{StepFits};
ghost use Rattle.sv_types.specs.Layouts.{width_of};

use crate::elements::element;
use crate::members::member_of;
use crate::parts::{part, slide};
use expr_type::{Halt, Source, Step, Valued};
use operand_types::by_itself;
use std::alloc::Global;
use sv_types::{Form, SvType, is_narrow, width};

/// The most bits that an expression may have.
const MOST_BITS: u32 = 65536;

/// Whether a type has more than 65,536 bits.
#[tactic(auto, using(crate::proofs::Longer::longer))]
pub fn is_longer(t: &SvType) -> bool
    ensures { result ≡ nat_lt 65536 (width_of t.now) }
{
    if is_narrow(t) {
        return width(t) > MOST_BITS;
    }
    true
}

/// A selected value of at most 65,536 bits (E701, at a token).
#[tactic(auto, using(crate::proofs::Longer::lengths))]
pub fn selected(
    alloc: Global,
    text: Source<'_>,
    at: u32,
    first: u32,
    of: SvType,
    form: Form,
) -> Result<Valued, Halt>
    ensures value { Gives result (made.selected (source text.entry) at first of form) }
    ensures narrow { IfOk result IsNarrow }
{
    let longer = is_longer(&of);
    let v = by_itself(alloc, text, first, of, form)?;
    if longer {
        return Err(Halt::Breaks { at, rule: 701 });
    }
    Ok(v)
}

/// What a step makes of a value of at most 2^22 bits. It breaks E405 where a member isn't there, E508 where an unpacked value is
/// sliced, E411 where bounds go in the wrong direction, and E701 where what is selected has more than 65,536 bits.
pub fn stepped(alloc: Global, text: Source<'_>, v: Valued, step: Step) -> Result<Valued, Halt>
    requires narrow { IsNarrow v }
    requires fits { StepFits step }
    ensures value { Gives result (select.stepped (source text.entry) v step) }
    ensures narrow { IfOk result IsNarrow }
{
    match step {
        Step::Member(name) => member_of(alloc, text, name, v),
        Step::Index { opening, index } => element(alloc, text, opening, v, index),
        Step::Part {
            opening,
            left,
            right,
        } => part(alloc, text, opening, v, left, right),
        Step::Slide {
            opening,
            up,
            base,
            width,
        } => slide(alloc, text, opening, up, v, base, width),
    }
}
