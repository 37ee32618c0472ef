//! Members of interfaces as signals.

ghost use Rattle.std.specs.Prelude.{IfOk};
ghost use Rattle.expr_type.specs.Answers.{Gives};
ghost use Rattle.expr_type.specs.Forms as form;
ghost use Rattle.operand_types.specs.Allowed.{IsNarrow};

use crate::leaf;
use expr_type::{Halt, Valued};
use std::alloc::Global;
use sv_types::{Form, SignalId, is_narrow};
use typing_parts::Names;

/// A member of an interface as a signal. One of more than 2^22 bits breaks E702 in the interface's own text, and isn't whole here.
#[tactic(auto, using(crate::proofs::Naming::members))]
pub(crate) fn member_signal<S: Names>(
    alloc: Global,
    names: &S,
    first: u32,
    member: &SignalId,
) -> Result<Valued, Halt>
    ensures value { Gives result (form.member_signal (S.context names.now).source first member.now) }
    ensures narrow { IfOk result IsNarrow }
{
    if is_narrow(&member.of) {
        leaf(alloc, names, first, &member.of, Form::Signal(member.signal))
    } else {
        Err(Halt::Quiet)
    }
}
