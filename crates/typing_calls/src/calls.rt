//! Calls.

ghost use Rattle.std.specs.Prelude.{◌≡◌};
ghost use Rattle.typing_fits.specs.Sound.{Extends};
ghost use Rattle.typing_steps.specs.Steps.{TypesTo};
ghost use Rattle.typing_parts.specs.Typists.{AllCanType, IsReady, MakesKnown};
ghost use Rattle.typing_calls.specs.Calls.{call_of_name, counted_call_of, other_call_of};

use crate::arguments::actuals;
use crate::counts::uncounted;
use crate::needing::{has_count, needed};
use crate::passing::called_with;
use expr_type::{Halt, Valued};
use pattern_types::Operand;
use std::alloc::Global;
use sv_tree::{Expr, QualifiedName};
use typing_parts::{Known, Names};
use typing_values::behind_quiet;

// A call of what a name finds, of as many actuals as it has formals. Where that isn't whole and breaks no rule, the actuals are looked at
// for their breaks.
#[tactic(auto, using(crate::proofs::Calling::callings))]
fn counted_call<
    S: Names,
    F: Fn(&Expr, &mut Known) -> Result<Operand, Halt>,
    C: Fn(u32, &mut Known) -> Result<u32, Halt>,
>(
    alloc: Global,
    names: &S,
    needs: &C,
    typed: &F,
    of: QualifiedName,
    arguments: &[Expr],
    known: &mut Known,
) -> Result<Valued, Halt>
    requires needs { MakesKnown _ ((n : _) (k : _) → IsReady k.now → C.pre needs.now n k) (λ k. k.now) (C.post needs.now) (S.context names.now) }
    requires can { AllCanType _ _ (λ e. e.now) (λ k. k.now) (F.pre typed.now) (F.post typed.now) (S.context names.now) arguments.now }
    requires ready { IsReady known.old }
    ensures value { TypesTo result (counted_call_of (S.context names.now) of arguments.now known.old.functions) known.new.functions }
    ensures ready { IsReady known.new }
    ensures keeps { Extends known.old.functions known.new.functions }
{
    match needed(names, needs, of, known) {
        Ok(place) => {
            let operands = actuals(alloc, names, typed, arguments, known)?;
            called_with(alloc, names, of, place, operands, known)
        }
        Err(Halt::Memory) => Err(Halt::Memory),
        Err(Halt::Breaks { at, rule }) => Err(Halt::Breaks { at, rule }),
        Err(Halt::Quiet) => Err(behind_quiet(actuals(alloc, names, typed, arguments, known))),
    }
}

// Whole actuals of another number than there are formals break E405 at the name.
fn miscounted(_operands: Vec<Operand>, name: u32) -> Halt
    ensures { result ≡ Halt.Breaks name 405 }
{
    Halt::Breaks {
        at: name,
        rule: 405,
    }
}

// A call of another number of actuals than there are formals: E405 at the name where these are whole, else what they or the function
// break.
#[tactic(auto, using(crate::proofs::Calling::counts))]
fn other_call<
    S: Names,
    F: Fn(&Expr, &mut Known) -> Result<Operand, Halt>,
    C: Fn(u32, &mut Known) -> Result<u32, Halt>,
>(
    alloc: Global,
    names: &S,
    needs: &C,
    typed: &F,
    of: QualifiedName,
    arguments: &[Expr],
    known: &mut Known,
) -> Result<Valued, Halt>
    requires needs { MakesKnown _ ((n : _) (k : _) → IsReady k.now → C.pre needs.now n k) (λ k. k.now) (C.post needs.now) (S.context names.now) }
    requires can { AllCanType _ _ (λ e. e.now) (λ k. k.now) (F.pre typed.now) (F.post typed.now) (S.context names.now) arguments.now }
    requires ready { IsReady known.old }
    ensures value { TypesTo result (other_call_of (S.context names.now) of arguments.now known.old.functions) known.new.functions }
    ensures ready { IsReady known.new }
    ensures keeps { Extends known.old.functions known.new.functions }
{
    let before = known.functions.len();
    match actuals(alloc, names, typed, arguments, known) {
        Ok(operands) => Err(miscounted(operands, of.name)),
        Err(halt) => Err(uncounted(alloc, names, needs, of, before, halt, known)),
    }
}

/// A call of what a name finds. One of another number of actuals than there are formals breaks E405 at the name where these are whole.
/// Where the function isn't whole and breaks no rule, the actuals are looked at for their breaks.
#[tactic(auto, using(crate::proofs::Calling::either))]
pub fn call<
    S: Names,
    F: Fn(&Expr, &mut Known) -> Result<Operand, Halt>,
    C: Fn(u32, &mut Known) -> Result<u32, Halt>,
>(
    alloc: Global,
    names: &S,
    needs: &C,
    typed: &F,
    of: QualifiedName,
    arguments: &[Expr],
    known: &mut Known,
) -> Result<Valued, Halt>
    requires needs { MakesKnown _ ((n : _) (k : _) → IsReady k.now → C.pre needs.now n k) (λ k. k.now) (C.post needs.now) (S.context names.now) }
    requires can { AllCanType _ _ (λ e. e.now) (λ k. k.now) (F.pre typed.now) (F.post typed.now) (S.context names.now) arguments.now }
    requires ready { IsReady known.old }
    ensures value { TypesTo result (call_of_name (S.context names.now) of arguments.now known.old.functions) known.new.functions }
    ensures ready { IsReady known.new }
    ensures keeps { Extends known.old.functions known.new.functions }
{
    if has_count(names, of, arguments.len()) {
        counted_call(alloc, names, needs, typed, of, arguments, known)
    } else {
        other_call(alloc, names, needs, typed, of, arguments, known)
    }
}
