//! Operators (IEEE 1800-2017 clause 11.4).

ghost use Rattle.std.specs.Prelude.{◌≡◌, IfOk};
ghost use Rattle.operand_types.specs.Allowed.{IsNarrow};
ghost use Rattle.typing_fits.specs.Sound.{Extends};
ghost use Rattle.typing_steps.specs.Steps.{TypesTo};
ghost use Rattle.typing_parts.specs.Typists.{CanType, IsReady};
ghost use Rattle.typing_values.specs.Values.{ArePairNarrow};
ghost use Rattle.typing_operators.specs.Operators.{AreArmsNarrow, arms_of, as_arms, as_tested, binary, conditional, tested_of, unary};

use choice_types::choice_of;
use expr_type::{Halt, Valued};
use operand_types::{Operands, binary_of, unary_of};
use pattern_types::Operand;
use std::alloc::Global;
use sv_tree::{BinaryOperator, Expr, UnaryOperator};
use typing_parts::{Known, Names};
use typing_values::{behind_quiet, two, value};

/// An operator at a token between two operands.
#[tactic(auto, using(crate::proofs::Putting::steps))]
pub fn binary<S: Names, F: Fn(&Expr, &mut Known) -> Result<Operand, Halt>>(
    alloc: Global,
    names: &S,
    typed: &F,
    op: BinaryOperator,
    at: u32,
    l: &Expr,
    r: &Expr,
    known: &mut Known,
) -> Result<Valued, Halt>
    requires left { CanType _ _ (λ e. e.now) (λ k. k.now) (F.pre typed.now) (F.post typed.now) (S.context names.now) l.now }
    requires right { CanType _ _ (λ e. e.now) (λ k. k.now) (F.pre typed.now) (F.post typed.now) (S.context names.now) r.now }
    requires ready { IsReady known.old }
    ensures value { TypesTo result (binary (S.context names.now) op at l.now r.now known.old.functions) known.new.functions }
    ensures narrow { IfOk result IsNarrow }
    ensures ready { IsReady known.new }
    ensures keeps { Extends known.old.functions known.new.functions }
{
    let Operands { left, right } = two(names, typed, l, r, known)?;
    binary_of(alloc, names.text(), op, at, left, right)
}

/// An operator at a token before an operand.
#[tactic(auto, using(crate::proofs::Putting::steps))]
pub fn unary<S: Names, F: Fn(&Expr, &mut Known) -> Result<Operand, Halt>>(
    alloc: Global,
    names: &S,
    typed: &F,
    op: UnaryOperator,
    at: u32,
    e: &Expr,
    known: &mut Known,
) -> Result<Valued, Halt>
    requires can { CanType _ _ (λ e. e.now) (λ k. k.now) (F.pre typed.now) (F.post typed.now) (S.context names.now) e.now }
    requires ready { IsReady known.old }
    ensures value { TypesTo result (unary (S.context names.now) op at e.now known.old.functions) known.new.functions }
    ensures narrow { IfOk result IsNarrow }
    ensures ready { IsReady known.new }
    ensures keeps { Extends known.old.functions known.new.functions }
{
    let v = value(names, typed, e, known)?;
    unary_of(alloc, names.text(), op, at, v)
}

// What `?:` chooses by, and what it chooses from.
#[derive(Drop)]
struct Tested {
    on: Valued,
    arms: Operands,
}

// The arms of `?:` in the order of the text.
#[tactic(auto, using(crate::proofs::Putting::steps))]
fn arms<S: Names, F: Fn(&Expr, &mut Known) -> Result<Operand, Halt>>(
    names: &S,
    typed: &F,
    first: &Expr,
    second: &Expr,
    known: &mut Known,
) -> Result<Operands, Halt>
    requires first { CanType _ _ (λ e. e.now) (λ k. k.now) (F.pre typed.now) (F.post typed.now) (S.context names.now) first.now }
    requires second { CanType _ _ (λ e. e.now) (λ k. k.now) (F.pre typed.now) (F.post typed.now) (S.context names.now) second.now }
    requires ready { IsReady known.old }
    ensures value { TypesTo (as_arms result) (arms_of (S.context names.now) first.now second.now known.old.functions) known.new.functions }
    ensures narrow { IfOk result ArePairNarrow }
    ensures ready { IsReady known.new }
    ensures keeps { Extends known.old.functions known.new.functions }
{
    two(names, typed, first, second, known)
}

// The operands of `?:` in the order of the text.
#[tactic(auto, using(crate::proofs::Putting::besides))]
fn test_and_arms<S: Names, F: Fn(&Expr, &mut Known) -> Result<Operand, Halt>>(
    names: &S,
    typed: &F,
    test: &Expr,
    first: &Expr,
    second: &Expr,
    known: &mut Known,
) -> Result<Tested, Halt>
    requires test { CanType _ _ (λ e. e.now) (λ k. k.now) (F.pre typed.now) (F.post typed.now) (S.context names.now) test.now }
    requires first { CanType _ _ (λ e. e.now) (λ k. k.now) (F.pre typed.now) (F.post typed.now) (S.context names.now) first.now }
    requires second { CanType _ _ (λ e. e.now) (λ k. k.now) (F.pre typed.now) (F.post typed.now) (S.context names.now) second.now }
    requires ready { IsReady known.old }
    ensures value { TypesTo (as_tested result) (tested_of (S.context names.now) test.now first.now second.now known.old.functions) known.new.functions }
    ensures narrow { IfOk result AreArmsNarrow }
    ensures ready { IsReady known.new }
    ensures keeps { Extends known.old.functions known.new.functions }
{
    match value(names, typed, test, known) {
        Ok(on) => {
            let arms = arms(names, typed, first, second, known)?;
            Ok(Tested { on, arms })
        }
        Err(Halt::Memory) => Err(Halt::Memory),
        Err(Halt::Breaks { at, rule }) => Err(Halt::Breaks { at, rule }),
        Err(Halt::Quiet) => Err(behind_quiet(arms(names, typed, first, second, known))),
    }
}

/// `?:`, at its `?`.
#[tactic(auto, using(crate::proofs::Putting::steps))]
pub fn conditional<S: Names, F: Fn(&Expr, &mut Known) -> Result<Operand, Halt>>(
    alloc: Global,
    names: &S,
    typed: &F,
    question: u32,
    test: &Expr,
    first: &Expr,
    second: &Expr,
    known: &mut Known,
) -> Result<Valued, Halt>
    requires test { CanType _ _ (λ e. e.now) (λ k. k.now) (F.pre typed.now) (F.post typed.now) (S.context names.now) test.now }
    requires first { CanType _ _ (λ e. e.now) (λ k. k.now) (F.pre typed.now) (F.post typed.now) (S.context names.now) first.now }
    requires second { CanType _ _ (λ e. e.now) (λ k. k.now) (F.pre typed.now) (F.post typed.now) (S.context names.now) second.now }
    requires ready { IsReady known.old }
    ensures value { TypesTo result (conditional (S.context names.now) question test.now first.now second.now known.old.functions) known.new.functions }
    ensures narrow { IfOk result IsNarrow }
    ensures ready { IsReady known.new }
    ensures keeps { Extends known.old.functions known.new.functions }
{
    let Tested { on, arms } = test_and_arms(names, typed, test, first, second, known)?;
    choice_of(alloc, names.text(), question, on, arms.left, arms.right)
}
