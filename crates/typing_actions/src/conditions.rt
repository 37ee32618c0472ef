//! Conditions.

ghost use Rattle.std.specs.Prelude.{◌≡◌, true, IfOk};
ghost use Rattle.expr_type.specs.Expressions.{operand};
ghost use Rattle.expr_type.specs.Operands as rule;
ghost use Rattle.expr_type.specs.Statements as statement;
ghost use Rattle.operand_types.specs.Allowed.{IsNarrow};
ghost use Rattle.routine_fits.specs.Sound.{AllSoundFunctions};
ghost use Rattle.stmt_laws.specs.Written.{exprs_written};
ghost use Rattle.stmt_types.specs.Lists.{listed};
ghost use Rattle.typing_actions.specs.Conditions.{conditions_of};
ghost use Rattle.typing_fits.specs.Sound.{Extends};
ghost use Rattle.typing_parts.specs.Typists.{IsReady, MakesKnown};
ghost use Rattle.typing_steps.specs.Steps.{TypesTo};
ghost use Rattle.typing_walks.specs.Keeps.{Surrounded};
ghost use Rattle.typing_walks.specs.Written.{is_written};

use expr_type::{Halt, Valued};
use operand_types::has_bits;
use std::alloc::Global;
use sv_tree::Expr;
use typing_calls::followed;
use typing_exprs::operand;
use typing_parts::{Known, Names};
use typing_values::as_value;

// An expression as a value: no pattern (E505) and no stream (E512).
#[tactic(auto, using(typing_values::proofs::Putting::values))]
fn value<S: Names, C: Fn(u32, &mut Known) -> Result<u32, Halt>>(
    alloc: Global,
    names: &S,
    needs: &C,
    e: &Expr,
    known: &mut Known,
) -> Result<Valued, Halt>
    requires needs { MakesKnown _ ((n : _) (k : _) → IsReady k.now → C.pre needs.now n k) (λ k. k.now) (C.post needs.now) (S.context names.now) }
    requires names { Surrounded AllSoundFunctions (S.context names.now) }
    requires written { is_written e.now ≡ true }
    requires ready { IsReady known.old }
    ensures value { TypesTo result (rule.value (S.context names.now).source (operand (S.context names.now) e.now) known.old.functions) known.new.functions }
    ensures ready { IsReady known.new }
    ensures keeps { Extends known.old.functions known.new.functions }
{
    let o = operand(alloc, names, needs, e, known)?;
    as_value(names.text(), o)
}

/// The condition of a statement (IEEE 1800-2017 clause 12.4): a value that has bits (E508).
#[tactic(auto, using(typing_values::proofs::Putting::steps))]
pub fn condition<S: Names, C: Fn(u32, &mut Known) -> Result<u32, Halt>>(
    alloc: Global,
    names: &S,
    needs: &C,
    e: &Expr,
    known: &mut Known,
) -> Result<Valued, Halt>
    requires needs { MakesKnown _ ((n : _) (k : _) → IsReady k.now → C.pre needs.now n k) (λ k. k.now) (C.post needs.now) (S.context names.now) }
    requires names { Surrounded AllSoundFunctions (S.context names.now) }
    requires written { is_written e.now ≡ true }
    requires ready { IsReady known.old }
    ensures value { TypesTo result (statement.condition (S.context names.now) e.now known.old.functions) known.new.functions }
    ensures ready { IsReady known.new }
    ensures keeps { Extends known.old.functions known.new.functions }
{
    let v = value(alloc, names, needs, e, known)?;
    has_bits(names.text(), v)
}

/// The values of an item of a `case` (IEEE 1800-2017 clause 12.5), each of which has bits (E508). All are looked at, also behind one
/// that isn't whole.
pub fn item_values<S: Names, C: Fn(u32, &mut Known) -> Result<u32, Halt>>(
    alloc: Global,
    names: &S,
    needs: &C,
    es: &[Expr],
    known: &mut Known,
) -> Result<Vec<Valued>, Halt>
    requires needs { MakesKnown _ ((n : _) (k : _) → IsReady k.now → C.pre needs.now n k) (λ k. k.now) (C.post needs.now) (S.context names.now) }
    requires names { Surrounded AllSoundFunctions (S.context names.now) }
    requires written { exprs_written es.now ≡ true }
    requires ready { IsReady known.old }
    ensures value { TypesTo (listed result) (conditions_of (S.context names.now) es.now known.old.functions) known.new.functions }
    ensures ready { IsReady known.new }
    ensures keeps { Extends known.old.functions known.new.functions }
{
    let mut made: Result<Vec<Valued>, Halt> = Ok(Vec::new(alloc));
    for e in es {
        let next = condition(alloc, names, needs, e, known);
        made = followed(made, next);
    }
    made
}
