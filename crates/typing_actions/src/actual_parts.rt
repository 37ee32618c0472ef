//! Concatenations of targets that are typed, or not whole.

ghost use Rattle.std.specs.Prelude.{List, IfOk};
ghost use Rattle.sv_types.specs.declared.expression.Expr as T;
ghost use Rattle.sv_types.specs.declared.statement.Function.{Function};
ghost use Rattle.expr_type.specs.declared.operand.Valued as V;
ghost use Rattle.expr_type.specs.Answers.{Gives};
ghost use Rattle.expr_type.specs.Names.{Source};
ghost use Rattle.expr_type.specs.TargetNames.{is_packed_target};
ghost use Rattle.expr_type.specs.Typings.{Typing};
ghost use Rattle.operand_types.specs.Allowed.{AllNarrow, IsNarrow, IsNarrowExpr};
ghost use Rattle.typing_steps.specs.Steps.{TypesTo};
ghost use Rattle.typing_actions.specs.Actuals as def;

use expr_type::{Halt, Valued};
use operand_types::concat_of;
use std::alloc::Global;
use sv_types::Exprs;
use type_kinds::is_unpacked;
use typing_parts::Names;

// A target that has bits (E508).
fn packed(v: Valued) -> Result<Valued, Halt>
    requires { IsNarrow v }
    ensures value { (k : Source) → Gives result (is_packed_target k v) }
    ensures narrow { IfOk result IsNarrow }
{
    if is_unpacked(&v.expr.of) {
        return Err(Halt::Breaks {
            at: v.first,
            rule: 508,
        });
    }
    Ok(v)
}

/// A target as a part of a concatenated one, where it is whole: it has bits (E508).
#[tactic(auto, using(crate::proofs::ActualJoining::parts))]
pub(crate) fn part_of(t: Result<Valued, Halt>) -> Result<sv_types::Expr, Halt>
    requires narrow { IfOk t IsNarrow }
    ensures value { (k : Source) (x : Typing V.Valued) (fs gs : List Function) → TypesTo t (x fs) gs → TypesTo result (def.part_by k x fs) gs }
    ensures narrow { IfOk result IsNarrowExpr }
{
    let v = packed(t?)?;
    Ok(v.expr)
}

/// A concatenation of targets at its `{`, where all of them are whole.
#[tactic(auto, using(crate::proofs::ActualJoining::joins))]
pub(crate) fn joined<S: Names>(
    alloc: Global,
    names: &S,
    opening: u32,
    parts: Result<Exprs, Halt>,
) -> Result<Valued, Halt>
    requires narrow { IfOk parts AllNarrow }
    ensures value { (x : Typing (List T.Expr)) (fs gs : List Function) → TypesTo parts (x fs) gs → TypesTo result (def.joined (S.context names.now).source opening x fs) gs }
    ensures narrow { IfOk result IsNarrow }
{
    concat_of(alloc, names.text(), opening, parts?)
}
