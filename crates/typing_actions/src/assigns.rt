//! Assignments, by a statement or continuous.

ghost use Rattle.std.specs.Prelude.{◌≡◌, List, map, true};
ghost use Rattle.sv_types.specs.declared.statement.Function.{Function};
ghost use Rattle.expr_type.specs.Operands as operand;
ghost use Rattle.expr_type.specs.Statements as statement;
ghost use Rattle.expr_type.specs.Targets as def;
ghost use Rattle.expr_type.specs.Typings.{Typing};
ghost use Rattle.routine_fits.specs.Sound.{AllSoundFunctions};
ghost use Rattle.typing_fits.specs.Sound.{Extends};
ghost use Rattle.stmt_walks.specs.Written.{lvalue_written};
ghost use Rattle.typing_assigns.specs.Parts.{NarrowTarget};
ghost use Rattle.typing_assigns.specs.Targets.{TargetsTo};
ghost use Rattle.typing_parts.specs.Operands.{as_operand};
ghost use Rattle.typing_parts.specs.Typists.{IsReady, MakesKnown, NarrowIfOk};
ghost use Rattle.typing_steps.specs.Steps.{TypesTo};
ghost use Rattle.typing_walks.specs.Keeps.{Surrounded};
ghost use Rattle.typing_walks.specs.Written as written;
ghost use Rattle.typing_actions.specs.Walks as walks;

use crate::lvalues::target;
use crate::ones::{one, step_operator};
use crate::paths::name_target;
use expr_type::Halt;
use pattern_types::Operand;
use std::alloc::Global;
use sv_tree::{AssignmentOperator, Expr, Lvalue, Select, StepOperator};
use sv_types::Stmt;
use typing_assigns::{Target, assignment};
use typing_exprs::operand;
use typing_parts::{Known, Names};
use typing_paths::Nets;
use typing_sides::beside;

// An assignment at its operator, where what is assigned to and what is assigned are whole.
#[tactic(auto, using(crate::proofs::Assigning::assigns))]
fn assigned<S: Names>(
    alloc: Global,
    names: &S,
    at: u32,
    op: AssignmentOperator,
    to: Result<Target, Halt>,
    value: Result<Operand, Halt>,
) -> Result<Stmt, Halt>
    requires target { NarrowTarget to }
    requires narrow { NarrowIfOk value }
    ensures { (x : Typing def.Target) (y : Typing operand.Operand) (fs gs hs : List Function) → TargetsTo to (x fs) gs → TypesTo (as_operand (S.context names.now).source value) (y gs) hs → TypesTo result (walks.assigned (S.context names.now) at op x y fs) hs }
{
    let (to, value) = beside(to, value)?;
    assignment(alloc, names, at, op, to, value)
}

// An assignment, by a statement or continuous.
fn assigned_to<S: Nets, C: Fn(u32, &mut Known) -> Result<u32, Halt>>(
    alloc: Global,
    names: &S,
    needs: &C,
    in_statement: bool,
    to: &Lvalue,
    at: u32,
    op: AssignmentOperator,
    e: &Expr,
    known: &mut Known,
) -> Result<Stmt, Halt>
    requires needs { MakesKnown _ ((n : _) (k : _) → IsReady k.now → C.pre needs.now n k) (λ k. k.now) (C.post needs.now) (S.context names.now) }
    requires names { Surrounded AllSoundFunctions (S.context names.now) }
    requires target { lvalue_written to.now ≡ true }
    requires written { written.is_written e.now ≡ true }
    requires ready { IsReady known.old }
    ensures value { TypesTo result (walks.assigned_to (S.context names.now) in_statement to.now at op e.now known.old.functions) known.new.functions }
    ensures ready { IsReady known.new }
    ensures keeps { Extends known.old.functions known.new.functions }
{
    let to = target(alloc, names, needs, in_statement, to, known);
    let value = operand(alloc, names, needs, e, known);
    assigned(alloc, names, at, op, to, value)
}

/// A statement that assigns, at its operator (IEEE 1800-2017 clauses 10.4 and 11.4.1). The first break in the order of the text counts.
pub fn assign<S: Nets, C: Fn(u32, &mut Known) -> Result<u32, Halt>>(
    alloc: Global,
    names: &S,
    needs: &C,
    to: &Lvalue,
    at: u32,
    op: AssignmentOperator,
    e: &Expr,
    known: &mut Known,
) -> Result<Stmt, Halt>
    requires needs { MakesKnown _ ((n : _) (k : _) → IsReady k.now → C.pre needs.now n k) (λ k. k.now) (C.post needs.now) (S.context names.now) }
    requires names { Surrounded AllSoundFunctions (S.context names.now) }
    requires target { lvalue_written to.now ≡ true }
    requires written { written.is_written e.now ≡ true }
    requires ready { IsReady known.old }
    ensures value { TypesTo result (walks.assigned_to (S.context names.now) true to.now at op e.now known.old.functions) known.new.functions }
    ensures ready { IsReady known.new }
    ensures keeps { Extends known.old.functions known.new.functions }
{
    assigned_to(alloc, names, needs, true, to, at, op, e, known)
}

/// A continuous assignment at its `=` (IEEE 1800-2017 clause 10.3), as the assignment that it does. The first break in the order of the
/// text counts.
pub fn continuous<S: Nets, C: Fn(u32, &mut Known) -> Result<u32, Halt>>(
    alloc: Global,
    names: &S,
    needs: &C,
    to: &Lvalue,
    at: u32,
    e: &Expr,
    known: &mut Known,
) -> Result<Stmt, Halt>
    requires needs { MakesKnown _ ((n : _) (k : _) → IsReady k.now → C.pre needs.now n k) (λ k. k.now) (C.post needs.now) (S.context names.now) }
    requires names { Surrounded AllSoundFunctions (S.context names.now) }
    requires target { lvalue_written to.now ≡ true }
    requires written { written.is_written e.now ≡ true }
    requires ready { IsReady known.old }
    ensures value { TypesTo result (statement.continuous (S.context names.now) to.now at e.now known.old.functions) known.new.functions }
    ensures ready { IsReady known.new }
    ensures keeps { Extends known.old.functions known.new.functions }
{
    assigned_to(
        alloc,
        names,
        needs,
        false,
        to,
        at,
        AssignmentOperator::Assign,
        e,
        known,
    )
}

/// A name with selects behind it that is counted up or down at an operator (IEEE 1800-2017 clause 11.4.2): `a++` is `a = a + 1`.
pub fn counted<S: Nets, C: Fn(u32, &mut Known) -> Result<u32, Halt>>(
    alloc: Global,
    names: &S,
    needs: &C,
    name: u32,
    op: StepOperator,
    at: u32,
    selects: &[Select],
    known: &mut Known,
) -> Result<Stmt, Halt>
    requires needs { MakesKnown _ ((n : _) (k : _) → IsReady k.now → C.pre needs.now n k) (λ k. k.now) (C.post needs.now) (S.context names.now) }
    requires names { Surrounded AllSoundFunctions (S.context names.now) }
    requires written { written.all (map written.select_written selects.now) ≡ true }
    requires ready { IsReady known.old }
    ensures value { TypesTo result (statement.counted (S.context names.now) name op at selects.now known.old.functions) known.new.functions }
    ensures ready { IsReady known.new }
    ensures keeps { Extends known.old.functions known.new.functions }
{
    let to = name_target(alloc, names, needs, true, name, selects, known);
    let value = one(alloc, names, at);
    assigned(alloc, names, at, step_operator(op), to, value)
}
