//! Assignments.

ghost use Rattle.std.specs.Prelude.{◌≡◌, [], ◌∷◌, Ok, IfOk};
ghost use Rattle.expr_type.specs.Answers.{Gives};
ghost use Rattle.expr_type.specs.Names.{spot};
ghost use Rattle.expr_type.specs.Statements as statement;
ghost use Rattle.sv_types.specs.declared.statement.Stmt.TheVariants as made;
ghost use Rattle.expr_type.specs.Targets as def;
ghost use Rattle.pattern_types.specs.Meaning.{operand_of};
ghost use Rattle.typing_parts.specs.Typists.{IsNarrowOperand};
ghost use Rattle.typing_assigns.specs.Parts.{IsNarrowTarget};
ghost use Rattle.typing_assigns.specs.Targets.{StandsFor};
ghost use Rattle.typing_assigns.specs.Assigning.{IsOperands, assigned_by};

use crate::combining::{combined, operator_of, pair};
use crate::giving::assigned;
use crate::target::Target;
use expr_type::Halt;
use operand_types::spot_at;
use pattern_types::Operand;
use std::alloc::{AllocError, Global};
use sv_tree::AssignmentOperator;
use sv_types::{Expr, Exprs, Form, Stmt};
use typing_parts::Names;

// Whether an assignment is nonblocking.
fn is_later(op: AssignmentOperator) -> bool
    ensures { result ≡ statement.is_later op }
{
    matches!(op, AssignmentOperator::Nonblocking)
}

// One expression in a list.
fn alone(alloc: Global, e: Expr) -> Result<Exprs, AllocError>
    ensures { IfOk result (λ es. es ≡ e ∷ []) }
{
    let mut es = Exprs::new(alloc);
    es.push(e)?;
    Ok(es)
}

// The operands of a concatenation.
fn operands_in(alloc: Global, e: Expr) -> Exprs
    ensures { IsOperands e.form result }
{
    let Expr { form, .. } = e;
    match form {
        Form::Concat(es) => es,
        _ => Exprs::new(alloc),
    }
}

// What an assignment writes, the most significant first.
fn parts_of(alloc: Global, to: Target) -> Result<Exprs, Halt>
    ensures { (d : def.Target) → StandsFor to d → Gives result (Ok (def.parts_of d)) }
{
    match to {
        Target::Path(of) => Ok(alone(alloc, of.expr)?),
        Target::Parts { of, .. } => Ok(operands_in(alloc, of.expr)),
        Target::Stream(of) => Ok(alone(alloc, of.expr)?),
    }
}

// An assignment at a token.
fn assign<S: Names>(
    alloc: Global,
    names: &S,
    at: u32,
    later: bool,
    to: Exprs,
    value: Expr,
) -> Result<Stmt, AllocError>
    ensures { IfOk result (λ s. s ≡ made.Assign to value later (spot (S.context names.now).source at)) }
{
    let spot = spot_at(alloc, names.text(), at);
    let (spot, (to, value)) = pairs::both(spot, Ok((to, value)))?;
    Ok(Stmt::Assign {
        to,
        value,
        later,
        spot,
    })
}

/// What an assignment gives to its target.
pub fn assigned_by<S: Names>(
    alloc: Global,
    names: &S,
    at: u32,
    op: AssignmentOperator,
    to: &Target,
    o: Operand,
) -> Result<Expr, Halt>
    requires target { IsNarrowTarget to.now }
    requires narrow { IsNarrowOperand o }
    ensures { (d : def.Target) → StandsFor to.now d → Gives result (assigned_by (S.context names.now) at op d (operand_of (S.context names.now).source o)) }
{
    let given = combined(alloc, names, at, operator_of(op), to, o)?;
    assigned(alloc, names, to, given)
}

/// An assignment at its operator, of what is typed to what is typed.
#[tactic(auto, using(crate::proofs::Pairing::assignments))]
pub fn assignment<S: Names>(
    alloc: Global,
    names: &S,
    at: u32,
    op: AssignmentOperator,
    to: Target,
    o: Operand,
) -> Result<Stmt, Halt>
    requires target { IsNarrowTarget to }
    requires narrow { IsNarrowOperand o }
    ensures { (d : def.Target) → StandsFor to d → Gives result (statement.assignment (S.context names.now) at op d (operand_of (S.context names.now).source o)) }
{
    let value = assigned_by(alloc, names, at, op, &to, o);
    let (to, value) = pair(parts_of(alloc, to), value)?;
    Ok(assign(alloc, names, at, is_later(op), to, value)?)
}
