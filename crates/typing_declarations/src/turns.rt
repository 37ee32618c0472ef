//! Turns of loops.

ghost use Rattle.std.specs.Prelude.{◌≡◌, [], ◌∷◌, List, Option, IfOk};
ghost use Rattle.expr_type.specs.Answers.{source};
ghost use Rattle.expr_type.specs.Names.{Context, with_locals};
ghost use Rattle.expr_type.specs.Statements as statement;
ghost use Rattle.expr_type.specs.Typings.{Typing};
ghost use Rattle.frame_things.specs.Finding.{local_id};
ghost use Rattle.sv_types.specs.declared.statement.Function.{Function};
ghost use Rattle.sv_types.specs.declared.statement.Stmt as s;
ghost use Rattle.typing_calls.specs.Lists.{as_meant};
ghost use Rattle.typing_declarations.specs.Loops.{control_of, looped, variable_of};
ghost use Rattle.typing_scopes.specs.Scopes.{context_of};
ghost use Rattle.typing_sides.specs.Sides.{known_of};
ghost use Rattle.typing_steps.specs.Steps.{TypesTo};

use expr_type::{Halt, Source, Valued};
use frame_things::NamedLocal;
use std::alloc::{AllocError, Global};
use stmt_forms::{Head, loop_stmt};
use sv_types::{Expr, Stmt};
use type_kinds::copy_type;
use typing_scopes::{Base, Scope};
use typing_sides::beside;

/// The variable of a loop, with its first value.
#[derive(Drop)]
pub struct LoopVariable {
    /// The variable.
    pub local: NamedLocal,
    /// Its first value.
    pub first: Expr,
}

/// What controls the turns of a loop.
#[derive(Drop)]
pub struct Control {
    /// Whether another turn is made.
    pub test: Valued,
    /// The variable's value in the next turn.
    pub step: Expr,
}

// A copy of a local.
fn copy_local(alloc: Global, local: &NamedLocal) -> Result<NamedLocal, AllocError>
    ensures { IfOk result (λ l. l ≡ local.now) }
{
    Ok(NamedLocal {
        decl: local.decl,
        number: local.number,
        of: copy_type(alloc, &local.of)?,
    })
}

// A scope in which a local stands.
fn behind<'s, B: Base>(
    alloc: Global,
    names: &'s Scope<'_, B>,
    local: &NamedLocal,
) -> Result<Scope<'s, B>, AllocError>
    ensures { IfOk result (λ inner. context_of B.context inner ≡ with_locals (local_id local.now ∷ []) (context_of B.context names.now)) }
{
    let mut inner = Scope::inside(alloc, names);
    inner.add_local(copy_local(alloc, local)?)?;
    Ok(inner)
}

/// A scope in which the variable of a loop stands, where it is whole (IEEE 1800-2017 clause 12.7.1).
#[tactic(auto, using(crate::proofs::Entering::enters))]
pub fn entered<'s, B: Base>(
    alloc: Global,
    names: &'s Scope<'_, B>,
    variable: &Result<LoopVariable, Halt>,
) -> Result<Scope<'s, B>, AllocError>
    ensures { IfOk result (λ inner. context_of B.context inner ≡ statement.in_loop (context_of B.context names.now) (known_of (as_meant variable_of variable.now))) }
{
    match variable {
        Ok(variable) => behind(alloc, names, &variable.local),
        Err(_) => Ok(Scope::inside(alloc, names)),
    }
}

/// A `for` loop at its word, of its variable and of what has been looked at where it stands (IEEE 1800-2017 clause 12.7.1).
/// The first break in the order of the text counts.
#[tactic(auto, using(crate::proofs::Looping::loops))]
pub fn loop_of(
    alloc: Global,
    text: Source<'_>,
    at: u32,
    variable: Result<LoopVariable, Halt>,
    control: Result<Control, Halt>,
    body: Result<Stmt, Halt>,
) -> Result<Stmt, Halt>
    ensures { (k : Context) (x : Typing statement.LoopVariable) (y : Option statement.LoopVariable → Typing statement.Control) (z : Option statement.LoopVariable → Typing s.Stmt) (fs gs hs js : List Function) → source text.entry ≡ k.source → TypesTo (as_meant variable_of variable) (x fs) gs → TypesTo (as_meant control_of control) (y (known_of (as_meant variable_of variable)) gs) hs → TypesTo body (z (known_of (as_meant variable_of variable)) hs) js → TypesTo result (looped k at x y z fs) js }
{
    let turns = beside(control, body);
    let (variable, (control, body)) = beside(variable, turns)?;
    let LoopVariable { local, first } = variable;
    let Control { test, step } = control;
    let head = Head {
        local: local.number,
        first,
        test: test.expr,
        step,
    };
    Ok(loop_stmt(alloc, text, at, head, body)?)
}
