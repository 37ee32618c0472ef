//! What is passed in calls of tasks and void functions.

ghost use Rattle.std.specs.Prelude.{◌≡◌, ◌||◌, ◌&&◌, not, map, slice_get, zip, IfOk};
ghost use Rattle.expr_type.specs.Shapes as shape;
ghost use Rattle.expr_type.specs.Answers.{Gives, source};
ghost use Rattle.expr_type.specs.Names.{Context, spot};
ghost use Rattle.expr_type.specs.Statements as statement;
ghost use Rattle.expr_type.specs.Typings.{all_of};
ghost use Rattle.sv_types.specs.declared.statement.Stmt.TheVariants as made;
ghost use Rattle.typing_actions.specs.Calls.{CallsTask, actual_of, pair_expr};

use crate::enum_parts::has_enum_part;
use expr_type::{Halt, Source, Valued};
use given_types::is_assignable;
use operand_types::spot_at;
use pattern_types::{Operand, passed};
use std::alloc::{AllocError, Global};
use sv_types::{Expr, Exprs, Formal, Function, Stmt, SvType, Way};
use type_kinds::is_plain_to_enum;
use typing_calls::{all_made, followed};

/// An actual of a task or void function.
#[derive(Drop)]
pub(crate) enum Actual {
    /// What is passed to an input.
    Value(Operand),
    /// What an output or an inout is assigned to.
    Target(Valued),
}

// Whether a formal passes a value both ways.
fn is_inout(way: Way) -> bool
    ensures { result ≡ statement.is_inout way }
{
    match way {
        Way::Input => false,
        Way::Output => false,
        Way::Inout => true,
    }
}

// Whether the value of a formal can't be assigned to an actual, or back where it passes both ways.
fn is_unfit(back: bool, t: &SvType, u: &SvType) -> bool
    ensures { result ≡ (not (shape.is_assignable u.now t.now) || (back && not (shape.is_assignable t.now u.now))) }
{
    !is_assignable(u, t) || (back && !is_assignable(t, u))
}

// Whether what is given to a target isn't of the type of an enum that takes it, as no bits are where an enum is a part of it.
fn is_other_enum(t: &SvType, e: &Expr) -> bool
    ensures { result ≡ statement.is_other_enum t.now e.now }
{
    is_plain_to_enum(&e.of, t) || has_enum_part(e)
}

// Whether one of both is an enum and the other isn't of its type, where it is assigned to.
fn is_unfit_enum(back: bool, t: &SvType, e: &Expr) -> bool
    ensures { result ≡ (statement.is_other_enum t.now e.now || (back && shape.is_plain_to_enum t.now e.now.of)) }
{
    is_other_enum(t, e) || (back && is_plain_to_enum(t, &e.of))
}

// A target that takes the value of a formal of a type (E501, E503), which takes the target's value before where it passes both ways.
fn takes_result(back: bool, t: &SvType, v: Valued) -> Result<Expr, Halt>
    ensures { (k : Context) → Gives result (statement.takes_result k back t.now v) }
{
    if is_unfit(back, t, &v.expr.of) {
        return Err(Halt::Breaks {
            at: v.first,
            rule: 501,
        });
    }
    if is_unfit_enum(back, t, &v.expr) {
        return Err(Halt::Breaks {
            at: v.first,
            rule: 503,
        });
    }
    Ok(v.expr)
}

// An actual of a formal.
fn actual_expr(
    alloc: Global,
    text: Source<'_>,
    formal: &Formal,
    actual: Actual,
) -> Result<Expr, Halt>
    ensures { (k : Context) → source text.entry ≡ k.source → Gives result (statement.actual_expr k formal.now (actual_of k.source actual)) }
{
    match actual {
        Actual::Value(o) => passed(alloc, text, &formal.local.of, o),
        Actual::Target(v) => takes_result(is_inout(formal.way), &formal.local.of, v),
    }
}

// Actuals of formals, as far as there are both.
fn all_actuals(
    alloc: Global,
    text: Source<'_>,
    formals: &[Formal],
    actuals: Vec<Actual>,
) -> Result<Exprs, Halt>
    ensures { (k : Context) → source text.entry ≡ k.source → Gives result (all_of (map (pair_expr k) (zip formals.now (map (actual_of k.source) actuals.items)))) }
{
    let mut made: Result<Vec<Expr>, Halt> = Ok(Vec::new(alloc));
    for (formal, actual) in formals.iter().zip(actuals) {
        made = followed(made, actual_expr(alloc, text, formal, actual));
    }
    all_made(made)
}

// A call at a name, as a statement.
fn call(
    alloc: Global,
    text: Source<'_>,
    at: u32,
    place: u32,
    actuals: Exprs,
) -> Result<Stmt, AllocError>
    ensures { IfOk result (λ s. s ≡ made.Call place actuals (spot (source text.entry) at)) }
{
    let (spot, actuals) = pairs::both(spot_at(alloc, text, at), Ok(actuals))?;
    Ok(Stmt::Call {
        function: place,
        actuals,
        spot,
    })
}

// A call of a function at a place.
#[tactic(auto, using(crate::proofs::Calling::calling))]
fn call_of(
    alloc: Global,
    text: Source<'_>,
    at: u32,
    place: u32,
    function: &Function,
    actuals: Vec<Actual>,
) -> Result<Stmt, Halt>
    ensures { (k : Context) → source text.entry ≡ k.source → Gives result (statement.call_stmt_of k at (record { place = place; of = function.now }) (map (actual_of k.source) actuals.items)) }
{
    if function.formals.len() != actuals.len() {
        return Err(Halt::Breaks { at, rule: 405 });
    }
    let passed = all_actuals(alloc, text, function.formals.as_slice(), actuals)?;
    Ok(call(alloc, text, at, place, passed)?)
}

/// A call at its name of the task or void function at a place among those that are known (IEEE 1800-2017 clauses 13.3 and 13.5): it has
/// as many formals as there are actuals (E405), inputs are passed, and outputs assigned to their actuals (E501, E503).
pub(crate) fn called_stmt(
    alloc: Global,
    text: Source<'_>,
    at: u32,
    place: u32,
    actuals: Vec<Actual>,
    functions: &[Function],
) -> Result<Stmt, Halt>
    ensures { (k : Context) → source text.entry ≡ k.source → CallsTask k at place (slice_get functions.now place) (map (actual_of k.source) actuals.items) result }
{
    match sv_source::at(functions, place as usize) {
        None => Err(Halt::Quiet),
        Some(function) => call_of(alloc, text, at, place, function, actuals),
    }
}
