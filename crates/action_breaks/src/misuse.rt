//! The least tokens of assignments and actuals that some processes or functions may not have.

ghost use Rattle.std.specs.Prelude.{◌≡◌, map};
ghost use Rattle.sv_types.specs.declared.design.Design.{Design};
ghost use Rattle.design_breaks.specs.Actions.{is_out};
ghost use Rattle.action_breaks.specs.Misuse as spec;
ghost use Rattle.action_breaks.specs.Misuse.{IsMisuse};

use crate::bases::{Bases, bases_of, target_bases};
use least_breaks::with_token;
use sv_source::Boxed;
use sv_types::{CaseItem, Expr, Formal, Function, Stmt, Way};

/// The least tokens so far.
#[derive(Clone, Copy)]
pub struct Misuse {
    /// Of a blocking assignment to a signal.
    pub blocking: Option<u32>,
    /// Of an actual of an output or inout that names a signal.
    pub passed: Option<u32>,
    /// Of a nonblocking assignment.
    pub later: Option<u32>,
    /// Of a nonblocking assignment to a local.
    pub local_later: Option<u32>,
}

// The lesser one of a token and another one, if that counts.
fn with_token_if(counts: bool, least: Option<u32>, at: u32) -> Option<u32>
    ensures { result ≡ spec.with_token_if counts least at }
{
    if counts { with_token(least, at) } else { least }
}

// With an assignment to targets that name these.
fn assigned(bases: Bases, later: bool, at: u32, so_far: Misuse) -> Misuse
    ensures { result ≡ spec.assigned bases later at so_far }
{
    if later {
        return Misuse {
            blocking: so_far.blocking,
            passed: so_far.passed,
            later: with_token(so_far.later, at),
            local_later: with_token_if(bases.local, so_far.local_later, at),
        };
    }
    Misuse {
        blocking: with_token_if(bases.signal, so_far.blocking, at),
        passed: so_far.passed,
        later: so_far.later,
        local_later: so_far.local_later,
    }
}

fn gives_back(way: Way) -> bool
    ensures { result ≡ is_out way }
{
    match way {
        Way::Input => false,
        Way::Output => true,
        Way::Inout => true,
    }
}

// With an actual of a formal.
fn passed(way: Way, actual: &Expr, so_far: Misuse) -> Misuse
    ensures { result ≡ spec.passed way actual.now so_far }
{
    Misuse {
        blocking: so_far.blocking,
        passed: with_token_if(
            gives_back(way) && target_bases(actual).signal,
            so_far.passed,
            actual.spot.at,
        ),
        later: so_far.later,
        local_later: so_far.local_later,
    }
}

// With the actuals of a call.
fn all_passed(formals: &[Formal], actuals: &[Expr], so_far: Misuse) -> Misuse
    ensures { result ≡ spec.all_passed formals.now actuals.now so_far }
{
    let mut misuse = so_far;
    let mut k = 0;
    while k < formals.len() && k < actuals.len() {
        misuse = passed(formals[k].way, &actuals[k], misuse);
        k += 1;
    }
    misuse
}

// With a call of the function at a place.
fn called(functions: &[Function], function: u32, actuals: &[Expr], so_far: Misuse) -> Misuse
    ensures { result ≡ spec.called functions.now function actuals.now so_far }
{
    let place = function as usize;
    if place < functions.len() {
        all_passed(functions[place].formals.as_slice(), actuals, so_far)
    } else {
        so_far
    }
}

#[cycle(statements)]
fn add_items(functions: &[Function], items: &[CaseItem], so_far: Misuse) -> Misuse
    ensures { result ≡ spec.in_turn (map (spec.item_walk functions.now) items.now) so_far }
{
    let mut misuse = so_far;
    for item in items {
        misuse = add_stmt(functions, &item.body, misuse);
    }
    misuse
}

#[cycle(statements)]
fn add_body(functions: &[Function], body: &[Stmt], so_far: Misuse) -> Misuse
    ensures { result ≡ spec.in_turn (map (spec.stmt_walk functions.now) body.now) so_far }
{
    let mut misuse = so_far;
    for stmt in body {
        misuse = add_stmt(functions, stmt, misuse);
    }
    misuse
}

// With a statement that may be left out.
#[cycle(statements)]
fn add_other(functions: &[Function], other: &Option<Boxed<Stmt>>, so_far: Misuse) -> Misuse
    ensures { result ≡ spec.if_written (spec.perhaps functions.now other.now) so_far }
{
    match other {
        None => so_far,
        Some(s) => add_stmt(functions, s.get(), so_far),
    }
}

// With a statement.
#[cycle(statements)]
fn add_stmt(functions: &[Function], stmt: &Stmt, so_far: Misuse) -> Misuse
    ensures { result ≡ spec.stmt_walk functions.now stmt.now so_far }
{
    match stmt {
        Stmt::Block { body, .. } => add_body(functions, body.as_slice(), so_far),
        Stmt::If { body, other, .. } => {
            let misuse = add_stmt(functions, body.get(), so_far);
            add_other(functions, other, misuse)
        }
        Stmt::Case { items, other, .. } => {
            let misuse = add_items(functions, items.as_slice(), so_far);
            add_other(functions, other, misuse)
        }
        Stmt::Loop { body, .. } => add_stmt(functions, body.get(), so_far),
        Stmt::Assign {
            to,
            later,
            spot,
            ..
        } => assigned(bases_of(to.as_slice()), *later, spot.at, so_far),
        Stmt::Call {
            function,
            actuals,
            ..
        } => called(functions, *function, actuals.as_slice(), so_far),
        Stmt::Made { before, body, .. } => {
            let misuse = add_body(functions, before.as_slice(), so_far);
            add_other(functions, body, misuse)
        }
        Stmt::Break => so_far,
        Stmt::Continue => so_far,
        Stmt::Return => so_far,
    }
}

/// The least tokens of a body, where these functions can be called.
pub fn misuse_of(functions: &[Function], body: &Stmt) -> Misuse
    ensures { (d : Design) → functions.now ≡ d.functions → IsMisuse d body.now result }
{
    add_stmt(
        functions,
        body,
        Misuse {
            blocking: None,
            passed: None,
            later: None,
            local_later: None,
        },
    )
}
