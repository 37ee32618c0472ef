//! Whether a statement writes a signal or local, or has it for the variable of a loop.

ghost use Rattle.std.specs.Prelude.{◌≡◌, ◌||◌, map, flat_map};
ghost use Rattle.sv_types.specs.Functions.{parameter};
ghost use Rattle.sv_types.specs.Meanings.{roots_of};
ghost use Rattle.sv_types.specs.Expressions.{meaning};
ghost use Rattle.eval_forms.specs.Callees.{formals_in, AllFunctionsFit};
ghost use Rattle.loop_laws.specs.Walks.{those, bodies};
ghost use Rattle.loop_rules.specs.Targets.{ArePartsOf, names, roots_in, targets_of, targets_out, named_by_way};

use eval_forms::formals_of;
use eval_parts::{Step, step_of};
use sv_source::Boxed;
use sv_types::{CaseItem, Expr, Form, Formal, Function, Stmt, Way};

fn either(a: bool, b: bool) -> bool
    ensures { result ≡ (a || b) }
{
    a || b
}

// Whether a select path stands on the signal or local with a number.
fn stands_on(e: &Expr, number: u64) -> bool
    ensures { result ≡ names number (roots_of (meaning e.now).root) }
{
    match step_of(e) {
        None => false,
        Some(Step::Signal(n)) => n as u64 == number,
        Some(Step::Local(n)) => 4294967296 + n as u64 == number,
        Some(Step::Member(from, _)) => stands_on(from, number),
        Some(Step::Index(from, _)) => stands_on(from, number),
        Some(Step::Part { from, .. }) => stands_on(from, number),
        Some(Step::Slide { from, .. }) => stands_on(from, number),
    }
}

// The parts of a target that is a concatenation or a stream.
#[tactic(auto, using(crate::proofs::Roots::targets))]
fn parts_of(e: &Expr) -> Option<&[Expr]>
    ensures { ArePartsOf result e.now }
{
    match &e.form {
        Form::Literal { .. } => None,
        Form::Fill(_) => None,
        Form::Constant(_) => None,
        Form::Signal(_) => None,
        Form::Local(_) => None,
        Form::Member(_, _) => None,
        Form::Index(_, _) => None,
        Form::Part { .. } => None,
        Form::Slide { .. } => None,
        Form::Unary(_, _) => None,
        Form::Reduce(_, _) => None,
        Form::Negate(_) => None,
        Form::Binary(_, _, _) => None,
        Form::Shift(_, _, _) => None,
        Form::Power(_, _) => None,
        Form::Order(_, _, _) => None,
        Form::Equal { .. } => None,
        Form::Both(_, _) => None,
        Form::Either(_, _) => None,
        Form::Choose(_, _, _) => None,
        Form::Concat(es) => Some(es.as_slice()),
        Form::Repeat(_, _) => None,
        Form::Inside(_, _) => None,
        Form::Cast(_) => None,
        Form::Clog2(_) => None,
        Form::Pattern(_) => None,
        Form::Call(_, _) => None,
        Form::Stream { parts, .. } => Some(parts.as_slice()),
    }
}

// Whether an expression names it as a target.
#[cycle(roots)]
fn is_target(e: &Expr, number: u64) -> bool
    ensures { result ≡ names number (meaning e.now).roots }
{
    match parts_of(e) {
        None => stands_on(e, number),
        Some(parts) => are_targets(parts, number),
    }
}

// Whether one of some expressions does.
#[cycle(roots)]
fn are_targets(es: &[Expr], number: u64) -> bool
    ensures { result ≡ names number (roots_in es.now) }
{
    for e in es {
        if is_target(e, number) {
            return true;
        }
    }
    false
}

// Whether an actual is passed to an output or inout and does.
fn is_passed_out(way: Way, e: &Expr, number: u64) -> bool
    ensures { result ≡ named_by_way number way e.now }
{
    match way {
        Way::Input => false,
        Way::Output => is_target(e, number),
        Way::Inout => is_target(e, number),
    }
}

// Whether one of some actuals is.
fn are_passed_out(formals: &[Formal], actuals: &[Expr], number: u64) -> bool
    ensures { result ≡ names number (targets_out (map parameter formals.now) actuals.now) }
{
    let count = formals.len().min(actuals.len());
    for i in 0..count {
        if is_passed_out(formals[i].way, &actuals[i], number) {
            return true;
        }
    }
    false
}

/// Whether a statement writes the signal or local with a number, passes it to an output or inout, or has it for the variable of a
/// loop. The number of a local is 2^32 behind its place.
#[cycle(writes)]
pub fn writes(functions: &[Function], s: &Stmt, number: u64) -> bool
    requires { AllFunctionsFit functions.now }
    ensures { result ≡ names number (targets_of (formals_in functions.now) s.now) }
{
    match s {
        Stmt::Block { body, .. } => some_write(functions, body.as_slice(), number),
        Stmt::If { body, other, .. } => {
            let one = writes(functions, body.get(), number);
            either(one, perhaps_writes(functions, other, number))
        }
        Stmt::Case { items, other, .. } => {
            let one = items_write(functions, items.as_slice(), number);
            either(one, perhaps_writes(functions, other, number))
        }
        Stmt::Loop { local, body, .. } => {
            let own = 4294967296 + *local as u64 == number;
            either(own, writes(functions, body.get(), number))
        }
        Stmt::Assign { to, .. } => are_targets(to.as_slice(), number),
        Stmt::Call {
            function,
            actuals,
            ..
        } => are_passed_out(formals_of(functions, *function), actuals.as_slice(), number),
        Stmt::Made { before, body, .. } => {
            let one = some_write(functions, before.as_slice(), number);
            either(one, perhaps_writes(functions, body, number))
        }
        Stmt::Break => false,
        Stmt::Continue => false,
        Stmt::Return => false,
    }
}

#[cycle(writes)]
fn some_write(functions: &[Function], ss: &[Stmt], number: u64) -> bool
    requires { AllFunctionsFit functions.now }
    ensures { result ≡ names number (flat_map (targets_of (formals_in functions.now)) ss.now) }
{
    for s in ss {
        if writes(functions, s, number) {
            return true;
        }
    }
    false
}

#[cycle(writes)]
fn items_write(functions: &[Function], items: &[CaseItem], number: u64) -> bool
    requires { AllFunctionsFit functions.now }
    ensures { result ≡ names number (flat_map (targets_of (formals_in functions.now)) (bodies items.now)) }
{
    for item in items {
        if writes(functions, &item.body, number) {
            return true;
        }
    }
    false
}

#[cycle(writes)]
fn perhaps_writes(functions: &[Function], s: &Option<Boxed<Stmt>>, number: u64) -> bool
    requires { AllFunctionsFit functions.now }
    ensures { result ≡ names number (flat_map (targets_of (formals_in functions.now)) (those s.now)) }
{
    match s {
        None => false,
        Some(s) => writes(functions, s.get(), number),
    }
}
