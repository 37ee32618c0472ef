//! Assignments (IEEE 1800-2017 clauses 10.4 and 10.7).

ghost use Rattle.std.specs.Prelude.{◌≡◌, ◌≤◌, ◌-◌, map, drop, max, OnOk, IfOk};
ghost use Rattle.std.specs.List.{list_any};
ghost use Rattle.sv_types.specs.Meanings.{Meaning, wide};
ghost use Rattle.sv_types.specs.Operators.{puts_all, width_of_all};
ghost use Rattle.sv_types.specs.Expressions.{meaning};
ghost use Rattle.sv_types.specs.Runs.{value_given as what_is_given};
ghost use Rattle.eval_parts.specs.Limits.{Fits};
ghost use Rattle.eval_parts.specs.Steps.{is_held};
ghost use Rattle.eval_exprs.specs.Calls.{CallsRun};
ghost use Rattle.eval_exprs.specs.Held.{formals};
ghost use Rattle.eval_stmts.specs.Assignments.{PlacesRun, PlacesGive, WantsMemory};
ghost use Rattle.eval_stmts.specs.Environments.{standing, updates as changes_of, SameSlots, AllReady, Written, Pends};
ghost use Rattle.eval_stmts.specs.Parts.{PartsFit};
ghost use Rattle.eval_stmts.specs.Stepping.{GoesOn};
ghost use Rattle.eval_stmts.specs.Targets.{AssignFits, assign_step};
ghost use Rattle.eval_stmts.specs.Values.{Valued};

use crate::env::{Env, Update};
use crate::parts::{Target, target_of};
use crate::targets::{collect_all, total_width};
use crate::values::{alone_in, bits_in};
use crate::writes::write;
use b4_core::Vec4;
use eval_exprs::{Call, Called, Held, Scope, given_bits};
use eval_parts::{Halt, own_sign, own_width};
use std::alloc::{AllocError, Global};
use sv_types::Expr;

// Whether an expression is a stream.
fn is_stream(e: &Expr) -> bool
    ensures { result ≡ (meaning e.now).streams }
{
    match target_of(e) {
        Target::Path(_) => false,
        Target::Concat(_) => false,
        Target::Stream(_) => true,
        Target::Value => false,
    }
}

// Whether one of these is a stream.
fn has_stream(es: &[Expr]) -> bool
    ensures { result ≡ list_any (λ (m : Meaning). m.streams) (map meaning es.now) }
{
    for e in es {
        if is_stream(e) {
            return true;
        }
    }
    false
}

// The bits of a vector from one on.
fn from_bit(alloc: Global, v: &Vec4, low: u32) -> Result<Vec4, AllocError>
    ensures { IfOk result (λ r. r ≡ drop low v.now) }
{
    let from = (low as usize).min(v.len());
    Vec4::from_slice(alloc, &v.as_slice()[from..])
}

// What an assignment gives to all parts of its target together: a stream as target takes the bits from the top.
fn value_given<C: Fn(Call) -> Result<Called, Halt>>(
    alloc: Global,
    calls: &C,
    scope: Scope<'_>,
    to: &[Expr],
    value: &Expr,
    width: u32,
    env: &mut Env,
) -> Result<Vec4, Halt>
    requires calls { CallsRun (C.IsAlwaysCallable calls.now) (C.post calls.now) scope }
    requires width { width ≡ width_of_all (map meaning to.now) }
    requires fits { Fits (meaning value.now) (formals scope) (max width (wide (meaning value.now))) }
    ensures same { SameSlots env.old env.new }
    ensures gives { Valued (λ v. v ≡ what_is_given (map meaning to.now) (meaning value.now) (standing scope.entry env.old)) result (meaning value.now) (standing scope.entry env.old) env.old.budget env.new.budget }
{
    let own = own_width(value);
    if has_stream(to) {
        let bits = alone_in(alloc, calls, scope, value, env)?;
        Ok(from_bit(alloc, &bits, own.saturating_sub(width))?)
    } else {
        let bits = bits_in(
            alloc,
            calls,
            scope,
            value,
            width.max(own),
            own_sign(value),
            env,
        )?;
        Ok(given_bits(alloc, value, width, &bits)?)
    }
}

// Values the indices of a target.
fn value_places<C: Fn(Call) -> Result<Called, Halt>>(
    alloc: Global,
    calls: &C,
    scope: Scope<'_>,
    to: &[Expr],
    env: &mut Env,
) -> Result<(), Halt>
    requires calls { CallsRun (C.IsAlwaysCallable calls.now) (C.post calls.now) scope }
    requires fits { PartsFit to.now (formals scope) (is_held env.old.signals.items) }
    ensures same { SameSlots env.old env.new }
    ensures gives { PlacesGive result (map meaning to.now) (standing scope.entry env.old) env.old.budget env.new.budget }
{
    let held = Held {
        signals: env.signals.as_slice(),
        locals: env.locals.as_slice(),
        scope,
    };
    let nothing = Vec4::from_vec(Vec::new(alloc));
    let mut dropped = Vec::new(alloc);
    collect_all(
        alloc,
        calls,
        held,
        to,
        &nothing,
        &mut dropped,
        &mut env.budget,
    )
}

/// Writes updates in order.
pub fn write_all(alloc: Global, updates: &[Update], env: &mut Env) -> Result<(), AllocError>
    requires { AllReady updates.now (is_held env.old.signals.items) }
    ensures { OnOk result (Written env.old env.new (changes_of updates.now)) }
{
    for update in updates {
        write(alloc, update, env)?;
    }
    Ok(())
}

// Writes a value to a target whose indices could be valued from this budget on.
fn assign_now<C: Fn(Call) -> Result<Called, Halt>>(
    alloc: Global,
    calls: &C,
    scope: Scope<'_>,
    to: &[Expr],
    value: &Vec4,
    start: Option<u64>,
    env: &mut Env,
) -> Result<(), Halt>
    requires calls { CallsRun (C.IsAlwaysCallable calls.now) (C.post calls.now) scope }
    requires fits { PartsFit to.now (formals scope) (is_held env.old.signals.items) }
    requires runs { PlacesRun (map meaning to.now) (standing scope env.old) start }
    ensures { WantsMemory result (Written env.old env.new (puts_all (map meaning to.now) (standing scope.entry env.old) value.now)) }
{
    let held = Held {
        signals: env.signals.as_slice(),
        locals: env.locals.as_slice(),
        scope,
    };
    let mut updates = Vec::new(alloc);
    let mut again = start;
    collect_all(alloc, calls, held, to, value, &mut updates, &mut again)?;
    Ok(write_all(alloc, &updates, env)?)
}

// Lets updates of a target wait, whose indices could be valued from this budget on.
fn assign_later<C: Fn(Call) -> Result<Called, Halt>>(
    alloc: Global,
    calls: &C,
    scope: Scope<'_>,
    to: &[Expr],
    value: &Vec4,
    start: Option<u64>,
    env: &mut Env,
) -> Result<(), Halt>
    requires calls { CallsRun (C.IsAlwaysCallable calls.now) (C.post calls.now) scope }
    requires fits { PartsFit to.now (formals scope) (is_held env.old.signals.items) }
    requires runs { PlacesRun (map meaning to.now) (standing scope env.old) start }
    ensures budget { env.new.budget ≡ env.old.budget }
    ensures pending { WantsMemory result (Pends env.old env.new (puts_all (map meaning to.now) (standing scope.entry env.old) value.now)) }
{
    let held = Held {
        signals: env.signals.as_slice(),
        locals: env.locals.as_slice(),
        scope,
    };
    let mut again = start;
    collect_all(alloc, calls, held, to, value, &mut env.pending, &mut again)
}

/// Assigns a value to a target. Its indices are valued first, then the value; then they are valued once more, from the same
/// budget, for the bits of the value that each part takes.
pub fn assign<C: Fn(Call) -> Result<Called, Halt>>(
    alloc: Global,
    calls: &C,
    scope: Scope<'_>,
    to: &[Expr],
    value: &Expr,
    later: bool,
    env: &mut Env,
) -> Result<(), Halt>
    requires calls { CallsRun (C.IsAlwaysCallable calls.now) (C.post calls.now) scope }
    requires fits { AssignFits to.now value.now (formals scope) (is_held env.old.signals.items) }
    ensures { GoesOn result scope.entry (assign_step later to.now value.now) env.old env.new }
{
    let start = env.budget;
    value_places(alloc, calls, scope, to, env)?;
    let width = total_width(to);
    let given = value_given(alloc, calls, scope, to, value, width, env)?;
    if later {
        return assign_later(alloc, calls, scope, to, &given, start, env);
    }
    assign_now(alloc, calls, scope, to, &given, start, env)
}
