//! What happens to names in functions and tasks.

ghost use Rattle.std.specs.Prelude.{◌≡◌, OnOk};
ghost use Rattle.name_events.specs.Statements as means;

use crate::context::Body;
use crate::declarations::named_of_type;
use crate::dimensions::Dimensioned;
use crate::events::{Declared, Event, Events, ScopeKind};
use crate::expressions::dimensions;
use crate::statements::{closes, labelled, opens, repeats, routine_items};
use crate::steps::{declares, declares_outside, wrong};
use crate::types::{last_of_dimensions, type_text};
use std::alloc::AllocError;
use sv_tree::{Formal, FormalDirection, FormalList, Function, FunctionResult, PortText, Task};

/// A direction that gives something back, in a function with a value.
fn output_direction(direction: FormalDirection, to: &mut Events) -> Result<(), AllocError>
    ensures { OnOk result (to.new ≡ means.output_direction direction to.old) }
{
    match direction {
        FormalDirection::Input(_) => Ok(()),
        FormalDirection::Output(at) => wrong(at, to),
        FormalDirection::Inout(at) => wrong(at, to),
    }
}

/// The direction of a formal argument.
fn formal_direction(
    body: Body,
    direction: Option<FormalDirection>,
    to: &mut Events,
) -> Result<(), AllocError>
    ensures { OnOk result (to.new ≡ means.formal_direction body direction to.old) }
{
    match direction {
        None => Ok(()),
        Some(direction) => match body {
            Body::Function => output_direction(direction, to),
            Body::Process => Ok(()),
            Body::Routine => Ok(()),
        },
    }
}

/// Type and name of a formal argument.
fn formal_text(text: &PortText, to: &mut Events) -> Result<(), AllocError>
    ensures { OnOk result (to.new ≡ means.formal_text text.now to.old) }
{
    match text {
        PortText::Typed { of, name, unpacked } => {
            type_text(of, to)?;
            named_of_type(Declared::Formal, *name, unpacked.as_slice(), &None, to)
        }
        PortText::Modport {
            interface,
            name,
            ..
        } => {
            wrong(*interface, to)?;
            declares(Declared::Formal, *name, *name, to)
        }
        PortText::Bare { name, unpacked } => {
            named_of_type(Declared::Formal, *name, unpacked.as_slice(), &None, to)
        }
    }
}

/// A formal argument.
fn formal(body: Body, one: &Formal, to: &mut Events) -> Result<(), AllocError>
    ensures { OnOk result (to.new ≡ means.formal body one.now to.old) }
{
    formal_direction(body, one.direction, to)?;
    formal_text(&one.text, to)
}

/// Formal arguments.
fn formals(body: Body, list: &[Formal], to: &mut Events) -> Result<(), AllocError>
    ensures { OnOk result (to.new ≡ means.formals body list.now to.old) }
{
    for one in list {
        formal(body, one, to)?;
    }
    Ok(())
}

/// The list of formal arguments, if there is one.
fn formal_list(body: Body, list: &Option<FormalList>, to: &mut Events) -> Result<(), AllocError>
    ensures { OnOk result (to.new ≡ means.formal_list body list.now to.old) }
{
    match list {
        None => Ok(()),
        Some(list) => formals(body, list.formals.as_slice(), to),
    }
}

/// What the body of a function is one of.
fn result_body(of: &FunctionResult) -> Body
    ensures { result ≡ means.result_body of.now }
{
    match of {
        FunctionResult::Void { .. } => Body::Routine,
        FunctionResult::Value(_) => Body::Function,
    }
}

/// As what a function is declared.
fn result_declared(of: &FunctionResult) -> Declared
    ensures { result ≡ means.result_declared of.now }
{
    match of {
        FunctionResult::Void { .. } => Declared::VoidFunction,
        FunctionResult::Value(_) => Declared::Function,
    }
}

/// What the scope of a function is.
fn result_scope(of: &FunctionResult) -> ScopeKind
    ensures { result ≡ means.result_scope of.now }
{
    match of {
        FunctionResult::Void { .. } => ScopeKind::VoidFunction,
        FunctionResult::Value(_) => ScopeKind::Function,
    }
}

/// The type of a function's value, if it has one.
fn result_type(of: &FunctionResult, to: &mut Events) -> Result<(), AllocError>
    ensures { OnOk result (to.new ≡ means.result_type of.now to.old) }
{
    match of {
        FunctionResult::Void { .. } => Ok(()),
        FunctionResult::Value(of) => type_text(of, to),
    }
}

/// The declaration of a function, which ends behind the dimensions of its result.
fn declares_function(one: &Function, to: &mut Events) -> Result<(), AllocError>
    ensures { OnOk result (to.new ≡ means.declares_function one.now to.old) }
{
    to.push(Event::Declares {
        what: result_declared(&one.of),
        name: one.name,
        last: last_of_dimensions(one.name, one.unpacked.as_slice()),
        outside: true,
    })
}

/// A function up to its body.
fn function_head(one: &Function, to: &mut Events) -> Result<(), AllocError>
    ensures { OnOk result (to.new ≡ means.function_head one.now to.old) }
{
    let last = labelled(one.end, one.end_label);
    opens(result_scope(&one.of), one.keyword, last, to)?;
    declares_function(one, to)?;
    result_type(&one.of, to)?;
    dimensions(Dimensioned::Unpacked, one.unpacked.as_slice(), to)?;
    formal_list(result_body(&one.of), &one.formals, to)
}

/// A function.
pub fn function(one: &Function, to: &mut Events) -> Result<(), AllocError>
    ensures { OnOk result (to.new ≡ means.function_events one.now to.old) }
{
    function_head(one, to)?;
    routine_items(result_body(&one.of), one.items.as_slice(), to)?;
    repeats(one.name, one.end_label, to)?;
    closes(to)
}

/// A task up to its body.
fn task_head(one: &Task, to: &mut Events) -> Result<(), AllocError>
    ensures { OnOk result (to.new ≡ means.task_head one.now to.old) }
{
    let last = labelled(one.end, one.end_label);
    opens(ScopeKind::Task, one.keyword, last, to)?;
    declares_outside(Declared::Task, one.name, to)?;
    formal_list(Body::Routine, &one.formals, to)
}

/// A task.
pub fn task(one: &Task, to: &mut Events) -> Result<(), AllocError>
    ensures { OnOk result (to.new ≡ means.task_events one.now to.old) }
{
    task_head(one, to)?;
    routine_items(Body::Routine, one.items.as_slice(), to)?;
    repeats(one.name, one.end_label, to)?;
    closes(to)
}
