//! What happens to names in statements.

ghost use Rattle.std.specs.Prelude.{◌≡◌, OnOk};
ghost use Rattle.name_events.specs.Statements as means;
ghost use Rattle.sv_tree.specs.Extents as extents;

use crate::context::{Around, Body};
use crate::declarations::{declarators, parameters};
use crate::events::{Declared, Event, Events, Role, ScopeKind, SelectPath};
use crate::expressions::{
    Position, expr, exprs, select_path, selects_behind, slice_size, uses_path,
};
use crate::steps::{declares, declares_outside, uses, wrong};
use crate::types::type_text;
use std::alloc::AllocError;
use sv_source::Boxed;
use sv_tree::{
    AssignmentOperator, BlockItem, CaseItem, Else, Expr, Label, LoopStart, LoopStep, Lvalue,
    Select, SliceSize, Stmt,
};

/// How deep statements nest at most in a text.
const NESTING_LIMIT: u32 = 256;

/// The name behind an end, or the end where it has none.
pub fn labelled(end: u32, label: Option<Label>) -> u32
    ensures { result ≡ extents.labelled end label }
{
    match label {
        None => end,
        Some(label) => label.name,
    }
}

/// A scope that begins.
pub fn opens(kind: ScopeKind, first: u32, last: u32, to: &mut Events) -> Result<(), AllocError>
    ensures { OnOk result (to.new ≡ means.opens kind first last to.old) }
{
    to.push(Event::Opens { kind, first, last })
}

/// The end of the innermost open scope.
pub fn closes(to: &mut Events) -> Result<(), AllocError>
    ensures { OnOk result (to.new ≡ means.closes to.old) }
{
    to.push(Event::Closes)
}

/// The name of a block, if it has one.
pub fn labels(what: Declared, label: Option<Label>, to: &mut Events) -> Result<(), AllocError>
    ensures { OnOk result (to.new ≡ means.labels what label to.old) }
{
    match label {
        None => Ok(()),
        Some(label) => declares_outside(what, label.name, to),
    }
}

/// The name behind an end, if it is written.
pub fn repeats(of: u32, label: Option<Label>, to: &mut Events) -> Result<(), AllocError>
    ensures { OnOk result (to.new ≡ means.repeats of label to.old) }
{
    match label {
        None => Ok(()),
        Some(label) => to.push(Event::Repeats {
            of,
            name: label.name,
        }),
    }
}

/// The name behind the end of a block without a name.
fn no_label(label: Option<Label>, to: &mut Events) -> Result<(), AllocError>
    ensures { OnOk result (to.new ≡ means.no_label label to.old) }
{
    match label {
        None => Ok(()),
        Some(label) => wrong(label.name, to),
    }
}

/// The name behind the end of a block.
pub fn end_label(
    label: Option<Label>,
    ended: Option<Label>,
    to: &mut Events,
) -> Result<(), AllocError>
    ensures { OnOk result (to.new ≡ means.end_label label ended to.old) }
{
    match label {
        None => no_label(ended, to),
        Some(label) => repeats(label.name, ended, to),
    }
}

/// A name with selects that is assigned to, or that is a type.
fn target_name(role: Role, name: u32, selects: &[Select], to: &mut Events) -> Result<(), AllocError>
    ensures { OnOk result (to.new ≡ means.target_name role name selects.now to.old) }
{
    to.push(Event::Uses {
        package: None,
        name,
        role,
        path: select_path(selects),
    })?;
    selects_behind(name, selects, to)
}

/// The size of the slices of a stream that is assigned to, if it is written.
fn maybe_slice_size(size: &Option<SliceSize>, to: &mut Events) -> Result<(), AllocError>
    ensures { OnOk result (to.new ≡ means.maybe_slice_size size.now to.old) }
{
    match size {
        None => Ok(()),
        Some(size) => slice_size(size, to),
    }
}

/// Targets.
#[cycle(lvalue)]
fn targets(role: Role, list: &[Lvalue], to: &mut Events) -> Result<(), AllocError>
    ensures { OnOk result (to.new ≡ means.targets role list.now to.old) }
{
    for target in list {
        lvalue(role, target, to)?;
    }
    Ok(())
}

/// What is assigned to.
#[cycle(lvalue)]
pub fn lvalue(role: Role, target: &Lvalue, to: &mut Events) -> Result<(), AllocError>
    ensures { OnOk result (to.new ≡ means.lvalue_events target.now role to.old) }
{
    match target {
        Lvalue::Name { name, selects } => target_name(role, *name, selects.as_slice(), to),
        Lvalue::Concatenation { targets: list, .. } => targets(role, list.as_slice(), to),
        Lvalue::Stream {
            size,
            targets: list,
            ..
        } => {
            maybe_slice_size(size, to)?;
            targets(role, list.as_slice(), to)
        }
    }
}

/// The name that the step of a loop assigns to.
fn step_name(of: u32, name: u32, to: &mut Events) -> Result<(), AllocError>
    ensures { OnOk result (to.new ≡ means.step_name of name to.old) }
{
    uses(name, Role::Step, to)?;
    to.push(Event::Repeats { of, name })
}

/// The operator of the step of a loop.
fn step_operator(operator: AssignmentOperator, at: u32, to: &mut Events) -> Result<(), AllocError>
    ensures { OnOk result (to.new ≡ means.step_operator operator at to.old) }
{
    match operator {
        AssignmentOperator::Nonblocking => wrong(at, to),
        _ => Ok(()),
    }
}

/// The step of a loop over the variable with this name.
pub fn loop_step(of: u32, step: &LoopStep, to: &mut Events) -> Result<(), AllocError>
    ensures { OnOk result (to.new ≡ means.loop_step of step.now to.old) }
{
    match step {
        LoopStep::Assign {
            name,
            operator,
            at,
            value,
        } => {
            step_name(of, *name, to)?;
            step_operator(*operator, *at, to)?;
            expr(value, Position::Value, to)
        }
        LoopStep::Postfix { name, .. } => step_name(of, *name, to),
        LoopStep::Prefix { name, .. } => step_name(of, *name, to),
    }
}

/// The variable of a loop with its first value.
fn loop_start(start: &LoopStart, to: &mut Events) -> Result<(), AllocError>
    ensures { OnOk result (to.new ≡ means.loop_start start.now to.old) }
{
    type_text(&start.of, to)?;
    expr(&start.value, Position::Value, to)?;
    declares(
        Declared::LoopVariable,
        start.name,
        start.value.last_token(),
        to,
    )
}

/// A `break` or `continue`.
fn jump(around: Around, at: u32, to: &mut Events) -> Result<(), AllocError>
    ensures { OnOk result (to.new ≡ means.jump around at to.old) }
{
    if around.looped { Ok(()) } else { wrong(at, to) }
}

/// The value behind `return`, if there is one.
fn value_of(value: &Option<Expr>, to: &mut Events) -> Result<(), AllocError>
    ensures { OnOk result (to.new ≡ means.value_of value.now to.old) }
{
    match value {
        None => Ok(()),
        Some(value) => expr(value, Position::Value, to),
    }
}

/// The value behind `return` where there can be none.
fn no_value(value: &Option<Expr>, to: &mut Events) -> Result<(), AllocError>
    ensures { OnOk result (to.new ≡ means.no_value value.now to.old) }
{
    match value {
        None => Ok(()),
        Some(value) => wrong(value.first_token(), to),
    }
}

/// A `return`.
fn return_place(
    body: Body,
    at: u32,
    value: &Option<Expr>,
    to: &mut Events,
) -> Result<(), AllocError>
    ensures { OnOk result (to.new ≡ means.return_place body at value.now to.old) }
{
    match body {
        Body::Process => wrong(at, to),
        Body::Function => Ok(()),
        Body::Routine => no_value(value, to),
    }
}

/// The same place in a loop.
fn looped(around: Around) -> Around
    ensures { result ≡ means.looped around }
{
    Around {
        looped: true,
        body: around.body,
    }
}

/// An item of a block, in which statements nest at most so deep.
#[cycle(stmt)]
fn block_item(
    depth: u32,
    around: Around,
    item: &BlockItem,
    to: &mut Events,
) -> Result<(), AllocError>
    ensures { OnOk result (to.new ≡ means.block_item (means.stmt_within depth) around item.now to.old) }
{
    match item {
        BlockItem::Statement(inner) => stmt(depth, around, inner, to),
        BlockItem::Parameters(declaration) => parameters(declaration.bodies.as_slice(), to),
        BlockItem::Variables {
            of,
            declarators: list,
            ..
        } => {
            type_text(of, to)?;
            declarators(Declared::Local, list.as_slice(), to)
        }
        BlockItem::NamedVariables {
            of,
            selects,
            declarators: list,
            ..
        } => {
            target_name(Role::Type, *of, selects.as_slice(), to)?;
            declarators(Declared::Local, list.as_slice(), to)
        }
    }
}

/// The items of a block, in which statements nest at most so deep.
#[cycle(stmt)]
fn block_items(
    depth: u32,
    around: Around,
    list: &[BlockItem],
    to: &mut Events,
) -> Result<(), AllocError>
    ensures { OnOk result (to.new ≡ means.block_items (means.stmt_within depth) around list.now to.old) }
{
    for item in list {
        block_item(depth, around, item, to)?;
    }
    Ok(())
}

/// An item of a `case`, in which statements nest at most so deep.
#[cycle(stmt)]
fn case_item(depth: u32, around: Around, item: &CaseItem, to: &mut Events) -> Result<(), AllocError>
    ensures { OnOk result (to.new ≡ means.case_item (means.stmt_within depth) around item.now to.old) }
{
    match item {
        CaseItem::Values { values, body, .. } => {
            exprs(values.as_slice(), to)?;
            stmt(depth, around, body, to)
        }
        CaseItem::Default { body, .. } => stmt(depth, around, body, to),
    }
}

/// The items of a `case`, in which statements nest at most so deep.
#[cycle(stmt)]
fn case_items(
    depth: u32,
    around: Around,
    list: &[CaseItem],
    to: &mut Events,
) -> Result<(), AllocError>
    ensures { OnOk result (to.new ≡ means.case_items (means.stmt_within depth) around list.now to.old) }
{
    for item in list {
        case_item(depth, around, item, to)?;
    }
    Ok(())
}

/// The statement behind `else`, if there is one.
#[cycle(stmt)]
fn otherwise(
    depth: u32,
    around: Around,
    other: &Option<Boxed<Else>>,
    to: &mut Events,
) -> Result<(), AllocError>
    ensures { OnOk result (to.new ≡ means.otherwise (means.stmt_within depth) around other.now to.old) }
{
    match other {
        None => Ok(()),
        Some(other) => stmt(depth, around, &other.get().body, to),
    }
}

/// A statement inside which statements nest at most so deep.
#[cycle(stmt)]
fn stmt_around(depth: u32, around: Around, one: &Stmt, to: &mut Events) -> Result<(), AllocError>
    ensures { OnOk result (to.new ≡ means.stmt_around (means.stmt_within depth) around one.now to.old) }
{
    match one {
        Stmt::Block {
            begin,
            label,
            items,
            end,
            end_label: ended,
        } => {
            opens(ScopeKind::Block, *begin, labelled(*end, *ended), to)?;
            labels(Declared::Block, *label, to)?;
            block_items(depth, around, items.as_slice(), to)?;
            end_label(*label, *ended, to)?;
            closes(to)
        }
        Stmt::If {
            test,
            body,
            other,
            ..
        } => {
            expr(test, Position::Value, to)?;
            stmt(depth, around, body.get(), to)?;
            otherwise(depth, around, other, to)
        }
        Stmt::Case { value, items, .. } => {
            expr(value, Position::Value, to)?;
            case_items(depth, around, items.as_slice(), to)
        }
        Stmt::For {
            keyword,
            first,
            test,
            step,
            body,
            ..
        } => {
            opens(ScopeKind::Loop, *keyword, one.last_token(), to)?;
            loop_start(first, to)?;
            expr(test, Position::Value, to)?;
            loop_step(first.name, step, to)?;
            stmt(depth, looped(around), body.get(), to)?;
            closes(to)
        }
        Stmt::Break { keyword, .. } => jump(around, *keyword, to),
        Stmt::Continue { keyword, .. } => jump(around, *keyword, to),
        Stmt::Return { keyword, value, .. } => {
            return_place(around.body, *keyword, value, to)?;
            value_of(value, to)
        }
        Stmt::Call { of, arguments, .. } => {
            uses_path(*of, Role::CallStatement, SelectPath::Alone, to)?;
            exprs(arguments.as_slice(), to)
        }
        Stmt::Assign { target, value, .. } => {
            lvalue(Role::ProceduralTarget, target, to)?;
            expr(value, Position::Value, to)
        }
        Stmt::Postfix { name, selects, .. } => {
            target_name(Role::ProceduralTarget, *name, selects.as_slice(), to)
        }
        Stmt::Prefix { name, selects, .. } => {
            target_name(Role::ProceduralTarget, *name, selects.as_slice(), to)
        }
        Stmt::Empty { .. } => Ok(()),
    }
}

/// A statement in which statements nest at most so deep.
#[cycle(stmt)]
fn stmt(depth: u32, around: Around, one: &Stmt, to: &mut Events) -> Result<(), AllocError>
    ensures { OnOk result (to.new ≡ means.stmt_within depth around one.now to.old) }
{
    match depth.checked_sub(1) {
        Some(inner) => stmt_around(inner, around, one, to),
        None => Ok(()),
    }
}

/// The statement of a process.
pub fn process_body(body: &Stmt, to: &mut Events) -> Result<(), AllocError>
    ensures { OnOk result (to.new ≡ means.process_body body.now to.old) }
{
    let around = Around {
        looped: false,
        body: Body::Process,
    };
    stmt(NESTING_LIMIT, around, body, to)
}

/// The items of a function or a task.
pub fn routine_items(body: Body, items: &[BlockItem], to: &mut Events) -> Result<(), AllocError>
    ensures { OnOk result (to.new ≡ means.routine_items body items.now to.old) }
{
    let around = Around {
        looped: false,
        body,
    };
    block_items(NESTING_LIMIT, around, items, to)
}
