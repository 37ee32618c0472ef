//! The core form of a design, if it has one.

ghost use Rattle.std.specs.Prelude.{◌≡◌, map, false, IfOk};
ghost use Rattle.std.specs.Option.{option_map};
ghost use Rattle.sv_types.specs.declared.expression.Form.{out-Form};
ghost use Rattle.sv_core.specs.declared.design.Expr.TheVariants.{Single};
ghost use Rattle.core_forms.specs.Forms as means;

use b4_core::{BinOp, UnOp, Vec4};
use std::alloc::{AllocError, Global};
use sv_core::{
    Design, EdgeList, EdgeOn, Expr, Operand, Primary, Process, ProcessKind, Processes, Signal,
    SignalKind, Signals, Stmt, Stmts,
};
use sv_source::{Boxed, Items, Text};
use sv_types::{Form, Instance, Local, is_narrow, width};

/// A literal of its own width.
fn literal(alloc: Global, bits: &Vec4, goes_on: bool) -> Result<Option<Primary>, AllocError>
    ensures { IfOk result (λ p. p ≡ means.literal_of bits.now goes_on) }
{
    if goes_on {
        return Ok(None);
    }
    let bits = Vec4::from_slice(alloc, bits.as_slice())?;
    Ok(Some(Primary::Literal(bits)))
}

/// A whole signal, or a literal.
fn primary(alloc: Global, e: &sv_types::Expr) -> Result<Option<Primary>, AllocError>
    ensures { IfOk result (λ p. p ≡ means.primary_of e.now) }
{
    match &e.form {
        Form::Signal(number) => Ok(Some(Primary::Signal(*number))),
        Form::Literal { bits, goes_on } => literal(alloc, bits, *goes_on),
        _ => Ok(None),
    }
}

/// A primary behind an operator.
fn inverted(alloc: Global, op: UnOp, e: &sv_types::Expr) -> Result<Option<Operand>, AllocError>
    ensures { IfOk result (λ a. a ≡ means.inverted_of op e.now) }
{
    match op {
        UnOp::Not => match primary(alloc, e)? {
            Some(primary) => Ok(Some(Operand {
                inverted: true,
                primary,
            })),
            None => Ok(None),
        },
        UnOp::Neg => Ok(None),
    }
}

/// A primary alone.
fn plain(alloc: Global, e: &sv_types::Expr) -> Result<Option<Operand>, AllocError>
    ensures { IfOk result (λ a. a ≡ means.then_one (means.operand_with false) (means.primary_of e.now)) }
{
    match primary(alloc, e)? {
        Some(primary) => Ok(Some(Operand {
            inverted: false,
            primary,
        })),
        None => Ok(None),
    }
}

/// A primary, or `~` and a primary.
fn operand(alloc: Global, e: &sv_types::Expr) -> Result<Option<Operand>, AllocError>
    ensures { IfOk result (λ a. a ≡ means.operand_of e.now) }
{
    match &e.form {
        Form::Unary(op, of) => inverted(alloc, *op, of.get()),
        _ => plain(alloc, e),
    }
}

/// An operator between two operands.
fn binary(
    alloc: Global,
    op: BinOp,
    left: &sv_types::Expr,
    right: &sv_types::Expr,
) -> Result<Option<Expr>, AllocError>
    ensures { IfOk result (λ x. x ≡ means.then_two (means.binary_with op) (means.operand_of left.now) (means.operand_of right.now)) }
{
    let Some(left) = operand(alloc, left)? else {
        return Ok(None);
    };
    let Some(right) = operand(alloc, right)? else {
        return Ok(None);
    };
    Ok(Some(Expr::Binary { op, left, right }))
}

/// An operand alone.
fn single(alloc: Global, e: &sv_types::Expr) -> Result<Option<Expr>, AllocError>
    ensures { IfOk result (λ x. x ≡ means.then_one Single (means.operand_of e.now)) }
{
    match operand(alloc, e)? {
        Some(operand) => Ok(Some(Expr::Single(operand))),
        None => Ok(None),
    }
}

/// An expression of one or two operands.
fn expr(alloc: Global, e: &sv_types::Expr) -> Result<Option<Expr>, AllocError>
    ensures { IfOk result (λ x. x ≡ means.expr_of e.now) }
{
    match &e.form {
        Form::Binary(op, left, right) => binary(alloc, *op, left.get(), right.get()),
        _ => single(alloc, e),
    }
}

/// The number of a whole signal.
fn whole(e: &sv_types::Expr) -> Option<u32>
    ensures { result ≡ means.target_in (out-Form e.now.form) }
{
    match &e.form {
        Form::Signal(number) => Some(*number),
        _ => None,
    }
}

/// The one signal that is assigned to.
fn target(to: &[sv_types::Expr]) -> Option<u32>
    ensures { result ≡ means.target_of to.now }
{
    match to {
        [] => None,
        [only] => whole(only),
        [_, _, ..] => None,
    }
}

/// An assignment.
fn assignment(
    alloc: Global,
    to: &[sv_types::Expr],
    value: &sv_types::Expr,
    later: bool,
) -> Result<Option<Stmt>, AllocError>
    ensures { IfOk result (λ s. s ≡ means.then_two (means.assign_with later) (means.target_of to.now) (means.expr_of value.now)) }
{
    let Some(to) = target(to) else {
        return Ok(None);
    };
    let Some(value) = expr(alloc, value)? else {
        return Ok(None);
    };
    Ok(Some(Stmt::Assign { to, value, later }))
}

/// Statements in order.
#[cycle(statement)]
fn statements(alloc: Global, list: &[sv_types::Stmt]) -> Result<Option<Stmts>, AllocError>
    ensures { IfOk result (λ ss. ss ≡ means.each means.stmt_of list.now) }
{
    let mut statements = Items::new(alloc);
    for item in list {
        let Some(statement) = statement(alloc, item)? else {
            return Ok(None);
        };
        statements.push(statement)?;
    }
    Ok(Some(statements))
}

/// A block, which has no locals.
#[cycle(statement)]
fn block(
    alloc: Global,
    locals: &[Local],
    body: &[sv_types::Stmt],
) -> Result<Option<Stmt>, AllocError>
    ensures { IfOk result (λ s. s ≡ means.block_of locals.now (means.each means.stmt_of body.now)) }
{
    if !locals.is_empty() {
        return Ok(None);
    }
    match statements(alloc, body)? {
        Some(statements) => Ok(Some(Stmt::Block(statements))),
        None => Ok(None),
    }
}

/// What stands behind `else`, if there is one.
#[cycle(statement)]
fn otherwise(
    alloc: Global,
    other: &Option<Boxed<sv_types::Stmt>>,
) -> Result<Option<Option<Boxed<Stmt>>>, AllocError>
    ensures { IfOk result (λ s. s ≡ means.other_of (option_map means.stmt_of other.now)) }
{
    match other {
        None => Ok(Some(None)),
        Some(other) => match statement(alloc, other.get())? {
            Some(other) => Ok(Some(Some(Boxed::new(alloc, other)?))),
            None => Ok(None),
        },
    }
}

/// An `if` of these parts, if all are there.
fn conditional(
    alloc: Global,
    on: Option<Expr>,
    body: Option<Stmt>,
    other: Option<Option<Boxed<Stmt>>>,
) -> Result<Option<Stmt>, AllocError>
    ensures { IfOk result (λ s. s ≡ means.if_of on body other) }
{
    let Some(on) = on else {
        return Ok(None);
    };
    let Some(body) = body else {
        return Ok(None);
    };
    let Some(other) = other else {
        return Ok(None);
    };
    let body = Boxed::new(alloc, body)?;
    Ok(Some(Stmt::If { on, body, other }))
}

/// A statement.
#[cycle(statement)]
#[tactic(auto, using(crate::proofs::Levels::levels))]
fn statement(alloc: Global, s: &sv_types::Stmt) -> Result<Option<Stmt>, AllocError>
    ensures { IfOk result (λ c. c ≡ means.stmt_of s.now) }
{
    match s {
        sv_types::Stmt::Block { locals, body } => block(alloc, locals.as_slice(), body.as_slice()),
        sv_types::Stmt::If { on, body, other } => {
            let body = statement(alloc, body.get())?;
            let other = otherwise(alloc, other)?;
            conditional(alloc, expr(alloc, on)?, body, other)
        }
        sv_types::Stmt::Case { .. } => Ok(None),
        sv_types::Stmt::Loop { .. } => Ok(None),
        sv_types::Stmt::Assign {
            to,
            value,
            later,
            ..
        } => assignment(alloc, to.as_slice(), value, *later),
        sv_types::Stmt::Call { .. } => Ok(None),
        sv_types::Stmt::Made { .. } => Ok(None),
        sv_types::Stmt::Break => Ok(None),
        sv_types::Stmt::Continue => Ok(None),
        sv_types::Stmt::Return => Ok(None),
    }
}

/// Edges in order.
fn edges(alloc: Global, list: &[sv_types::EdgeOn]) -> Result<EdgeList, AllocError>
    ensures { IfOk result (λ es. es ≡ map means.edge_of list.now) }
{
    let mut edges = Items::new(alloc);
    for edge in list {
        edges.push(EdgeOn {
            signal: edge.signal,
            rising: edge.rising,
        })?;
    }
    Ok(edges)
}

/// What starts a process.
fn kind(alloc: Global, kind: &sv_types::ProcessKind) -> Result<Option<ProcessKind>, AllocError>
    ensures { IfOk result (λ k. k ≡ means.kind_of kind.now) }
{
    match kind {
        sv_types::ProcessKind::Continuous => Ok(Some(ProcessKind::Continuous)),
        sv_types::ProcessKind::Link(_) => Ok(None),
        sv_types::ProcessKind::Comb => Ok(Some(ProcessKind::Comb)),
        sv_types::ProcessKind::Latch => Ok(None),
        sv_types::ProcessKind::Star => Ok(None),
        sv_types::ProcessKind::Edges(list) => {
            Ok(Some(ProcessKind::Edges(edges(alloc, list.as_slice())?)))
        }
    }
}

/// A process.
fn process(alloc: Global, p: &sv_types::Process) -> Result<Option<Process>, AllocError>
    ensures { IfOk result (λ c. c ≡ means.process_of p.now) }
{
    let Some(kind) = kind(alloc, &p.kind)? else {
        return Ok(None);
    };
    let Some(body) = statement(alloc, &p.body)? else {
        return Ok(None);
    };
    Ok(Some(Process { kind, body }))
}

/// Processes in order.
fn processes(alloc: Global, list: &[sv_types::Process]) -> Result<Option<Processes>, AllocError>
    ensures { IfOk result (λ ps. ps ≡ means.each means.process_of list.now) }
{
    let mut processes = Items::new(alloc);
    for item in list {
        let Some(process) = process(alloc, item)? else {
            return Ok(None);
        };
        processes.push(process)?;
    }
    Ok(Some(processes))
}

/// The kind of a signal.
fn signal_kind(kind: sv_types::SignalKind) -> Option<SignalKind>
    ensures { result ≡ means.signal_kind_of kind }
{
    match kind {
        sv_types::SignalKind::InputNet => Some(SignalKind::InputNet),
        sv_types::SignalKind::InputVar => None,
        sv_types::SignalKind::OutputNet => None,
        sv_types::SignalKind::OutputVar => Some(SignalKind::OutputVar),
        sv_types::SignalKind::Net => None,
        sv_types::SignalKind::Variable => Some(SignalKind::Variable),
    }
}

/// A signal, which has at most 2^22 bits.
fn signal(alloc: Global, s: &sv_types::Signal) -> Result<Option<Signal>, AllocError>
    ensures { IfOk result (λ c. c ≡ means.signal_of s.now) }
{
    if !is_narrow(&s.of) {
        return Ok(None);
    }
    let Some(kind) = signal_kind(s.kind) else {
        return Ok(None);
    };
    Ok(Some(Signal {
        path: s.path.copy(alloc)?,
        width: width(&s.of),
        kind,
    }))
}

/// Signals by number.
fn signals(alloc: Global, list: &[sv_types::Signal]) -> Result<Option<Signals>, AllocError>
    ensures { IfOk result (λ ss. ss ≡ means.each means.signal_of list.now) }
{
    let mut signals = Items::new(alloc);
    for item in list {
        let Some(signal) = signal(alloc, item)? else {
            return Ok(None);
        };
        signals.push(signal)?;
    }
    Ok(Some(signals))
}

/// The name of the top's module.
fn top_name(alloc: Global, instances: &[Instance]) -> Result<Text, AllocError>
    ensures { IfOk result (λ n. n ≡ means.top_of instances.now) }
{
    match instances {
        [] => Ok(Text::new(alloc)),
        [top, ..] => top.module.copy(alloc),
    }
}

/// The core form of a design: that of one instance with nets as inputs and variables, of blocks, `if`s and assignments to
/// whole signals, of bitwise and other operators between operands, `~`, whole signals and literals. None where the design
/// has another form or a signal of more than 2^22 bits. The error is want of memory.
pub fn core_of(alloc: Global, d: &sv_types::Design) -> Result<Option<Design>, AllocError>
    ensures { IfOk result (λ c. c ≡ means.core_of d.now) }
{
    let Some(signals) = signals(alloc, d.signals.as_slice())? else {
        return Ok(None);
    };
    let Some(processes) = processes(alloc, d.processes.as_slice())? else {
        return Ok(None);
    };
    let top = top_name(alloc, d.instances.as_slice())?;
    Ok(Some(Design {
        top,
        signals,
        processes,
    }))
}
