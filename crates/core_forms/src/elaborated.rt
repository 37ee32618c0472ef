//! A core design as a design of the elaborated language.

ghost use Rattle.std.specs.Prelude.{◌≡◌, ◌≤◌, ◌^◌, ◌++◌, ◌∷◌, [], true, length, map, IfOk, OnOk};
ghost use Rattle.sv_types.specs.declared.expression.Form.TheVariants as FormV;
ghost use Rattle.core_forms.specs.Typed as means;

use b4_core::{BinOp, UnOp, Vec4};
use pairs::both;
use std::alloc::{AllocError, Global};
use sv_core::{Operand, Primary, Signal};
use sv_source::{Boxed, Items, Place, Spot, Text};
use sv_types::{
    Design, EdgeList, EdgeOn, Expr, Form, Instance, InstancePort, InstancePorts, Instances,
    Process, ProcessKind, Processes, SignalKind, Signals, Stmt, Stmts, SvType, default_of,
};

/// A place that isn't known.
fn nowhere(alloc: Global) -> Spot
    ensures { result ≡ means.nowhere }
{
    let place = Place {
        file: 0,
        line: 0,
        col: 0,
    };
    Spot {
        at: 0,
        place,
        word: Text::new(alloc),
    }
}

/// The type of a vector of four-state bits.
fn vector(alloc: Global, width: usize) -> Result<SvType, AllocError>
    ensures { IfOk result (λ t. t ≡ means.vector_of width) }
{
    let bit = SvType::Scalar {
        four: true,
        signed: false,
    };
    if width == 1 {
        return Ok(bit);
    }
    let left = width.min(4_194_304).saturating_sub(1) as i64;
    Ok(SvType::PackedArray {
        left,
        right: 0,
        signed: false,
        item: Boxed::new(alloc, bit)?,
    })
}

/// An expression of so many bits.
fn node(alloc: Global, width: usize, form: Form) -> Result<Expr, AllocError>
    ensures { IfOk result (λ e. e ≡ means.node width form) }
{
    let of = vector(alloc, width)?;
    let spot = nowhere(alloc);
    Ok(Expr { of, spot, form })
}

/// The bits of a primary.
fn bits_of(signals: &[Signal], primary: &Primary) -> usize
    ensures { result ≡ means.bits_of signals.now primary.now }
{
    match primary {
        Primary::Signal(number) => match signals.get(*number as usize) {
            Some(signal) => signal.width as usize,
            None => 0,
        },
        Primary::Literal(bits) => bits.len(),
    }
}

/// What a primary is.
fn form(alloc: Global, primary: &Primary) -> Result<Form, AllocError>
    ensures { IfOk result (λ f. f ≡ means.typed_form primary.now) }
{
    match primary {
        Primary::Signal(number) => Ok(Form::Signal(*number)),
        Primary::Literal(bits) => Ok(Form::Literal {
            bits: Vec4::from_slice(alloc, bits.as_slice())?,
            goes_on: false,
        }),
    }
}

/// A primary.
fn primary(alloc: Global, signals: &[Signal], primary: &Primary) -> Result<Expr, AllocError>
    ensures { IfOk result (λ e. e ≡ means.typed_primary signals.now primary.now) }
{
    node(alloc, bits_of(signals, primary), form(alloc, primary)?)
}

/// The bitwise negation of an expression.
fn inverted(alloc: Global, width: usize, e: Expr) -> Result<Expr, AllocError>
    ensures { IfOk result (λ n. n ≡ means.inverted_if true width e) }
{
    let form = Form::Unary(UnOp::Not, Boxed::new(alloc, e)?);
    node(alloc, width, form)
}

/// An operand.
fn operand(alloc: Global, signals: &[Signal], operand: &Operand) -> Result<Expr, AllocError>
    ensures { IfOk result (λ e. e ≡ means.typed_operand signals.now operand.now) }
{
    let plain = primary(alloc, signals, &operand.primary)?;
    if !operand.inverted {
        return Ok(plain);
    }
    inverted(alloc, bits_of(signals, &operand.primary), plain)
}

/// An operator between two expressions.
fn binary(
    alloc: Global,
    width: usize,
    op: BinOp,
    left: Expr,
    right: Expr,
) -> Result<Expr, AllocError>
    ensures { IfOk result (λ e. e ≡ means.node width (FormV.Binary op left right)) }
{
    let (left, right) = both(Boxed::new(alloc, left), Boxed::new(alloc, right))?;
    node(alloc, width, Form::Binary(op, left, right))
}

/// An expression.
fn expr(alloc: Global, signals: &[Signal], e: &sv_core::Expr) -> Result<Expr, AllocError>
    ensures { IfOk result (λ x. x ≡ means.typed_expr signals.now e.now) }
{
    match e {
        sv_core::Expr::Single(only) => operand(alloc, signals, only),
        sv_core::Expr::Binary { op, left, right } => {
            let width = bits_of(signals, &left.primary).max(bits_of(signals, &right.primary));
            let (left, right) = both(
                operand(alloc, signals, left),
                operand(alloc, signals, right),
            )?;
            binary(alloc, width, *op, left, right)
        }
    }
}

/// An assignment to a whole signal.
fn assignment(
    alloc: Global,
    signals: &[Signal],
    to: u32,
    value: &sv_core::Expr,
    later: bool,
) -> Result<Stmt, AllocError>
    ensures { IfOk result (λ s. s ≡ means.assigned signals.now to value.now later) }
{
    let (to, value) = both(
        primary(alloc, signals, &Primary::Signal(to)),
        expr(alloc, signals, value),
    )?;
    let mut targets = Items::new(alloc);
    targets.push(to)?;
    let spot = nowhere(alloc);
    Ok(Stmt::Assign {
        to: targets,
        value,
        later,
        spot,
    })
}

/// Statements in order.
#[cycle(typed)]
#[tactic(auto, using(crate::proofs::TypedLevels::levels))]
fn statements(
    alloc: Global,
    signals: &[Signal],
    list: &[sv_core::Stmt],
) -> Result<Stmts, AllocError>
    ensures { IfOk result (λ ss. ss ≡ map (means.typed_stmt signals.now) list.now) }
{
    let mut statements = Items::new(alloc);
    for item in list {
        statements.push(statement(alloc, signals, item)?)?;
    }
    Ok(statements)
}

/// A statement as it stands in an `if`.
#[cycle(typed)]
#[tactic(auto, using(crate::proofs::TypedLevels::levels))]
fn boxed(alloc: Global, signals: &[Signal], s: &sv_core::Stmt) -> Result<Boxed<Stmt>, AllocError>
    ensures { IfOk result (λ b. b ≡ means.typed_stmt signals.now s.now) }
{
    Boxed::new(alloc, statement(alloc, signals, s)?)
}

/// A statement.
#[cycle(typed)]
#[tactic(auto, using(crate::proofs::TypedLevels::levels))]
fn statement(alloc: Global, signals: &[Signal], s: &sv_core::Stmt) -> Result<Stmt, AllocError>
    ensures { IfOk result (λ t. t ≡ means.typed_stmt signals.now s.now) }
{
    match s {
        sv_core::Stmt::Block(list) => {
            let body = statements(alloc, signals, list.as_slice())?;
            let locals = Items::new(alloc);
            Ok(Stmt::Block { locals, body })
        }
        sv_core::Stmt::If { on, body, other } => {
            let body = boxed(alloc, signals, body.get())?;
            let other = match other {
                None => None,
                Some(other) => Some(boxed(alloc, signals, other.get())?),
            };
            let on = expr(alloc, signals, on)?;
            Ok(Stmt::If { on, body, other })
        }
        sv_core::Stmt::Assign { to, value, later } => {
            assignment(alloc, signals, *to, value, *later)
        }
    }
}

/// Edges in order.
fn edges(alloc: Global, list: &[sv_core::EdgeOn]) -> Result<EdgeList, AllocError>
    ensures { IfOk result (λ es. es ≡ map means.typed_edge list.now) }
{
    let mut edges = Items::new(alloc);
    for edge in list {
        edges.push(EdgeOn {
            signal: edge.signal,
            rising: edge.rising,
            spot: nowhere(alloc),
        })?;
    }
    Ok(edges)
}

/// What starts a process.
fn kind(alloc: Global, kind: &sv_core::ProcessKind) -> Result<ProcessKind, AllocError>
    ensures { IfOk result (λ k. k ≡ means.typed_kind kind.now) }
{
    match kind {
        sv_core::ProcessKind::Continuous => Ok(ProcessKind::Continuous),
        sv_core::ProcessKind::Comb => Ok(ProcessKind::Comb),
        sv_core::ProcessKind::Edges(list) => {
            Ok(ProcessKind::Edges(edges(alloc, list.as_slice())?))
        }
    }
}

/// A process.
fn process(alloc: Global, signals: &[Signal], p: &sv_core::Process) -> Result<Process, AllocError>
    ensures { IfOk result (λ t. t ≡ means.typed_process signals.now p.now) }
{
    let (kind, body) = both(kind(alloc, &p.kind), statement(alloc, signals, &p.body))?;
    let spot = nowhere(alloc);
    Ok(Process {
        instance: 1,
        kind,
        body,
        spot,
    })
}

/// Processes in order.
fn processes(
    alloc: Global,
    signals: &[Signal],
    list: &[sv_core::Process],
) -> Result<Processes, AllocError>
    ensures { IfOk result (λ ps. ps ≡ map (means.typed_process signals.now) list.now) }
{
    let mut processes = Items::new(alloc);
    for item in list {
        processes.push(process(alloc, signals, item)?)?;
    }
    Ok(processes)
}

/// The kind of a signal.
fn signal_kind(kind: sv_core::SignalKind) -> SignalKind
    ensures { result ≡ means.typed_signal_kind kind }
{
    match kind {
        sv_core::SignalKind::InputNet => SignalKind::InputNet,
        sv_core::SignalKind::OutputVar => SignalKind::OutputVar,
        sv_core::SignalKind::Variable => SignalKind::Variable,
    }
}

/// A signal of at most 2^22 bits.
#[tactic(auto, using(crate::proofs::Vectors::vector_narrow))]
fn signal(alloc: Global, s: &Signal) -> Result<sv_types::Signal, AllocError>
    ensures { IfOk result (λ t. t ≡ means.typed_signal s.now) }
{
    let of = vector(alloc, s.width as usize)?;
    let (path, initial) = both(s.path.copy(alloc), default_of(alloc, &of))?;
    Ok(sv_types::Signal {
        instance: 1,
        path,
        of,
        kind: signal_kind(s.kind),
        initial,
        declared: false,
        spot: nowhere(alloc),
    })
}

/// Signals by number.
fn signals(alloc: Global, list: &[Signal]) -> Result<Signals, AllocError>
    ensures { IfOk result (λ ss. ss ≡ map means.typed_signal list.now) }
{
    let mut signals = Items::new(alloc);
    for item in list {
        signals.push(signal(alloc, item)?)?;
    }
    Ok(signals)
}

/// Adds the port of a signal, if it is one.
fn add_port(ports: &mut InstancePorts, number: u32, s: &Signal) -> Result<(), AllocError>
    ensures { OnOk result (ports.new ≡ ports.old ++ means.port_if s.now.kind number []) }
{
    match s.kind {
        sv_core::SignalKind::InputNet => ports.push(InstancePort::Signal(number)),
        sv_core::SignalKind::OutputVar => ports.push(InstancePort::Signal(number)),
        sv_core::SignalKind::Variable => Ok(()),
    }
}

/// The ports, in order.
fn ports(alloc: Global, list: &[Signal]) -> Result<InstancePorts, AllocError>
    requires { length list.now ≤ 2 ^ 32 }
    ensures { IfOk result (λ ps. ps ≡ means.ports_from 0 list.now) }
{
    let mut ports = Items::new(alloc);
    for (number, item) in list.iter().enumerate() {
        add_port(&mut ports, number as u32, item)?;
    }
    Ok(ports)
}

/// The one instance, the top.
fn instances(alloc: Global, d: &sv_core::Design) -> Result<Instances, AllocError>
    requires { length d.now.signals ≤ 2 ^ 32 }
    ensures { IfOk result (λ is. is ≡ means.top_instance d.now ∷ []) }
{
    let (module, ports) = both(d.top.copy(alloc), ports(alloc, d.signals.as_slice()))?;
    let mut instances = Items::new(alloc);
    instances.push(Instance {
        parent: 0,
        name: Text::new(alloc),
        module,
        binding: 0,
        interface: false,
        ports,
    })?;
    Ok(instances)
}

/// A core design of at most 2^32 signals as a design of the elaborated language: one instance with the number 1, whose types
/// are `logic` and `logic [n:0]` of at most 2^22 bits. Where its parts stood isn't known. The error is want of memory.
pub fn typed(alloc: Global, d: &sv_core::Design) -> Result<Design, AllocError>
    requires { length d.now.signals ≤ 2 ^ 32 }
    ensures { IfOk result (λ t. t ≡ means.typed d.now) }
{
    let (instances, signals) = both(instances(alloc, d), signals(alloc, d.signals.as_slice()))?;
    let processes = processes(alloc, d.signals.as_slice(), d.processes.as_slice())?;
    let functions = Items::new(alloc);
    Ok(Design {
        instances,
        signals,
        processes,
        functions,
    })
}
