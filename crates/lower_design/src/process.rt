//! Processes and what they run.

ghost use Rattle.std.specs.Prelude.{◌≡◌, [], ◌∷◌, map, None, IfOk};
ghost use Rattle.std.specs.Option.{option_map};
ghost use Rattle.sv_core.specs.declared.design.ProcessKind.TheVariants.{Continuous};
ghost use Rattle.v_tree.specs.declared.statements.VBranch.TheVariants.{Statement};
ghost use Rattle.v_tree.specs.declared.statements.VStmt.TheVariants.{Block};
ghost use Rattle.lower_design.specs.Shape.{name_of};
ghost use Rattle.lower_design.specs.Translatable.{KindFits};
ghost use Rattle.lower_design.specs.Lowered.{alone, branch, driver_of, lines, lowered_edge, lowered_expr, lowered_operand, lowered_primary, lowered_process, lowered_stmt, operator_of, reads_trigger, triggered, whole_name, whole_target};

use b4_core::{BinOp, Vec4};
use std::alloc::{AllocError, Global};
use sv_core::{EdgeOn, Expr, Operand, Primary, Process, ProcessKind, Signal, Stmt};
use sv_source::{Boxed, Items, Text};
use v_tree::{
    VBinaryOp, VBranch, VEdge, VEdges, VExpr, VLval, VPrim, VProcess, VSensitivity, VStmt, VStmts,
    VUnaryOp,
};

/// The printed name of a signal, and no bytes where there is no such signal.
fn name(alloc: Global, signals: &[Signal], number: u32) -> Result<Text, AllocError>
    ensures { IfOk result (λ n. n ≡ name_of signals.now number) }
{
    match signals.get(number as usize) {
        Some(signal) => signal.path.copy(alloc),
        None => Ok(Text::new(alloc)),
    }
}

/// A whole name.
fn whole_name(alloc: Global, name: Text) -> VPrim
    ensures { result ≡ whole_name name }
{
    let sels = Items::new(alloc);
    VPrim::Name { name, sels }
}

/// A whole name as a target.
fn whole_target(alloc: Global, name: Text) -> VLval
    ensures { result ≡ whole_target name }
{
    let sels = Items::new(alloc);
    VLval::Name { name, sels }
}

/// A primary.
fn lower_primary(alloc: Global, signals: &[Signal], primary: &Primary) -> Result<VPrim, AllocError>
    ensures { IfOk result (λ p. p ≡ lowered_primary signals.now primary.now) }
{
    Ok(match primary {
        Primary::Signal(number) => whole_name(alloc, name(alloc, signals, *number)?),
        Primary::Literal(bits) => VPrim::Number(Vec4::from_slice(alloc, bits.as_slice())?),
    })
}

/// An operand of an operator.
fn lower_operand(alloc: Global, signals: &[Signal], operand: &Operand) -> Result<VPrim, AllocError>
    ensures { IfOk result (λ p. p ≡ lowered_operand signals.now operand.now) }
{
    let of = lower_primary(alloc, signals, &operand.primary)?;
    if !operand.inverted {
        return Ok(of);
    }
    let negated = VExpr::Unary {
        op: VUnaryOp::Not,
        of,
    };
    Ok(VPrim::Paren(Boxed::new(alloc, negated)?))
}

/// The operator between two operands.
fn operator(op: BinOp) -> VBinaryOp
    ensures { result ≡ operator_of op }
{
    match op {
        BinOp::And => VBinaryOp::And,
        BinOp::Or => VBinaryOp::Or,
        BinOp::Xor => VBinaryOp::Xor,
        BinOp::Xnor => VBinaryOp::Xnor,
        BinOp::Add => VBinaryOp::Add,
        BinOp::Sub => VBinaryOp::Sub,
        BinOp::Mul => VBinaryOp::Mul,
        BinOp::Div => VBinaryOp::Div,
        BinOp::Rem => VBinaryOp::Rem,
    }
}

/// An expression.
fn lower_expr(alloc: Global, signals: &[Signal], expr: &Expr) -> Result<VExpr, AllocError>
    ensures { IfOk result (λ e. e ≡ lowered_expr signals.now expr.now) }
{
    match expr {
        Expr::Single(operand) => {
            let of = lower_primary(alloc, signals, &operand.primary)?;
            if operand.inverted {
                Ok(VExpr::Unary {
                    op: VUnaryOp::Not,
                    of,
                })
            } else {
                Ok(VExpr::Prim(of))
            }
        }
        Expr::Binary { op, left, right } => {
            let left = lower_operand(alloc, signals, left)?;
            let right = lower_operand(alloc, signals, right)?;
            Ok(VExpr::Binary {
                op: operator(*op),
                left,
                right,
            })
        }
    }
}

/// A block without a name.
fn block(stmts: VStmts) -> VStmt
    ensures { result ≡ Block None stmts }
{
    VStmt::Block { label: None, stmts }
}

/// The statements of a block without a name, or a statement alone.
fn lines(alloc: Global, stmt: VStmt) -> Result<VStmts, AllocError>
    ensures { IfOk result (λ ss. ss ≡ lines stmt) }
{
    match stmt {
        VStmt::Block { label: None, stmts } => Ok(stmts),
        other => {
            let mut stmts = Items::new(alloc);
            stmts.push(other)?;
            Ok(stmts)
        }
    }
}

/// A branch that is a block of these statements.
fn branch_of(alloc: Global, stmts: VStmts) -> Result<VBranch, AllocError>
    ensures { IfOk result (λ b. b ≡ Statement (Block None stmts)) }
{
    let block = block(stmts);
    Ok(VBranch::Statement(Boxed::new(alloc, block)?))
}

/// A branch that is a block: the statement itself if it is one, and else a block of it alone.
fn block_of(alloc: Global, stmt: VStmt) -> Result<VBranch, AllocError>
    ensures { IfOk result (λ b. b ≡ branch stmt) }
{
    let stmts = lines(alloc, stmt)?;
    branch_of(alloc, stmts)
}

/// A statement. Each branch of an `if` becomes a block, so that each `else` belongs to its own `if`.
#[cycle(statement)]
fn lower_stmt(alloc: Global, signals: &[Signal], stmt: &Stmt) -> Result<VStmt, AllocError>
    ensures { IfOk result (λ s. s ≡ lowered_stmt signals.now stmt.now) }
{
    match stmt {
        Stmt::Block(stmts) => Ok(block(lower_each(alloc, signals, stmts.as_slice())?)),
        Stmt::If { on, body, other } => {
            let on = lower_expr(alloc, signals, on)?;
            let then = lower_branch(alloc, signals, body.get())?;
            let other = match other {
                Some(other) => Some(lower_branch(alloc, signals, other.get())?),
                None => None,
            };
            Ok(VStmt::If { on, then, other })
        }
        Stmt::Assign { to, value, later } => {
            let target = whole_target(alloc, name(alloc, signals, *to)?);
            let value = lower_expr(alloc, signals, value)?;
            Ok(VStmt::Assign {
                target,
                value,
                later: *later,
            })
        }
    }
}

/// Statements in order.
#[cycle(statement)]
fn lower_each(alloc: Global, signals: &[Signal], stmts: &[Stmt]) -> Result<VStmts, AllocError>
    ensures { IfOk result (λ ss. ss ≡ map (lowered_stmt signals.now) stmts.now) }
{
    let mut lowered = Items::new(alloc);
    for stmt in stmts {
        lowered.push(lower_stmt(alloc, signals, stmt)?)?;
    }
    Ok(lowered)
}

/// A statement as a block.
#[cycle(statement)]
fn lower_branch(alloc: Global, signals: &[Signal], stmt: &Stmt) -> Result<VBranch, AllocError>
    ensures { IfOk result (λ b. b ≡ branch (lowered_stmt signals.now stmt.now)) }
{
    let stmt = lower_stmt(alloc, signals, stmt)?;
    block_of(alloc, stmt)
}

/// `if (sv2v_t) ;`
fn trigger_line(alloc: Global) -> Result<VStmt, AllocError>
    ensures { IfOk result (λ s. s ≡ reads_trigger) }
{
    let name = whole_name(alloc, Text::from_bytes(alloc, b"sv2v_t")?);
    Ok(VStmt::If {
        on: VExpr::Prim(name),
        then: VBranch::Empty,
        other: None,
    })
}

/// Statements behind one that reads the trigger.
fn behind_trigger(alloc: Global, stmts: VStmts) -> Result<VStmts, AllocError>
    ensures { IfOk result (λ ss. ss ≡ reads_trigger ∷ stmts) }
{
    let line = trigger_line(alloc)?;
    let mut all = Items::new(alloc);
    all.push(line)?;
    all.append(stmts)?;
    Ok(all)
}

/// A statement as a block that reads the trigger first.
fn with_trigger(alloc: Global, stmt: VStmt) -> Result<VBranch, AllocError>
    ensures { IfOk result (λ b. b ≡ triggered stmt) }
{
    let own = lines(alloc, stmt)?;
    let stmts = behind_trigger(alloc, own)?;
    branch_of(alloc, stmts)
}

/// The edges of an `always`.
fn lower_edges(alloc: Global, signals: &[Signal], edges: &[EdgeOn]) -> Result<VEdges, AllocError>
    ensures { IfOk result (λ es. es ≡ map (lowered_edge signals.now) edges.now) }
{
    let mut lowered = Items::new(alloc);
    for edge in edges {
        lowered.push(VEdge {
            rising: edge.rising,
            name: name(alloc, signals, edge.signal)?,
        })?;
    }
    Ok(lowered)
}

/// A process: an `assign` for a continuous assignment, `always @*` for an `always_comb`, `always` with edges for an
/// `always_ff`.
pub fn lower_process(
    alloc: Global,
    signals: &[Signal],
    process: &Process,
) -> Result<VProcess, AllocError>
    requires { KindFits signals.now process.now.kind process.now.body }
    ensures { IfOk result (λ lowered. lowered ≡ lowered_process signals.now process.now) }
{
    match &process.kind {
        ProcessKind::Continuous => lower_driver(alloc, signals, &process.body),
        ProcessKind::Comb => {
            let stmt = lower_stmt(alloc, signals, &process.body)?;
            Ok(VProcess::Always {
                on: VSensitivity::Star,
                body: with_trigger(alloc, stmt)?,
            })
        }
        ProcessKind::Edges(edges) => {
            let edges = lower_edges(alloc, signals, edges.as_slice())?;
            Ok(VProcess::Always {
                on: VSensitivity::Edges(edges),
                body: lower_branch(alloc, signals, &process.body)?,
            })
        }
    }
}

/// A continuous assignment.
fn lower_driver(alloc: Global, signals: &[Signal], body: &Stmt) -> Result<VProcess, AllocError>
    requires { KindFits signals.now Continuous body.now }
    ensures { IfOk result (λ lowered. lowered ≡ driver_of signals.now body.now) }
{
    match body {
        Stmt::Assign { to, value, .. } => Ok(VProcess::Assign {
            target: whole_target(alloc, name(alloc, signals, *to)?),
            value: lower_expr(alloc, signals, value)?,
        }),
        Stmt::Block(_) | Stmt::If { .. } => unreachable!(),
    }
}
