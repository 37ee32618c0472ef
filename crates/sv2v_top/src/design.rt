//! The processes of a module whose names are declared (IEEE 1800-2017 clauses 9.2, 10.3.2 and 10.4).

ghost use Rattle.std.specs.Prelude.{◌≡◌, ◌++◌, ◌^◌, ◌<◌, List, ℕ, map, true, false, IfOk, OnOk};
ghost use Rattle.sv2v_top.specs.source.Lookup.{Numbers};
ghost use Rattle.sv2v_top.specs.source.Elaboration.{primary_of, operand_of, expr_of, assign_of, stmt_of, clock_of, process_of, processes_of};

use crate::literals::bits;
use crate::name_table::Names;
use std::alloc::{AllocError, Global};
use sv_core::{
    EdgeList, EdgeOn, Expr, Operand, Primary, Process, ProcessKind, Processes, Stmt, Stmts,
};
use sv_source::{Boxed, Items, Text};

/// The signal that a name stands for, or the bits of a literal.
fn primary(
    alloc: Global,
    names: &Names,
    primary: &built_forms::Primary,
) -> Result<Primary, AllocError>
    requires { names.now.next < 2 ^ 32 }
    ensures { IfOk result (λ p. (ns : List (List ℕ)) → Numbers names.now ns → p ≡ primary_of ns primary.now) }
{
    match primary {
        built_forms::Primary::Name(name) => Ok(Primary::Signal(names.position(&name.word))),
        built_forms::Primary::Literal { digits, .. } => Ok(Primary::Literal(bits(
            alloc,
            digits.word.as_bytes(),
        )?)),
    }
}

/// An operand.
fn operand(
    alloc: Global,
    names: &Names,
    operand: &built_forms::Operand,
) -> Result<Operand, AllocError>
    requires { names.now.next < 2 ^ 32 }
    ensures { IfOk result (λ a. (ns : List (List ℕ)) → Numbers names.now ns → a ≡ operand_of ns operand.now) }
{
    let inverted = operand.inverted;
    let primary = primary(alloc, names, &operand.primary)?;
    Ok(Operand { inverted, primary })
}

/// An expression.
fn expr(alloc: Global, names: &Names, value: &built_forms::Expr) -> Result<Expr, AllocError>
    requires { names.now.next < 2 ^ 32 }
    ensures { IfOk result (λ x. (ns : List (List ℕ)) → Numbers names.now ns → x ≡ expr_of ns value.now) }
{
    match value {
        built_forms::Expr::Single(only) => Ok(Expr::Single(operand(alloc, names, only)?)),
        built_forms::Expr::Binary { op, left, right } => {
            let left = operand(alloc, names, left)?;
            let right = operand(alloc, names, right)?;
            Ok(Expr::Binary {
                op: *op,
                left,
                right,
            })
        }
    }
}

/// An assignment.
fn assignment(
    alloc: Global,
    names: &Names,
    later: bool,
    assign: &built_forms::Assign,
) -> Result<Stmt, AllocError>
    requires { names.now.next < 2 ^ 32 }
    ensures { IfOk result (λ s. (ns : List (List ℕ)) → Numbers names.now ns → s ≡ assign_of ns later assign.now) }
{
    let to = names.position(&assign.target.word);
    let value = expr(alloc, names, &assign.value)?;
    Ok(Stmt::Assign { to, value, later })
}

/// The statements of a block.
#[cycle(statement)]
fn statements(
    alloc: Global,
    names: &Names,
    later: bool,
    list: &[built_forms::Stmt],
) -> Result<Stmts, AllocError>
    requires { names.now.next < 2 ^ 32 }
    ensures { IfOk result (λ ss. (ns : List (List ℕ)) → Numbers names.now ns → ss ≡ map (stmt_of ns later) list.now) }
{
    let mut statements = Items::new(alloc);
    for stmt in list {
        statements.push(statement(alloc, names, later, stmt)?)?;
    }
    Ok(statements)
}

/// A statement; the assignments of an edge process are nonblocking.
#[cycle(statement)]
#[tactic(auto, using(crate::proofs::Levels::typed))]
fn statement(
    alloc: Global,
    names: &Names,
    later: bool,
    stmt: &built_forms::Stmt,
) -> Result<Stmt, AllocError>
    requires { names.now.next < 2 ^ 32 }
    ensures { IfOk result (λ s. (ns : List (List ℕ)) → Numbers names.now ns → s ≡ stmt_of ns later stmt.now) }
{
    match stmt {
        built_forms::Stmt::Block(list) => {
            Ok(Stmt::Block(statements(alloc, names, later, list.as_slice())?))
        }
        built_forms::Stmt::If { on, body, other } => {
            let on = expr(alloc, names, on)?;
            let body = Boxed::new(alloc, statement(alloc, names, later, body.get())?)?;
            let other = match other {
                None => None,
                Some(other) => {
                    let other = statement(alloc, names, later, other.get())?;
                    Some(Boxed::new(alloc, other)?)
                }
            };
            Ok(Stmt::If { on, body, other })
        }
        built_forms::Stmt::Assign(assign) => assignment(alloc, names, later, assign),
    }
}

/// The edge of a clock.
fn clock_edge(alloc: Global, names: &Names, clock: &Text) -> Result<EdgeList, AllocError>
    requires { names.now.next < 2 ^ 32 }
    ensures { IfOk result (λ es. (ns : List (List ℕ)) → Numbers names.now ns → es ≡ clock_of ns clock.now) }
{
    let mut edges = Items::new(alloc);
    edges.push(EdgeOn {
        signal: names.position(clock),
        rising: true,
    })?;
    Ok(edges)
}

/// Adds the process of an item, if it is one.
fn add_process(
    alloc: Global,
    names: &Names,
    item: &built_forms::Item,
    processes: &mut Processes,
) -> Result<(), AllocError>
    requires { names.now.next < 2 ^ 32 }
    ensures { OnOk result ((ns : List (List ℕ)) → Numbers names.now ns → processes.new ≡ processes.old ++ process_of ns item.now) }
{
    match item {
        built_forms::Item::Assign(assign) => processes.push(Process {
            kind: ProcessKind::Continuous,
            body: assignment(alloc, names, false, assign)?,
        }),
        built_forms::Item::Logic(_) => Ok(()),
        built_forms::Item::Comb(body) => processes.push(Process {
            kind: ProcessKind::Comb,
            body: statement(alloc, names, false, body)?,
        }),
        built_forms::Item::Edge { clock, body } => {
            let edges = clock_edge(alloc, names, &clock.word)?;
            processes.push(Process {
                kind: ProcessKind::Edges(edges),
                body: statement(alloc, names, true, body)?,
            })
        }
    }
}

/// The processes in order.
pub fn processes(
    alloc: Global,
    names: &Names,
    items: &[built_forms::Item],
) -> Result<Processes, AllocError>
    requires { names.now.next < 2 ^ 32 }
    ensures { IfOk result (λ ps. (ns : List (List ℕ)) → Numbers names.now ns → ps ≡ processes_of ns items.now) }
{
    let mut processes = Items::new(alloc);
    for item in items {
        add_process(alloc, names, item, &mut processes)?;
    }
    Ok(processes)
}
