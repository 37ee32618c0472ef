//! What stands between the parentheses of a loop, and calls that stand as statements.

ghost use Rattle.std.specs.Prelude.{◌≡◌, IfOk};
ghost use Rattle.sv_build.specs.Statements as means;

use crate::rows;
use crate::words::{assignment_operator, step_operator};
use expr_build::{
    expression, expression_list, is_blank, keyword_text, kid, named_text, qualified, row, token,
};
use ll_engine::Tree;
use pairs::both;
use std::alloc::{AllocError, Global};
use sv_tree::{Expr, LoopStart, LoopStep, QualifiedName, Stmt, TypeText};

/// What stands between the parentheses of a loop.
#[derive(Drop)]
pub struct LoopControl {
    /// The variable and its first value.
    pub first: LoopStart,
    /// Whether there is another turn.
    pub test: Expr,
    /// What is done behind each turn.
    pub step: LoopStep,
}

/// A loop's variable, with its first value.
fn loop_start_with(
    alloc: Global,
    of: TypeText,
    name: u32,
    equals: u32,
    value: &Tree,
) -> Result<LoopStart, AllocError>
    ensures { IfOk result (λ s. s ≡ means.loop_start of name equals value.now) }
{
    let (of, value) = both(Ok(of), expression(alloc, value))?;
    Ok(LoopStart {
        of,
        name,
        equals,
        value,
    })
}

/// A loop's variable, with its first value.
fn loop_start(alloc: Global, tree: &Tree) -> Result<LoopStart, AllocError>
    ensures { IfOk result (λ s. s ≡ means.loop_start_of tree.now) }
{
    match row(tree) {
        rows::KEYWORD_LOOP => {
            let of = keyword_text(alloc, kid(tree, 0), kid(tree, 1))?;
            loop_start_with(alloc, of, token(tree, 2), token(tree, 3), kid(tree, 4))
        }
        _ => {
            let name = qualified(token(tree, 0), kid(tree, 1));
            let of = named_text(alloc, name, kid(tree, 2))?;
            loop_start_with(alloc, of, token(tree, 3), token(tree, 4), kid(tree, 5))
        }
    }
}

/// A loop's step that its name begins.
fn name_step(alloc: Global, name: u32, tree: &Tree) -> Result<LoopStep, AllocError>
    ensures { IfOk result (λ s. s ≡ means.name_step name tree.now) }
{
    let operator = kid(tree, 0);
    match row(tree) {
        rows::ASSIGNMENT => {
            let value = expression(alloc, kid(tree, 1))?;
            Ok(LoopStep::Assign {
                name,
                operator: assignment_operator(row(operator)),
                at: token(operator, 0),
                value,
            })
        }
        _ => Ok(LoopStep::Postfix {
            name,
            operator: step_operator(row(operator)),
            at: token(operator, 0),
        }),
    }
}

/// A loop's step.
pub fn loop_step(alloc: Global, tree: &Tree) -> Result<LoopStep, AllocError>
    ensures { IfOk result (λ s. s ≡ means.loop_step_of tree.now) }
{
    match row(tree) {
        rows::ASSIGNMENT_STEP => name_step(alloc, token(tree, 0), kid(tree, 1)),
        _ => {
            let operator = kid(tree, 0);
            Ok(LoopStep::Prefix {
                operator: step_operator(row(operator)),
                at: token(operator, 0),
                name: token(tree, 1),
            })
        }
    }
}

/// What stands between the parentheses of a loop.
pub fn loop_control(alloc: Global, tree: &Tree) -> Result<LoopControl, AllocError>
    ensures { IfOk result (λ c. c ≡ means.loop_control_of tree.now) }
{
    let first = loop_start(alloc, kid(tree, 2));
    let test = expression(alloc, kid(tree, 4));
    let (first, turn) = both(first, both(test, loop_step(alloc, kid(tree, 6))))?;
    let (test, step) = turn;
    Ok(LoopControl { first, test, step })
}

/// An expression, where it is written.
pub fn optional_expression(alloc: Global, tree: &Tree) -> Result<Option<Expr>, AllocError>
    ensures { IfOk result (λ e. e ≡ means.optional_expr_of tree.now) }
{
    if is_blank(tree) {
        return Ok(None);
    }
    Ok(Some(expression(alloc, kid(tree, 0))?))
}

/// A call that stands as a statement.
pub fn call(
    alloc: Global,
    of: QualifiedName,
    tree: &Tree,
    semicolon: u32,
) -> Result<Stmt, AllocError>
    ensures { IfOk result (λ s. s ≡ means.call_of of tree.now semicolon) }
{
    let arguments = expression_list(alloc, kid(tree, 1))?;
    Ok(Stmt::Call {
        of,
        opening: token(tree, 0),
        arguments,
        closing: token(tree, 2),
        semicolon,
    })
}

/// `return`, with its value where that is written.
pub fn return_statement(alloc: Global, tree: &Tree) -> Result<Stmt, AllocError>
    ensures { IfOk result (λ s. s ≡ means.return_of tree.now) }
{
    let value = optional_expression(alloc, kid(tree, 1))?;
    Ok(Stmt::Return {
        keyword: token(tree, 0),
        value,
        semicolon: token(tree, 2),
    })
}
