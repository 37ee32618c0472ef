//! What is assigned, and assignments. In each function `depth` is the most nesting of the concatenations inside.

ghost use Rattle.std.specs.Prelude.{◌≡◌, ◌∷◌, IfOk};
ghost use Rattle.expr_build.specs.Nodes.{behind_marks, separated};
ghost use Rattle.sv_build.specs.Statements as means;

use crate::rows;
use crate::words::{assignment_operator, step_operator};
use expr_build::{
    NESTING_LIMIT, expression, kid, kids, row, selects_alone, slice_size_alone, stream_operator,
    token, with_last,
};
use ll_engine::Tree;
use pairs::both;
use std::alloc::{AllocError, Global};
use sv_source::Items;
use sv_tree::{Lvalue, Lvalues, Stmt};

/// A name with selects.
fn name_lvalue(alloc: Global, name: u32, tree: &Tree) -> Result<Lvalue, AllocError>
    ensures { IfOk result (λ l. l ≡ means.name_lvalue name tree.now) }
{
    let selects = selects_alone(alloc, tree)?;
    Ok(Lvalue::Name { name, selects })
}

/// A target.
#[cycle(lvalue)]
fn lvalue_inside(alloc: Global, depth: u32, tree: &Tree) -> Result<Lvalue, AllocError>
    ensures { IfOk result (λ l. l ≡ means.lvalue_with (means.concatenated_within depth) tree.now) }
{
    match row(tree) {
        rows::NAME_LVALUE => name_lvalue(alloc, token(tree, 0), kid(tree, 1)),
        _ => concatenated(alloc, depth, kid(tree, 0)),
    }
}

/// The targets of a concatenation.
#[cycle(lvalue)]
fn lvalues(alloc: Global, depth: u32, trees: &[Tree]) -> Result<Lvalues, AllocError>
    ensures { IfOk result (λ ls. ls ≡ separated (means.lvalue_with (means.concatenated_within depth)) trees.now) }
{
    match trees {
        [] => Ok(Items::new(alloc)),
        [first, rest @ ..] => {
            let first = lvalue_inside(alloc, depth, first)?;
            lvalues_behind(alloc, depth, first, rest)
        }
    }
}

/// A first target and those behind commas.
#[cycle(lvalue)]
fn lvalues_behind(
    alloc: Global,
    depth: u32,
    first: Lvalue,
    rest: &[Tree],
) -> Result<Lvalues, AllocError>
    ensures { IfOk result (λ ls. ls ≡ first ∷ behind_marks (means.lvalue_with (means.concatenated_within depth)) rest.now) }
{
    let mut lvalues = with_last(Items::new(alloc), first)?;
    for next in rest {
        let (before, last) = both(Ok(lvalues), lvalue_inside(alloc, depth, kid(next, 1)))?;
        lvalues = with_last(before, last)?;
    }
    Ok(lvalues)
}

/// A stream of targets, behind its `{`.
#[cycle(lvalue)]
fn lvalue_stream(alloc: Global, depth: u32, opening: u32, tree: &Tree) -> Result<Lvalue, AllocError>
    ensures { IfOk result (λ l. l ≡ means.lvalue_stream_of (means.concatenated_within depth) opening tree.now) }
{
    let operator = kid(tree, 0);
    let size = slice_size_alone(alloc, kid(tree, 1));
    let (size, targets) = both(size, lvalues(alloc, depth, kids(kid(tree, 3))))?;
    Ok(Lvalue::Stream {
        opening,
        operator: stream_operator(row(operator)),
        at: token(operator, 0),
        size,
        inner_opening: token(tree, 2),
        targets,
        inner_closing: token(tree, 4),
        closing: token(tree, 5),
    })
}

/// A concatenation of targets, behind its `{`.
#[cycle(lvalue)]
fn concatenated_from(
    alloc: Global,
    depth: u32,
    opening: u32,
    tree: &Tree,
) -> Result<Lvalue, AllocError>
    ensures { IfOk result (λ l. l ≡ means.concatenated_from (means.concatenated_within depth) opening tree.now) }
{
    match row(tree) {
        rows::PLAIN_LVALUES => {
            let targets = lvalues(alloc, depth, kids(kid(tree, 0)))?;
            Ok(Lvalue::Concatenation {
                opening,
                targets,
                closing: token(tree, 1),
            })
        }
        _ => lvalue_stream(alloc, depth, opening, tree),
    }
}

/// A concatenation of targets in which concatenations nest at most so deep.
#[cycle(lvalue)]
fn concatenated(alloc: Global, depth: u32, tree: &Tree) -> Result<Lvalue, AllocError>
    ensures { IfOk result (λ l. l ≡ means.concatenated_within depth tree.now) }
{
    if depth == 0 {
        return Ok(Lvalue::Name {
            name: 0,
            selects: Items::new(alloc),
        });
    }
    concatenated_from(alloc, depth - 1, token(tree, 0), kid(tree, 1))
}

/// What is assigned.
pub fn lvalue(alloc: Global, tree: &Tree) -> Result<Lvalue, AllocError>
    ensures { IfOk result (λ l. l ≡ means.lvalue_of tree.now) }
{
    lvalue_inside(alloc, NESTING_LIMIT, tree)
}

/// An assignment, by its operator and its value.
fn assigned(
    alloc: Global,
    target: Lvalue,
    operator: &Tree,
    value: &Tree,
    semicolon: u32,
) -> Result<Stmt, AllocError>
    ensures { IfOk result (λ s. s ≡ means.assigned target operator.now value.now semicolon) }
{
    let (target, value) = both(Ok(target), expression(alloc, value))?;
    Ok(Stmt::Assign {
        target,
        operator: assignment_operator(row(operator)),
        at: token(operator, 0),
        value,
        semicolon,
    })
}

/// An assignment to a name, or a step of it.
pub fn name_assigned(
    alloc: Global,
    name: u32,
    path: &Tree,
    tree: &Tree,
    semicolon: u32,
) -> Result<Stmt, AllocError>
    ensures { IfOk result (λ s. s ≡ means.name_assigned name path.now tree.now semicolon) }
{
    let operator = kid(tree, 0);
    match row(tree) {
        rows::ASSIGNMENT => {
            let target = name_lvalue(alloc, name, path)?;
            assigned(alloc, target, operator, kid(tree, 1), semicolon)
        }
        _ => {
            let selects = selects_alone(alloc, path)?;
            Ok(Stmt::Postfix {
                name,
                selects,
                operator: step_operator(row(operator)),
                at: token(operator, 0),
                semicolon,
            })
        }
    }
}

/// An assignment to a concatenation.
pub fn concatenation_assigned(alloc: Global, tree: &Tree) -> Result<Stmt, AllocError>
    ensures { IfOk result (λ s. s ≡ means.concatenation_assigned tree.now) }
{
    let target = concatenated(alloc, NESTING_LIMIT, kid(tree, 0))?;
    assigned(alloc, target, kid(tree, 1), kid(tree, 2), token(tree, 3))
}

/// A step with its operator before the name.
pub fn prefix(alloc: Global, tree: &Tree) -> Result<Stmt, AllocError>
    ensures { IfOk result (λ s. s ≡ means.prefix_of tree.now) }
{
    let operator = kid(tree, 0);
    let selects = selects_alone(alloc, kid(tree, 2))?;
    Ok(Stmt::Prefix {
        operator: step_operator(row(operator)),
        at: token(operator, 0),
        name: token(tree, 1),
        selects,
        semicolon: token(tree, 3),
    })
}
