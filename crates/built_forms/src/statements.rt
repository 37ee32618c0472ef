//! The built forms of statements.

ghost use Rattle.std.specs.Prelude.{◌≡◌, ◌++◌, ◌||◌, is_some, IfOk};
ghost use Rattle.built_forms.specs.Built as means;

use crate::expressions::expr;
use crate::forms::{Assign, Expr, Stmt, Stmts};
use crate::words::name;
use std::alloc::{AllocError, Global};
use sv_source::{Boxed, Items, Spot, Token};
use sv_tree::{AssignmentOperator, BlockItem, Else, Lvalue, Select};

/// How deep statements nest at most in a text.
const NESTING_LIMIT: u32 = 256;

/// A name that is assigned to whole.
fn whole(
    alloc: Global,
    tokens: &[Token],
    index: u32,
    selects: &[Select],
) -> Result<Option<Spot>, AllocError>
    ensures { IfOk result (λ s. s ≡ means.target_with tokens.now index selects.now) }
{
    if selects.is_empty() {
        name(alloc, tokens, index)
    } else {
        Ok(None)
    }
}

/// What is assigned to.
fn target(alloc: Global, tokens: &[Token], target: &Lvalue) -> Result<Option<Spot>, AllocError>
    ensures { IfOk result (λ s. s ≡ means.target_of tokens.now target.now) }
{
    match target {
        Lvalue::Name { name, selects } => whole(alloc, tokens, *name, selects.as_slice()),
        Lvalue::Concatenation { .. } => Ok(None),
        Lvalue::Stream { .. } => Ok(None),
    }
}

/// An assignment, by its target and its value.
pub fn assign(
    alloc: Global,
    tokens: &[Token],
    left: &Lvalue,
    right: &sv_tree::Expr,
) -> Result<Option<Assign>, AllocError>
    ensures { IfOk result (λ a. a ≡ means.assign_of tokens.now left.now right.now) }
{
    let Some(target) = target(alloc, tokens, left)? else {
        return Ok(None);
    };
    let Some(value) = expr(alloc, tokens, right)? else {
        return Ok(None);
    };
    Ok(Some(Assign { target, value }))
}

/// Whether an operator assigns as the process does: at once, or later in an edge process.
fn assigns_so(later: bool, operator: AssignmentOperator) -> bool
    ensures { result ≡ means.assigns_so later operator }
{
    match operator {
        AssignmentOperator::Assign => !later,
        AssignmentOperator::Nonblocking => later,
        _ => false,
    }
}

/// An assignment of a process.
fn assigned(
    alloc: Global,
    tokens: &[Token],
    fits: bool,
    left: &Lvalue,
    right: &sv_tree::Expr,
) -> Result<Option<Stmt>, AllocError>
    ensures { IfOk result (λ s. s ≡ means.assigned tokens.now fits left.now right.now) }
{
    if !fits {
        return Ok(None);
    }
    match assign(alloc, tokens, left, right)? {
        Some(assign) => Ok(Some(Stmt::Assign(assign))),
        None => Ok(None),
    }
}

/// A statement of a block, in which statements nest at most so deep.
#[cycle(statement)]
fn block_item(
    alloc: Global,
    tokens: &[Token],
    later: bool,
    depth: u32,
    item: &BlockItem,
) -> Result<Option<Stmt>, AllocError>
    ensures { IfOk result (λ s. s ≡ means.block_item_of (means.stmt_within tokens.now later depth) item.now) }
{
    match item {
        BlockItem::Statement(inner) => stmt(alloc, tokens, later, depth, inner),
        BlockItem::Parameters(_) => Ok(None),
        BlockItem::Variables { .. } => Ok(None),
        BlockItem::NamedVariables { .. } => Ok(None),
    }
}

/// The statements of a block, in which statements nest at most so deep.
#[cycle(statement)]
fn block(
    alloc: Global,
    tokens: &[Token],
    later: bool,
    depth: u32,
    list: &[BlockItem],
) -> Result<Option<Stmts>, AllocError>
    ensures { IfOk result (λ ss. ss ≡ means.each (means.block_item_of (means.stmt_within tokens.now later depth)) list.now) }
{
    let mut statements = Items::new(alloc);
    for item in list {
        let Some(statement) = block_item(alloc, tokens, later, depth, item)? else {
            return Ok(None);
        };
        statements.push(statement)?;
    }
    Ok(Some(statements))
}

/// A block, which has a name or none.
#[cycle(statement)]
fn block_alone(
    alloc: Global,
    tokens: &[Token],
    later: bool,
    depth: u32,
    has_name: bool,
    list: &[BlockItem],
) -> Result<Option<Stmt>, AllocError>
    ensures { IfOk result (λ s. s ≡ means.block_with (means.stmt_within tokens.now later depth) has_name list.now) }
{
    if has_name {
        return Ok(None);
    }
    match block(alloc, tokens, later, depth, list)? {
        Some(statements) => Ok(Some(Stmt::Block(statements))),
        None => Ok(None),
    }
}

/// The statement behind `else`, if there is one.
#[cycle(statement)]
fn otherwise(
    alloc: Global,
    tokens: &[Token],
    later: bool,
    depth: u32,
    other: &Option<Boxed<Else>>,
) -> Result<Option<Option<Boxed<Stmt>>>, AllocError>
    ensures { IfOk result (λ s. s ≡ means.other_of (means.stmt_within tokens.now later depth) other.now) }
{
    match other {
        None => Ok(Some(None)),
        Some(other) => match stmt(alloc, tokens, later, depth, &other.get().body)? {
            Some(other) => Ok(Some(Some(Boxed::new(alloc, other)?))),
            None => Ok(None),
        },
    }
}

/// An `if` by its condition, its statement and what stands behind that.
#[cycle(statement)]
fn conditional(
    alloc: Global,
    tokens: &[Token],
    later: bool,
    depth: u32,
    test: &sv_tree::Expr,
    body: &sv_tree::Stmt,
    other: &Option<Boxed<Else>>,
) -> Result<Option<Stmt>, AllocError>
    ensures { IfOk result (λ s. s ≡ means.conditional_of tokens.now (means.stmt_within tokens.now later depth) test.now body.now other.now) }
{
    let Some(on) = expr(alloc, tokens, test)? else {
        return Ok(None);
    };
    let Some(body) = stmt(alloc, tokens, later, depth, body)? else {
        return Ok(None);
    };
    let Some(other) = otherwise(alloc, tokens, later, depth, other)? else {
        return Ok(None);
    };
    let body = Boxed::new(alloc, body)?;
    Ok(Some(Stmt::If { on, body, other }))
}

/// A statement inside which statements nest at most so deep.
#[cycle(statement)]
fn stmt_around(
    alloc: Global,
    tokens: &[Token],
    later: bool,
    depth: u32,
    stmt: &sv_tree::Stmt,
) -> Result<Option<Stmt>, AllocError>
    ensures { IfOk result (λ s. s ≡ means.stmt_around tokens.now later (means.stmt_within tokens.now later depth) stmt.now) }
{
    match stmt {
        sv_tree::Stmt::Block {
            label,
            items,
            end_label,
            ..
        } => {
            let has_name = label.is_some() || end_label.is_some();
            block_alone(alloc, tokens, later, depth, has_name, items.as_slice())
        }
        sv_tree::Stmt::If {
            promise,
            test,
            body,
            other,
            ..
        } => {
            if promise.is_some() {
                return Ok(None);
            }
            conditional(alloc, tokens, later, depth, test, body.get(), other)
        }
        sv_tree::Stmt::Assign {
            target,
            operator,
            value,
            ..
        } => {
            let fits = assigns_so(later, *operator);
            assigned(alloc, tokens, fits, target, value)
        }
        _ => Ok(None),
    }
}

/// A statement in which statements nest at most so deep.
#[cycle(statement)]
fn stmt(
    alloc: Global,
    tokens: &[Token],
    later: bool,
    depth: u32,
    stmt: &sv_tree::Stmt,
) -> Result<Option<Stmt>, AllocError>
    ensures { IfOk result (λ s. s ≡ means.stmt_within tokens.now later depth stmt.now) }
{
    match depth.checked_sub(1) {
        Some(inner) => stmt_around(alloc, tokens, later, inner, stmt),
        None => Ok(None),
    }
}

/// The statement of a process. The assignments of an edge process are nonblocking.
pub fn body(
    alloc: Global,
    tokens: &[Token],
    later: bool,
    body: &sv_tree::Stmt,
) -> Result<Option<Stmt>, AllocError>
    ensures { IfOk result (λ s. s ≡ means.stmt_of tokens.now later body.now) }
{
    stmt(alloc, tokens, later, NESTING_LIMIT, body)
}
