//! Statements and items of blocks. In each function `depth` is the most nesting of those inside.

ghost use Rattle.std.specs.Prelude.{◌≡◌, ◌++◌, map, IfOk};
ghost use Rattle.expr_build.specs.Nodes.{kid as kid_of};
ghost use Rattle.expr_build.specs.Expressions.{expr_of};
ghost use Rattle.sv_build.specs.Statements as means;

use crate::declarations::parameters;
use crate::loops::{LoopControl, call, loop_control, return_statement};
use crate::lvalues::{concatenation_assigned, name_assigned, prefix};
use crate::rows;
use crate::variables::{VariableText, variable_text, variables};
use crate::words::{case_keyword, label, promise};
use expr_build::{
    NESTING_LIMIT, aggregate_text, alone, declarators, expression, expression_list, is_blank,
    keyword_text, kid, kids, kids_from, named_text, row, scoped, selects_alone, token, with_last,
};
use ll_engine::Tree;
use pairs::both;
use std::alloc::{AllocError, Global};
use sv_source::{Boxed, Items};
use sv_tree::{
    BlockItem, BlockItems, CaseItem, CaseItems, Else, QualifiedName, Stmt, UniquePriority,
};

/// A statement in its box.
#[cycle(statement)]
fn boxed(alloc: Global, depth: u32, tree: &Tree) -> Result<Boxed<Stmt>, AllocError>
    ensures { IfOk result (λ s. s ≡ (means.inside depth).stmt tree.now) }
{
    let stmt = stmt(alloc, depth, tree)?;
    Boxed::new(alloc, stmt)
}

/// `else` and its statement, where they are written.
#[cycle(statement)]
fn otherwise(alloc: Global, depth: u32, trees: &[Tree]) -> Result<Option<Boxed<Else>>, AllocError>
    ensures { IfOk result (λ e. e ≡ means.else_of (means.inside depth).stmt trees.now) }
{
    let [tree, ..] = trees else {
        return Ok(None);
    };
    let body = stmt(alloc, depth, kid(tree, 1))?;
    let keyword = token(tree, 0);
    Ok(Some(Boxed::new(alloc, Else { keyword, body })?))
}

/// An `if`.
#[cycle(statement)]
fn if_statement(
    alloc: Global,
    depth: u32,
    promise: Option<UniquePriority>,
    tree: &Tree,
) -> Result<Stmt, AllocError>
    ensures { IfOk result (λ s. s ≡ means.if_with (means.inside depth).stmt promise (expr_of (kid_of 2 tree.now)) tree.now) }
{
    let test = expression(alloc, kid(tree, 2));
    let body = boxed(alloc, depth, kid(tree, 4));
    let bodies = both(body, otherwise(alloc, depth, kids_from(tree, 5)));
    let (test, bodies) = both(test, bodies)?;
    Ok(Stmt::If {
        promise,
        keyword: token(tree, 0),
        opening: token(tree, 1),
        test,
        closing: token(tree, 3),
        body: bodies.0,
        other: bodies.1,
    })
}

/// An item of a `case`, by its values.
#[cycle(statement)]
fn values_item(alloc: Global, depth: u32, tree: &Tree) -> Result<CaseItem, AllocError>
    ensures { IfOk result (λ i. i ≡ means.values_item (means.inside depth).stmt tree.now) }
{
    let values = expression_list(alloc, kid(tree, 0));
    let (values, body) = both(values, stmt(alloc, depth, kid(tree, 2)))?;
    Ok(CaseItem::Values {
        values,
        colon: token(tree, 1),
        body,
    })
}

/// The default of a `case`.
#[cycle(statement)]
fn default_item(alloc: Global, depth: u32, tree: &Tree) -> Result<CaseItem, AllocError>
    ensures { IfOk result (λ i. i ≡ means.default_item (means.inside depth).stmt tree.now) }
{
    let body = stmt(alloc, depth, kid(tree, 2))?;
    Ok(CaseItem::Default {
        keyword: token(tree, 0),
        colon: optional_token(kid(tree, 1)),
        body,
    })
}

/// The token of a mark or a word, where it is written.
pub fn optional_token(tree: &Tree) -> Option<u32>
    ensures { result ≡ means.optional_token_of tree.now }
{
    if is_blank(tree) {
        return None;
    }
    Some(token(tree, 0))
}

/// Adds items by their values.
#[cycle(statement)]
fn add_values(
    alloc: Global,
    depth: u32,
    first: CaseItems,
    trees: &[Tree],
) -> Result<CaseItems, AllocError>
    ensures { IfOk result (λ is. is ≡ first ++ map (means.values_item (means.inside depth).stmt) trees.now) }
{
    let mut items = first;
    for tree in trees {
        let (before, last) = both(Ok(items), values_item(alloc, depth, tree))?;
        items = with_last(before, last)?;
    }
    Ok(items)
}

/// Adds a default and the items behind it, where it is written.
#[cycle(statement)]
fn add_default(
    alloc: Global,
    depth: u32,
    first: CaseItems,
    trees: &[Tree],
) -> Result<CaseItems, AllocError>
    ensures { IfOk result (λ is. is ≡ first ++ means.from_default (means.inside depth).stmt trees.now) }
{
    let [tree, rest @ ..] = trees else {
        return Ok(first);
    };
    let (before, last) = both(Ok(first), default_item(alloc, depth, tree))?;
    add_values(alloc, depth, with_last(before, last)?, rest)
}

/// The items of a `case`.
#[cycle(statement)]
fn case_items(alloc: Global, depth: u32, tree: &Tree) -> Result<CaseItems, AllocError>
    ensures { IfOk result (λ is. is ≡ means.case_items_of (means.inside depth).stmt tree.now) }
{
    if row(tree) == rows::ITEMS_FIRST {
        let first = values_item(alloc, depth, kid(tree, 0))?;
        let items = with_last(Items::new(alloc), first)?;
        let items = add_values(alloc, depth, items, kids(kid(tree, 1)))?;
        return add_default(alloc, depth, items, kids(kid(tree, 2)));
    }
    add_default(alloc, depth, Items::new(alloc), kids(tree))
}

/// A `case`.
#[cycle(statement)]
fn case_statement(
    alloc: Global,
    depth: u32,
    promise: Option<UniquePriority>,
    tree: &Tree,
) -> Result<Stmt, AllocError>
    ensures { IfOk result (λ s. s ≡ means.case_with (means.inside depth).stmt promise (expr_of (kid_of 2 tree.now)) tree.now) }
{
    let value = expression(alloc, kid(tree, 2));
    let (value, items) = both(value, case_items(alloc, depth, kid(tree, 4)))?;
    Ok(Stmt::Case {
        promise,
        keyword: case_keyword(kid(tree, 0)),
        opening: token(tree, 1),
        value,
        closing: token(tree, 3),
        items,
        end: token(tree, 5),
    })
}

/// An `if` or a `case`.
#[cycle(statement)]
fn conditional(
    alloc: Global,
    depth: u32,
    promise: Option<UniquePriority>,
    tree: &Tree,
) -> Result<Stmt, AllocError>
    ensures { IfOk result (λ s. s ≡ means.conditional_of (means.inside depth).stmt promise tree.now) }
{
    match row(tree) {
        rows::IF => if_statement(alloc, depth, promise, tree),
        _ => case_statement(alloc, depth, promise, tree),
    }
}

/// A loop, by what stands between its parentheses.
fn for_with(control: LoopControl, body: Boxed<Stmt>, tree: &Tree) -> Stmt
    ensures { result ≡ means.for_with control body tree.now }
{
    let LoopControl { first, test, step } = control;
    Stmt::For {
        keyword: token(tree, 0),
        opening: token(tree, 1),
        first,
        first_semicolon: token(tree, 3),
        test,
        test_semicolon: token(tree, 5),
        step,
        closing: token(tree, 7),
        body,
    }
}

/// A loop.
#[cycle(statement)]
fn for_loop(alloc: Global, depth: u32, tree: &Tree) -> Result<Stmt, AllocError>
    ensures { IfOk result (λ s. s ≡ means.for_of (means.inside depth).stmt tree.now) }
{
    let control = loop_control(alloc, tree);
    let (control, body) = both(control, boxed(alloc, depth, kid(tree, 8)))?;
    Ok(for_with(control, body, tree))
}

/// The items of a block.
#[cycle(statement)]
fn block_items(alloc: Global, depth: u32, trees: &[Tree]) -> Result<BlockItems, AllocError>
    ensures { IfOk result (λ is. is ≡ map (means.inside depth).item trees.now) }
{
    let mut items = Items::new(alloc);
    for tree in trees {
        let (before, last) = both(Ok(items), block_item(alloc, depth, tree))?;
        items = with_last(before, last)?;
    }
    Ok(items)
}

/// A block.
#[cycle(statement)]
fn block(alloc: Global, depth: u32, tree: &Tree) -> Result<Stmt, AllocError>
    ensures { IfOk result (λ s. s ≡ means.block_of (means.inside depth).item tree.now) }
{
    let items = block_items(alloc, depth, kids(kid(tree, 2)))?;
    Ok(Stmt::Block {
        begin: token(tree, 0),
        label: label(kid(tree, 1)),
        items,
        end: token(tree, 3),
        end_label: label(kid(tree, 4)),
    })
}

/// A statement that no name begins.
#[cycle(statement)]
fn statement_item(alloc: Global, depth: u32, tree: &Tree) -> Result<Stmt, AllocError>
    ensures { IfOk result (λ s. s ≡ means.statement_item_of (means.inside depth).stmt (means.inside depth).item tree.now) }
{
    match row(tree) {
        rows::BLOCK => block(alloc, depth, tree),
        rows::CONDITIONAL => conditional(alloc, depth, None, kid(tree, 0)),
        rows::PROMISED_CONDITIONAL => {
            let promise = Some(promise(kid(tree, 0)));
            conditional(alloc, depth, promise, kid(tree, 1))
        }
        rows::FOR => for_loop(alloc, depth, tree),
        rows::BREAK => Ok(Stmt::Break {
            keyword: token(tree, 0),
            semicolon: token(tree, 1),
        }),
        rows::CONTINUE => Ok(Stmt::Continue {
            keyword: token(tree, 0),
            semicolon: token(tree, 1),
        }),
        rows::RETURN => return_statement(alloc, tree),
        rows::CONCATENATION_ASSIGNMENT => concatenation_assigned(alloc, tree),
        rows::PREFIX => prefix(alloc, tree),
        _ => Ok(Stmt::Empty {
            semicolon: token(tree, 0),
        }),
    }
}

/// A statement that a name begins.
fn name_statement(alloc: Global, name: u32, tree: &Tree) -> Result<Stmt, AllocError>
    ensures { IfOk result (λ s. s ≡ means.name_statement name tree.now) }
{
    match row(tree) {
        rows::CALL_STATEMENT => call(alloc, alone(name), kid(tree, 0), token(tree, 1)),
        rows::SCOPED_CALL_STATEMENT => {
            let of = scoped(name, token(tree, 0), token(tree, 1));
            call(alloc, of, kid(tree, 2), token(tree, 3))
        }
        _ => name_assigned(alloc, name, kid(tree, 0), kid(tree, 1), token(tree, 2)),
    }
}

/// A statement around statements.
#[cycle(statement)]
fn stmt_around(alloc: Global, depth: u32, tree: &Tree) -> Result<Stmt, AllocError>
    ensures { IfOk result (λ s. s ≡ means.statement_of (means.inside depth).stmt (means.inside depth).item tree.now) }
{
    match row(tree) {
        rows::PLAIN_STATEMENT => statement_item(alloc, depth, kid(tree, 0)),
        _ => name_statement(alloc, token(tree, 0), kid(tree, 1)),
    }
}

/// A statement in which statements nest at most so deep.
#[cycle(statement)]
fn stmt(alloc: Global, depth: u32, tree: &Tree) -> Result<Stmt, AllocError>
    ensures { IfOk result (λ s. s ≡ (means.inside depth).stmt tree.now) }
{
    if depth == 0 {
        return Ok(Stmt::Empty { semicolon: 0 });
    }
    stmt_around(alloc, depth - 1, tree)
}

/// Variables of a block.
fn block_variables(
    automatic: Option<u32>,
    var: Option<u32>,
    text: VariableText,
    semicolon: u32,
) -> BlockItem
    ensures { result ≡ means.block_variables automatic var text semicolon }
{
    let VariableText { of, declarators } = text;
    BlockItem::Variables {
        automatic,
        var,
        of,
        declarators,
        semicolon,
    }
}

/// Variables behind `automatic`.
fn automatic_item(
    alloc: Global,
    automatic: u32,
    tree: &Tree,
    semicolon: u32,
) -> Result<BlockItem, AllocError>
    ensures { IfOk result (λ i. i ≡ means.automatic_item automatic tree.now semicolon) }
{
    match row(tree) {
        rows::PLAIN_AUTOMATIC => {
            let text = variable_text(alloc, kid(tree, 0))?;
            Ok(block_variables(Some(automatic), None, text, semicolon))
        }
        _ => {
            let text = variable_text(alloc, kid(tree, 1))?;
            let var = Some(token(tree, 0));
            Ok(block_variables(Some(automatic), var, text, semicolon))
        }
    }
}

/// An item of a block behind a name in a package.
fn scoped_item(alloc: Global, of: QualifiedName, tree: &Tree) -> Result<BlockItem, AllocError>
    ensures { IfOk result (λ i. i ≡ means.scoped_item of tree.now) }
{
    match row(tree) {
        rows::SCOPED_CALL_ITEM => {
            let stmt = call(alloc, of, kid(tree, 0), token(tree, 1))?;
            Ok(BlockItem::Statement(stmt))
        }
        _ => {
            let of = named_text(alloc, of, kid(tree, 0))?;
            let text = variables(alloc, of, kid(tree, 1))?;
            Ok(block_variables(None, None, text, token(tree, 2)))
        }
    }
}

/// An item of a block behind a name with selects.
fn selected_item(
    alloc: Global,
    name: u32,
    path: &Tree,
    tree: &Tree,
) -> Result<BlockItem, AllocError>
    ensures { IfOk result (λ i. i ≡ means.selected_item name path.now tree.now) }
{
    match row(tree) {
        rows::ASSIGNMENT_ITEM => {
            let stmt = name_assigned(alloc, name, path, kid(tree, 0), token(tree, 1))?;
            Ok(BlockItem::Statement(stmt))
        }
        _ => {
            let selects = selects_alone(alloc, path);
            let (selects, declarators) = both(selects, declarators(alloc, kid(tree, 0)))?;
            Ok(BlockItem::NamedVariables {
                of: name,
                selects,
                declarators,
                semicolon: token(tree, 1),
            })
        }
    }
}

/// An item of a block that a name begins.
fn name_item(alloc: Global, name: u32, tree: &Tree) -> Result<BlockItem, AllocError>
    ensures { IfOk result (λ i. i ≡ means.name_item name tree.now) }
{
    match row(tree) {
        rows::CALL_ITEM => {
            let stmt = call(alloc, alone(name), kid(tree, 0), token(tree, 1))?;
            Ok(BlockItem::Statement(stmt))
        }
        rows::SCOPED_ITEM => {
            let of = scoped(name, token(tree, 0), token(tree, 1));
            scoped_item(alloc, of, kid(tree, 2))
        }
        _ => selected_item(alloc, name, kid(tree, 0), kid(tree, 1)),
    }
}

/// An item of a block that is a declaration.
fn declaration_item(alloc: Global, tree: &Tree) -> Result<BlockItem, AllocError>
    ensures { IfOk result (λ i. i ≡ means.declaration_item tree.now) }
{
    match row(tree) {
        rows::PARAMETERS_ITEM => {
            let declaration = parameters(alloc, kid(tree, 0), token(tree, 1))?;
            Ok(BlockItem::Parameters(declaration))
        }
        rows::AUTOMATIC_ITEM => automatic_item(alloc, token(tree, 0), kid(tree, 1), token(tree, 2)),
        rows::KEYWORD_ITEM => {
            let of = keyword_text(alloc, kid(tree, 0), kid(tree, 1))?;
            let text = variables(alloc, of, kid(tree, 2))?;
            Ok(block_variables(None, None, text, token(tree, 3)))
        }
        rows::AGGREGATE_ITEM => {
            let of = aggregate_text(alloc, kid(tree, 0), kid(tree, 1))?;
            let text = variables(alloc, of, kid(tree, 2))?;
            Ok(block_variables(None, None, text, token(tree, 3)))
        }
        rows::VAR_ITEM => {
            let text = variable_text(alloc, kid(tree, 1))?;
            let var = Some(token(tree, 0));
            Ok(block_variables(None, var, text, token(tree, 2)))
        }
        _ => name_item(alloc, token(tree, 0), kid(tree, 1)),
    }
}

/// An item of a block around statements.
#[cycle(statement)]
fn block_item_around(alloc: Global, depth: u32, tree: &Tree) -> Result<BlockItem, AllocError>
    ensures { IfOk result (λ i. i ≡ means.block_item_of (means.inside depth).stmt (means.inside depth).item tree.now) }
{
    match row(tree) {
        rows::STATEMENT_ITEM => {
            let stmt = statement_item(alloc, depth, kid(tree, 0))?;
            Ok(BlockItem::Statement(stmt))
        }
        _ => declaration_item(alloc, tree),
    }
}

/// An item of a block in which statements nest at most so deep.
#[cycle(statement)]
fn block_item(alloc: Global, depth: u32, tree: &Tree) -> Result<BlockItem, AllocError>
    ensures { IfOk result (λ i. i ≡ (means.inside depth).item tree.now) }
{
    if depth == 0 {
        return Ok(BlockItem::Statement(Stmt::Empty { semicolon: 0 }));
    }
    block_item_around(alloc, depth - 1, tree)
}

/// A statement of a derivation.
pub fn statement(alloc: Global, tree: &Tree) -> Result<Stmt, AllocError>
    ensures { IfOk result (λ s. s ≡ means.stmt_of tree.now) }
{
    stmt(alloc, NESTING_LIMIT, tree)
}

/// The body of a function or a task.
pub fn body(alloc: Global, tree: &Tree) -> Result<BlockItems, AllocError>
    ensures { IfOk result (λ is. is ≡ means.block_items_of tree.now) }
{
    block_items(alloc, NESTING_LIMIT, kids(tree))
}
