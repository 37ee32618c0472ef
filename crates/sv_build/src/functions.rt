//! Functions and tasks.

ghost use Rattle.std.specs.Prelude.{◌≡◌, IfOk};
ghost use Rattle.sv_build.specs.Items as means;

use crate::ports::port_text;
use crate::rows;
use crate::statements::body;
use crate::words::{formal_direction, label, lifetime};
use expr_build::{
    Piece, alone, dimensioned_text, dims, is_blank, keyword_text, kid, kids, named_text, no_type,
    pieces, row, scoped, signed_text, token,
};
use ll_engine::Tree;
use pairs::both;
use std::alloc::{AllocError, Global};
use sv_source::Items;
use sv_tree::{Dimensions, Formal, FormalList, Function, FunctionResult, Task, TypeText};

/// What a function gives, its name, and the dimensions behind a name without a type.
#[derive(Drop)]
pub struct FunctionName {
    /// What it gives.
    pub of: FunctionResult,
    /// The name.
    pub name: u32,
    /// The dimensions.
    pub unpacked: Dimensions,
}

/// Formal arguments.
struct FormalPiece;

impl Piece for FormalPiece {
    ghost use Rattle.sv_build.specs.Items.{formal_of};

    type Value = Formal;

    ghost value = { formal_of };

    fn piece(alloc: Global, tree: &Tree) -> Result<Formal, AllocError> {
        let text = port_text(alloc, kid(tree, 1))?;
        Ok(Formal {
            direction: formal_direction(kid(tree, 0)),
            text,
        })
    }
}

/// `(formals)`, where it is written.
fn formal_list(alloc: Global, tree: &Tree) -> Result<Option<FormalList>, AllocError>
    ensures { IfOk result (λ f. f ≡ means.formals_of tree.now) }
{
    if is_blank(tree) {
        return Ok(None);
    }
    let formals = pieces::<FormalPiece>(alloc, kids(kid(tree, 1)))?;
    Ok(Some(FormalList {
        opening: token(tree, 0),
        formals,
        closing: token(tree, 2),
    }))
}

/// A function's name behind its type.
fn typed_name(alloc: Global, of: TypeText, name: u32) -> FunctionName
    ensures { result ≡ means.typed_name of name }
{
    FunctionName {
        of: FunctionResult::Value(of),
        name,
        unpacked: Items::new(alloc),
    }
}

/// A function's name, by a name and dimensions, and perhaps a second name.
fn function_from(alloc: Global, first: u32, tree: &Tree) -> Result<FunctionName, AllocError>
    ensures { IfOk result (λ f. f ≡ means.function_from first tree.now) }
{
    let name = kid(tree, 1);
    if is_blank(name) {
        let unpacked = dims(alloc, kid(tree, 0))?;
        return Ok(FunctionName {
            of: FunctionResult::Value(no_type(alloc)),
            name: first,
            unpacked,
        });
    }
    let of = named_text(alloc, alone(first), kid(tree, 0))?;
    Ok(typed_name(alloc, of, token(name, 0)))
}

/// A function's name, that a name begins.
fn named_function(alloc: Global, first: u32, tree: &Tree) -> Result<FunctionName, AllocError>
    ensures { IfOk result (λ f. f ≡ means.named_function_of first tree.now) }
{
    match row(tree) {
        rows::SCOPED_FUNCTION_TYPE => {
            let name = scoped(first, token(tree, 0), token(tree, 1));
            let of = named_text(alloc, name, kid(tree, 2))?;
            Ok(typed_name(alloc, of, token(tree, 3)))
        }
        _ => function_from(alloc, first, tree),
    }
}

/// What a function gives, and its name.
fn function_name(alloc: Global, tree: &Tree) -> Result<FunctionName, AllocError>
    ensures { IfOk result (λ f. f ≡ means.function_name_of tree.now) }
{
    match row(tree) {
        rows::KEYWORD_FUNCTION => {
            let of = keyword_text(alloc, kid(tree, 0), kid(tree, 1))?;
            Ok(typed_name(alloc, of, token(tree, 2)))
        }
        rows::SIGNED_FUNCTION => {
            let of = signed_text(alloc, kid(tree, 0), kid(tree, 1))?;
            Ok(typed_name(alloc, of, token(tree, 2)))
        }
        rows::DIMENSIONED_FUNCTION => {
            let of = dimensioned_text(alloc, kid(tree, 0), kid(tree, 1))?;
            Ok(typed_name(alloc, of, token(tree, 2)))
        }
        rows::NAMED_FUNCTION => named_function(alloc, token(tree, 0), kid(tree, 1)),
        _ => Ok(FunctionName {
            of: FunctionResult::Void {
                keyword: token(tree, 0),
            },
            name: token(tree, 1),
            unpacked: Items::new(alloc),
        }),
    }
}

/// A function, by its name.
fn function_with(alloc: Global, named: FunctionName, tree: &Tree) -> Result<Function, AllocError>
    ensures { IfOk result (λ f. f ≡ means.function_with named tree.now) }
{
    let formals = formal_list(alloc, kid(tree, 3));
    let inside = both(formals, body(alloc, kid(tree, 5)));
    let (named, inside) = both(Ok(named), inside)?;
    let FunctionName { of, name, unpacked } = named;
    let (formals, items) = inside;
    Ok(Function {
        keyword: token(tree, 0),
        lifetime: lifetime(kid(tree, 1)),
        of,
        name,
        unpacked,
        formals,
        semicolon: token(tree, 4),
        items,
        end: token(tree, 6),
        end_label: label(kid(tree, 7)),
    })
}

/// A function.
pub fn function(alloc: Global, tree: &Tree) -> Result<Function, AllocError>
    ensures { IfOk result (λ f. f ≡ means.function_of tree.now) }
{
    let named = function_name(alloc, kid(tree, 2))?;
    function_with(alloc, named, tree)
}

/// A task.
pub fn task(alloc: Global, tree: &Tree) -> Result<Task, AllocError>
    ensures { IfOk result (λ t. t ≡ means.task_of tree.now) }
{
    let formals = formal_list(alloc, kid(tree, 3));
    let (formals, items) = both(formals, body(alloc, kid(tree, 5)))?;
    Ok(Task {
        keyword: token(tree, 0),
        lifetime: lifetime(kid(tree, 1)),
        name: token(tree, 2),
        formals,
        semicolon: token(tree, 4),
        items,
        end: token(tree, 6),
        end_label: label(kid(tree, 7)),
    })
}
