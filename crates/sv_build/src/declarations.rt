//! Parameters, imports and names of types.

ghost use Rattle.std.specs.Prelude.{◌≡◌, IfOk};
ghost use Rattle.sv_build.specs.Declarations as means;

use crate::rows;
use crate::words::parameter_keyword;
use expr_build::{
    Piece, alone, bare_text, declarator, dimensioned_text, dims, initializer, keyword_text, kid,
    kids, named_dims_text, named_text, no_type, pieces, row, scoped, signed_text, token, type_text,
};
use ll_engine::Tree;
use pairs::both;
use std::alloc::{AllocError, Global};
use sv_source::Items;
use sv_tree::{
    Declarator, Import, ImportItem, ParameterBody, ParameterDeclaration, TypeDeclaration, TypeText,
};

/// A parameter with this type.
fn value_parameter(alloc: Global, of: TypeText, tree: &Tree) -> Result<ParameterBody, AllocError>
    ensures { IfOk result (λ p. p ≡ means.value_parameter of tree.now) }
{
    let (of, declarator) = both(Ok(of), declarator(alloc, tree))?;
    Ok(ParameterBody::Value { of, declarator })
}

/// A parameter without a type.
fn untyped_parameter(alloc: Global, name: u32, tree: &Tree) -> Result<ParameterBody, AllocError>
    ensures { IfOk result (λ p. p ≡ means.untyped_parameter name tree.now) }
{
    let initial = initializer(alloc, tree)?;
    let declarator = Declarator {
        name,
        unpacked: Items::new(alloc),
        initial,
    };
    Ok(ParameterBody::Value {
        of: no_type(alloc),
        declarator,
    })
}

/// A parameter that a name begins.
fn named_parameter(alloc: Global, first: u32, tree: &Tree) -> Result<ParameterBody, AllocError>
    ensures { IfOk result (λ p. p ≡ means.named_parameter_of first tree.now) }
{
    match row(tree) {
        rows::SCOPED_PARAMETER_TYPE => {
            let name = scoped(first, token(tree, 0), token(tree, 1));
            let of = named_text(alloc, name, kid(tree, 2))?;
            value_parameter(alloc, of, kid(tree, 3))
        }
        rows::PARAMETER_TYPE_DIMENSIONS => {
            let of = named_dims_text(alloc, alone(first), kid(tree, 0), kid(tree, 1))?;
            value_parameter(alloc, of, kid(tree, 2))
        }
        rows::PARAMETER_DECLARATOR => value_parameter(alloc, bare_text(alloc, first), kid(tree, 0)),
        _ => untyped_parameter(alloc, first, kid(tree, 0)),
    }
}

/// A parameter that stands for a type.
fn type_parameter(alloc: Global, tree: &Tree) -> Result<ParameterBody, AllocError>
    ensures { IfOk result (λ p. p ≡ means.type_parameter_of tree.now) }
{
    let initial = initializer(alloc, kid(tree, 2))?;
    Ok(ParameterBody::Type {
        keyword: token(tree, 0),
        name: token(tree, 1),
        initial,
    })
}

/// A parameter.
pub fn parameter_body(alloc: Global, tree: &Tree) -> Result<ParameterBody, AllocError>
    ensures { IfOk result (λ p. p ≡ means.parameter_body_of tree.now) }
{
    match row(tree) {
        rows::TYPE_PARAMETER => type_parameter(alloc, tree),
        rows::KEYWORD_PARAMETER => {
            let of = keyword_text(alloc, kid(tree, 0), kid(tree, 1))?;
            value_parameter(alloc, of, kid(tree, 2))
        }
        rows::SIGNED_PARAMETER => {
            let of = signed_text(alloc, kid(tree, 0), kid(tree, 1))?;
            value_parameter(alloc, of, kid(tree, 2))
        }
        rows::DIMENSIONED_PARAMETER => {
            let of = dimensioned_text(alloc, kid(tree, 0), kid(tree, 1))?;
            value_parameter(alloc, of, kid(tree, 2))
        }
        _ => named_parameter(alloc, token(tree, 0), kid(tree, 1)),
    }
}

/// Parameters.
struct ParameterPiece;

impl Piece for ParameterPiece {
    ghost use Rattle.sv_build.specs.Declarations.{parameter_body_of};

    type Value = ParameterBody;

    ghost value = { parameter_body_of };

    fn piece(alloc: Global, tree: &Tree) -> Result<ParameterBody, AllocError> {
        parameter_body(alloc, tree)
    }
}

/// Parameters, with the `;` behind them.
pub fn parameters(
    alloc: Global,
    tree: &Tree,
    semicolon: u32,
) -> Result<ParameterDeclaration, AllocError>
    ensures { IfOk result (λ p. p ≡ means.parameters_of tree.now semicolon) }
{
    let bodies = pieces::<ParameterPiece>(alloc, kids(kid(tree, 1)))?;
    Ok(ParameterDeclaration {
        keyword: parameter_keyword(kid(tree, 0)),
        bodies,
        semicolon,
    })
}

/// Names that are imported, or all.
struct ImportPiece;

impl Piece for ImportPiece {
    ghost use Rattle.sv_build.specs.Declarations.{import_item_of};

    type Value = ImportItem;

    ghost value = { import_item_of };

    fn piece(_alloc: Global, tree: &Tree) -> Result<ImportItem, AllocError> {
        let package = token(tree, 0);
        let colons = token(tree, 1);
        let imported = kid(tree, 2);
        match row(imported) {
            rows::IMPORTED_NAME => Ok(ImportItem::Name {
                package,
                colons,
                name: token(imported, 0),
            }),
            _ => Ok(ImportItem::All {
                package,
                colons,
                star: token(imported, 0),
            }),
        }
    }
}

/// An import.
pub fn import(alloc: Global, tree: &Tree) -> Result<Import, AllocError>
    ensures { IfOk result (λ i. i ≡ means.import_of tree.now) }
{
    let items = pieces::<ImportPiece>(alloc, kids(kid(tree, 1)))?;
    Ok(Import {
        keyword: token(tree, 0),
        items,
        semicolon: token(tree, 2),
    })
}

/// A name of a type.
pub fn typedef(alloc: Global, tree: &Tree) -> Result<TypeDeclaration, AllocError>
    ensures { IfOk result (λ t. t ≡ means.typedef_of tree.now) }
{
    let of = type_text(alloc, kid(tree, 1));
    let (of, unpacked) = both(of, dims(alloc, kid(tree, 3)))?;
    Ok(TypeDeclaration {
        keyword: token(tree, 0),
        of,
        name: token(tree, 2),
        unpacked,
        semicolon: token(tree, 4),
    })
}
