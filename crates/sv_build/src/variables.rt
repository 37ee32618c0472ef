//! Variables and nets.

ghost use Rattle.std.specs.Prelude.{◌≡◌, IfOk};
ghost use Rattle.sv_build.specs.Declarations as means;

use crate::rows;
use crate::words::net_or_variable;
use expr_build::{
    aggregate_text, alone, declarators, declarators_behind, dimensioned_text, dims, initializer,
    is_blank, keyword_text, kid, kids_from, named_text, no_type, row, scoped, signed_text, token,
};
use ll_engine::Tree;
use pairs::both;
use std::alloc::{AllocError, Global};
use sv_tree::{DataDeclaration, Declarator, Declarators, NetOrVariable, TypeText};

/// A type and the names that have it.
#[derive(Drop)]
pub struct VariableText {
    /// The type.
    pub of: TypeText,
    /// The names.
    pub declarators: Declarators,
}

/// Variables of this type.
pub fn variables(alloc: Global, of: TypeText, tree: &Tree) -> Result<VariableText, AllocError>
    ensures { IfOk result (λ v. v ≡ means.variables_of of tree.now) }
{
    let (of, declarators) = both(Ok(of), declarators(alloc, tree))?;
    Ok(VariableText { of, declarators })
}

/// A name with its dimensions and its value.
pub fn declared(
    alloc: Global,
    name: u32,
    dimensions: &Tree,
    initial: &Tree,
) -> Result<Declarator, AllocError>
    ensures { IfOk result (λ d. d ≡ means.declared name dimensions.now initial.now) }
{
    let unpacked = dims(alloc, dimensions);
    let (unpacked, initial) = both(unpacked, initializer(alloc, initial))?;
    Ok(Declarator {
        name,
        unpacked,
        initial,
    })
}

/// Variables without a type.
fn untyped_variables(alloc: Global, first: u32, tree: &Tree) -> Result<VariableText, AllocError>
    ensures { IfOk result (λ v. v ≡ means.untyped_variables first tree.now) }
{
    let declarator = declared(alloc, first, kid(tree, 0), kid(tree, 2))?;
    let declarators = declarators_behind(alloc, declarator, kids_from(tree, 3))?;
    Ok(VariableText {
        of: no_type(alloc),
        declarators,
    })
}

/// Variables of a named type.
fn typed_variables(alloc: Global, first: u32, tree: &Tree) -> Result<VariableText, AllocError>
    ensures { IfOk result (λ v. v ≡ means.typed_variables first tree.now) }
{
    let name = kid(tree, 1);
    let declarator = declared(alloc, token(name, 0), kid(name, 1), kid(tree, 2))?;
    let declarators = declarators_behind(alloc, declarator, kids_from(tree, 3));
    let of = named_text(alloc, alone(first), kid(tree, 0));
    let (declarators, of) = both(declarators, of)?;
    Ok(VariableText { of, declarators })
}

/// Variables that a name begins.
fn named_variables(alloc: Global, first: u32, tree: &Tree) -> Result<VariableText, AllocError>
    ensures { IfOk result (λ v. v ≡ means.named_variables_of first tree.now) }
{
    if row(tree) == rows::SCOPED_VARIABLE_TYPE {
        let name = scoped(first, token(tree, 0), token(tree, 1));
        let of = named_text(alloc, name, kid(tree, 2))?;
        return variables(alloc, of, kid(tree, 3));
    }
    if is_blank(kid(tree, 1)) {
        untyped_variables(alloc, first, tree)
    } else {
        typed_variables(alloc, first, tree)
    }
}

/// Variables behind `wire` or `var`.
pub fn variable_text(alloc: Global, tree: &Tree) -> Result<VariableText, AllocError>
    ensures { IfOk result (λ v. v ≡ means.variable_text_of tree.now) }
{
    match row(tree) {
        rows::KEYWORD_VARIABLE => {
            let of = keyword_text(alloc, kid(tree, 0), kid(tree, 1))?;
            variables(alloc, of, kid(tree, 2))
        }
        rows::AGGREGATE_VARIABLE => {
            let of = aggregate_text(alloc, kid(tree, 0), kid(tree, 1))?;
            variables(alloc, of, kid(tree, 2))
        }
        rows::SIGNED_VARIABLE => {
            let of = signed_text(alloc, kid(tree, 0), kid(tree, 1))?;
            variables(alloc, of, kid(tree, 2))
        }
        rows::DIMENSIONED_VARIABLE => {
            let of = dimensioned_text(alloc, kid(tree, 0), kid(tree, 1))?;
            variables(alloc, of, kid(tree, 2))
        }
        _ => named_variables(alloc, token(tree, 0), kid(tree, 1)),
    }
}

/// The declaration of variables or nets.
pub fn data_with(net: Option<NetOrVariable>, text: VariableText, semicolon: u32) -> DataDeclaration
    ensures { result ≡ means.data_with net text semicolon }
{
    let VariableText { of, declarators } = text;
    DataDeclaration {
        net,
        of,
        declarators,
        semicolon,
    }
}

/// Variables or nets of a module, with the `;` behind them.
pub fn data(alloc: Global, tree: &Tree, semicolon: u32) -> Result<DataDeclaration, AllocError>
    ensures { IfOk result (λ d. d ≡ means.data_of tree.now semicolon) }
{
    match row(tree) {
        rows::KEYWORD_DATA => {
            let of = keyword_text(alloc, kid(tree, 0), kid(tree, 1))?;
            let text = variables(alloc, of, kid(tree, 2))?;
            Ok(data_with(None, text, semicolon))
        }
        rows::AGGREGATE_DATA => {
            let of = aggregate_text(alloc, kid(tree, 0), kid(tree, 1))?;
            let text = variables(alloc, of, kid(tree, 2))?;
            Ok(data_with(None, text, semicolon))
        }
        _ => {
            let text = variable_text(alloc, kid(tree, 1))?;
            let net = Some(net_or_variable(kid(tree, 0)));
            Ok(data_with(net, text, semicolon))
        }
    }
}
