//! What happens to names in declarations: declarators, types' names, parameters and imports.

ghost use Rattle.std.specs.Prelude.{◌≡◌, false, OnOk};
ghost use Rattle.name_events.specs.Types as means;

use crate::dimensions::Dimensioned;
use crate::events::{Declared, Event, Events, Role};
use crate::expressions::{Position, dimensions, expr, select_path, selects_behind, uses_path};
use crate::steps::{declares, wrong};
use crate::types::{initial_part, last_of_declarator, packedness, type_text, with_dimensions};
use std::alloc::AllocError;
use sv_tree::{
    Declarator, Dimension, Expr, Import, ImportItem, Initializer, ParameterBody, QualifiedName,
    Select, Signing, TypeDeclaration, TypeText,
};

/// A declared name with its dimensions and its value.
pub fn named_of_type(
    what: Declared,
    name: u32,
    unpacked: &[Dimension],
    initial: &Option<Initializer>,
    to: &mut Events,
) -> Result<(), AllocError>
    ensures { OnOk result (to.new ≡ means.named_of_type what name unpacked.now initial.now to.old) }
{
    dimensions(Dimensioned::Unpacked, unpacked, to)?;
    initial_part(initial, to)?;
    declares(what, name, last_of_declarator(name, unpacked, initial), to)
}

/// A declarator.
fn declarator(what: Declared, one: &Declarator, to: &mut Events) -> Result<(), AllocError>
    ensures { OnOk result (to.new ≡ means.declarator what one.now to.old) }
{
    named_of_type(what, one.name, one.unpacked.as_slice(), &one.initial, to)
}

/// Declarators.
pub fn declarators(what: Declared, list: &[Declarator], to: &mut Events) -> Result<(), AllocError>
    ensures { OnOk result (to.new ≡ means.declarators what list.now to.old) }
{
    for one in list {
        declarator(what, one, to)?;
    }
    Ok(())
}

/// A type's name.
pub fn typedef(declaration: &TypeDeclaration, to: &mut Events) -> Result<(), AllocError>
    ensures { OnOk result (to.new ≡ means.typedef declaration.now to.old) }
{
    type_text(&declaration.of, to)?;
    let unpacked = declaration.unpacked.as_slice();
    let what = Declared::TypeName(with_dimensions(unpacked, packedness(&declaration.of)));
    named_of_type(what, declaration.name, unpacked, &None, to)
}

/// An expression that is no type, where a type has to stand.
fn no_type(value: &Expr, to: &mut Events) -> Result<(), AllocError>
    ensures { OnOk result (to.new ≡ means.no_type value.now to.old) }
{
    wrong(value.first_token(), to)?;
    expr(value, Position::Value, to)
}

/// The name of a type with dimensions behind it, in the place of an expression.
fn type_name(of: QualifiedName, selects: &[Select], to: &mut Events) -> Result<(), AllocError>
    ensures { OnOk result (to.new ≡ means.type_name of selects.now to.old) }
{
    uses_path(of, Role::Type, select_path(selects), to)?;
    selects_behind(of.name, selects, to)
}

/// An expression where a type has to stand.
fn type_value(value: &Expr, to: &mut Events) -> Result<(), AllocError>
    ensures { OnOk result (to.new ≡ means.type_value value.now to.old) }
{
    match value {
        Expr::Type { packed, cast, .. } => {
            if cast.is_none() {
                dimensions(Dimensioned::Packed, packed.as_slice(), to)
            } else {
                no_type(value, to)
            }
        }
        Expr::Name { of, selects, cast } => {
            if cast.is_none() {
                type_name(*of, selects.as_slice(), to)
            } else {
                no_type(value, to)
            }
        }
        _ => no_type(value, to),
    }
}

/// The type that a type parameter has where none is given.
fn type_initial(initial: &Option<Initializer>, to: &mut Events) -> Result<(), AllocError>
    ensures { OnOk result (to.new ≡ means.type_initial initial.now to.old) }
{
    match initial {
        None => Ok(()),
        Some(initial) => type_value(&initial.value, to),
    }
}

/// Whether neither a sign nor a dimension is written.
fn nothing_written(signing: Option<Signing>, packed: &[Dimension]) -> bool
    ensures { result ≡ means.nothing_written signing packed.now }
{
    match signing {
        None => packed.is_empty(),
        Some(_) => false,
    }
}

/// Whether a type isn't written.
fn is_unwritten(of: &TypeText) -> bool
    ensures { result ≡ means.is_unwritten of.now }
{
    match of {
        TypeText::Implicit { signing, packed } => nothing_written(*signing, packed.as_slice()),
        TypeText::Keyword { .. } => false,
        TypeText::Structure { .. } => false,
        TypeText::Enumeration { .. } => false,
        TypeText::Named { .. } => false,
    }
}

/// Whether a parameter is a type. One without word and type is one where the parameter before it is.
pub fn is_type_body(before: bool, body: &ParameterBody) -> bool
    ensures { result ≡ means.is_type_body before body.now }
{
    match body {
        ParameterBody::Type { .. } => true,
        ParameterBody::Value { of, .. } => before && is_unwritten(of),
    }
}

/// A parameter that is a type.
fn type_parameter(
    name: u32,
    unpacked: &[Dimension],
    initial: &Option<Initializer>,
    to: &mut Events,
) -> Result<(), AllocError>
    ensures { OnOk result (to.new ≡ means.type_parameter name unpacked.now initial.now to.old) }
{
    dimensions(Dimensioned::Packed, unpacked, to)?;
    type_initial(initial, to)?;
    let last = last_of_declarator(name, unpacked, initial);
    declares(Declared::TypeParameter, name, last, to)
}

/// A parameter without the word `type`.
fn value_body(
    is_type: bool,
    of: &TypeText,
    one: &Declarator,
    to: &mut Events,
) -> Result<(), AllocError>
    ensures { OnOk result (to.new ≡ means.value_body is_type of.now one.now to.old) }
{
    if is_type {
        type_parameter(one.name, one.unpacked.as_slice(), &one.initial, to)
    } else {
        type_text(of, to)?;
        declarator(Declared::Parameter, one, to)
    }
}

/// A parameter, behind one that is a type or another one.
pub fn parameter_body(before: bool, body: &ParameterBody, to: &mut Events) -> Result<(), AllocError>
    ensures { OnOk result (to.new ≡ means.parameter_body before body.now to.old) }
{
    match body {
        ParameterBody::Type { name, initial, .. } => type_parameter(*name, &[], initial, to),
        ParameterBody::Value { of, declarator } => {
            value_body(before && is_unwritten(of), of, declarator, to)
        }
    }
}

/// Parameters of a body.
pub fn parameters(bodies: &[ParameterBody], to: &mut Events) -> Result<(), AllocError>
    ensures { OnOk result (to.new ≡ means.parameters false bodies.now to.old) }
{
    let mut before = false;
    for body in bodies {
        parameter_body(before, body, to)?;
        before = is_type_body(before, body);
    }
    Ok(())
}

/// What is imported.
fn import_item(item: &ImportItem, to: &mut Events) -> Result<(), AllocError>
    ensures { OnOk result (to.new ≡ means.import_item item.now to.old) }
{
    match item {
        ImportItem::Name { package, name, .. } => to.push(Event::ImportsName {
            package: *package,
            name: *name,
        }),
        ImportItem::All { package, star, .. } => to.push(Event::ImportsAll {
            package: *package,
            star: *star,
        }),
    }
}

/// What one declaration imports.
pub fn import_items(items: &[ImportItem], to: &mut Events) -> Result<(), AllocError>
    ensures { OnOk result (to.new ≡ means.import_items items.now to.old) }
{
    for item in items {
        import_item(item, to)?;
    }
    Ok(())
}

/// Imports.
pub fn imports(list: &[Import], to: &mut Events) -> Result<(), AllocError>
    ensures { OnOk result (to.new ≡ means.imports list.now to.old) }
{
    for import in list {
        import_items(import.items.as_slice(), to)?;
    }
    Ok(())
}
