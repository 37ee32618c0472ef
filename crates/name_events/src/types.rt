//! What happens to names in types.

ghost use Rattle.std.specs.Prelude.{◌≡◌, [], OnOk};
ghost use Rattle.name_events.specs.Types as means;

use crate::dimensions::Dimensioned;
use crate::events::{Declared, Event, Events, Packedness, Role, SelectPath};
use crate::expressions::{Position, dimensions, expr, uses_path};
use crate::steps::{declares, wrong};
use std::alloc::AllocError;
use sv_tree::{
    Aggregate, Dimension, DimensionedName, EnumBase, EnumName, Initializer, Member, Packing,
    QualifiedName, TypeText,
};

/// Whether a type is packed that has dimensions behind its name.
pub fn with_dimensions(unpacked: &[Dimension], packedness: Packedness) -> Packedness
    ensures { result ≡ means.with_dimensions unpacked.now packedness }
{
    if unpacked.is_empty() {
        packedness
    } else {
        Packedness::Unpacked
    }
}

/// A type where only a packed one may stand.
fn has_to_be_packed(packedness: Packedness, at: u32, to: &mut Events) -> Result<(), AllocError>
    ensures { OnOk result (to.new ≡ means.has_to_be_packed packedness at to.old) }
{
    match packedness {
        Packedness::Packed => Ok(()),
        Packedness::Unpacked => wrong(at, to),
        Packedness::AsNamed(of) => to.push(Event::Packs { of, at }),
    }
}

/// A type under packed dimensions.
fn under(packed: &[Dimension], packedness: Packedness, to: &mut Events) -> Result<(), AllocError>
    ensures { OnOk result (to.new ≡ means.under packed.now packedness to.old) }
{
    match packed {
        [] => Ok(()),
        [first, ..] => has_to_be_packed(packedness, first.first_token(), to),
    }
}

/// Whether a structure or union is packed.
fn packed_by(packing: Option<Packing>) -> Packedness
    ensures { result ≡ means.packed_by packing }
{
    match packing {
        None => Packedness::Unpacked,
        Some(_) => Packedness::Packed,
    }
}

/// The first word of a structure or union.
fn aggregate_part(
    aggregate: Aggregate,
    packing: Option<Packing>,
    to: &mut Events,
) -> Result<(), AllocError>
    ensures { OnOk result (to.new ≡ means.aggregate_part aggregate packing to.old) }
{
    match aggregate {
        Aggregate::Struct(_) => Ok(()),
        Aggregate::Union(at) => match packing {
            None => wrong(at, to),
            Some(_) => Ok(()),
        },
    }
}

/// The value of a declared name, if there is one.
pub fn initial_part(initial: &Option<Initializer>, to: &mut Events) -> Result<(), AllocError>
    ensures { OnOk result (to.new ≡ means.initial_part initial.now to.old) }
{
    match initial {
        None => Ok(()),
        Some(initial) => expr(&initial.value, Position::Value, to),
    }
}

/// The last token of dimensions, or the token before them where there are none.
pub fn last_of_dimensions(before: u32, dimensions: &[Dimension]) -> u32
    ensures { result ≡ means.last_of_dimensions before dimensions.now }
{
    let mut last = before;
    for dimension in dimensions {
        last = dimension.last_token();
    }
    last
}

/// The last token of a name with its dimensions and its value.
pub fn last_of_declarator(name: u32, unpacked: &[Dimension], initial: &Option<Initializer>) -> u32
    ensures { result ≡ means.last_of_declarator name unpacked.now initial.now }
{
    match initial {
        None => last_of_dimensions(name, unpacked),
        Some(initial) => initial.value.last_token(),
    }
}

/// A name of an enumeration.
fn enum_name(name: &EnumName, to: &mut Events) -> Result<(), AllocError>
    ensures { OnOk result (to.new ≡ means.enum_name name.now to.old) }
{
    initial_part(&name.value, to)?;
    let last = last_of_declarator(name.name, &[], &name.value);
    declares(Declared::EnumName, name.name, last, to)
}

/// The names of an enumeration.
fn enum_names(names: &[EnumName], to: &mut Events) -> Result<(), AllocError>
    ensures { OnOk result (to.new ≡ means.enum_names names.now to.old) }
{
    for name in names {
        enum_name(name, to)?;
    }
    Ok(())
}

/// Whether a named type with packed dimensions behind it is packed.
fn named_packedness(of: QualifiedName, packed: &[Dimension]) -> Packedness
    ensures { result ≡ means.named_packedness of packed.now }
{
    if packed.is_empty() {
        Packedness::AsNamed(of.name)
    } else {
        Packedness::Packed
    }
}

/// A named type with packed dimensions behind it.
fn named_type(of: QualifiedName, packed: &[Dimension], to: &mut Events) -> Result<(), AllocError>
    ensures { OnOk result (to.new ≡ means.named_type of packed.now to.old) }
{
    uses_path(of, Role::Type, SelectPath::Alone, to)?;
    under(packed, Packedness::AsNamed(of.name), to)?;
    dimensions(Dimensioned::PackedName(of.name), packed, to)
}

/// The type under an enumeration, if it is written.
fn enum_base(base: &Option<EnumBase>, to: &mut Events) -> Result<(), AllocError>
    ensures { OnOk result (to.new ≡ means.enum_base base.now to.old) }
{
    match base {
        None => Ok(()),
        Some(EnumBase::Keyword { packed, .. }) => {
            dimensions(Dimensioned::Packed, packed.as_slice(), to)
        }
        Some(EnumBase::Named { of, packed }) => {
            named_type(*of, packed.as_slice(), to)?;
            let packedness = named_packedness(*of, packed.as_slice());
            has_to_be_packed(packedness, of.first_token(), to)
        }
    }
}

/// A member where only a packed one may stand.
fn member_packed(
    inside: bool,
    packedness: Packedness,
    at: u32,
    to: &mut Events,
) -> Result<(), AllocError>
    ensures { OnOk result (to.new ≡ means.member_packed inside packedness at to.old) }
{
    if inside {
        has_to_be_packed(packedness, at, to)
    } else {
        Ok(())
    }
}

/// A member's name, inside a packed structure or union or another one.
fn member_name(
    inside: bool,
    packedness: Packedness,
    name: &DimensionedName,
    to: &mut Events,
) -> Result<(), AllocError>
    ensures { OnOk result (to.new ≡ means.member_name inside packedness name.now to.old) }
{
    let whole = with_dimensions(name.unpacked.as_slice(), packedness);
    member_packed(inside, whole, name.name, to)?;
    dimensions(Dimensioned::Unpacked, name.unpacked.as_slice(), to)
}

/// Members of one type.
fn member_names(
    inside: bool,
    packedness: Packedness,
    names: &[DimensionedName],
    to: &mut Events,
) -> Result<(), AllocError>
    ensures { OnOk result (to.new ≡ means.member_names inside packedness names.now to.old) }
{
    for name in names {
        member_name(inside, packedness, name, to)?;
    }
    Ok(())
}

/// Whether a type is packed, as far as its own text says.
pub fn packedness(of: &TypeText) -> Packedness
    ensures { result ≡ means.packedness of.now }
{
    match of {
        TypeText::Keyword { .. } => Packedness::Packed,
        TypeText::Structure { packing, .. } => packed_by(*packing),
        TypeText::Enumeration { .. } => Packedness::Packed,
        TypeText::Named { of, packed } => named_packedness(*of, packed.as_slice()),
        TypeText::Implicit { .. } => Packedness::Packed,
    }
}

/// Members of one type, with it.
#[cycle(type_text)]
fn member(inside: bool, member: &Member, to: &mut Events) -> Result<(), AllocError>
    ensures { OnOk result (to.new ≡ means.member_events member.now inside to.old) }
{
    type_text(&member.of, to)?;
    member_names(inside, packedness(&member.of), member.names.as_slice(), to)
}

/// Members.
#[cycle(type_text)]
fn members(inside: bool, list: &[Member], to: &mut Events) -> Result<(), AllocError>
    ensures { OnOk result (to.new ≡ means.members inside list.now to.old) }
{
    for one in list {
        member(inside, one, to)?;
    }
    Ok(())
}

/// A type.
#[cycle(type_text)]
pub fn type_text(of: &TypeText, to: &mut Events) -> Result<(), AllocError>
    ensures { OnOk result (to.new ≡ means.type_events of.now to.old) }
{
    match of {
        TypeText::Keyword { packed, .. } => {
            dimensions(Dimensioned::Packed, packed.as_slice(), to)
        }
        TypeText::Structure {
            aggregate,
            packing,
            members: list,
            packed,
            ..
        } => {
            aggregate_part(*aggregate, *packing, to)?;
            members(packing.is_some(), list.as_slice(), to)?;
            under(packed.as_slice(), packed_by(*packing), to)?;
            dimensions(Dimensioned::Packed, packed.as_slice(), to)
        }
        TypeText::Enumeration {
            base,
            names,
            packed,
            ..
        } => {
            enum_base(base, to)?;
            enum_names(names.as_slice(), to)?;
            dimensions(Dimensioned::Packed, packed.as_slice(), to)
        }
        TypeText::Named { of, packed } => named_type(*of, packed.as_slice(), to),
        TypeText::Implicit { packed, .. } => {
            dimensions(Dimensioned::Packed, packed.as_slice(), to)
        }
    }
}
