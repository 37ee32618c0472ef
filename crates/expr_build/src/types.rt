//! Types and declared names.

ghost use Rattle.std.specs.Prelude.{◌≡◌, ◌∷◌, map, IfOk};
ghost use Rattle.expr_build.specs.Nodes.{separated};
ghost use Rattle.expr_build.specs.Expressions.{dimension_of, expr_of};
ghost use Rattle.expr_build.specs.Types as means;

use crate::expressions::{NESTING_LIMIT, dimension_alone, dimensions_alone, expression};
use crate::lists::{Piece, behind, pieces, with_last};
use crate::nodes::{is_blank, kid, kids, row, token};
use crate::rows;
use crate::words::{aggregate, keyword_type, optional_signing, qualified, signing};
use ll_engine::Tree;
use pairs::both;
use std::alloc::{AllocError, Global};
use sv_source::Items;
use sv_tree::{
    Declarator, Declarators, DimensionedName, DimensionedNames, Dimensions, EnumBase, EnumName,
    EnumNames, Initializer, Member, Members, PackageScope, Packing, QualifiedName, TypeText,
};

/// Dimensions.
pub fn dims(alloc: Global, tree: &Tree) -> Result<Dimensions, AllocError>
    ensures { IfOk result (λ ds. ds ≡ means.dims_of tree.now) }
{
    dimensions_alone(alloc, kids(tree))
}

/// A first dimension and those behind it.
fn dims_behind(alloc: Global, first: &Tree, rest: &[Tree]) -> Result<Dimensions, AllocError>
    ensures { IfOk result (λ ds. ds ≡ dimension_of expr_of first.now ∷ map (dimension_of expr_of) rest.now) }
{
    let mut dimensions = with_last(Items::new(alloc), dimension_alone(alloc, first)?)?;
    for tree in rest {
        let (before, last) = both(Ok(dimensions), dimension_alone(alloc, tree))?;
        dimensions = with_last(before, last)?;
    }
    Ok(dimensions)
}

/// `= value`, where it is written.
pub fn initializer(alloc: Global, tree: &Tree) -> Result<Option<Initializer>, AllocError>
    ensures { IfOk result (λ i. i ≡ means.optional_initializer_of tree.now) }
{
    if is_blank(tree) {
        return Ok(None);
    }
    let value = expression(alloc, kid(tree, 1))?;
    Ok(Some(Initializer {
        equals: token(tree, 0),
        value,
    }))
}

/// A declared name.
pub fn declarator(alloc: Global, tree: &Tree) -> Result<Declarator, AllocError>
    ensures { IfOk result (λ d. d ≡ means.declarator_of tree.now) }
{
    let unpacked = dims(alloc, kid(tree, 1));
    let (unpacked, initial) = both(unpacked, initializer(alloc, kid(tree, 2)))?;
    Ok(Declarator {
        name: token(tree, 0),
        unpacked,
        initial,
    })
}

/// Declared names.
struct DeclaratorPiece;

impl Piece for DeclaratorPiece {
    ghost use Rattle.expr_build.specs.Types.{declarator_of};

    type Value = Declarator;

    ghost value = { declarator_of };

    fn piece(alloc: Global, tree: &Tree) -> Result<Declarator, AllocError> {
        declarator(alloc, tree)
    }
}

/// A first declared name and those behind commas.
pub fn declarators_behind(
    alloc: Global,
    first: Declarator,
    rest: &[Tree],
) -> Result<Declarators, AllocError>
    ensures { IfOk result (λ ds. ds ≡ first ∷ means.declarators_behind rest.now) }
{
    behind::<DeclaratorPiece>(alloc, first, rest)
}

/// Declared names.
pub fn declarators(alloc: Global, tree: &Tree) -> Result<Declarators, AllocError>
    ensures { IfOk result (λ ds. ds ≡ means.declarators_of tree.now) }
{
    pieces::<DeclaratorPiece>(alloc, kids(tree))
}

/// `packed` with its sign, where it is written.
fn packing(tree: &Tree) -> Option<Packing>
    ensures { result ≡ means.packing_of tree.now }
{
    if is_blank(tree) {
        return None;
    }
    Some(Packing {
        keyword: token(tree, 0),
        signing: optional_signing(kid(tree, 1)),
    })
}

/// The type under an enumeration.
fn enum_base(alloc: Global, tree: &Tree) -> Result<EnumBase, AllocError>
    ensures { IfOk result (λ b. b ≡ means.base_from tree.now) }
{
    match row(tree) {
        rows::KEYWORD_BASE => {
            let packed = dims(alloc, kid(tree, 1))?;
            Ok(EnumBase::Keyword {
                of: keyword_type(kid(tree, 0)),
                packed,
            })
        }
        _ => {
            let packed = dims(alloc, kid(tree, 2))?;
            Ok(EnumBase::Named {
                of: qualified(token(tree, 0), kid(tree, 1)),
                packed,
            })
        }
    }
}

/// The type under an enumeration, where it is written.
fn optional_enum_base(alloc: Global, tree: &Tree) -> Result<Option<EnumBase>, AllocError>
    ensures { IfOk result (λ b. b ≡ means.base_of tree.now) }
{
    if is_blank(tree) {
        return Ok(None);
    }
    Ok(Some(enum_base(alloc, tree)?))
}

/// Names of an enumeration.
struct EnumNamePiece;

impl Piece for EnumNamePiece {
    ghost use Rattle.expr_build.specs.Types.{enum_name_of};

    type Value = EnumName;

    ghost value = { enum_name_of };

    fn piece(alloc: Global, tree: &Tree) -> Result<EnumName, AllocError> {
        let value = initializer(alloc, kid(tree, 1))?;
        Ok(EnumName {
            name: token(tree, 0),
            value,
        })
    }
}

/// The names of an enumeration.
fn enum_names(alloc: Global, trees: &[Tree]) -> Result<EnumNames, AllocError>
    ensures { IfOk result (λ ns. ns ≡ separated means.enum_name_of trees.now) }
{
    pieces::<EnumNamePiece>(alloc, trees)
}

/// Names with dimensions.
struct DimensionedNamePiece;

impl Piece for DimensionedNamePiece {
    ghost use Rattle.expr_build.specs.Types.{dimensioned_name_of};

    type Value = DimensionedName;

    ghost value = { dimensioned_name_of };

    fn piece(alloc: Global, tree: &Tree) -> Result<DimensionedName, AllocError> {
        let unpacked = dims(alloc, kid(tree, 1))?;
        Ok(DimensionedName {
            name: token(tree, 0),
            unpacked,
        })
    }
}

/// Names with dimensions.
fn dimensioned_names(alloc: Global, trees: &[Tree]) -> Result<DimensionedNames, AllocError>
    ensures { IfOk result (λ ns. ns ≡ separated means.dimensioned_name_of trees.now) }
{
    pieces::<DimensionedNamePiece>(alloc, trees)
}

/// A word with dimensions.
pub fn keyword_text(alloc: Global, word: &Tree, dimensions: &Tree) -> Result<TypeText, AllocError>
    ensures { IfOk result (λ t. t ≡ means.keyword_text word.now dimensions.now) }
{
    let packed = dims(alloc, dimensions)?;
    Ok(TypeText::Keyword {
        of: keyword_type(word),
        packed,
    })
}

/// A named type with dimensions.
pub fn named_text(
    alloc: Global,
    of: QualifiedName,
    dimensions: &Tree,
) -> Result<TypeText, AllocError>
    ensures { IfOk result (λ t. t ≡ means.named_text of dimensions.now) }
{
    let packed = dims(alloc, dimensions)?;
    Ok(TypeText::Named { of, packed })
}

/// A sign with dimensions.
pub fn signed_text(alloc: Global, sign: &Tree, dimensions: &Tree) -> Result<TypeText, AllocError>
    ensures { IfOk result (λ t. t ≡ means.signed_text sign.now dimensions.now) }
{
    let packed = dims(alloc, dimensions)?;
    Ok(TypeText::Implicit {
        signing: Some(signing(sign)),
        packed,
    })
}

/// Dimensions alone, at least one.
pub fn dimensioned_text(alloc: Global, first: &Tree, rest: &Tree) -> Result<TypeText, AllocError>
    ensures { IfOk result (λ t. t ≡ means.dimensioned_text first.now rest.now) }
{
    let packed = dims_behind(alloc, first, kids(rest))?;
    Ok(TypeText::Implicit {
        signing: None,
        packed,
    })
}

/// A named type with dimensions, at least one.
pub fn named_dims_text(
    alloc: Global,
    of: QualifiedName,
    first: &Tree,
    rest: &Tree,
) -> Result<TypeText, AllocError>
    ensures { IfOk result (λ t. t ≡ means.named_dims_text of first.now rest.now) }
{
    let packed = dims_behind(alloc, first, kids(rest))?;
    Ok(TypeText::Named { of, packed })
}

/// A type that is a name alone.
pub fn bare_text(alloc: Global, name: u32) -> TypeText
    ensures { result ≡ means.bare_text name }
{
    TypeText::Named {
        of: alone(name),
        packed: Items::new(alloc),
    }
}

/// No type.
pub fn no_type(alloc: Global) -> TypeText
    ensures { result ≡ means.no_type }
{
    TypeText::Implicit {
        signing: None,
        packed: Items::new(alloc),
    }
}

/// A name without a package.
pub fn alone(name: u32) -> QualifiedName
    ensures { result ≡ means.alone name }
{
    QualifiedName { scope: None, name }
}

/// A name in a package.
pub fn scoped(package: u32, colons: u32, name: u32) -> QualifiedName
    ensures { result ≡ means.scoped «package» colons name }
{
    QualifiedName {
        scope: Some(PackageScope { package, colons }),
        name,
    }
}

/// Members of one type.
#[cycle(types)]
fn member(alloc: Global, depth: u32, tree: &Tree) -> Result<Member, AllocError>
    ensures { IfOk result (λ m. m ≡ means.member_of (means.type_within depth) tree.now) }
{
    let of = type_inside(alloc, depth, kid(tree, 0));
    let (of, names) = both(of, dimensioned_names(alloc, kids(kid(tree, 1))))?;
    Ok(Member {
        of,
        names,
        semicolon: token(tree, 2),
    })
}

/// The members of a structure or a union.
#[cycle(types)]
fn members(alloc: Global, depth: u32, trees: &[Tree]) -> Result<Members, AllocError>
    ensures { IfOk result (λ ms. ms ≡ map (means.member_of (means.type_within depth)) trees.now) }
{
    let mut members = Items::new(alloc);
    for tree in trees {
        let (before, last) = both(Ok(members), member(alloc, depth, tree))?;
        members = with_last(before, last)?;
    }
    Ok(members)
}

/// A structure or a union.
#[cycle(types)]
fn structure(
    alloc: Global,
    depth: u32,
    tree: &Tree,
    dimensions: &Tree,
) -> Result<TypeText, AllocError>
    ensures { IfOk result (λ t. t ≡ means.structure_of (means.type_within depth) tree.now dimensions.now) }
{
    let members = members(alloc, depth, kids(kid(tree, 3)));
    let (members, packed) = both(members, dims(alloc, dimensions))?;
    Ok(TypeText::Structure {
        aggregate: aggregate(kid(tree, 0)),
        packing: packing(kid(tree, 1)),
        opening: token(tree, 2),
        members,
        closing: token(tree, 4),
        packed,
    })
}

/// An enumeration.
fn enumeration(alloc: Global, tree: &Tree, dimensions: &Tree) -> Result<TypeText, AllocError>
    ensures { IfOk result (λ t. t ≡ means.enumeration_of tree.now dimensions.now) }
{
    let base = optional_enum_base(alloc, kid(tree, 1));
    let names = enum_names(alloc, kids(kid(tree, 3)));
    let (base, names) = both(base, both(names, dims(alloc, dimensions)))?;
    let (names, packed) = names;
    Ok(TypeText::Enumeration {
        keyword: token(tree, 0),
        base,
        opening: token(tree, 2),
        names,
        closing: token(tree, 4),
        packed,
    })
}

/// A structure, a union or an enumeration.
#[cycle(types)]
fn aggregated(
    alloc: Global,
    depth: u32,
    tree: &Tree,
    dimensions: &Tree,
) -> Result<TypeText, AllocError>
    ensures { IfOk result (λ t. t ≡ means.aggregated_of (means.type_within depth) tree.now dimensions.now) }
{
    match row(tree) {
        rows::STRUCTURE => structure(alloc, depth, tree, dimensions),
        _ => enumeration(alloc, tree, dimensions),
    }
}

/// A type around types.
#[cycle(types)]
fn type_around(alloc: Global, depth: u32, tree: &Tree) -> Result<TypeText, AllocError>
    ensures { IfOk result (λ t. t ≡ means.type_around (means.type_within depth) tree.now) }
{
    match row(tree) {
        rows::KEYWORD_TYPE => keyword_text(alloc, kid(tree, 0), kid(tree, 1)),
        rows::AGGREGATE_TYPE => aggregated(alloc, depth, kid(tree, 0), kid(tree, 1)),
        _ => {
            let of = qualified(token(tree, 0), kid(tree, 1));
            named_text(alloc, of, kid(tree, 2))
        }
    }
}

/// A type in which types nest at most so deep.
#[cycle(types)]
fn type_inside(alloc: Global, depth: u32, tree: &Tree) -> Result<TypeText, AllocError>
    ensures { IfOk result (λ t. t ≡ means.type_within depth tree.now) }
{
    if depth == 0 {
        return Ok(no_type(alloc));
    }
    type_around(alloc, depth - 1, tree)
}

/// The type of a derivation.
pub fn type_text(alloc: Global, tree: &Tree) -> Result<TypeText, AllocError>
    ensures { IfOk result (λ t. t ≡ means.type_of tree.now) }
{
    type_inside(alloc, NESTING_LIMIT, tree)
}

/// A structure, a union or an enumeration that stands by itself, and the dimensions behind it.
pub fn aggregate_text(alloc: Global, tree: &Tree, dimensions: &Tree) -> Result<TypeText, AllocError>
    ensures { IfOk result (λ t. t ≡ means.aggregate_text tree.now dimensions.now) }
{
    aggregated(alloc, NESTING_LIMIT, tree, dimensions)
}
