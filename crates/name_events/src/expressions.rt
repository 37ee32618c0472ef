//! What happens to names in expressions.

ghost use Rattle.std.specs.Prelude.{◌≡◌, map, OnOk, is_some};
ghost use Rattle.name_events.specs.Steps.{in_turn};
ghost use Rattle.name_events.specs.Expressions as means;

use crate::dimensions::Dimensioned;
use crate::events::{Event, Events, Role, SelectKind, SelectPath};
use crate::steps::wrong;
use std::alloc::AllocError;
use sv_source::Boxed;
use sv_tree::{
    Cast, Dimension, Expr, PackageScope, PartOperator, Pattern, PatternItem, QualifiedName, Select,
    SliceSize, ValueRange,
};

/// Where an expression stands.
#[derive(Clone, Copy)]
pub enum Position {
    /// Where a value stands.
    Value,
    /// Where a value or a type stands.
    ValueOrType,
    /// As the argument of the system function at this token.
    Argument(u32),
    /// As the key of a pattern's item.
    Key,
    /// As what a port is connected to.
    Connection,
}

/// A dimension without a second bound.
fn one_bound(opening: u32, of: Dimensioned, to: &mut Events) -> Result<(), AllocError>
    ensures { OnOk result (to.new ≡ means.one_bound opening of to.old) }
{
    match of {
        Dimensioned::Unpacked => Ok(()),
        Dimensioned::Packed => wrong(opening, to),
        Dimensioned::PackedName(name) => wrong(name, to),
    }
}

/// What kind of part select an operator makes.
fn part_kind(operator: PartOperator) -> SelectKind
    ensures { result ≡ means.part_kind operator }
{
    match operator {
        PartOperator::Range => SelectKind::Range,
        PartOperator::Up => SelectKind::Other,
        PartOperator::Down => SelectKind::Other,
    }
}

/// The kind of a select.
fn select_kind(select: &Select) -> SelectKind
    ensures { result ≡ means.select_kind select.now }
{
    match select {
        Select::Member { .. } => SelectKind::Member,
        Select::Index { .. } => SelectKind::Other,
        Select::Part { operator, .. } => part_kind(*operator),
    }
}

/// Whether selects are ranges alone.
fn all_ranges(selects: &[Select]) -> bool
    ensures { result ≡ means.all_ranges (means.kinds (map means.select_meaning selects.now)) }
{
    for select in selects {
        match select_kind(select) {
            SelectKind::Range => {}
            SelectKind::Member => return false,
            SelectKind::Other => return false,
        }
    }
    true
}

/// Ranges alone, or others.
fn ranges_or_other(ranges: bool) -> SelectPath
    ensures { result ≡ means.ranges_or_other ranges }
{
    if ranges {
        SelectPath::Ranges
    } else {
        SelectPath::Other
    }
}

/// What selects stand behind a name.
pub fn select_path(selects: &[Select]) -> SelectPath
    ensures { result ≡ means.select_path selects.now }
{
    match selects {
        [] => SelectPath::Alone,
        [first, rest @ ..] => match select_kind(first) {
            SelectKind::Member => SelectPath::Member,
            SelectKind::Range => ranges_or_other(all_ranges(rest)),
            SelectKind::Other => SelectPath::Other,
        },
    }
}

/// The first token of a select.
fn select_first(select: &Select) -> u32
    ensures { result ≡ means.select_first select.now }
{
    match select {
        Select::Member { dot, .. } => *dot,
        Select::Index { opening, .. } => *opening,
        Select::Part { opening, .. } => *opening,
    }
}

/// The first token of selects, or 0.
fn first_select(selects: &[Select]) -> u32
    ensures { result ≡ means.first_select selects.now }
{
    match selects {
        [] => 0,
        [first, ..] => select_first(first),
    }
}

/// Ranges behind a name, which is that of a packed type if it is a type's.
fn packs_under(path: SelectPath, of: u32, at: u32, to: &mut Events) -> Result<(), AllocError>
    ensures { OnOk result (to.new ≡ means.packs_under path of at to.old) }
{
    match path {
        SelectPath::Ranges => to.push(Event::Packs { of, at }),
        SelectPath::Alone => Ok(()),
        SelectPath::Member => Ok(()),
        SelectPath::Other => Ok(()),
    }
}

/// Whether a path has no select.
fn is_alone(path: SelectPath) -> bool
    ensures { result ≡ means.is_alone path }
{
    match path {
        SelectPath::Alone => true,
        SelectPath::Member => false,
        SelectPath::Ranges => false,
        SelectPath::Other => false,
    }
}

/// The package before a name.
fn package_in(scope: Option<PackageScope>) -> Option<u32>
    ensures { result ≡ means.package_in scope }
{
    match scope {
        None => None,
        Some(scope) => Some(scope.package),
    }
}

/// The use of a name with its selects.
pub fn uses_path(
    of: QualifiedName,
    role: Role,
    path: SelectPath,
    to: &mut Events,
) -> Result<(), AllocError>
    ensures { OnOk result (to.new ≡ means.uses_path of role path to.old) }
{
    to.push(Event::Uses {
        package: package_in(of.scope),
        name: of.name,
        role,
        path,
    })
}

/// As what a name is used that is the key of a pattern's item, alone or not.
fn key_role(alone: bool) -> Role
    ensures { result ≡ means.key_role alone }
{
    if alone { Role::Key } else { Role::Value }
}

/// A name without a cast behind it.
fn name_in(
    position: Position,
    of: QualifiedName,
    path: SelectPath,
    to: &mut Events,
) -> Result<(), AllocError>
    ensures { OnOk result (to.new ≡ means.name_in position of path to.old) }
{
    match position {
        Position::Value => uses_path(of, Role::Value, path, to),
        Position::ValueOrType => uses_path(of, Role::ValueOrType, path, to),
        Position::Argument(function) => uses_path(of, Role::Argument(function), path, to),
        Position::Key => {
            let role = key_role(of.scope.is_none() && is_alone(path));
            uses_path(of, role, path, to)
        }
        Position::Connection => uses_path(of, Role::Connection, path, to),
    }
}

/// A name, with a cast behind it or without.
fn named(
    has_cast: bool,
    position: Position,
    of: QualifiedName,
    path: SelectPath,
    to: &mut Events,
) -> Result<(), AllocError>
    ensures { OnOk result (to.new ≡ means.named has_cast position of path to.old) }
{
    if has_cast {
        uses_path(of, Role::ValueOrType, path, to)
    } else {
        name_in(position, of, path, to)
    }
}

/// A type by a word, without a cast behind it.
fn type_alone(at: u32, position: Position, to: &mut Events) -> Result<(), AllocError>
    ensures { OnOk result (to.new ≡ means.type_alone at position to.old) }
{
    match position {
        Position::Value => wrong(at, to),
        Position::ValueOrType => Ok(()),
        Position::Argument(function) => to.push(Event::TypeArgument { function, at }),
        Position::Key => wrong(at, to),
        Position::Connection => wrong(at, to),
    }
}

/// A type by a word, with a cast behind it or without.
fn type_word(has_cast: bool, at: u32, position: Position, to: &mut Events) -> Result<(), AllocError>
    ensures { OnOk result (to.new ≡ means.type_word has_cast at position to.old) }
{
    if has_cast {
        Ok(())
    } else {
        type_alone(at, position, to)
    }
}

/// Values.
#[cycle(expr)]
pub fn exprs(list: &[Expr], to: &mut Events) -> Result<(), AllocError>
    ensures { OnOk result (to.new ≡ means.expressions list.now to.old) }
{
    for one in list {
        expr(one, Position::Value, to)?;
    }
    Ok(())
}

/// A cast.
#[cycle(expr)]
fn cast_events(cast: &Cast, to: &mut Events) -> Result<(), AllocError>
    ensures { OnOk result (to.new ≡ means.cast_events cast.now to.old) }
{
    match cast {
        Cast::Value { value, .. } => expr(value.get(), Position::Value, to),
        Cast::Pattern { pattern, .. } => pattern_events(pattern, to),
    }
}

/// A cast, if there is one.
#[cycle(expr)]
fn maybe_cast(cast: &Option<Boxed<Cast>>, to: &mut Events) -> Result<(), AllocError>
    ensures { OnOk result (to.new ≡ means.maybe_cast cast.now to.old) }
{
    match cast {
        None => Ok(()),
        Some(cast) => cast_events(cast.get(), to),
    }
}

/// A dimension.
#[cycle(expr)]
fn dimension_events(
    of: Dimensioned,
    dimension: &Dimension,
    to: &mut Events,
) -> Result<(), AllocError>
    ensures { OnOk result (to.new ≡ means.dimension_events dimension.now of to.old) }
{
    match dimension {
        Dimension::Size { opening, size, .. } => {
            one_bound(*opening, of, to)?;
            expr(size, Position::Value, to)
        }
        Dimension::Range { left, right, .. } => {
            expr(left, Position::Value, to)?;
            expr(right, Position::Value, to)
        }
    }
}

/// Dimensions.
#[cycle(expr)]
pub fn dimensions(of: Dimensioned, list: &[Dimension], to: &mut Events) -> Result<(), AllocError>
    ensures { OnOk result (to.new ≡ means.dimensions of list.now to.old) }
{
    for dimension in list {
        dimension_events(of, dimension, to)?;
    }
    Ok(())
}

/// A select.
#[cycle(expr)]
fn select_events(select: &Select, to: &mut Events) -> Result<(), AllocError>
    ensures { OnOk result (to.new ≡ means.select_events select.now to.old) }
{
    match select {
        Select::Member { .. } => Ok(()),
        Select::Index { index, .. } => expr(index, Position::Value, to),
        Select::Part { left, right, .. } => {
            expr(left, Position::Value, to)?;
            expr(right, Position::Value, to)
        }
    }
}

/// Selects.
#[cycle(expr)]
fn selects(list: &[Select], to: &mut Events) -> Result<(), AllocError>
    ensures { OnOk result (to.new ≡ means.selects list.now to.old) }
{
    for select in list {
        select_events(select, to)?;
    }
    Ok(())
}

/// The selects behind a name.
#[cycle(expr)]
pub fn selects_behind(name: u32, list: &[Select], to: &mut Events) -> Result<(), AllocError>
    ensures { OnOk result (to.new ≡ means.selects_behind name list.now to.old) }
{
    packs_under(select_path(list), name, first_select(list), to)?;
    selects(list, to)
}

/// What is sought by `inside`.
#[cycle(expr)]
fn value_range(range: &ValueRange, to: &mut Events) -> Result<(), AllocError>
    ensures { OnOk result (to.new ≡ means.value_range_events range.now to.old) }
{
    match range {
        ValueRange::Value(value) => expr(value, Position::Value, to),
        ValueRange::Range { low, high, .. } => {
            expr(low, Position::Value, to)?;
            expr(high, Position::Value, to)
        }
    }
}

/// The items behind `inside`.
#[cycle(expr)]
fn value_ranges(list: &[ValueRange], to: &mut Events) -> Result<(), AllocError>
    ensures { OnOk result (to.new ≡ in_turn (map means.value_range_events list.now) to.old) }
{
    for range in list {
        value_range(range, to)?;
    }
    Ok(())
}

/// An item of a pattern.
#[cycle(expr)]
fn pattern_item(item: &PatternItem, to: &mut Events) -> Result<(), AllocError>
    ensures { OnOk result (to.new ≡ means.pattern_item_events item.now to.old) }
{
    match item {
        PatternItem::Default { value, .. } => expr(value, Position::Value, to),
        PatternItem::Keyed { key, value, .. } => {
            expr(key, Position::Key, to)?;
            expr(value, Position::Value, to)
        }
        PatternItem::Value(value) => expr(value, Position::Value, to),
    }
}

/// The items of a pattern.
#[cycle(expr)]
fn pattern_items(list: &[PatternItem], to: &mut Events) -> Result<(), AllocError>
    ensures { OnOk result (to.new ≡ in_turn (map means.pattern_item_events list.now) to.old) }
{
    for item in list {
        pattern_item(item, to)?;
    }
    Ok(())
}

/// A pattern.
#[cycle(expr)]
fn pattern_events(pattern: &Pattern, to: &mut Events) -> Result<(), AllocError>
    ensures { OnOk result (to.new ≡ means.pattern_events pattern.now to.old) }
{
    match pattern {
        Pattern::Items(items) => pattern_items(items.as_slice(), to),
        Pattern::Replication { count, items, .. } => {
            exprs(items.as_slice(), to)?;
            expr(count.get(), Position::Value, to)
        }
    }
}

/// The size of the slices of a stream.
#[cycle(expr)]
pub fn slice_size(size: &SliceSize, to: &mut Events) -> Result<(), AllocError>
    ensures { OnOk result (to.new ≡ means.slice_size_events size.now to.old) }
{
    match size {
        SliceSize::Decimal { .. } => Ok(()),
        SliceSize::Keyword(_) => Ok(()),
        SliceSize::Name(of) => uses_path(*of, Role::ValueOrType, SelectPath::Alone, to),
        SliceSize::Parenthesized { value, .. } => expr(value.get(), Position::Value, to),
    }
}

/// The size of the slices of a stream, if it is written.
#[cycle(expr)]
fn maybe_slice_size(size: &Option<Boxed<SliceSize>>, to: &mut Events) -> Result<(), AllocError>
    ensures { OnOk result (to.new ≡ means.maybe_slice_size size.now to.old) }
{
    match size {
        None => Ok(()),
        Some(size) => slice_size(size.get(), to),
    }
}

/// An expression.
#[cycle(expr)]
pub fn expr(expr_tree: &Expr, position: Position, to: &mut Events) -> Result<(), AllocError>
    ensures { OnOk result (to.new ≡ means.expr_events expr_tree.now position to.old) }
{
    match expr_tree {
        Expr::Conditional {
            test,
            first,
            second,
            ..
        } => {
            expr(test.get(), Position::Value, to)?;
            expr(first.get(), Position::Value, to)?;
            expr(second.get(), Position::Value, to)
        }
        Expr::Binary { left, right, .. } => {
            expr(left.get(), Position::Value, to)?;
            expr(right.get(), Position::Value, to)
        }
        Expr::Inside { value, ranges, .. } => {
            value_ranges(ranges.as_slice(), to)?;
            expr(value.get(), Position::Value, to)
        }
        Expr::Unary { operand, .. } => expr(operand.get(), Position::Value, to),
        Expr::Decimal { .. } => Ok(()),
        Expr::Sized { .. } => Ok(()),
        Expr::SizeCast { cast, .. } => cast_events(cast.get(), to),
        Expr::Based { .. } => Ok(()),
        Expr::Fill { .. } => Ok(()),
        Expr::Parenthesized { value, cast, .. } => {
            expr(value.get(), Position::Value, to)?;
            maybe_cast(cast, to)
        }
        Expr::Replication { count, items, .. } => {
            exprs(items.as_slice(), to)?;
            expr(count.get(), Position::Value, to)
        }
        Expr::Concatenation { items, .. } => exprs(items.as_slice(), to),
        Expr::Stream { size, items, .. } => {
            maybe_slice_size(size, to)?;
            exprs(items.as_slice(), to)
        }
        Expr::Pattern { pattern, .. } => pattern_events(pattern.get(), to),
        Expr::Type { of, packed, cast } => {
            type_word(cast.is_some(), of.at, position, to)?;
            dimensions(Dimensioned::Packed, packed.as_slice(), to)?;
            maybe_cast(cast, to)
        }
        Expr::SigningCast { cast, .. } => cast_events(cast.get(), to),
        Expr::SystemCall { name, argument, .. } => {
            expr(argument.get(), Position::Argument(*name), to)
        }
        Expr::Call {
            of,
            arguments,
            cast,
            ..
        } => {
            uses_path(*of, Role::Call, SelectPath::Alone, to)?;
            exprs(arguments.as_slice(), to)?;
            maybe_cast(cast, to)
        }
        Expr::Name {
            of,
            selects: path,
            cast,
        } => {
            named(
                cast.is_some(),
                position,
                *of,
                select_path(path.as_slice()),
                to,
            )?;
            selects_behind(of.name, path.as_slice(), to)?;
            maybe_cast(cast, to)
        }
    }
}
