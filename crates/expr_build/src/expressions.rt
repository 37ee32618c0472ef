//! Expressions. In each function `depth` is the most nesting of the expressions inside.

ghost use Rattle.std.specs.Prelude.{◌≡◌, ◌≤◌, ◌∷◌, map, IfOk};
ghost use Rattle.expr_build.specs.Nodes.{behind_marks};
ghost use Rattle.expr_build.specs.Expressions as means;

use crate::lists::with_last;
use crate::nodes::{is_blank, kid, kids, kids_from, mark, row, token};
use crate::rows;
use crate::words::{
    binary_operator, keyword_type, part_operator, qualified, signing, stream_operator,
    unary_operator,
};
use ll_engine::Tree;
use pairs::both;
use std::alloc::{AllocError, Global};
use sv_source::{Boxed, Items};
use sv_tree::{
    Cast, Dimension, Dimensions, Expr, Exprs, Pattern, PatternItem, PatternItems, QualifiedName,
    Select, Selects, SliceSize, ValueRange, ValueRanges,
};

/// The most nesting of expressions, and of operators before an operand, in a text.
pub const NESTING_LIMIT: u32 = 256;

/// The levels of precedence of operators between two operands (IEEE 1800-2017 clause 11.3.2).
const PRECEDENCE_LEVELS: u32 = 11;

/// A dimension.
#[cycle(expression)]
fn dimension(alloc: Global, depth: u32, tree: &Tree) -> Result<Dimension, AllocError>
    ensures { IfOk result (λ d. d ≡ means.dimension_of (means.expr_within depth) tree.now) }
{
    let opening = token(tree, 0);
    let left = expr(alloc, depth, kid(tree, 1));
    let bound = kid(tree, 2);
    let closing = token(tree, 3);
    if is_blank(bound) {
        return Ok(Dimension::Size {
            opening,
            size: left?,
            closing,
        });
    }
    let (left, right) = both(left, expr(alloc, depth, kid(bound, 1)))?;
    Ok(Dimension::Range {
        opening,
        left,
        colon: token(bound, 0),
        right,
        closing,
    })
}

/// Dimensions.
#[cycle(expression)]
fn dimensions(alloc: Global, depth: u32, trees: &[Tree]) -> Result<Dimensions, AllocError>
    ensures { IfOk result (λ ds. ds ≡ map (means.dimension_of (means.expr_within depth)) trees.now) }
{
    let mut dimensions = Items::new(alloc);
    for tree in trees {
        let (before, last) = both(Ok(dimensions), dimension(alloc, depth, tree))?;
        dimensions = with_last(before, last)?;
    }
    Ok(dimensions)
}

/// A select.
#[cycle(expression)]
fn select(alloc: Global, depth: u32, tree: &Tree) -> Result<Select, AllocError>
    ensures { IfOk result (λ s. s ≡ means.select_of (means.expr_within depth) tree.now) }
{
    match row(tree) {
        rows::MEMBER_SELECT => Ok(Select::Member {
            dot: token(tree, 0),
            name: token(tree, 1),
        }),
        _ => bracketed(alloc, depth, tree),
    }
}

/// A select in brackets.
#[cycle(expression)]
fn bracketed(alloc: Global, depth: u32, tree: &Tree) -> Result<Select, AllocError>
    ensures { IfOk result (λ s. s ≡ means.bracketed_of (means.expr_within depth) tree.now) }
{
    let opening = token(tree, 0);
    let left = expr(alloc, depth, kid(tree, 1));
    let part = kid(tree, 2);
    let closing = token(tree, 3);
    if is_blank(part) {
        return Ok(Select::Index {
            opening,
            index: left?,
            closing,
        });
    }
    let (left, right) = both(left, expr(alloc, depth, kid(part, 1)))?;
    let operator = kid(part, 0);
    Ok(Select::Part {
        opening,
        left,
        operator: part_operator(row(operator)),
        at: token(operator, 0),
        right,
        closing,
    })
}

/// Selects.
#[cycle(expression)]
fn selects(alloc: Global, depth: u32, trees: &[Tree]) -> Result<Selects, AllocError>
    ensures { IfOk result (λ ss. ss ≡ map (means.select_of (means.expr_within depth)) trees.now) }
{
    let mut selects = Items::new(alloc);
    for tree in trees {
        let (before, last) = both(Ok(selects), select(alloc, depth, tree))?;
        selects = with_last(before, last)?;
    }
    Ok(selects)
}

/// A first expression and those behind commas.
#[cycle(expression)]
fn exprs_behind(alloc: Global, depth: u32, first: Expr, rest: &[Tree]) -> Result<Exprs, AllocError>
    ensures { IfOk result (λ es. es ≡ first ∷ behind_marks (means.expr_within depth) rest.now) }
{
    let mut exprs = with_last(Items::new(alloc), first)?;
    for next in rest {
        let (before, last) = both(Ok(exprs), expr(alloc, depth, kid(next, 1)))?;
        exprs = with_last(before, last)?;
    }
    Ok(exprs)
}

/// Expressions between commas, or none.
#[cycle(expression)]
fn exprs(alloc: Global, depth: u32, tree: &Tree) -> Result<Exprs, AllocError>
    ensures { IfOk result (λ es. es ≡ means.exprs_of (means.expr_within depth) tree.now) }
{
    match kids(tree) {
        [] => Ok(Items::new(alloc)),
        [first, rest @ ..] => {
            let first = expr(alloc, depth, first)?;
            exprs_behind(alloc, depth, first, rest)
        }
    }
}

/// `default: value` in a pattern.
#[cycle(expression)]
fn default_item(alloc: Global, depth: u32, tree: &Tree) -> Result<PatternItem, AllocError>
    ensures { IfOk result (λ i. i ≡ means.default_item (means.expr_within depth) tree.now) }
{
    let value = expr(alloc, depth, kid(tree, 2))?;
    Ok(PatternItem::Default {
        keyword: token(tree, 0),
        colon: token(tree, 1),
        value,
    })
}

/// `key: value` in a pattern.
#[cycle(expression)]
fn keyed_item(alloc: Global, depth: u32, key: &Tree, rest: &Tree) -> Result<PatternItem, AllocError>
    ensures { IfOk result (λ i. i ≡ means.keyed_item (means.expr_within depth) key.now rest.now) }
{
    let key = expr(alloc, depth, key);
    let (key, value) = both(key, expr(alloc, depth, kid(rest, 1)))?;
    Ok(PatternItem::Keyed {
        key,
        colon: token(rest, 0),
        value,
    })
}

/// An item of a pattern.
#[cycle(expression)]
fn pattern_item(alloc: Global, depth: u32, tree: &Tree) -> Result<PatternItem, AllocError>
    ensures { IfOk result (λ i. i ≡ means.pattern_item_of (means.expr_within depth) tree.now) }
{
    if row(tree) == rows::DEFAULT_ITEM {
        return default_item(alloc, depth, tree);
    }
    let value = kid(tree, 1);
    if is_blank(value) {
        return Ok(PatternItem::Value(expr(alloc, depth, kid(tree, 0))?));
    }
    keyed_item(alloc, depth, kid(tree, 0), value)
}

/// The first item of a pattern and those behind commas.
#[cycle(expression)]
fn pattern_items(
    alloc: Global,
    depth: u32,
    first: PatternItem,
    rest: &[Tree],
) -> Result<PatternItems, AllocError>
    ensures { IfOk result (λ is. is ≡ first ∷ means.more_items (means.expr_within depth) rest.now) }
{
    let mut items = with_last(Items::new(alloc), first)?;
    for next in rest {
        let (before, last) = both(Ok(items), pattern_item(alloc, depth, kid(next, 1)))?;
        items = with_last(before, last)?;
    }
    Ok(items)
}

/// A pattern that begins with an expression.
#[cycle(expression)]
fn pattern_from(alloc: Global, depth: u32, first: &Tree, rest: &Tree) -> Result<Pattern, AllocError>
    ensures { IfOk result (λ p. p ≡ means.pattern_from (means.expr_within depth) first.now rest.now) }
{
    match row(rest) {
        rows::KEYED_FIRST => {
            let item = keyed_item(alloc, depth, first, rest)?;
            let items = pattern_items(alloc, depth, item, kids_from(rest, 2))?;
            Ok(Pattern::Items(items))
        }
        rows::PATTERN_REPLICATION => {
            let count = boxed(alloc, depth, first);
            let (count, items) = both(count, exprs(alloc, depth, kid(rest, 1)))?;
            Ok(Pattern::Replication {
                count,
                opening: token(rest, 0),
                items,
                closing: token(rest, 2),
            })
        }
        _ => {
            let item = PatternItem::Value(expr(alloc, depth, first)?);
            let items = pattern_items(alloc, depth, item, kids(rest))?;
            Ok(Pattern::Items(items))
        }
    }
}

/// What stands between the braces of a pattern.
#[cycle(expression)]
fn pattern(alloc: Global, depth: u32, tree: &Tree) -> Result<Pattern, AllocError>
    ensures { IfOk result (λ p. p ≡ means.pattern_of (means.expr_within depth) tree.now) }
{
    match row(tree) {
        rows::DEFAULT_FIRST => {
            let item = default_item(alloc, depth, tree)?;
            let items = pattern_items(alloc, depth, item, kids_from(tree, 3))?;
            Ok(Pattern::Items(items))
        }
        _ => pattern_from(alloc, depth, kid(tree, 0), kid(tree, 1)),
    }
}

/// What is cast, behind its tick.
#[cycle(expression)]
fn cast_from(alloc: Global, depth: u32, tick: u32, tree: &Tree) -> Result<Cast, AllocError>
    ensures { IfOk result (λ c. c ≡ means.cast_from (means.expr_within depth) tick tree.now) }
{
    match row(tree) {
        rows::VALUE_CAST => {
            let value = boxed(alloc, depth, kid(tree, 1))?;
            Ok(Cast::Value {
                tick,
                opening: token(tree, 0),
                value,
                closing: token(tree, 2),
            })
        }
        _ => {
            let pattern = pattern(alloc, depth, kid(tree, 1))?;
            Ok(Cast::Pattern {
                tick,
                opening: token(tree, 0),
                pattern,
                closing: token(tree, 2),
            })
        }
    }
}

/// What is cast.
#[cycle(expression)]
fn cast(alloc: Global, depth: u32, tree: &Tree) -> Result<Boxed<Cast>, AllocError>
    ensures { IfOk result (λ c. c ≡ means.cast_of (means.expr_within depth) tree.now) }
{
    let cast = cast_from(alloc, depth, token(tree, 0), kid(tree, 1))?;
    Boxed::new(alloc, cast)
}

/// What is cast, where something is.
#[cycle(expression)]
fn optional_cast(alloc: Global, depth: u32, tree: &Tree) -> Result<Option<Boxed<Cast>>, AllocError>
    ensures { IfOk result (λ c. c ≡ means.optional_cast_of (means.expr_within depth) tree.now) }
{
    if is_blank(tree) {
        return Ok(None);
    }
    Ok(Some(cast(alloc, depth, kid(tree, 0))?))
}

/// The size of a stream's slice.
#[cycle(expression)]
fn slice_size_from(alloc: Global, depth: u32, tree: &Tree) -> Result<SliceSize, AllocError>
    ensures { IfOk result (λ s. s ≡ means.slice_size_from (means.expr_within depth) tree.now) }
{
    match row(tree) {
        rows::DECIMAL_SLICE => Ok(SliceSize::Decimal {
            digits: token(tree, 0),
        }),
        rows::KEYWORD_SLICE => Ok(SliceSize::Keyword(keyword_type(kid(tree, 0)))),
        rows::NAME_SLICE => Ok(SliceSize::Name(qualified(token(tree, 0), kid(tree, 1)))),
        _ => {
            let value = boxed(alloc, depth, kid(tree, 1))?;
            Ok(SliceSize::Parenthesized {
                opening: token(tree, 0),
                value,
                closing: token(tree, 2),
            })
        }
    }
}

/// The size of a stream's slice, where it is written.
#[cycle(expression)]
fn slice_size(
    alloc: Global,
    depth: u32,
    tree: &Tree,
) -> Result<Option<Boxed<SliceSize>>, AllocError>
    ensures { IfOk result (λ s. s ≡ means.slice_size_of (means.expr_within depth) tree.now) }
{
    if is_blank(tree) {
        return Ok(None);
    }
    let size = slice_size_from(alloc, depth, tree)?;
    Ok(Some(Boxed::new(alloc, size)?))
}

/// An item behind `inside`.
#[cycle(expression)]
fn value_range(alloc: Global, depth: u32, tree: &Tree) -> Result<ValueRange, AllocError>
    ensures { IfOk result (λ v. v ≡ means.value_range_of (means.expr_within depth) tree.now) }
{
    match row(tree) {
        rows::VALUE_ITEM => Ok(ValueRange::Value(expr(alloc, depth, kid(tree, 0))?)),
        _ => {
            let low = expr(alloc, depth, kid(tree, 1));
            let (low, high) = both(low, expr(alloc, depth, kid(tree, 3)))?;
            Ok(ValueRange::Range {
                opening: token(tree, 0),
                low,
                colon: token(tree, 2),
                high,
                closing: token(tree, 4),
            })
        }
    }
}

/// The items behind `inside`.
#[cycle(expression)]
fn value_ranges(alloc: Global, depth: u32, trees: &[Tree]) -> Result<ValueRanges, AllocError>
    ensures { IfOk result (λ vs. vs ≡ means.value_ranges_from (means.expr_within depth) trees.now) }
{
    match trees {
        [] => Ok(Items::new(alloc)),
        [first, rest @ ..] => {
            let first = value_range(alloc, depth, first)?;
            value_ranges_behind(alloc, depth, first, rest)
        }
    }
}

/// A first item behind `inside` and those behind commas.
#[cycle(expression)]
fn value_ranges_behind(
    alloc: Global,
    depth: u32,
    first: ValueRange,
    rest: &[Tree],
) -> Result<ValueRanges, AllocError>
    ensures { IfOk result (λ vs. vs ≡ first ∷ behind_marks (means.value_range_of (means.expr_within depth)) rest.now) }
{
    let mut ranges = with_last(Items::new(alloc), first)?;
    for next in rest {
        let (before, last) = both(Ok(ranges), value_range(alloc, depth, kid(next, 1)))?;
        ranges = with_last(before, last)?;
    }
    Ok(ranges)
}

/// A number, with what stands behind it.
#[cycle(expression)]
fn decimal(alloc: Global, depth: u32, tree: &Tree) -> Result<Expr, AllocError>
    ensures { IfOk result (λ e. e ≡ means.decimal_of (means.expr_within depth) tree.now) }
{
    let size = token(tree, 0);
    let rest = kid(tree, 1);
    if is_blank(rest) {
        return Ok(Expr::Decimal { digits: size });
    }
    if row(rest) == rows::SIZED {
        return Ok(Expr::Sized {
            size,
            digits: token(rest, 0),
        });
    }
    let cast = cast(alloc, depth, kid(rest, 0))?;
    Ok(Expr::SizeCast { size, cast })
}

/// A stream, behind its `{`.
#[cycle(expression)]
fn stream(alloc: Global, depth: u32, opening: u32, tree: &Tree) -> Result<Expr, AllocError>
    ensures { IfOk result (λ e. e ≡ means.stream_of (means.expr_within depth) opening tree.now) }
{
    let operator = kid(tree, 0);
    let size = slice_size(alloc, depth, kid(tree, 1));
    let (size, items) = both(size, exprs(alloc, depth, kid(tree, 3)))?;
    Ok(Expr::Stream {
        opening,
        operator: stream_operator(row(operator)),
        at: token(operator, 0),
        size,
        inner_opening: token(tree, 2),
        items,
        inner_closing: token(tree, 4),
        closing: token(tree, 5),
    })
}

/// A replication, behind its `{`.
#[cycle(expression)]
fn replication(
    alloc: Global,
    depth: u32,
    opening: u32,
    first: &Tree,
    rest: &Tree,
) -> Result<Expr, AllocError>
    ensures { IfOk result (λ e. e ≡ means.replication_of (means.expr_within depth) opening first.now rest.now) }
{
    let count = boxed(alloc, depth, first);
    let (count, items) = both(count, exprs(alloc, depth, kid(rest, 1)))?;
    Ok(Expr::Replication {
        opening,
        count,
        inner_opening: token(rest, 0),
        items,
        inner_closing: token(rest, 2),
        closing: token(rest, 3),
    })
}

/// A concatenation, behind its `{`.
#[cycle(expression)]
fn concatenation(
    alloc: Global,
    depth: u32,
    opening: u32,
    first: &Tree,
    rest: &Tree,
) -> Result<Expr, AllocError>
    ensures { IfOk result (λ e. e ≡ means.concatenation_of (means.expr_within depth) opening first.now rest.now) }
{
    let first = expr(alloc, depth, first)?;
    let items = exprs_behind(alloc, depth, first, kids(kid(rest, 0)))?;
    Ok(Expr::Concatenation {
        opening,
        items,
        closing: token(rest, 1),
    })
}

/// What a `{` begins.
#[cycle(expression)]
fn braced(alloc: Global, depth: u32, opening: u32, tree: &Tree) -> Result<Expr, AllocError>
    ensures { IfOk result (λ e. e ≡ means.braced_of (means.expr_within depth) opening tree.now) }
{
    if row(tree) == rows::STREAM {
        return stream(alloc, depth, opening, tree);
    }
    let first = kid(tree, 0);
    let rest = kid(tree, 1);
    match row(rest) {
        rows::REPLICATION => replication(alloc, depth, opening, first, rest),
        _ => concatenation(alloc, depth, opening, first, rest),
    }
}

/// A call.
#[cycle(expression)]
fn call(
    alloc: Global,
    depth: u32,
    of: QualifiedName,
    tree: &Tree,
    behind: &Tree,
) -> Result<Expr, AllocError>
    ensures { IfOk result (λ e. e ≡ means.call_of (means.expr_within depth) of tree.now behind.now) }
{
    let arguments = exprs(alloc, depth, kid(tree, 1));
    let (arguments, cast) = both(arguments, optional_cast(alloc, depth, behind))?;
    Ok(Expr::Call {
        of,
        opening: token(tree, 0),
        arguments,
        closing: token(tree, 2),
        cast,
    })
}

/// A name with selects.
#[cycle(expression)]
fn named(
    alloc: Global,
    depth: u32,
    of: QualifiedName,
    tree: &Tree,
    behind: &Tree,
) -> Result<Expr, AllocError>
    ensures { IfOk result (λ e. e ≡ means.named_of (means.expr_within depth) of tree.now behind.now) }
{
    let selects = selects(alloc, depth, kids(tree));
    let (selects, cast) = both(selects, optional_cast(alloc, depth, behind))?;
    Ok(Expr::Name { of, selects, cast })
}

/// An expression in parentheses, with what is cast to a size that stands so.
#[cycle(expression)]
fn parenthesized(alloc: Global, depth: u32, tree: &Tree) -> Result<Expr, AllocError>
    ensures { IfOk result (λ e. e ≡ means.parenthesized_of (means.expr_within depth) tree.now) }
{
    let value = boxed(alloc, depth, kid(tree, 1));
    let (value, cast) = both(value, optional_cast(alloc, depth, kid(tree, 3)))?;
    Ok(Expr::Parenthesized {
        opening: token(tree, 0),
        value,
        closing: token(tree, 2),
        cast,
    })
}

/// A pattern with its braces.
#[cycle(expression)]
fn braced_pattern(alloc: Global, depth: u32, tree: &Tree) -> Result<Expr, AllocError>
    ensures { IfOk result (λ e. e ≡ means.braced_pattern_of (means.expr_within depth) tree.now) }
{
    let pattern = pattern(alloc, depth, kid(tree, 2))?;
    Ok(Expr::Pattern {
        tick: token(tree, 0),
        opening: token(tree, 1),
        pattern: Boxed::new(alloc, pattern)?,
        closing: token(tree, 3),
    })
}

/// A type in the place of an expression, with what is cast to it.
#[cycle(expression)]
fn type_primary(alloc: Global, depth: u32, tree: &Tree) -> Result<Expr, AllocError>
    ensures { IfOk result (λ e. e ≡ means.type_primary_of (means.expr_within depth) tree.now) }
{
    let packed = dimensions(alloc, depth, kids(kid(tree, 1)));
    let (packed, cast) = both(packed, optional_cast(alloc, depth, kid(tree, 2)))?;
    Ok(Expr::Type {
        of: keyword_type(kid(tree, 0)),
        packed,
        cast,
    })
}

/// A call of a system function.
#[cycle(expression)]
fn system_call(alloc: Global, depth: u32, tree: &Tree) -> Result<Expr, AllocError>
    ensures { IfOk result (λ e. e ≡ means.system_call_of (means.expr_within depth) tree.now) }
{
    let argument = boxed(alloc, depth, kid(tree, 2))?;
    Ok(Expr::SystemCall {
        name: token(tree, 0),
        opening: token(tree, 1),
        argument,
        closing: token(tree, 3),
    })
}

/// A cast to signed or unsigned.
#[cycle(expression)]
fn signing_cast(alloc: Global, depth: u32, tree: &Tree) -> Result<Expr, AllocError>
    ensures { IfOk result (λ e. e ≡ means.signing_cast_of (means.expr_within depth) tree.now) }
{
    let cast = cast(alloc, depth, kid(tree, 1))?;
    Ok(Expr::SigningCast {
        signing: signing(kid(tree, 0)),
        cast,
    })
}

/// A name, with what stands behind it.
#[cycle(expression)]
fn name_primary(alloc: Global, depth: u32, tree: &Tree) -> Result<Expr, AllocError>
    ensures { IfOk result (λ e. e ≡ means.name_primary_of (means.expr_within depth) tree.now) }
{
    let rest = kid(tree, 1);
    let of = qualified(token(tree, 0), kid(rest, 0));
    let behind = kid(rest, 1);
    let cast = kid(rest, 2);
    if row(behind) == rows::ARGUMENTS {
        call(alloc, depth, of, behind, cast)
    } else {
        named(alloc, depth, of, behind, cast)
    }
}

/// An operand without operators.
#[cycle(expression)]
fn primary(alloc: Global, depth: u32, tree: &Tree) -> Result<Expr, AllocError>
    ensures { IfOk result (λ e. e ≡ means.primary_of (means.expr_within depth) tree.now) }
{
    match row(tree) {
        rows::DECIMAL_PRIMARY => decimal(alloc, depth, tree),
        rows::BASED_PRIMARY => Ok(Expr::Based {
            digits: token(tree, 0),
        }),
        rows::FILL_PRIMARY => Ok(Expr::Fill {
            digit: token(tree, 0),
        }),
        rows::PARENTHESIZED_PRIMARY => parenthesized(alloc, depth, tree),
        rows::BRACED_PRIMARY => braced(alloc, depth, token(tree, 0), kid(tree, 1)),
        rows::PATTERN_PRIMARY => braced_pattern(alloc, depth, tree),
        rows::TYPE_PRIMARY => type_primary(alloc, depth, tree),
        rows::SIGNING_PRIMARY => signing_cast(alloc, depth, tree),
        rows::SYSTEM_PRIMARY => system_call(alloc, depth, tree),
        _ => name_primary(alloc, depth, tree),
    }
}

/// An operator before its operand, before which at most so many operators stand.
#[cycle(expression)]
fn operated(alloc: Global, depth: u32, operators: u32, tree: &Tree) -> Result<Expr, AllocError>
    requires { operators ≤ 256 }
    ensures { IfOk result (λ e. e ≡ means.operated_of (means.unary_within (means.expr_within depth) operators) tree.now) }
{
    let operator = kid(tree, 0);
    let operand = unary(alloc, depth, operators, kid(tree, 1))?;
    let operand = Boxed::new(alloc, operand)?;
    Ok(Expr::Unary {
        operator: unary_operator(row(operator)),
        at: token(operator, 0),
        operand,
    })
}

/// An operand, before which at most so many operators stand.
#[cycle(expression)]
fn unary(alloc: Global, depth: u32, operators: u32, tree: &Tree) -> Result<Expr, AllocError>
    requires { operators ≤ 256 }
    ensures { IfOk result (λ e. e ≡ means.unary_within (means.expr_within depth) operators tree.now) }
{
    if operators > 0 && row(tree) == rows::UNARY_OPERATION {
        return operated(alloc, depth, operators - 1, tree);
    }
    primary(alloc, depth, kid(tree, 0))
}

/// A left operand, joined with an operator and an operand of so many levels of precedence.
#[cycle(expression)]
fn joined(
    alloc: Global,
    depth: u32,
    levels: u32,
    left: Expr,
    tree: &Tree,
) -> Result<Expr, AllocError>
    requires { levels ≤ 11 }
    ensures { IfOk result (λ e. e ≡ means.joined_with (means.expr_within depth) (means.level_of (means.expr_within depth) levels) left tree.now) }
{
    let left = Boxed::new(alloc, left)?;
    if row(tree) == rows::INSIDE {
        inside(alloc, depth, left, tree)
    } else {
        binary(alloc, depth, levels, left, tree)
    }
}

/// A value and where it is sought.
#[cycle(expression)]
fn inside(alloc: Global, depth: u32, value: Boxed<Expr>, tree: &Tree) -> Result<Expr, AllocError>
    ensures { IfOk result (λ e. e ≡ means.inside_of (means.expr_within depth) value tree.now) }
{
    let ranges = value_ranges(alloc, depth, kids(kid(tree, 2)));
    let (value, ranges) = both(Ok(value), ranges)?;
    Ok(Expr::Inside {
        value,
        keyword: token(tree, 0),
        opening: token(tree, 1),
        ranges,
        closing: token(tree, 3),
    })
}

/// A left operand, an operator and a right operand of so many levels of precedence.
#[cycle(expression)]
fn binary(
    alloc: Global,
    depth: u32,
    levels: u32,
    left: Boxed<Expr>,
    tree: &Tree,
) -> Result<Expr, AllocError>
    requires { levels ≤ 11 }
    ensures { IfOk result (λ e. e ≡ means.binary_of (means.level_of (means.expr_within depth) levels) left tree.now) }
{
    let right = operand(alloc, depth, levels, kid(tree, 1));
    let (left, right) = both(Ok(left), right)?;
    Ok(Expr::Binary {
        left,
        operator: binary_operator(operator_row(tree)),
        at: mark(kid(tree, 0)),
        right,
    })
}

/// An operand of so many levels of precedence, in its box.
#[cycle(expression)]
fn operand(alloc: Global, depth: u32, levels: u32, tree: &Tree) -> Result<Boxed<Expr>, AllocError>
    requires { levels ≤ 11 }
    ensures { IfOk result (λ e. e ≡ means.level_of (means.expr_within depth) levels tree.now) }
{
    let operand = operation(alloc, depth, levels, tree)?;
    Boxed::new(alloc, operand)
}

/// The row that has the operator before an operand.
fn operator_row(tree: &Tree) -> u16
    ensures { result ≡ means.operator_row tree.now }
{
    match kid(tree, 0) {
        Tree::Leaf(_) => row(tree),
        Tree::Node { row, .. } => *row,
    }
}

/// A chain of operators of one precedence, over operands of so many levels.
#[cycle(expression)]
fn chain(
    alloc: Global,
    depth: u32,
    levels: u32,
    first: Expr,
    rest: &[Tree],
) -> Result<Expr, AllocError>
    requires { levels ≤ 11 }
    ensures { IfOk result (λ e. e ≡ means.chain_of (means.expr_within depth) (means.level_of (means.expr_within depth) levels) first rest.now) }
{
    let mut left = first;
    for tree in rest {
        left = joined(alloc, depth, levels, left, tree)?;
    }
    Ok(left)
}

/// Operators of so many levels of precedence, over operands with operators before them.
#[cycle(expression)]
fn operation(alloc: Global, depth: u32, levels: u32, tree: &Tree) -> Result<Expr, AllocError>
    requires { levels ≤ 11 }
    ensures { IfOk result (λ e. e ≡ means.level_of (means.expr_within depth) levels tree.now) }
{
    if levels == 0 {
        return unary(alloc, depth, NESTING_LIMIT, tree);
    }
    let first = operation(alloc, depth, levels - 1, kid(tree, 0))?;
    chain(alloc, depth, levels - 1, first, kids_from(tree, 1))
}

/// A condition with the values behind it.
#[cycle(expression)]
fn conditional(
    alloc: Global,
    depth: u32,
    test: Boxed<Expr>,
    tree: &Tree,
) -> Result<Expr, AllocError>
    ensures { IfOk result (λ e. e ≡ means.conditional_of (means.expr_within depth) test tree.now) }
{
    let first = boxed(alloc, depth, kid(tree, 1));
    let values = both(first, boxed(alloc, depth, kid(tree, 3)));
    let (test, values) = both(Ok(test), values)?;
    Ok(Expr::Conditional {
        test,
        question: token(tree, 0),
        first: values.0,
        colon: token(tree, 2),
        second: values.1,
    })
}

/// An expression around expressions.
#[cycle(expression)]
fn expr_around(alloc: Global, depth: u32, tree: &Tree) -> Result<Expr, AllocError>
    ensures { IfOk result (λ e. e ≡ means.expr_around (means.expr_within depth) tree.now) }
{
    let test = operation(alloc, depth, PRECEDENCE_LEVELS, kid(tree, 0))?;
    let rest = kid(tree, 1);
    if is_blank(rest) {
        return Ok(test);
    }
    let test = Boxed::new(alloc, test)?;
    conditional(alloc, depth, test, rest)
}

/// An expression in which expressions nest at most so deep.
#[cycle(expression)]
fn expr(alloc: Global, depth: u32, tree: &Tree) -> Result<Expr, AllocError>
    ensures { IfOk result (λ e. e ≡ means.expr_within depth tree.now) }
{
    if depth == 0 {
        return Ok(Expr::Decimal { digits: 0 });
    }
    expr_around(alloc, depth - 1, tree)
}

/// An expression in its box.
#[cycle(expression)]
fn boxed(alloc: Global, depth: u32, tree: &Tree) -> Result<Boxed<Expr>, AllocError>
    ensures { IfOk result (λ e. e ≡ means.expr_within depth tree.now) }
{
    let expr = expr(alloc, depth, tree)?;
    Boxed::new(alloc, expr)
}

/// The expression of a derivation.
pub fn expression(alloc: Global, tree: &Tree) -> Result<Expr, AllocError>
    ensures { IfOk result (λ e. e ≡ means.expr_of tree.now) }
{
    expr(alloc, NESTING_LIMIT, tree)
}

/// Expressions between commas, or none.
pub fn expression_list(alloc: Global, tree: &Tree) -> Result<Exprs, AllocError>
    ensures { IfOk result (λ es. es ≡ means.exprs_of means.expr_of tree.now) }
{
    exprs(alloc, NESTING_LIMIT, tree)
}

/// A dimension.
pub fn dimension_alone(alloc: Global, tree: &Tree) -> Result<Dimension, AllocError>
    ensures { IfOk result (λ d. d ≡ means.dimension_of means.expr_of tree.now) }
{
    dimension(alloc, NESTING_LIMIT, tree)
}

/// Dimensions.
pub fn dimensions_alone(alloc: Global, trees: &[Tree]) -> Result<Dimensions, AllocError>
    ensures { IfOk result (λ ds. ds ≡ map (means.dimension_of means.expr_of) trees.now) }
{
    dimensions(alloc, NESTING_LIMIT, trees)
}

/// Selects.
pub fn selects_alone(alloc: Global, tree: &Tree) -> Result<Selects, AllocError>
    ensures { IfOk result (λ ss. ss ≡ means.selects_of means.expr_of tree.now) }
{
    selects(alloc, NESTING_LIMIT, kids(tree))
}

/// The size of a stream's slice, where it is written.
pub fn slice_size_alone(alloc: Global, tree: &Tree) -> Result<Option<SliceSize>, AllocError>
    ensures { IfOk result (λ s. s ≡ means.slice_size_of means.expr_of tree.now) }
{
    if is_blank(tree) {
        return Ok(None);
    }
    Ok(Some(slice_size_from(alloc, NESTING_LIMIT, tree)?))
}
