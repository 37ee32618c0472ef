//! `case` statements.

ghost use Rattle.std.specs.Prelude.{◌≡◌, ℕ, List, map, nat_lt, IfOk};
ghost use Rattle.expr_type.specs.Answers.{Gives};
ghost use Rattle.expr_type.specs.Operands.{width};
ghost use Rattle.expr_type.specs.Operators.{exprs};
ghost use Rattle.expr_type.specs.Statements as statement;
ghost use Rattle.expr_type.specs.Typings.{all_of};
ghost use Rattle.sv_types.specs.Meanings.{most};
ghost use Rattle.sv_types.specs.declared.statement.Stmt.TheVariants as made;
ghost use Rattle.stmt_types.specs.declared.cases.CaseItem.{CaseItem};
ghost use Rattle.stmt_types.specs.Lists.{all_meant, as_meant, listed};
ghost use Rattle.expr_type.specs.Names.{Context};
ghost use Rattle.stmt_types.specs.Cases.{default_bodies, first_in, first_operator, found_by, item_found, item_of, item_whole, joins, wide_of, widest_found, wides};

use crate::lists::followed;
use expr_type::{Halt, Valued};
use given_types::is_above;
use std::alloc::{AllocError, Global};
use sv_source::{Boxed, Items};
use sv_tree::CaseKeyword;
use sv_types::{CaseItems, CaseKind, Expr, Exprs, Stmt};

/// An item of a `case` as it is found: its values make others wider also where its statement is broken.
#[derive(Drop)]
pub struct CaseFound {
    /// Whether it is the `default`.
    pub is_default: bool,
    /// Its values; none at `default`.
    pub values: Result<Vec<Valued>, Halt>,
    /// Its statement.
    pub body: Result<Stmt, Halt>,
}

// An item that is whole.
#[derive(Drop)]
struct CaseItem {
    is_default: bool,
    values: Vec<Valued>,
    body: Stmt,
}

/// How the word in front of a `case` compares (IEEE 1800-2017 clause 12.5.1).
pub fn case_kind(keyword: CaseKeyword) -> CaseKind
    ensures { result ≡ statement.case_kind keyword }
{
    match keyword {
        CaseKeyword::Case(_) => CaseKind::Plain,
        CaseKeyword::Casez(_) => CaseKind::Z,
        CaseKeyword::Casex(_) => CaseKind::X,
    }
}

// Whether one of some values has more than 128 bits.
#[tactic(auto, using(crate::proofs::Turns::turns))]
fn has_wide(values: &[Valued]) -> bool
    ensures { result ≡ nat_lt 128 (most (map width values.now)) }
{
    for value in values {
        if is_above(128, &value.expr.of) {
            return true;
        }
    }
    false
}

// Whether a value of an item has more than 128 bits, where all of them are whole.
fn item_is_wide(item: &CaseFound) -> Option<bool>
    ensures { result ≡ wide_of (listed item.now.values) }
{
    match &item.values {
        Ok(values) => Some(has_wide(values.as_slice())),
        Err(_) => None,
    }
}

// Whether a value of some items has more than 128 bits, where all of them are whole.
#[tactic(auto, using(crate::proofs::Turns::turns))]
fn are_wide(items: &[CaseFound]) -> Option<bool>
    ensures { result ≡ wides items.now }
{
    let mut wide = false;
    for item in items {
        let here = item_is_wide(item)?;
        wide = wide || here;
    }
    Some(wide)
}

// Whether the selector or a value has more than 128 bits, where all of them are whole.
fn is_wide(on: &Result<Valued, Halt>, items: &[CaseFound]) -> bool
    ensures { result ≡ widest_found on.now items.now }
{
    match on {
        Err(_) => false,
        Ok(on) => match are_wide(items) {
            None => false,
            Some(wide) => is_above(128, &on.expr.of) || wide,
        },
    }
}

// The first operator of a list.
#[tactic(auto, using(crate::proofs::Widening::heads))]
fn first_operator(operators: &Items<u32>) -> Option<u32>
    ensures { result ≡ first_operator operators.now }
{
    sv_source::at(operators.as_slice(), 0).copied()
}

// The first operator in some values.
#[tactic(auto, using(crate::proofs::Turns::turns))]
fn first_in(values: &[Valued]) -> Option<u32>
    ensures { result ≡ first_in values.now }
{
    for value in values {
        match first_operator(&value.arithmetic) {
            None => {}
            Some(at) => return Some(at),
        }
    }
    None
}

// The selector at the width of the widest: none of its operators does arithmetic on more than 128 bits (E502).
#[tactic(auto, using(crate::proofs::Widening::widths))]
fn selector_at(wide: bool, on: Result<Valued, Halt>) -> Result<Valued, Halt>
    ensures { (k : Context) (w : ℕ) → wide ≡ nat_lt 128 w → Gives result (statement.selector_at k w (found_by k.source on)) }
{
    let on = on?;
    if !wide {
        return Ok(on);
    }
    match first_operator(&on.arithmetic) {
        None => Ok(on),
        Some(at) => Err(Halt::Breaks { at, rule: 502 }),
    }
}

// The values of an item at the width of the widest, likewise.
#[tactic(auto, using(crate::proofs::Widening::widths))]
fn values_at(wide: bool, values: Result<Vec<Valued>, Halt>) -> Result<Vec<Valued>, Halt>
    ensures { (k : Context) (w : ℕ) → wide ≡ nat_lt 128 w → Gives (listed result) (statement.values_at k w (found_by k.source (listed values))) }
{
    let values = values?;
    if !wide {
        return Ok(values);
    }
    match first_in(values.as_slice()) {
        None => Ok(values),
        Some(at) => Err(Halt::Breaks { at, rule: 502 }),
    }
}

// Both of two things in the order of the text, or the first break in them.
fn joined<A: Drop, B: Drop>(a: Result<A, Halt>, b: Result<B, Halt>) -> Result<(A, B), Halt>
    ensures { result ≡ joins a b }
{
    match a {
        Ok(a) => Ok((a, b?)),
        Err(Halt::Quiet) => match b {
            Ok(_) => Err(Halt::Quiet),
            Err(halt) => Err(halt),
        },
        Err(Halt::Memory) => Err(Halt::Memory),
        Err(Halt::Breaks { at, rule }) => Err(Halt::Breaks { at, rule }),
    }
}

// An item that is whole at the width of the widest.
#[tactic(auto, using(crate::proofs::Joins::joinings))]
fn whole_item(wide: bool, item: CaseFound) -> Result<CaseItem, Halt>
    ensures { (k : Context) (w : ℕ) → wide ≡ nat_lt 128 w → Gives (as_meant item_of result) (item_whole k w item) }
{
    let CaseFound {
        is_default,
        values,
        body,
    } = item;
    let (values, body) = joined(values_at(wide, values), body)?;
    Ok(CaseItem {
        is_default,
        values,
        body,
    })
}

// Items that are whole at the width of the widest.
fn whole_items(alloc: Global, wide: bool, items: Vec<CaseFound>) -> Result<Vec<CaseItem>, Halt>
    ensures { (k : Context) (w : ℕ) → wide ≡ nat_lt 128 w → Gives (all_meant item_of result) (all_of (map (item_whole k w) items.items)) }
{
    let mut made: Result<Vec<CaseItem>, Halt> = Ok(Vec::new(alloc));
    for item in items {
        made = followed(made, whole_item(wide, item));
    }
    made
}

// The expressions of values.
#[tactic(auto, using(crate::proofs::Splits::splits))]
fn exprs_of(alloc: Global, values: Vec<Valued>) -> Result<Exprs, AllocError>
    ensures { IfOk result (λ es. es ≡ exprs values.items) }
{
    let mut made = Exprs::new(alloc);
    for value in values {
        made.push(value.expr)?;
    }
    Ok(made)
}

// An item as a part of a statement.
fn item_of(alloc: Global, values: Vec<Valued>, body: Stmt) -> Result<sv_types::CaseItem, AllocError>
    ensures { IfOk result (λ c. c ≡ record { values = exprs values.items; body = body }) }
{
    let (values, body) = pairs::both(exprs_of(alloc, values), Ok(body))?;
    Ok(sv_types::CaseItem { values, body })
}

// The items that have values, and what stands at each `default`.
#[tactic(auto, using(crate::proofs::Splits::splits))]
fn split(alloc: Global, items: Vec<CaseItem>) -> Result<(CaseItems, Vec<Stmt>), AllocError>
    ensures items { IfOk result (λ p. p.0 ≡ statement.case_items (map item_of items.items)) }
    ensures others { IfOk result (λ p. p.1.items ≡ default_bodies items.items) }
{
    let mut made = CaseItems::new(alloc);
    let mut others = Vec::new(alloc);
    for item in items {
        let CaseItem {
            is_default,
            values,
            body,
        } = item;
        if is_default {
            others.push(body)?;
        } else {
            made.push(item_of(alloc, values, body)?)?;
        }
    }
    Ok((made, others))
}

// What stands at the first `default`.
#[tactic(auto, using(crate::proofs::Splits::defaults))]
fn first_of(bodies: Vec<Stmt>) -> Option<Stmt>
    ensures { (cs : List CaseItem) → bodies.items ≡ default_bodies cs → result ≡ statement.default_body (map item_of cs) }
{
    let mut rest = bodies;
    rest.reverse();
    rest.pop()
}

// A statement that may be left out, as a part of another one.
fn boxed(alloc: Global, s: Option<Stmt>) -> Result<Option<Boxed<Stmt>>, AllocError>
    ensures { IfOk result (λ b. b ≡ s) }
{
    match s {
        None => Ok(None),
        Some(s) => Ok(Some(Boxed::new(alloc, s)?)),
    }
}

// A `case` of a selector and items.
fn case_of(
    alloc: Global,
    kind: CaseKind,
    on: Expr,
    items: Vec<CaseItem>,
) -> Result<Stmt, AllocError>
    ensures { IfOk result (λ s. s ≡ made.Case kind on (statement.case_items (map item_of items.items)) (statement.default_body (map item_of items.items))) }
{
    let (items, others) = split(alloc, items)?;
    let (items, other) = pairs::both(Ok(items), boxed(alloc, first_of(others)))?;
    Ok(Stmt::Case {
        kind,
        on,
        items,
        other,
    })
}

/// A `case`, `casez` or `casex` of a selector and items as they are found (IEEE 1800-2017 clause 12.5): all values have the width of the
/// widest, and where that is over 128 bits, an operator that does arithmetic in one of them breaks E502. The first break in the order
/// of the text counts; where a value isn't whole, no width is known.
#[tactic(auto, using(crate::proofs::Wides::cases))]
pub fn case_stmt(
    alloc: Global,
    kind: CaseKind,
    on: Result<Valued, Halt>,
    items: Vec<CaseFound>,
) -> Result<Stmt, Halt>
    ensures { (k : Context) → Gives result (statement.case_stmt k kind (found_by k.source on) (map (item_found k.source) items.items)) }
{
    let wide = is_wide(&on, items.as_slice());
    let on = selector_at(wide, on);
    let (on, items) = joined(on, whole_items(alloc, wide, items))?;
    Ok(case_of(alloc, kind, on.expr, items)?)
}
