//! The values and items of a `case` (IEEE 1364-2005 clause 9.5).

ghost use Rattle.std.specs.Prelude.{◌≡◌, map};
ghost use Rattle.v_scopes.specs.Env.{found};
ghost use Rattle.v_expr_rules.specs.Walks.{expr_seen};
ghost use Rattle.v_stmt_rules.specs.Stmts as means;

use crate::statements::StmtSeen;
use v_expr_rules::{Seen, commas, earlier, expr_seen, in_context, is_wide, plus};
use v_scopes::Scope;
use v_tree::{VExpr, VItem};

/// What is kept of values with commas between.
#[derive(Clone, Copy, Drop)]
pub struct ValuesSeen {
    /// How many tokens they have.
    pub size: u32,
    /// The greatest of their widths; 129 stands for all that are greater.
    pub width: u32,
    /// The first token that breaks a rule where all are valued in at most 128 bits.
    pub narrow: Option<u32>,
    /// The first token that breaks a rule where all are valued in more.
    pub wide: Option<u32>,
}

/// What is kept of items of a `case`.
#[derive(Clone, Copy, Drop)]
pub struct CaseSeen {
    /// How many tokens they have.
    pub size: u32,
    /// The greatest width of their values; 129 stands for all that are greater.
    pub width: u32,
    /// The first token of a value that breaks a rule where all are valued in at most 128 bits.
    pub narrow: Option<u32>,
    /// The first token of a value that breaks a rule where all are valued in more.
    pub wide: Option<u32>,
    /// The first token of a body that breaks a rule.
    pub first: Option<u32>,
}

fn no_values() -> ValuesSeen
    ensures { result ≡ means.no_values }
{
    ValuesSeen {
        size: 0,
        width: 0,
        narrow: None,
        wide: None,
    }
}

fn value_added(values: ValuesSeen, before: u32, value: Seen) -> ValuesSeen
    ensures { result ≡ means.value_added values before value }
{
    ValuesSeen {
        size: plus(before, value.size),
        width: values.width.max(value.width),
        narrow: earlier(values.narrow, value.narrow),
        wide: earlier(values.wide, value.wide),
    }
}

/// Values with commas, of which the first one begins at a token.
pub(crate) fn values_seen(
    scope: &Scope,
    items: &[VItem],
    values: &[VExpr],
    start: u32,
) -> ValuesSeen
    ensures { result ≡ means.values_from (map expr_seen values.now) (found scope.now) items.now start 0 means.no_values }
{
    let mut seen = no_values();
    for i in 0..values.len() {
        let before = commas(i, seen.size);
        let value = expr_seen(scope, items, &values[i], plus(start, before));
        seen = value_added(seen, before, value);
    }
    seen
}

/// An item with values.
pub(crate) fn case_item(values: ValuesSeen, body: StmtSeen) -> CaseSeen
    ensures { result ≡ means.case_item values body }
{
    CaseSeen {
        size: plus(values.size, plus(1, body.size)),
        width: values.width,
        narrow: values.narrow,
        wide: values.wide,
        first: body.first,
    }
}

/// A `default`.
pub(crate) fn default_item(body: StmtSeen) -> CaseSeen
    ensures { result ≡ means.default_item body }
{
    CaseSeen {
        size: plus(2, body.size),
        width: 0,
        narrow: None,
        wide: None,
        first: body.first,
    }
}

/// No items.
pub(crate) fn no_cases() -> CaseSeen
    ensures { result ≡ means.no_cases }
{
    CaseSeen {
        size: 0,
        width: 0,
        narrow: None,
        wide: None,
        first: None,
    }
}

/// Items and one more.
pub(crate) fn case_added(list: CaseSeen, item: CaseSeen) -> CaseSeen
    ensures { result ≡ means.case_added list item }
{
    CaseSeen {
        size: plus(list.size, item.size),
        width: list.width.max(item.width),
        narrow: earlier(list.narrow, item.narrow),
        wide: earlier(list.wide, item.wide),
        first: earlier(list.first, item.first),
    }
}

fn case_values(list: CaseSeen, wide: bool) -> Option<u32>
    ensures { result ≡ means.case_values list wide }
{
    if wide { list.wide } else { list.narrow }
}

/// A `case` with its selector: all values are valued at the greatest width.
pub(crate) fn case_seen(test: Seen, list: CaseSeen) -> StmtSeen
    ensures { result ≡ means.case_seen test list }
{
    let wide = is_wide(test.width.max(list.width));
    StmtSeen {
        size: plus(4, plus(test.size, list.size)),
        first: earlier(
            in_context(test, wide),
            earlier(case_values(list, wide), list.first),
        ),
    }
}
