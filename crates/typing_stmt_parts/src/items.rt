//! Items of `case` statements, and the statements that they make.

ghost use Rattle.std.specs.Prelude.{◌≡◌, ◌≤◌, List, Ok, [], length, take};
ghost use Rattle.expr_type.specs.Names.{Context};
ghost use Rattle.expr_type.specs.Statements as statement;
ghost use Rattle.routine_fits.specs.Sound.{AllSoundFunctions};
ghost use Rattle.stmt_types.specs.Lists.{listed};
ghost use Rattle.sv_tree.specs.declared.expressions.Expr.{Expr};
ghost use Rattle.sv_tree.specs.declared.statements.CaseItem.{CaseItem};
ghost use Rattle.sv_types.specs.declared.statement.Function.{Function};
ghost use Rattle.typing_parts.specs.Typists.{IsReady};
ghost use Rattle.typing_steps.specs.Steps.{TypesTo};
ghost use Rattle.typing_stmt_parts.specs.Items.{AllFoundTo, Both, Ends, GoesOn, IsItem, Kept, NotLacking, Unless, cases_of, is_loud, items_of};

use expr_type::{Halt, Valued};
use function_cuts::cut;
use std::alloc::Global;
use stmt_types::{CaseFound, case_kind, case_stmt};
use sv_tree::CaseKeyword;
use sv_types::Stmt;
use typing_parts::Known;

/// Whether something breaks a rule or lacks memory: nothing is looked at behind it.
pub fn ends<A>(found: &Result<A, Halt>) -> bool
    ensures { result ≡ is_loud found.now }
{
    match found {
        Ok(_) => false,
        Err(Halt::Quiet) => false,
        Err(Halt::Memory) => true,
        Err(Halt::Breaks { .. }) => true,
    }
}

// What goes on: it breaks no rule and lacks no memory.
fn going_on<A: Drop>(found: Result<A, Halt>) -> Result<Result<A, Halt>, Halt>
    ensures { GoesOn found result }
{
    match found {
        Ok(found) => Ok(Ok(found)),
        Err(Halt::Quiet) => Ok(Err(Halt::Quiet)),
        Err(Halt::Memory) => Err(Halt::Memory),
        Err(Halt::Breaks { at, rule }) => Err(Halt::Breaks { at, rule }),
    }
}

// Both of two things, or what the first of them stops by that isn't there.
fn both<A: Drop, B: Drop>(a: Result<A, Halt>, b: Result<B, Halt>) -> Result<(A, B), Halt>
    ensures { Both a b result }
{
    match a {
        Ok(a) => Ok((a, b?)),
        Err(halt) => Err(halt),
    }
}

// Want of memory, where there is some.
fn lacking<A>(found: &Result<A, Halt>) -> Result<(), Halt>
    ensures { NotLacking found.now result }
{
    match found {
        Err(Halt::Memory) => Err(Halt::Memory),
        Ok(_) => Ok(()),
        Err(Halt::Quiet) => Ok(()),
        Err(Halt::Breaks { .. }) => Ok(()),
    }
}

// Something, unless something else lacks memory.
fn unless<A: Drop>(lacking: Result<(), Halt>, made: A) -> Result<A, Halt>
    ensures { Unless lacking made result }
{
    match lacking {
        Ok(_) => Ok(made),
        Err(halt) => Err(halt),
    }
}

// Functions that only what isn't whole makes known aren't known behind it.
fn forgotten(alloc: Global, before: usize, body: &Result<Stmt, Halt>, known: &mut Known)
    requires ready { IsReady known.old }
    requires within { before ≤ length known.old.functions }
    requires sound { AllSoundFunctions (take before known.old.functions) }
    ensures functions { Kept body.now known.old.functions known.new.functions before }
    ensures ready { IsReady known.new }
{
    match body {
        Ok(_) => {}
        Err(_) => cut(alloc, known, before),
    }
}

/// The values of `default`.
pub fn no_values(alloc: Global) -> Result<Vec<Valued>, Halt>
    ensures { listed result ≡ Ok [] }
{
    Ok(Vec::new(alloc))
}

/// An item whose values break a rule: nothing is looked at behind them. Want of memory alone is no item.
pub fn ended(values: Result<Vec<Valued>, Halt>) -> Result<CaseFound, Halt>
    ensures { Ends (listed values) result }
{
    let lacks = lacking(&values);
    unless(
        lacks,
        CaseFound {
            is_default: false,
            values,
            body: Err(Halt::Quiet),
        },
    )
}

/// An item of values and of a statement before which so many functions were known (IEEE 1800-2017 clause 12.5): where the statement isn't
/// whole, the functions that it made known aren't known behind it. Want of memory alone is no item.
pub fn item_by(
    alloc: Global,
    before: usize,
    is_default: bool,
    values: Result<Vec<Valued>, Halt>,
    body: Result<Stmt, Halt>,
    known: &mut Known,
) -> Result<CaseFound, Halt>
    requires ready { IsReady known.old }
    requires within { before ≤ length known.old.functions }
    requires sound { AllSoundFunctions (take before known.old.functions) }
    ensures item { IsItem is_default values body result }
    ensures functions { Kept body known.old.functions known.new.functions before }
    ensures ready { IsReady known.new }
{
    forgotten(alloc, before, &body, known);
    let lacks = lacking(&body);
    unless(
        lacks,
        CaseFound {
            is_default,
            values,
            body,
        },
    )
}

/// A `case` of a selector and items that have been looked at (IEEE 1800-2017 clause 12.5). The first break in the order of the text
/// counts.
pub fn case_of(
    alloc: Global,
    keyword: CaseKeyword,
    sought: Result<Valued, Halt>,
    found: Result<Vec<CaseFound>, Halt>,
) -> Result<Stmt, Halt>
    ensures { (k : Context) (e : Expr) (cs : List CaseItem) (fs gs hs : List Function) → TypesTo sought (statement.condition k e fs) gs → AllFoundTo found (items_of k cs gs) hs → TypesTo result (cases_of k keyword e cs fs) hs }
{
    let going = going_on(sought);
    let (on, items) = both(going, found)?;
    let kind = case_kind(keyword);
    case_stmt(alloc, kind, on, items)
}
