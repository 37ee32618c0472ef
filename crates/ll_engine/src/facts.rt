ghost use Rattle.std.specs.Prelude.{◌≡◌, ◌≤◌, ◌<◌, ℕ, true, false, Some, length, slice_get, slice_index_or, IfOk, []};
ghost use Rattle.ll_engine.specs.declared.derive.Target.TheVariants.{Symbol as SymbolOf, Head as HeadOf};
ghost use Rattle.ll_engine.specs.Marks.{AreMarks};
ghost use Rattle.ll_engine.specs.Rules.{ground_rules, start_rules};
ghost use Rattle.ll_engine.specs.Facts.{AreSymbolFacts, AreFacts, widest, width, head_count};

use crate::derive::{Target, follow_rules, ground_rules, lead_rules, start_rules};
use crate::rules::{Marks, marks_of};
use crate::table::{Part, Row};
use sqlite_items::Items;
use std::alloc::{AllocError, Global};

/// The heads that begin with a symbol, that lead with it where all is left out that may be, and that it
/// follows.
#[derive(Debug, Drop)]
pub struct SymbolFacts {
    pub begins: Marks,
    pub leads: Marks,
    pub follows: Marks,
}

/// The heads that have a text, those that can be empty, the facts of each symbol, and for each row the heads
/// that lead to its head.
#[derive(Debug, Drop)]
pub struct Facts {
    pub text: Marks,
    pub blank: Marks,
    pub symbols: Items<SymbolFacts>,
    pub reaches: Items<Marks>,
}

fn widest(parts: &[Part], start: usize) -> usize
    requires { start ≤ 65536 }
    ensures same { result ≡ widest parts.now start }
    ensures small { result ≤ 65536 }
{
    let mut width = start;
    for part in parts {
        match part {
            Part::Term(symbol) => width = width.max(*symbol as usize + 1),
            Part::Non(_) => {}
            Part::Maybe(_) => {}
            Part::Many(_) => {}
            Part::Chain(_) => {}
        }
    }
    width
}

/// A number above all symbols of the rows.
pub fn width(rows: &[Row]) -> usize
    ensures same { result ≡ width rows.now 0 }
    ensures small { result ≤ 65536 }
{
    let mut width = 0;
    for row in rows {
        width = widest(row.parts.as_slice(), width);
    }
    width
}

/// A number above all heads of the rows.
pub fn head_count(rows: &[Row]) -> usize
    ensures same { result ≡ head_count rows.now 0 }
    ensures small { result ≤ 65536 }
{
    let mut count = 0usize;
    for row in rows {
        count = count.max(row.head as usize + 1);
    }
    count
}

fn symbol_facts(
    alloc: Global,
    rows: &[Row],
    blank: &[bool],
    symbol: u16,
) -> Result<SymbolFacts, AllocError>
    ensures { IfOk result (λ f. AreSymbolFacts rows.now blank.now symbol f) }
{
    let rules = start_rules(alloc, blank, Target::Symbol(symbol), rows)?;
    let begins = marks_of(alloc, rules.as_slice())?;
    let rules = lead_rules(alloc, blank, symbol, rows)?;
    let leads = marks_of(alloc, rules.as_slice())?;
    let rules = follow_rules(alloc, blank, leads.as_slice(), symbol, rows)?;
    let follows = marks_of(alloc, rules.as_slice())?;
    Ok(SymbolFacts {
        begins,
        leads,
        follows,
    })
}

fn all_symbol_facts(
    alloc: Global,
    rows: &[Row],
    blank: &[bool],
    width: usize,
) -> Result<Items<SymbolFacts>, AllocError>
    requires { width ≤ 65536 }
    ensures long { IfOk result (λ all. length all ≡ width) }
    ensures each { IfOk result (λ all. (a : ℕ) → (s : _) → slice_get all a ≡ Some s → AreSymbolFacts rows.now blank.now a s) }
{
    let mut all = Items::new(alloc);
    for symbol in 0..width {
        let facts = symbol_facts(alloc, rows, blank, symbol as u16)?;
        all.push(facts)?;
    }
    Ok(all)
}

fn reaches(alloc: Global, rows: &[Row], blank: &[bool]) -> Result<Items<Marks>, AllocError>
    ensures long { IfOk result (λ all. length all ≡ length rows.now) }
    ensures each { IfOk result (λ all. (i : ℕ) → (row : _) → slice_get rows.now i ≡ Some row → i < length all → AreMarks (start_rules blank.now (HeadOf row.head) rows.now) (slice_index_or all i [])) }
{
    let mut all = Items::new(alloc);
    for row in rows {
        let rules = start_rules(alloc, blank, Target::Head(row.head), rows)?;
        let marks = marks_of(alloc, rules.as_slice())?;
        all.push(marks)?;
    }
    Ok(all)
}

/// What the class of tables speaks of.
pub fn make_facts(alloc: Global, rows: &[Row]) -> Result<Facts, AllocError>
    ensures { IfOk result (λ f. AreFacts rows.now f) }
{
    let rules = ground_rules(alloc, true, rows)?;
    let text = marks_of(alloc, rules.as_slice())?;
    let rules = ground_rules(alloc, false, rows)?;
    let blank = marks_of(alloc, rules.as_slice())?;
    let symbols = all_symbol_facts(alloc, rows, blank.as_slice(), width(rows))?;
    let reaches = reaches(alloc, rows, blank.as_slice())?;
    Ok(Facts {
        text,
        blank,
        symbols,
        reaches,
    })
}
