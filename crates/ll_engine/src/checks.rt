ghost use Rattle.std.specs.Prelude.{◌≡◌, ◌≤◌, ◌<◌, [], length, slice_index_or, slice_get, IfOk, Some, ℕ, is_none};
ghost use Rattle.ll_engine.specs.Knows.{row_begun, row_blank};
ghost use Rattle.ll_engine.specs.Marks.{marked};
ghost use Rattle.ll_engine.specs.Grammar.{named};
ghost use Rattle.ll_engine.specs.Rules.{front};
ghost use Rattle.ll_engine.specs.Facts.{AreHeads, head_count, begun, first_begun, first_blank, begun_rows, rank_in, head_of, is_same, alone, blank_alone, apart, comes, decided, has_row, name_keeps, parts_keep, row_keeps, first_break};

use crate::derive::{front, is_marked};
use crate::facts::{Facts, SymbolFacts, head_count};
use crate::rules::Marks;
use crate::table::{Part, Row};
use crate::tables::Head;
use sqlite_items::Items;
use std::alloc::{AllocError, Global};

/// Whether the symbol begins the parts.
fn begun(blank: &[bool], begins: &[bool], symbol: usize, parts: &[Part]) -> bool
    ensures { result ≡ begun blank.now begins.now symbol parts.now }
{
    for part in parts {
        match part {
            Part::Term(first) => return *first as usize == symbol,
            Part::Non(head) => {
                if is_marked(begins, *head) {
                    return true;
                }
                if !is_marked(blank, *head) {
                    return false;
                }
            }
            Part::Maybe(head) => {
                if is_marked(begins, *head) {
                    return true;
                }
            }
            Part::Many(head) => {
                if is_marked(begins, *head) {
                    return true;
                }
            }
            Part::Chain(head) => {
                if is_marked(begins, *head) {
                    return true;
                }
            }
        }
    }
    false
}

/// The first row of the head that the symbol begins.
fn first_begun(
    blank: &[bool],
    begins: &[bool],
    symbol: usize,
    head: u16,
    rows: &[Row],
) -> Option<u16>
    requires { length rows.now ≤ 65536 }
    ensures { result ≡ first_begun blank.now begins.now symbol head rows.now 0 }
{
    for (n, row) in rows.iter().enumerate() {
        if row.head == head {
            if begun(blank, begins, symbol, row.parts.as_slice()) {
                return Some(n as u16);
            }
        }
    }
    None
}

fn is_blank(blank: &[bool], parts: &[Part]) -> bool
    ensures { result ≡ is_none (front blank.now parts.now) }
{
    match front(blank, parts) {
        None => true,
        Some(_) => false,
    }
}

/// The first row of the head that can be empty.
fn first_blank(blank: &[bool], head: u16, rows: &[Row]) -> Option<u16>
    requires { length rows.now ≤ 65536 }
    ensures { result ≡ first_blank blank.now head rows.now 0 }
{
    for (n, row) in rows.iter().enumerate() {
        if row.head == head {
            if is_blank(blank, row.parts.as_slice()) {
                return Some(n as u16);
            }
        }
    }
    None
}

/// By symbol the row of the head that it begins.
fn begun_rows(
    alloc: Global,
    blank: &[bool],
    head: u16,
    rows: &[Row],
    symbols: &[SymbolFacts],
) -> Result<Items<Option<u16>>, AllocError>
    requires { length rows.now ≤ 65536 }
    ensures { IfOk result (λ all. all ≡ begun_rows blank.now head rows.now symbols.now 0) }
{
    let mut all = Items::new(alloc);
    for (n, symbol) in symbols.iter().enumerate() {
        all.push(first_begun(blank, symbol.begins.as_slice(), n, head, rows))?;
    }
    Ok(all)
}

fn rank(reaches: &[Marks], head: u16) -> u64
    ensures { result ≡ rank_in reaches.now head }
{
    let mut rank = 0u64;
    for marks in reaches {
        if is_marked(marks.as_slice(), head) {
            rank += 1;
        }
    }
    rank
}

/// What is kept of each head, by number.
pub fn make_heads(alloc: Global, rows: &[Row], facts: &Facts) -> Result<Items<Head>, AllocError>
    requires { length rows.now ≤ 65536 }
    ensures { IfOk result (λ heads. AreHeads rows.now facts.now heads) }
{
    let count = head_count(rows);
    let blank = facts.blank.as_slice();
    let mut heads = Items::new(alloc);
    for number in 0..count {
        let head = number as u16;
        let begun = begun_rows(alloc, blank, head, rows, facts.symbols.as_slice())?;
        heads.push(Head {
            begun,
            blank: first_blank(blank, head, rows),
            rank: rank(facts.reaches.as_slice(), head),
        })?;
    }
    Ok(heads)
}

fn kept_row(heads: &[Head], head: u16, symbol: usize) -> Option<u16>
    ensures { result ≡ row_begun heads.now head symbol }
{
    let head = heads.get(head as usize)?;
    *head.begun.get(symbol)?
}

fn kept_blank(heads: &[Head], head: u16) -> Option<u16>
    ensures { result ≡ row_blank heads.now head }
{
    let head = heads.get(head as usize)?;
    head.blank
}

fn is_same(row: Option<u16>, n: usize) -> bool
    ensures { result ≡ is_same row n }
{
    match row {
        None => false,
        Some(row) => row as usize == n,
    }
}

/// Whether each symbol that begins the row is kept with this row of its head.
fn is_alone(
    blank: &[bool],
    heads: &[Head],
    row: usize,
    head: u16,
    parts: &[Part],
    symbols: &[SymbolFacts],
) -> bool
    ensures { result ≡ alone blank.now heads.now row head parts.now symbols.now 0 }
{
    for (n, symbol) in symbols.iter().enumerate() {
        if begun(blank, symbol.begins.as_slice(), n, parts) {
            if !is_same(kept_row(heads, head, n), row) {
                return false;
            }
        }
    }
    true
}

/// Whether the row, if it can be empty, is kept so of its head.
fn is_blank_alone(blank: &[bool], heads: &[Head], row: usize, head: u16, parts: &[Part]) -> bool
    ensures { result ≡ blank_alone blank.now heads.now row head parts.now }
{
    if is_blank(blank, parts) {
        return is_same(kept_blank(heads, head), row);
    }
    true
}

/// Whether the alternatives of the head are told apart.
fn are_apart(facts: &Facts, heads: &[Head], head: u16, rows: &[Row]) -> bool
    ensures { result ≡ apart facts.now heads.now head rows.now 0 }
{
    let blank = facts.blank.as_slice();
    for (n, row) in rows.iter().enumerate() {
        if row.head == head {
            if !is_blank_alone(blank, heads, n, head, row.parts.as_slice()) {
                return false;
            }
            if !is_alone(
                blank,
                heads,
                n,
                head,
                row.parts.as_slice(),
                facts.symbols.as_slice(),
            ) {
                return false;
            }
        }
    }
    true
}

/// Whether the symbol comes at the parts that are left of a row of the head, by the first that is not left
/// out.
fn comes(symbol: &SymbolFacts, number: usize, head: u16, front: Option<Part>) -> bool
    ensures { result ≡ comes symbol.now number head front }
{
    match front {
        None => is_marked(symbol.follows.as_slice(), head),
        Some(Part::Term(first)) => first as usize == number,
        Some(Part::Non(first)) => is_marked(symbol.leads.as_slice(), first),
        Some(Part::Maybe(_)) => false,
        Some(Part::Many(_)) => false,
        Some(Part::Chain(_)) => false,
    }
}

/// Whether no symbol begins the part and comes at those behind it.
fn is_decided(
    blank: &[bool],
    head: u16,
    part: Part,
    behind: &[Part],
    symbols: &[SymbolFacts],
) -> bool
    ensures { result ≡ decided blank.now head part behind.now symbols.now 0 }
{
    let front = front(blank, behind);
    for (n, symbol) in symbols.iter().enumerate() {
        if begun(blank, symbol.begins.as_slice(), n, &[part]) {
            if comes(symbol, n, head, front) {
                return false;
            }
        }
    }
    true
}

fn has_row(rows: &[Row], head: u16) -> bool
    ensures { result ≡ has_row rows.now head }
{
    for row in rows {
        if row.head == head {
            return true;
        }
    }
    false
}

fn part_keeps(rows: &[Row], facts: &Facts, head: u16, part: Part, behind: &[Part]) -> bool
    ensures { result ≡ name_keeps rows.now facts.now head part behind.now (named part) }
{
    let blank = facts.blank.as_slice();
    let Some(name) = part.named() else {
        return true;
    };
    if !has_row(rows, name) {
        return false;
    }
    if part.is_repeated() {
        if is_marked(blank, name) {
            return false;
        }
    }
    if part.may_skip(blank) {
        return is_decided(blank, head, part, behind, facts.symbols.as_slice());
    }
    true
}

fn parts_keep(rows: &[Row], facts: &Facts, head: u16, parts: &[Part]) -> bool
    ensures { result ≡ parts_keep rows.now facts.now head parts.now }
{
    for (n, part) in parts.iter().enumerate() {
        if !part_keeps(rows, facts, head, *part, &parts[n + 1..]) {
            return false;
        }
    }
    true
}

/// Whether the head of the row leads to itself.
fn is_left_recursive(reaches: &[Marks], row: usize, head: u16) -> bool
    ensures { result ≡ marked (slice_index_or reaches.now row []) head }
{
    match reaches.get(row) {
        None => false,
        Some(marks) => is_marked(marks.as_slice(), head),
    }
}

/// Whether neither the row's head nor one of its parts breaks the class.
fn row_keeps(rows: &[Row], facts: &Facts, heads: &[Head], number: usize, row: &Row) -> bool
    ensures { result ≡ row_keeps rows.now facts.now heads.now number row.now }
{
    if !is_marked(facts.text.as_slice(), row.head) {
        return false;
    }
    if is_left_recursive(facts.reaches.as_slice(), number, row.head) {
        return false;
    }
    if !are_apart(facts, heads, row.head, rows) {
        return false;
    }
    parts_keep(rows, facts, row.head, row.parts.as_slice())
}

/// The first row that breaks the class.
pub fn first_break(rows: &[Row], facts: &Facts, heads: &[Head]) -> Option<u16>
    requires { length rows.now ≤ 65536 }
    ensures { result ≡ first_break rows.now facts.now heads.now rows.now 0 }
{
    for (n, row) in rows.iter().enumerate() {
        if !row_keeps(rows, facts, heads, n, row) {
            return Some(n as u16);
        }
    }
    None
}
