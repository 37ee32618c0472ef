//! The reader of the target grammar.

ghost use Rattle.std.specs.Prelude.{◌≡◌, ◌<◌, ◌≤◌, ◌+◌, ◌^◌, ◌==◌, map, length, IfOk};
ghost use Rattle.std.specs.List.{slice_split};
ghost use Rattle.v_tree.specs.Reserved.{words_of};
ghost use Rattle.v_tree.specs.Rows.{place_among, symbol_among, head_number, class_symbol, token_symbol, part_by, part_of, row_from, row_of};
ghost use Rattle.v_tree.specs.Table.{table};

use crate::grammar_text::{CLASSES, HEADS, ROWS, SPELLED};
use ll_engine::{Ll1, NewFail, Part, Parts, Row, Table};
use std::alloc::{AllocError, Global};

/// The pieces of a text between the separators.
fn pieces(
    alloc: Global,
    text: &'static str,
    separator: char,
) -> Result<Vec<&'static str>, AllocError>
    requires { separator < 128 }
    ensures { IfOk result (λ pieces. map (λ x. x.now) pieces.items ≡ slice_split (λ c. c == separator) text.now) }
{
    text.split(separator).collect(alloc)
}

/// The place of the text among the words, if it is one of them.
fn place_among(words: &'static str, text: &[u8]) -> Option<usize>
    ensures { result ≡ place_among (words_of words.now) text.now }
{
    words.split(' ').position(|word| word.as_bytes() == text)
}

/// The place of the text among the words, counted from `first`, or 0 where it is none of them.
#[tactic(auto, using(crate::proofs::Positions::place_within))]
fn symbol_among(first: u16, words: &'static str, text: &[u8]) -> u16
    requires { first + length (words_of words.now) ≤ 2 ^ 16 }
    ensures { result ≡ symbol_among first (words_of words.now) text.now }
{
    match place_among(words, text) {
        Some(place) => first + place as u16,
        None => 0,
    }
}

/// The number of a head.
#[tactic(auto, unfolding(crate::specs::Rows::head_number))]
fn head_number(name: &[u8]) -> u16
    ensures { result ≡ head_number name.now }
{
    symbol_among(0, HEADS, name)
}

/// The symbol of a class of names or numbers.
#[tactic(auto, unfolding(crate::specs::Rows::class_symbol))]
fn class_symbol(name: &[u8]) -> u16
    ensures { result ≡ class_symbol name.now }
{
    symbol_among(1, CLASSES, name)
}

/// The symbol of a word or a mark.
#[tactic(auto, unfolding(crate::specs::Rows::token_symbol))]
fn token_symbol(text: &[u8]) -> u16
    ensures { result ≡ token_symbol text.now }
{
    symbol_among(5, SPELLED, text)
}

/// The part that stands so in a row.
fn part(word: &[u8]) -> Part
    ensures { result ≡ part_of word.now }
{
    match word {
        [] => Part::Term(0),
        [b'\'', text @ ..] => Part::Term(token_symbol(text)),
        [b'#', name @ ..] => Part::Term(class_symbol(name)),
        [b'?', name @ ..] => Part::Maybe(head_number(name)),
        [b'*', name @ ..] => Part::Many(head_number(name)),
        name => Part::Non(head_number(name)),
    }
}

/// The parts that stand so in a row.
fn parts(alloc: Global, words: &[&'static str]) -> Result<Parts, AllocError>
    ensures { IfOk result (λ parts. parts ≡ map (λ word. part_of word.now) words.now) }
{
    let mut parts = Parts::new(alloc);
    for word in words {
        parts.push(part(word.as_bytes()))?;
    }
    Ok(parts)
}

/// The row of a line, which has these words.
fn row(alloc: Global, words: &[&'static str]) -> Result<Row, AllocError>
    ensures { IfOk result (λ row. row ≡ row_from (map (λ word. word.now) words.now)) }
{
    match words {
        [head, sign, rest @ ..] => {
            let parts = parts(alloc, rest)?;
            Ok(Row {
                head: head_number(head.as_bytes()),
                parts,
                deep: sign.as_bytes() == b">".as_slice(),
            })
        }
        _ => Ok(Row {
            head: 0,
            parts: Parts::new(alloc),
            deep: false,
        }),
    }
}

/// The rows of these lines.
fn rows(alloc: Global, lines: &[&'static str]) -> Result<Table, AllocError>
    ensures { IfOk result (λ rows. rows ≡ map (λ line. row_of line.now) lines.now) }
{
    let mut rows = Table::new(alloc);
    for line in lines {
        let words = pieces(alloc, line, ' ')?;
        rows.push(row(alloc, &words)?)?;
    }
    Ok(rows)
}

/// The rows of the target grammar.
fn grammar_rows(alloc: Global) -> Result<Table, AllocError>
    ensures { IfOk result (λ rows. rows ≡ table) }
{
    let lines = pieces(alloc, ROWS, '\n')?;
    rows(alloc, &lines)
}

/// The reader of the target grammar (the subset of IEEE 1364-2005 annex A in which texts are written), or want of memory. A
/// text of the grammar is a list of the symbols of its tokens.
pub fn grammar(alloc: Global) -> Result<Ll1, AllocError>
    ensures { IfOk result (λ reader. reader ≡ table) }
{
    match Ll1::new(alloc, grammar_rows(alloc)?) {
        Ok(reader) => Ok(reader),
        Err(NewFail::Memory) => Err(AllocError),
        Err(NewFail::Unfit { .. }) => unreachable!(),
    }
}
