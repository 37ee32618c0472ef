//! What the words ask for.

ghost use Rattle.std.specs.Prelude.{◌≡◌, ◌≤◌, true, length, map, codes, option_map, option_and_then, string_bytes, IfOk};
ghost use Rattle.std.specs.List.{list_all};
ghost use Rattle.clap.specs.Words.{rows_of, found_of, first_value};
ghost use Rattle.eval_words.specs.Words as spec;

use crate::command::command;
use clap::ArgMatches;
use clap::error::ErrorKind;
use std::alloc::{AllocError, Global};
use std::string::String;
use sv_source::{Items, Text};

/// The most words, and the most bytes that they may have together.
const LIMIT: usize = 1 << 30;

/// The language of a design that is run.
#[derive(Clone, Copy, PartialEq, Eq, Debug)]
pub enum Language {
    /// SystemVerilog: `sv`.
    Source,
    /// Verilog-2005: `v`.
    Target,
}

/// A design that is run over rows.
#[derive(Drop)]
pub struct EvalRun {
    /// The language of its files.
    pub language: Language,
    /// The name of its top module.
    pub top: Text,
    /// The path of the row file.
    pub rows: Text,
    /// The paths of its files, one of them where the language is the target's.
    pub files: Items<Text>,
}

/// What the words ask for.
#[derive(Drop)]
pub enum EvalWords {
    /// A chain of so many stages, made, translated and run: `--gen N`.
    Generate(u32),
    /// A design that is run: `--lang sv|v --top NAME ROWS FILE...`.
    Run(EvalRun),
}

// Whether there are few enough words and bytes.
fn are_few(words: &[String]) -> bool
    ensures { result ≡ spec.are_few (map string_bytes words.now) }
{
    if words.len() > LIMIT {
        return false;
    }
    let mut room = LIMIT;
    for word in words {
        match room.checked_sub(word.len()) {
            Some(left) => room = left,
            None => return false,
        }
    }
    true
}

fn language_of(word: &[u8]) -> Option<Language>
    ensures { result ≡ spec.language_of word.now }
{
    if word == b"sv".as_slice() {
        Some(Language::Source)
    } else if word == b"v".as_slice() {
        Some(Language::Target)
    } else {
        None
    }
}

fn texts_of(alloc: Global, words: &[&str]) -> Result<Items<Text>, AllocError>
    ensures { IfOk result (λ texts. texts ≡ map (λ w. w.now) words.now) }
{
    let mut texts = Items::new(alloc);
    for word in words {
        texts.push(Text::from_bytes(alloc, word.as_bytes())?)?;
    }
    Ok(texts)
}

fn fits(language: Language, files: &[&str]) -> bool
    ensures { result ≡ spec.fits language (map (λ w. w.now) files.now) }
{
    match language {
        Language::Source => true,
        Language::Target => files.len() == 1,
    }
}

// What some parts of a run ask for together.
fn run_of(
    alloc: Global,
    language: Option<Language>,
    top: Option<&str>,
    rows: Option<&str>,
    files: Option<&[&str]>,
) -> Result<Option<EvalWords>, AllocError>
    ensures { IfOk result (λ r. r ≡ spec.run_of language (option_map (λ w. w.now) top.entry) (option_map (λ w. w.now) rows.entry) (option_map (λ ws. map (λ w. w.now) ws.now) files.entry)) }
{
    match (language, top, rows, files) {
        (Some(language), Some(top), Some(rows), Some(files)) if fits(language, files) => {
            let top = Text::from_bytes(alloc, top.as_bytes())?;
            let rows = Text::from_bytes(alloc, rows.as_bytes())?;
            let files = texts_of(alloc, files)?;
            Ok(Some(EvalWords::Run(EvalRun {
                language,
                top,
                rows,
                files,
            })))
        }
        _ => Ok(None),
    }
}

fn language_in(matches: &ArgMatches<'_>) -> Option<Language>
    ensures { result ≡ option_and_then spec.language_of (first_value (found_of matches.now) (codes "lang")) }
{
    match matches.get_str("lang") {
        None => None,
        Some(word) => language_of(word.as_bytes()),
    }
}

// What the matches of the command ask for.
fn run_in(alloc: Global, matches: &ArgMatches<'_>) -> Result<Option<EvalWords>, AllocError>
    ensures { IfOk result (λ r. r ≡ spec.run_in (rows_of (found_of matches.now))) }
{
    run_of(
        alloc,
        language_in(matches),
        matches.get_str("top"),
        matches.get_str("ROWS"),
        matches.get_strs("FILE"),
    )
}

// A run, where the command takes the words.
fn run_asked<'a>(alloc: Global, words: &'a [String]) -> Result<Option<EvalWords>, AllocError>
    ensures { IfOk result (λ r. r ≡ spec.run_asked (map string_bytes words.now)) }
{
    match command(alloc)?.try_get_matches_from(words) {
        Ok(matches) => run_in(alloc, &matches),
        Err(error) => match error.kind() {
            ErrorKind::OutOfMemory => Err(AllocError),
            _ => Ok(None),
        },
    }
}

fn are_digits(word: &[u8]) -> bool
    ensures { result ≡ list_all spec.is_digit word.now }
{
    word.iter().all(|c| (b'0'..=b'9').contains(c))
}

// The number that at most three digits write.
fn value_of(word: &[u8]) -> u32
    requires few { length word.now ≤ 3 }
    requires digits { list_all spec.is_digit word.now ≡ true }
    ensures { result ≡ spec.value_of 0 word.now }
{
    let mut value = 0;
    for c in word {
        value = value * 10 + u32::from(*c - b'0');
    }
    value
}

// Whether there is no digit before a zero.
fn begins_with_zero(word: &[u8]) -> bool
    ensures { result ≡ spec.begins_with_zero word.now }
{
    match word {
        [] => true,
        [first, ..] => *first == b'0',
    }
}

// A decimal from 1 to 500 without a leading zero.
fn count_of(word: &[u8]) -> Option<u32>
    ensures { result ≡ spec.count_of word.now }
{
    if begins_with_zero(word) || word.len() > 3 || !are_digits(word) || value_of(word) > 500 {
        None
    } else {
        Some(value_of(word))
    }
}

/// What the words after the program's name ask for: `--lang sv|v --top NAME ROWS FILE...` as `clap` reads it, in any order, with
/// one file where the language is `v`; or `--gen N` with a decimal from 1 to 500 without a leading zero. `None` for any other
/// words, and for more than 2^30 of them or 2^30 bytes. It fails for want of memory alone.
pub fn read_eval_words(alloc: Global, words: &[String]) -> Result<Option<EvalWords>, AllocError>
    ensures { IfOk result (λ r. r ≡ spec.asked (map string_bytes words.now)) }
{
    if !are_few(words) {
        return Ok(None);
    }
    match words {
        [first, rest @ ..] if first.as_bytes() == b"--gen".as_slice() => match rest {
            [count] => Ok(count_of(count.as_bytes()).map(EvalWords::Generate)),
            _ => Ok(None),
        },
        _ => run_asked(alloc, words),
    }
}
