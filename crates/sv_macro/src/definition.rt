// The text of a macro's definition (IEEE 1800-2017 clause 22.5.1).
ghost use Rattle.std.specs.Prelude.{◌≡◌, ◌++◌, ◌+◌, ◌^◌, ◌<◌, map, length, true, OnOk, IfOk, MatchOption};
ghost use Rattle.sv_macro.specs.Macros.{part_by, parts_of};
ghost use Rattle.sv_macro.specs.Tables.{numbers_in};
ghost use Rattle.sv_macro.specs.Definitions as spec;

use crate::coming::Coming;
use crate::formals::FormalNumbers;
use crate::macros::{Macro, Part, Parts};
use crate::pending::Pending;
use crate::texts::Texts;
use crate::tokens::{is, is_continued, is_line, is_name, said_by};
use crate::words::Word;
use std::alloc::{AllocError, Global};
use sv_source::{Kind, Text, Token, Tokens};

/// The list of a macro's formals.
#[derive(Drop, Debug)]
pub enum Formals {
    /// The names, and how many tokens the list has with its parenthesis.
    Listed(Texts, usize),
    /// Another token stands there.
    Departs(Token),
    /// The line ends in the list.
    Ends,
}

/// What a definition says.
#[derive(Drop, Debug)]
pub enum Defining {
    /// The name stands for the macro.
    Defines(Text, Macro),
    /// A token breaks a rule.
    BreaksAt(u16, Token),
    /// The list of formals isn't closed.
    BreaksList,
    /// There is no name.
    IllFormed,
}

fn ends_line(item: &Coming) -> bool
    ensures { result ≡ spec.ends_line item.now }
{
    match item {
        Coming::Raw(token) => is_line(token),
        Coming::Kept(_) => true,
        Coming::FileEnd => true,
        Coming::UseEnd(_) => true,
    }
}

fn push_of_line(line: &mut Tokens, item: Coming) -> Result<(), AllocError>
    ensures { OnOk result (line.new ≡ line.old ++ spec.of_line item) }
{
    match item {
        Coming::Raw(token) => {
            if is_continued(&token) {
                Ok(())
            } else {
                line.push(token)
            }
        }
        Coming::Kept(_token) => Ok(()),
        Coming::FileEnd => Ok(()),
        Coming::UseEnd(_name) => Ok(()),
    }
}

fn goes_on(coming: &Pending) -> bool
    ensures { result ≡ spec.goes_on coming.now }
{
    match coming.top() {
        Some(item) => !ends_line(&item.what),
        None => false,
    }
}

/// Takes the tokens up to the end of the logical line off.
pub fn take_line(alloc: Global, coming: &mut Pending) -> Result<Tokens, AllocError>
    ensures line { IfOk result (λ line. line ≡ spec.line_of coming.old) }
    ensures rest { OnOk result (coming.new ≡ spec.behind_line coming.old) }
{
    let mut line = Tokens::new(alloc);
    while goes_on(coming) {
        if let Some(item) = coming.pop() {
            push_of_line(&mut line, item)?;
        }
    }
    Ok(line)
}

fn copy_of(alloc: Global, token: &Token) -> Result<Token, AllocError>
    ensures { IfOk result (λ copy. copy ≡ token.now) }
{
    let text = token.text.copy(alloc)?;
    Ok(Token {
        kind: token.kind,
        text,
        place: token.place,
    })
}

// The list of formals behind its parenthesis, which isn't empty.
fn some_formals(alloc: Global, tokens: &[Token]) -> Result<Formals, AllocError>
    ensures { IfOk result (λ formals. formals ≡ spec.formals_from true tokens.now) }
{
    let mut names = Texts::new(alloc);
    let mut wanted = true;
    for (at, token) in tokens.iter().enumerate() {
        if wanted {
            if !is_name(token) {
                return Ok(Formals::Departs(copy_of(alloc, token)?));
            }
            names.push(token.text.copy(alloc)?)?;
            wanted = false;
        } else if is(token, b",") {
            wanted = true;
        } else if is(token, b")") {
            return Ok(Formals::Listed(names, at + 1));
        } else {
            return Ok(Formals::Departs(copy_of(alloc, token)?));
        }
    }
    Ok(Formals::Ends)
}

// The list of formals behind its parenthesis.
fn formals_of(alloc: Global, tokens: &[Token]) -> Result<Formals, AllocError>
    ensures { IfOk result (λ formals. formals ≡ spec.formals_of tokens.now) }
{
    match tokens {
        [] => Ok(Formals::Ends),
        [token, ..] if is(token, b")") => Ok(Formals::Listed(Texts::new(alloc), 1)),
        tokens => some_formals(alloc, tokens),
    }
}

fn is_use(word: Word) -> bool
    ensures { result ≡ spec.is_use word }
{
    matches!(word, Word::Use)
}

// The rule that a token of a body breaks.
fn barred(token: &Token) -> Option<u16>
    ensures { result ≡ spec.barred token.now }
{
    match token.kind {
        Kind::Cut => Some(208),
        Kind::Directive if is_use(said_by(token)) => None,
        Kind::Directive => Some(201),
        _ => None,
    }
}

// The first token of a body that breaks a rule.
fn first_barred(alloc: Global, body: &[Token]) -> Result<Option<Defining>, AllocError>
    ensures { IfOk result (λ first. first ≡ spec.first_barred body.now) }
{
    for token in body {
        if let Some(rule) = barred(token) {
            return Ok(Some(Defining::BreaksAt(rule, copy_of(alloc, token)?)));
        }
    }
    Ok(None)
}

fn part_of(alloc: Global, numbers: &FormalNumbers, token: &Token) -> Result<Part, AllocError>
    ensures { IfOk result (λ part. part ≡ part_by (numbers_in numbers.now) token.now) }
{
    if token.kind == Kind::Paste {
        return Ok(Part::Join);
    }
    match numbers.find(&token.text) {
        Some(number) => Ok(Part::Formal(number)),
        None => Ok(Part::Plain(copy_of(alloc, token)?)),
    }
}

fn parts_by(alloc: Global, numbers: &FormalNumbers, body: &[Token]) -> Result<Parts, AllocError>
    ensures { IfOk result (λ parts. parts ≡ map (part_by (numbers_in numbers.now)) body.now) }
{
    let mut parts = Parts::new(alloc);
    for token in body {
        parts.push(part_of(alloc, numbers, token)?)?;
    }
    Ok(parts)
}

/// The parts of a macro's body.
pub fn parts_of(alloc: Global, formals: &[Text], body: &[Token]) -> Result<Parts, AllocError>
    ensures { IfOk result (λ parts. parts ≡ parts_of formals.now body.now) }
{
    let numbers = FormalNumbers::new(alloc, formals)?;
    parts_by(alloc, &numbers, body)
}

// A macro of this body.
fn of_body(
    alloc: Global,
    name: &Text,
    arity: Option<usize>,
    formals: &[Text],
    body: &[Token],
) -> Result<Defining, AllocError>
    ensures { IfOk result (λ d. d ≡ spec.of_body name.now arity formals.now body.now) }
{
    if let Some(broken) = first_barred(alloc, body)? {
        return Ok(broken);
    }
    let parts = parts_of(alloc, formals, body)?;
    let name = name.copy(alloc)?;
    Ok(Defining::Defines(
        name,
        Macro {
            arity,
            parts,
            busy: false,
        },
    ))
}

fn touches(first: &Token, second: &Token) -> bool
    ensures { result ≡ spec.touches first.now second.now }
{
    if first.place.line != second.place.line {
        return false;
    }
    match second.place.col.checked_sub(first.place.col) {
        Some(gap) => gap as usize == first.text.len(),
        None => false,
    }
}

fn begins_parenthesis(token: &Token) -> bool
    ensures { result ≡ spec.begins_parenthesis token.now }
{
    match token.text.as_bytes() {
        [first, ..] => *first == b'(',
        [] => false,
    }
}

// Whether a list of formals begins directly behind the name.
fn has_formals(name: &Token, behind: &[Token]) -> bool
    ensures { result ≡ spec.has_formals name.now behind.now }
{
    match behind {
        [token, ..] => begins_parenthesis(token) && touches(name, token),
        [] => false,
    }
}

// A macro with a list of formals.
fn with_formals(alloc: Global, name: &Text, behind: &[Token]) -> Result<Defining, AllocError>
    ensures { IfOk result (λ d. d ≡ spec.with_formals name.now behind.now (spec.formals_of behind.now)) }
{
    match formals_of(alloc, behind)? {
        Formals::Listed(formals, taken) => {
            let body = behind.get(taken..).unwrap_or(&[]);
            of_body(alloc, name, Some(formals.len()), formals.as_slice(), body)
        }
        Formals::Departs(token) => Ok(Defining::BreaksAt(203, token)),
        Formals::Ends => Ok(Defining::BreaksList),
    }
}

// A macro whose list of formals stands behind its name.
fn with_list(alloc: Global, name: &Token, behind: &[Token]) -> Result<Defining, AllocError>
    ensures { IfOk result (λ d. d ≡ spec.with_list name.now behind.now) }
{
    match behind {
        [] => Ok(Defining::IllFormed),
        [token, behind @ ..] if is(token, b"(") => with_formals(alloc, &name.text, behind),
        [token, ..] => Ok(Defining::BreaksAt(203, copy_of(alloc, token)?)),
    }
}

/// What the line behind `` `define `` says.
pub fn read_definition(alloc: Global, line: &[Token]) -> Result<Defining, AllocError>
    ensures { IfOk result (λ d. d ≡ spec.defining line.now) }
{
    let [name, behind @ ..] = line else {
        return Ok(Defining::IllFormed);
    };
    if !is_name(name) {
        return Ok(Defining::IllFormed);
    }
    if has_formals(name, behind) {
        return with_list(alloc, name, behind);
    }
    of_body(alloc, &name.text, None, &[], behind)
}
