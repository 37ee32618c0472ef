// Brackets and commas, and which brackets are open behind a token.
ghost use Rattle.std.specs.Prelude.{◌≡◌, OnOk};
ghost use Rattle.sv_macro.specs.Brackets as spec;

use crate::stack::Stack;
use crate::tokens::is;
use std::alloc::AllocError;
use sv_source::{Kind, Token};

/// A kind of bracket.
#[derive(Clone, Copy, PartialEq, Eq, Debug)]
pub enum Bracket {
    /// Parentheses.
    Round,
    /// Square brackets.
    Square,
    /// Braces.
    Curly,
}

/// What a token is to brackets and lists.
#[derive(Clone, Copy, PartialEq, Eq, Debug)]
pub enum Sign {
    /// It opens a bracket.
    Opens(Bracket),
    /// It closes one.
    Closes(Bracket),
    /// It is `*)`, which closes a parenthesis and no list of arguments.
    ClosesStar,
    /// It is a comma.
    Comma,
    /// It is anything else.
    Other,
}

fn opening(token: &Token, other: Sign) -> Sign
    ensures { result ≡ spec.opening token.now other }
{
    if is(token, b"(") {
        Sign::Opens(Bracket::Round)
    } else if is(token, b"(*") {
        Sign::Opens(Bracket::Round)
    } else if is(token, b"[") {
        Sign::Opens(Bracket::Square)
    } else if is(token, b"{") {
        Sign::Opens(Bracket::Curly)
    } else {
        other
    }
}

fn closing(token: &Token, other: Sign) -> Sign
    ensures { result ≡ spec.closing token.now other }
{
    if is(token, b")") {
        Sign::Closes(Bracket::Round)
    } else if is(token, b"*)") {
        Sign::ClosesStar
    } else if is(token, b"]") {
        Sign::Closes(Bracket::Square)
    } else if is(token, b"}") {
        Sign::Closes(Bracket::Curly)
    } else {
        other
    }
}

fn comma(token: &Token) -> Sign
    ensures { result ≡ spec.comma token.now }
{
    if is(token, b",") {
        Sign::Comma
    } else {
        Sign::Other
    }
}

/// What a token is to brackets and lists: a bracket or a comma is a mark.
#[tactic(auto, unfolding(crate::specs::Brackets::sign_of))]
pub fn sign_of(token: &Token) -> Sign
    ensures { result ≡ spec.sign_of token.now }
{
    match token.kind {
        Kind::Mark => opening(token, closing(token, comma(token))),
        _ => Sign::Other,
    }
}

/// Whether it is the parenthesis that begins a list of arguments.
pub fn is_parenthesis(token: &Token) -> bool
    ensures { result ≡ spec.is_parenthesis token.now }
{
    match token.kind {
        Kind::Mark => is(token, b"("),
        _ => false,
    }
}

/// Whether both are of one kind.
pub fn same_bracket(first: Bracket, second: Bracket) -> bool
    ensures { result ≡ spec.same_bracket first second }
{
    matches!(
        (first, second),
        (Bracket::Round, Bracket::Round)
            | (Bracket::Square, Bracket::Square)
            | (Bracket::Curly, Bracket::Curly)
    )
}

// Takes off the innermost bracket, if it is of this kind.
fn close_bracket(closed: Bracket, brackets: &mut Stack<Bracket>) -> Result<(), AllocError>
    ensures { OnOk result (brackets.new ≡ spec.closing_one closed brackets.old) }
{
    match brackets.pop() {
        None => Ok(()),
        Some(innermost) if same_bracket(closed, innermost) => Ok(()),
        Some(innermost) => brackets.push(innermost),
    }
}

/// The brackets that are open behind a token.
pub fn pass_bracket(sign: Sign, brackets: &mut Stack<Bracket>) -> Result<(), AllocError>
    ensures { OnOk result (brackets.new ≡ spec.brackets_behind sign brackets.old) }
{
    match sign {
        Sign::Opens(bracket) => brackets.push(bracket),
        Sign::Closes(bracket) => close_bracket(bracket, brackets),
        Sign::ClosesStar => close_bracket(Bracket::Round, brackets),
        Sign::Comma => Ok(()),
        Sign::Other => Ok(()),
    }
}
