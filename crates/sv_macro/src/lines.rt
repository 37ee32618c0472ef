// What comes next, past newlines.
ghost use Rattle.std.specs.Prelude.{◌≡◌, drop, slice_get};
ghost use Rattle.sv_macro.specs.Lines as spec;

use crate::coming::Coming;
use crate::pending::Pending;
use crate::tokens::{is_continued, is_line, is_name};
use sv_source::{Text, Token};

/// Whether a newline comes, behind a backslash or not.
pub fn is_newline(item: &Coming) -> bool
    ensures { result ≡ spec.is_newline item.now }
{
    match item {
        Coming::Raw(token) => is_line(token) || is_continued(token),
        Coming::Kept(_) => false,
        Coming::FileEnd => false,
        Coming::UseEnd(_) => false,
    }
}

/// The token that is looked at for directives, if one comes.
pub fn raw_token(item: Coming) -> Option<Token>
    ensures { result ≡ spec.raw_token item }
{
    match item {
        Coming::Raw(token) => Some(token),
        Coming::Kept(_token) => None,
        Coming::FileEnd => None,
        Coming::UseEnd(_name) => None,
    }
}

/// The token, if one comes.
pub fn any_token(item: Coming) -> Option<Token>
    ensures { result ≡ spec.any_token item }
{
    match item {
        Coming::Raw(token) => Some(token),
        Coming::Kept(token) => Some(token),
        Coming::FileEnd => None,
        Coming::UseEnd(_name) => None,
    }
}

fn begins_newline(coming: &Pending) -> bool
    ensures { result ≡ spec.begins_newline coming.now }
{
    match coming.top() {
        Some(item) => is_newline(&item.what),
        None => false,
    }
}

/// Takes newlines off.
pub fn skip_lines(coming: &mut Pending)
    ensures { coming.new ≡ spec.behind_lines coming.old }
{
    while begins_newline(coming) {
        coming.pop();
    }
}

/// Takes newlines off and one thing behind them.
fn take_next(coming: &mut Pending) -> Option<Coming>
    ensures value { result ≡ slice_get (spec.behind_lines coming.old) 0 }
    ensures rest { coming.new ≡ drop 1 (spec.behind_lines coming.old) }
{
    skip_lines(coming);
    coming.pop()
}

/// Takes newlines off and what is behind them: a token of the file, if one is there.
pub fn take_raw(coming: &mut Pending) -> Option<Token>
    ensures value { result ≡ spec.first_by spec.raw_token (spec.behind_lines coming.old) }
    ensures rest { coming.new ≡ drop 1 (spec.behind_lines coming.old) }
{
    match take_next(coming) {
        Some(item) => raw_token(item),
        None => None,
    }
}

/// Takes newlines off and what is behind them: a token, if one is there.
pub fn take_any(coming: &mut Pending) -> Option<Token>
    ensures value { result ≡ spec.first_by spec.any_token (spec.behind_lines coming.old) }
    ensures rest { coming.new ≡ drop 1 (spec.behind_lines coming.old) }
{
    match take_next(coming) {
        Some(item) => any_token(item),
        None => None,
    }
}

/// Takes newlines off and what is behind them: a name, if one is there.
pub fn take_name(coming: &mut Pending) -> Option<Text>
    ensures value { result ≡ spec.name_in (spec.first_by spec.raw_token (spec.behind_lines coming.old)) }
    ensures rest { coming.new ≡ drop 1 (spec.behind_lines coming.old) }
{
    let token = take_raw(coming)?;
    if is_name(&token) {
        Some(token.text)
    } else {
        None
    }
}
