// Lists of arguments, looked through token by token.
ghost use Rattle.std.specs.Prelude.{◌≡◌, [], true, IfOk};
ghost use Rattle.sv_macro.specs.Waiting.{first_list, waiting};
ghost use Rattle.sv_macro.specs.Lists as spec;
ghost use Rattle.sv_macro.specs.Surveys as surveys;

use crate::brackets::{Bracket, Sign, pass_bracket, sign_of};
use crate::coming::Coming;
use crate::lines::{is_newline, skip_lines};
use crate::pending::{ListSize, Pending};
use crate::stack::Stack;
use crate::tokens::{is_barred, is_cut};
use std::alloc::{AllocError, Global};
use sv_source::Token;

/// What a macro's use has to know of a list.
#[derive(Drop, Debug)]
pub struct Survey {
    /// Its first token that is barred.
    pub barred: Option<Token>,
    /// Its first comment that isn't closed.
    pub cut: Option<Token>,
    /// Whether it is closed.
    pub closed: bool,
    /// How many arguments it has.
    pub count: u64,
    /// Whether it has no token.
    pub bare: bool,
}

/// What an item is to a list.
#[derive(Clone, Copy, PartialEq, Eq, Debug)]
pub enum Role {
    /// The text ends, or nothing closes the list.
    Ends,
    /// It closes the list.
    Closes,
    /// It splits arguments.
    Splits,
    /// It belongs to an argument.
    Belongs,
}

// A token outside brackets.
fn enter_outside(sign: Sign, open: &mut Stack<Bracket>) -> Result<Role, AllocError>
    ensures { IfOk result (λ role. open.old ≡ [] → surveys.place_of role open.new ≡ spec.outside_brackets sign) }
{
    match sign {
        Sign::Opens(bracket) => {
            open.push(bracket)?;
            Ok(Role::Belongs)
        }
        Sign::Closes(Bracket::Round) => Ok(Role::Closes),
        Sign::Closes(Bracket::Square) => Ok(Role::Belongs),
        Sign::Closes(Bracket::Curly) => Ok(Role::Belongs),
        Sign::ClosesStar => Ok(Role::Ends),
        Sign::Comma => Ok(Role::Splits),
        Sign::Other => Ok(Role::Belongs),
    }
}

// A token, behind which these brackets are open.
fn enter_token(sign: Sign, open: &mut Stack<Bracket>) -> Result<Role, AllocError>
    ensures { IfOk result (λ role. surveys.place_of role open.new ≡ spec.sign_in open.old sign) }
{
    if open.is_empty() {
        return enter_outside(sign, open);
    }
    pass_bracket(sign, open)?;
    Ok(Role::Belongs)
}

fn enter(item: &Coming, open: &mut Stack<Bracket>) -> Result<Role, AllocError>
    ensures { IfOk result (λ role. surveys.place_of role open.new ≡ spec.place_in open.old item.now) }
{
    match item {
        Coming::Raw(token) => enter_token(sign_of(token), open),
        Coming::Kept(token) => enter_token(sign_of(token), open),
        Coming::FileEnd => Ok(Role::Ends),
        Coming::UseEnd(_) => Ok(Role::Ends),
    }
}

// One more argument. More than a word can count are want of memory.
fn one_more(list: Survey, closed: bool, bare: bool) -> Result<Survey, AllocError>
    ensures { IfOk result (λ more. more ≡ surveys.one_more list closed bare) }
{
    let Some(count) = list.count.checked_add(1) else {
        return Err(AllocError);
    };
    Ok(Survey {
        barred: list.barred,
        cut: list.cut,
        closed,
        count,
        bare,
    })
}

fn first_token(first: Option<Token>, other: Option<Token>) -> Option<Token>
    ensures { result ≡ spec.or_else first other }
{
    match first {
        Some(token) => Some(token),
        None => other,
    }
}

// A token that is looked at.
fn noted_token(list: Survey, token: Token, bare: bool) -> Survey
    ensures { result ≡ surveys.noted_token token list bare }
{
    let Survey {
        barred,
        cut,
        closed,
        count,
        bare: _,
    } = list;
    if is_barred(&token) {
        return Survey {
            barred: first_token(barred, Some(token)),
            cut,
            closed,
            count,
            bare,
        };
    }
    if is_cut(&token) {
        return Survey {
            barred,
            cut: first_token(cut, Some(token)),
            closed,
            count,
            bare,
        };
    }
    Survey {
        barred,
        cut,
        closed,
        count,
        bare,
    }
}

// Anything else.
fn with_bare(list: Survey, bare: bool) -> Survey
    ensures { result ≡ record list { bare = bare } }
{
    Survey {
        barred: list.barred,
        cut: list.cut,
        closed: list.closed,
        count: list.count,
        bare,
    }
}

// An item of an argument.
fn noted(list: Survey, item: Coming) -> Survey
    ensures { result ≡ surveys.noted item list }
{
    let bare = list.bare && is_newline(&item);
    match item {
        Coming::Raw(token) => noted_token(list, token, bare),
        Coming::Kept(_token) => with_bare(list, bare),
        Coming::FileEnd => with_bare(list, bare),
        Coming::UseEnd(_name) => with_bare(list, bare),
    }
}

/// What a macro's use has to know of the list that comes next. It takes the list off.
pub fn look_through(alloc: Global, coming: &mut Pending) -> Result<Survey, AllocError>
    ensures { IfOk result (λ list. list ≡ surveys.looked [] surveys.nothing coming.old) }
{
    let mut open = Stack::new(alloc);
    let mut list = Survey {
        barred: None,
        cut: None,
        closed: false,
        count: 0,
        bare: true,
    };
    while let Some(item) = coming.pop() {
        match enter(&item, &mut open)? {
            Role::Ends => {
                let bare = list.bare;
                return one_more(list, false, bare);
            }
            Role::Closes => {
                let bare = list.bare;
                return one_more(list, true, bare);
            }
            Role::Splits => {
                open.clear();
                list = one_more(list, false, false)?;
            }
            Role::Belongs => list = noted(list, item),
        }
    }
    let bare = list.bare;
    one_more(list, false, bare)
}

// What is known of a list that was found in the pass over its text.
fn found(size: ListSize) -> Survey
    ensures { result ≡ surveys.clean size }
{
    Survey {
        barred: None,
        cut: None,
        closed: true,
        count: size.commas as u64 + 1,
        bare: size.bare,
    }
}

/// What a macro's use has to know of the list that comes next, with how long it is, if the pass over its text found that.
/// The list stays if it is sound.
#[tactic(auto, using(crate::proofs::Taken::listed, crate::proofs::Taken::unlisted, crate::proofs::Taken::looked_is))]
pub fn survey_list(
    alloc: Global,
    coming: &mut Pending,
    list: Option<ListSize>,
) -> Result<Survey, AllocError>
    requires { list ≡ first_list (waiting coming.old) }
    ensures is { IfOk result (λ list. list ≡ spec.survey (spec.taken [] coming.old)) }
    ensures same { IfOk result (λ list. surveys.is_sound list ≡ true → coming.new ≡ coming.old) }
{
    match list {
        Some(size) => Ok(found(size)),
        None => look_through(alloc, coming),
    }
}

/// Whether a macro with so many formals takes the list.
pub fn fits(arity: usize, list: &Survey) -> bool
    ensures { result ≡ spec.fits arity list.now }
{
    if arity == 0 {
        list.bare
    } else {
        list.count == arity as u64
    }
}

/// Takes off a list that has no token.
#[tactic(auto, using(crate::proofs::Taken::bare_behind))]
pub fn skip_bare(coming: &mut Pending)
    requires bare { (spec.survey (spec.taken [] coming.old)).bare ≡ true }
    requires closed { (spec.survey (spec.taken [] coming.old)).closed ≡ true }
    ensures { coming.new ≡ (spec.taken [] coming.old).behind }
{
    skip_lines(coming);
    coming.pop();
}
