// What is still to come of texts, and how long the lists in it are.
ghost use Rattle.std.specs.Prelude.{◌≡◌, ◌<◌, ◌^◌, [], ◌∷◌, ◌++◌, IsTrue, ◌↔◌, MatchOption, OnOk, OnSome, drop, map, false, true};
ghost use Rattle.std.specs.Option.{option_copied};
ghost use Rattle.sv_macro.specs.Waiting as spec;
ghost use Rattle.sv_macro.specs.Lists as lists;
ghost use Rattle.std.specs.Prelude.{List};

use crate::brackets::{Bracket, Sign, same_bracket, sign_of};
use crate::coming::Coming;
use crate::lines::is_newline;
use crate::stack::Stack;
use crate::tokens::{is_barred, is_cut};
use std::alloc::{AllocError, Global};
use std::marker::Model;
use sv_source::{Items, Text, Tokens};

/// How long a list of arguments is.
#[derive(Clone, Copy, PartialEq, Eq, Debug)]
pub struct ListSize {
    /// How many commas it has outside brackets.
    pub commas: u32,
    /// Whether it has no token.
    pub bare: bool,
}

/// A bracket that closes further on in a text and isn't opened yet.
#[derive(Clone, Copy, Debug)]
pub struct Waiting {
    /// Its kind.
    pub kind: Bracket,
    /// Whether it closes a list of arguments.
    pub is_list: bool,
    /// How long the list is from here on.
    pub size: ListSize,
}

/// A thing that comes, with the list behind it, if nothing bars that.
#[derive(Drop, Debug)]
pub struct Item {
    /// The thing.
    pub what: Coming,
    /// The list.
    pub list: Option<ListSize>,
}

/// What is still to come, the next first. It knows how long the lists in it are.
#[derive(Drop, Debug)]
pub struct Pending {
    items: Stack<Item>,
}

impl Model for Pending {
    ghost use Rattle.std.specs.Prelude.{List};
    ghost use Rattle.sv_macro.specs.declared.coming.Coming.{Coming};
    ghost use Rattle.sv_macro.specs.Waiting.{comings, Marked};

    ghost Value = { List Coming };

    ghost view = { λ p. comings p.items };

    ghost invariant = { λ p. Marked p.items };
}

impl Pending {
    /// Nothing. It takes no memory.
    pub fn new(alloc: Global) -> Pending
        ensures { result ≡ [] }
    {
        Pending {
            items: Stack::new(alloc),
        }
    }

    /// What comes next, with the list that would begin behind it.
    pub fn top(&self) -> Option<&Item>
        ensures { MatchOption (option_copied result) (self.now ≡ []) (λ top. spec.Tops top self.now) }
    {
        self.items.top()
    }

    /// The list that would begin behind what comes next.
    pub fn next_list(&self) -> Option<ListSize>
        ensures { spec.NextList result self.now }
    {
        match self.top() {
            Some(item) => item.list,
            None => None,
        }
    }

    /// Takes off what comes next.
    pub fn pop(&mut self) -> Option<Coming>
        ensures { MatchOption result ((self.old ≡ []) × (self.new ≡ [])) (λ top. self.old ≡ top ∷ self.new) }
    {
        let item = self.items.pop()?;
        Some(item.what)
    }
}

// The brackets that close behind a token and open before it.
fn leave_kind(kind: Bracket, waiting: &mut Stack<Waiting>)
    ensures { waiting.new ≡ spec.behind_kind kind waiting.old }
{
    while let Some(innermost) = waiting.pop() {
        if same_bracket(kind, innermost.kind) {
            return;
        }
    }
}

#[inline(always)]
fn one_item(item: &Coming, size: ListSize) -> ListSize
    ensures { result ≡ spec.one_item item.now size }
{
    if is_newline(item) {
        size
    } else {
        ListSize {
            commas: size.commas,
            bare: false,
        }
    }
}

// What is outside the brackets of the innermost goes on with an item.
#[inline(always)]
fn go_on(item: &Coming, waiting: &mut Stack<Waiting>) -> Result<(), AllocError>
    ensures { OnOk result (waiting.new ≡ spec.with_first (spec.one_item item.now) waiting.old) }
{
    let Some(first) = waiting.pop() else {
        return Ok(());
    };
    waiting.push(Waiting {
        kind: first.kind,
        is_list: first.is_list,
        size: one_item(item, first.size),
    })
}

// It goes on with a comma. So many commas that a word doesn't hold their number are want of memory.
fn split(waiting: &mut Stack<Waiting>) -> Result<(), AllocError>
    ensures { OnOk result (waiting.new ≡ spec.with_first spec.one_comma waiting.old) }
{
    let Some(first) = waiting.pop() else {
        return Ok(());
    };
    let Some(commas) = first.size.commas.checked_add(1) else {
        return Err(AllocError);
    };
    waiting.push(Waiting {
        kind: first.kind,
        is_list: first.is_list,
        size: ListSize {
            commas,
            bare: false,
        },
    })
}

fn close_round(is_list: bool, waiting: &mut Stack<Waiting>) -> Result<(), AllocError>
    ensures { OnOk result (waiting.new ≡ spec.round is_list ∷ waiting.old) }
{
    waiting.push(Waiting {
        kind: Bracket::Round,
        is_list,
        size: ListSize {
            commas: 0,
            bare: true,
        },
    })
}

fn close_other(kind: Bracket, item: &Coming, waiting: &mut Stack<Waiting>) -> Result<(), AllocError>
    ensures { OnOk result (waiting.new ≡ spec.closed_other kind item.now waiting.old) }
{
    let Some(first) = waiting.pop() else {
        return Ok(());
    };
    waiting.push(first)?;
    waiting.push(Waiting {
        kind,
        is_list: first.is_list,
        size: one_item(item, first.size),
    })
}

#[inline(always)]
fn pass_sign(sign: Sign, item: &Coming, waiting: &mut Stack<Waiting>) -> Result<(), AllocError>
    ensures { OnOk result (waiting.new ≡ spec.with_sign sign item.now waiting.old) }
{
    match sign {
        Sign::Opens(kind) => {
            leave_kind(kind, waiting);
            go_on(item, waiting)
        }
        Sign::Closes(Bracket::Round) => close_round(true, waiting),
        Sign::Closes(Bracket::Square) => close_other(Bracket::Square, item, waiting),
        Sign::Closes(Bracket::Curly) => close_other(Bracket::Curly, item, waiting),
        Sign::ClosesStar => close_round(false, waiting),
        Sign::Comma => split(waiting),
        Sign::Other => go_on(item, waiting),
    }
}

// The brackets that wait before an item.
#[inline(always)]
fn pass(item: &Coming, waiting: &mut Stack<Waiting>) -> Result<(), AllocError>
    ensures { OnOk result (waiting.new ≡ spec.passed item.now waiting.old) }
{
    match item {
        Coming::Raw(token) => {
            if is_barred(token) || is_cut(token) {
                waiting.clear();
                return Ok(());
            }
            pass_sign(sign_of(token), item, waiting)
        }
        Coming::Kept(token) => pass_sign(sign_of(token), item, waiting),
        Coming::FileEnd => {
            waiting.clear();
            Ok(())
        }
        Coming::UseEnd(_) => {
            waiting.clear();
            Ok(())
        }
    }
}

// The list that would begin here.
#[inline(always)]
fn first_list(waiting: &Stack<Waiting>) -> Option<ListSize>
    ensures { result ≡ spec.first_list waiting.now }
{
    match waiting.top() {
        Some(first) if first.is_list => Some(first.size),
        _ => None,
    }
}

impl Pending {
    // The item comes next, with the list that begins behind it.
    #[inline(always)]
    fn push_item(&mut self, what: Coming, list: Option<ListSize>) -> Result<(), AllocError>
        requires { spec.stops what ≡ false → list ≡ spec.first_list (spec.waiting self.old) }
        ensures { OnOk result (self.new ≡ what ∷ self.old) }
    {
        self.items.push(Item { what, list })
    }

    // The item comes next.
    #[inline(always)]
    fn push_next(&mut self, item: Coming, waiting: &mut Stack<Waiting>) -> Result<(), AllocError>
        requires { waiting.old ≡ spec.waiting self.old }
        ensures items { OnOk result (self.new ≡ item ∷ self.old) }
        ensures waits { OnOk result (waiting.new ≡ spec.waiting self.new) }
    {
        let list = first_list(waiting);
        pass(&item, waiting)?;
        self.push_item(item, list)
    }

    /// A body comes next, and then the end of the expansion of the macro with this name.
    pub fn push_body(
        &mut self,
        alloc: Global,
        body: Items<Coming>,
        name: Text,
    ) -> Result<(), AllocError>
        ensures { OnOk result (self.new ≡ body ++ Coming.UseEnd name ∷ self.old) }
    {
        let mut waiting = Stack::new(alloc);
        let mut body = body;
        self.push_item(Coming::UseEnd(name), None)?;
        while let Some(item) = body.pop() {
            self.push_next(item, &mut waiting)?;
        }
        Ok(())
    }

    /// The tokens of a file come next, and then its end.
    pub fn push_file(&mut self, alloc: Global, tokens: Tokens) -> Result<(), AllocError>
        ensures { OnOk result (self.new ≡ map Coming.Raw tokens ++ Coming.FileEnd ∷ self.old) }
    {
        let mut waiting = Stack::new(alloc);
        let mut tokens = tokens;
        self.push_item(Coming::FileEnd, None)?;
        while let Some(token) = tokens.pop() {
            self.push_next(Coming::Raw(token), &mut waiting)?;
        }
        Ok(())
    }
}
