// Uses of macros and their arguments (IEEE 1800-2017 clause 22.5.1).
ghost use Rattle.std.specs.Prelude.{◌≡◌, ◌≤◌, ◌<◌, ◌+◌, ◌^◌, ◌++◌, ◌∷◌, [], true, codes, IfOk};
ghost use Rattle.sv_source.specs.declared.token.Token.{Token};
ghost use Rattle.sv_source.specs.declared.refusal.Fail.TheVariants.{Refused};
ghost use Rattle.sv_macro.specs.Tokens.{name_of};
ghost use Rattle.sv_macro.specs.Lists.{taken, survey};
ghost use Rattle.sv_macro.specs.Waiting.{first_list, waiting};
ghost use Rattle.sv_preproc.specs.Uses as spec;
ghost use Rattle.sv_preproc.specs.Machine as machine;
ghost use Rattle.sv_preproc.specs.Machine.{acted, plain};
ghost use Rattle.sv_preproc.specs.States.{goes};
ghost use Rattle.sv_preproc.specs.Code.{seen, Turns, Bounded};

use crate::state::{Call, State};
use crate::turn::Turn;
use std::alloc::{AllocError, Global};
use sv_macro::brackets::{Bracket, Sign, is_parenthesis, pass_bracket, sign_of};
use sv_macro::lines::{any_token, skip_lines};
use sv_macro::lists::{Survey, fits, skip_bare, survey_list};
use sv_macro::pending::ListSize;
use sv_macro::placing::{Placed, placed, placed_count};
use sv_macro::stack::Stack;
use sv_macro::tokens::{broken, name_of};
use sv_source::{Fail, Items, Place, Refusal, Text, Token, Tokens};

/// The most macros used, tokens placed and tokens delivered.
pub const SPENDING_LIMIT: u64 = 1 << 22;

// A pasted text isn't one token.
fn unjoined(alloc: Global, place: Place) -> Result<Fail, AllocError>
    ensures { IfOk result (λ fail. fail ≡ Refused (record { rule = 209; place = place; word = codes "``" })) }
{
    let word = Text::from_bytes(alloc, b"``")?;
    Ok(Fail::Refused(Refusal {
        rule: 209,
        place,
        word,
    }))
}

impl State {
    // A token that has no meaning for the expansion, outside calls.
    #[inline(always)]
    fn deliver(&mut self, token: Token) -> Result<Turn, Fail>
        requires bounded { Bounded self.old }
        requires alone { self.old.calls ≡ [] }
        ensures { Turns (plain [] (spec.delivered (seen self.old) token)) self.new result }
    {
        if self.spent >= SPENDING_LIMIT {
            return Err(broken(207, token));
        }
        self.spent += 1;
        self.delivered.push(token)?;
        Ok(Turn::Go)
    }

    // The body of a macro comes next, and then its end.
    fn open_body(
        &mut self,
        alloc: Global,
        name: Text,
        body: Placed,
        count: u64,
    ) -> Result<Turn, AllocError>
        requires bounded { Bounded self.old }
        requires within { self.old.spent + count ≤ 2 ^ 22 }
        ensures turn { IfOk result (λ turn. turn ≡ Turn.Go) }
        ensures calls { IfOk result (λ _. self.new.calls ≡ self.old.calls) }
        ensures state { IfOk result (λ _. (used : Token) → name_of used ≡ name → spec.with_body (seen self.old) used (Some body) count ≡ goes (seen self.new)) }
    {
        self.macros.mark(&name, true);
        self.coming.push_body(alloc, body, name)?;
        self.uses += 1;
        self.spent += count;
        Ok(Turn::Go)
    }

    // The body of a macro comes next, with these arguments.
    fn expand(&mut self, alloc: Global, used: Token, arguments: &[Tokens]) -> Result<Turn, Fail>
        requires { Bounded self.old }
        ensures alone { Turns (acted self.old.calls (spec.expanded (seen self.old) used arguments.now)) self.new result }
        ensures filled { Turns (plain self.old.calls (spec.expanded (seen self.old) used arguments.now)) self.new result }
    {
        let name = name_of(alloc, &used)?;
        let Some(found) = self.macros.find(&name) else {
            return Err(broken(202, used));
        };
        let parts = found.parts.as_slice();
        let Some(count) = placed_count(arguments, parts, SPENDING_LIMIT - self.spent) else {
            return Err(broken(207, used));
        };
        let Some(body) = placed(alloc, used.place, arguments, parts)? else {
            return Err(unjoined(alloc, used.place)?);
        };
        Ok(self.open_body(alloc, name, body, count)?)
    }

    // A call has all its arguments.
    fn complete_call(&mut self, alloc: Global, call: Call) -> Result<Turn, Fail>
        requires { Bounded self.old }
        ensures { Turns (machine.call_complete (seen self.old) call self.old.calls) self.new result }
    {
        let Call {
            used,
            level: _,
            brackets: _,
            mut arguments,
            argument,
        } = call;
        arguments.push(argument)?;
        self.expand(alloc, used, arguments.as_slice())
    }

    // A token belongs to the argument that is read.
    fn go_on(&mut self, call: Call, token: Token) -> Result<Turn, Fail>
        ensures { Turns (machine.call_goes_on (seen self.old) call self.old.calls token) self.new result }
    {
        let mut call = call;
        pass_bracket(sign_of(&token), &mut call.brackets)?;
        call.argument.push(token)?;
        self.calls.push(call)?;
        Ok(Turn::Go)
    }

    // The next argument begins.
    fn next_argument(&mut self, alloc: Global, call: Call) -> Result<Turn, Fail>
        ensures { Turns (machine.argument_ends (seen self.old) call self.old.calls) self.new result }
    {
        let mut call = call;
        let argument = std::mem::replace(&mut call.argument, Tokens::new(alloc));
        call.arguments.push(argument)?;
        self.calls.push(call)?;
        Ok(Turn::Go)
    }

    // A token of the innermost call.
    #[inline(never)]
    fn read_argument(&mut self, alloc: Global, call: Call, token: Token) -> Result<Turn, Fail>
        requires { Bounded self.old }
        ensures { Turns (machine.in_call (seen self.old) call self.old.calls token) self.new result }
    {
        if !call.brackets.is_empty() {
            return self.go_on(call, token);
        }
        match sign_of(&token) {
            Sign::Comma => self.next_argument(alloc, call),
            Sign::Closes(Bracket::Round) => self.complete_call(alloc, call),
            _ => self.go_on(call, token),
        }
    }

    /// A token that has no meaning for the expansion is delivered: to the argument that is read, or at the end.
    #[inline(always)]
    pub fn give_on(&mut self, alloc: Global, token: Token) -> Result<Turn, Fail>
        requires { Bounded self.old }
        ensures { Turns (machine.given_to (seen self.old) token self.old.calls) self.new result }
    {
        let Some(call) = self.calls.pop() else {
            return self.deliver(token);
        };
        if call.level == self.uses {
            return self.read_argument(alloc, call, token);
        }
        let mut call = call;
        call.argument.push(token)?;
        self.calls.push(call)?;
        Ok(Turn::Go)
    }

    // A macro without a list of formals.
    fn use_alone(&mut self, alloc: Global, used: Token, busy: bool) -> Result<Turn, Fail>
        requires { Bounded self.old }
        ensures { Turns (acted self.old.calls (spec.without_list (seen self.old) used busy)) self.new result }
    {
        if busy {
            return Err(broken(204, used));
        }
        if self.spent >= SPENDING_LIMIT {
            return Err(broken(207, used));
        }
        self.spent += 1;
        self.expand(alloc, used, &[])
    }

    // The list of a call begins.
    fn begin_list(&mut self, alloc: Global, used: Token, arity: usize) -> Result<Turn, Fail>
        requires bounded { Bounded self.old }
        requires bare { arity ≡ 0 → (survey (taken [] self.old.coming)).bare ≡ true }
        requires closed { (survey (taken [] self.old.coming)).closed ≡ true }
        ensures { Turns (acted self.old.calls (spec.list_begins (seen self.old) used arity (taken [] self.old.coming).behind)) self.new result }
    {
        if arity == 0 {
            skip_bare(&mut self.coming);
            return self.expand(alloc, used, &[]);
        }
        self.calls.push(Call {
            used,
            level: self.uses,
            brackets: Stack::new(alloc),
            arguments: Items::new(alloc),
            argument: Tokens::new(alloc),
        })?;
        Ok(Turn::Go)
    }

    // A list behind its parenthesis, with how long it is where the pass over its text found that.
    fn take_list(
        &mut self,
        alloc: Global,
        used: Token,
        busy: bool,
        arity: usize,
        size: Option<ListSize>,
    ) -> Result<Turn, Fail>
        requires bounded { Bounded self.old }
        requires size { size ≡ first_list (waiting self.old.coming) }
        ensures { Turns (acted self.old.calls (spec.with_list (seen self.old) used busy arity (taken [] self.old.coming))) self.new result }
    {
        let list = survey_list(alloc, &mut self.coming, size)?;
        let fitting = fits(arity, &list);
        let Survey {
            barred,
            cut,
            closed,
            count: _,
            bare: _,
        } = list;
        if let Some(token) = barred {
            return Err(broken(201, token));
        }
        if closed && !fitting {
            return Err(broken(203, used));
        }
        if busy {
            return Err(broken(204, used));
        }
        if self.spent >= SPENDING_LIMIT {
            return Err(broken(207, used));
        }
        if let Some(token) = cut {
            return Err(broken(208, token));
        }
        if !closed {
            return Err(broken(208, used));
        }
        self.spent += 1;
        self.begin_list(alloc, used, arity)
    }

    // A macro with a list of formals.
    fn use_with_list(
        &mut self,
        alloc: Global,
        used: Token,
        busy: bool,
        arity: usize,
    ) -> Result<Turn, Fail>
        requires { Bounded self.old }
        ensures { Turns (acted self.old.calls (spec.use_of (seen self.old) used busy (Some arity))) self.new result }
    {
        skip_lines(&mut self.coming);
        let size = self.coming.next_list();
        let Some(item) = self.coming.pop() else {
            return Err(broken(203, used));
        };
        let Some(token) = any_token(item) else {
            return Err(broken(203, used));
        };
        if !is_parenthesis(&token) {
            return Err(broken(203, used));
        }
        self.take_list(alloc, used, busy, arity, size)
    }

    /// A macro is used.
    pub fn begin_use(&mut self, alloc: Global, used: Token) -> Result<Turn, Fail>
        requires { Bounded self.old }
        ensures { Turns (acted self.old.calls (spec.use_begins (seen self.old) used)) self.new result }
    {
        let name = name_of(alloc, &used)?;
        let Some(found) = self.macros.find(&name) else {
            return Err(broken(202, used));
        };
        let busy = found.busy;
        match found.arity {
            None => self.use_alone(alloc, used, busy),
            Some(arity) => self.use_with_list(alloc, used, busy, arity),
        }
    }
}
