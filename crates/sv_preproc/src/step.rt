// A step of an expansion (IEEE 1800-2017 clause 22).
ghost use Rattle.std.specs.Prelude.{◌≡◌, ◌≤◌, ◌^◌, ◌<◌, length, slice_get};
ghost use Rattle.sv_preproc.specs.Expansion as spec;
ghost use Rattle.sv_preproc.specs.Branches as branches;
ghost use Rattle.sv_preproc.specs.States.{goes};
ghost use Rattle.sv_macro.specs.Tokens.{said_by};
ghost use Rattle.sv_preproc.specs.Code.{seen, whole, Turns, Bounded};
ghost use Rattle.sv_preproc.specs.Machine.{acted, move};

use crate::settings::{Settings, Texts};
use crate::state::State;
use crate::turn::{Search, Turn};
use std::alloc::Global;
use sv_macro::coming::Coming;
use sv_macro::definition::{Defining, read_definition, take_line};
use sv_macro::including::{between_quotes, candidates};
use sv_macro::lines::{take_name, take_raw};
use sv_macro::shapes::{Shape, take_shapes};
use sv_macro::tokens::{broken, is_string, said_by};
use sv_macro::words::Word;
use sv_source::{Fail, Kind, Place, Text, Token};

/// The most files that are open at a time, with that of the command line.
const DEPTH_LIMIT: usize = 17;

impl State {
    fn define(&mut self, alloc: Global, token: Token) -> Result<Turn, Fail>
        ensures { Turns (acted self.old.calls (spec.define (seen self.old) token)) self.new result }
    {
        let line = take_line(alloc, &mut self.coming)?;
        match read_definition(alloc, line.as_slice())? {
            Defining::Defines(name, value) => {
                self.macros.define(name, value)?;
                Ok(Turn::Go)
            }
            Defining::BreaksAt(rule, token) => Err(broken(rule, token)),
            Defining::BreaksList => Err(broken(203, token)),
            Defining::IllFormed => Err(broken(201, token)),
        }
    }

    fn undefine(&mut self, token: Token) -> Result<Turn, Fail>
        ensures { Turns (acted self.old.calls (spec.undefine (seen self.old) token)) self.new result }
    {
        let Some(name) = take_name(&mut self.coming) else {
            return Err(broken(201, token));
        };
        self.macros.undefine(&name);
        Ok(Turn::Go)
    }

    // The directive, where files nest too deep for another.
    fn too_deep(&self, token: Token) -> Option<Token>
        ensures { result ≡ spec.too_deep self.now.files token }
    {
        if self.files.len() >= DEPTH_LIMIT {
            Some(token)
        } else {
            None
        }
    }

    // The file that a string names.
    fn search(
        &self,
        alloc: Global,
        set: &Settings,
        token: Token,
        string: Token,
    ) -> Result<Turn, Fail>
        ensures { Turns (acted self.now.calls (spec.include_in set.now (seen self.now) token string self.now.files)) self.now result }
    {
        let Some(file) = self.files.top() else {
            return Err(broken(201, token));
        };
        let path = between_quotes(string.text.as_bytes());
        let paths = candidates(alloc, set.dirs.as_slice(), file.path.as_bytes(), path)?;
        let word = Text::from_bytes(alloc, path)?;
        let search = Search {
            paths,
            top: false,
            place: string.place,
            word,
            deep: self.too_deep(token),
        };
        Ok(Turn::Look(Box::new(alloc, search)?))
    }

    fn include(&mut self, alloc: Global, set: &Settings, token: Token) -> Result<Turn, Fail>
        ensures { Turns (acted self.old.calls (spec.include set.now (seen self.old) token)) self.new result }
    {
        let Some(string) = take_raw(&mut self.coming) else {
            return Err(broken(201, token));
        };
        if !is_string(&string) {
            return Err(broken(201, token));
        }
        self.search(alloc, set, token, string)
    }

    // A directive that is dropped with tokens of its line.
    fn drop_with(&mut self, token: Token, shapes: &[Shape]) -> Result<Turn, Fail>
        ensures { Turns (acted self.old.calls (spec.dropped_with (seen self.old) token shapes.now)) self.new result }
    {
        if take_shapes(&mut self.coming, shapes) {
            Ok(Turn::Go)
        } else {
            Err(broken(201, token))
        }
    }

    // A directive in a file.
    fn obey(
        &mut self,
        alloc: Global,
        set: &Settings,
        token: Token,
        word: Word,
    ) -> Result<Turn, Fail>
        requires { Bounded self.old }
        ensures { Turns (acted self.old.calls (spec.obeyed set.now (seen self.old) token word)) self.new result }
    {
        match word {
            Word::Branch(condition) => self.select_branch(token, condition),
            Word::Define => self.define(alloc, token),
            Word::Undef => self.undefine(token),
            Word::Include => self.include(alloc, set, token),
            Word::Alone => Ok(Turn::Go),
            Word::NetType => self.drop_with(token, &[Shape::AnyWord]),
            Word::Timescale => self.drop_with(
                token,
                &[
                    Shape::Number,
                    Shape::AnyName,
                    Shape::Slash,
                    Shape::Number,
                    Shape::AnyName,
                ],
            ),
            Word::Unsupported => Err(broken(201, token)),
            Word::Use => self.begin_use(alloc, token),
        }
    }

    // Whether neither a body nor an argument is read.
    fn in_file(&self) -> bool
        ensures { result ≡ spec.in_file (seen self.now) }
    {
        self.calls.is_empty() && self.uses == 0
    }

    // A directive or the use of a macro.
    #[inline(never)]
    fn direct(&mut self, alloc: Global, set: &Settings, token: Token) -> Result<Turn, Fail>
        requires { Bounded self.old }
        ensures { Turns (acted self.old.calls (spec.directive set.now (seen self.old) token (said_by token))) self.new result }
    {
        let word = said_by(&token);
        if word == Word::Use {
            return self.begin_use(alloc, token);
        }
        if !self.in_file() {
            return Err(broken(201, token));
        }
        self.obey(alloc, set, token, word)
    }

    // A token in a branch that isn't taken.
    #[inline(never)]
    fn skip(&mut self, token: Token) -> Result<Turn, Fail>
        ensures { Turns (acted self.old.calls (spec.skipped (seen self.old) token token.kind)) self.new result }
    {
        match token.kind {
            Kind::Cut => Err(broken(208, token)),
            Kind::Directive => match said_by(&token) {
                Word::Branch(condition) => self.select_branch(token, condition),
                _ => Ok(Turn::Go),
            },
            _ => Ok(Turn::Go),
        }
    }

    // A token anywhere else.
    #[inline(always)]
    fn take(&mut self, alloc: Global, set: &Settings, token: Token) -> Result<Turn, Fail>
        requires { Bounded self.old }
        ensures { Turns (acted self.old.calls (spec.taken set.now (seen self.old) token token.kind)) self.new result }
    {
        match token.kind {
            Kind::Directive => self.direct(alloc, set, token),
            Kind::Cut => Err(broken(208, token)),
            Kind::Quote => Err(broken(201, token)),
            Kind::Line | Kind::Continued => Ok(Turn::Go),
            _ => self.give_on(alloc, token),
        }
    }

    // Whether a branch that isn't taken is read.
    fn skips(&self) -> bool
        ensures { result ≡ branches.skips self.now.files }
    {
        match self.files.top() {
            Some(file) => file.skips(),
            None => false,
        }
    }

    #[inline(always)]
    fn read(&mut self, alloc: Global, set: &Settings, token: Token) -> Result<Turn, Fail>
        requires { Bounded self.old }
        ensures { Turns (acted self.old.calls (spec.raw set.now (seen self.old) token)) self.new result }
    {
        if self.skips() {
            self.skip(token)
        } else {
            self.take(alloc, set, token)
        }
    }

    // A file ends.
    fn end_file(&mut self) -> Result<Turn, Fail>
        ensures { Turns (acted self.old.calls (spec.file_ends (seen self.old) self.old.files)) self.new result }
    {
        let Some(file) = self.files.pop() else {
            return Ok(Turn::Go);
        };
        let mut file = file;
        match file.conditionals.pop() {
            Some(innermost) => Err(broken(205, innermost.first)),
            None => Ok(Turn::Go),
        }
    }

    // A body ends.
    fn end_body(&mut self, name: &Text) -> Result<Turn, Fail>
        ensures { Turns (acted self.old.calls (spec.body_ends (seen self.old) name.now)) self.new result }
    {
        self.macros.mark(name, false);
        self.uses = self.uses.saturating_sub(1);
        Ok(Turn::Go)
    }

    // The next file of the command line.
    #[inline(never)]
    fn next_file(&mut self, alloc: Global, set: &Settings) -> Result<Turn, Fail>
        requires bounded { Bounded self.old }
        requires files { length set.now.files ≤ 2 ^ 30 }
        ensures { Turns (acted self.old.calls (spec.next_file (seen self.old) (slice_get set.now.files self.old.next))) self.new result }
    {
        let Some(path) = set.files.get(self.next) else {
            return Ok(Turn::Done);
        };
        let mut paths = Texts::new(alloc);
        paths.push(path.copy(alloc)?)?;
        let word = path.copy(alloc)?;
        let place = Place {
            file: self.names.len() as u32,
            line: 1,
            col: 1,
        };
        self.next += 1;
        let search = Search {
            paths,
            top: true,
            place,
            word,
            deep: None,
        };
        Ok(Turn::Look(Box::new(alloc, search)?))
    }

    /// One step.
    pub fn step(&mut self, alloc: Global, set: &Settings) -> Result<Turn, Fail>
        requires bounded { Bounded self.old }
        requires files { length set.now.files ≤ 2 ^ 30 }
        ensures { Turns (move set.now (whole self.old)) self.new result }
    {
        match self.coming.pop() {
            None => self.next_file(alloc, set),
            Some(Coming::Raw(token)) => self.read(alloc, set, token),
            Some(Coming::Kept(token)) => self.give_on(alloc, token),
            Some(Coming::FileEnd) => self.end_file(),
            Some(Coming::UseEnd(name)) => self.end_body(&name),
        }
    }
}
