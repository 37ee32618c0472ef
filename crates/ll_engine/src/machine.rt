ghost use Rattle.std.specs.Prelude.{◌≡◌, ◌^◌, ℕ, true, Ok, ◌∷◌, [], ◌+◌, ◌-◌, ◌<◌, Some, None, pred, OnOk, IfOk, IsSome, MatchOption, length, slice_get};
ghost use Rattle.ll_engine.specs.Grammar.{is_repeated, is_optional, named, terminal, IsRowOf};
ghost use Rattle.ll_engine.specs.Knows.{Knows, row_next, row_blank};
ghost use Rattle.ll_engine.specs.Machine.{level_of, levels_of, parts_of, with_kid, entered, skipped, closed, took, fresh, room_in, IsStack};
ghost use Rattle.ll_engine.specs.Reading.{level};
ghost use Rattle.ll_engine.specs.declared.tree.Tree.TheVariants.{Node};
ghost use Rattle.ll_engine.specs.declared.table.Part.TheVariants.{Term, Non};
ghost use Rattle.ll_engine.specs.Steps.{first_of, row_for, StepGives, SettleGives, SymbolGives, EndGives, IsReady};
ghost use Rattle.ll_engine.specs.Answers.{ParseGives};

use crate::fails::ParseFail;
use crate::table::Part;
use crate::tables::Tables;
use crate::tree::{Kids, Tree};
use sqlite_items::Items;
use std::alloc::{AllocError, Global};
use std::mem;

/// A row that is being read: the index of the next part, how much further nesting may go in the row and in
/// the newest turn of its chain, and the trees that were read.
#[derive(Drop)]
pub struct Frame {
    pub row: u16,
    pub next: usize,
    pub room: u64,
    pub turn: u64,
    pub kids: Kids,
}

/// The rows that are being read, the innermost on top.
#[derive(Drop)]
pub struct Open {
    pub top: Frame,
    pub below: Vec<Frame>,
}

/// Why the reader stands still: the next part is the next symbol, nothing can be read, or the outermost row
/// is read.
#[derive(Clone, Copy, Debug)]
pub enum Stop {
    Ready,
    Fails,
    Ended,
}

#[derive(Clone, Copy, Debug)]
pub enum Step {
    Moved,
    Stopped(Stop),
}

impl Part {
    pub fn is_repeated(self) -> bool
        ensures { result ≡ is_repeated self }
    {
        match self {
            Part::Term(_) => false,
            Part::Non(_) => false,
            Part::Maybe(_) => false,
            Part::Many(_) => true,
            Part::Chain(_) => true,
        }
    }

    /// The room in what the part opens next.
    pub fn room(self, around: u64, turn: u64) -> u64
        ensures { result ≡ level pred self around turn }
    {
        match self {
            Part::Term(_) => around,
            Part::Non(_) => around,
            Part::Maybe(_) => around,
            Part::Many(_) => around,
            Part::Chain(_) => turn.saturating_sub(1),
        }
    }
}

impl Tables {
    /// The next part of the row.
    #[tactic(auto, using(crate::proofs::Parts::first_drop))]
    fn next_part(&self, frame: &Frame) -> Option<Part>
        ensures { result ≡ first_of (level_of self.now.rows frame.now).left }
    {
        let row = self.rows.get(frame.row as usize)?;
        row.parts.get(frame.next).copied()
    }

    /// How many parts the row has.
    fn part_count(&self, frame: &Frame) -> usize
        ensures { result ≡ length (parts_of (slice_get self.now.rows frame.now.row)) }
    {
        match self.rows.get(frame.row as usize) {
            None => 0,
            Some(row) => row.parts.len(),
        }
    }

    /// The room in a row that is opened at this room.
    fn room_in(&self, row: u16, room: u64) -> u64
        ensures { result ≡ room_in (slice_get self.now.rows row) room }
    {
        match self.rows.get(row as usize) {
            None => room,
            Some(row) => if row.deep {
                room.saturating_sub(1)
            } else {
                room
            },
        }
    }

    /// The row by which the head is read where it is not optional.
    fn row_for(&self, head: u16, token: Option<u16>) -> Option<u16>
        ensures { result ≡ row_for self.now.heads head token }
    {
        match self.row_next(head, token) {
            Some(row) => Some(row),
            None => self.row_blank(head),
        }
    }

    /// A row that nothing was read of yet.
    fn fresh(&self, alloc: Global, row: u16, room: u64) -> Frame
        ensures { level_of self.now.rows result ≡ fresh self.now.rows row room }
    {
        let room = self.room_in(row, room);
        Frame {
            row,
            next: 0,
            room,
            turn: room,
            kids: Items::new(alloc),
        }
    }

    /// Goes on to the next part.
    fn advance(&self, frame: &mut Frame)
        requires { IsSome (first_of (level_of self.now.rows frame.old).left) }
        ensures { frame.new ≡ record frame.old { next = frame.old.next + 1 } }
    {
        let _count = self.part_count(frame);
        frame.next += 1;
    }

    /// Leaves the next part out.
    #[tactic(auto, using(crate::proofs::Parts::drop_one))]
    fn skip(&self, state: &mut Open)
        requires { IsSome (first_of (level_of self.now.rows state.old.top).left) }
        ensures { levels_of self.now.rows state.new ≡ skipped (levels_of self.now.rows state.old) }
    {
        self.advance(&mut state.top);
        state.top.turn = state.top.room;
    }

    /// Opens the row for the next part.
    fn enter(&self, alloc: Global, state: &mut Open, row: u16, part: Part) -> Result<(), AllocError>
        requires { first_of (level_of self.now.rows state.old.top).left ≡ Some part }
        ensures { OnOk result (levels_of self.now.rows state.new ≡ entered self.now.rows row part (levels_of self.now.rows state.old)) }
    {
        let room = part.room(state.top.room, state.top.turn);
        if !part.is_repeated() {
            self.advance(&mut state.top);
        }
        state.top.turn = room;
        let outer = mem::replace(&mut state.top, self.fresh(alloc, row, room));
        state.below.push(outer)?;
        Ok(())
    }

    /// Ends the innermost row, which stands in another.
    fn close(&self, state: &mut Open, outer: Frame) -> Result<(), AllocError>
        ensures top { OnOk result (level_of self.now.rows state.new.top ≡ with_kid (level_of self.now.rows outer) (Node state.old.top.row state.old.top.kids)) }
        ensures below { state.new.below ≡ state.old.below }
    {
        let inner = mem::replace(&mut state.top, outer);
        let Frame {
            row,
            next: _,
            room: _,
            turn: _,
            kids,
        } = inner;
        state.top.kids.push(Tree::Node { row, kids })
    }
}

impl Tables {
    /// One step where the next part is a head that is not optional.
    fn step_head(
        &self,
        alloc: Global,
        state: &mut Open,
        head: u16,
        token: Option<u16>,
    ) -> Result<Step, AllocError>
        requires knows { Knows self.now.rows self.now.heads }
        requires stack { IsStack self.now.rows (levels_of self.now.rows state.old) }
        requires next { first_of (level_of self.now.rows state.old.top).left ≡ Some (Non head) }
        ensures { StepGives self.now.rows self.now.heads token (levels_of self.now.rows state.old) (levels_of self.now.rows state.new) result }
    {
        match self.row_for(head, token) {
            None => Ok(Step::Stopped(Stop::Fails)),
            Some(row) => {
                self.enter(alloc, state, row, Part::Non(head))?;
                Ok(Step::Moved)
            }
        }
    }

    /// One step where the next part is optional or repeated.
    fn step_optional(
        &self,
        alloc: Global,
        state: &mut Open,
        part: Part,
        head: u16,
        token: Option<u16>,
    ) -> Result<Step, AllocError>
        requires knows { Knows self.now.rows self.now.heads }
        requires stack { IsStack self.now.rows (levels_of self.now.rows state.old) }
        requires next { first_of (level_of self.now.rows state.old.top).left ≡ Some part }
        requires head { named part ≡ Some head }
        requires optional { is_optional part ≡ true }
        ensures { StepGives self.now.rows self.now.heads token (levels_of self.now.rows state.old) (levels_of self.now.rows state.new) result }
    {
        match self.row_next(head, token) {
            None => self.skip(state),
            Some(row) => self.enter(alloc, state, row, part)?,
        }
        Ok(Step::Moved)
    }

    /// One step where no part is left.
    fn step_end(&self, state: &mut Open, token: Option<u16>) -> Result<Step, AllocError>
        requires knows { Knows self.now.rows self.now.heads }
        requires next { first_of (level_of self.now.rows state.old.top).left ≡ None }
        ensures { StepGives self.now.rows self.now.heads token (levels_of self.now.rows state.old) (levels_of self.now.rows state.new) result }
    {
        match state.below.pop() {
            Some(outer) => {
                self.close(state, outer)?;
                Ok(Step::Moved)
            }
            None => match token {
                Some(_) => Ok(Step::Stopped(Stop::Fails)),
                None => Ok(Step::Stopped(Stop::Ended)),
            },
        }
    }

    /// One step where the next part is a symbol.
    fn step_symbol(&self, state: &Open, symbol: u16, token: Option<u16>) -> Step
        requires knows { Knows self.now.rows self.now.heads }
        requires next { first_of (level_of self.now.rows state.now.top).left ≡ Some (Term symbol) }
        ensures { StepGives self.now.rows self.now.heads token (levels_of self.now.rows state.now) (levels_of self.now.rows state.now) (Ok result) }
    {
        match token {
            None => Step::Stopped(Stop::Fails),
            Some(next) => {
                if next == symbol {
                    Step::Stopped(Stop::Ready)
                } else {
                    Step::Stopped(Stop::Fails)
                }
            }
        }
    }

    /// One step of the reader.
    fn step(&self, alloc: Global, state: &mut Open, token: Option<u16>) -> Result<Step, AllocError>
        requires knows { Knows self.now.rows self.now.heads }
        requires stack { IsStack self.now.rows (levels_of self.now.rows state.old) }
        ensures { StepGives self.now.rows self.now.heads token (levels_of self.now.rows state.old) (levels_of self.now.rows state.new) result }
    {
        match self.next_part(&state.top) {
            None => self.step_end(state, token),
            Some(Part::Term(symbol)) => Ok(self.step_symbol(state, symbol, token)),
            Some(Part::Non(head)) => self.step_head(alloc, state, head, token),
            Some(Part::Maybe(head)) => self.step_optional(
                alloc,
                state,
                Part::Maybe(head),
                head,
                token,
            ),
            Some(Part::Many(head)) => self.step_optional(
                alloc,
                state,
                Part::Many(head),
                head,
                token,
            ),
            Some(Part::Chain(head)) => self.step_optional(
                alloc,
                state,
                Part::Chain(head),
                head,
                token,
            ),
        }
    }

    /// Goes on to the next symbol that is read, as long as nothing else is to be done.
    fn settle(
        &self,
        alloc: Global,
        state: &mut Open,
        token: Option<u16>,
    ) -> Result<Stop, AllocError>
        requires knows { Knows self.now.rows self.now.heads }
        requires stack { IsStack self.now.rows (levels_of self.now.rows state.old) }
        ensures { SettleGives self.now.rows token (levels_of self.now.rows state.old) (levels_of self.now.rows state.new) result }
    {
        loop {
            match self.step(alloc, state, token)? {
                Step::Moved => {}
                Step::Stopped(stop) => return Ok(stop),
            }
        }
    }
}

impl Tables {
    /// Reads the symbol that comes next, numbered `at`.
    #[tactic(auto, using(crate::proofs::Parts::drop_one))]
    fn take(&self, state: &mut Open, at: u32) -> Result<(), AllocError>
        requires { IsSome (first_of (level_of self.now.rows state.old.top).left) }
        ensures { OnOk result (levels_of self.now.rows state.new ≡ took at (levels_of self.now.rows state.old)) }
    {
        self.advance(&mut state.top);
        state.top.turn = state.top.room;
        state.top.kids.push(Tree::Leaf(at))?;
        Ok(())
    }

    /// The head of the first row.
    fn source(&self) -> u16
        requires { Knows self.now.rows self.now.heads }
        ensures { (row : _) × IsRowOf self.now.rows result 0 row }
    {
        match self.rows.get(0) {
            Some(row) => row.head,
            None => unreachable!(),
        }
    }

    /// The rows at the beginning of a text of the head, or `None` where none begins so.
    fn start(&self, alloc: Global, head: u16, token: Option<u16>, room: u64) -> Option<Open>
        ensures { MatchOption result (row_for self.now.heads head token ≡ None) (λ o. (i : ℕ) × (row_for self.now.heads head token ≡ Some i) × (levels_of self.now.rows o ≡ fresh self.now.rows i room ∷ [])) }
    {
        let row = self.row_for(head, token)?;
        Some(Open {
            top: self.fresh(alloc, row, room),
            below: Vec::new(alloc),
        })
    }

    /// Reads up to the next symbol, and that symbol.
    fn read_symbol(
        &self,
        alloc: Global,
        state: &mut Open,
        at: u32,
        symbol: u16,
    ) -> Result<(), ParseFail>
        requires knows { Knows self.now.rows self.now.heads }
        requires stack { IsStack self.now.rows (levels_of self.now.rows state.old) }
        ensures { SymbolGives self.now.rows (Some symbol) at (levels_of self.now.rows state.old) (levels_of self.now.rows state.new) result }
    {
        match self.settle(alloc, state, Some(symbol))? {
            Stop::Ready => {}
            Stop::Fails => return Err(ParseFail::NoText { at }),
            Stop::Ended => return Err(ParseFail::NoText { at }),
        }
        if state.top.room == 0 {
            return Err(ParseFail::Deep { at });
        }
        self.take(state, at)?;
        Ok(())
    }

    /// Reads up to the end.
    fn read_end(&self, alloc: Global, mut state: Open, at: u32) -> Result<Tree, ParseFail>
        requires knows { Knows self.now.rows self.now.heads }
        requires stack { IsStack self.now.rows (levels_of self.now.rows state) }
        ensures { EndGives self.now.rows at (levels_of self.now.rows state) result }
    {
        match self.settle(alloc, &mut state, None)? {
            Stop::Ended => {
                let Open { top, below: _ } = state;
                let Frame {
                    row,
                    next: _,
                    room: _,
                    turn: _,
                    kids,
                } = top;
                Ok(Tree::Node { row, kids })
            }
            Stop::Ready => Err(ParseFail::NoText { at }),
            Stop::Fails => Err(ParseFail::NoText { at }),
        }
    }

    /// The tree of the symbols.
    pub fn read(&self, alloc: Global, symbols: &[u16], limit: u32) -> Result<Tree, ParseFail>
        requires knows { Knows self.now.rows self.now.heads }
        requires count { length symbols.now < 2 ^ 32 - 1 }
        ensures { ParseGives self.now.rows symbols.now limit result }
    {
        let head = self.source();
        let room = u64::from(limit) + 1;
        let first = symbols.first().copied();
        let Some(mut state) = self.start(alloc, head, first, room) else {
            return Err(ParseFail::NoText { at: 0 });
        };
        for (at, symbol) in symbols.iter().enumerate() {
            self.read_symbol(alloc, &mut state, at as u32, *symbol)?;
        }
        self.read_end(alloc, state, symbols.len() as u32)
    }
}
