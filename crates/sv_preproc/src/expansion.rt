// Whole expansions (IEEE 1800-2017 clause 22).
ghost use Rattle.std.specs.Prelude.{◌≡◌, true, ◌≤◌, ◌<◌, ◌^◌, ◌++◌, ◌∷◌, [], fold, length, OnOk, IfOk};
ghost use Rattle.sv_source.specs.Loading.{Contents};
ghost use Rattle.sv_preproc.specs.Answers.{Cause, Says, Deep, Opens, Stops, LoadReaches, AdvanceReaches, Reaches, LeadsBy};
ghost use Rattle.sv_preproc.specs.Code.{seen, whole, Bounded};
ghost use Rattle.sv_macro.specs.Tables.{macros_in};
ghost use Rattle.sv_preproc.specs.Runs.{command_macros};
ghost use Rattle.sv_preproc.specs.Runs as spec;
ghost use Rattle.sv_preproc.specs.Searches as searches;
ghost use Rattle.sv_preproc.specs.States.{broken, goes};
ghost use Rattle.sv_preproc.specs.Left.{Ready, Settles};
ghost use Rattle.sv_preproc.specs.Breaks.{LeastIsAnswered};
ghost use Rattle.sv_preproc.specs.FirstBreaks.{FirstIsAnswered};
ghost use Rattle.sv_preproc.specs.Relation.{IsOneRelation};

use crate::loading::{Found, load_first};
use crate::settings::{Define, ExpandFail, Expanded, Settings};
use crate::state::State;
use crate::turn::{Search, Turn};
use std::alloc::{AllocError, Global};
use std::mem;
use sv_macro::definition::parts_of;
use sv_macro::macros::Macro;
use sv_macro::pending::Pending;
use sv_macro::stack::Stack;
use sv_macro::table::Table;
use sv_source::{Fail, FileNames, Files, Kind, Place, Refusal, Text, Token, Tokens};

// The macros of the command line.
fn command_macros(alloc: Global, defines: &[Define]) -> Result<Table, AllocError>
    ensures { IfOk result (λ table. macros_in table ≡ command_macros defines.now) }
{
    let mut table = Table::new(alloc);
    for define in defines {
        let parts = parts_of(alloc, &[], define.body.as_slice())?;
        let name = define.name.copy(alloc)?;
        table.define(
            name,
            Macro {
                arity: None,
                parts,
                busy: false,
            },
        )?;
    }
    Ok(table)
}

impl State {
    // Before the first file.
    fn start(alloc: Global, set: &Settings) -> Result<State, AllocError>
        ensures state { IfOk result (λ state. seen state ≡ spec.start set.now) }
        ensures calls { IfOk result (λ state. state.calls ≡ []) }
    {
        Ok(State {
            coming: Pending::new(alloc),
            macros: command_macros(alloc, set.defines.as_slice())?,
            files: Stack::new(alloc),
            calls: Stack::new(alloc),
            uses: 0,
            next: 0,
            names: FileNames::new(alloc),
            loaded: 0,
            spent: 0,
            ending: Place {
                file: 0,
                line: 1,
                col: 1,
            },
            delivered: Tokens::new(alloc),
        })
    }

    // A file that is wanted is absent or too long.
    fn lost(&mut self, alloc: Global, rule: u16, search: Search) -> Result<ExpandFail, AllocError>
        ensures { IfOk result (λ fail. Says fail (searches.lost rule search (seen self.old))) }
    {
        let mut files = mem::replace(&mut self.names, FileNames::new(alloc));
        if search.top {
            files.push(search.word.copy(alloc)?)?;
        }
        let refusal = Refusal {
            rule,
            place: search.place,
            word: search.word,
        };
        Ok(ExpandFail::Refused { refusal, files })
    }

    // Files nest too deep for another.
    fn nested(&mut self, alloc: Global, token: Token) -> ExpandFail
        ensures { Says result (broken (seen self.old) 206 token) }
    {
        let refusal = Refusal {
            rule: 206,
            place: token.place,
            word: token.text,
        };
        ExpandFail::Refused {
            refusal,
            files: mem::replace(&mut self.names, FileNames::new(alloc)),
        }
    }

    // The expansion goes on with a file that was found, unless files nest too deep.
    fn open_found(
        &mut self,
        alloc: Global,
        top: bool,
        deep: Option<Token>,
        path: Text,
        bytes: Text,
    ) -> Result<bool, ExpandFail>
        requires bounded { Bounded self.old }
        requires within { length bytes ≤ searches.room_left (seen self.old) }
        ensures goes { IfOk result (λ b. (b ≡ true) × (searches.found_in top (seen self.old) (record { path = path; bytes = bytes }) deep ≡ goes (seen self.new))) }
        ensures opened { IfOk result (λ _. seen self.new ≡ searches.opened top (seen self.old) (record { path = path; bytes = bytes })) }
        ensures calls { IfOk result (λ _. self.new.calls ≡ self.old.calls) }
        ensures stops { Deep result (searches.found_in top (seen self.old) (record { path = path; bytes = bytes }) deep) }
    {
        if let Some(token) = deep {
            return Err(self.nested(alloc, token));
        }
        self.open(alloc, top, path, bytes.as_bytes())?;
        Ok(true)
    }

    // The expansion goes on with a file.
    fn load<F: Files>(
        &mut self,
        alloc: Global,
        files: &mut F,
        search: Search,
    ) -> Result<bool, ExpandFail>
        requires { Bounded self.old }
        ensures reaches { LoadReaches (F.contents files.old) search (seen self.old) (seen self.new) result }
        ensures opened { IfOk result (λ b. Opens b search.top (seen self.old) (seen self.new)) }
        ensures calls { IfOk result (λ _. self.new.calls ≡ self.old.calls) }
        ensures same { F.contents files.new ≡ F.contents files.old }
        ensures cause { Cause result (F.faults files.old) (F.faults files.new) }
    {
        let limit = self.room_left();
        match load_first(alloc, files, search.paths.as_slice(), limit)? {
            Found::File(path, bytes) => {
                let Search { top, deep, .. } = search;
                self.open_found(alloc, top, deep, path, bytes)
            }
            Found::Absent => Err(self.lost(alloc, 101, search)?),
            Found::TooLong => Err(self.lost(alloc, 102, search)?),
        }
    }

    // A rule is broken in a step.
    fn stopped(&mut self, alloc: Global, fail: Fail) -> ExpandFail
        ensures { Stops fail self.old.names result }
    {
        match fail {
            Fail::Memory => ExpandFail::Memory,
            Fail::Refused(refusal) => ExpandFail::Refused {
                refusal,
                files: mem::replace(&mut self.names, FileNames::new(alloc)),
            },
        }
    }

    // One step, with the file that it wants: whether the expansion goes on.
    fn advance<F: Files>(
        &mut self,
        alloc: Global,
        set: &Settings,
        files: &mut F,
    ) -> Result<bool, ExpandFail>
        requires few { length set.now.files ≤ 2 ^ 30 }
        requires ready { Ready (length set.now.files) (whole self.old) }
        ensures reaches { AdvanceReaches set.now (F.contents files.old) (whole self.old) (whole self.new) result }
        ensures falls { Settles (length set.now.files) (whole self.old) (whole self.new) result }
        ensures same { F.contents files.new ≡ F.contents files.old }
        ensures cause { Cause result (F.faults files.old) (F.faults files.new) }
    {
        match self.step(alloc, set) {
            Ok(Turn::Go) => Ok(true),
            Ok(Turn::Look(search)) => self.load(alloc, files, Box::into_inner(search)),
            Ok(Turn::Done) => Ok(false),
            Err(fail) => Err(self.stopped(alloc, fail)),
        }
    }

    // The tokens, and the end of all files.
    fn finished(self, alloc: Global) -> Result<Expanded, AllocError>
        ensures { IfOk result (λ e. (e.tokens ≡ self.delivered ++ spec.end_token self.ending ∷ []) × (e.files ≡ self.names)) }
    {
        let State {
            mut delivered,
            names,
            ending,
            ..
        } = self;
        delivered.push(Token {
            kind: Kind::End,
            text: Text::from_bytes(alloc, b"<end>")?,
            place: ending,
        })?;
        Ok(Expanded {
            tokens: delivered,
            files: names,
        })
    }
}

/// The tokens of the files behind the directives of the compiler, with one of kind `End` at the end, and the files that
/// were loaded (IEEE 1800-2017 clause 22). The settings name at most 2^30 files.
///
/// It fails where a rule is broken, at the first token that breaks one; where a load failed; and for want of memory.
#[tactic(auto, using(crate::proofs::OneOutcome::has_outcome))]
pub fn expand<F: Files>(
    alloc: Global,
    set: &Settings,
    files: &mut F,
) -> Result<Expanded, ExpandFail>
    requires { length set.now.files ≤ 2 ^ 30 }
    // The answer is what the expansion comes to: by the files where their contents are told, else by what searches find.
    ensures comes { Reaches set.now (F.contents files.old) result }
    // The same by the relation in which the arguments of a call are expanded by the relation itself.
    ensures leads { LeadsBy set.now (F.contents files.old) result }
    // For any contents the expansion comes to one outcome: tokens or a refusal, and not both.
    ensures one { (contents : Contents) → spec.HasOutcome set.now contents }
    ensures same { F.contents files.new ≡ F.contents files.old }
    // A fault is answered only where the count of faults rose; tokens and refusals leave the count as it was.
    ensures cause { Cause result (F.faults files.old) (F.faults files.new) }
{
    let mut state = State::start(alloc, set)?;
    while state.advance(alloc, set, files)? {}
    Ok(state.finished(alloc)?)
}

/// The law that of the rules that are broken at a state by what comes next, each for itself, a step answers the one with
/// the least number, and that where it answers none none is broken.
#[tactic(auto, using(crate::proofs::Breaks::least_is_answered))]
pub fn least_is_answered()
    ensures { LeastIsAnswered }
{}

/// The law that an expansion, a move at a time, is the relation of its steps in which arguments are expanded by the
/// relation itself: what it comes to and the paths that it looks at are those of the relation, and where the contents of
/// the files are told the relation leads to that outcome and no other.
#[tactic(auto, using(crate::proofs::OneRelation::one_relation))]
pub fn one_relation()
    ensures { IsOneRelation }
{}

/// The law that the refusal of an expansion is at the first state at which a rule is broken: a state that the expansion
/// comes to at which one is broken is its last, with the least of them; else the refusal is of a token that is delivered,
/// of a body that is placed or of a file that is looked for.
#[tactic(auto, using(crate::proofs::FirstBreaks::first_is_answered))]
pub fn first_is_answered()
    ensures { FirstIsAnswered }
{}
