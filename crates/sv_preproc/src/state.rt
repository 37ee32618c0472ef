// How far an expansion has come.

use sv_macro::brackets::Bracket;
use sv_macro::pending::Pending;
use sv_macro::stack::Stack;
use sv_macro::table::Table;
use sv_source::{FileNames, Items, Place, Text, Token, Tokens};

/// Whether a conditional's branch is taken.
#[derive(Clone, Copy, PartialEq, Eq, Debug)]
pub enum Branch {
    /// It isn't, and none before it was.
    Waiting,
    /// It is.
    Taken,
    /// It isn't, and no later one is.
    Over,
}

/// An open conditional.
#[derive(Drop, Debug)]
pub struct Conditional {
    /// Its first directive.
    pub first: Token,
    /// Its branch.
    pub branch: Branch,
    /// Whether the branch is that of `` `else ``.
    pub last: bool,
}

/// An open file.
#[derive(Drop, Debug)]
pub struct OpenFile {
    /// Its path.
    pub path: Text,
    /// Its open conditionals, the innermost first.
    pub conditionals: Stack<Conditional>,
}

/// A macro call whose arguments are read.
#[derive(Drop, Debug)]
pub struct Call {
    /// The token that uses the macro.
    pub used: Token,
    /// How many expansions were going on around the call.
    pub level: usize,
    /// The open brackets in the argument, the innermost first.
    pub brackets: Stack<Bracket>,
    /// The arguments before this one, expanded.
    pub arguments: Items<Tokens>,
    /// This argument so far, expanded.
    pub argument: Tokens,
}

/// How far an expansion has come.
#[derive(Drop)]
pub struct State {
    /// What is still to come of the files that are open.
    pub coming: Pending,
    /// The macros.
    pub macros: Table,
    /// The open files, the innermost first.
    pub files: Stack<OpenFile>,
    /// The calls whose arguments are read, the innermost first.
    pub calls: Stack<Call>,
    /// How many expansions of macros are going on.
    pub uses: usize,
    /// How many files of the command line were looked for.
    pub next: usize,
    /// The paths of the files that were loaded.
    pub names: FileNames,
    /// How many bytes were loaded.
    pub loaded: u64,
    /// How many macros were used, tokens placed and tokens delivered.
    pub spent: u64,
    /// The place behind the last file of the command line.
    pub ending: Place,
    /// The tokens that were delivered.
    pub delivered: Tokens,
}
