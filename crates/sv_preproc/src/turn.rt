// What a step of an expansion comes to.

use crate::settings::Texts;
use sv_source::{Place, Text, Token};

/// A file that is wanted.
#[derive(Drop, Debug)]
pub struct Search {
    /// Where it may be: the first that isn't absent is meant.
    pub paths: Texts,
    /// Whether the command line names it.
    pub top: bool,
    /// Where a refusal of it stands.
    pub place: Place,
    /// The word of that refusal.
    pub word: Text,
    /// The directive that wants it, where files nest too deep.
    pub deep: Option<Token>,
}

/// What a step comes to.
#[derive(Drop, Debug)]
pub enum Turn {
    /// The expansion goes on.
    Go,
    /// It goes on with a file. The box keeps a turn small.
    Look(Box<Search>),
    /// It is done.
    Done,
}
