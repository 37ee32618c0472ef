// What is still to come of a text, and a body that is placed in part.

use sv_source::{Items, Text, Token};

/// What is still to come.
#[derive(Drop, Debug)]
pub enum Coming {
    /// A token that is looked at for directives and uses.
    Raw(Token),
    /// A token of an argument that was expanded already.
    Kept(Token),
    /// The end of a file.
    FileEnd,
    /// The end of the expansion of the macro with this name.
    UseEnd(Text),
}

/// A macro's body that is placed in part.
#[derive(Drop, Debug)]
pub struct Placing {
    /// What is complete.
    pub complete: Items<Coming>,
    /// What a paste may still be joined to.
    pub chain: Items<Coming>,
    /// Whether a paste was the last part.
    pub pasting: bool,
}
