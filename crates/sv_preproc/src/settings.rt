use std::alloc::AllocError;
pub use sv_macro::texts::Texts;
use sv_source::{FileNames, Items, Refusal, Text, Tokens};

/// A macro that the command line defines.
#[derive(Drop, Debug)]
pub struct Define {
    /// Its name.
    pub name: Text,
    /// Its body.
    pub body: Tokens,
}

/// Macros of the command line. Of equal names the last counts.
pub type Defines = Items<Define>;

/// What is expanded, and how.
#[derive(Drop, Debug)]
pub struct Settings {
    /// The paths of the files, in order.
    pub files: Texts,
    /// The directories in which an included file is looked for.
    pub dirs: Texts,
    /// The macros that are defined at the start.
    pub defines: Defines,
}

/// The tokens of all files.
#[derive(Drop, Debug)]
pub struct Expanded {
    /// The tokens, with one of kind `End` at the end.
    pub tokens: Tokens,
    /// The files that were loaded, by the number in a place.
    pub files: FileNames,
}

/// Why there is no expansion.
#[derive(Drop, Debug)]
pub enum ExpandFail {
    /// Want of memory.
    Memory,
    /// A load failed.
    FileFault {
        /// The path that was loaded.
        path: Text,
    },
    /// A rule is broken.
    Refused {
        /// The rule, with its place and word.
        refusal: Refusal,
        /// The files, by the number in a place.
        files: FileNames,
    },
}

impl From<AllocError> for ExpandFail {
    ghost use Rattle.std.specs.Prelude.{◌≡◌};
    ghost use Rattle.sv_preproc.specs.declared.settings.ExpandFail.TheVariants.{Memory};

    ghost from_gives = { λ _ fail. fail ≡ Memory };

    fn from(_: AllocError) -> Self {
        ExpandFail::Memory
    }
}
