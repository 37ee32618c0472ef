// What the words say.
ghost use Rattle.std.specs.Prelude.{◌≡◌, IfOk};
ghost use Rattle.command_line.specs.Words as spec;
ghost use Rattle.command_line.specs.Drafts.{NoLonger};

use std::alloc::{AllocError, Global};
use sv_source::Text;

/// What a word says, together with the next one where its value stands there.
#[derive(Drop, Debug)]
pub enum Part {
    /// `--top=NAME`: the name of the top module.
    Top(Text),
    /// `-I DIR`: a directory in which an included file is looked for.
    Directory(Text),
    /// `-D NAME` or `-D NAME=TEXT`: a macro, as it is written.
    Macro(Text),
    /// The path of a file.
    File(Text),
}

/// Whether the word is an option whose value is the next word.
pub fn is_alone(word: &[u8]) -> bool
    ensures { result ≡ spec.is_alone word.now }
{
    word == b"-I".as_slice() || word == b"-D".as_slice()
}

fn is_path(word: &[u8]) -> bool
    ensures { result ≡ spec.is_path word.now }
{
    match word {
        [first, ..] => *first != b'-',
        [] => false,
    }
}

/// What a word says. One that is empty, or begins with `-` and is no option, says nothing.
pub fn part_of(alloc: Global, word: &[u8]) -> Result<Option<Part>, AllocError>
    ensures part { IfOk result (λ part. part ≡ spec.part_of word.now) }
    ensures short { IfOk result (NoLonger word.now) }
{
    if let Some(name) = word.strip_prefix(b"--top=") {
        Ok(Some(Part::Top(Text::from_bytes(alloc, name)?)))
    } else if let Some(path) = word.strip_prefix(b"-I") {
        Ok(Some(Part::Directory(Text::from_bytes(alloc, path)?)))
    } else if let Some(text) = word.strip_prefix(b"-D") {
        Ok(Some(Part::Macro(Text::from_bytes(alloc, text)?)))
    } else if is_path(word) {
        Ok(Some(Part::File(Text::from_bytes(alloc, word)?)))
    } else {
        Ok(None)
    }
}
