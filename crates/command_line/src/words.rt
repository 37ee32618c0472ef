// The words of the command line.
ghost use Rattle.std.specs.Prelude.{◌≡◌, ◌≤◌, ◌^◌, Some, map, sum, length, string_bytes, IfOk};
ghost use Rattle.command_line.specs.Words as spec;
ghost use Rattle.command_line.specs.Words.{asked, Few};
ghost use Rattle.command_line.specs.Drafts.{start, with_words};

use crate::draft::Draft;
use crate::part::is_alone;
use std::alloc::{AllocError, Global};
use std::string::String;
use sv_preproc::Settings;
use sv_source::Text;

/// The most words, and the most bytes that they may have together.
const LIMIT: usize = 1 << 30;

/// What the words ask for.
#[derive(Drop, Debug)]
pub struct Asked {
    /// The name of the top module.
    pub top: Text,
    /// The files, the directories of included files and the macros.
    pub settings: Settings,
}

// Whether there are few enough words and bytes.
fn are_few(words: &[String]) -> bool
    ensures { result ≡ spec.are_few (map string_bytes words.now) }
{
    if words.len() > LIMIT {
        return false;
    }
    let mut room = LIMIT;
    for word in words {
        match room.checked_sub(word.len()) {
            Some(left) => room = left,
            None => return false,
        }
    }
    true
}

// What words ask for, one by one. `None` where one isn't well formed.
fn read_all(alloc: Global, words: &[String]) -> Result<Option<Draft>, AllocError>
    requires { sum (map length (map string_bytes words.now)) ≤ 2 ^ 30 }
    ensures { IfOk result (λ draft. draft ≡ with_words (Some start) (spec.joined (map string_bytes words.now))) }
{
    let mut draft = Draft::new(alloc);
    let mut rest = words;
    while let [word, behind @ ..] = rest {
        let (good, behind) = match behind {
            [value, behind @ ..] if is_alone(word.as_bytes()) => {
                let good = draft.add_option(alloc, word.as_bytes(), value.as_bytes())?;
                (good, behind)
            }
            behind => (draft.add_word(alloc, word.as_bytes())?, behind),
        };
        if !good {
            return Ok(None);
        }
        rest = behind;
    }
    Ok(Some(draft))
}

/// What the words after the program's name ask for: `[-I DIR].. [-D NAME[=TEXT]].. --top=NAME FILE..`, in any order.
/// `None` for any other words, and for more than 2^30 of them or 2^30 bytes. It fails for want of memory alone.
pub fn read_words(alloc: Global, words: &[String]) -> Result<Option<Asked>, AllocError>
    ensures answer { IfOk result (λ a. a ≡ asked (map string_bytes words.now)) }
    ensures few { IfOk result Few }
{
    if !are_few(words) {
        return Ok(None);
    }
    match read_all(alloc, words)? {
        Some(draft) => Ok(draft.finished()),
        None => Ok(None),
    }
}
