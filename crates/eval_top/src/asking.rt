//! The first file of a run, and refusals at the head of a file.

ghost use Rattle.std.specs.Prelude.{◌≡◌, IfOk};
ghost use Rattle.eval_top.specs.Asking.{first_path, refusal_at};

use eval_words::EvalRun;
use std::alloc::{AllocError, Global};
use sv_source::{Place, Refusal, Text};

/// The number of the rule on what isn't built.
pub const STAGE: u16 = 999;

/// The path of the first file of a run.
pub fn first_path(alloc: Global, run: &EvalRun) -> Result<Text, AllocError>
    ensures { IfOk result (λ path. path ≡ first_path run.now) }
{
    match run.files.as_slice().first() {
        Some(path) => path.copy(alloc),
        None => Ok(Text::new(alloc)),
    }
}

/// The refusal by a rule at the head of the file with a number.
pub fn refusal_at(alloc: Global, rule: u16, file: u32, word: &[u8]) -> Result<Refusal, AllocError>
    ensures { IfOk result (λ r. r ≡ refusal_at rule file word.now) }
{
    let word = Text::from_bytes(alloc, word)?;
    let place = Place {
        file,
        line: 1,
        col: 1,
    };
    Ok(Refusal { rule, place, word })
}
