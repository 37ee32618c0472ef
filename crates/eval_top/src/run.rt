//! From the words of the command line to what is answered for them.

ghost use Rattle.std.specs.Prelude.{◌≡◌, ◌≤◌, map, string_bytes, IfOk};
ghost use Rattle.eval_top.specs.Answers.{StageGives, LanguageGives, AskedGives, CallGives};

use crate::asking::{STAGE, first_path, refusal_at};
use crate::running::run_text;
use eval_words::{EvalRun, EvalWords, Language, read_eval_words};
use std::alloc::{AllocError, Global};
use std::string::String;
use sv_source::{Files, Refusal, Text};

/// Why there is no output.
#[derive(Drop)]
pub enum Stop {
    /// The words aren't of the form.
    Usage,
    /// Want of memory.
    Memory,
    /// The load of the file with this path failed.
    FileFault(Text),
    /// The file with this path is refused.
    Refused(Text, Refusal),
    /// The design doesn't settle in the row with this number, from 1 on; the first signal that the last round changed.
    Unsettled(u64, Text),
}

impl From<AllocError> for Stop {
    ghost use Rattle.eval_top.specs.declared.run.Stop.TheVariants.{Memory};

    ghost from_gives = { λ _ stop. stop ≡ Memory };

    fn from(_: AllocError) -> Self {
        Stop::Memory
    }
}

/// The refusal of what isn't built, at the head of the file with this path.
fn refuse_stage(alloc: Global, path: Text) -> Result<Text, Stop>
    ensures { StageGives path result }
{
    let refusal = refusal_at(alloc, STAGE, 0, b"stage")?;
    Err(Stop::Refused(path, refusal))
}

/// The lines of a run, by the language of its files.
fn run_files<F: Files>(alloc: Global, run: &EvalRun, files: &mut F) -> Result<Text, Stop>
    ensures gives { LanguageGives run.now.language run.now (F.contents files.old) (F.faults files.old) (F.faults files.new) result }
    ensures later { F.faults files.old ≤ F.faults files.new }
    ensures level { IfOk result (λ _. F.faults files.new ≡ F.faults files.old) }
{
    match run.language {
        Language::Source => refuse_stage(alloc, first_path(alloc, run)?),
        Language::Target => run_text(alloc, run, files),
    }
}

/// The lines that the words ask for.
fn run_asked<F: Files>(alloc: Global, asked: &EvalWords, files: &mut F) -> Result<Text, Stop>
    ensures gives { AskedGives asked.now (F.contents files.old) (F.faults files.old) (F.faults files.new) result }
    ensures later { F.faults files.old ≤ F.faults files.new }
    ensures level { IfOk result (λ _. F.faults files.new ≡ F.faults files.old) }
{
    match asked {
        EvalWords::Generate(_) => refuse_stage(alloc, Text::from_bytes(alloc, b"gen.sv")?),
        EvalWords::Run(run) => run_files(alloc, run, files),
    }
}

/// The lines that the words ask for.
pub fn run<F: Files>(alloc: Global, words: &[String], files: &mut F) -> Result<Text, Stop>
    ensures gives { CallGives (map string_bytes words.now) (F.contents files.old) (F.faults files.old) (F.faults files.new) result }
    ensures later { F.faults files.old ≤ F.faults files.new }
    ensures level { IfOk result (λ _. F.faults files.new ≡ F.faults files.old) }
{
    match read_eval_words(alloc, words)? {
        None => Err(Stop::Usage),
        Some(asked) => run_asked(alloc, &asked, files),
    }
}
