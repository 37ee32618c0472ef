//! The two files of a run: its text, and its row file.

ghost use Rattle.std.specs.Prelude.{◌≡◌, ◌<◌, ◌≤◌, ◌^◌, ◌-◌, length, IfOk};
ghost use Rattle.eval_top.specs.Asking as asking;
ghost use Rattle.eval_top.specs.Parts.{FileGives, DesignGives, FitGives, RowFileGives};
ghost use Rattle.eval_top.specs.declared.run.Stop.TheVariants.{Refused};

use crate::asking::refusal_at;
use crate::run::Stop;
use b4_core::Rows;
use std::alloc::{AllocError, Global};
use stim_rows::{Shape, read_rows};
use sv_source::{Fail, Files, Loaded, Place, Refusal, Text};
use v_reader::{ReadFail, TopFail, check_top, read_verilog};
use v_tree::VDesign;

/// The number of the rule on a file that is absent.
const ABSENT: u16 = 101;

/// The number of the rule on the length of a file.
const TOO_LONG: u16 = 102;

/// The number of the rule on the top of a text.
const TOP: u16 = 902;

// The refusal of the file with a path.
fn refused(alloc: Global, path: &Text, refusal: Refusal) -> Result<Stop, AllocError>
    ensures { IfOk result (λ stop. stop ≡ Refused path.now refusal) }
{
    Ok(Stop::Refused(path.copy(alloc)?, refusal))
}

// The refusal of a file that can't be loaded.
fn unloaded(alloc: Global, rule: u16, path: &Text, file: u32) -> Result<Stop, AllocError>
    ensures { IfOk result (λ stop. stop ≡ Refused path.now (asking.refusal_at rule file path.now)) }
{
    let refusal = refusal_at(alloc, rule, file, path.as_bytes())?;
    refused(alloc, path, refusal)
}

/// The bytes of a file, which has this number in refusals.
pub fn load_file<F: Files>(
    alloc: Global,
    files: &mut F,
    path: &Text,
    limit: u64,
    file: u32,
) -> Result<Text, Stop>
    requires { limit < 2 ^ 32 }
    ensures gives { FileGives path.now limit file (F.contents files.old) (F.faults files.old) (F.faults files.new) result }
    ensures same { F.contents files.new ≡ F.contents files.old }
    ensures later { F.faults files.old ≤ F.faults files.new }
    ensures level { IfOk result (λ _. F.faults files.new ≡ F.faults files.old) }
{
    match files.load(alloc, path.as_bytes(), limit) {
        Loaded::Bytes(bytes) => Ok(bytes),
        Loaded::Absent => Err(unloaded(alloc, ABSENT, path, file)?),
        Loaded::TooLong => Err(unloaded(alloc, TOO_LONG, path, file)?),
        Loaded::Failed => Err(Stop::FileFault(path.copy(alloc)?)),
        Loaded::Memory => Err(Stop::Memory),
    }
}

/// The design that a text reads as.
pub fn design_of(alloc: Global, path: &Text, bytes: &[u8]) -> Result<VDesign, Stop>
    requires { length bytes.now < 2 ^ 32 - 1 }
    ensures { DesignGives path.now bytes.now result }
{
    match read_verilog(alloc, bytes) {
        Ok(design) => Ok(design),
        Err(ReadFail::Memory) => Err(Stop::Memory),
        Err(
            ReadFail::NotVerilog {
                rule,
                line,
                col,
                word,
            },
        ) => {
            let place = Place { file: 0, line, col };
            Err(refused(alloc, path, Refusal { rule, place, word })?)
        }
    }
}

/// Refuses a design that can't be run with a top.
pub fn check_fit(alloc: Global, path: &Text, design: &VDesign, top: &Text) -> Result<(), Stop>
    ensures { FitGives path.now design.now top.now result }
{
    match check_top(alloc, design, top) {
        Ok(()) => Ok(()),
        Err(TopFail::Memory) => Err(Stop::Memory),
        Err(TopFail::Unfit) => {
            let refusal = refusal_at(alloc, TOP, 0, top.as_bytes())?;
            Err(refused(alloc, path, refusal)?)
        }
    }
}

/// The rows in a row file.
pub fn rows_in(alloc: Global, path: &Text, shape: &Shape, bytes: &[u8]) -> Result<Rows, Stop>
    requires { length bytes.now < 2 ^ 32 - 1 }
    ensures { RowFileGives path.now shape.now bytes.now result }
{
    match read_rows(alloc, shape, 1, bytes) {
        Ok(rows) => Ok(rows),
        Err(Fail::Memory) => Err(Stop::Memory),
        Err(Fail::Refused(refusal)) => Err(refused(alloc, path, refusal)?),
    }
}
