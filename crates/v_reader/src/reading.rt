//! The reading of a text.

ghost use Rattle.std.specs.Prelude.{◌≡◌, ◌<◌, ◌-◌, ◌^◌, length, slice_get, IfOk};
ghost use Rattle.v_lexer.specs.Seen.{tokens_of};
ghost use Rattle.v_parse.specs.Spots.{spot_of};
ghost use Rattle.v_reader.specs.Refusing as means;

use crate::fails::ReadFail;
use ll_engine::ParseFail;
use std::alloc::{AllocError, Global};
use v_functions::first_broken;
use v_lexer::lex;
use v_parse::{discard, find_spot, parse_text};
use v_tree::VDesign;

/// The number of the rule on the grammar.
const GRAMMAR: u16 = 901;

/// The number of the rules on nesting, names, limits and circles.
const RULES: u16 = 902;

/// Why a text is refused: a rule, and the token at which it is broken.
#[derive(Clone, Copy, Drop)]
pub struct Break {
    /// The rule.
    pub rule: u16,
    /// The token's number.
    pub token: u32,
}

/// Why a text isn't read.
#[derive(Clone, Copy, Drop)]
pub enum Stop {
    /// Want of memory.
    Memory,
    /// It breaks a rule.
    Breaks(Break),
}

impl From<AllocError> for Stop {
    ghost use Rattle.v_reader.specs.declared.reading.Stop.TheVariants.{Memory};

    ghost from_gives = { λ _ r. r ≡ Memory };

    fn from(_error: AllocError) -> Stop {
        Stop::Memory
    }
}

// The design, if it keeps the rules.
fn kept(alloc: Global, design: VDesign) -> Result<VDesign, Stop>
    ensures { means.Keeping design result }
{
    match first_broken(alloc, &design) {
        Ok(None) => Ok(design),
        Ok(Some(token)) => {
            discard(design);
            Err(Stop::Breaks(Break { rule: RULES, token }))
        }
        Err(_) => {
            discard(design);
            Err(Stop::Memory)
        }
    }
}

// Why a text spells no design.
fn stop_of(fail: ParseFail) -> Stop
    ensures { result ≡ means.stop_of fail }
{
    match fail {
        ParseFail::Memory => Stop::Memory,
        ParseFail::NoText { at } => Stop::Breaks(Break {
            rule: GRAMMAR,
            token: at,
        }),
        ParseFail::Deep { at } => Stop::Breaks(Break {
            rule: RULES,
            token: at,
        }),
    }
}

// The design that a text reads as, or the rule that it breaks and the token at which it does.
#[tactic(auto, using(crate::proofs::Stopping::kept_read, crate::proofs::Stopping::failed_read))]
fn text_read(alloc: Global, bytes: &[u8]) -> Result<VDesign, Stop>
    requires { length bytes.now < 2 ^ 32 - 1 }
    ensures { means.TextRead bytes.now result }
{
    match parse_text(alloc, bytes) {
        Ok(design) => kept(alloc, design),
        Err(fail) => Err(stop_of(fail)),
    }
}

// The refusal of a text.
fn refusal(alloc: Global, bytes: &[u8], why: Break) -> Result<ReadFail, AllocError>
    requires { length bytes.now < 2 ^ 32 - 1 }
    ensures { IfOk result (λ fail. fail ≡ means.refusal_at (spot_of bytes.now (slice_get (tokens_of bytes.now) why.token)) why.rule) }
{
    let tokens = lex(alloc, bytes)?;
    let spot = find_spot(alloc, bytes, tokens.as_slice(), why.token)?;
    Ok(ReadFail::NotVerilog {
        rule: why.rule,
        line: spot.place.line,
        col: spot.place.col,
        word: spot.word,
    })
}

/// The design that a target text reads as (the subset of IEEE 1364-2005 annex A in which texts are written, with its rules on
/// names, limits and circles that need no top), exactly where it reads as one. Else `NotVerilog`: 901 at the token with which no
/// text goes on, or 902 where nesting first passes 4,096, whichever comes first; else 902 at the first token that breaks a rule.
/// Or want of memory.
#[tactic(auto, using(crate::proofs::Stopping::refused))]
pub fn read_verilog(alloc: Global, bytes: &[u8]) -> Result<VDesign, ReadFail>
    requires { length bytes.now < 2 ^ 32 - 1 }
    ensures { means.ReadGives bytes.now result }
{
    match text_read(alloc, bytes) {
        Ok(design) => Ok(design),
        Err(Stop::Memory) => Err(ReadFail::Memory),
        Err(Stop::Breaks(why)) => Err(refusal(alloc, bytes, why)?),
    }
}

/// The law that a text has one answer: one design, or one refusal, and not both.
#[tactic(auto, using(crate::proofs::OneAnswer::one_answer))]
pub fn has_one_answer(bytes: &[u8])
    ensures { means.OneAnswer bytes.now }
{
    let _bytes = bytes;
}
