//! The terminal symbols of the grammar: classes of names and literals, marks and reserved words.

ghost use Rattle.std.specs.Prelude.{◌≡◌, ◌≤◌, ◌+◌, ◌^◌, length};
ghost use Rattle.sv_tree.specs.Symbols.{words_of, place_among, symbol_among, mark_symbol, word_symbol, system_symbol, symbol_of};

use sv_source::{Kind, Text, Token};

/// A token that stands nowhere in the grammar.
pub const OTHER: u16 = 0;

/// A name that is no reserved word (IEEE 1800-2017 clause 5.6).
pub const IDENTIFIER: u16 = 1;

/// One of the system functions `$bits`, `$clog2`, `$signed` and `$unsigned` (IEEE 1800-2017 clause 20).
pub const SYSTEM: u16 = 2;

/// Decimal digits (IEEE 1800-2017 clause 5.7.1).
pub const DECIMAL: u16 = 3;

/// A base and its digits (IEEE 1800-2017 clause 5.7.1).
pub const BASED: u16 = 4;

/// A value for every bit, as `'0` (IEEE 1800-2017 clause 5.7.1).
pub const FILL: u16 = 5;

/// The end of all files. It stands in no row, since a reader takes the end of its symbols for it.
pub const END: u16 = 6;

/// The first mark.
pub const FIRST_MARK: u16 = 7;

/// The first reserved word.
pub const FIRST_WORD: u16 = 74;

/// The marks of the grammar, with one space between (IEEE 1800-2017 annex A).
pub const MARKS: &str =
    "; , ( ) [ ] { } . : :: ? # @ ' .* (* *) (*) = <= += -= *= /= %= &= |= ^= <<= >>= <<<= >>>= ++ -- +: -: + - * / % ** ! ~ & | ^ ~& ~| ~^ ^~ && || == != === !== ==? !=? < > >= << >> <<< >>>";

/// The reserved words of the grammar, with one space between.
pub const WORDS: &str =
    "always always_comb always_ff always_latch assign automatic begin bit break byte case casex casez continue default else end endcase endfunction endgenerate endinterface endmodule endpackage endtask enum for function generate genvar if import inout input inside int integer interface localparam logic longint modport module negedge or output package packed parameter posedge priority reg return shortint signed static struct task type typedef union unique unique0 unsigned var void wire";

/// The place of the text among the words, if it is one of them.
fn place_among(words: &'static str, text: &[u8]) -> Option<usize>
    ensures { result ≡ place_among (words_of words.now) text.now }
{
    words.split(' ').position(|word| word.as_bytes() == text)
}

/// The place of the text among the words, counted from `first`, or `OTHER` where it is none of them.
#[tactic(auto, using(crate::proofs::Positions::place_within))]
pub fn symbol_among(first: u16, words: &'static str, text: &[u8]) -> u16
    requires { first + length (words_of words.now) ≤ 2 ^ 16 }
    ensures { result ≡ symbol_among first (words_of words.now) text.now }
{
    match place_among(words, text) {
        Some(place) => first + place as u16,
        None => OTHER,
    }
}

/// The symbol of a mark.
#[tactic(auto, unfolding(crate::specs::Symbols::mark_symbol))]
pub fn mark_symbol(text: &[u8]) -> u16
    ensures { result ≡ mark_symbol text.now }
{
    symbol_among(FIRST_MARK, MARKS, text)
}

/// The symbol of a reserved word.
#[tactic(auto, unfolding(crate::specs::Symbols::word_symbol))]
pub fn word_symbol(text: &[u8]) -> u16
    ensures { result ≡ word_symbol text.now }
{
    symbol_among(FIRST_WORD, WORDS, text)
}

/// The symbol of a system name.
fn system_symbol(text: &Text) -> u16
    ensures { result ≡ system_symbol text.now }
{
    if text.is(b"$bits") {
        SYSTEM
    } else if text.is(b"$clog2") {
        SYSTEM
    } else if text.is(b"$signed") {
        SYSTEM
    } else if text.is(b"$unsigned") {
        SYSTEM
    } else {
        OTHER
    }
}

/// The terminal symbol of a token.
pub fn symbol_of(token: &Token) -> u16
    ensures { result ≡ symbol_of token.now }
{
    match token.kind {
        Kind::Name => IDENTIFIER,
        Kind::Reserved => word_symbol(token.text.as_bytes()),
        Kind::Decimal => DECIMAL,
        Kind::Based => BASED,
        Kind::Fill => FILL,
        Kind::Mark => mark_symbol(token.text.as_bytes()),
        Kind::System => system_symbol(&token.text),
        Kind::End => END,
        _ => OTHER,
    }
}
