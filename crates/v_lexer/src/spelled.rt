//! The words and marks of the grammar.

ghost use Rattle.std.specs.Prelude.{◌≡◌, ◌<◌, ◌≤◌, ⊤, ℕ, [], map, length, find, slice_index_or, Some, None, MatchOption};
ghost use Rattle.std.specs.Option.{option_map};
ghost use Rattle.v_tree.specs.Names.{position};
ghost use Rattle.v_tree.specs.Tokens.{begins};
ghost use Rattle.v_lexer.specs.Seen.{IsSingle, spelled_symbol, longest_mark, seen_mark};

use crate::bytes::begins;

// The words and marks that are terminal symbols.
const SPELLED: [&str; 67] = [
    "module",
    "endmodule",
    "input",
    "output",
    "wire",
    "reg",
    "initial",
    "assign",
    "always",
    "function",
    "endfunction",
    "posedge",
    "negedge",
    "or",
    "begin",
    "end",
    "if",
    "else",
    "case",
    "casez",
    "casex",
    "endcase",
    "default",
    "$signed",
    "$unsigned",
    "(",
    ")",
    ";",
    ",",
    "[",
    "]",
    "{",
    "}",
    ":",
    "=",
    "<=",
    "@",
    "*",
    "?",
    ".",
    "+:",
    "+",
    "-",
    "/",
    "%",
    "**",
    "<<",
    ">>",
    "<<<",
    ">>>",
    "<",
    ">",
    ">=",
    "==",
    "!=",
    "===",
    "!==",
    "&",
    "|",
    "^",
    "~^",
    "&&",
    "||",
    "~",
    "!",
    "~&",
    "~|",
];

// The marks, longer ones first.
const MARKS: [&str; 42] = [
    "<<<", ">>>", "===", "!==", "<=", ">=", "==", "!=", "<<", ">>", "**", "&&", "||", "~^", "~&",
    "~|", "+:", "(", ")", "[", "]", "{", "}", ";", ",", ".", ":", "?", "@", "=", "+", "-", "*",
    "/", "%", "&", "|", "^", "~", "!", "<", ">",
];

// The symbols of these, and how many bytes they have.
const MARK_SYMBOLS: [u16; 42] = [
    53, 54, 60, 61, 40, 57, 58, 59, 51, 52, 50, 66, 67, 65, 70, 71, 45, 30, 31, 34, 35, 36, 37, 32,
    33, 44, 38, 43, 41, 39, 46, 47, 42, 48, 49, 62, 63, 64, 68, 69, 55, 56,
];

const MARK_LENGTHS: [usize; 42] = [
    3, 3, 3, 3, 2, 2, 2, 2, 2, 2, 2, 2, 2, 2, 2, 2, 2, 1, 1, 1, 1, 1, 1, 1, 1, 1, 1, 1, 1, 1, 1, 1,
    1, 1, 1, 1, 1, 1, 1, 1, 1, 1,
];

// The place of the text among the words, or their number.
fn place_or_count(words: &[&'static str], text: &[u8]) -> usize
    ensures place { result ≡ position (map (λ word. word.now) words.now) text.now }
    ensures within { result ≤ length words.now }
{
    for place in 0..words.len() {
        if words[place].as_bytes() == text {
            return place;
        }
    }
    words.len()
}

/// The symbol of a word.
#[tactic(auto, unfolding(crate::specs::Seen::spelled_symbol))]
pub fn spelled_symbol(text: &[u8]) -> u16
    ensures { result ≡ spelled_symbol text.now }
{
    5 + place_or_count(&SPELLED, text) as u16
}

// The place of the first of the words with which the text begins, if there is one.
fn first_begun(words: &[&'static str], text: &[u8]) -> Option<usize>
    ensures none { result ≡ None → find (λ m. begins m text.now) (map (λ word. word.now) words.now) ≡ None }
    ensures some { (k : ℕ) → result ≡ Some k → find (λ m. begins m text.now) (map (λ word. word.now) words.now) ≡ Some (slice_index_or (map (λ word. word.now) words.now) k []) }
    ensures within { (k : ℕ) → result ≡ Some k → k < length words.now }
{
    for place in 0..words.len() {
        if begins(words[place].as_bytes(), text) {
            return Some(place);
        }
    }
    None
}

/// The symbol of the longest mark at the front of a text, and how many bytes it has.
#[tactic(auto, unfolding(crate::specs::Seen::longest_mark))]
pub fn mark(text: &[u8]) -> Option<(u16, usize)>
    ensures { result ≡ option_map seen_mark (longest_mark text.now) }
{
    match first_begun(&MARKS, text) {
        Some(place) => Some((MARK_SYMBOLS[place], MARK_LENGTHS[place])),
        None => None,
    }
}

/// The symbol of a byte that no longer mark begins with.
pub fn single(byte: u8) -> Option<u16>
    ensures { MatchOption result ⊤ (IsSingle byte) }
{
    match byte {
        b'(' => Some(30),
        b')' => Some(31),
        b';' => Some(32),
        b',' => Some(33),
        b'[' => Some(34),
        b']' => Some(35),
        b'{' => Some(36),
        b'}' => Some(37),
        b':' => Some(38),
        _ => None,
    }
}
