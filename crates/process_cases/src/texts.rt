//! Words of trees from texts. An expression stands behind its operands, as a stack machine reads it, and so does a statement.

use b4_core::{BinOp, OrdOp, RedOp, UnOp};
use std::alloc::{AllocError, Global};
use sv_types::{CaseKind, Way};
use tree_words::Word;

// The numbers of the type `int`.
const ZERO: &str = "00000000000000000000000000000000";

const ONE: &str = "00000000000000000000000000000001";

fn number(text: &str) -> u32 {
    text.parse().unwrap_or(0)
}

fn bound(text: &str) -> i64 {
    text.parse().unwrap_or(0)
}

/// The type of a text: `1` is one bit, another number a vector of so many; else it is in the words of types.
pub fn type_word(text: &'static str) -> Word {
    match text {
        "1" => Word::Scalar,
        "int" => Word::Int,
        _ => match text.parse::<i64>() {
            Ok(width) => Word::Vector(width.saturating_sub(1), 0),
            Err(_) => Word::Type(text),
        },
    }
}

// The type of a signal, by its number.
fn type_of_signal(signals: &'static str, number: u32) -> &'static str {
    let signal = signals.split(',').nth(number as usize).unwrap_or("");
    last_of(signal)
}

// What stands behind the last colon, or one bit.
fn last_of(text: &'static str) -> &'static str {
    match text.rsplit_once(':') {
        Some((_, last)) => last,
        None => "1",
    }
}

// What stands in front of the first mark of two parts, and what stands behind it.
fn halves(text: &'static str) -> (&'static str, &'static str) {
    match text.split_once(':') {
        Some(halves) => halves,
        None => (text, ""),
    }
}

fn operator(text: &str) -> Option<Word> {
    match text {
        "+" => Some(Word::Binary(BinOp::Add)),
        "&" => Some(Word::Binary(BinOp::And)),
        "|" => Some(Word::Binary(BinOp::Or)),
        "^" => Some(Word::Binary(BinOp::Xor)),
        "~" => Some(Word::Unary(UnOp::Not)),
        "<" => Some(Word::Order(OrdOp::Less)),
        "!" => Some(Word::Negate),
        "^-" => Some(Word::Reduce(RedOp::Xor)),
        "=" => Some(Word::Assign(1, false)),
        "==" => Some(Word::Assign(2, false)),
        "<=" => Some(Word::Assign(1, true)),
        "<==" => Some(Word::Assign(2, true)),
        "if" => Some(Word::If(false)),
        "else" => Some(Word::If(true)),
        "break" => Some(Word::Break),
        "continue" => Some(Word::Continue),
        "return" => Some(Word::Return),
        "endfunction" => Some(Word::Function),
        _ => None,
    }
}

fn add(word: Option<Word>, to: &mut Vec<Word>) -> Result<(), AllocError> {
    if let Some(word) = word {
        to.push(word)?;
    }
    Ok(())
}

// The type in front of what a mark and a text make: `sN` is a signal, `lN:TYPE` a local, `@TYPE` an element by an index, `aN` an
// element of a signal, `.K:TYPE` a member, `[L:R]` a part, `k0` and `k1` are numbers of the type `int`.
fn type_in_front(signals: &'static str, mark: u8, text: &'static str) -> Option<Word> {
    let signal = type_of_signal(signals, number(text));
    match mark {
        b's' => Some(type_word(signal)),
        b'a' => Some(type_word(signal.split(" array").next().unwrap_or("1"))),
        b'l' | b'd' | b'V' | b'.' | b'I' | b'O' | b'f' => Some(type_word(last_of(text))),
        b'@' | b'G' => Some(type_word(text)),
        b'[' => {
            let (left, right) = halves(text.trim_end_matches(']'));
            Some(Word::Vector(bound(left).saturating_sub(bound(right)), 0))
        }
        b'k' => Some(Word::Int),
        _ => None,
    }
}

// What a mark and a text make, behind its type.
fn made(mark: u8, text: &'static str) -> Option<Word> {
    let (first, second) = halves(text.trim_end_matches(']'));
    let (n, count) = (number(first), number(halves(second).0));
    let (left, right) = (bound(first), bound(second));
    match mark {
        b's' => Some(Word::Signal(n)),
        b'l' => Some(Word::Local(n)),
        b'd' => Some(Word::Declare(n)),
        b'V' => Some(Word::Start(n)),
        b'b' => Some(Word::Bits(text)),
        b'k' => Some(Word::Constant(if n == 0 { ZERO } else { ONE })),
        b'[' => Some(Word::Part(left, right)),
        b'@' | b'a' => Some(Word::Index),
        b'.' => Some(Word::Member(n)),
        b'{' => Some(Word::Concat(n)),
        b'f' => Some(Word::Call(n, count)),
        b't' => Some(Word::Task(n, count)),
        b'B' => Some(Word::Block(n)),
        b'C' => Some(Word::Case(CaseKind::Plain, text, false)),
        b'E' => Some(Word::Case(CaseKind::Plain, text, true)),
        b'F' => Some(Word::Loop(n)),
        b'U' => Some(Word::Upto(n, second)),
        b'I' => Some(Word::Formal(n, Way::Input)),
        b'O' => Some(Word::Formal(n, Way::Output)),
        _ => None,
    }
}

fn put(signals: &'static str, text: &'static str, to: &mut Vec<Word>) -> Result<(), AllocError> {
    let word = operator(text);
    if word.is_some() {
        return add(word, to);
    }
    let mark = text.bytes().next().unwrap_or(b' ');
    let rest = text.get(1..).unwrap_or("");
    add(type_in_front(signals, mark, rest), to)?;
    add(made(mark, rest), to)
}

/// The words of a text, in which `s` with a number is a signal of these.
pub fn words(
    alloc: Global,
    signals: &'static str,
    text: &'static str,
) -> Result<Vec<Word>, AllocError> {
    let mut all = Vec::new(alloc);
    for word in text.split(' ') {
        put(signals, word, &mut all)?;
    }
    Ok(all)
}
