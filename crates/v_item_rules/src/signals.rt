//! Declarations of signals (IEEE 1364-2005 clauses 4.3, 4.9 and 6.2.1).

ghost use Rattle.std.specs.Prelude.{◌≡◌, ◌∷◌, List, map, length};
ghost use Rattle.v_item_rules.specs.Signals as means;

use b4_core::Vec4;
use v_expr_rules::{bits_of, earlier, mark, plus};
use v_tree::{VInit, VRegRest, VSignal};

/// The most bits of a signal or of a word, and the most words of a memory.
const MOST_BITS: u64 = 65_536;

/// How many tokens a range has, if it is there.
pub fn range_tokens(range: Option<u32>) -> u32
    ensures { result ≡ means.range_tokens range }
{
    match range {
        None => 0,
        Some(_) => 5,
    }
}

// A number of things as a number of tokens.
fn token_count(count: usize) -> u32
    ensures { result ≡ means.token_count count }
{
    if count < 4_294_967_295 {
        count as u32
    } else {
        4_294_967_295
    }
}

/// How many tokens so many tokens with commas between are.
pub fn listed_tokens(count: usize) -> u32
    ensures { result ≡ means.listed count }
{
    if count == 0 {
        0
    } else {
        plus(token_count(count - 1), token_count(count))
    }
}

fn init_tokens(init: &VInit) -> u32
    ensures { result ≡ means.init_tokens init.now }
{
    match init {
        VInit::Number(_) => 2,
        VInit::Concat(pieces) => plus(3, listed_tokens(pieces.len())),
    }
}

fn optional_tokens(init: &Option<VInit>) -> u32
    ensures { result ≡ means.optional_tokens init.now }
{
    match init {
        None => 0,
        Some(init) => init_tokens(init),
    }
}

fn rest_tokens(rest: &Option<VRegRest>) -> u32
    ensures { result ≡ means.rest_tokens rest.now }
{
    match rest {
        None => 0,
        Some(VRegRest::Memory(_)) => 5,
        Some(VRegRest::Initial(init)) => init_tokens(init),
    }
}

/// How many tokens the declaration of a signal has.
pub fn signal_tokens(signal: &VSignal) -> u32
    ensures { result ≡ means.signal_tokens signal.now }
{
    match signal {
        VSignal::Input { range, name: _ } => 3 + range_tokens(*range),
        VSignal::Output { range, name: _ } => 3 + range_tokens(*range),
        VSignal::OutputReg {
            range,
            name: _,
            initial,
        } => plus(4 + range_tokens(*range), optional_tokens(initial)),
        VSignal::Wire { range, name: _ } => 3 + range_tokens(*range),
        VSignal::Reg {
            range,
            name: _,
            rest,
        } => plus(3 + range_tokens(*range), rest_tokens(rest)),
    }
}

// Whether numbers have so many bits.
fn pieces_fill(pieces: &[Vec4], bits: u64) -> bool
    ensures { result ≡ means.fills pieces.now bits }
{
    let mut left = bits;
    for piece in pieces {
        let taken = piece.len() as u64;
        if left < taken {
            return false;
        }
        left -= taken;
    }
    left == 0
}

fn init_fills(init: &VInit, bits: u64) -> bool
    ensures { result ≡ means.init_fills init.now bits }
{
    match init {
        VInit::Number(number) => number.len() as u64 == bits,
        VInit::Concat(pieces) => pieces_fill(pieces.as_slice(), bits),
    }
}

// The token of a declared value that has another width than the signal whose name has this token.
fn init_first(range: Option<u32>, init: &VInit, token: u32) -> Option<u32>
    ensures { result ≡ means.init_first range init.now token }
{
    mark(!init_fills(init, bits_of(range)), plus(token, 2))
}

fn optional_first(range: Option<u32>, init: &Option<VInit>, token: u32) -> Option<u32>
    ensures { result ≡ means.optional_first range init.now token }
{
    match init {
        None => None,
        Some(init) => init_first(range, init, token),
    }
}

fn width_first(range: Option<u32>, token: u32) -> Option<u32>
    ensures { result ≡ means.width_first range token }
{
    mark(MOST_BITS < bits_of(range), token)
}

fn rest_first(range: Option<u32>, rest: &Option<VRegRest>, token: u32) -> Option<u32>
    ensures { result ≡ means.rest_first range rest.now token }
{
    match rest {
        None => None,
        Some(VRegRest::Memory(left)) => mark(MOST_BITS < u64::from(*left) + 1, token),
        Some(VRegRest::Initial(init)) => init_first(range, init, token),
    }
}

/// The first token of the declaration of a signal that breaks a rule, where it begins at a token.
pub fn signal_first(signal: &VSignal, at: u32) -> Option<u32>
    ensures { result ≡ means.signal_first signal.now at }
{
    match signal {
        VSignal::Input { range, name: _ } => {
            width_first(*range, plus(at, 1 + range_tokens(*range)))
        }
        VSignal::Output { range, name: _ } => {
            width_first(*range, plus(at, 1 + range_tokens(*range)))
        }
        VSignal::OutputReg {
            range,
            name: _,
            initial,
        } => {
            let token = plus(at, 2 + range_tokens(*range));
            earlier(
                width_first(*range, token),
                optional_first(*range, initial, token),
            )
        }
        VSignal::Wire { range, name: _ } => {
            width_first(*range, plus(at, 1 + range_tokens(*range)))
        }
        VSignal::Reg {
            range,
            name: _,
            rest,
        } => {
            let token = plus(at, 1 + range_tokens(*range));
            earlier(width_first(*range, token), rest_first(*range, rest, token))
        }
    }
}
