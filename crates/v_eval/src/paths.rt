//! Names with selects (IEEE 1364-2005 clauses 4.9 and 5.2).

ghost use Rattle.std.specs.Prelude.{◌≡◌, ◌≤◌, ◌<ℤ◌, ◌≤ℤ◌, ◌^◌, ◌*◌, ◌*ℤ◌, pos, IfSome, unsigned_abs, []};
ghost use Rattle.v_meaning.specs.Scopes.{bits_of_range, all_bits};
ghost use Rattle.v_meaning.specs.Selects as means;
ghost use Rattle.v_eval.specs.Windows.{window_of, IsNear};
ghost use Rattle.v_eval.specs.Paths.{words_of, named_or_not, path_of, selecting, IsShort};

use crate::windows::{Window, entire, nothing, part_of};
use v_tree::VExtent;

/// What a name stands for.
#[derive(Clone, Copy, Drop)]
pub struct Named {
    /// The number of its signal, or 2^32 more than that of its local.
    pub number: u64,
    /// The left bound of its range, if it has one.
    pub left: Option<u32>,
    /// The left bound of the range of a memory.
    pub last: Option<u32>,
}

/// A name with some of its selects: the bits that it names, how many they are, and how many words are still to be chosen
/// from, if it is a memory.
#[derive(Clone, Copy)]
pub struct Path {
    pub window: Window,
    pub width: u64,
    pub words: Option<u64>,
}

/// How many bits a range has.
pub fn bits_of_range(left: Option<u32>) -> u64
    ensures value { result ≡ bits_of_range left }
    ensures short { result ≤ 2 ^ 32 }
{
    match left {
        None => 1,
        Some(left) => left as u64 + 1,
    }
}

// How many words a memory has.
fn words_of(last: Option<u32>) -> Option<u64>
    ensures value { result ≡ words_of last }
    ensures short { IfSome result (λ n. n ≤ 2 ^ 32) }
{
    match last {
        None => None,
        Some(last) => Some(last as u64 + 1),
    }
}

// The bits of so many words.
#[tactic(auto, using(crate::proofs::Products::products))]
fn bits_of_words(count: u64, width: u64) -> u128
    requires count { count ≤ 2 ^ 32 }
    requires width { width ≤ 2 ^ 32 }
    ensures value { result ≡ count * width }
    ensures short { result ≤ 2 ^ 64 }
{
    count as u128 * width as u128
}

// All bits of a vector, or of all words of a memory.
fn bits_of_all(width: u64, words: Option<u64>) -> u128
    requires width { width ≤ 2 ^ 32 }
    requires words { IfSome words (λ n. n ≤ 2 ^ 32) }
    ensures value { result ≡ all_bits (record { name = []; number = 0; width = width; words = words }) }
    ensures short { result ≤ 2 ^ 64 }
{
    match words {
        None => width as u128,
        Some(count) => bits_of_words(count, width),
    }
}

/// All bits of what a name stands for, those of all words of a memory.
pub fn all_bits(named: Option<Named>) -> u128
    ensures value { result ≡ all_bits (named_or_not named) }
    ensures short { result ≤ 2 ^ 64 }
{
    match named {
        None => 0,
        Some(named) => bits_of_all(bits_of_range(named.left), words_of(named.last)),
    }
}

/// A name without selects.
pub fn start(named: Option<Named>) -> Path
    ensures path { path_of result ≡ means.start (named_or_not named) }
    ensures short { IsShort result }
{
    match named {
        None => Path {
            window: nothing(),
            width: 0,
            words: None,
        },
        Some(declared) => Path {
            window: entire(all_bits(named)),
            width: bits_of_range(declared.left),
            words: words_of(declared.last),
        },
    }
}

/// How many bits a select takes. Its base is given where it is a decimal number.
pub fn taken(decimal: Option<u32>, extent: Option<VExtent>) -> u64
    ensures value { result ≡ means.taken decimal extent }
    ensures short { result ≤ 2 ^ 32 }
{
    match (decimal, extent) {
        (_, None) => 1,
        (Some(left), Some(VExtent::Down(right))) => (left as u64 + 1).saturating_sub(right as u64),
        (None, Some(VExtent::Down(_))) => 1,
        (_, Some(VExtent::Up(width))) => width as u64,
    }
}

// At which bit a select begins.
fn lowest(extent: Option<VExtent>, base: i128) -> i128
    requires { unsigned_abs base ≤ 2 ^ 71 }
    ensures value { result ≡ means.lowest extent base }
    ensures small { unsigned_abs result ≤ 2 ^ 71 }
{
    match extent {
        None => base,
        Some(VExtent::Down(right)) => right as i128,
        Some(VExtent::Up(_)) => base,
    }
}

// A select of bits.
fn bits_at(decimal: Option<u32>, extent: Option<VExtent>, base: Option<i128>, path: Path) -> Path
    requires path { IsShort path }
    requires base { IfSome base (λ k. unsigned_abs k ≤ 2 ^ 71) }
    ensures path { path_of result ≡ means.bits_at (selecting decimal extent) base (path_of path) }
    ensures short { IsShort result }
{
    let width = taken(decimal, extent);
    let window = match base {
        None => nothing(),
        Some(k) => part_of(path.window, lowest(extent, k), width),
    };
    Path {
        window,
        width,
        words: None,
    }
}

// Where a word begins.
#[tactic(auto, using(crate::proofs::Products::products))]
fn start_of_word(k: i128, width: u64) -> i128
    requires index { k <ℤ pos (2 ^ 32) }
    requires from { pos 0 ≤ℤ k }
    requires width { width ≤ 2 ^ 32 }
    ensures value { result ≡ k *ℤ pos width }
    ensures small { unsigned_abs result ≤ 2 ^ 71 }
{
    k * width as i128
}

// A word of a memory.
fn word(count: u64, k: i128, path: Path) -> Window
    requires path { IsShort path }
    requires count { count ≤ 2 ^ 32 }
    ensures window { window_of result ≡ means.word count k (path_of path) }
    ensures near { IsNear result }
{
    if 0 <= k && k < count as i128 {
        part_of(path.window, start_of_word(k, path.width), path.width)
    } else {
        nothing()
    }
}

// The word with an index.
fn word_at(count: u64, base: Option<i128>, path: Path) -> Path
    requires path { IsShort path }
    requires count { count ≤ 2 ^ 32 }
    ensures path { path_of result ≡ means.word_at count base (path_of path) }
    ensures short { IsShort result }
{
    let window = match base {
        None => nothing(),
        Some(k) => word(count, k, path),
    };
    Path {
        window,
        width: path.width,
        words: None,
    }
}

/// A select behind a path, with the number of its base, if no bit of that is x or z.
pub fn select(decimal: Option<u32>, extent: Option<VExtent>, base: Option<i128>, path: Path) -> Path
    requires path { IsShort path }
    requires base { IfSome base (λ k. unsigned_abs k ≤ 2 ^ 71) }
    ensures path { path_of result ≡ means.select (selecting decimal extent) base (path_of path) }
    ensures short { IsShort result }
{
    match path.words {
        None => bits_at(decimal, extent, base, path),
        Some(count) => word_at(count, base, path),
    }
}

/// How many bits a path of this name has.
pub fn bits_named(named: Option<Named>, path: Path) -> u128
    requires { IsShort path }
    ensures value { result ≡ means.bits_named (path_of path) (all_bits (named_or_not named)) }
    ensures short { result ≤ 2 ^ 64 }
{
    match path.words {
        None => path.width as u128,
        Some(_) => all_bits(named),
    }
}
