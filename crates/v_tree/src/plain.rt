//! Simple names in the place of paths.

ghost use Rattle.std.specs.Prelude.{◌≡◌, ◌<◌, ◌^◌, ◌++◌, ◌∷◌, ℕ, suc, List, None, length, map, IfOk, OnOk};
ghost use Rattle.std.specs.Option.{option_copied, is_some};
ghost use Rattle.v_tree.specs.Printing.{given_to, plain_byte, marks_dropped, is_helper_like, fronted, plain_form, numbered, free_from, free_name, simple_taken, plain_names, names_of, printed};
ghost use Rattle.v_tree.specs.Takings.{taken_in};

use crate::items::Texts;
use crate::names::{Names, print_name, push_decimal};
use crate::reserved::{is_reserved, is_simple};
use indexmap::IndexMap;
use std::alloc::{AllocError, Global};
use sv_source::Text;

/// Which names are taken, and by which path.
#[derive(Drop)]
pub struct Takings {
    names: IndexMap<Text, u64>,
}

impl Takings {
    fn new(alloc: Global) -> Takings
        ensures { taken_in result ≡ (λ _. None) }
    {
        Takings {
            names: IndexMap::new(alloc),
        }
    }

    fn find(&self, name: &Text) -> Option<&u64>
        ensures { option_copied result ≡ taken_in self.now name.now }
    {
        self.names.get(name)
    }

    fn has(&self, name: &Text) -> bool
        ensures { result ≡ is_some (taken_in self.now name.now) }
    {
        self.find(name).is_some()
    }

    fn give(&mut self, name: Text, place: u64) -> Result<(), AllocError>
        ensures { OnOk result (taken_in self.new ≡ given_to (taken_in self.old) name place) }
    {
        self.names.insert(name, place)?;
        Ok(())
    }
}

// The byte in a plain form.
fn plain_byte(c: u8) -> u8
    ensures { result ≡ plain_byte c }
{
    if c == b'.' || c == b'[' || c == b'-' {
        b'_'
    } else {
        c
    }
}

// The path without its marks.
fn drop_marks(alloc: Global, path: &[u8]) -> Result<Text, AllocError>
    ensures { IfOk result (λ name. name ≡ marks_dropped path.now) }
{
    let mut name = Text::new(alloc);
    for c in path {
        if *c != b']' {
            name.push(plain_byte(*c))?;
        }
    }
    Ok(name)
}

// Whether the name begins as those of helpers do.
fn is_helper_like(name: &[u8]) -> bool
    ensures { result ≡ is_helper_like name.now }
{
    match name {
        [b's', b'v', b'2', b'v', b'_', ..] => true,
        _ => false,
    }
}

// The name, with `n_` in front where it may not stand so.
fn fronted(alloc: Global, name: Text) -> Result<Text, AllocError>
    ensures { IfOk result (λ fronted_name. fronted_name ≡ fronted name) }
{
    if is_reserved(name.as_bytes()) || is_helper_like(name.as_bytes()) {
        let mut fronted = Text::from_bytes(alloc, b"n_")?;
        fronted.push_bytes(name.as_bytes())?;
        return Ok(fronted);
    }
    Ok(name)
}

fn plain_form(alloc: Global, path: &Text) -> Result<Text, AllocError>
    ensures { IfOk result (λ name. name ≡ plain_form path.now) }
{
    fronted(alloc, drop_marks(alloc, path.as_bytes())?)
}

fn numbered(alloc: Global, name: &Text, k: u64) -> Result<Text, AllocError>
    ensures { IfOk result (λ text. text ≡ numbered name.now k) }
{
    let mut text = name.copy(alloc)?;
    text.push(b'_')?;
    push_decimal(k, &mut text)?;
    Ok(text)
}

// The first numbered form that isn't taken, of so many and one more.
fn free_numbered(
    alloc: Global,
    count: usize,
    taken: &Takings,
    name: &Text,
) -> Result<Text, AllocError>
    requires { count < 2 ^ 63 }
    ensures { IfOk result (λ free. free ≡ free_from count (taken_in taken.now) name.now 2) }
{
    for tried in 0..count {
        let candidate = numbered(alloc, name, tried as u64 + 2)?;
        if !taken.has(&candidate) {
            return Ok(candidate);
        }
    }
    numbered(alloc, name, count as u64 + 2)
}

// The name, or where it is taken a numbered form.
fn free_name(alloc: Global, count: usize, taken: &Takings, name: Text) -> Result<Text, AllocError>
    requires { count < 2 ^ 63 }
    ensures { IfOk result (λ free. free ≡ free_name count (taken_in taken.now) name) }
{
    if taken.has(&name) {
        free_numbered(alloc, count, taken, &name)
    } else {
        Ok(name)
    }
}

// The simple paths, which keep their names.
fn simple_takings(alloc: Global, paths: &[Text]) -> Result<Takings, AllocError>
    ensures { IfOk result (λ taken. taken_in taken ≡ simple_taken 0 (λ _. None) paths.now) }
{
    let mut taken = Takings::new(alloc);
    let mut place = 0;
    for path in paths {
        if is_simple(path.as_bytes()) {
            taken.give(path.copy(alloc)?, place)?;
        }
        place += 1;
    }
    Ok(taken)
}

// Adds the name of a path, and takes it.
#[tactic(auto, using(crate::proofs::HelperNames::appends))]
fn add_name(
    alloc: Global,
    count: usize,
    place: u64,
    taken: &mut Takings,
    path: &Text,
    names: &mut Texts,
) -> Result<(), AllocError>
    requires { count < 2 ^ 63 }
    ensures { OnOk result ((rest : List (List ℕ)) → names.new ++ plain_names count (suc place) (taken_in taken.new) rest ≡ names.old ++ plain_names count place (taken_in taken.old) (path.now ∷ rest)) }
{
    if is_simple(path.as_bytes()) {
        names.push(path.copy(alloc)?)
    } else {
        let name = free_name(alloc, count, taken, plain_form(alloc, path)?)?;
        taken.give(name.copy(alloc)?, place)?;
        names.push(name)
    }
}

// The names of paths without escaped identifiers.
fn plain_names(alloc: Global, paths: &[Text]) -> Result<Texts, AllocError>
    ensures { IfOk result (λ names. names ≡ plain_names (length paths.now) 0 (simple_taken 0 (λ _. None) paths.now) paths.now) }
{
    let mut taken = simple_takings(alloc, paths)?;
    let mut names = Texts::new(alloc);
    let mut place = 0;
    for path in paths {
        add_name(alloc, paths.len(), place, &mut taken, path, &mut names)?;
        place += 1;
    }
    Ok(names)
}

fn escaped_names(alloc: Global, paths: &[Text]) -> Result<Texts, AllocError>
    ensures { IfOk result (λ names. names ≡ map printed paths.now) }
{
    let mut names = Texts::new(alloc);
    for path in paths {
        names.push(print_name(alloc, path)?)?;
    }
    Ok(names)
}

/// The names of the paths of one module's signals and instances, in order, or want of memory. A simple path keeps its name.
/// Any other is printed as an escaped identifier, or made plain: without its marks, with `n_` in front where that may not
/// stand so, and with a number behind where that is taken.
pub fn print_names(alloc: Global, paths: &Texts, mode: Names) -> Result<Texts, AllocError>
    ensures { IfOk result (λ names. names ≡ names_of mode paths.now) }
{
    match mode {
        Names::Paths => escaped_names(alloc, paths.as_slice()),
        Names::Plain => plain_names(alloc, paths.as_slice()),
    }
}
