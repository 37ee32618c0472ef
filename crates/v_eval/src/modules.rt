//! The signals and functions of a module by their names (IEEE 1364-2005 clause 12.7).

ghost use Rattle.std.specs.Prelude.{◌≡◌, ℕ, List, Some};
ghost use Rattle.std.specs.Str.{bytes_eq};
ghost use Rattle.std.specs.Option.{option_map};
ghost use Rattle.indexmap.specs.IndexMap.{get};
ghost use Rattle.v_eval.specs.Functions.{function_at, place_of, inputs_in};

use indexmap::IndexMap;
use sv_source::{Text, at};
use v_tree::{VFunction, VItem, VLocal};

/// A signal of a module.
#[derive(Clone, Copy, Drop)]
pub struct Signal {
    /// Its number among the signals of the module.
    pub place: u32,
    /// The left bound of its range, if it has one.
    pub left: Option<u32>,
    /// The left bound of the range of a memory.
    pub last: Option<u32>,
}

/// A local of a function or a block.
#[derive(Drop)]
pub struct Local {
    /// Its name.
    pub name: Text,
    /// Its number among the locals.
    pub number: u32,
    /// The left bound of its range, if it has one.
    pub left: Option<u32>,
}

/// The signals and functions of a module by their names.
#[derive(Drop)]
pub struct Module<'a> {
    /// The signals.
    pub signals: IndexMap<Text, Signal>,
    /// Where functions stand among the items.
    pub functions: IndexMap<Text, usize>,
    /// The items of the module.
    pub items: &'a [VItem],
    ghost indexed: { (name : List ℕ) → get bytes_eq functions name ≡ place_of 0 items.now name },
}

/// The function that an item is.
pub fn function_of(items: &[VItem], i: usize) -> Option<&VFunction>
    ensures { option_map (λ f. f.now) result ≡ function_at items.now (Some i) }
{
    match at(items, i) {
        None => None,
        Some(VItem::Signal(_)) => None,
        Some(VItem::Initial(_)) => None,
        Some(VItem::Process(_)) => None,
        Some(VItem::Function(function)) => Some(function),
        Some(VItem::Instance(_)) => None,
    }
}

/// The inputs of the function that an item is.
pub fn inputs_of(items: &[VItem], i: usize) -> &[VLocal]
    ensures { result.now ≡ inputs_in (function_at items.now (Some i)) }
{
    match function_of(items, i) {
        None => &[],
        Some(function) => function.inputs.as_slice(),
    }
}
