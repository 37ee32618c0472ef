//! Helper functions by their kind.

ghost use Rattle.std.specs.Prelude.{◌≡◌, ◌<◌, [], ◌∷◌, IfOk};
ghost use Rattle.v_meaning.specs.Scopes.{Scope};
ghost use Rattle.v_meaning.specs.Functions.{callee_of};
ghost use Rattle.v_tree.specs.Printing.{helper_text};
ghost use Rattle.v_tree.specs.declared.names.HelperKind.TheVariants as kinds;
ghost use Rattle.two_state.specs.Kinds.{Helps, HasBits, Gives, value_of, result_width, inputs_for};

use crate::parts::{function, one_input, two_inputs};
use crate::values::{same, selected, two_state, wild_equal};
use pairs::both;
use std::alloc::{AllocError, Global};
use sv_source::Text;
use v_tree::{Helper, HelperKind, VFunction, helper_name};

/// A function that gives what it is passed.
fn cast(alloc: Global, name: Text, width: u32) -> Result<VFunction, AllocError>
    requires { 0 < width }
    ensures { IfOk result (λ f. Gives f name (result_width kinds.Cast width) (inputs_for kinds.Cast width) (value_of kinds.Cast width)) }
{
    let (value, inputs) = both(same(alloc), one_input(alloc, width))?;
    function(alloc, name, width, inputs, value)
}

/// One that puts 0 in place of each x and z.
fn converted(alloc: Global, name: Text, width: u32) -> Result<VFunction, AllocError>
    requires { 0 < width }
    ensures { IfOk result (λ f. Gives f name (result_width kinds.TwoState width) (inputs_for kinds.TwoState width) (value_of kinds.TwoState width)) }
{
    let (value, inputs) = both(two_state(alloc, width), one_input(alloc, width))?;
    function(alloc, name, width, inputs, value)
}

/// One that takes bits from a signed offset on.
fn select(
    alloc: Global,
    name: Text,
    part: u32,
    index: u32,
    width: u32,
) -> Result<VFunction, AllocError>
    requires some { 0 < width }
    requires part { 0 < part }
    requires index { 0 < index }
    ensures { IfOk result (λ f. Gives f name part (inputs_for (kinds.Select part index) width) (value_of (kinds.Select part index) width)) }
{
    let (value, inputs) = both(selected(alloc, part), two_inputs(alloc, width, index))?;
    function(alloc, name, part, inputs, value)
}

/// One that compares by `==?`.
fn wild(alloc: Global, name: Text, width: u32) -> Result<VFunction, AllocError>
    requires { 0 < width }
    ensures { IfOk result (λ f. Gives f name (result_width kinds.WildEq width) (inputs_for kinds.WildEq width) (value_of kinds.WildEq width)) }
{
    let (value, inputs) = both(wild_equal(alloc, width), two_inputs(alloc, width, width))?;
    function(alloc, name, 1, inputs, value)
}

/// The function of a kind with this name.
fn made(alloc: Global, kind: HelperKind, name: Text, width: u32) -> Result<VFunction, AllocError>
    requires some { 0 < width }
    requires sizes { HasBits kind }
    ensures { IfOk result (λ f. Gives f name (result_width kind width) (inputs_for kind width) (value_of kind width)) }
{
    match kind {
        HelperKind::Cast => cast(alloc, name, width),
        HelperKind::TwoState => converted(alloc, name, width),
        HelperKind::Select { part, index } => select(alloc, name, part, index, width),
        HelperKind::WildEq => wild(alloc, name, width),
    }
}

/// The helper function of a kind for vectors of so many bits, under its name, or want of memory. Its width, and those of a
/// `Select`, are at least 1.
pub fn helper(alloc: Global, kind: HelperKind, width: u32) -> Result<VFunction, AllocError>
    requires some { 0 < width }
    requires sizes { HasBits kind }
    ensures named { IfOk result (λ f. f.name ≡ helper_text (record { kind = kind; width = width })) }
    ensures helps { IfOk result (λ f. (sc : Scope) → Helps kind width (callee_of sc f)) }
    ensures quiet { IfOk result (λ f. (sc : Scope) → (callee_of sc f).reads ≡ []) }
{
    let name = helper_name(alloc, &Helper { kind, width })?;
    made(alloc, kind, name, width)
}
