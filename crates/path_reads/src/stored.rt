//! Bits as a type stores them (IEEE 1800-2017 clauses 6.3.2 and 6.11.2).

ghost use Rattle.std.specs.Prelude.{◌≡◌, ◌≤◌, ◌<◌, ◌+◌, ◌∷◌, [], true, pos, length, replicate, IfOk, OnOk};
ghost use Rattle.b4_core.specs.declared.bit.Bit4.TheVariants.{X};
ghost use Rattle.picks.specs.Windows.{whole, part};
ghost use Rattle.sv_types.specs.Layouts.{layout, width_of, stored};
ghost use Rattle.v_tree.specs.declared.names.HelperKind.TheVariants as kinds;
ghost use Rattle.v_meaning.specs.Values as means;
ghost use Rattle.v_meaning.specs.Values.{meaning};
ghost use Rattle.v_build.specs.Trees.{meanings};
ghost use Rattle.eval_parts.specs.Places.{window_of, IsNear};
ghost use Rattle.path_flatten.specs.declared.readings.Root.TheVariants as roots;
ghost use Rattle.path_flatten.specs.Helping.{Grows};
ghost use Rattle.path_flatten.specs.Naming.{NamesLike};
ghost use Rattle.path_flatten.specs.Selecting.{CutsValue};
ghost use Rattle.path_flatten.specs.Storing.{IsHelperCall, StoresBits};
ghost use Rattle.path_reads.specs.Running.{KeepsBits, StoresOne, StoresMarks, StoresAll, NamesAll};

use crate::runs::{Run, are_all, run_below};
use b4_core::{Bit4, Vec4};
use eval_parts::{entire, filled, part_of};
use path_flatten::{Helpers, Reading, Root, all_bits, copy_expr, need};
use std::alloc::{AllocError, Global};
use sv_source::{Items, Text};
use sv_types::{SvType, store, width};
use v_build::{call, concatenation};
use v_tree::{Helper, HelperKind, VExpr, VExprs};

/// What becomes of x in each bit of a type: x in a four-state one, 0 in a two-state one.
fn marks_of(alloc: Global, of: &SvType) -> Result<Vec4, AllocError>
    requires narrow { width_of of.now ≤ 4194304 }
    ensures { IfOk result (λ v. v ≡ stored (layout of.now).two_state (replicate (width_of of.now) X)) }
{
    let unknown = filled(alloc, width(of), Bit4::X)?;
    store(alloc, of, &unknown)
}

/// Whether a type stores all bits as they are, since none of them is two-state. Or want of memory.
pub fn is_four_state(alloc: Global, of: &SvType) -> Result<bool, AllocError>
    requires narrow { width_of of.now ≤ 4194304 }
    ensures { IfOk result (λ r. r ≡ true → KeepsBits of.now) }
{
    let marks = marks_of(alloc, of)?;
    Ok(are_all(marks.as_slice(), Bit4::X))
}

/// A call with one argument, or want of memory.
pub fn call_with(alloc: Global, function: Text, of: VExpr) -> Result<VExpr, AllocError>
    ensures { IfOk result (λ e. meaning e ≡ means.call function (meaning of ∷ [])) }
{
    let mut args: VExprs = Items::from_vec(Vec::new(alloc));
    args.push(of)?;
    Ok(call(function, args))
}

/// So many bits as two-state ones.
fn two_state_bits(
    alloc: Global,
    of: VExpr,
    n: u32,
    helpers: &mut Helpers,
) -> Result<VExpr, AllocError>
    ensures grows { OnOk result (Grows helpers.old helpers.new) }
    ensures calls { IfOk result (λ m. IsHelperCall (record { kind = kinds.TwoState; width = n }) (meaning of) helpers.new (meaning m)) }
{
    let helper = Helper {
        kind: HelperKind::TwoState,
        width: n,
    };
    let function = need(alloc, helper, helpers)?;
    let made = call_with(alloc, function, of)?;
    Ok(made)
}

/// A run of an expression's bits, as it is read.
fn part_reading(of: VExpr, run: Run) -> Reading
    requires fits { run.low + run.bits ≤ run.all }
    ensures root { result.root ≡ roots.Value of }
    ensures width { result.width ≡ run.all }
    ensures window { window_of result.window ≡ part (pos run.low) run.bits (whole run.all) }
    ensures near { IsNear result.window.shift }
    ensures inside { result.window.high ≤ result.width }
{
    Reading {
        root: Root::Value(of),
        width: run.all,
        window: part_of(entire(run.all), i128::from(run.low), u128::from(run.bits)),
    }
}

/// A run of an expression's bits.
fn cut_run(alloc: Global, of: &VExpr, run: Run, helpers: &mut Helpers) -> Result<VExpr, AllocError>
    requires fits { run.low + run.bits ≤ run.all }
    requires narrow { run.bits ≤ 4194304 }
    ensures grows { OnOk result (Grows helpers.old helpers.new) }
    ensures cuts { IfOk result (λ m. CutsValue (meaning of.now) run.all run.low run.bits helpers.new (meaning m)) }
    ensures names { IfOk result (λ m. NamesLike (meaning of.now) (meaning m)) }
{
    let copy = copy_expr(alloc, of)?;
    let reading = part_reading(copy, run);
    let made = all_bits(alloc, reading, run.bits, helpers)?;
    Ok(made)
}

/// A run of an expression's bits as they are stored.
fn stored_run(
    alloc: Global,
    of: &VExpr,
    run: Run,
    helpers: &mut Helpers,
) -> Result<VExpr, AllocError>
    requires fits { run.low + run.bits ≤ run.all }
    requires narrow { run.bits ≤ 4194304 }
    ensures grows { OnOk result (Grows helpers.old helpers.new) }
    ensures stores { IfOk result (λ m. StoresOne (meaning of.now) run helpers.new (meaning m)) }
    ensures names { IfOk result (λ m. NamesLike (meaning of.now) (meaning m)) }
{
    let bits = cut_run(alloc, of, run, helpers)?;
    if run.two_state {
        let made = two_state_bits(alloc, bits, run.bits, helpers)?;
        Ok(made)
    } else {
        Ok(bits)
    }
}

/// An expression's bits by runs, the most significant first.
fn stored_runs(
    alloc: Global,
    of: &VExpr,
    marks: &[Bit4],
    helpers: &mut Helpers,
) -> Result<VExprs, AllocError>
    requires some { 0 < length marks.now }
    requires narrow { length marks.now ≤ 4194304 }
    ensures grows { OnOk result (Grows helpers.old helpers.new) }
    ensures stores { IfOk result (λ ps. StoresMarks (meaning of.now) marks.now 0 helpers.new (meanings ps)) }
    ensures names { IfOk result (λ ps. NamesAll (meaning of.now) (meanings ps)) }
{
    let mut made = VExprs::new(alloc);
    let mut high = marks.len();
    while high > 0 {
        let run = run_below(marks, high);
        let piece = stored_run(alloc, of, run, helpers)?;
        made.push(piece)?;
        high = run.low as usize;
    }
    Ok(made)
}

/// A run of an expression's bits after another, as one.
fn by_runs(
    alloc: Global,
    of: &VExpr,
    marks: &[Bit4],
    helpers: &mut Helpers,
) -> Result<VExpr, AllocError>
    requires some { 0 < length marks.now }
    requires narrow { length marks.now ≤ 4194304 }
    ensures grows { OnOk result (Grows helpers.old helpers.new) }
    ensures stores { IfOk result (λ m. StoresAll (meaning of.now) marks.now helpers.new (meaning m)) }
    ensures names { IfOk result (λ m. NamesLike (meaning of.now) (meaning m)) }
{
    let pieces = stored_runs(alloc, of, marks, helpers)?;
    Ok(concatenation(pieces))
}

/// The same of an expression that is used up.
fn in_runs(
    alloc: Global,
    of: VExpr,
    marks: &[Bit4],
    helpers: &mut Helpers,
) -> Result<VExpr, AllocError>
    requires some { 0 < length marks.now }
    requires narrow { length marks.now ≤ 4194304 }
    ensures grows { OnOk result (Grows helpers.old helpers.new) }
    ensures stores { IfOk result (λ m. StoresAll (meaning of) marks.now helpers.new (meaning m)) }
    ensures names { IfOk result (λ m. NamesLike (meaning of) (meaning m)) }
{
    by_runs(alloc, &of, marks, helpers)
}

/// An expression's bits as they are stored, by what becomes of x in each of them.
fn as_marked(
    alloc: Global,
    of: VExpr,
    marks: &[Bit4],
    helpers: &mut Helpers,
) -> Result<VExpr, AllocError>
    requires narrow { length marks.now ≤ 4194304 }
    ensures grows { OnOk result (Grows helpers.old helpers.new) }
    ensures stores { IfOk result (λ m. StoresAll (meaning of) marks.now helpers.new (meaning m)) }
    ensures names { IfOk result (λ m. NamesLike (meaning of) (meaning m)) }
{
    if are_all(marks, Bit4::X) {
        Ok(of)
    } else if are_all(marks, Bit4::Zero) {
        let made = two_state_bits(alloc, of, marks.len() as u32, helpers)?;
        Ok(made)
    } else {
        let made = in_runs(alloc, of, marks, helpers)?;
        Ok(made)
    }
}

/// Bits as a type stores them, by calls of some helpers (IEEE 1800-2017 clause 6.3.2). Or want of memory.
pub fn stored_bits(
    alloc: Global,
    of: VExpr,
    t: &SvType,
    helpers: &mut Helpers,
) -> Result<VExpr, AllocError>
    requires narrow { width_of t.now ≤ 4194304 }
    ensures grows { OnOk result (Grows helpers.old helpers.new) }
    ensures stores { IfOk result (λ m. StoresBits t.now (meaning of) helpers.new (meaning m)) }
    ensures names { IfOk result (λ m. NamesLike (meaning of) (meaning m)) }
{
    let (of, marks) = pairs::both(Ok(of), marks_of(alloc, t))?;
    as_marked(alloc, of, marks.as_slice(), helpers)
}
