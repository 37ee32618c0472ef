//! Assignment patterns, and calls of functions (IEEE 1800-2017 clauses 10.9 and 13.4).

ghost use Rattle.std.specs.Prelude.{◌≡◌, ◌≤◌, ◌<◌, ◌++◌, true, get_or, length, map, [], reverse, IfOk, OnOk};
ghost use Rattle.sv_types.specs.Expressions.{meaning};
ghost use Rattle.sv_types.specs.Layouts.{layout, width_of};
ghost use Rattle.sv_types.specs.Functions.{parameter};
ghost use Rattle.sv_types.specs.Operators.{parts_of};
ghost use Rattle.v_meaning.specs.Values as means;
ghost use Rattle.v_build.specs.Trees.{meanings};
ghost use Rattle.eval_parts.specs.Targets.{marks_of, marks_of_parts, marks_of_formals, AreNarrow, AllNarrow};
ghost use Rattle.path_flatten.specs.Helping.{Grows};
ghost use Rattle.form_lower.specs.Assigned.{Fits};
ghost use Rattle.form_lower.specs.Places.{are_joined, bits_of_first, Puts, AllPut, AreItems, Patterns, passed_beside, CallsNamed};

use crate::casts::{assigned, cut_bits, whole};
use crate::wilds::bit;
use b4_core::Bit4;
use eval_parts::{Places, is_signed, own_width, type_at};
use pairs::both;
use path_flatten::Helpers;
use path_reads::{is_four_state, with_sign};
use std::alloc::{AllocError, Global};
use sv_source::Text;
use sv_types::{Expr, Formal, SvType, width as width_of_type};
use v_build::{call, concatenation, signing};
use v_tree::{VExpr, VExprs};

/// Whether what stands at the places is concatenated, or else passed to a function.
fn joins(places: &Places<'_>) -> bool
    ensures { result ≡ are_joined places.now }
{
    match places {
        Places::Parts(_) => true,
        Places::Formals(_) => false,
    }
}

/// What stands at a place of a type, from an expression that is lowered at the larger width of both: in a concatenation, or as
/// an argument. It is as it is where no bit is two-state, in a concatenation if the expression has as many bits as the place.
fn placed(
    alloc: Global,
    joined: bool,
    item: &Expr,
    to: &SvType,
    part: VExpr,
    helpers: &mut Helpers,
) -> Result<VExpr, AllocError>
    requires item { (meaning item.now).widest ≤ 4194304 }
    requires narrow { width_of to.now ≤ 4194304 }
    ensures grows { OnOk result (Grows helpers.old helpers.new) }
    ensures puts { IfOk result (λ m. Puts joined (layout to.now).two_state (meaning item.now) (means.meaning part) helpers.new (means.meaning m)) }
{
    let n = width_of_type(to);
    let exact = n != 0 && own_width(item) == n;
    let (part, keeps) = both(Ok(part), is_four_state(alloc, to))?;
    if keeps && (exact || !joined) {
        Ok(part)
    } else if exact {
        let kept = whole(alloc, part, to, helpers)?;
        Ok(kept)
    } else {
        let cut = assigned(alloc, part, to, helpers)?;
        Ok(cut)
    }
}

/// What stands at one of some places for an expression.
fn placed_at(
    alloc: Global,
    places: &Places<'_>,
    i: usize,
    item: &Expr,
    part: VExpr,
    helpers: &mut Helpers,
) -> Result<VExpr, AllocError>
    requires places { AreNarrow places.now }
    requires item { (meaning item.now).widest ≤ 4194304 }
    requires there { i < length (marks_of places.now) }
    ensures grows { OnOk result (Grows helpers.old helpers.new) }
    ensures puts { IfOk result (λ m. Puts (are_joined places.now) (get_or (marks_of places.now) i []) (meaning item.now) (means.meaning part) helpers.new (means.meaning m)) }
{
    match type_at(places, i) {
        Some(t) => placed(alloc, joins(places), item, t, part, helpers),
        None => unreachable!(),
    }
}

/// The items from the end on.
fn turned(alloc: Global, items: VExprs) -> Result<VExprs, AllocError>
    ensures { IfOk result (λ r. r ≡ reverse items) }
{
    let mut rest = items;
    let mut made = VExprs::new(alloc);
    while let Some(item) = rest.pop() {
        made.push(item)?;
    }
    Ok(made)
}

/// What stands at places for expressions.
fn all_placed(
    alloc: Global,
    places: &Places<'_>,
    items: &[Expr],
    parts: VExprs,
    helpers: &mut Helpers,
) -> Result<VExprs, AllocError>
    requires places { AreNarrow places.now }
    requires items { AreItems (marks_of places.now) items.now (length parts) }
    ensures grows { OnOk result (Grows helpers.old helpers.new) }
    ensures puts { IfOk result (λ ms. AllPut (are_joined places.now) (marks_of places.now) (map meaning items.now) (meanings parts) helpers.new (meanings ms)) }
{
    let mut rest = parts;
    let mut made = VExprs::new(alloc);
    while let Some(part) = rest.pop() {
        let i = rest.len();
        let put = placed_at(alloc, places, i, &items[i], part, helpers)?;
        made.push(put)?;
    }
    turned(alloc, made)
}

/// Whether the first so many members or elements of a type have as many bits as the type.
fn is_whole(of: &SvType, n: usize) -> bool
    requires some { 1 ≤ width_of of.now }
    requires narrow { width_of of.now ≤ 4194304 }
    ensures { result ≡ true → bits_of_first n (marks_of_parts (parts_of (layout of.now))) ≡ width_of of.now }
{
    let places = Places::Parts(of);
    let mut rest = width_of_type(of);
    for i in 0..n {
        match type_at(&places, i) {
            Some(t) => {
                let bits = width_of_type(t);
                if bits > rest {
                    return false;
                }
                rest -= bits;
            }
            None => return false,
        }
    }
    rest == 0
}

/// Bits that stand for a type's in a context: as they are if they are as many, else extended or cut by the context.
fn fitted(
    alloc: Global,
    whole: bool,
    bits: VExpr,
    to: u32,
    signed: bool,
    helpers: &mut Helpers,
) -> Result<VExpr, AllocError>
    ensures grows { OnOk result (Grows helpers.old helpers.new) }
    ensures fits { IfOk result (λ m. Fits whole (means.meaning bits) to signed helpers.new (means.meaning m)) }
{
    if whole {
        Ok(bits)
    } else {
        let context = signing(alloc, signed, bits)?;
        let made = cut_bits(alloc, context, to, helpers)?;
        Ok(made)
    }
}

/// An assignment pattern of a type at a width and a sign of its context, from its items in order, each of them lowered at the
/// larger width of it and its member or element. Or want of memory.
pub fn pattern(
    alloc: Global,
    of: &SvType,
    width: u32,
    signed: bool,
    items: &[Expr],
    parts: VExprs,
    helpers: &mut Helpers,
) -> Result<VExpr, AllocError>
    requires some { 1 ≤ width_of of.now }
    requires narrow { width_of of.now ≤ 4194304 }
    requires items { AreItems (marks_of_parts (parts_of (layout of.now))) items.now (length parts) }
    ensures grows { OnOk result (Grows helpers.old helpers.new) }
    ensures patterns { IfOk result (λ m. Patterns of.now width signed (map meaning items.now) (meanings parts) helpers.new (means.meaning m)) }
{
    let whole = is_whole(of, parts.len());
    let placed = all_placed(alloc, &Places::Parts(of), items, parts, helpers)?;
    let to = width.max(width_of_type(of));
    let bits = fitted(alloc, whole, concatenation(placed), to, signed, helpers)?;
    let made = with_sign(alloc, is_signed(of), bits)?;
    Ok(made)
}

/// What a call passes: its arguments, and 0 where the function has no formals, since each function of the target has an input.
fn passed(alloc: Global, formals: &[Formal], args: VExprs) -> Result<VExprs, AllocError>
    ensures { IfOk result (λ ms. meanings ms ≡ meanings args ++ passed_beside (map parameter formals.now)) }
{
    let mut all = args;
    if formals.is_empty() {
        let zero = bit(alloc, Bit4::Zero)?;
        all.push(zero)?;
    }
    Ok(all)
}

/// A call of a function with these formals by its name, from its actuals in order, each of them lowered at the larger width of
/// it and its formal. Or want of memory.
pub fn call_named(
    alloc: Global,
    of: &SvType,
    function: Text,
    formals: &[Formal],
    actuals: &[Expr],
    parts: VExprs,
    helpers: &mut Helpers,
) -> Result<VExpr, AllocError>
    requires narrow { AllNarrow formals.now }
    requires items { AreItems (marks_of_formals (map parameter formals.now)) actuals.now (length parts) }
    ensures grows { OnOk result (Grows helpers.old helpers.new) }
    ensures calls { IfOk result (λ m. CallsNamed of.now function (map parameter formals.now) (map meaning actuals.now) (meanings parts) helpers.new (means.meaning m)) }
{
    let args = all_placed(alloc, &Places::Formals(formals), actuals, parts, helpers)?;
    let all = passed(alloc, formals, args)?;
    let made = with_sign(alloc, is_signed(of), call(function, all))?;
    Ok(made)
}
