//! The lowering of expressions, from the operands up.

ghost use Rattle.std.specs.Prelude.{◌≡◌, ◌≤◌, false, length, Some, None, IfOk, OnOk};
ghost use Rattle.sv_types.specs.declared.expression.Form.{out-Form};
ghost use Rattle.sv_types.specs.declared.expression.Form.TheVariants as forms;
ghost use Rattle.sv_types.specs.Layouts.{layout};
ghost use Rattle.sv_types.specs.Meanings.{wide};
ghost use Rattle.sv_types.specs.Expressions.{meaning};
ghost use Rattle.v_meaning.specs.Values as means;
ghost use Rattle.v_build.specs.Trees.{meanings};
ghost use Rattle.eval_parts.specs.Limits.{Fits, FitsAlone};
ghost use Rattle.eval_parts.specs.Steps.{IsStep, is_path};
ghost use Rattle.eval_forms.specs.Asked.{asked, form_asked, width_asked, sign_asked};
ghost use Rattle.eval_forms.specs.Callees.{formals_in, AllFunctionsFit};
ghost use Rattle.path_flatten.specs.Helping.{Grows};
ghost use Rattle.path_flatten.specs.Stepping.{IsSound};
ghost use Rattle.expr_lower.specs.Elements.{StandsInWords};
ghost use Rattle.expr_lower.specs.Leaves.{leaves, onto, Each, IsLowered};
ghost use Rattle.expr_lower.specs.Lowering.{Lowers, LowersEach};
ghost use Rattle.expr_lower.specs.Numbers.{IsWhole};
ghost use Rattle.expr_lower.specs.Paths.{Finds, Indexes, LowersAnywhere};

use crate::elements::{indexed_word, memory_of, numbered_word};
use crate::formed::formed;
use crate::numbers::with_sign;
use eval_forms::{Ask, Operand, operands};
use eval_parts::{Step, own_sign, own_width, step_of};
use name_maps::{local_text, signal_text};
use path_flatten::{
    Helpers, Index, PartSelect, Reading, between_step, element_step, index_step, member_step,
    slide_step, whole_name, whole_value,
};
use path_reads::read;
use path_steps::{known_index, sliding_step};
use std::alloc::{AllocError, Global};
use sv_source::{Items, Text};
use sv_types::{Expr, Function};
use v_build::name;
use v_tree::{NameMap, VExpr, VExprs};

/// A name alone, with a sign.
fn whole(alloc: Global, of: Text, signed: bool) -> Result<VExpr, AllocError>
    ensures { IfOk result (λ m. IsWhole of signed (means.meaning m)) }
{
    let bare = name(of, Items::from_vec(Vec::new(alloc)));
    let made = with_sign(alloc, signed, bare)?;
    Ok(made)
}

/// An expression at a width and a sign of its context, which calls some helpers more. Or want of memory.
#[cycle(lower)]
pub fn lower(
    alloc: Global,
    names: &NameMap,
    functions: &[Function],
    e: &Expr,
    width: u32,
    signed: bool,
    helpers: &mut Helpers,
) -> Result<VExpr, AllocError>
    requires functions { AllFunctionsFit functions.now }
    requires built { Each IsLowered (leaves e.now) }
    requires fits { Fits (meaning e.now) (formals_in functions.now) width }
    ensures grows { OnOk result (Grows helpers.old helpers.new) }
    ensures lowers { IfOk result (λ m. Lowers names.now functions.now helpers.new e.now width signed (means.meaning m)) }
{
    match step_of(e) {
        Some(Step::Signal(n)) => {
            let text = signal_text(alloc, names.signals.as_slice(), n)?;
            let signal = whole(alloc, text, own_sign(e))?;
            Ok(signal)
        }
        Some(Step::Local(n)) => {
            let text = local_text(alloc, names.locals.as_slice(), n)?;
            let local = whole(alloc, text, own_sign(e))?;
            Ok(local)
        }
        Some(step) => {
            let found = path(alloc, names, functions, e, step, helpers)?;
            Ok(found)
        }
        None => {
            let lowered = parts(alloc, names, functions, e, width, signed, helpers)?;
            let form = formed(alloc, names, functions, e, width, signed, lowered, helpers)?;
            Ok(form)
        }
    }
}

/// What a select path reads, in every context.
#[cycle(lower)]
fn path(
    alloc: Global,
    names: &NameMap,
    functions: &[Function],
    e: &Expr,
    step: Step<'_>,
    helpers: &mut Helpers,
) -> Result<VExpr, AllocError>
    requires functions { AllFunctionsFit functions.now }
    requires step { IsStep step e.now }
    requires built { Each IsLowered (leaves e.now) }
    requires fits { FitsAlone (meaning e.now) (formals_in functions.now) }
    ensures grows { OnOk result (Grows helpers.old helpers.new) }
    ensures lowers { IfOk result (λ m. LowersAnywhere names.now functions.now helpers.new e.now (means.meaning m)) }
{
    let reading = follow(alloc, names, functions, e, step, helpers)?;
    let made = read(alloc, reading, &e.of, helpers)?;
    Ok(made)
}

/// What reads the bits of an expression that a step selects from.
#[cycle(lower)]
fn find(
    alloc: Global,
    names: &NameMap,
    functions: &[Function],
    e: &Expr,
    helpers: &mut Helpers,
) -> Result<Reading, AllocError>
    requires functions { AllFunctionsFit functions.now }
    requires built { Each IsLowered (onto (leaves e.now)) }
    requires fits { FitsAlone (meaning e.now) (formals_in functions.now) }
    ensures grows { OnOk result (Grows helpers.old helpers.new) }
    ensures sound { IfOk result IsSound }
    ensures finds { IfOk result (Finds names.now functions.now helpers.new e.now) }
{
    match step_of(e) {
        Some(step) => {
            let found = follow(alloc, names, functions, e, step, helpers)?;
            Ok(found)
        }
        None => {
            let (width, signed) = (own_width(e), own_sign(e));
            let value = lower(alloc, names, functions, e, width, signed, helpers)?;
            let found = whole_value(alloc, value, width)?;
            Ok(found)
        }
    }
}

/// What reads the bits of a select path, by its last step.
#[cycle(lower)]
fn follow(
    alloc: Global,
    names: &NameMap,
    functions: &[Function],
    e: &Expr,
    step: Step<'_>,
    helpers: &mut Helpers,
) -> Result<Reading, AllocError>
    requires functions { AllFunctionsFit functions.now }
    requires step { IsStep step e.now }
    requires built { Each IsLowered (leaves e.now) }
    requires fits { FitsAlone (meaning e.now) (formals_in functions.now) }
    ensures grows { OnOk result (Grows helpers.old helpers.new) }
    ensures sound { IfOk result IsSound }
    ensures finds { IfOk result (Finds names.now functions.now helpers.new e.now) }
{
    match step {
        Step::Signal(n) => {
            let name = signal_text(alloc, names.signals.as_slice(), n)?;
            Ok(whole_name(name, own_width(e)))
        }
        Step::Local(n) => {
            let name = local_text(alloc, names.locals.as_slice(), n)?;
            Ok(whole_name(name, own_width(e)))
        }
        Step::Member(from, k) => {
            let found = find(alloc, names, functions, from, helpers)?;
            Ok(member_step(found, &from.of, k))
        }
        Step::Part { from, left, right } => {
            let found = find(alloc, names, functions, from, helpers)?;
            Ok(between_step(found, &from.of, left, right))
        }
        Step::Index(from, i) => {
            let found = element(alloc, names, functions, e, from, i, helpers)?;
            Ok(found)
        }
        Step::Slide {
            from,
            base,
            width,
            up,
        } => {
            let part = PartSelect {
                up,
                count: width,
                bits: own_width(e),
            };
            let found = slid(alloc, names, functions, e, from, base, part, helpers)?;
            Ok(found)
        }
    }
}

/// What reads an element by an index.
#[cycle(lower)]
fn element(
    alloc: Global,
    names: &NameMap,
    functions: &[Function],
    e: &Expr,
    from: &Expr,
    i: &Expr,
    helpers: &mut Helpers,
) -> Result<Reading, AllocError>
    requires functions { AllFunctionsFit functions.now }
    requires form { e.now.form ≡ forms.Index from.now i.now }
    requires built { Each IsLowered (leaves e.now) }
    requires fits { FitsAlone (meaning e.now) (formals_in functions.now) }
    ensures grows { OnOk result (Grows helpers.old helpers.new) }
    ensures sound { IfOk result IsSound }
    ensures finds { IfOk result (Finds names.now functions.now helpers.new e.now) }
{
    match memory_of(names, from) {
        None => {
            let inside = selected(alloc, names, functions, e, from, i, helpers)?;
            Ok(inside)
        }
        Some(n) => {
            let whole = word(alloc, names, functions, e, from, n, i, helpers)?;
            Ok(whole)
        }
    }
}

/// What reads an element of a signal that is a memory: the word of its index.
#[cycle(lower)]
fn word(
    alloc: Global,
    names: &NameMap,
    functions: &[Function],
    e: &Expr,
    from: &Expr,
    n: u32,
    i: &Expr,
    helpers: &mut Helpers,
) -> Result<Reading, AllocError>
    requires functions { AllFunctionsFit functions.now }
    requires form { e.now.form ≡ forms.Index from.now i.now }
    requires memory { StandsInWords names.now from.now (Some n) }
    requires built { Each IsLowered (leaves e.now) }
    requires fits { FitsAlone (meaning e.now) (formals_in functions.now) }
    ensures grows { OnOk result (Grows helpers.old helpers.new) }
    ensures sound { IfOk result IsSound }
    ensures finds { IfOk result (Finds names.now functions.now helpers.new e.now) }
{
    if let Some(known) = known_index(alloc, functions, i)? {
        let numbered = numbered_word(alloc, names, n, &from.of, known.number)?;
        return Ok(numbered);
    }
    let at = index(alloc, names, functions, i, helpers)?;
    let indexed = indexed_word(alloc, names, n, &from.of, at)?;
    Ok(indexed)
}

/// What reads an element of what is no memory.
#[cycle(lower)]
fn selected(
    alloc: Global,
    names: &NameMap,
    functions: &[Function],
    e: &Expr,
    from: &Expr,
    i: &Expr,
    helpers: &mut Helpers,
) -> Result<Reading, AllocError>
    requires functions { AllFunctionsFit functions.now }
    requires form { e.now.form ≡ forms.Index from.now i.now }
    requires plain { StandsInWords names.now from.now None }
    requires built { Each IsLowered (leaves e.now) }
    requires fits { FitsAlone (meaning e.now) (formals_in functions.now) }
    ensures grows { OnOk result (Grows helpers.old helpers.new) }
    ensures sound { IfOk result IsSound }
    ensures finds { IfOk result (Finds names.now functions.now helpers.new e.now) }
{
    if let Some(known) = known_index(alloc, functions, i)? {
        let found = find(alloc, names, functions, from, helpers)?;
        return Ok(element_step(found, &from.of, known.number));
    }
    let found = find(alloc, names, functions, from, helpers);
    let at = index(alloc, names, functions, i, helpers);
    let (found, at) = pairs::both(found, at)?;
    let made = index_step(alloc, found, &from.of, at, helpers)?;
    Ok(made)
}

/// What reads so many elements from an index on.
#[cycle(lower)]
fn slid(
    alloc: Global,
    names: &NameMap,
    functions: &[Function],
    e: &Expr,
    from: &Expr,
    base: &Expr,
    part: PartSelect,
    helpers: &mut Helpers,
) -> Result<Reading, AllocError>
    requires functions { AllFunctionsFit functions.now }
    requires form { e.now.form ≡ forms.Slide from.now base.now part.count part.up }
    requires bits { part.bits ≡ wide (meaning e.now) }
    requires built { Each IsLowered (leaves e.now) }
    requires fits { FitsAlone (meaning e.now) (formals_in functions.now) }
    ensures grows { OnOk result (Grows helpers.old helpers.new) }
    ensures sound { IfOk result IsSound }
    ensures finds { IfOk result (Finds names.now functions.now helpers.new e.now) }
{
    if let Some(known) = known_index(alloc, functions, base)? {
        let found = find(alloc, names, functions, from, helpers)?;
        return Ok(sliding_step(found, &from.of, part.up, part.count, known.number));
    }
    let found = find(alloc, names, functions, from, helpers);
    let at = index(alloc, names, functions, base, helpers);
    let (found, at) = pairs::both(found, at)?;
    let made = slide_step(alloc, found, &from.of, part, at, helpers)?;
    Ok(made)
}

/// An index, valued alone.
#[cycle(lower)]
fn index(
    alloc: Global,
    names: &NameMap,
    functions: &[Function],
    i: &Expr,
    helpers: &mut Helpers,
) -> Result<Index, AllocError>
    requires functions { AllFunctionsFit functions.now }
    requires built { Each IsLowered (leaves i.now) }
    requires fits { FitsAlone (meaning i.now) (formals_in functions.now) }
    ensures grows { OnOk result (Grows helpers.old helpers.new) }
    ensures indexes { IfOk result (Indexes names.now functions.now helpers.new i.now) }
{
    let (width, signed) = (own_width(i), own_sign(i));
    let expr = lower(alloc, names, functions, i, width, signed, helpers)?;
    Ok(Index {
        expr,
        width,
        signed,
    })
}

/// What an expression asks of its operands, in order.
#[cycle(lower)]
fn parts(
    alloc: Global,
    names: &NameMap,
    functions: &[Function],
    e: &Expr,
    width: u32,
    signed: bool,
    helpers: &mut Helpers,
) -> Result<VExprs, AllocError>
    requires functions { AllFunctionsFit functions.now }
    requires kind { is_path (out-Form e.now.form) ≡ false }
    requires built { Each IsLowered (leaves e.now) }
    requires fits { Fits (meaning e.now) (formals_in functions.now) width }
    ensures grows { OnOk result (Grows helpers.old helpers.new) }
    ensures lowers { IfOk result (λ ps. LowersEach names.now functions.now helpers.new (form_asked (layout e.now.of) (formals_in functions.now) width signed (out-Form e.now.form)) (meanings ps)) }
{
    let asks = operands(alloc, e, width, signed, functions)?;
    let mut made = VExprs::new(alloc);
    for operand in &asks {
        let part = answer(alloc, names, functions, *operand, helpers)?;
        made.push(part)?;
    }
    Ok(made)
}

/// What is asked of one operand.
#[cycle(lower)]
fn answer(
    alloc: Global,
    names: &NameMap,
    functions: &[Function],
    operand: Operand<'_>,
    helpers: &mut Helpers,
) -> Result<VExpr, AllocError>
    requires functions { AllFunctionsFit functions.now }
    requires built { Each IsLowered (leaves operand.of.now) }
    requires fits { Fits (meaning operand.of.now) (formals_in functions.now) (width_asked operand.ask (meaning operand.of.now)) }
    ensures grows { OnOk result (Grows helpers.old helpers.new) }
    ensures lowers { IfOk result (λ m. Lowers names.now functions.now helpers.new operand.entry.of.now (width_asked operand.entry.ask (meaning operand.entry.of.now)) (sign_asked operand.entry.ask (meaning operand.entry.of.now)) (means.meaning m)) }
{
    match operand.ask {
        Ask::Bits(width, signed) => {
            let bits = lower(alloc, names, functions, operand.of, width, signed, helpers)?;
            Ok(bits)
        }
        Ask::Again(width, signed) => {
            let again = lower(alloc, names, functions, operand.of, width, signed, helpers)?;
            Ok(again)
        }
        Ask::Place => {
            let (width, signed) = (own_width(operand.of), own_sign(operand.of));
            let place = lower(alloc, names, functions, operand.of, width, signed, helpers)?;
            Ok(place)
        }
    }
}
