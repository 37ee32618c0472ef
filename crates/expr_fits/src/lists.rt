//! What values without parts, and forms with lists of parts, ask (IEEE 1800-2017 clauses 5.7, 10.9, 11.4.12 to 11.4.14 and 13.4).

ghost use Rattle.std.specs.Prelude.{◌≡◌, ◌<◌, ℕ, List, map, min, length, drop};
ghost use Rattle.sv_types.specs.declared.expression.Form.TheVariants as V;
ghost use Rattle.sv_types.specs.Surroundings.{Parameter};
ghost use Rattle.sv_types.specs.Meanings.{total};
ghost use Rattle.sv_types.specs.Functions.{parameter};
ghost use Rattle.sv_types.specs.Layouts.{stacked};
ghost use Rattle.sv_types.specs.Values.{bits};
ghost use Rattle.eval_forms.specs.Callees.{formals_in};
ghost use Rattle.expr_fits.specs.Needs.{IsNeed, NarrowIf};
ghost use Rattle.expr_fits.specs.Results.{own_of};

use crate::needs::Need;
use crate::results::{has_bits, is_result, is_vector, own};
use b4_core::{Bit4, Vec4};
use eval_parts::{Places, is_signed};
use sv_types::{Choice, Expr, Formal, Function, MOST_BITS, Value, is_narrow};

// One more than the largest number of bits stands for every larger number.
const TOO_MANY: u64 = 4194305;

// The bits of a value, or 2^22 + 1 where there are more.
#[cycle(count)]
fn bits_in(v: &Value) -> u64
    ensures { result ≡ min (length (bits v.now)) 4194305 }
{
    match v {
        Value::Bits(b) => (b.len() as u64).min(TOO_MANY),
        Value::Items(items) => bits_in_all(items.as_slice()),
    }
}

#[cycle(count)]
fn bits_in_all(items: &[Value]) -> u64
    ensures { result ≡ min (length (stacked (map bits items.now))) 4194305 }
{
    let mut sum: u64 = 0;
    for item in items {
        sum = (sum + bits_in(item)).min(TOO_MANY);
    }
    sum
}

// The widths of expressions together, or 2^22 + 1 where they are more.
fn own_of_all(es: &[Expr]) -> u64
    ensures { result ≡ min (total (map own_of es.now)) 4194305 }
{
    let mut sum: u64 = 0;
    for e in es {
        sum = (sum + u64::from(own(e))).min(TOO_MANY);
    }
    sum
}

/// A number.
pub fn literal<'a>(e: &'a Expr, v: &Vec4, goes_on: bool, width: u32) -> Need<'a>
    requires form { e.now.form ≡ V.Literal v.now goes_on }
    requires some { 0 < width }
    ensures { (fs : ℕ → List Parameter) → IsNeed result e.now fs width }
{
    if !is_result(&e.of, v.len() as u64, is_signed(&e.of)) {
        return Need::Never;
    }
    Need::Nothing
}

/// `'0`, `'1`, `'x` and `'z`.
pub fn fill<'a>(e: &'a Expr, b: Bit4, width: u32) -> Need<'a>
    requires form { e.now.form ≡ V.Fill b }
    requires some { 0 < width }
    ensures { (fs : ℕ → List Parameter) → IsNeed result e.now fs width }
{
    if !is_result(&e.of, 1, false) {
        return Need::Never;
    }
    Need::Nothing
}

/// The value of a constant.
pub fn constant<'a>(e: &'a Expr, v: &Value, width: u32) -> Need<'a>
    requires form { e.now.form ≡ V.Constant v.now }
    requires some { 0 < width }
    ensures { (fs : ℕ → List Parameter) → IsNeed result e.now fs width }
{
    if !is_result(&e.of, bits_in(v), is_signed(&e.of)) {
        return Need::Never;
    }
    Need::Nothing
}

/// A concatenation.
pub fn concat<'a>(e: &'a Expr, es: &'a [Expr], width: u32) -> Need<'a>
    requires form { e.now.form ≡ V.Concat es.now }
    requires some { 0 < width }
    ensures { (fs : ℕ → List Parameter) → IsNeed result e.now fs width }
{
    if !is_vector(&e.of, own_of_all(es), false) {
        return Need::Never;
    }
    Need::Each(es)
}

/// A repeated concatenation.
pub fn repeat<'a>(e: &'a Expr, n: u32, es: &'a [Expr], width: u32) -> Need<'a>
    requires form { e.now.form ≡ V.Repeat n es.now }
    requires some { 0 < width }
    ensures { (fs : ℕ → List Parameter) → IsNeed result e.now fs width }
{
    if !is_vector(&e.of, u64::from(n) * own_of_all(es), false) {
        return Need::Never;
    }
    Need::Each(es)
}

/// A stream.
pub fn stream<'a>(
    e: &'a Expr,
    reversed: bool,
    slice: u32,
    parts: &'a [Expr],
    width: u32,
) -> Need<'a>
    requires form { e.now.form ≡ V.Stream reversed slice parts.now }
    requires some { 0 < width }
    ensures { (fs : ℕ → List Parameter) → IsNeed result e.now fs width }
{
    if !is_result(&e.of, own_of_all(parts), false) {
        return Need::Never;
    }
    Need::Each(parts)
}

/// A pattern.
pub fn pattern<'a>(e: &'a Expr, es: &'a [Expr], width: u32) -> Need<'a>
    requires form { e.now.form ≡ V.Pattern es.now }
    requires some { 0 < width }
    ensures { (fs : ℕ → List Parameter) → IsNeed result e.now fs width }
{
    if !has_bits(&e.of) {
        return Need::Never;
    }
    Need::Placed(Places::Parts(&e.of), es)
}

/// Whether each formal has at most 2^22 bits.
pub fn are_narrow(formals: &[Formal]) -> bool
    ensures { NarrowIf result formals.now }
{
    for formal in formals {
        if !is_narrow(&formal.local.of) {
            return false;
        }
    }
    true
}

/// The formals of the function with a number; none where there is no such function.
#[tactic(auto, using(crate::proofs::Forms::formals))]
pub fn formals_of(functions: &[Function], function: u32) -> &[Formal]
    ensures { map parameter result.now ≡ formals_in functions.now function }
{
    if (function as usize) < functions.len() {
        functions[function as usize].formals.as_slice()
    } else {
        &[]
    }
}

/// A call. It passes no more than there are formals.
pub fn call<'a>(
    e: &'a Expr,
    functions: &'a [Function],
    function: u32,
    es: &'a [Expr],
    width: u32,
) -> Need<'a>
    requires form { e.now.form ≡ V.Call function es.now }
    requires some { 0 < width }
    ensures { IsNeed result e.now (formals_in functions.now) width }
{
    let formals = formals_of(functions, function);
    if !has_bits(&e.of) {
        return Need::Never;
    }
    if !are_narrow(formals) {
        return Need::Never;
    }
    if es.len() > formals.len() {
        return Need::Never;
    }
    Need::Placed(Places::Formals(formals), es)
}

/// `inside`.
pub fn inside<'a>(e: &'a Expr, x: &'a Expr, choices: &'a [Choice], width: u32) -> Need<'a>
    requires form { e.now.form ≡ V.Inside x.now choices.now }
    requires some { 0 < width }
    ensures { (fs : ℕ → List Parameter) → IsNeed result e.now fs width }
{
    if !is_vector(&e.of, 1, false) {
        return Need::Never;
    }
    Need::Inside(x, choices)
}
