//! Values of names.

ghost use Rattle.std.specs.Prelude.{◌≡◌, ◌≤◌, ◌<◌, length, [], List, None, Some, is_some, IfOk};
ghost use Rattle.std.specs.Option.{option_copied};
ghost use Rattle.sv_types.specs.Expressions.{meaning};
ghost use Rattle.sv_types.specs.Layouts.{width_of};
ghost use Rattle.eval_parts.specs.Limits.{FitsAlone};
ghost use Rattle.eval_forms.specs.Callees.{formals_in};
ghost use Rattle.eval_runs.specs.Functions.{AllCanRun};
ghost use Rattle.expr_type.specs.Answers.{Gives, HaltsBy, reason, source};
ghost use Rattle.expr_type.specs.Names as names;
ghost use Rattle.expr_type.specs.Operands.{in_range};
ghost use Rattle.expr_type.specs.Types.{NameValue, least_value, most_value};
ghost use Rattle.expr_type.specs.Types as types;
ghost use Rattle.expr_type.specs.Uses.{stream_marks};
ghost use Rattle.enum_types.specs.Bits.{BitsOf, value_in};
ghost use Rattle.enum_types.specs.Taken.{Holds};
ghost use Rattle.enum_values.specs.Values.{AreInBase, Names, last_number, long_halt, unwritten, written};

use crate::bits::constant_bits;
use b4_core::{Bit4, Vec4};
use enum_types::{Taken, holds, in_base, is_long, named_value, value_after};
use eval_parts::own_sign;
use expr_type::{Halt, Source, Valued};
use std::alloc::{AllocError, Global};
use sv_types::{Functions, SvType};

// What stops at the name of a constant where the base has more bits than a constant: E701 at the name, or E411 at the constant's first
// token where the base doesn't hold it.
fn long_halt(at: u32, first: u32, held: bool) -> Halt
    ensures { result ≡ long_halt at first held }
{
    if held {
        return Halt::Breaks { at, rule: 701 };
    }
    Halt::Breaks {
        at: first,
        rule: 411,
    }
}

/// The bits in the base of the value of an enum's name at a token, where it is written as a constant. It breaks what constants break
/// (E406, E501, E512 and E608), E411 where the base doesn't hold it, each at its first token, and at the name E509 where a name before
/// has the value and E701 where the base has more than 65,536 bits.
#[tactic(auto, using(crate::proofs::Written::writing))]
pub fn written_value(
    alloc: Global,
    text: Source<'_>,
    at: u32,
    base: &SvType,
    taken: &Taken,
    v: &Valued,
    functions: &Functions,
    marks: &[bool],
) -> Result<Vec4, Halt>
    requires whole { 0 < width_of base.now }
    requires functions { AllCanRun functions.now }
    requires marks { marks.now ≡ stream_marks functions.now }
    requires fits { FitsAlone (meaning v.now.expr) (formals_in functions.now) }
    ensures { (before : List NameValue) → Holds base.now taken.now before → (65536 < width_of base.now → before ≡ []) → Names base.now at result (written (source text.entry) base.now at before v.now functions.now) }
{
    let given = constant_bits(alloc, text, v, functions, marks)?;
    if is_long(base) {
        let held = holds(alloc, base, &given, own_sign(&v.expr))?;
        return Err(long_halt(at, v.first, held));
    }
    let bits = in_base(alloc, base, &given, own_sign(&v.expr))?;
    named_value(alloc, v.first, at, base, taken, bits)
}

// The bits of 0 in a base.
fn zero(alloc: Global, base: &SvType) -> Result<Option<Vec4>, AllocError>
    requires short { width_of base.now ≤ 65536 }
    requires whole { 0 < width_of base.now }
    ensures { IfOk result (λ o. BitsOf base.now o (in_range (least_value base.now) (most_value base.now) (Some (types.next_value None)))) }
{
    let bit = Vec4::from_slice(alloc, &[Bit4::Zero])?;
    in_base(alloc, base, &bit, true)
}

// The bits of the value behind the last one, or of 0, in a base, if it holds it.
#[tactic(auto, using(crate::proofs::Unwritten::afters))]
fn bits_behind(
    alloc: Global,
    base: &SvType,
    last: Option<&Vec4>,
) -> Result<Option<Vec4>, AllocError>
    requires short { width_of base.now ≤ 65536 }
    requires whole { 0 < width_of base.now }
    requires last { AreInBase base.now (option_copied last) }
    ensures { IfOk result (λ o. BitsOf base.now o (in_range (least_value base.now) (most_value base.now) (Some (types.next_value (last_number base.now (option_copied last.entry)))))) }
{
    match last {
        None => zero(alloc, base),
        Some(bits) => value_after(alloc, base, bits),
    }
}

/// The bits in the base of the value of an enum's name at a token, where none is written: it is one more than that of the last name,
/// or 0. It breaks, at the name, E411 where the base doesn't hold it, E509 where a name before has it, and E701 where the base has more
/// than 65,536 bits.
#[tactic(auto, using(crate::proofs::Unwritten::unwritings))]
pub fn unwritten_value(
    alloc: Global,
    at: u32,
    base: &SvType,
    taken: &Taken,
    last: Option<&Vec4>,
) -> Result<Vec4, Halt>
    requires whole { 0 < width_of base.now }
    requires last { AreInBase base.now (option_copied last) }
    requires none { 65536 < width_of base.now → option_copied last ≡ None }
    ensures { (k : names.Source) (before : List NameValue) → Holds base.now taken.now before → (65536 < width_of base.now → before ≡ []) → Names base.now at result (unwritten k base.now at before (last_number base.now (option_copied last.entry))) }
{
    if is_long(base) {
        return Err(Halt::Breaks { at, rule: 701 });
    }
    let bits = bits_behind(alloc, base, last)?;
    named_value(alloc, at, at, base, taken, bits)
}
