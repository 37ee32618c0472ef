//! Indices whose number is known in the source.

ghost use Rattle.std.specs.Prelude.{◌≡◌, ◌≤◌, ◌^◌, Err, IfOk, IfSome, unsigned_abs};
ghost use Rattle.sv_types.specs.Meanings.{wide};
ghost use Rattle.sv_types.specs.Expressions.{meaning};
ghost use Rattle.eval_parts.specs.Limits.{FitsAlone};
ghost use Rattle.eval_parts.specs.declared.halt.Halt.TheVariants.{Memory};
ghost use Rattle.eval_forms.specs.Callees.{formals_in, AllFunctionsFit};
ghost use Rattle.path_steps.specs.Free.{IsFree};
ghost use Rattle.path_steps.specs.Known.{ValuedGives, HasFixedBits, IsKnown};

use crate::free::is_free;
use b4_core::Vec4;
use eval_exprs::{Call, Called, Held, Scope, bits};
use eval_parts::{Halt, index_of, own_sign, own_width};
use std::alloc::{AllocError, Global};
use sv_types::{Expr, Function};

/// A value, unless its run stopped.
fn ended(value: Result<Vec4, Halt>) -> Result<Option<Vec4>, AllocError>
    ensures { ValuedGives result value }
{
    match value {
        Ok(v) => Ok(Some(v)),
        Err(Halt::Memory) => Err(AllocError),
        Err(Halt::NotHeld(_)) => Ok(None),
        Err(Halt::Turns) => Ok(None),
    }
}

/// The bits of an expression that reads nothing, valued alone.
fn free_bits(alloc: Global, functions: &[Function], e: &Expr) -> Result<Option<Vec4>, AllocError>
    requires functions { AllFunctionsFit functions.now }
    requires fits { FitsAlone (meaning e.now) (formals_in functions.now) }
    requires free { IsFree e.now }
    ensures { IfOk result (λ r. IfSome r (HasFixedBits e.now)) }
{
    let calls = |_call: Call| -> Result<Called, Halt>
        ensures { result ≡ Err Memory }
    { Err(Halt::Memory) };
    let held = Held {
        signals: &[],
        locals: &[],
        scope: Scope {
            functions,
            depth: 0,
        },
    };
    let mut budget = None;
    ended(bits(
        alloc,
        &calls,
        held,
        e,
        own_width(e),
        own_sign(e),
        &mut budget,
    ))
}

/// The bits of an expression that is made of numbers and constants alone, valued alone; nothing of an expression with a signal, a
/// local, a call or a stream. Or want of memory.
pub fn fixed_bits(
    alloc: Global,
    functions: &[Function],
    e: &Expr,
) -> Result<Option<Vec4>, AllocError>
    requires functions { AllFunctionsFit functions.now }
    requires fits { FitsAlone (meaning e.now) (formals_in functions.now) }
    ensures { IfOk result (λ r. IfSome r (HasFixedBits e.now)) }
{
    if is_free(e) {
        free_bits(alloc, functions, e)
    } else {
        Ok(None)
    }
}

/// An index that is known in the source.
#[derive(Clone, Copy)]
pub struct KnownIndex {
    /// Its number, if no bit of it is x or z.
    pub number: Option<i128>,
}

/// The number of an index of at most 64 bits that is made of numbers and constants alone, by its value; nothing of an expression
/// with a signal, a local, a call or a stream. Or want of memory.
pub fn known_index(
    alloc: Global,
    functions: &[Function],
    e: &Expr,
) -> Result<Option<KnownIndex>, AllocError>
    requires functions { AllFunctionsFit functions.now }
    requires fits { FitsAlone (meaning e.now) (formals_in functions.now) }
    requires short { wide (meaning e.now) ≤ 64 }
    ensures known { IfOk result (λ r. IfSome r (λ k. IsKnown e.now k.number)) }
    ensures small { IfOk result (λ r. IfSome r (λ k. IfSome k.number (λ n. unsigned_abs n ≤ 2 ^ 64))) }
{
    match fixed_bits(alloc, functions, e)? {
        None => Ok(None),
        Some(bits) => {
            let number = index_of(&bits, own_sign(e));
            Ok(Some(KnownIndex { number }))
        }
    }
}
