//! The numbers of constant indices.

ghost use Rattle.std.specs.Prelude.{◌≤◌, ◌^◌, IfOk, IfSome, unsigned_abs};
ghost use Rattle.sv_types.specs.Meanings.{wide};
ghost use Rattle.sv_types.specs.Expressions.{meaning};
ghost use Rattle.sv_types.specs.Functions.{callees_within};
ghost use Rattle.eval_parts.specs.Limits.{FitsAlone};
ghost use Rattle.eval_forms.specs.Callees.{formals_in};
ghost use Rattle.eval_exprs.specs.Calls.{CalledGives};
ghost use Rattle.eval_runs.specs.Functions.{AllCanRun};
ghost use Rattle.known_indices.specs.Known.{BitsGive, IndexGives, IsFailOf, NumberGives};

use b4_core::Vec4;
use constant_exprs::is_constant;
use eval_exprs::{Call, Called, Held, Scope, bits};
use eval_parts::{Halt, index_of, own_sign, own_width};
use eval_runs::run_call;
use std::alloc::Global;
use sv_types::{Expr, Function};

/// How many statements the value of an index may take.
const MOST_STATEMENTS: u64 = 1048576;

/// An index that is constant.
#[derive(Clone, Copy)]
pub struct KnownIndex {
    /// Its number, if no bit of it is x or z.
    pub number: Option<i128>,
}

/// Why the number of an index isn't found.
#[derive(Drop, Debug)]
pub enum IndexFail {
    /// Memory ran out.
    Memory,
    /// The index is constant, and its value takes too long.
    TooLong {
        /// Its first token.
        at: u32,
    },
}

/// Why the index at a token has no value.
fn fail_of(halt: Halt, at: u32) -> IndexFail
    ensures { IsFailOf halt at result }
{
    match halt {
        Halt::Memory => IndexFail::Memory,
        Halt::NotHeld(_) => IndexFail::TooLong { at },
        Halt::Turns => IndexFail::TooLong { at },
    }
}

/// The bits of an expression alone, where no signal and no local is held.
fn unheld_bits(alloc: Global, functions: &[Function], e: &Expr) -> Result<Vec4, Halt>
    requires functions { AllCanRun functions.now }
    requires fits { FitsAlone (meaning e.now) (formals_in functions.now) }
    ensures { BitsGive result functions.now e.now }
{
    let depth = functions.len();
    let calls = |call: Call| -> Result<Called, Halt>
        requires { AllCanRun functions.now }
        ensures { CalledGives result (callees_within depth functions.entry.now call.function) call }
    { run_call(alloc, functions, depth, call) };
    let held = Held {
        signals: &[],
        locals: &[],
        scope: Scope { functions, depth },
    };
    let mut budget = Some(MOST_STATEMENTS);
    bits(
        alloc,
        &calls,
        held,
        e,
        own_width(e),
        own_sign(e),
        &mut budget,
    )
}

/// The number of an index of at most 64 bits where nothing is held.
fn unheld_number(alloc: Global, functions: &[Function], i: &Expr) -> Result<KnownIndex, IndexFail>
    requires functions { AllCanRun functions.now }
    requires fits { FitsAlone (meaning i.now) (formals_in functions.now) }
    requires short { wide (meaning i.now) ≤ 64 }
    ensures known { NumberGives result functions.now i.now }
    ensures small { IfOk result (λ k. IfSome k.number (λ n. unsigned_abs n ≤ 2 ^ 64)) }
{
    match unheld_bits(alloc, functions, i) {
        Err(halt) => Err(fail_of(halt, i.spot.at)),
        Ok(bits) => {
            let number = index_of(&bits, own_sign(i));
            Ok(KnownIndex { number })
        }
    }
}

/// The number of an index of at most 64 bits, if it is constant where nothing is known of signals and locals: of any operators and
/// calls of functions on numbers (IEEE 1800-2017 clauses 11.2.1 and 13.4.3). It is that wherever these functions are called, and the
/// index names nothing; none is given exactly where it isn't constant. `TooLong`, at its first token, only where it is constant and its
/// value takes over 65,536 turns of a loop or 2^20 statements; `Memory` where memory runs out.
pub fn known_index(
    alloc: Global,
    functions: &[Function],
    i: &Expr,
) -> Result<Option<KnownIndex>, IndexFail>
    requires functions { AllCanRun functions.now }
    requires fits { FitsAlone (meaning i.now) (formals_in functions.now) }
    requires short { wide (meaning i.now) ≤ 64 }
    ensures known { IndexGives result functions.now i.now }
    ensures small { IfOk result (λ r. IfSome r (λ k. IfSome k.number (λ n. unsigned_abs n ≤ 2 ^ 64))) }
{
    if !is_constant(i) {
        return Ok(None);
    }
    match unheld_number(alloc, functions, i) {
        Err(fail) => Err(fail),
        Ok(known) => Ok(Some(known)),
    }
}
