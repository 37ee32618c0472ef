//! Calls of functions (IEEE 1364-2005 clause 10.4).

ghost use Rattle.std.specs.Prelude.{◌≡◌, ◌≤◌, map, replicate, slice_index_or, IfOk, OnOk};
ghost use Rattle.b4_core.specs.declared.bit.Bit4.TheVariants.{X};
ghost use Rattle.picks.specs.Windows.{tabulated};
ghost use Rattle.row_machine.specs.Places.{vector_at};
ghost use Rattle.row_machine.specs.Valuation.{Valuation};
ghost use Rattle.v_meaning.specs.Functions as means;
ghost use Rattle.v_meaning.specs.Runs.{begun, assign_now, cleared};
ghost use Rattle.v_meaning.specs.Scopes.{local_number, bits_of_range as range_bits};
ghost use Rattle.v_meaning.specs.Statements.{doing};
ghost use Rattle.v_eval.specs.Holding.{holds, holding};
ghost use Rattle.v_eval.specs.Names.{local_named};
ghost use Rattle.v_run.specs.Standing.{Stands};
ghost use Rattle.v_exec.specs.Limits.{stmt_most};
ghost use Rattle.v_exec.specs.Modules.{scope_in, callee_in, FunctionsNarrow, AnswersIn};

use crate::inputs::{binds, inputs_in, locals_in};
use crate::statements::{number_behind, run_stmt};
use b4_core::{Bit4, Vec4};
use std::alloc::{AllocError, Global};
use v_eval::{Held, Local, Module, Scope, Slot, Vectors, bits_of_range, empty, function_of};
use v_run::{Pieces, State, assign, clears};
use v_tree::VFunction;

// The signals that hold something else by now, once more.
#[tactic(auto, using(crate::proofs::Copying::copying))]
fn copied_over(alloc: Global, over: &[Slot]) -> Result<Vec<Slot>, AllocError>
    ensures { IfOk result (λ r. r.items ≡ over.now) }
{
    let mut made = Vec::with_capacity(alloc, over.len())?;
    for slot in over {
        made.push(Slot {
            number: slot.number,
            bits: Vec4::from_slice(alloc, slot.bits.as_slice())?,
        })?;
    }
    Ok(made)
}

// The same vectors.
#[tactic(auto, using(crate::proofs::Copying::copying))]
fn copied_locals(alloc: Global, locals: &[Vec4]) -> Result<Vec<Vec4>, AllocError>
    ensures { IfOk result (λ r. r.items ≡ locals.now) }
{
    let mut made = Vec::with_capacity(alloc, locals.len())?;
    for v in locals {
        made.push(Vec4::from_slice(alloc, v.as_slice())?)?;
    }
    Ok(made)
}

/// A run that begins where signals and locals hold this. Or want of memory.
pub fn begun_on<'a>(alloc: Global, held: Held<'a>) -> Result<State<'a>, AllocError>
    ensures { IfOk result (Stands (holds held.entry) begun) }
{
    Ok(State {
        signals: held.signals,
        over: copied_over(alloc, held.over)?,
        locals: copied_locals(alloc, held.locals)?,
        written: Pieces::new(alloc),
        pending: Pieces::new(alloc),
    })
}

// A bit, x behind the end.
fn bit_or_unknown(bits: &[Bit4], k: usize) -> Bit4
    ensures { result ≡ slice_index_or bits.now k X }
{
    if k < bits.len() { bits[k] } else { Bit4::X }
}

// The first bits of what a local holds, x behind its end.
#[tactic(auto, using(crate::proofs::Copying::reading))]
fn first_bits(alloc: Global, bits: &[Bit4], width: usize) -> Result<Vec4, AllocError>
    ensures { IfOk result (λ v. v ≡ tabulated width (λ k. slice_index_or bits.now k X)) }
{
    let mut made = Vec::with_capacity(alloc, width)?;
    for k in 0..width {
        made.push(bit_or_unknown(bits, k))?;
    }
    Ok(Vec4::from_vec(made))
}

// The result of a function, whose body has run.
#[tactic(auto, using(crate::proofs::Copying::results))]
fn result_in(alloc: Global, state: &State<'_>, f: &VFunction) -> Result<Vec4, AllocError>
    ensures { IfOk result (λ x. x ≡ vector_at (holding state.now.signals.now state.now.over.items state.now.locals.items) (local_number 0) (range_bits f.now.range)) }
{
    let width = bits_of_range(f.range) as usize;
    let held = Held {
        signals: state.signals,
        over: state.over.as_slice(),
        locals: state.locals.as_slice(),
    };
    first_bits(alloc, held.bits_of(4294967296), width)
}

// Makes the locals of a function x, and gives its inputs what is passed to them.
fn pass(
    alloc: Global,
    state: &mut State<'_>,
    f: &VFunction,
    all: &[Local],
    args: &[Vec4],
) -> Result<(), AllocError>
    requires { map local_named all.now ≡ means.locals_of f.now }
    ensures { (v : Valuation) → Stands v begun state.old → OnOk result (Stands v (assign_now (means.bound (means.inputs_of f.now) args.now) (assign_now (cleared (means.locals_of f.now)) begun)) state.new) }
{
    let own = clears(alloc, all)?;
    assign(alloc, state, false, own)?;
    let inputs = inputs_in(alloc, f)?;
    let passed = binds(alloc, inputs.as_slice(), args)?;
    assign(alloc, state, false, passed)
}

// What a function gives for what is held and passed to it.
fn run_function<F: Fn(Held<'_>, usize, Vectors) -> Result<Vec4, AllocError>>(
    alloc: Global,
    of: &Module<'_>,
    first: u32,
    depth: usize,
    call: &F,
    held: Held<'_>,
    f: &VFunction,
    args: Vectors,
) -> Result<Vec4, AllocError>
    requires callable { F.IsAlwaysCallable call.now }
    requires right { AnswersIn first depth of.now (F.post call.now) }
    requires narrow { stmt_most f.now.body (means.scope_in f.now (scope_in first depth of.now)) ≤ 128 }
    ensures { IfOk result (λ x. x ≡ means.called f.now (doing f.now.body) (scope_in first depth of.now) (holds held.entry) args) }
{
    let all = locals_in(alloc, f)?;
    let mut state = begun_on(alloc, held)?;
    pass(alloc, &mut state, f, all.as_slice(), args.as_slice())?;
    let scope = Scope {
        locals: all.as_slice(),
        next: number_behind(0, all.len())?,
        module: of,
        first,
        depth,
    };
    run_stmt(alloc, scope, call, &mut state, &f.body)?;
    result_in(alloc, &state, f)
}

// A vector of x alone.
fn unknown(alloc: Global, width: usize) -> Result<Vec4, AllocError>
    ensures { IfOk result (λ v. v ≡ replicate width X) }
{
    Ok(Vec4::from_vec(vec![in alloc; Bit4::X; width]?))
}

/// What the function at an item of a module gives for what is held and passed to it, in an instance whose signals are
/// numbered from `first` on and where calls go so deep (IEEE 1364-2005 clause 10.4). Or want of memory.
pub fn call_function(
    alloc: Global,
    of: &Module<'_>,
    first: u32,
    depth: usize,
    held: Held<'_>,
    i: usize,
    args: Vectors,
) -> Result<Vec4, AllocError>
    requires { FunctionsNarrow first of.now }
    ensures { IfOk result (λ x. x ≡ (callee_in first depth of.now i).run (holds held.entry) args) }
{
    match function_of(of.items, i) {
        None => Ok(empty(alloc)),
        Some(f) => {
            if depth == 0 {
                return unknown(alloc, bits_of_range(f.range) as usize);
            }
            let below = depth - 1;
            let call = |h: Held<'_>, j: usize, xs: Vectors| -> Result<Vec4, AllocError>
                requires { FunctionsNarrow first of.now }
                ensures { IfOk result (λ x. x ≡ (callee_in first below of.entry.now j).run (holds h.entry) xs) }
            {
                let held = Held {
                    signals: &*h.signals,
                    over: &*h.over,
                    locals: &*h.locals,
                };
                call_function(alloc, &*of, first, below, held, j, xs)
            };
            let held = Held {
                signals: &*held.signals,
                over: &*held.over,
                locals: &*held.locals,
            };
            run_function(alloc, &*of, first, below, &call, held, f, args)
        }
    }
}
