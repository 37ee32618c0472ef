//! What targets write.

ghost use Rattle.std.specs.Prelude.{◌≡◌, ◌≤◌, ◌++◌, map, flat_map, IfOk, OnOk};
ghost use Rattle.v_meaning.specs.Statements as means;
ghost use Rattle.v_meaning.specs.Statements.{target};
ghost use Rattle.v_meaning.specs.Values.{sel_meaning, use_of};
ghost use Rattle.v_eval.specs.Answering.{Answers};
ghost use Rattle.v_eval.specs.Limits.{limits_of_sel, most_of_sels};
ghost use Rattle.v_eval.specs.Paths.{named_or_not};
ghost use Rattle.v_eval.specs.Scopes.{scope_of};
ghost use Rattle.v_run.specs.Limits.{target_most, most_of_parts};
ghost use Rattle.v_constants.specs.Constants.{AreQuiet};
ghost use Rattle.v_writes.specs.Writes.{use_in};

use b4_core::{Items, Vec4};
use std::alloc::{AllocError, Global};
use v_constants::constant_prefix;
use v_eval::{Around, Held, Named, Scope, Vectors, number_of, path};
use v_tree::{VLval, VSel};

/// Bits that may be written: those from `low` up to, but not including, `high` of the signal or local with a number.
#[derive(Clone, Copy, Drop)]
pub struct Written {
    /// The number of the signal, or 2^32 more than that of the local.
    pub number: u64,
    /// The lowest bit.
    pub low: u128,
    /// The bit behind the highest.
    pub high: u128,
}

/// Bits that may be written, in the order of the text.
pub type Writes = Items<Written>;

// What a name with selects may write.
fn name_writes<F: Fn(Held<'_>, usize, Vectors) -> Result<Vec4, AllocError>>(
    alloc: Global,
    scope: Scope<'_>,
    quiet: &[bool],
    call: &F,
    named: Option<Named>,
    sels: &[VSel],
) -> Result<Written, AllocError>
    requires callable { F.IsAlwaysCallable call.now }
    requires right { Answers scope (F.post call.now) }
    requires calls { AreQuiet scope quiet.now }
    requires narrow { most_of_sels (map limits_of_sel sels.now) (scope_of scope) ≤ 128 }
    ensures { IfOk result (λ w. use_in w ≡ use_of (named_or_not named) (map sel_meaning sels.now) (scope_of scope.entry)) }
{
    let held = Held {
        signals: &[],
        over: &[],
        locals: &[],
    };
    let known = constant_prefix(scope, quiet, sels);
    let path = path(alloc, Around { scope, held }, call, known, named)?;
    Ok(Written {
        number: number_of(named),
        low: path.window.low,
        high: path.window.high,
    })
}

// Adds what the parts of a target may write.
#[cycle(targets)]
fn lvals_writes<F: Fn(Held<'_>, usize, Vectors) -> Result<Vec4, AllocError>>(
    alloc: Global,
    scope: Scope<'_>,
    quiet: &[bool],
    call: &F,
    parts: &[VLval],
    to: &mut Writes,
) -> Result<(), AllocError>
    requires callable { F.IsAlwaysCallable call.now }
    requires right { Answers scope (F.post call.now) }
    requires calls { AreQuiet scope quiet.now }
    requires narrow { most_of_parts (map target_most parts.now) (scope_of scope) ≤ 128 }
    ensures { OnOk result (map use_in to.new ≡ map use_in to.old ++ flat_map (λ (t : means.Target). t.writes (scope_of scope.entry)) (map target parts.now)) }
{
    for part in parts {
        lval_writes(alloc, scope, quiet, call, part, to)?;
    }
    Ok(())
}

/// Adds what a target may write: for each of its names the bits that its selects name as far as their bases are constants.
/// `quiet` says of each item of the module whether the function there reads no signal, and `call` gives what the function at
/// an item gives. Or want of memory.
#[cycle(targets)]
pub fn lval_writes<F: Fn(Held<'_>, usize, Vectors) -> Result<Vec4, AllocError>>(
    alloc: Global,
    scope: Scope<'_>,
    quiet: &[bool],
    call: &F,
    lval: &VLval,
    to: &mut Writes,
) -> Result<(), AllocError>
    requires callable { F.IsAlwaysCallable call.now }
    requires right { Answers scope (F.post call.now) }
    requires calls { AreQuiet scope quiet.now }
    requires narrow { target_most lval.now (scope_of scope) ≤ 128 }
    ensures { OnOk result (map use_in to.new ≡ map use_in to.old ++ (target lval.now).writes (scope_of scope.entry)) }
{
    match lval {
        VLval::Name { name, sels } => {
            let named = scope.find(name);
            to.push(name_writes(alloc, scope, quiet, call, named, sels.as_slice())?)?;
            Ok(())
        }
        VLval::Concat(parts) => {
            lvals_writes(alloc, scope, quiet, call, parts.as_slice(), to)?;
            Ok(())
        }
    }
}
