//! What functions read (IEEE 1364-2005 clause 10.4).

ghost use Rattle.std.specs.Prelude.{◌≡◌, suc, map, Some, IfOk};
ghost use Rattle.v_meaning.specs.Functions as means;
ghost use Rattle.v_constants.specs.Constants.{AreQuiet};
ghost use Rattle.v_eval.specs.Names.{local_named};
ghost use Rattle.v_eval.specs.Scopes.{callee_at};
ghost use Rattle.v_reads.specs.Reads.{AreOf, FunctionsRead, at_depth, around};

use crate::numbers::{Numbers, are_none, is_same, signals_once};
use crate::statements::{behind, stmt_reads};
use b4_core::Items;
use std::alloc::{AllocError, Global};
use v_eval::{Local, Scope, function_of};
use v_run::{Locals, declared};
use v_tree::VFunction;

// The locals of a function: its result, its inputs and its variables.
fn locals_in(alloc: Global, f: &VFunction) -> Result<Locals, AllocError>
    ensures { IfOk result (λ r. map local_named r ≡ means.locals_of f.now) }
{
    let first = behind(1, f.inputs.len())?;
    let variables = declared(alloc, first, f.locals.as_slice(), &[])?;
    let inputs = declared(alloc, 1, f.inputs.as_slice(), variables.as_slice())?;
    let mut all = Locals::new(alloc);
    all.push(Local {
        name: f.name.copy(alloc)?,
        number: 0,
        left: f.range,
    })?;
    all.append(inputs)?;
    Ok(all)
}

// What a function reads where calls go one deeper than in a scope, by what the functions there read.
fn body_reads(
    alloc: Global,
    scope: Scope<'_>,
    functions: &[Numbers],
    f: &VFunction,
) -> Result<Numbers, AllocError>
    requires { FunctionsRead scope functions.now }
    ensures { IfOk result (λ ns. AreOf ns (means.callee_of (around scope.entry) f.now).reads) }
{
    let all = locals_in(alloc, f)?;
    let inner = Scope {
        locals: all.as_slice(),
        next: behind(0, all.len())?,
        module: &*scope.module,
        first: scope.first,
        depth: scope.depth,
    };
    let mut numbers = Numbers::new(alloc);
    stmt_reads(alloc, inner, functions, &f.body, &mut numbers)?;
    signals_once(alloc, numbers.as_slice())
}

// What the function at an item reads where calls go one deeper than in a scope, by what the functions there read.
fn function_reads_at(
    alloc: Global,
    scope: Scope<'_>,
    functions: &[Numbers],
    i: usize,
) -> Result<Numbers, AllocError>
    requires { FunctionsRead scope functions.now }
    ensures { IfOk result (λ ns. AreOf ns (callee_at (at_depth (suc scope.entry.depth) scope.entry) (Some i)).reads) }
{
    match function_of(scope.module.items, i) {
        None => Ok(Numbers::new(alloc)),
        Some(f) => body_reads(alloc, scope, functions, f),
    }
}

// What the functions read where calls go one deeper than in a scope, by what they read there.
fn one_deeper(
    alloc: Global,
    scope: Scope<'_>,
    functions: &[Numbers],
) -> Result<Items<Numbers>, AllocError>
    requires { FunctionsRead scope functions.now }
    ensures { IfOk result (λ r. FunctionsRead (at_depth (suc scope.entry.depth) scope.entry) r) }
{
    let mut lists = Items::new(alloc);
    for i in 0..scope.module.items.len() {
        lists.push(function_reads_at(alloc, scope, functions, i)?)?;
    }
    Ok(lists)
}

/// The signals that the functions of a module read: for each item of the module those that the function there reads, each once, in
/// ascending order. Or want of memory.
///
/// Calls go no deeper than the scope says. By rounds: where calls go one deeper, the bodies are read by the lists of the round
/// before, until a round changes nothing.
pub fn function_reads(alloc: Global, scope: Scope<'_>) -> Result<Items<Numbers>, AllocError>
    ensures { IfOk result (λ r. FunctionsRead scope.entry r) }
{
    let mut lists = Items::new(alloc);
    for depth in 0..scope.depth {
        let inner = Scope {
            locals: &*scope.locals,
            next: scope.next,
            module: &*scope.module,
            first: scope.first,
            depth,
        };
        let deeper = one_deeper(alloc, inner, lists.as_slice())?;
        if is_same(deeper.as_slice(), lists.as_slice()) {
            return Ok(lists);
        }
        lists = deeper;
    }
    Ok(lists)
}

/// Which functions of a module read no signal: for each item of the module whether the function there reads none, by what the
/// functions read. Or want of memory.
pub fn quiet_of(
    alloc: Global,
    scope: Scope<'_>,
    functions: &[Numbers],
) -> Result<Items<bool>, AllocError>
    requires { FunctionsRead scope functions.now }
    ensures { IfOk result (λ quiet. AreQuiet scope.entry quiet) }
{
    are_none(alloc, functions)
}
