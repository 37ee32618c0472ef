//! The least break of one function, and of all that are called.

ghost use Rattle.std.specs.Prelude.{◌≡◌, true, false, IfOk};
ghost use Rattle.flow_sets.specs.Flows.{IsFlow};
ghost use Rattle.eval_forms.specs.Callees.{FunctionFits, AllFunctionsFit};
ghost use Rattle.design_breaks.specs.Breaks as B;
ghost use Rattle.call_reach.specs.Called.{AreCalled};
ghost use Rattle.least_breaks.specs.Least.{IsLeast, IsLeastToken};
ghost use Rattle.proc_rules.specs.Processes.{IsLoops};
ghost use Rattle.proc_rules.specs.Functions.{AreOwedTokens, IsBodyOf, AreBodies, AreFunctionLoops, function_breaks_at, called_breaks};

use crate::bodies::Loops;
use crate::processes::long_token;
use action_breaks::function_deferred;
use design_breaks::Break;
use flow_sets::Found;
use function_breaks::{local_read_early, owed, result_left_out, result_read_early};
use least_breaks::{break_at, lesser};
use std::alloc::{AllocError, Global};
use sv_types::{Design, Function};

/// The least tokens of the rules on the bits that a function is to write.
#[derive(Clone, Copy)]
pub struct OwedTokens {
    /// Of E603.
    pub left: Option<u32>,
    /// Of E604, by such a bit.
    pub early: Option<u32>,
    /// Of E604, by a local.
    pub local: Option<u32>,
}

fn body_tokens(
    alloc: Global,
    design: &Design,
    f: &Function,
    found: &Found,
) -> Result<OwedTokens, AllocError>
    requires fits { FunctionFits f.now }
    requires flow { IsFlow found.now (B.function_flow design.now f.now) }
    requires unrolls { B.unrolls design.now f.now.body ≡ true }
    ensures { IfOk result (λ r. AreOwedTokens design.now f.now r) }
{
    let bits = owed(alloc, f)?;
    let left = result_left_out(alloc, bits.as_slice(), found)?;
    let early = result_read_early(alloc, bits.as_slice(), found)?;
    Ok(OwedTokens {
        left,
        early,
        local: local_read_early(found),
    })
}

// The least tokens of a function, by what is found of its body if it can be unrolled.
fn owed_tokens(
    alloc: Global,
    design: &Design,
    f: &Function,
    found: &Option<Found>,
) -> Result<OwedTokens, AllocError>
    requires fits { FunctionFits f.now }
    requires found { IsBodyOf design.now f.now found.now }
    ensures { IfOk result (λ r. AreOwedTokens design.now f.now r) }
{
    match found {
        None => Ok(OwedTokens {
            left: None,
            early: None,
            local: None,
        }),
        Some(body) => body_tokens(alloc, design, f, body),
    }
}

// The least of the breaks at these tokens of a function.
fn least_of_tokens(
    design: &Design,
    f: &Function,
    bits: OwedTokens,
    deferred: Option<u32>,
    loops: Loops,
) -> Option<Break>
    requires bits { AreOwedTokens design.now f.now bits }
    requires deferred { IsLeastToken (B.deferred design.now false f.now.body) deferred }
    requires loops { IsLoops design.now f.now.body loops }
    ensures { IsLeast (function_breaks_at design.now f.now) result }
{
    let i = f.instance;
    let long = break_at(i, 703, long_token(loops, f.spot.at));
    let endless = lesser(break_at(i, 608, loops.endless), long);
    let later = lesser(break_at(i, 606, deferred), endless);
    let early = lesser(break_at(i, 604, bits.early), later);
    let local = lesser(break_at(i, 604, bits.local), early);
    lesser(break_at(i, 603, bits.left), local)
}

fn function_break(
    alloc: Global,
    design: &Design,
    f: &Function,
    found: &Option<Found>,
    loops: Loops,
) -> Result<Option<Break>, AllocError>
    requires fits { FunctionFits f.now }
    requires found { IsBodyOf design.now f.now found.now }
    requires loops { IsLoops design.now f.now.body loops }
    ensures { IfOk result (λ r. IsLeast (function_breaks_at design.now f.now) r) }
{
    let bits = owed_tokens(alloc, design, f, found)?;
    let deferred = function_deferred(design.functions.as_slice(), f);
    Ok(least_of_tokens(design, f, bits, deferred, loops))
}

// The least break of a function, if it is called.
fn break_if_called(
    alloc: Global,
    design: &Design,
    called: bool,
    f: &Function,
    found: &Option<Found>,
    loops: Loops,
) -> Result<Option<Break>, AllocError>
    requires fits { FunctionFits f.now }
    requires found { IsBodyOf design.now f.now found.now }
    requires loops { IsLoops design.now f.now.body loops }
    ensures { IfOk result (λ r. IsLeast (B.only_if called (function_breaks_at design.now f.now)) r) }
{
    if called {
        function_break(alloc, design, f, found, loops)
    } else {
        Ok(None)
    }
}

/// The least break of all functions that are called.
pub fn function_breaks(
    alloc: Global,
    design: &Design,
    called: &[bool],
    found: &[Option<Found>],
    loops: &[Loops],
) -> Result<Option<Break>, AllocError>
    requires fit { AllFunctionsFit design.now.functions }
    requires called { AreCalled design.now called.now }
    requires found { AreBodies design.now found.now }
    requires loops { AreFunctionLoops design.now loops.now }
    ensures { IfOk result (λ r. IsLeast (called_breaks design.now) r) }
{
    let functions = design.functions.as_slice();
    let mut least = None;
    for k in 0..functions.len() {
        let one = break_if_called(alloc, design, called[k], &functions[k], &found[k], loops[k])?;
        least = lesser(least, one);
    }
    Ok(least)
}
