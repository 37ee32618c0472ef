//! Functions that calls may name.

ghost use Rattle.eval_runs.specs.Functions.{AllCanRun};

use std::alloc::Global;
use sv_types::Functions;

/// No functions.
pub fn no_functions(alloc: Global) -> Functions
    ensures { AllCanRun result }
{
    Functions::new(alloc)
}
