//! Whether functions can be run.

ghost use Rattle.eval_forms.specs.Callees.{formals_in};
ghost use Rattle.run_fits.specs.Statements.{CanRunIf, EachRunsIf};

use crate::statements::stmt_fits;
use expr_fits::are_narrow;
use sv_types::{Function, is_narrow};

/// Whether a function can be run.
#[tactic(auto, using(crate::proofs::Parts::functions))]
pub fn can_run(f: &Function, functions: &[Function]) -> bool
    ensures { CanRunIf result f.now (formals_in functions.now) }
{
    if !are_narrow(f.formals.as_slice()) {
        return false;
    }
    if !is_narrow(&f.of) {
        return false;
    }
    stmt_fits(&f.body, functions, &[])
}

/// Whether all functions can be run.
pub fn all_can_run(functions: &[Function]) -> bool
    ensures { EachRunsIf result functions.now (formals_in functions.now) }
{
    for f in functions {
        if !can_run(f, functions) {
            return false;
        }
    }
    true
}
