//! What flows ask of statements.

ghost use Rattle.eval_forms.specs.Callees.{formals_in};
ghost use Rattle.stmt_flows_tests.specs.Anywhere.{AnywhereIf};

use b4_core::Vec4;
use run_fits::stmt_fits;
use sv_types::{Function, Stmt};

/// Whether a statement keeps the limits of its run; it says so of none that writes another signal than these.
pub fn fits_anywhere(s: &Stmt, functions: &[Function], held: &[Option<Vec4>]) -> bool
    ensures { AnywhereIf result s.now (formals_in functions.now) }
{
    if !stmt_fits(s, functions, held) {
        return false;
    }
    true
}
