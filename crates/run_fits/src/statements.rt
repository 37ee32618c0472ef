//! Whether statements can be run.

ghost use Rattle.eval_parts.specs.Steps.{is_held};
ghost use Rattle.eval_forms.specs.Callees.{formals_in};
ghost use Rattle.run_fits.specs.Statements.{StmtIf, StmtsIf, PerhapsIf, ItemsIf};

use crate::expressions::{assign_fits, bounds_fit, call_fits, case_fits, locals_fit};
use b4_core::Vec4;
use expr_fits::{fits_alone, formals_of};
use sv_source::Boxed;
use sv_types::{CaseItem, Function, Stmt};

/// Whether a statement can be run where these signals are held, each in the slot of its number. It says so of nothing that
/// stands for a replaced call.
#[cycle(statements)]
#[tactic(auto, using(crate::proofs::Shapes::shapes))]
pub fn stmt_fits(s: &Stmt, functions: &[Function], held: &[Option<Vec4>]) -> bool
    ensures { StmtIf result s.now (formals_in functions.now) (is_held held.now) }
{
    match s {
        Stmt::Block { locals, body } => {
            if !locals_fit(locals.as_slice(), functions) {
                return false;
            }
            all_fit(body.as_slice(), functions, held)
        }
        Stmt::If { on, body, other } => {
            if !fits_alone(on, functions) {
                return false;
            }
            if !stmt_fits(body.get(), functions, held) {
                return false;
            }
            perhaps_fits(other, functions, held)
        }
        Stmt::Case {
            on,
            items,
            other,
            ..
        } => {
            if !case_fits(on, items.as_slice(), functions) {
                return false;
            }
            if !items_fit(items.as_slice(), functions, held) {
                return false;
            }
            perhaps_fits(other, functions, held)
        }
        Stmt::Loop {
            first,
            test,
            step,
            body,
            ..
        } => {
            if !bounds_fit(first, test, step, functions) {
                return false;
            }
            stmt_fits(body.get(), functions, held)
        }
        Stmt::Assign { to, value, .. } => assign_fits(to.as_slice(), value, functions, held),
        Stmt::Call {
            function,
            actuals,
            ..
        } => {
            let formals = formals_of(functions, *function);
            call_fits(formals, actuals.as_slice(), functions, held)
        }
        Stmt::Made { .. } => false,
        Stmt::Break => true,
        Stmt::Continue => true,
        Stmt::Return => true,
    }
}

// Whether all of them can.
#[cycle(statements)]
fn all_fit(ss: &[Stmt], functions: &[Function], held: &[Option<Vec4>]) -> bool
    ensures { StmtsIf result ss.now (formals_in functions.now) (is_held held.now) }
{
    for s in ss {
        if !stmt_fits(s, functions, held) {
            return false;
        }
    }
    true
}

// Whether a statement can that may be left out.
#[cycle(statements)]
fn perhaps_fits(s: &Option<Boxed<Stmt>>, functions: &[Function], held: &[Option<Vec4>]) -> bool
    ensures { PerhapsIf result s.now (formals_in functions.now) (is_held held.now) }
{
    match s {
        None => true,
        Some(s) => stmt_fits(s.get(), functions, held),
    }
}

// Whether the bodies of items can.
#[cycle(statements)]
fn items_fit(items: &[CaseItem], functions: &[Function], held: &[Option<Vec4>]) -> bool
    ensures { ItemsIf result items.now (formals_in functions.now) (is_held held.now) }
{
    for item in items {
        if !stmt_fits(&item.body, functions, held) {
            return false;
        }
    }
    true
}
