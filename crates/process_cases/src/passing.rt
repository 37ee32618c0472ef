//! Whether calls of tasks and void functions pass no more than there are formals.

ghost use Rattle.std.specs.Prelude.{◌≡◌, nat_le, length, map};
ghost use Rattle.eval_forms.specs.Callees.{formals_in};
ghost use Rattle.expr_flows.specs.Full.{every};
ghost use Rattle.full_calls.specs.Full.{FullIf};
ghost use Rattle.unroll_laws.specs.Passing as P;

use expr_fits::formals_of;
use sv_source::Boxed;
use sv_types::{CaseItem, Function, Stmt};

// Whether a function has so many formals.
#[tactic(auto, using(crate::proofs::Few::counts))]
fn takes(functions: &[Function], function: u32, count: usize) -> bool
    ensures { result ≡ nat_le count (length (formals_in functions.now function)) }
{
    count <= formals_of(functions, function).len()
}

/// Whether no call of a task or void function in a statement does. It says so of nothing that stands for a replaced call.
#[cycle(passing)]
#[tactic(auto, using(crate::proofs::Few::statements))]
pub fn passes_few(s: &Stmt, functions: &[Function]) -> bool
    ensures { FullIf result (P.passes_few (formals_in functions.now) s.now) }
{
    match s {
        Stmt::Block { body, .. } => all_pass_few(body.as_slice(), functions),
        Stmt::If { body, other, .. } => {
            passes_few(body.get(), functions) && perhaps_passes_few(other, functions)
        }
        Stmt::Case { items, other, .. } => {
            items_pass_few(items.as_slice(), functions) && perhaps_passes_few(other, functions)
        }
        Stmt::Loop { body, .. } => passes_few(body.get(), functions),
        Stmt::Assign { .. } => true,
        Stmt::Call {
            function,
            actuals,
            ..
        } => takes(functions, *function, actuals.len()),
        Stmt::Made { .. } => false,
        Stmt::Break => true,
        Stmt::Continue => true,
        Stmt::Return => true,
    }
}

#[cycle(passing)]
fn all_pass_few(ss: &[Stmt], functions: &[Function]) -> bool
    ensures { FullIf result (P.all_pass_few (formals_in functions.now) ss.now) }
{
    for s in ss {
        if !passes_few(s, functions) {
            return false;
        }
    }
    true
}

#[cycle(passing)]
fn perhaps_passes_few(s: &Option<Boxed<Stmt>>, functions: &[Function]) -> bool
    ensures { FullIf result (P.perhaps_passes_few (formals_in functions.now) s.now) }
{
    match s {
        None => true,
        Some(s) => passes_few(s.get(), functions),
    }
}

#[cycle(passing)]
fn items_pass_few(items: &[CaseItem], functions: &[Function]) -> bool
    ensures { FullIf result (every (map (P.item_passes_few (formals_in functions.now)) items.now)) }
{
    for item in items {
        if !passes_few(&item.body, functions) {
            return false;
        }
    }
    true
}
