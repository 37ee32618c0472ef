//! Which expressions are in the form of a target.

ghost use Rattle.std.specs.Prelude.{◌≡◌};
ghost use Rattle.expr_type.specs.Names.{Context};
ghost use Rattle.typing_actions.specs.Forms.{HasForm};
ghost use Rattle.typing_actions.specs.Actuals as def;

use sv_tree::{Expr, QualifiedName, Select};

// How an expression may be a target.
#[derive(Clone, Copy)]
pub(crate) enum TargetForm<'e> {
    // A name with selects behind it.
    Name(QualifiedName, &'e [Select]),
    // A concatenation at its `{`.
    Concatenation(u32, &'e [Expr]),
    // It is none.
    Other,
}

// How an expression may be a target: nothing is cast to it.
pub(crate) fn target_form(e: &Expr) -> TargetForm<'_>
    ensures { HasForm result e.now }
{
    match e {
        Expr::Name { of, selects, cast } => match cast {
            None => TargetForm::Name(*of, selects.as_slice()),
            Some(_) => TargetForm::Other,
        },
        Expr::Concatenation { opening, items, .. } => {
            TargetForm::Concatenation(*opening, items.as_slice())
        }
        Expr::Conditional { .. } => TargetForm::Other,
        Expr::Binary { .. } => TargetForm::Other,
        Expr::Inside { .. } => TargetForm::Other,
        Expr::Unary { .. } => TargetForm::Other,
        Expr::Decimal { .. } => TargetForm::Other,
        Expr::Sized { .. } => TargetForm::Other,
        Expr::SizeCast { .. } => TargetForm::Other,
        Expr::Based { .. } => TargetForm::Other,
        Expr::Fill { .. } => TargetForm::Other,
        Expr::Parenthesized { cast, .. } => match cast {
            None => TargetForm::Other,
            Some(_) => TargetForm::Other,
        },
        Expr::Replication { .. } => TargetForm::Other,
        Expr::Stream { .. } => TargetForm::Other,
        Expr::Pattern { .. } => TargetForm::Other,
        Expr::Type { cast, .. } => match cast {
            None => TargetForm::Other,
            Some(_) => TargetForm::Other,
        },
        Expr::SigningCast { .. } => TargetForm::Other,
        Expr::SystemCall { .. } => TargetForm::Other,
        Expr::Call { cast, .. } => match cast {
            None => TargetForm::Other,
            Some(_) => TargetForm::Other,
        },
    }
}

// Whether all of some expressions are in the form of a target.
#[cycle(form)]
fn are_targets(items: &[Expr]) -> bool
    ensures { (k : Context) → result ≡ def.are_targets k items.now }
{
    for item in items {
        if !is_target(item) {
            return false;
        }
    }
    true
}

/// Whether an expression is in the form of a target: a name with selects behind it, or a concatenation of what is in that form (IEEE
/// 1800-2017 clause 13.5). What its names stand for isn't asked.
#[cycle(form)]
pub fn is_target(e: &Expr) -> bool
    ensures { (k : Context) → result ≡ def.is_target k e.now }
{
    match target_form(e) {
        TargetForm::Name(_, _) => true,
        TargetForm::Concatenation(_, items) => are_targets(items),
        TargetForm::Other => false,
    }
}
