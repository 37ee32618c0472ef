//! `return` with a value.

ghost use Rattle.std.specs.Prelude.{◌≡◌, [], ◌∷◌, false, IfOk};
ghost use Rattle.std.specs.Option.{option_copied};
ghost use Rattle.expr_type.specs.Answers.{Gives, source};
ghost use Rattle.expr_type.specs.Names.{Context, spot};
ghost use Rattle.expr_type.specs.Operators as operator;
ghost use Rattle.expr_type.specs.Statements as statement;
ghost use Rattle.sv_types.specs.declared.expression.Form.TheVariants as form;
ghost use Rattle.sv_types.specs.declared.statement.Stmt.TheVariants as made;
ghost use Rattle.pattern_types.specs.Giving.{IsNarrowStream};
ghost use Rattle.pattern_types.specs.Meaning.{operand_of};

use expr_type::{Halt, Source};
use operand_types::{by_itself, spot_at};
use pattern_types::{Operand, given};
use std::alloc::{AllocError, Global};
use sv_types::{Expr, Exprs, Form, Locals, Stmt, Stmts, SvType};
use type_kinds::copy_type;

// The result of a function as a target.
fn result_of(alloc: Global, text: Source<'_>, at: u32, of: &SvType) -> Result<Exprs, AllocError>
    ensures { IfOk result (λ es. es ≡ operator.expr_at (source text.entry) at of.now (form.Local 0) ∷ []) }
{
    let of = copy_type(alloc, of)?;
    let to = by_itself(alloc, text, at, of, Form::Local(0))?;
    let mut made = Exprs::new(alloc);
    made.push(to.expr)?;
    Ok(made)
}

// A value that is assigned to the result.
fn result_assigned(
    alloc: Global,
    text: Source<'_>,
    at: u32,
    of: &SvType,
    value: Expr,
) -> Result<Stmt, AllocError>
    ensures { IfOk result (λ s. s ≡ made.Assign (operator.expr_at (source text.entry) at of.now (form.Local 0) ∷ []) value false (spot (source text.entry) at)) }
{
    let to = pairs::both(result_of(alloc, text, at, of), spot_at(alloc, text, at));
    let ((to, spot), value) = pairs::both(to, Ok(value))?;
    Ok(Stmt::Assign {
        to,
        value,
        later: false,
        spot,
    })
}

// A statement and a `return` behind it.
fn then_return(alloc: Global, s: Stmt) -> Result<Stmt, AllocError>
    ensures { IfOk result (λ t. t ≡ made.Block [] (s ∷ made.Return ∷ [])) }
{
    let mut body = Stmts::new(alloc);
    body.push(s)?;
    body.push(Stmt::Return)?;
    Ok(Stmt::Block {
        locals: Locals::new(alloc),
        body,
    })
}

/// A `return` at its word of a value, in a function with a result of a type (IEEE 1800-2017 clauses 12.8 and 13.4.1): the value is
/// given to the result, and the function ends. Where there is no result the declaration is broken.
#[tactic(auto, using(crate::proofs::Returning::returning))]
pub fn return_value(
    alloc: Global,
    text: Source<'_>,
    at: u32,
    of: Option<&SvType>,
    o: Operand,
) -> Result<Stmt, Halt>
    requires { IsNarrowStream o }
    ensures { (k : Context) → source text.entry ≡ k.source → Gives result (statement.return_value k at (option_copied of.entry) (operand_of k.source o)) }
{
    match of {
        None => Err(Halt::Quiet),
        Some(of) => {
            let value = given(alloc, text, of, o)?;
            let made = result_assigned(alloc, text, at, of, value)?;
            Ok(then_return(alloc, made)?)
        }
    }
}
