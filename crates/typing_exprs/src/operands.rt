//! Streams, and operands in parentheses.

ghost use Rattle.std.specs.Prelude.{◌≡◌, List};
ghost use Rattle.sv_types.specs.declared.statement.Function.{Function};
ghost use Rattle.expr_type.specs.declared.operand.Valued.{Valued};
ghost use Rattle.expr_type.specs.Operands as rule;
ghost use Rattle.expr_type.specs.Operands.{Stream, parenthesized};
ghost use Rattle.pattern_types.specs.Meaning.{operand_of};
ghost use Rattle.expr_type.specs.Names as names;
ghost use Rattle.expr_type.specs.Typings.{Typing, checked, whole};
ghost use Rattle.typing_steps.specs.Steps.{TypesTo};
ghost use Rattle.typing_operators.specs.TypingParts.{as_operand};

use expr_type::{Halt, Valued};
use pattern_types::Operand;

/// A stream as an operand.
#[tactic(auto, using(crate::proofs::FormsPutting::streams))]
pub fn as_stream(v: Result<Valued, Halt>) -> Result<Operand, Halt>
    ensures { (k : names.Source) (x : Typing Valued) (fs gs : List Function) → TypesTo v (x fs) gs → TypesTo (as_operand k result) (checked x (λ v. whole (Stream v)) fs) gs }
{
    match v {
        Ok(v) => Ok(Operand::Stream(v)),
        Err(halt) => Err(halt),
    }
}

// An operand in parentheses, which begins at the `(`.
#[tactic(auto, using(crate::proofs::FormsPutting::parens))]
fn in_parentheses(opening: u32, o: Operand) -> Operand
    ensures { (k : names.Source) → operand_of k result ≡ parenthesized opening (operand_of k o) }
{
    match o {
        Operand::Plain(v) => {
            let Valued {
                first,
                is_unsized,
                expr,
                arithmetic,
                ..
            } = v;
            Operand::Plain(Valued {
                first,
                begins: opening,
                is_unsized,
                expr,
                arithmetic,
            })
        }
        Operand::Pattern { tick, times, items } => Operand::Pattern { tick, times, items },
        Operand::Stream(v) => Operand::Stream(v),
    }
}

/// `(value)`, which begins at its `(`.
#[tactic(auto, using(crate::proofs::FormsPutting::parenthesizing))]
pub fn as_parenthesized(opening: u32, inner: Result<Operand, Halt>) -> Result<Operand, Halt>
    ensures { (k : names.Source) (x : Typing rule.Operand) (fs gs : List Function) → TypesTo (as_operand k inner) (x fs) gs → TypesTo (as_operand k result) (checked x (λ o. whole (parenthesized opening o)) fs) gs }
{
    match inner {
        Ok(o) => Ok(in_parentheses(opening, o)),
        Err(halt) => Err(halt),
    }
}
