//! What is passed to an output.

ghost use Rattle.std.specs.Prelude.{◌≡◌, true, IfOk};
ghost use Rattle.expr_type.specs.Expressions.{meaning};
ghost use Rattle.expr_type.specs.Operands as operands;
ghost use Rattle.expr_type.specs.Statements as def_stmts;
ghost use Rattle.operand_types.specs.Allowed.{IsNarrow};
ghost use Rattle.pattern_types.specs.Meaning.{operand_of};
ghost use Rattle.routine_fits.specs.Sound.{AllSoundFunctions};
ghost use Rattle.typing_calls.specs.Lists.{as_meant};
ghost use Rattle.typing_fits.specs.Sound.{Extends};
ghost use Rattle.typing_parts.specs.Typists.{IsReady, MakesKnown};
ghost use Rattle.typing_steps.specs.Steps.{TypesTo};
ghost use Rattle.typing_walks.specs.Keeps.{Surrounded};
ghost use Rattle.typing_walks.specs.Written.{is_written};
ghost use Rattle.expr_type.specs.Names.{Source};
ghost use Rattle.typing_actions.specs.Actuals as def;

use crate::actual_forms::is_target;
use crate::actual_walk::target;
use expr_type::{Halt, Valued};
use pattern_types::Operand;
use std::alloc::Global;
use sv_tree::Expr;
use typing_exprs::operand;
use typing_parts::Known;
use typing_paths::Nets;

// The first token of an operand.
fn first_of(o: &Operand) -> u32
    ensures { (k : Source) → result ≡ operands.first_of (operand_of k o.now) }
{
    match o {
        Operand::Plain(v) => v.first,
        Operand::Pattern { tick, .. } => *tick,
        Operand::Stream(v) => v.first,
    }
}

// What is in no form of a target breaks E501 at its first token.
fn no_target(o: Operand) -> Halt
    ensures { (k : Source) → result ≡ Halt.Breaks (operands.first_of (operand_of k o)) 501 }
{
    Halt::Breaks {
        at: first_of(&o),
        rule: 501,
    }
}

// What is in no form of a target, looked at as a value.
#[tactic(auto, using(crate::proofs::Refusing::refusals))]
fn refused<S: Nets, C: Fn(u32, &mut Known) -> Result<u32, Halt>>(
    alloc: Global,
    names: &S,
    needs: &C,
    e: &Expr,
    known: &mut Known,
) -> Result<Valued, Halt>
    requires needs { MakesKnown _ ((n : _) (k : _) → IsReady k.now → C.pre needs.now n k) (λ k. k.now) (C.post needs.now) (S.context names.now) }
    requires names { Surrounded AllSoundFunctions (S.context names.now) }
    requires written { is_written e.now ≡ true }
    requires ready { IsReady known.old }
    ensures value { TypesTo result (def.refused_of (S.context names.now) e.now known.old.functions) known.new.functions }
    ensures narrow { IfOk result IsNarrow }
    ensures ready { IsReady known.new }
    ensures keeps { Extends known.old.functions known.new.functions }
{
    let o = operand(alloc, names, needs, e, known)?;
    Err(no_target(o))
}

/// What is passed to an output or inout, as the target that is assigned to behind the call (IEEE 1800-2017 clauses 13.3 and 13.5): a
/// name with selects behind it, or a concatenation of such. Its first break in the order of the text counts: besides those of
/// `typing_paths::named_target` for statements, E501 at the name where it is a net of an interface, an unpacked part of a
/// concatenation (E508), and more than 65,536 bits (E701). What isn't in that form is looked at as a value, and breaks E501 at its first
/// token.
pub fn actual_target<S: Nets, C: Fn(u32, &mut Known) -> Result<u32, Halt>>(
    alloc: Global,
    names: &S,
    needs: &C,
    e: &Expr,
    known: &mut Known,
) -> Result<Valued, Halt>
    requires needs { MakesKnown _ ((n : _) (k : _) → IsReady k.now → C.pre needs.now n k) (λ k. k.now) (C.post needs.now) (S.context names.now) }
    requires names { Surrounded AllSoundFunctions (S.context names.now) }
    requires written { is_written e.now ≡ true }
    requires ready { IsReady known.old }
    ensures value { TypesTo (as_meant def.actual_of result) (def_stmts.as_target (S.context names.now) (meaning e.now) known.old.functions) known.new.functions }
    ensures narrow { IfOk result IsNarrow }
    ensures ready { IsReady known.new }
    ensures keeps { Extends known.old.functions known.new.functions }
{
    if is_target(e) {
        target(alloc, names, needs, e, known)
    } else {
        refused(alloc, names, needs, e, known)
    }
}
