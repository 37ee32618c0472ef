//! Constants and constant numbers (IEEE 1800-2017 clauses 11.2.1 and 11.5.1).

ghost use Rattle.std.specs.Prelude.{◌≡◌, pos, IfOk};
ghost use Rattle.expr_type.specs.Answers.{Gives, source};
ghost use Rattle.expr_type.specs.Expressions.{is_count};
ghost use Rattle.expr_type.specs.Operands as rule;
ghost use Rattle.pattern_types.specs.Meaning.{operand_of};
ghost use Rattle.pattern_types.specs.declared.operand.Operand.TheVariants as O;
ghost use Rattle.select_types.specs.Selected.{IsWidth};
ghost use Rattle.typing_fits.specs.Sound.{Extends};
ghost use Rattle.typing_steps.specs.Steps.{TypesTo};
ghost use Rattle.typing_parts.specs.Typists.{CanType, FitsOperand, IsReady};
ghost use Rattle.typing_values.specs.Numbers.{CanBeValued, NumberIsWithin, bound_of, constant_of, count_of, number_of, operand_number, width_of};

use constant_types::{number_in, uses_of};
use expr_type::{Halt, Number, Source, Valued};
use pattern_types::Operand;
use std::alloc::Global;
use sv_tree::Expr;
use typing_parts::{Known, Names};

/// The greatest size and count.
pub const MOST_OF_SIZE: i64 = 4_294_967_295;

/// A stream as a constant: E406 where it names a signal or a local, else E512, at its `{`.
pub fn constant_stream(alloc: Global, text: Source<'_>, v: Valued) -> Result<Valued, Halt>
    ensures { Gives result (rule.constant_stream (source text.entry) v) }
{
    let uses = uses_of(alloc, &v.expr)?;
    Err(Halt::Breaks {
        at: v.first,
        rule: if uses.names { 406 } else { 512 },
    })
}

/// An operand where a constant is wanted, before anything is asked of its value: no pattern (E505) and no stream (E406 or E512).
pub fn as_constant(alloc: Global, text: Source<'_>, o: Operand) -> Result<Valued, Halt>
    ensures value { Gives result (rule.is_constant_value (source text.entry) (operand_of (source text.entry) o)) }
    ensures plain { IfOk result (λ v. o ≡ O.Plain v) }
{
    match o {
        Operand::Plain(v) => Ok(v),
        Operand::Pattern { tick, items, .. } => {
            drop(items);
            Err(Halt::Breaks {
                at: tick,
                rule: 505,
            })
        }
        Operand::Stream(v) => constant_stream(alloc, text, v),
    }
}

/// An expression where a constant is wanted.
#[tactic(auto, using(crate::proofs::Putting::constants))]
pub fn constant<S: Names, F: Fn(&Expr, &mut Known) -> Result<Operand, Halt>>(
    alloc: Global,
    names: &S,
    typed: &F,
    e: &Expr,
    known: &mut Known,
) -> Result<Valued, Halt>
    requires can { CanType _ _ (λ e. e.now) (λ k. k.now) (F.pre typed.now) (F.post typed.now) (S.context names.now) e.now }
    requires ready { IsReady known.old }
    ensures value { TypesTo result (constant_of (S.context names.now) e.now known.old.functions) known.new.functions }
    ensures fits { IfOk result (CanBeValued known.new.functions) }
    ensures ready { IsReady known.new }
    ensures keeps { Extends known.old.functions known.new.functions }
{
    let o = typed(e, known)?;
    as_constant(alloc, names.text(), o)
}

/// The number of a value in a range (E411), by the rules on constants (E406, E508, E512 and E608).
#[tactic(auto, using(crate::proofs::Putting::running))]
pub fn number_of_value<S: Names>(
    alloc: Global,
    names: &S,
    low: i64,
    high: i64,
    v: &Valued,
    known: &Known,
) -> Result<Number, Halt>
    requires ready { IsReady known.now }
    requires fits { CanBeValued known.now.functions v.now }
    ensures value { Gives result (rule.is_number_in (S.context names.now).source low high v.now known.now.functions) }
    ensures within { IfOk result (NumberIsWithin low high) }
{
    number_in(
        alloc,
        names.text(),
        low,
        high,
        v,
        &known.functions,
        known.marks.as_slice(),
    )
}

/// The number of an operand that is typed already, in a range.
#[tactic(auto, using(crate::proofs::Putting::steps))]
pub fn number_of_operand<S: Names>(
    alloc: Global,
    names: &S,
    low: i64,
    high: i64,
    o: Operand,
    known: &Known,
) -> Result<Number, Halt>
    requires ready { IsReady known.now }
    requires fits { FitsOperand o known.now.functions }
    ensures value { Gives result (operand_number (S.context names.now).source low high (operand_of (S.context names.now).source o) known.now.functions) }
    ensures within { IfOk result (NumberIsWithin low high) }
{
    let v = as_constant(alloc, names.text(), o)?;
    number_of_value(alloc, names, low, high, &v, known)
}

/// A constant number from `low` to `high`.
#[tactic(auto, using(crate::proofs::Putting::steps))]
pub fn number<S: Names, F: Fn(&Expr, &mut Known) -> Result<Operand, Halt>>(
    alloc: Global,
    names: &S,
    typed: &F,
    low: i64,
    high: i64,
    e: &Expr,
    known: &mut Known,
) -> Result<Number, Halt>
    requires can { CanType _ _ (λ e. e.now) (λ k. k.now) (F.pre typed.now) (F.post typed.now) (S.context names.now) e.now }
    requires ready { IsReady known.old }
    ensures value { TypesTo result (number_of (S.context names.now) low high e.now known.old.functions) known.new.functions }
    ensures within { IfOk result (NumberIsWithin low high) }
    ensures ready { IsReady known.new }
    ensures keeps { Extends known.old.functions known.new.functions }
{
    let v = constant(alloc, names, typed, e, known)?;
    number_of_value(alloc, names, low, high, &v, known)
}

/// A bound of a select or a dimension.
pub fn bound<S: Names, F: Fn(&Expr, &mut Known) -> Result<Operand, Halt>>(
    alloc: Global,
    names: &S,
    typed: &F,
    e: &Expr,
    known: &mut Known,
) -> Result<Number, Halt>
    requires can { CanType _ _ (λ e. e.now) (λ k. k.now) (F.pre typed.now) (F.post typed.now) (S.context names.now) e.now }
    requires ready { IsReady known.old }
    ensures value { TypesTo result (bound_of (S.context names.now) e.now known.old.functions) known.new.functions }
    ensures ready { IsReady known.new }
    ensures keeps { Extends known.old.functions known.new.functions }
{
    number(alloc, names, typed, i64::MIN, i64::MAX, e, known)
}

/// The width of a part-select from an index.
#[tactic(auto, using(crate::proofs::Putting::widths))]
pub fn width<S: Names, F: Fn(&Expr, &mut Known) -> Result<Operand, Halt>>(
    alloc: Global,
    names: &S,
    typed: &F,
    e: &Expr,
    known: &mut Known,
) -> Result<Number, Halt>
    requires can { CanType _ _ (λ e. e.now) (λ k. k.now) (F.pre typed.now) (F.post typed.now) (S.context names.now) e.now }
    requires ready { IsReady known.old }
    ensures value { TypesTo result (width_of (S.context names.now) e.now known.old.functions) known.new.functions }
    ensures within { IfOk result (λ n. IsWidth n.number) }
    ensures ready { IsReady known.new }
    ensures keeps { Extends known.old.functions known.new.functions }
{
    number(alloc, names, typed, 1, MOST_OF_SIZE, e, known)
}

// A number as how often something is repeated (E510).
fn as_count(text: Source<'_>, n: Number) -> Result<u32, Halt>
    requires { NumberIsWithin (pos 0) (pos 4294967295) n }
    ensures { Gives result (is_count (source text.entry) n) }
{
    if n.number == 0 {
        return Err(Halt::Breaks {
            at: n.first,
            rule: 510,
        });
    }
    Ok(n.number as u32)
}

/// How often something is repeated: at least once (E510).
#[tactic(auto, using(crate::proofs::Putting::steps))]
pub fn count<S: Names, F: Fn(&Expr, &mut Known) -> Result<Operand, Halt>>(
    alloc: Global,
    names: &S,
    typed: &F,
    e: &Expr,
    known: &mut Known,
) -> Result<u32, Halt>
    requires can { CanType _ _ (λ e. e.now) (λ k. k.now) (F.pre typed.now) (F.post typed.now) (S.context names.now) e.now }
    requires ready { IsReady known.old }
    ensures value { TypesTo result (count_of (S.context names.now) e.now known.old.functions) known.new.functions }
    ensures ready { IsReady known.new }
    ensures keeps { Extends known.old.functions known.new.functions }
{
    let n = number(alloc, names, typed, 0, MOST_OF_SIZE, e, known)?;
    as_count(names.text(), n)
}
