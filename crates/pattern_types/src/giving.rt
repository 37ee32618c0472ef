//! What is given to targets of a type.

ghost use Rattle.std.specs.Prelude.{◌≡◌};
ghost use Rattle.expr_type.specs.Answers.{Gives, source};
ghost use Rattle.expr_type.specs.Operands as rule;
ghost use Rattle.expr_type.specs.declared.halt.Halt.TheVariants.{Breaks};
ghost use Rattle.pattern_types.specs.Giving.{IsNarrowStream};
ghost use Rattle.pattern_types.specs.Meaning.{fitted_in, operand_of, parts_in, pattern_of};

use crate::building::build_pattern;
use crate::looking::look_at_pattern;
use crate::looks::passes;
use crate::operand::{Operand, Parts, listed};
use expr_type::{Halt, Source, Valued};
use given_types::{is_given, is_streamed};
use std::alloc::Global;
use sv_types::{Expr, SvType};

/// A pattern that is given to a type (IEEE 1800-2017 clause 10.9), as an expression that begins with the token `at`: of a struct what
/// each member is given, the first one first, of an array what each element is given, the leftmost one first. Where it isn't whole it
/// breaks, in this order, the rules on names in a key; E505 at its `'` where its items don't cover the members or elements once each;
/// the first rule that an item breaks, in the order of the text, in any member or element that it is given to; and E701 at its `'`
/// where the type has more than 65,536 bits.
pub fn fitted(
    alloc: Global,
    text: Source<'_>,
    at: u32,
    t: &SvType,
    p: Parts<'_>,
) -> Result<Expr, Halt>
    ensures { Gives result (fitted_in (source text.entry) (pattern_of (source text.entry) (parts_in p.entry)) at t.now) }
{
    passes(look_at_pattern(alloc, text, t, p)?)?;
    build_pattern(alloc, text, at, t, p)
}

// That a stream can't stand somewhere.
fn no_stream(value: Valued) -> Halt
    ensures { result ≡ Breaks value.first 512 }
{
    let at = value.first;
    drop(value);
    Halt::Breaks { at, rule: 512 }
}

/// What is given to a target of a type by an assignment (IEEE 1800-2017 clauses 6.19.3, 10.8 and 11.4.14): a value, a pattern, or a
/// stream of at most 65,536 bits.
pub fn given(alloc: Global, text: Source<'_>, t: &SvType, v: Operand) -> Result<Expr, Halt>
    requires { IsNarrowStream v }
    ensures { Gives result (rule.given (source text.entry) t.now (operand_of (source text.entry) v)) }
{
    match v {
        Operand::Plain(value) => is_given(text, t, value),
        Operand::Pattern { tick, times, items } => {
            let made = fitted(alloc, text, tick, t, listed(&tick, &times, &items));
            drop(items);
            made
        }
        Operand::Stream(value) => is_streamed(text, t, value),
    }
}

/// What is given where no stream can stand (E512): as an item of a pattern, as an actual, and in the head of a loop.
pub fn passed(alloc: Global, text: Source<'_>, t: &SvType, v: Operand) -> Result<Expr, Halt>
    ensures { Gives result (rule.passed (source text.entry) t.now (operand_of (source text.entry) v)) }
{
    match v {
        Operand::Plain(value) => is_given(text, t, value),
        Operand::Pattern { tick, times, items } => {
            let made = fitted(alloc, text, tick, t, listed(&tick, &times, &items));
            drop(items);
            made
        }
        Operand::Stream(value) => Err(no_stream(value)),
    }
}

/// An operand to which no type is given: a pattern has none there (E505), and a stream can't stand there (E512).
pub fn is_value(text: Source<'_>, v: Operand) -> Result<Valued, Halt>
    ensures { Gives result (rule.is_value (source text.entry) (operand_of (source text.entry) v)) }
{
    match v {
        Operand::Plain(value) => Ok(value),
        Operand::Pattern { tick, items, .. } => {
            drop(items);
            Err(Halt::Breaks {
                at: tick,
                rule: 505,
            })
        }
        Operand::Stream(value) => Err(no_stream(value)),
    }
}
