//! What is given to targets.

ghost use Rattle.std.specs.Prelude.{◌≡◌};
ghost use Rattle.expr_type.specs.Answers.{Gives};
ghost use Rattle.expr_type.specs.Names.{Source};
ghost use Rattle.expr_type.specs.Operands as rule;
ghost use Rattle.expr_type.specs.Targets as def;
ghost use Rattle.pattern_types.specs.Meaning.{operand_of};
ghost use Rattle.typing_parts.specs.Typists.{IsNarrowOperand};
ghost use Rattle.typing_assigns.specs.Giving.{Forbids, plain_first, sooner_than_enum};
ghost use Rattle.typing_assigns.specs.Parts.{IsNarrowTarget};
ghost use Rattle.typing_assigns.specs.Targets.{StandsFor};
ghost use Rattle.operand_types.specs.Allowed.{IsNarrow};

use crate::target::Target;
use expr_type::{Halt, Valued};
use pattern_types::{Operand, given, passed};
use std::alloc::Global;
use sv_types::{Expr, SvType, width};
use type_kinds::is_unpacked;
use typing_parts::Names;

// What is given to a path.
fn given_to_path<S: Names>(alloc: Global, names: &S, t: &SvType, o: Operand) -> Result<Expr, Halt>
    requires { IsNarrowOperand o }
    ensures { Gives result (rule.given (S.context names.now).source t.now (operand_of (S.context names.now).source o)) }
{
    given(alloc, names.text(), t, o)
}

// Whether a break comes before that of an enum, which stands at the first token of what is given.
fn is_sooner(at: u32, rule: u16, first: u32) -> bool
    ensures { result ≡ sooner_than_enum at rule first }
{
    at < first || (at == first && rule < 503)
}

// What is given to a concatenation of targets: where one of them is an enum it breaks E503 at the first token of what is given, unless
// another break comes before that.
fn no_enum(has_enum: bool, first: u32, made: Result<Expr, Halt>) -> Result<Expr, Halt>
    ensures { Forbids has_enum first made result }
{
    if !has_enum {
        return made;
    }
    match made {
        Ok(_) => Err(Halt::Breaks {
            at: first,
            rule: 503,
        }),
        Err(Halt::Memory) => Err(Halt::Memory),
        Err(Halt::Quiet) => Err(Halt::Breaks {
            at: first,
            rule: 503,
        }),
        Err(Halt::Breaks { at, rule }) => {
            if is_sooner(at, rule, first) {
                Err(Halt::Breaks { at, rule })
            } else {
                Err(Halt::Breaks {
                    at: first,
                    rule: 503,
                })
            }
        }
    }
}

// The first token of an operand that is no stream.
#[tactic(auto, using(pattern_types::proofs::Levels::operands))]
fn plain_first(o: &Operand) -> Option<u32>
    ensures { (k : Source) → result ≡ plain_first (operand_of k o.now) }
{
    match o {
        Operand::Plain(v) => Some(v.first),
        Operand::Pattern { tick, .. } => Some(*tick),
        Operand::Stream(_) => None,
    }
}

// What is given to a concatenation of targets.
fn given_to_parts<S: Names>(
    alloc: Global,
    names: &S,
    t: &SvType,
    has_enum: bool,
    o: Operand,
) -> Result<Expr, Halt>
    requires { IsNarrowOperand o }
    ensures { Gives result (def.given_to_parts (S.context names.now).source t.now has_enum (operand_of (S.context names.now).source o)) }
{
    let text = names.text();
    match plain_first(&o) {
        None => given_to_path(alloc, names, t, o),
        Some(first) => no_enum(has_enum, first, passed(alloc, text, t, o)),
    }
}

// What is given to a stream of targets: it has as many bits at least.
#[tactic(auto, using(pattern_types::proofs::Levels::operands))]
fn has_enough<S: Names>(names: &S, to: &Valued, o: Operand) -> Result<Expr, Halt>
    requires target { IsNarrow to.now }
    requires narrow { IsNarrowOperand o }
    ensures { Gives result (def.has_enough (S.context names.now) to.now (operand_of (S.context names.now).source o)) }
{
    match o {
        Operand::Plain(v) => {
            if width(&v.expr.of) < width(&to.expr.of) {
                return Err(Halt::Breaks {
                    at: to.first,
                    rule: 501,
                });
            }
            if is_unpacked(&v.expr.of) {
                return Err(Halt::Breaks {
                    at: v.first,
                    rule: 501,
                });
            }
            Ok(v.expr)
        }
        Operand::Pattern { tick, items, .. } => {
            drop(items);
            Err(Halt::Breaks {
                at: tick,
                rule: 505,
            })
        }
        Operand::Stream(v) => {
            if width(&v.expr.of) < width(&to.expr.of) {
                return Err(Halt::Breaks {
                    at: to.first,
                    rule: 501,
                });
            }
            Ok(v.expr)
        }
    }
}

/// What is assigned to a target, as its value (IEEE 1800-2017 clauses 6.19.3, 10.8 and 11.4.14): to a path as an assignment gives it; to
/// the parts of a concatenation as to their bits, of which none is an enum's (E503) unless a stream is given; to a stream what has as
/// many bits at least (E501), and no pattern (E505).
#[tactic(auto, using(crate::proofs::Enums::assigns))]
pub fn assigned<S: Names>(alloc: Global, names: &S, to: &Target, o: Operand) -> Result<Expr, Halt>
    requires target { IsNarrowTarget to.now }
    requires narrow { IsNarrowOperand o }
    ensures { (d : def.Target) → StandsFor to.now d → Gives result (def.assigned (S.context names.now) d (operand_of (S.context names.now).source o)) }
{
    match to {
        Target::Path(of) => given_to_path(alloc, names, &of.expr.of, o),
        Target::Parts { of, has_enum } => given_to_parts(alloc, names, &of.expr.of, *has_enum, o),
        Target::Stream(of) => has_enough(names, of, o),
    }
}
