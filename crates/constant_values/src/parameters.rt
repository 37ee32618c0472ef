//! The values of parameters.

ghost use Rattle.std.specs.Prelude.{◌≡◌, true};
ghost use Rattle.std.specs.Option.{option_copied};
ghost use Rattle.eval_runs.specs.Functions.{AllCanRun};
ghost use Rattle.sv_types.specs.declared.expression.Expr.{Expr as AnExpr};
ghost use Rattle.expr_type.specs.Answers.{Gives, source};
ghost use Rattle.expr_type.specs.Operands as rule;
ghost use Rattle.expr_type.specs.Shapes.{vector};
ghost use Rattle.expr_type.specs.Typings.{Checked, where_whole};
ghost use Rattle.expr_type.specs.Uses.{stream_marks};
ghost use Rattle.given_types.specs.Admitting.{Admits};
ghost use Rattle.pattern_laws.proofs.Order.{HereIf};
ghost use Rattle.pattern_types.specs.Meaning.{operand_of};
ghost use Rattle.stmt_laws.proofs.Values.{NoStream};
ghost use Rattle.typing_fits.specs.Operands.{SoundOperand};
ghost use Rattle.typing_fits.specs.Sound.{Sound};
ghost use Rattle.typing_fits.specs.Types.{is_full};
ghost use Rattle.constant_values.specs.Parameters.{AllGiven, FullIfThere, IsGiven, IsGivenIf, limited, of_own_type, of_range, of_type, parameter_value, short};

use crate::rules::may_stand;
use crate::runs::{runs_on, valued};
use constant_types::uses_of;
use expr_type::{Halt, Source, Valued};
use given_types::{is_above, may_give};
use pattern_types::{Operand, fitted, listed};
use std::alloc::Global;
use sv_types::{Expr, Functions, ParamValue, SvType, width};
use type_kinds::{copy_type, vector};

// The most bits of a parameter.
const MOST_BITS: u32 = 65_536;

// Where a parameter stands.
#[derive(Clone, Copy)]
pub struct Place {
    /// The token of its name.
    pub name: u32,
    /// The number of its declaration.
    pub declaration: u32,
}

// The value of a parameter of a type, which begins with the token `first`: valued within its limits (E608), and of at most 65,536
// bits (E701).
#[tactic(auto, using(crate::proofs::Giving::limits))]
fn limited(
    alloc: Global,
    text: Source<'_>,
    of: Place,
    first: u32,
    t: &SvType,
    e: &Expr,
    functions: &Functions,
) -> Result<ParamValue, Halt>
    requires functions { AllCanRun functions.now }
    requires given { IsGiven e.now t.now functions.now }
    requires plain { NoStream e.now }
    ensures { Gives result (limited (source text.entry) of first t.now functions.now e.now) }
{
    if is_above(MOST_BITS, t) {
        runs_on(alloc, text, first, e, functions)?;
        return Err(Halt::Breaks {
            at: of.name,
            rule: 701,
        });
    }
    let value = valued(alloc, text, first, t, e, functions)?;
    let t = copy_type(alloc, t)?;
    Ok(ParamValue {
        decl: of.declaration,
        of: t,
        value,
    })
}

// The value of a parameter where `other` says whether it may be given to its type.
fn value_as(
    alloc: Global,
    text: Source<'_>,
    of: Place,
    first: u32,
    t: &SvType,
    e: &Expr,
    other: Result<(), Halt>,
    functions: &Functions,
    marks: &[bool],
) -> Result<ParamValue, Halt>
    requires functions { AllCanRun functions.now }
    requires marks { marks.now ≡ stream_marks functions.now }
    requires given { IsGivenIf other e.now t.now functions.now }
    ensures { (m : Checked AnExpr) → HereIf (source text.entry) m → Admits other e.now m → Gives result (where_whole (rule.is_constant (source text.entry) first functions.now e.now m) (short (source text.entry) of t.now functions.now)) }
{
    match may_stand(alloc, text, first, e, other, functions, marks) {
        Err(halt) => Err(halt),
        Ok(()) => limited(alloc, text, of, first, t, e, functions),
    }
}

// The value of a parameter that is given a value.
fn plain_value(
    alloc: Global,
    text: Source<'_>,
    of: Place,
    t: &SvType,
    v: &Valued,
    functions: &Functions,
    marks: &[bool],
) -> Result<ParamValue, Halt>
    requires functions { AllCanRun functions.now }
    requires marks { marks.now ≡ stream_marks functions.now }
    requires sound { Sound v.now functions.now }
    ensures { Gives result (where_whole (rule.constant_given (source text.entry) t.now v.now functions.now) (short (source text.entry) of t.now functions.now)) }
{
    let other = may_give(text, t, v);
    value_as(
        alloc, text, of, v.first, t, &v.expr, other, functions, marks,
    )
}

// The value of a parameter that is given a pattern.
fn pattern_value(
    alloc: Global,
    text: Source<'_>,
    of: Place,
    tick: u32,
    t: &SvType,
    made: Result<Expr, Halt>,
    functions: &Functions,
    marks: &[bool],
) -> Result<ParamValue, Halt>
    requires functions { AllCanRun functions.now }
    requires marks { marks.now ≡ stream_marks functions.now }
    requires given { AllGiven made t.now functions.now }
    ensures { (m : Checked AnExpr) → Gives made m → Gives result (where_whole (rule.constant_pattern (source text.entry) tick m functions.now) (short (source text.entry) of t.now functions.now)) }
{
    match made {
        Err(halt) => Err(halt),
        Ok(e) => value_as(alloc, text, of, tick, t, &e, Ok(()), functions, marks),
    }
}

// A stream, which is no value of a parameter: E406 where it names a signal or a local, else E512, at its `{`.
fn stream_value(alloc: Global, text: Source<'_>, v: Valued) -> Result<ParamValue, Halt>
    ensures { Gives result (rule.constant_stream (source text.entry) v) }
{
    let uses = uses_of(alloc, &v.expr)?;
    Err(Halt::Breaks {
        at: v.first,
        rule: if uses.names { 406 } else { 512 },
    })
}

// The value of a parameter of a type.
fn of_type(
    alloc: Global,
    text: Source<'_>,
    of: Place,
    t: &SvType,
    o: Operand,
    functions: &Functions,
    marks: &[bool],
) -> Result<ParamValue, Halt>
    requires functions { AllCanRun functions.now }
    requires marks { marks.now ≡ stream_marks functions.now }
    requires full { is_full t.now ≡ true }
    requires sound { SoundOperand (operand_of (source text) o) functions.now }
    ensures { Gives result (of_type (source text.entry) of t.now (operand_of (source text.entry) o) functions.now) }
{
    match o {
        Operand::Plain(v) => plain_value(alloc, text, of, t, &v, functions, marks),
        Operand::Pattern { tick, times, items } => {
            let made = fitted(alloc, text, tick, t, listed(&tick, &times, &items));
            drop(items);
            pattern_value(alloc, text, of, tick, t, made, functions, marks)
        }
        Operand::Stream(v) => stream_value(alloc, text, v),
    }
}

// The value of a parameter that has the type of its value; a pattern has none (E505).
fn of_own_type(
    alloc: Global,
    text: Source<'_>,
    of: Place,
    o: Operand,
    functions: &Functions,
    marks: &[bool],
) -> Result<ParamValue, Halt>
    requires functions { AllCanRun functions.now }
    requires marks { marks.now ≡ stream_marks functions.now }
    requires sound { SoundOperand (operand_of (source text) o) functions.now }
    ensures { Gives result (of_own_type (source text.entry) of (operand_of (source text.entry) o) functions.now) }
{
    match o {
        Operand::Plain(v) => value_as(
            alloc,
            text,
            of,
            v.first,
            &v.expr.of,
            &v.expr,
            Ok(()),
            functions,
            marks,
        ),
        Operand::Pattern { tick, items, .. } => {
            drop(items);
            Err(Halt::Breaks {
                at: tick,
                rule: 505,
            })
        }
        Operand::Stream(v) => stream_value(alloc, text, v),
    }
}

// The value of a parameter of a sign and the range of its value.
fn plain_range(
    alloc: Global,
    text: Source<'_>,
    of: Place,
    signed: bool,
    v: &Valued,
    functions: &Functions,
    marks: &[bool],
) -> Result<ParamValue, Halt>
    requires functions { AllCanRun functions.now }
    requires marks { marks.now ≡ stream_marks functions.now }
    requires sound { Sound v.now functions.now }
    ensures { Gives result (of_type (source text.entry) of (vector (rule.width v.now) signed) (rule.Plain v.now) functions.now) }
{
    let t = vector(alloc, width(&v.expr.of), signed)?;
    plain_value(alloc, text, of, &t, v, functions, marks)
}

/// The value of a parameter of which a sign is written and no type (IEEE 1800-2017 clause 6.20.2): it has that sign and the range of what
/// it is given, which breaks the rules of `parameter_value`; a pattern has none (E505).
pub fn ranged_value(
    alloc: Global,
    text: Source<'_>,
    of: Place,
    signed: bool,
    o: Operand,
    functions: &Functions,
    marks: &[bool],
) -> Result<ParamValue, Halt>
    requires functions { AllCanRun functions.now }
    requires marks { marks.now ≡ stream_marks functions.now }
    requires sound { SoundOperand (operand_of (source text) o) functions.now }
    ensures { Gives result (of_range (source text.entry) of signed (operand_of (source text.entry) o) functions.now) }
{
    match o {
        Operand::Plain(v) => plain_range(alloc, text, of, signed, &v, functions, marks),
        Operand::Pattern { tick, items, .. } => {
            drop(items);
            Err(Halt::Breaks {
                at: tick,
                rule: 505,
            })
        }
        Operand::Stream(v) => stream_value(alloc, text, v),
    }
}

/// The value of a parameter (IEEE 1800-2017 clause 6.20): of its type, or of that of what it is given, with the functions that are
/// known and whether each holds a stream. The breaks of what it is given come first: E505 of a pattern without a type, E406 where it
/// names a signal or a local, E512 where a stream stands in it or in a function that it calls, the rules of `given_types` and
/// `pattern_types` on what may be given to the type, and E608 where a loop makes more than 65,536 turns or more than 2^20 statements
/// run. E701 at the name where the type has more than 65,536 bits.
pub fn parameter_value(
    alloc: Global,
    text: Source<'_>,
    of: Place,
    t: Option<&SvType>,
    o: Operand,
    functions: &Functions,
    marks: &[bool],
) -> Result<ParamValue, Halt>
    requires functions { AllCanRun functions.now }
    requires marks { marks.now ≡ stream_marks functions.now }
    requires full { FullIfThere (option_copied t) }
    requires sound { SoundOperand (operand_of (source text) o) functions.now }
    ensures { Gives result (parameter_value (source text.entry) of (option_copied t.entry) (operand_of (source text.entry) o) functions.now) }
{
    match t {
        None => of_own_type(alloc, text, of, o, functions, marks),
        Some(t) => of_type(alloc, text, of, t, o, functions, marks),
    }
}
