//! What is passed to formals.

ghost use Rattle.std.specs.Prelude.{◌≡◌, map, slice_get};
ghost use Rattle.expr_type.specs.Answers.{Gives, source};
ghost use Rattle.expr_type.specs.Forms as form;
ghost use Rattle.pattern_types.specs.Meaning.{operand_of};
ghost use Rattle.sv_tree.specs.Extents.{qualified_first};
ghost use Rattle.typing_calls.specs.Calls.{CallsAt, passed_in};

use crate::lists::{all_made, followed};
use expr_type::{Halt, Source, Valued};
use pattern_types::{Operand, passed};
use std::alloc::Global;
use sv_tree::QualifiedName;
use sv_types::{Expr, Exprs, Formal, Function};
use typing_parts::{Known, Names};
use typing_values::called;

/// Actuals as they are passed to formals, as far as there are both: what each formal's type is given (IEEE 1800-2017 clause 13.5).
pub fn passed_all(
    alloc: Global,
    text: Source<'_>,
    formals: &[Formal],
    operands: Vec<Operand>,
) -> Result<Exprs, Halt>
    ensures { Gives result (passed_in (source text.entry) formals.now (map (operand_of (source text.entry)) operands.items)) }
{
    let mut made: Result<Vec<Expr>, Halt> = Ok(Vec::new(alloc));
    for (formal, operand) in formals.iter().zip(operands) {
        made = followed(made, passed(alloc, text, &formal.local.of, operand));
    }
    all_made(made)
}

// A call of a function at a place.
#[tactic(auto, using(crate::proofs::Zipping::wholes))]
fn call_of(
    alloc: Global,
    text: Source<'_>,
    of: QualifiedName,
    place: u32,
    function: &Function,
    operands: Vec<Operand>,
) -> Result<Valued, Halt>
    ensures { Gives result (form.call_of (source text.entry) (qualified_first of) of.name (record { place = place; of = function.now }) (map (operand_of (source text.entry)) operands.items)) }
{
    if function.formals.len() != operands.len() {
        return Err(Halt::Breaks {
            at: of.name,
            rule: 405,
        });
    }
    let passed = passed_all(alloc, text, function.formals.as_slice(), operands)?;
    Ok(called(alloc, text, of.first_token(), place, &function.of, passed)?)
}

/// A call of the function at a place, as an expression that begins with the name: it has as many formals as there are actuals (E405 at
/// the name), and each is passed to its formal.
pub fn called_with<S: Names>(
    alloc: Global,
    names: &S,
    of: QualifiedName,
    place: u32,
    operands: Vec<Operand>,
    known: &Known,
) -> Result<Valued, Halt>
    ensures { CallsAt (S.context names.now).source of place (slice_get known.now.functions place) (map (operand_of (S.context names.now).source) operands.items) result }
{
    match known.functions.get(place as usize) {
        None => Err(Halt::Quiet),
        Some(function) => call_of(alloc, names.text(), of, place, function, operands),
    }
}
