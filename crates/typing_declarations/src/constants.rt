//! Constants and types of blocks (IEEE 1800-2017 clause 6.20).

ghost use Rattle.std.specs.Prelude.{◌≡◌, true};
ghost use Rattle.expr_type.specs.Answers.{Gives, source};
ghost use Rattle.expr_type.specs.Statements as statement;
ghost use Rattle.pattern_types.specs.Meaning.{operand_of};
ghost use Rattle.routine_fits.specs.Sound.{AllSoundFunctions};
ghost use Rattle.typing_fits.specs.Operands.{SoundOperand};
ghost use Rattle.typing_fits.specs.Sound.{Extends};
ghost use Rattle.typing_parts.specs.Typists.{IsReady, MakesKnown};
ghost use Rattle.typing_steps.specs.Steps.{TypesTo};
ghost use Rattle.typing_walks.specs.Keeps.{Surrounded};
ghost use Rattle.typing_scopes.specs.Scopes.{context_of};
ghost use Rattle.typing_calls.specs.Lists.{as_meant};
ghost use Rattle.typing_walks.specs.WrittenTypes.{initial_written};
ghost use Rattle.stmt_laws.specs.Sound.{WrittenFull};
ghost use Rattle.stmt_laws.specs.Written.{declarator_written};
ghost use Rattle.typing_declarations.specs.Declaring.{as_value, typed_param, written_param};
ghost use Rattle.typing_declarations.specs.Kinds.{written_of};

use crate::block_types::{WrittenType, with_dimensions};
use crate::operand;
use crate::operands::{looked_at, written_type};
use constant_values::{Place, parameter_value, ranged_value};
use expr_type::{Halt, Source};
use pattern_types::Operand;
use std::alloc::Global;
use sv_tree::{Declarator, Initializer, Signing};
use sv_types::{ParamType, ParamValue};
use typing_parts::{Known, Names};
use typing_scopes::{Base, Scope};

// The value of a constant by what is written of its type.
fn written_value(
    alloc: Global,
    text: Source<'_>,
    of: Place,
    t: &WrittenType,
    o: Operand,
    known: &Known,
) -> Result<ParamValue, Halt>
    requires ready { IsReady known.now }
    requires full { WrittenFull (written_of t.now) }
    requires sound { SoundOperand (operand_of (source text) o) known.now.functions }
    ensures { Gives result (written_param (source text.entry) of (written_of t.now) (operand_of (source text.entry) o) known.now.functions) }
{
    let functions = &known.functions;
    let marks = known.marks.as_slice();
    match t {
        WrittenType::OfValue(None) => {
            parameter_value(alloc, text, of, None, o, functions, marks)
        }
        WrittenType::OfValue(Some(Signing::Signed(_))) => {
            ranged_value(alloc, text, of, true, o, functions, marks)
        }
        WrittenType::OfValue(Some(Signing::Unsigned(_))) => {
            ranged_value(alloc, text, of, false, o, functions, marks)
        }
        WrittenType::OfType(t) => parameter_value(alloc, text, of, Some(t), o, functions, marks),
    }
}

/// A constant of a type, or of that of its value, at its name: E405 where it has no value, the rules of `constant_values` on the value,
/// and E701 where it has more than 65,536 bits.
#[tactic(auto, using(typing_parts::proofs::Keeping::keepings))]
pub(crate) fn constant<B: Base, C: Fn(u32, &mut Known) -> Result<u32, Halt>>(
    alloc: Global,
    names: &Scope<'_, B>,
    needs: &C,
    at: u32,
    t: &WrittenType,
    initial: &Option<Initializer>,
    known: &mut Known,
) -> Result<ParamValue, Halt>
    requires needs { MakesKnown _ ((n : _) (k : _) → IsReady k.now → C.pre needs.now n k) (λ k. k.now) (C.post needs.now) (context_of B.context names.now) }
    requires names { Surrounded AllSoundFunctions (context_of B.context names.now) }
    requires written { initial_written initial.now ≡ true }
    requires full { WrittenFull (written_of t.now) }
    requires ready { IsReady known.old }
    ensures value { TypesTo (as_meant as_value result) (statement.constant (context_of B.context names.now) at (written_of t.now) initial.now known.old.functions) known.new.functions }
    ensures ready { IsReady known.new }
    ensures keeps { Extends known.old.functions known.new.functions }
{
    let Some(i) = initial else {
        return Err(Halt::Breaks { at, rule: 405 });
    };
    let o = operand(alloc, names, needs, &i.value, known)?;
    let place = Place {
        name: at,
        declaration: names.declaration(at),
    };
    written_value(alloc, names.text(), place, t, o, known)
}

/// A constant of a type with the dimensions behind its name. Where that isn't whole and breaks nothing, its value is looked at by itself.
#[tactic(auto, using(typing_parts::proofs::Keeping::keepings))]
pub(crate) fn constant_under<B: Base, C: Fn(u32, &mut Known) -> Result<u32, Halt>>(
    alloc: Global,
    names: &Scope<'_, B>,
    needs: &C,
    t: &WrittenType,
    d: &Declarator,
    known: &mut Known,
) -> Result<ParamValue, Halt>
    requires needs { MakesKnown _ ((n : _) (k : _) → IsReady k.now → C.pre needs.now n k) (λ k. k.now) (C.post needs.now) (context_of B.context names.now) }
    requires names { Surrounded AllSoundFunctions (context_of B.context names.now) }
    requires written { declarator_written d.now ≡ true }
    requires full { WrittenFull (written_of t.now) }
    requires ready { IsReady known.old }
    ensures value { TypesTo (as_meant as_value result) (statement.by_dimensions (context_of B.context names.now) d.now (written_of t.now) known.old.functions) known.new.functions }
    ensures ready { IsReady known.new }
    ensures keeps { Extends known.old.functions known.new.functions }
{
    match with_dimensions(alloc, names, needs, t, d.unpacked.as_slice(), known) {
        Ok(u) => constant(alloc, names, needs, d.name, &u, &d.initial, known),
        Err(Halt::Quiet) => Err(looked_at(alloc, names, needs, &d.initial, known)),
        Err(Halt::Memory) => Err(Halt::Memory),
        Err(Halt::Breaks { at, rule }) => Err(Halt::Breaks { at, rule }),
    }
}

/// A parameter that is a type, at its name: E405 where it has none.
#[tactic(auto, using(typing_parts::proofs::Keeping::keepings))]
pub(crate) fn named_type<B: Base, C: Fn(u32, &mut Known) -> Result<u32, Halt>>(
    alloc: Global,
    names: &Scope<'_, B>,
    needs: &C,
    at: u32,
    initial: &Option<Initializer>,
    known: &mut Known,
) -> Result<ParamType, Halt>
    requires needs { MakesKnown _ ((n : _) (k : _) → IsReady k.now → C.pre needs.now n k) (λ k. k.now) (C.post needs.now) (context_of B.context names.now) }
    requires names { Surrounded AllSoundFunctions (context_of B.context names.now) }
    requires written { initial_written initial.now ≡ true }
    requires ready { IsReady known.old }
    ensures value { TypesTo (as_meant typed_param result) (statement.type_parameter (context_of B.context names.now) at initial.now known.old.functions) known.new.functions }
    ensures ready { IsReady known.new }
    ensures keeps { Extends known.old.functions known.new.functions }
{
    let Some(i) = initial else {
        return Err(Halt::Breaks { at, rule: 405 });
    };
    let of = written_type(alloc, names, needs, &i.value, known)?;
    match of {
        None => Err(Halt::Quiet),
        Some(t) => Ok(ParamType {
            decl: names.declaration(at),
            of: t,
        }),
    }
}
