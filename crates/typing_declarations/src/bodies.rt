//! Parameters of blocks, each behind those before it.

ghost use Rattle.std.specs.Prelude.{◌≡◌, None, true};
ghost use Rattle.std.specs.Option.{option_copied};
ghost use Rattle.sv_tree.specs.declared.declarations.ParameterBody.TheVariants as body;
ghost use Rattle.expr_type.specs.Statements as statement;
ghost use Rattle.expr_type.specs.Statements.{Declared as Described};
ghost use Rattle.expr_type.specs.Typings.{Typed};
ghost use Rattle.routine_fits.specs.Sound.{AllSoundFunctions};
ghost use Rattle.typing_fits.specs.Sound.{Extends};
ghost use Rattle.typing_parts.specs.Typists.{IsReady, MakesKnown};
ghost use Rattle.typing_steps.specs.Steps.{TypesTo};
ghost use Rattle.typing_walks.specs.Keeps.{Surrounded};
ghost use Rattle.typing_scopes.specs.Scopes.{context_of};
ghost use Rattle.typing_scopes.specs.Scopes.{means};
ghost use Rattle.typing_calls.specs.Lists.{as_meant};
ghost use Rattle.typing_walks.specs.WrittenTypes.{initial_written, type_written};
ghost use Rattle.stmt_laws.specs.Sound.{KindFull, WrittenFull};
ghost use Rattle.stmt_laws.specs.Written.{bodies_written, body_written, declarator_written};
ghost use Rattle.typing_declarations.specs.Blocks.{declared};
ghost use Rattle.typing_declarations.specs.Kinds.{kind_of, parameter_of, parted, written_of};
ghost use Rattle.typing_declarations.specs.Rows.{AheadBy};

use crate::block::{Block, Part};
use crate::block_types::{WrittenType, is_unwritten, type_or_before};
use crate::constants::{constant_under, named_type};
use expr_type::Halt;
use frame_things::Rows;
use std::alloc::Global;
use sv_tree::{Declarator, Initializer, ParameterBody, TypeText};
use typing_parts::Known;
use typing_scopes::{Base, Declared, Scope};

/// What a parameter is, which the next one is too where nothing is written before its name.
#[derive(Drop)]
pub enum Kind {
    /// A type.
    Type,
    /// A value, by what is written of its type.
    Value(WrittenType),
}

/// A parameter: what it is, and what it brings in.
#[derive(Drop)]
pub struct Parameter {
    /// What it is.
    pub kind: Kind,
    /// What it brings in.
    pub part: Part,
}

// A parameter that is a type.
fn type_parameter<B: Base, C: Fn(u32, &mut Known) -> Result<u32, Halt>>(
    alloc: Global,
    names: &Scope<'_, B>,
    needs: &C,
    at: u32,
    initial: &Option<Initializer>,
    known: &mut Known,
) -> Result<Parameter, Halt>
    requires needs { MakesKnown _ ((n : _) (k : _) → IsReady k.now → C.pre needs.now n k) (λ k. k.now) (C.post needs.now) (context_of B.context names.now) }
    requires names { Surrounded AllSoundFunctions (context_of B.context names.now) }
    requires written { initial_written initial.now ≡ true }
    requires ready { IsReady known.old }
    ensures value { TypesTo (as_meant parameter_of result) (statement.type_parameter (context_of B.context names.now) at initial.now known.old.functions) known.new.functions }
    ensures ready { IsReady known.new }
    ensures keeps { Extends known.old.functions known.new.functions }
{
    let named = named_type(alloc, names, needs, at, initial, known)?;
    Ok(Parameter {
        kind: Kind::Type,
        part: Part::Type(named),
    })
}

// A parameter that is a value.
#[tactic(auto, using(typing_parts::proofs::Keeping::keepings))]
fn value_parameter<B: Base, C: Fn(u32, &mut Known) -> Result<u32, Halt>>(
    alloc: Global,
    names: &Scope<'_, B>,
    needs: &C,
    before: WrittenType,
    of: &TypeText,
    d: &Declarator,
    known: &mut Known,
) -> Result<Parameter, Halt>
    requires needs { MakesKnown _ ((n : _) (k : _) → IsReady k.now → C.pre needs.now n k) (λ k. k.now) (C.post needs.now) (context_of B.context names.now) }
    requires names { Surrounded AllSoundFunctions (context_of B.context names.now) }
    requires type_written { type_written of.now ≡ true }
    requires written { declarator_written d.now ≡ true }
    requires full { WrittenFull (written_of before) }
    requires ready { IsReady known.old }
    ensures value { TypesTo (as_meant parameter_of result) (statement.value_parameter (context_of B.context names.now) (written_of before) of.now d.now known.old.functions) known.new.functions }
    ensures ready { IsReady known.new }
    ensures keeps { Extends known.old.functions known.new.functions }
{
    let t = type_or_before(alloc, names, needs, before, of, known)?;
    let value = constant_under(alloc, names, needs, &t, d, known)?;
    Ok(Parameter {
        kind: Kind::Value(t),
        part: Part::Value(value),
    })
}

// A parameter with a declarator, by what the one before is: a type where that is one and nothing is written before its name.
fn declared_parameter<B: Base, C: Fn(u32, &mut Known) -> Result<u32, Halt>>(
    alloc: Global,
    names: &Scope<'_, B>,
    needs: &C,
    before: Kind,
    of: &TypeText,
    d: &Declarator,
    known: &mut Known,
) -> Result<Parameter, Halt>
    requires needs { MakesKnown _ ((n : _) (k : _) → IsReady k.now → C.pre needs.now n k) (λ k. k.now) (C.post needs.now) (context_of B.context names.now) }
    requires names { Surrounded AllSoundFunctions (context_of B.context names.now) }
    requires type_written { type_written of.now ≡ true }
    requires written { declarator_written d.now ≡ true }
    requires full { KindFull (kind_of before) }
    requires ready { IsReady known.old }
    ensures value { TypesTo (as_meant parameter_of result) (statement.parameter (context_of B.context names.now) (kind_of before) (body.Value of.now d.now) known.old.functions) known.new.functions }
    ensures ready { IsReady known.new }
    ensures keeps { Extends known.old.functions known.new.functions }
{
    match before {
        Kind::Value(t) => value_parameter(alloc, names, needs, t, of, d, known),
        Kind::Type => {
            if is_unwritten(of) {
                type_parameter(alloc, names, needs, d.name, &d.initial, known)
            } else {
                value_parameter(
                    alloc,
                    names,
                    needs,
                    WrittenType::OfValue(None),
                    of,
                    d,
                    known,
                )
            }
        }
    }
}

// A parameter by its text and what the one before is.
fn one_parameter<B: Base, C: Fn(u32, &mut Known) -> Result<u32, Halt>>(
    alloc: Global,
    names: &Scope<'_, B>,
    needs: &C,
    before: Kind,
    body: &ParameterBody,
    known: &mut Known,
) -> Result<Parameter, Halt>
    requires needs { MakesKnown _ ((n : _) (k : _) → IsReady k.now → C.pre needs.now n k) (λ k. k.now) (C.post needs.now) (context_of B.context names.now) }
    requires names { Surrounded AllSoundFunctions (context_of B.context names.now) }
    requires written { body_written body.now ≡ true }
    requires full { KindFull (kind_of before) }
    requires ready { IsReady known.old }
    ensures value { TypesTo (as_meant parameter_of result) (statement.parameter (context_of B.context names.now) (kind_of before) body.now known.old.functions) known.new.functions }
    ensures ready { IsReady known.new }
    ensures keeps { Extends known.old.functions known.new.functions }
{
    match body {
        ParameterBody::Type { name, initial, .. } => {
            type_parameter(alloc, names, needs, *name, initial, known)
        }
        ParameterBody::Value { of, declarator } => {
            declared_parameter(alloc, names, needs, before, of, declarator, known)
        }
    }
}

// What the next parameter takes, and what this one brings in.
fn parted(p: Result<Parameter, Halt>) -> (Kind, Result<Part, Halt>)
    ensures { parted p result }
{
    match p {
        Ok(Parameter { kind, part }) => (kind, Ok(part)),
        Err(halt) => (Kind::Value(WrittenType::OfValue(None)), Err(halt)),
    }
}

// Parameters behind other declarations, each with what the one before it is: what a row gives of which these are the rest.
#[tactic(auto, using(typing_parts::proofs::Keeping::keepings))]
fn all_parameters<'s, B: Base, C: Fn(u32, &mut Known) -> Result<u32, Halt>>(
    alloc: Global,
    front: Block<'s, B>,
    needs: &C,
    bodies: &[ParameterBody],
    known: &mut Known,
) -> Result<Declared, Halt>
    requires needs { MakesKnown _ ((n : _) (k : _) → IsReady k.now → C.pre needs.now n k) (λ k. k.now) (C.post needs.now) (context_of B.context front.scope) }
    requires names { Surrounded AllSoundFunctions (context_of B.context front.scope) }
    requires written { bodies_written bodies.now ≡ true }
    requires ready { IsReady known.old }
    ensures value { (row : Typed Described) → AheadBy true (declared front.entry) (statement.parameters (context_of B.context front.entry.scope) (statement.IsValue (statement.OfValue None)) bodies.now) row known.old.functions → TypesTo (as_meant means result) row known.new.functions }
    ensures ready { IsReady known.new }
    ensures keeps { Extends known.old.functions known.new.functions }
{
    let mut block = front;
    let mut before = Kind::Value(WrittenType::OfValue(None));
    let mut whole = true;
    for body in bodies {
        let p = one_parameter(alloc, &block.scope, needs, before, body, known);
        let (kind, part) = parted(p);
        before = kind;
        whole = block.take(whole, part)?;
    }
    block.ended(whole)
}

/// Parameters of a block, each behind those before it (IEEE 1800-2017 clause 6.20): what they bring in, the latest first, or the first
/// break in the order of the text.
pub fn parameters<B: Base, C: Fn(u32, &mut Known) -> Result<u32, Halt>>(
    alloc: Global,
    names: &Scope<'_, B>,
    needs: &C,
    bodies: &[ParameterBody],
    known: &mut Known,
) -> Result<Declared, Halt>
    requires needs { MakesKnown _ ((n : _) (k : _) → IsReady k.now → C.pre needs.now n k) (λ k. k.now) (C.post needs.now) (context_of B.context names.now) }
    requires names { Surrounded AllSoundFunctions (context_of B.context names.now) }
    requires written { bodies_written bodies.now ≡ true }
    requires ready { IsReady known.old }
    ensures value { TypesTo (as_meant means result) (statement.parameters (context_of B.context names.now) (statement.IsValue (statement.OfValue None)) bodies.now known.old.functions) known.new.functions }
    ensures ready { IsReady known.new }
    ensures keeps { Extends known.old.functions known.new.functions }
{
    let block = Block::new(alloc, names, Rows::new(alloc));
    all_parameters(alloc, block, needs, bodies, known)
}
