//! Enums (IEEE 1800-2017 clause 6.19).

ghost use Rattle.std.specs.Prelude.{◌≡◌, map, true, IfOk};
ghost use Rattle.expr_type.specs.Answers.{source};
ghost use Rattle.expr_type.specs.Names.{word};
ghost use Rattle.expr_type.specs.Types as types;
ghost use Rattle.sv_types.specs.Layouts.{width_of};
ghost use Rattle.routine_fits.specs.Sound.{AllSoundFunctions};
ghost use Rattle.typing_fits.specs.Operands.{AllValuesSound};
ghost use Rattle.typing_fits.specs.Sound.{Extends};
ghost use Rattle.typing_walks.specs.Keeps.{Surrounded};
ghost use Rattle.typing_walks.specs.WrittenTypes.{base_written, names_written};
ghost use Rattle.typing_parts.specs.Typists.{IsReady, MakesKnown};
ghost use Rattle.typing_scopes.specs.Scopes.{context_of};
ghost use Rattle.typing_steps.specs.Steps.{TypesTo};
ghost use Rattle.typing_declarations.specs.Naming.{AreMet, HaveWidth, enum_of, enum_name, valued, values_of};

use crate::enum_names::{Named, constant_by, names_of};
use crate::found::TypeFound;
use crate::types::base_type;
use b4_core::Vec4;
use expr_type::{Halt, Source};
use frame_things::Rows;
use std::alloc::{AllocError, Global};
use sv_source::{Boxed, Items, Text};
use sv_tree::{EnumBase, EnumName};
use sv_types::{EnumNames, ParamValue, SvType};
use typing_parts::{Known, Names};
use typing_scopes::{Base, Scope};

// The word of a token.
fn word_at(alloc: Global, text: Source<'_>, at: u32) -> Result<Text, AllocError>
    ensures { IfOk result (λ w. w ≡ word (source text.entry) at) }
{
    match sv_source::at(text.tokens, at as usize) {
        Some(token) => token.text.copy(alloc),
        None => Ok(Text::new(alloc)),
    }
}

// A name with its value.
fn enum_name(
    alloc: Global,
    text: Source<'_>,
    named: &Named,
) -> Result<sv_types::EnumName, AllocError>
    ensures { IfOk result (λ n. n ≡ enum_name (source text.entry) named.now) }
{
    let name = word_at(alloc, text, named.at)?;
    let value = Vec4::from_slice(alloc, named.bits.as_slice())?;
    Ok(sv_types::EnumName { name, value })
}

// Names with their values.
fn enum_names(alloc: Global, text: Source<'_>, met: &[Named]) -> Result<EnumNames, AllocError>
    ensures { IfOk result (λ ns. ns ≡ map (enum_name (source text.entry)) met.now) }
{
    let mut list = Items::new(alloc);
    for named in met {
        let name = enum_name(alloc, text, named)?;
        list.push(name)?;
    }
    Ok(list)
}

// The names as constants of the enum.
#[tactic(auto, using(crate::proofs::Declaring::founding))]
fn constants<B: Base>(
    alloc: Global,
    names: &Scope<'_, B>,
    of: &SvType,
    met: &[Named],
) -> Result<Rows<ParamValue>, AllocError>
    requires { HaveWidth (width_of of.now) met.now }
    ensures { IfOk result (λ vs. vs ≡ types.latest_first (map (valued (context_of B.context names.now) of.now) met.now)) }
{
    let mut values = Rows::new(alloc);
    for named in met {
        let declaration = names.declaration(named.at);
        let value = constant_by(alloc, declaration, of, &named.bits)?;
        values.push(value)?;
    }
    Ok(values)
}

// An enum by its first word, its base and its names.
#[tactic(auto, using(crate::proofs::Declaring::founding))]
fn enum_found<B: Base>(
    alloc: Global,
    names: &Scope<'_, B>,
    keyword: u32,
    base: SvType,
    met: &[Named],
) -> Result<TypeFound, AllocError>
    requires { AreMet base met.now }
    ensures { IfOk result (λ f. f ≡ types.enum_found (context_of B.context names.now) keyword base (values_of base met.now)) }
{
    let list = enum_names(alloc, names.text(), met)?;
    let of = SvType::Enum {
        id: keyword,
        base: Boxed::new(alloc, base)?,
        names: list,
    };
    let names = constants(alloc, names, &of, met)?;
    Ok(TypeFound { of, names })
}

/// An enum, before the dimensions behind it, with its names as constants. Where its base isn't whole, its names aren't looked at.
#[tactic(auto, using(crate::proofs::Declaring::enumerating))]
pub fn enumeration<B: Base, C: Fn(u32, &mut Known) -> Result<u32, Halt>>(
    alloc: Global,
    names: &Scope<'_, B>,
    needs: &C,
    keyword: u32,
    base: &Option<EnumBase>,
    list: &[EnumName],
    known: &mut Known,
) -> Result<TypeFound, Halt>
    requires needs { MakesKnown _ ((n : _) (k : _) → IsReady k.now → C.pre needs.now n k) (λ k. k.now) (C.post needs.now) (context_of B.context names.now) }
    requires names { Surrounded AllSoundFunctions (context_of B.context names.now) }
    requires base { base_written base.now ≡ true }
    requires list { names_written list.now ≡ true }
    requires ready { IsReady known.old }
    ensures value { TypesTo result (enum_of (context_of B.context names.now) keyword base.now list.now known.old.functions) known.new.functions }
    ensures sound { IfOk result (λ f. AllValuesSound f.names) }
    ensures ready { IsReady known.new }
    ensures keeps { Extends known.old.functions known.new.functions }
{
    let base = base_type(alloc, names, needs, base, known)?;
    let met = names_of(alloc, names, needs, &base, list, known)?;
    let found = enum_found(alloc, names, keyword, base, met.as_slice())?;
    Ok(found)
}
