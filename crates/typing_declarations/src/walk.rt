//! The walk over types that stand in one another.

ghost use Rattle.std.specs.Prelude.{◌≡◌, map, true, IfOk};
ghost use Rattle.expr_type.specs.Types as means;
ghost use Rattle.routine_fits.specs.Sound.{AllSoundFunctions};
ghost use Rattle.typing_fits.specs.Operands.{AllValuesSound};
ghost use Rattle.typing_fits.specs.Sound.{Extends};
ghost use Rattle.typing_walks.specs.Keeps.{Surrounded};
ghost use Rattle.typing_walks.specs.WrittenTypes.{type_written};
ghost use Rattle.typing_parts.specs.Typists.{IsReady, MakesKnown};
ghost use Rattle.typing_scopes.specs.Ahead.{mapped};
ghost use Rattle.typing_scopes.specs.Scopes.{context_of};
ghost use Rattle.typing_steps.specs.Steps.{TypesTo};
ghost use Rattle.typing_declarations.specs.Texts.{member_meaning, member_written, members_written};

use crate::members::{FieldsFound, member_of, none_made, put_members, structure};
use crate::packed::with_packed;
use crate::{TypeFound, enumeration, implicit, keyword, named_with};
use expr_type::Halt;
use std::alloc::Global;
use sv_tree::{Member, TypeText};
use sv_types::SvType;
use typing_parts::{Known, Names};
use typing_scopes::{Base, Scope};

// A type whose text declares no names.
fn alone(alloc: Global, of: Result<SvType, Halt>) -> Result<TypeFound, Halt>
    ensures value { result ≡ mapped means.only of }
    ensures sound { IfOk result (λ f. AllValuesSound f.names) }
{
    match of {
        Ok(of) => Ok(TypeFound::only(alloc, of)),
        Err(halt) => Err(halt),
    }
}

// Members of one type.
#[cycle(types)]
fn member<B: Base, C: Fn(u32, &mut Known) -> Result<u32, Halt>>(
    alloc: Global,
    names: &Scope<'_, B>,
    needs: &C,
    inside_packed: bool,
    m: &Member,
    known: &mut Known,
) -> Result<FieldsFound, Halt>
    requires needs { MakesKnown _ ((n : _) (k : _) → IsReady k.now → C.pre needs.now n k) (λ k. k.now) (C.post needs.now) (context_of B.context names.now) }
    requires names { Surrounded AllSoundFunctions (context_of B.context names.now) }
    requires written { member_written m.now ≡ true }
    requires ready { IsReady known.old }
    ensures value { TypesTo result (member_meaning m.now (context_of B.context names.now) inside_packed known.old.functions) known.new.functions }
    ensures sound { IfOk result (λ f. AllValuesSound f.names) }
    ensures ready { IsReady known.new }
    ensures keeps { Extends known.old.functions known.new.functions }
{
    let found = typed_text(alloc, names, needs, &m.of, known);
    let list = m.names.as_slice();
    member_of(alloc, names, needs, inside_packed, found, list, known)
}

// All members, what their types declare standing for its value behind each.
#[cycle(types)]
fn members<B: Base, C: Fn(u32, &mut Known) -> Result<u32, Halt>>(
    alloc: Global,
    names: &Scope<'_, B>,
    needs: &C,
    inside_packed: bool,
    list: &[Member],
    known: &mut Known,
) -> Result<FieldsFound, Halt>
    requires needs { MakesKnown _ ((n : _) (k : _) → IsReady k.now → C.pre needs.now n k) (λ k. k.now) (C.post needs.now) (context_of B.context names.now) }
    requires names { Surrounded AllSoundFunctions (context_of B.context names.now) }
    requires written { members_written list.now ≡ true }
    requires ready { IsReady known.old }
    ensures value { TypesTo result (means.all_fields (context_of B.context names.now) inside_packed (map member_meaning list.now) known.old.functions) known.new.functions }
    ensures sound { IfOk result (λ f. AllValuesSound f.names) }
    ensures ready { IsReady known.new }
    ensures keeps { Extends known.old.functions known.new.functions }
{
    let mut inner = Scope::inside(alloc, &*names);
    let mut made = none_made(alloc);
    for m in list {
        let found = member(alloc, &inner, needs, inside_packed, m, known);
        put_members(&mut inner, &mut made, found)?;
    }
    if made.quiet {
        return Err(Halt::Quiet);
    }
    Ok(FieldsFound {
        fields: made.fields,
        names: inner.into_values(),
    })
}

/// The type that a text stands for, with the names of enums that it declares (IEEE 1800-2017 clause 6.18). Its first break in the order
/// of the text counts.
#[cycle(types)]
pub fn typed_text<B: Base, C: Fn(u32, &mut Known) -> Result<u32, Halt>>(
    alloc: Global,
    names: &Scope<'_, B>,
    needs: &C,
    t: &TypeText,
    known: &mut Known,
) -> Result<TypeFound, Halt>
    requires needs { MakesKnown _ ((n : _) (k : _) → IsReady k.now → C.pre needs.now n k) (λ k. k.now) (C.post needs.now) (context_of B.context names.now) }
    requires names { Surrounded AllSoundFunctions (context_of B.context names.now) }
    requires written { type_written t.now ≡ true }
    requires ready { IsReady known.old }
    ensures value { TypesTo result (means.typed_text t.now (context_of B.context names.now) known.old.functions) known.new.functions }
    ensures sound { IfOk result (λ f. AllValuesSound f.names) }
    ensures ready { IsReady known.new }
    ensures keeps { Extends known.old.functions known.new.functions }
{
    match t {
        TypeText::Keyword { of, packed } => {
            let packed = packed.as_slice();
            let found = keyword(alloc, names, needs, *of, packed, known);
            alone(alloc, found)
        }
        TypeText::Structure {
            aggregate,
            packing,
            members: list,
            packed,
            ..
        } => {
            let list = list.as_slice();
            let packed = packed.as_slice();
            let inside = packing.is_some();
            let fields = members(alloc, names, needs, inside, list, known);
            let found = structure(alloc, names.text(), *aggregate, *packing, fields);
            with_packed(alloc, names, needs, found, packed, known)
        }
        TypeText::Enumeration {
            keyword: word,
            base,
            names: list,
            packed,
            ..
        } => {
            let list = list.as_slice();
            let packed = packed.as_slice();
            let found = enumeration(alloc, names, needs, *word, base, list, known);
            with_packed(alloc, names, needs, found, packed, known)
        }
        TypeText::Named { of, packed } => {
            let packed = packed.as_slice();
            let found = named_with(alloc, names, needs, *of, packed, known);
            alone(alloc, found)
        }
        TypeText::Implicit { signing, packed } => {
            let packed = packed.as_slice();
            let found = implicit(alloc, names, needs, *signing, packed, known);
            alone(alloc, found)
        }
    }
}
