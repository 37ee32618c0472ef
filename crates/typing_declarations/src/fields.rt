//! Members of structs and unions by their names (IEEE 1800-2017 clauses 7.2 and 7.3).

ghost use Rattle.std.specs.Prelude.{◌≡◌, ◌++◌, ◌∷◌, [], List, true};
ghost use Rattle.std.specs.Option.{option_copied};
ghost use Rattle.sv_types.specs.declared.statement.Function.{Function};
ghost use Rattle.expr_type.specs.Types as means;
ghost use Rattle.expr_type.specs.Typings.{Typing, all};
ghost use Rattle.routine_fits.specs.Sound.{AllSoundFunctions};
ghost use Rattle.typing_fits.specs.Sound.{Extends};
ghost use Rattle.typing_walks.specs.Keeps.{Surrounded};
ghost use Rattle.typing_walks.specs.WrittenTypes.{name_written};
ghost use Rattle.typing_parts.specs.Typists.{IsReady, MakesKnown};
ghost use Rattle.typing_steps.specs.Steps.{TypesTo};
ghost use Rattle.typing_declarations.specs.Texts.{AddsTo, field_by, fields_by, fields_written};

use crate::dims;
use expr_type::Halt;
use std::alloc::Global;
use sv_source::Items;
use sv_tree::DimensionedName;
use sv_types::SvType;
use type_kinds::copy_type;
use type_texts::{Field, field_of};
use typing_parts::{Known, Names};
use typing_values::behind_quiet;

/// A member of a type, if that is whole, with the dimensions behind its name. In a packed struct or union it is packed (E404).
#[tactic(auto, using(crate::proofs::FieldRows::fielding))]
pub fn field<S: Names, C: Fn(u32, &mut Known) -> Result<u32, Halt>>(
    alloc: Global,
    names: &S,
    needs: &C,
    inside_packed: bool,
    of: Option<&SvType>,
    name: &DimensionedName,
    known: &mut Known,
) -> Result<Field, Halt>
    requires needs { MakesKnown _ ((n : _) (k : _) → IsReady k.now → C.pre needs.now n k) (λ k. k.now) (C.post needs.now) (S.context names.now) }
    requires names { Surrounded AllSoundFunctions (S.context names.now) }
    requires written { name_written name.now ≡ true }
    requires ready { IsReady known.old }
    ensures value { TypesTo result (field_by (S.context names.now) inside_packed (option_copied of.entry) name.now known.old.functions) known.new.functions }
    ensures ready { IsReady known.new }
    ensures keeps { Extends known.old.functions known.new.functions }
{
    let dims = dims(alloc, names, needs, name.unpacked.as_slice(), known)?;
    match of {
        None => Err(Halt::Quiet),
        Some(t) => {
            let t = copy_type(alloc, t)?;
            field_of(
                alloc,
                names.text(),
                inside_packed,
                name.name,
                dims.as_slice(),
                t,
            )
        }
    }
}

// One more member behind others that are whole.
fn with_last(mut fields: Items<Field>, last: Result<Field, Halt>) -> Result<Items<Field>, Halt>
    ensures { AddsTo fields last result }
{
    match last {
        Ok(field) => {
            fields.push(field)?;
            Ok(fields)
        }
        Err(halt) => Err(halt),
    }
}

// One more member behind others: where these aren't whole and break nothing, it is looked at for its breaks.
#[tactic(auto, using(typing_steps::proofs::Turns::turns))]
fn next_field<S: Names, C: Fn(u32, &mut Known) -> Result<u32, Halt>>(
    alloc: Global,
    names: &S,
    needs: &C,
    inside_packed: bool,
    of: Option<&SvType>,
    fields: Result<Items<Field>, Halt>,
    name: &DimensionedName,
    known: &mut Known,
) -> Result<Items<Field>, Halt>
    requires needs { MakesKnown _ ((n : _) (k : _) → IsReady k.now → C.pre needs.now n k) (λ k. k.now) (C.post needs.now) (S.context names.now) }
    requires names { Surrounded AllSoundFunctions (S.context names.now) }
    requires written { name_written name.now ≡ true }
    requires ready { IsReady known.old }
    ensures value { (xs : List (Typing means.Field)) (fs : List Function) → TypesTo fields (all xs fs) known.old.functions → TypesTo result (all (xs ++ field_by (S.context names.now) inside_packed (option_copied of.entry) name.now ∷ []) fs) known.new.functions }
    ensures ready { IsReady known.new }
    ensures keeps { Extends known.old.functions known.new.functions }
{
    match fields {
        Ok(made) => with_last(
            made,
            field(alloc, names, needs, inside_packed, of, name, known),
        ),
        Err(Halt::Memory) => Err(Halt::Memory),
        Err(Halt::Breaks { at, rule }) => Err(Halt::Breaks { at, rule }),
        Err(Halt::Quiet) => {
            Err(behind_quiet(field(alloc, names, needs, inside_packed, of, name, known)))
        }
    }
}

/// Members of one type, if that is whole, in the order of the text.
pub fn named_fields<S: Names, C: Fn(u32, &mut Known) -> Result<u32, Halt>>(
    alloc: Global,
    names: &S,
    needs: &C,
    inside_packed: bool,
    of: Option<&SvType>,
    list: &[DimensionedName],
    known: &mut Known,
) -> Result<Items<Field>, Halt>
    requires needs { MakesKnown _ ((n : _) (k : _) → IsReady k.now → C.pre needs.now n k) (λ k. k.now) (C.post needs.now) (S.context names.now) }
    requires names { Surrounded AllSoundFunctions (S.context names.now) }
    requires written { fields_written list.now ≡ true }
    requires ready { IsReady known.old }
    ensures value { TypesTo result (fields_by (S.context names.now) inside_packed (option_copied of.entry) list.now known.old.functions) known.new.functions }
    ensures ready { IsReady known.new }
    ensures keeps { Extends known.old.functions known.new.functions }
{
    let mut fields = Ok(Items::new(alloc));
    for name in list {
        fields = next_field(alloc, names, needs, inside_packed, of, fields, name, known);
    }
    fields
}
