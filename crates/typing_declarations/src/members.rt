//! Members of structs and unions, one text after the other (IEEE 1800-2017 clauses 7.2 and 7.3).

ghost use Rattle.std.specs.Prelude.{◌≡◌, ◌∷◌, [], List, false, true, Ok, OnOk, IfOk};
ghost use Rattle.sv_types.specs.declared.statement.Function.{Function};
ghost use Rattle.expr_type.specs.Answers.{Gives, source};
ghost use Rattle.expr_type.specs.Types as means;
ghost use Rattle.expr_type.specs.Typings.{Typed, Typing};
ghost use Rattle.routine_fits.specs.Sound.{AllSoundFunctions};
ghost use Rattle.typing_fits.specs.Operands.{AllValuesSound};
ghost use Rattle.typing_fits.specs.Sound.{Extends};
ghost use Rattle.typing_walks.specs.Keeps.{Surrounded};
ghost use Rattle.typing_parts.specs.Typists.{IsReady, MakesKnown};
ghost use Rattle.typing_scopes.specs.Scopes.{context_of, own_values};
ghost use Rattle.typing_steps.specs.Steps.{TypesTo};
ghost use Rattle.typing_declarations.specs.Naming.{Reaches};
ghost use Rattle.typing_declarations.specs.Texts.{FieldsAhead, fields_written, member_by, struct_by};

use crate::TypeFound;
use crate::fields::named_fields;
use expr_type::{Halt, Source};
use frame_things::Rows;
use std::alloc::Global;
use std::marker::Model;
use sv_source::Items;
use sv_tree::{Aggregate, DimensionedName, Packing};
use sv_types::{ParamValue, SvType};
use type_texts::{Field, struct_of, union_of};
use typing_parts::Known;
use typing_scopes::{Base, Scope};
use typing_values::behind_quiet;

/// Members of a struct or a union, and the values of the enum names that their types declare. Contracts see them as `expr_type` has
/// them, the latest name first.
#[derive(Drop)]
pub(crate) struct FieldsFound {
    /// The members, in the order of the text.
    pub fields: Items<Field>,
    /// The names.
    pub names: Rows<ParamValue>,
}

impl Model for FieldsFound {
    ghost use Rattle.expr_type.specs.Types as types;
    ghost use Rattle.std.specs.Coded.{codes};
    ghost use Rattle.sv_types.specs.contracts.types.SvType as t;
    ghost use Rattle.sv_types.specs.contracts.types.Value as v;

    ghost Value = { types.Fields };

    ghost view = { λ f. record { fields = f.fields; names = f.names } };

    ghost coded = { Prim.hlevel (codes, t.the_row.coded, v.the_row.coded) };
}

/// Members that were met, and whether some aren't whole.
#[derive(Drop)]
pub(crate) struct Made {
    /// The members, in the order of the text.
    pub fields: Items<Field>,
    /// Whether some aren't whole.
    pub quiet: bool,
}

// Members of a type, in whose dimensions the names that its text declares stand for their values.
#[tactic(auto, using(crate::proofs::FieldJoining::members))]
fn members_behind<B: Base, C: Fn(u32, &mut Known) -> Result<u32, Halt>>(
    alloc: Global,
    names: &Scope<'_, B>,
    needs: &C,
    inside_packed: bool,
    found: TypeFound,
    list: &[DimensionedName],
    known: &mut Known,
) -> Result<FieldsFound, Halt>
    requires needs { MakesKnown _ ((n : _) (k : _) → IsReady k.now → C.pre needs.now n k) (λ k. k.now) (C.post needs.now) (context_of B.context names.now) }
    requires names { Surrounded AllSoundFunctions (context_of B.context names.now) }
    requires sound { AllValuesSound found.names }
    requires written { fields_written list.now ≡ true }
    requires ready { IsReady known.old }
    ensures value { (x : Typing means.TypeFound) (fs : List Function) → TypesTo (Ok found) (x fs) known.old.functions → TypesTo result (member_by (context_of B.context names.now) inside_packed x list.now fs) known.new.functions }
    ensures sound { IfOk result (λ f. AllValuesSound f.names) }
    ensures ready { IsReady known.new }
    ensures keeps { Extends known.old.functions known.new.functions }
{
    let TypeFound {
        of,
        names: declared,
    } = found;
    let mut inner = Scope::inside(alloc, names);
    inner.add_values(declared)?;
    let of = Some(&of);
    let fields = named_fields(alloc, &inner, needs, inside_packed, of, list, known)?;
    Ok(FieldsFound {
        fields,
        names: inner.into_values(),
    })
}

/// Members of one type: where that isn't whole and breaks nothing, the dimensions behind the names are looked at.
#[tactic(auto, using(crate::proofs::FieldJoining::members))]
pub(crate) fn member_of<B: Base, C: Fn(u32, &mut Known) -> Result<u32, Halt>>(
    alloc: Global,
    names: &Scope<'_, B>,
    needs: &C,
    inside_packed: bool,
    found: Result<TypeFound, Halt>,
    list: &[DimensionedName],
    known: &mut Known,
) -> Result<FieldsFound, Halt>
    requires needs { MakesKnown _ ((n : _) (k : _) → IsReady k.now → C.pre needs.now n k) (λ k. k.now) (C.post needs.now) (context_of B.context names.now) }
    requires names { Surrounded AllSoundFunctions (context_of B.context names.now) }
    requires sound { IfOk found (λ f. AllValuesSound f.names) }
    requires written { fields_written list.now ≡ true }
    requires ready { IsReady known.old }
    ensures value { (x : Typing means.TypeFound) (fs : List Function) → TypesTo found (x fs) known.old.functions → TypesTo result (member_by (context_of B.context names.now) inside_packed x list.now fs) known.new.functions }
    ensures sound { IfOk result (λ f. AllValuesSound f.names) }
    ensures ready { IsReady known.new }
    ensures keeps { Extends known.old.functions known.new.functions }
{
    match found {
        Ok(found) => members_behind(alloc, names, needs, inside_packed, found, list, known),
        Err(Halt::Memory) => Err(Halt::Memory),
        Err(Halt::Breaks { at, rule }) => Err(Halt::Breaks { at, rule }),
        Err(Halt::Quiet) => {
            let fields = named_fields(alloc, names, needs, inside_packed, None, list, known);
            Err(behind_quiet(fields))
        }
    }
}

/// No members.
pub(crate) fn none_made(alloc: Global) -> Made
    ensures { result ≡ record { fields = []; quiet = false } }
{
    Made {
        fields: Items::new(alloc),
        quiet: false,
    }
}

/// Members behind others: what their type declares stands for its value behind them. Where they aren't whole, what stands behind is
/// looked at for its breaks.
#[tactic(auto, using(crate::proofs::FieldJoining::joining))]
pub(crate) fn put_members<B: Base>(
    names: &mut Scope<'_, B>,
    made: &mut Made,
    found: Result<FieldsFound, Halt>,
) -> Result<(), Halt>
    requires names { Surrounded AllSoundFunctions (context_of B.context names.old) }
    requires own { AllValuesSound (own_values names.old) }
    requires sound { IfOk found (λ f. AllValuesSound f.names) }
    ensures value { (inside : _) (m : means.FieldsMeaning) (ms : List means.FieldsMeaning) (row : Typed means.Fields) (fs gs : List Function) → TypesTo found (m (context_of B.context names.old) inside fs) gs → FieldsAhead (context_of B.context names.old) inside made.old (own_values names.old) (m ∷ ms) row fs → Reaches result (FieldsAhead (context_of B.context names.new) inside made.new (own_values names.new) ms row gs) row gs }
    ensures routine { OnOk result ((context_of B.context names.new).routine ≡ (context_of B.context names.old).routine) }
    ensures names { OnOk result (Surrounded AllSoundFunctions (context_of B.context names.new)) }
    ensures own { OnOk result (AllValuesSound (own_values names.new)) }
{
    match found {
        Ok(found) => {
            let FieldsFound {
                fields,
                names: declared,
            } = found;
            names.add_values(declared)?;
            made.fields.append(fields)?;
            Ok(())
        }
        Err(Halt::Memory) => Err(Halt::Memory),
        Err(Halt::Breaks { at, rule }) => Err(Halt::Breaks { at, rule }),
        Err(Halt::Quiet) => {
            made.quiet = true;
            Ok(())
        }
    }
}

// A struct or a union by its first word and its members. Those of a union have one width (E506).
fn aggregate(
    alloc: Global,
    text: Source<'_>,
    of: Aggregate,
    packing: Option<Packing>,
    fields: Items<Field>,
) -> Result<SvType, Halt>
    ensures { Gives result (means.aggregate (source text.entry) of packing fields) }
{
    match of {
        Aggregate::Struct(at) => Ok(struct_of(alloc, text, at, packing, fields)?),
        Aggregate::Union(at) => union_of(alloc, text, at, packing, fields),
    }
}

/// A struct or a union of members, before the dimensions behind it.
#[tactic(auto, using(crate::proofs::FieldJoining::structures))]
pub(crate) fn structure(
    alloc: Global,
    text: Source<'_>,
    of: Aggregate,
    packing: Option<Packing>,
    found: Result<FieldsFound, Halt>,
) -> Result<TypeFound, Halt>
    requires sound { IfOk found (λ f. AllValuesSound f.names) }
    ensures value { (x : Typing means.Fields) (fs gs : List Function) → TypesTo found (x fs) gs → TypesTo result (struct_by (source text.entry) of packing x fs) gs }
    ensures sound { IfOk result (λ f. AllValuesSound f.names) }
{
    let FieldsFound {
        fields,
        names: declared,
    } = found?;
    Ok(TypeFound {
        of: aggregate(alloc, text, of, packing, fields)?,
        names: declared,
    })
}
