//! The names of enums, one after the other.

ghost use Rattle.std.specs.Prelude.{◌≡◌, ◌≤◌, ◌<◌, ◌++◌, ◌∷◌, [], List, length, false, true, None, IfOk, OnOk};
ghost use Rattle.sv_types.specs.Layouts.{width_of};
ghost use Rattle.sv_types.specs.Values.{value_of_bits};
ghost use Rattle.sv_tree.specs.declared.types.EnumName as written;
ghost use Rattle.expr_type.specs.Names.{with_values};
ghost use Rattle.expr_type.specs.Types as types;
ghost use Rattle.expr_type.specs.Typings.{Typed};
ghost use Rattle.routine_fits.specs.Sound.{AllSoundFunctions};
ghost use Rattle.typing_fits.specs.Sound.{Extends};
ghost use Rattle.typing_fits.specs.Types.{is_full};
ghost use Rattle.typing_walks.specs.Keeps.{Surrounded};
ghost use Rattle.typing_walks.specs.WrittenTypes.{initial_written, names_written};
ghost use Rattle.typing_parts.specs.Typists.{IsReady, MakesKnown};
ghost use Rattle.typing_scopes.specs.Scopes.{context_of};
ghost use Rattle.typing_steps.specs.Steps.{TypesTo};
ghost use Rattle.enum_values.specs.Values.{IsInBase, named_by};
ghost use Rattle.typing_declarations.specs.Naming.{AllInBase, AreMet, IsMet, NamesAhead, Reaches, as_values, with_name};

use crate::values::name_value;
use b4_core::Vec4;
use enum_types::Taken;
use expr_type::Halt;
use std::alloc::{AllocError, Global};
use sv_source::Items;
use sv_tree::EnumName;
use sv_types::{ParamValue, SvType, of_bits};
use type_kinds::copy_type;
use typing_parts::Known;
use typing_scopes::{Base, Scope};

/// An enum's name that has a value, by its token and the bits of the value in the base.
#[derive(Drop)]
pub(crate) struct Named {
    /// The token.
    pub at: u32,
    /// The bits.
    pub bits: Vec4,
}

/// The names of an enum that were met.
#[derive(Drop)]
pub(crate) struct Met {
    /// Those that have values, in the order of the text.
    pub names: Items<Named>,
    /// Their values.
    pub taken: Taken,
    /// Whether the last name that was met has none.
    pub lost: bool,
    /// Whether some name has none.
    pub quiet: bool,
}

/// A constant of a type by its bits.
pub(crate) fn constant_by(
    alloc: Global,
    decl: u32,
    of: &SvType,
    bits: &Vec4,
) -> Result<ParamValue, AllocError>
    requires narrow { width_of of.now ≤ 4194304 }
    requires same { length bits.now ≡ width_of of.now }
    ensures { IfOk result (λ v. v ≡ record { decl = decl; of = of.now; value = value_of_bits of.now bits.now }) }
{
    let value = of_bits(alloc, of, bits)?;
    let of = copy_type(alloc, of)?;
    Ok(ParamValue { decl, of, value })
}

// No names.
#[tactic(auto, using(crate::proofs::Rows::meeting))]
fn none_met(alloc: Global) -> Met
    ensures names { result.names ≡ [] }
    ensures lost { result.lost ≡ false }
    ensures quiet { result.quiet ≡ false }
    ensures met { (t : _) → IsMet t result }
{
    Met {
        names: Items::new(alloc),
        taken: Taken::new(alloc),
        lost: false,
        quiet: false,
    }
}

// One more name that has a value.
#[tactic(auto, using(crate::proofs::Rows::putting))]
fn put(alloc: Global, base: &SvType, met: &mut Met, named: Named) -> Result<(), AllocError>
    requires whole { 0 < width_of base.now }
    requires short { width_of base.now ≤ 65536 }
    requires bits { IsInBase base.now named.bits }
    requires met { IsMet base.now met.old }
    ensures names { OnOk result (met.new.names ≡ met.old.names ++ named ∷ []) }
    ensures lost { OnOk result (met.new.lost ≡ false) }
    ensures quiet { OnOk result (met.new.quiet ≡ met.old.quiet) }
    ensures met { OnOk result (IsMet base.now met.new) }
{
    met.taken.add(alloc, &named.bits)?;
    met.names.push(named)?;
    met.lost = false;
    Ok(())
}

// One more name that has a value, which is a constant of the base behind it.
#[tactic(auto, using(crate::proofs::Declaring::declaring))]
fn declare<B: Base>(
    alloc: Global,
    names: &mut Scope<'_, B>,
    base: &SvType,
    at: u32,
    bits: &Vec4,
) -> Result<(), AllocError>
    requires full { is_full base.now ≡ true }
    requires short { width_of base.now ≤ 65536 }
    requires bits { IsInBase base.now bits.now }
    requires names { Surrounded AllSoundFunctions (context_of B.context names.old) }
    ensures context { OnOk result (context_of B.context names.new ≡ with_name (context_of B.context names.old) base.now (named_by base.now at bits.now)) }
    ensures names { OnOk result (Surrounded AllSoundFunctions (context_of B.context names.new)) }
{
    let value = constant_by(alloc, names.declaration(at), base, bits)?;
    names.add_value(value)
}

// One more name. One that has no value isn't whole, and what stands behind it is looked at for its breaks.
#[tactic(auto, using(crate::proofs::Rows::reaching))]
fn next_name<B: Base, C: Fn(u32, &mut Known) -> Result<u32, Halt>>(
    alloc: Global,
    names: &mut Scope<'_, B>,
    needs: &C,
    base: &SvType,
    met: &mut Met,
    name: &EnumName,
    known: &mut Known,
) -> Result<(), Halt>
    requires needs { MakesKnown _ ((n : _) (k : _) → IsReady k.now → C.pre needs.now n k) (λ k. k.now) (C.post needs.now) (context_of B.context names.old) }
    requires names { Surrounded AllSoundFunctions (context_of B.context names.old) }
    requires full { is_full base.now ≡ true }
    requires met { IsMet base.now met.old }
    requires written { initial_written name.now.value ≡ true }
    requires ready { IsReady known.old }
    ensures value { (ns : List written.EnumName) (row : Typed (List types.NameValue)) → NamesAhead (context_of B.context names.old) base.now met.old (name.now ∷ ns) row known.old.functions → Reaches result (NamesAhead (context_of B.context names.new) base.now met.new ns row known.new.functions) row known.new.functions }
    ensures routine { OnOk result ((context_of B.context names.new).routine ≡ (context_of B.context names.old).routine) }
    ensures names { OnOk result (Surrounded AllSoundFunctions (context_of B.context names.new)) }
    ensures met { OnOk result (IsMet base.now met.new) }
    ensures ready { IsReady known.new }
    ensures keeps { Extends known.old.functions known.new.functions }
{
    match name_value(alloc, names, needs, base, met, name, known) {
        Ok(bits) => {
            declare(alloc, names, base, name.name, &bits)?;
            let named = Named {
                at: name.name,
                bits,
            };
            put(alloc, base, met, named)?;
            Ok(())
        }
        Err(Halt::Memory) => Err(Halt::Memory),
        Err(Halt::Breaks { at, rule }) => Err(Halt::Breaks { at, rule }),
        Err(Halt::Quiet) => {
            met.lost = true;
            met.quiet = true;
            Ok(())
        }
    }
}

/// The names of an enum that have values, if all have. Each is a constant of the base behind it.
#[tactic(auto, using(crate::proofs::Rows::ending))]
pub(crate) fn names_of<B: Base, C: Fn(u32, &mut Known) -> Result<u32, Halt>>(
    alloc: Global,
    names: &Scope<'_, B>,
    needs: &C,
    base: &SvType,
    list: &[EnumName],
    known: &mut Known,
) -> Result<Items<Named>, Halt>
    requires needs { MakesKnown _ ((n : _) (k : _) → IsReady k.now → C.pre needs.now n k) (λ k. k.now) (C.post needs.now) (context_of B.context names.now) }
    requires names { Surrounded AllSoundFunctions (context_of B.context names.now) }
    requires full { is_full base.now ≡ true }
    requires written { names_written list.now ≡ true }
    requires ready { IsReady known.old }
    ensures value { TypesTo (as_values base.now result) (types.name_values (context_of B.context names.now) base.now false [] None list.now known.old.functions) known.new.functions }
    ensures met { IfOk result (AreMet base.now) }
    ensures ready { IsReady known.new }
    ensures keeps { Extends known.old.functions known.new.functions }
{
    let mut inner = Scope::inside(alloc, names);
    let mut met = none_met(alloc);
    for name in list {
        next_name(alloc, &mut inner, needs, base, &mut met, name, known)?;
    }
    if met.quiet {
        return Err(Halt::Quiet);
    }
    Ok(met.names)
}
