//! Formals of functions and tasks by their texts (IEEE 1800-2017 clauses 13.3 and 13.4).

ghost use Rattle.std.specs.Prelude.{◌≡◌, [], List, None, cond, true, IfOk};
ghost use Rattle.sv_types.specs.declared.statement.Function.{Function};
ghost use Rattle.sv_types.specs.declared.types.SvType.{SvType};
ghost use Rattle.expr_type.specs.Answers.{Gives};
ghost use Rattle.expr_type.specs.Functions as means;
ghost use Rattle.expr_type.specs.Names.{Context};
ghost use Rattle.expr_type.specs.Types as types;
ghost use Rattle.expr_type.specs.Typings.{Typing};
ghost use Rattle.routine_fits.specs.Sound.{AllSoundFunctions};
ghost use Rattle.routine_laws.specs.Sound.{PerhapsType};
ghost use Rattle.routine_laws.specs.Texts.{port_written};
ghost use Rattle.typing_fits.specs.Operands.{AllValuesSound};
ghost use Rattle.typing_fits.specs.Sound.{Extends};
ghost use Rattle.typing_walks.specs.Keeps.{Surrounded};
ghost use Rattle.typing_walks.specs.WrittenTypes.{dims_written};
ghost use Rattle.typing_parts.specs.Typists.{IsReady, MakesKnown};
ghost use Rattle.typing_scopes.specs.Ahead.{mapped};
ghost use Rattle.typing_scopes.specs.Scopes.{context_of};
ghost use Rattle.typing_steps.specs.Steps.{TypesTo};
ghost use Rattle.typing_declarations.specs.Formals.{before_of, formal_of};
ghost use Rattle.typing_declarations.specs.FormalRows.{formal_typed};

use crate::formal_dims::with_dims;
use crate::{TypeFound, typed_text};
use expr_type::Halt;
use std::alloc::Global;
use stmt_types::local_type;
use sv_tree::{Dimension, FormalDirection, PortText};
use sv_types::{SvType, Way};
use type_kinds::one_bit;
use typing_parts::Known;
use typing_scopes::{Base, Scope};

/// The way and the type of the formal before, without the dimensions behind its name.
#[derive(Drop)]
pub struct Before {
    /// Which way it passes its value.
    pub way: Way,
    /// Its type, if that is whole.
    pub of: Option<TypeFound>,
}

/// A formal as it is found in a text.
#[derive(Drop)]
pub struct FormalFound {
    /// Which way it passes its value.
    pub way: Way,
    /// Its type without the dimensions behind its name.
    pub found: TypeFound,
    /// Its type.
    pub of: SvType,
    /// The token of its name.
    pub at: u32,
    /// Whether its text has its type, so that it declares the names of the enums in it.
    pub declares: bool,
}

/// What the first formal takes: it is an input of one `logic` bit.
pub(crate) fn at_first(alloc: Global) -> Before
    ensures { before_of result ≡ means.at_first }
{
    Before {
        way: Way::Input,
        of: Some(TypeFound::only(alloc, one_bit())),
    }
}

/// The way of a formal: without a direction it is that of the one before.
pub(crate) fn way_by(before: Way, direction: Option<FormalDirection>) -> Way
    ensures { result ≡ means.way_by before direction }
{
    match direction {
        None => before,
        Some(direction) => match direction {
            FormalDirection::Input(_) => Way::Input,
            FormalDirection::Output(_) => Way::Output,
            FormalDirection::Inout(_) => Way::Inout,
        },
    }
}

// The type of the formal before, if it is whole.
fn whole_before(before: Before) -> Result<TypeFound, Halt>
    requires { (fs : List Function) → PerhapsType before.of fs }
    ensures value { (fs : List Function) → TypesTo result (means.type_before (before_of before) None fs) fs }
    ensures sound { IfOk result (λ f. AllValuesSound f.names) }
{
    let of = before.of;
    match of {
        None => Err(Halt::Quiet),
        Some(found) => Ok(found),
    }
}

// The type of a name alone: that of the formal before, or one `logic` bit behind a direction.
#[tactic(auto, using(crate::proofs::Arms::befores))]
fn type_before(
    alloc: Global,
    before: Before,
    direction: Option<FormalDirection>,
) -> Result<TypeFound, Halt>
    requires { (fs : List Function) → PerhapsType before.of fs }
    ensures value { (fs : List Function) → TypesTo result (means.type_before (before_of before) direction fs) fs }
    ensures sound { IfOk result (λ f. AllValuesSound f.names) }
{
    match direction {
        None => whole_before(before),
        Some(_) => Ok(TypeFound::only(alloc, one_bit())),
    }
}

// A formal of a type that is whole: it has at most 65,536 bits (E701).
fn narrow_formal(
    way: Way,
    at: u32,
    declares: bool,
    typed: (TypeFound, SvType),
) -> Result<FormalFound, Halt>
    ensures { (k : Context) → Gives (mapped (formal_of k) result) (means.formal_found k way typed.0 at typed.1 (cond declares typed.0.names [])) }
{
    let (found, of) = typed;
    let of = local_type(at, of)?;
    Ok(FormalFound {
        way,
        found,
        of,
        at,
        declares,
    })
}

// A formal of a type, if that is whole.
fn formal_found(
    way: Way,
    at: u32,
    declares: bool,
    typed: Result<(TypeFound, SvType), Halt>,
) -> Result<FormalFound, Halt>
    ensures { (k : Context) (x : Typing (types.TypeFound × SvType)) (fs gs : List Function) → TypesTo typed (x fs) gs → TypesTo (mapped (formal_of k) result) (formal_typed k way at declares x fs) gs }
{
    match typed {
        Ok(typed) => narrow_formal(way, at, declares, typed),
        Err(halt) => Err(halt),
    }
}

// A formal of a type, with the dimensions behind its name.
fn typed_formal<B: Base, C: Fn(u32, &mut Known) -> Result<u32, Halt>>(
    alloc: Global,
    names: &Scope<'_, B>,
    needs: &C,
    way: Way,
    found: Result<TypeFound, Halt>,
    at: u32,
    ds: &[Dimension],
    declares: bool,
    known: &mut Known,
) -> Result<FormalFound, Halt>
    requires needs { MakesKnown _ ((n : _) (k : _) → IsReady k.now → C.pre needs.now n k) (λ k. k.now) (C.post needs.now) (context_of B.context names.now) }
    requires names { Surrounded AllSoundFunctions (context_of B.context names.now) }
    requires sound { IfOk found (λ f. AllValuesSound f.names) }
    requires written { dims_written ds.now ≡ true }
    requires ready { IsReady known.old }
    ensures value { (x : Typing types.TypeFound) (fs : List Function) → TypesTo found (x fs) known.old.functions → TypesTo (mapped (formal_of (context_of B.context names.now)) result) (means.typed_formal (context_of B.context names.now) way x at ds.now declares fs) known.new.functions }
    ensures ready { IsReady known.new }
    ensures keeps { Extends known.old.functions known.new.functions }
{
    let typed = with_dims(alloc, names, needs, found, ds, known);
    formal_found(way, at, declares, typed)
}

/// A formal behind the one before (clauses 13.3 and 13.4): without a direction it has that of the one before; a name alone has its type
/// too, if it has no direction of its own, and else is one `logic` bit.
#[tactic(auto, using(crate::proofs::Arms::arms, typing_parts::proofs::Keeping::keepings))]
pub fn formal<B: Base, C: Fn(u32, &mut Known) -> Result<u32, Halt>>(
    alloc: Global,
    names: &Scope<'_, B>,
    needs: &C,
    before: Before,
    one: &sv_tree::Formal,
    known: &mut Known,
) -> Result<FormalFound, Halt>
    requires needs { MakesKnown _ ((n : _) (k : _) → IsReady k.now → C.pre needs.now n k) (λ k. k.now) (C.post needs.now) (context_of B.context names.now) }
    requires names { Surrounded AllSoundFunctions (context_of B.context names.now) }
    requires before { (fs : List Function) → PerhapsType before.of fs }
    requires written { port_written one.now.text ≡ true }
    requires ready { IsReady known.old }
    ensures value { TypesTo (mapped (formal_of (context_of B.context names.now)) result) (means.formal_text (context_of B.context names.now) (before_of before) one.now.direction one.now.text known.old.functions) known.new.functions }
    ensures ready { IsReady known.new }
    ensures keeps { Extends known.old.functions known.new.functions }
{
    let way = way_by(before.way, one.direction);
    match &one.text {
        PortText::Typed { of, name, unpacked } => {
            let ds = unpacked.as_slice();
            let found = typed_text(alloc, names, needs, of, known);
            typed_formal(alloc, names, needs, way, found, *name, ds, true, known)
        }
        PortText::Bare { name, unpacked } => {
            let ds = unpacked.as_slice();
            let found = type_before(alloc, before, one.direction);
            typed_formal(alloc, names, needs, way, found, *name, ds, false, known)
        }
        PortText::Modport { .. } => Err(Halt::Quiet),
    }
}
