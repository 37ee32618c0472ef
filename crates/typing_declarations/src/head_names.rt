//! Names of enums that a formal's type declares: they are known behind the formal, and in the dimensions of one that takes its type.

ghost use Rattle.std.specs.Prelude.{◌≡◌, ◌∷◌, IfOk, OnOk, cond, []};
ghost use Rattle.expr_type.specs.Names.{with_values};
ghost use Rattle.typing_scopes.specs.Scopes.{context_of};

use crate::TypeFound;
use expr_copies::copy_value;
use frame_things::Rows;
use std::alloc::{AllocError, Global};
use sv_source::Items;
use sv_types::ParamValue;
use type_kinds::copy_type;
use typing_scopes::{Base, Scope};

// A value once more.
fn copied(alloc: Global, value: &ParamValue) -> Result<ParamValue, AllocError>
    ensures { IfOk result (λ v. v ≡ value.now) }
{
    let of = copy_type(alloc, &value.of);
    let (of, held) = pairs::both(of, copy_value(alloc, &value.value))?;
    Ok(ParamValue {
        decl: value.decl,
        of,
        value: held,
    })
}

// The values as a list, the latest first.
fn listed(alloc: Global, from: Rows<ParamValue>) -> Result<Items<ParamValue>, AllocError>
    ensures { IfOk result (λ list. list ≡ from) }
{
    let mut from = from;
    let mut list = Items::new(alloc);
    while let Some(value) = from.pop() {
        list.push(value)?;
    }
    Ok(list)
}

// Puts a value behind others, and the same once more.
fn put_twice(
    alloc: Global,
    kept: &mut Rows<ParamValue>,
    copies: &mut Rows<ParamValue>,
    value: ParamValue,
) -> Result<(), AllocError>
    ensures kept { OnOk result (kept.new ≡ value ∷ kept.old) }
    ensures copies { OnOk result (copies.new ≡ value ∷ copies.old) }
{
    copies.push(copied(alloc, &value)?)?;
    kept.push(value)
}

// The values of a list, the latest first, and the same once more.
fn twice(
    alloc: Global,
    list: Items<ParamValue>,
) -> Result<(Rows<ParamValue>, Rows<ParamValue>), AllocError>
    ensures first { IfOk result (λ p. p.0 ≡ list) }
    ensures second { IfOk result (λ p. p.1 ≡ list) }
{
    let mut list = list;
    let mut kept = Rows::new(alloc);
    let mut copies = Rows::new(alloc);
    while let Some(value) = list.pop() {
        put_twice(alloc, &mut kept, &mut copies, value)?;
    }
    Ok((kept, copies))
}

// Puts names into a scope, and gives them back.
fn declare_names<B: Base>(
    alloc: Global,
    inner: &mut Scope<'_, B>,
    names: Rows<ParamValue>,
) -> Result<Rows<ParamValue>, AllocError>
    ensures same { IfOk result (λ ns. ns ≡ names) }
    ensures context { OnOk result (context_of B.context inner.new ≡ with_values names (context_of B.context inner.old)) }
{
    let list = listed(alloc, names)?;
    let (kept, copies) = twice(alloc, list)?;
    inner.add_values(copies)?;
    Ok(kept)
}

// Puts the names that a type's text declares into a scope, and keeps them with the type.
fn declare_found<B: Base>(
    alloc: Global,
    inner: &mut Scope<'_, B>,
    found: TypeFound,
) -> Result<TypeFound, AllocError>
    ensures same { IfOk result (λ f. f ≡ found) }
    ensures context { OnOk result (context_of B.context inner.new ≡ with_values found.names (context_of B.context inner.old)) }
{
    let TypeFound { of, names } = found;
    let names = declare_names(alloc, inner, names)?;
    Ok(TypeFound { of, names })
}

/// Puts the names that a type's text declares into a scope, if it declares them there, and keeps them with the type.
pub(crate) fn declare<B: Base>(
    alloc: Global,
    inner: &mut Scope<'_, B>,
    found: TypeFound,
    declares: bool,
) -> Result<TypeFound, AllocError>
    ensures same { IfOk result (λ f. f ≡ found) }
    ensures context { OnOk result (context_of B.context inner.new ≡ with_values (cond declares found.names []) (context_of B.context inner.old)) }
{
    if declares {
        declare_found(alloc, inner, found)
    } else {
        Ok(found)
    }
}
