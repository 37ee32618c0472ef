//! Formals that are put into the scope of a body.

ghost use Rattle.std.specs.Prelude.{◌≡◌, [], ◌∷◌, IfOk, OnOk};
ghost use Rattle.expr_type.specs.Names as names;
ghost use Rattle.expr_type.specs.Names.{with_locals};
ghost use Rattle.frame_things.specs.Finding as things;
ghost use Rattle.typing_scopes.specs.Scopes.{context_of};
ghost use Rattle.typing_declarations.specs.Formals.{IsPut, formal_at};

use crate::formal_types::{Before, FormalFound};
use crate::head_names::declare;
use frame_things::NamedLocal;
use operand_types::spot_at;
use std::alloc::{AllocError, Global};
use sv_types::{Formal, Local, SvType, Way};
use type_kinds::copy_type;
use typing_parts::Names;
use typing_scopes::{Base, Scope};

// The local whose name stands at a token.
fn local_of<B: Base>(
    alloc: Global,
    inner: &Scope<'_, B>,
    at: u32,
    of: &SvType,
) -> Result<NamedLocal, AllocError>
    ensures { IfOk result (λ l. things.local_id l ≡ names.local_id (context_of B.context inner.now) at of.now) }
{
    let copy = copy_type(alloc, of)?;
    Ok(NamedLocal {
        decl: inner.declaration(at),
        number: inner.local_number(at),
        of: copy,
    })
}

// A formal as the function has it.
fn formal_by<B: Base>(
    alloc: Global,
    inner: &Scope<'_, B>,
    way: Way,
    at: u32,
    of: SvType,
) -> Result<Formal, AllocError>
    ensures { IfOk result (λ f. f ≡ formal_at (context_of B.context inner.now) way at of) }
{
    let spot = spot_at(alloc, inner.text(), at)?;
    Ok(Formal {
        local: Local {
            number: inner.local_number(at),
            of,
            initial: None,
        },
        way,
        spot,
    })
}

// Puts the local that a formal is into a scope. It gives what the function has of it.
fn put_local<B: Base>(
    alloc: Global,
    inner: &mut Scope<'_, B>,
    way: Way,
    at: u32,
    of: SvType,
) -> Result<Formal, AllocError>
    ensures formal { IfOk result (λ f. f ≡ formal_at (context_of B.context inner.old) way at of) }
    ensures context { OnOk result (context_of B.context inner.new ≡ with_locals (names.local_id (context_of B.context inner.old) at of ∷ []) (context_of B.context inner.old)) }
{
    let local = local_of(alloc, inner, at, &of)?;
    inner.add_local(local)?;
    let formal = formal_by(alloc, inner, way, at, of)?;
    Ok(formal)
}

/// Puts a formal into a scope. It gives what the function has of it, and what the next one takes.
pub(crate) fn put<B: Base>(
    alloc: Global,
    inner: &mut Scope<'_, B>,
    one: FormalFound,
) -> Result<(Formal, Before), AllocError>
    ensures { IfOk result (λ p. IsPut p.0 p.1 (context_of B.context inner.new) (context_of B.context inner.old) one) }
{
    let FormalFound {
        way,
        found,
        of,
        at,
        declares,
    } = one;
    let kept = declare(alloc, inner, found, declares)?;
    let formal = put_local(alloc, inner, way, at, of)?;
    let before = Before {
        way,
        of: Some(kept),
    };
    Ok((formal, before))
}
