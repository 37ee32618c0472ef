//! Heads of functions and tasks: the body sees the result, the formals, and no other locals.

ghost use Rattle.std.specs.Prelude.{◌≡◌, ◌≤◌, ◌+◌, true, IfOk, Some, min, nat_lt};
ghost use Rattle.sv_types.specs.Layouts.{width_of};
ghost use Rattle.expr_type.specs.Functions as means;
ghost use Rattle.expr_type.specs.Names.{with_values};
ghost use Rattle.routine_fits.specs.Sound.{AllFormalsNarrow, AllSoundFunctions};
ghost use Rattle.routine_laws.specs.Texts.{formals_written};
ghost use Rattle.typing_fits.specs.Sound.{Extends};
ghost use Rattle.typing_walks.specs.Keeps.{Surrounded};
ghost use Rattle.typing_parts.specs.Typists.{IsReady, MakesKnown};
ghost use Rattle.typing_scopes.specs.Scopes.{context_of};
ghost use Rattle.typing_declarations.specs.Giving.{plain_result, with_result};
ghost use Rattle.typing_declarations.specs.FormalRows.{HeadsTo, bits_back, bits_out};

use crate::formal_rows::formals;
use expr_type::Halt;
use frame_things::{NamedLocal, Rows};
use std::alloc::{AllocError, Global};
use sv_types::{Formal, Formals, ParamValue, SvType, Way, width};
use type_kinds::copy_type;
use typing_parts::Known;
use typing_scopes::{Base, Scope};

/// The most bits that the outputs of a routine have together.
pub const MOST_OUT: u32 = 65_536;

// One more than that stands for every larger number.
const TOO_MANY: u32 = 65_537;

// A scope behind the names of enums.
fn behind_names<'s, B: Base>(
    alloc: Global,
    outer: &'s Scope<'s, B>,
    names: Rows<ParamValue>,
) -> Result<Scope<'s, B>, AllocError>
    ensures { IfOk result (λ s. context_of B.context s ≡ with_values names (context_of B.context outer.now)) }
{
    let mut inner = Scope::inside(alloc, outer);
    inner.add_values(names)?;
    Ok(inner)
}

// A scope with a function's result, whose name is the local with the number 0.
fn with_result<'s, B: Base>(
    alloc: Global,
    front: Scope<'s, B>,
    name: u32,
    of: &'s SvType,
) -> Result<Scope<'s, B>, AllocError>
    ensures { IfOk result (λ s. context_of B.context s ≡ with_result (context_of B.context front.entry) name of.now) }
{
    let copy = copy_type(alloc, of)?;
    let local = NamedLocal {
        decl: front.declaration(name),
        number: 0,
        of: copy,
    };
    let mut inner = front;
    inner.add_local(local)?;
    Ok(inner.within(Some(of)))
}

/// The scope of a body before its formals: it has the names of the enums in the result's type, and the result, if there is one.
pub fn in_body<'s, B: Base>(
    alloc: Global,
    outer: &'s Scope<'s, B>,
    name: u32,
    plain: bool,
    of: &'s SvType,
    names: Rows<ParamValue>,
) -> Result<Scope<'s, B>, AllocError>
    ensures { IfOk result (λ s. context_of B.context s ≡ means.in_body (context_of B.context outer.now) name (Some (plain_result plain of.now names))) }
{
    let inner = behind_names(alloc, outer, names)?;
    if plain {
        with_result(alloc, inner, name, of)
    } else {
        Ok(inner.within(None))
    }
}

// The bits that a formal gives back.
fn bits_back(formal: &Formal) -> u32
    requires { width_of formal.now.local.of ≤ 4194304 }
    ensures value { result ≡ bits_back formal.now }
    ensures narrow { result ≤ 4194304 }
{
    match formal.way {
        Way::Input => 0,
        Way::Output => width(&formal.local.of),
        Way::Inout => width(&formal.local.of),
    }
}

// A sum, or 65,537 where it is larger.
fn capped(sum: u32, more: u32) -> u32
    requires sum { sum ≤ 65537 }
    requires more { more ≤ 4194304 }
    ensures value { result ≡ min (sum + more) 65537 }
    ensures few { result ≤ 65537 }
{
    let all = sum + more;
    if all > TOO_MANY { TOO_MANY } else { all }
}

// The bits that all formals give back together, or 65,537 where there are more.
fn bits_of_all(list: &[Formal]) -> u32
    requires { AllFormalsNarrow list.now }
    ensures { result ≡ min (bits_out list.now) 65537 }
{
    let mut sum: u32 = 0;
    for formal in list {
        sum = capped(sum, bits_back(formal));
    }
    sum
}

// Whether formals give back more than 65,536 bits together.
fn is_too_long(list: &[Formal]) -> bool
    requires { AllFormalsNarrow list.now }
    ensures { result ≡ nat_lt 65536 (bits_out list.now) }
{
    MOST_OUT < bits_of_all(list)
}

/// The formals behind a result: those that are outputs have at most 65,536 bits together (E701 at the routine's name).
#[tactic(auto, using(typing_parts::proofs::Keeping::keepings))]
pub fn head_formals<B: Base, C: Fn(u32, &mut Known) -> Result<u32, Halt>>(
    alloc: Global,
    inner: &mut Scope<'_, B>,
    needs: &C,
    name: u32,
    list: &[sv_tree::Formal],
    known: &mut Known,
) -> Result<Formals, Halt>
    requires needs { MakesKnown _ ((n : _) (k : _) → IsReady k.now → C.pre needs.now n k) (λ k. k.now) (C.post needs.now) (context_of B.context inner.old) }
    requires names { Surrounded AllSoundFunctions (context_of B.context inner.old) }
    requires written { formals_written list.now ≡ true }
    requires ready { IsReady known.old }
    ensures value { HeadsTo result name (context_of B.context inner.new) (context_of B.context inner.old) list.now known.old.functions known.new.functions }
    ensures ready { IsReady known.new }
    ensures keeps { Extends known.old.functions known.new.functions }
{
    let made = formals(alloc, inner, needs, list, known)?;
    if is_too_long(made.as_slice()) {
        return Err(Halt::Breaks {
            at: name,
            rule: 701,
        });
    }
    Ok(made)
}
