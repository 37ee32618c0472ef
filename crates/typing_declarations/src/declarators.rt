//! Variables of blocks, each behind those before it.

ghost use Rattle.std.specs.Prelude.{◌≡◌, List, map, true};
ghost use Rattle.std.specs.Option.{option_copied};
ghost use Rattle.expr_type.specs.Statements as statement;
ghost use Rattle.expr_type.specs.Statements.{Declared as Described};
ghost use Rattle.expr_type.specs.Typings.{Typed, Typing};
ghost use Rattle.expr_type.specs.Types as types;
ghost use Rattle.sv_types.specs.declared.statement.Function.{Function};
ghost use Rattle.routine_fits.specs.Sound.{AllSoundFunctions};
ghost use Rattle.typing_fits.specs.Sound.{Extends};
ghost use Rattle.typing_parts.specs.Typists.{IsReady, MakesKnown};
ghost use Rattle.typing_steps.specs.Steps.{TypesTo};
ghost use Rattle.typing_walks.specs.Keeps.{Surrounded};
ghost use Rattle.typing_scopes.specs.Scopes.{context_of};
ghost use Rattle.typing_scopes.specs.Scopes.{means};
ghost use Rattle.typing_calls.specs.Lists.{as_meant};
ghost use Rattle.typing_walks.specs.Written as written;
ghost use Rattle.typing_walks.specs.WrittenTypes.{type_written};
ghost use Rattle.stmt_laws.specs.Sound.{PerhapsFull};
ghost use Rattle.stmt_laws.specs.Written.{declarators_written};
ghost use Rattle.typing_declarations.specs.Blocks.{declared};
ghost use Rattle.typing_declarations.specs.Rows.{AheadBy, FoundSound, each_variable};

use crate::block::Block;
use crate::block_types::selected_type;
use crate::locals::variable;
use crate::{TypeFound, typed_text};
use expr_type::Halt;
use frame_things::Rows;
use std::alloc::Global;
use sv_tree::{Declarator, Select, TypeText};
use sv_types::SvType;
use typing_parts::Known;
use typing_scopes::{Base, Declared, Scope};

// Variables of a type, if that is whole, behind other declarations, which are whole or not: what a row gives of which these are the rest.
#[tactic(auto, using(typing_parts::proofs::Keeping::keepings))]
fn all_variables<'s, B: Base, C: Fn(u32, &mut Known) -> Result<u32, Halt>>(
    alloc: Global,
    front: Block<'s, B>,
    before: bool,
    needs: &C,
    of: Option<&SvType>,
    ds: &[Declarator],
    known: &mut Known,
) -> Result<Declared, Halt>
    requires needs { MakesKnown _ ((n : _) (k : _) → IsReady k.now → C.pre needs.now n k) (λ k. k.now) (C.post needs.now) (context_of B.context front.scope) }
    requires names { Surrounded AllSoundFunctions (context_of B.context front.scope) }
    requires written { declarators_written ds.now ≡ true }
    requires full { PerhapsFull (option_copied of) }
    requires ready { IsReady known.old }
    ensures value { (row : Typed Described) → AheadBy before (declared front.entry) (each_variable (context_of B.context front.entry.scope) (option_copied of.entry) ds.now) row known.old.functions → TypesTo (as_meant means result) row known.new.functions }
    ensures ready { IsReady known.new }
    ensures keeps { Extends known.old.functions known.new.functions }
{
    let mut block = front;
    let mut whole = before;
    for d in ds {
        let part = variable(alloc, &block.scope, needs, of, d, known);
        whole = block.take(whole, part)?;
    }
    block.ended(whole)
}

// Variables of what was found for their type.
#[tactic(auto, using(typing_parts::proofs::Keeping::keepings))]
fn variables_of<B: Base, C: Fn(u32, &mut Known) -> Result<u32, Halt>>(
    alloc: Global,
    names: &Scope<'_, B>,
    needs: &C,
    found: Result<TypeFound, Halt>,
    ds: &[Declarator],
    known: &mut Known,
) -> Result<Declared, Halt>
    requires needs { MakesKnown _ ((n : _) (k : _) → IsReady k.now → C.pre needs.now n k) (λ k. k.now) (C.post needs.now) (context_of B.context names.now) }
    requires names { Surrounded AllSoundFunctions (context_of B.context names.now) }
    requires written { declarators_written ds.now ≡ true }
    requires found { FoundSound found known.old.functions }
    requires ready { IsReady known.old }
    ensures value { (x : Typing types.TypeFound) (fs : List Function) → TypesTo found (x fs) known.old.functions → TypesTo (as_meant means result) (statement.variables_of (context_of B.context names.now) x ds.now fs) known.new.functions }
    ensures ready { IsReady known.new }
    ensures keeps { Extends known.old.functions known.new.functions }
{
    match found {
        Ok(f) => {
            let TypeFound {
                of,
                names: declared,
            } = f;
            let block = Block::new(alloc, names, declared);
            all_variables(alloc, block, true, needs, Some(&of), ds, known)
        }
        Err(Halt::Quiet) => {
            let block = Block::new(alloc, names, Rows::new(alloc));
            all_variables(alloc, block, false, needs, None, ds, known)
        }
        Err(Halt::Memory) => Err(Halt::Memory),
        Err(Halt::Breaks { at, rule }) => Err(Halt::Breaks { at, rule }),
    }
}

/// Variables of a written type, each behind those before it (IEEE 1800-2017 clauses 6.8 and 6.21): what they and the names of enums in
/// the type bring in, the latest first, with the locals in the order of the text; or the first break in that order. A local has at most
/// 65,536 bits (E701).
#[tactic(auto, using(typing_parts::proofs::Keeping::keepings))]
pub fn variables<B: Base, C: Fn(u32, &mut Known) -> Result<u32, Halt>>(
    alloc: Global,
    names: &Scope<'_, B>,
    needs: &C,
    of: &TypeText,
    ds: &[Declarator],
    known: &mut Known,
) -> Result<Declared, Halt>
    requires needs { MakesKnown _ ((n : _) (k : _) → IsReady k.now → C.pre needs.now n k) (λ k. k.now) (C.post needs.now) (context_of B.context names.now) }
    requires names { Surrounded AllSoundFunctions (context_of B.context names.now) }
    requires type_written { type_written of.now ≡ true }
    requires written { declarators_written ds.now ≡ true }
    requires ready { IsReady known.old }
    ensures value { TypesTo (as_meant means result) (statement.variables_of (context_of B.context names.now) (types.typed_text of.now (context_of B.context names.now)) ds.now known.old.functions) known.new.functions }
    ensures ready { IsReady known.new }
    ensures keeps { Extends known.old.functions known.new.functions }
{
    let found = typed_text(alloc, names, needs, of, known);
    variables_of(alloc, names, needs, found, ds, known)
}

/// Variables of a type that is a name with selects in the place of dimensions, each behind those before it.
#[tactic(auto, using(typing_parts::proofs::Keeping::keepings))]
pub fn named_variables<B: Base, C: Fn(u32, &mut Known) -> Result<u32, Halt>>(
    alloc: Global,
    names: &Scope<'_, B>,
    needs: &C,
    of: u32,
    selects: &[Select],
    ds: &[Declarator],
    known: &mut Known,
) -> Result<Declared, Halt>
    requires needs { MakesKnown _ ((n : _) (k : _) → IsReady k.now → C.pre needs.now n k) (λ k. k.now) (C.post needs.now) (context_of B.context names.now) }
    requires names { Surrounded AllSoundFunctions (context_of B.context names.now) }
    requires type_written { written.all (map written.select_written selects.now) ≡ true }
    requires written { declarators_written ds.now ≡ true }
    requires ready { IsReady known.old }
    ensures value { TypesTo (as_meant means result) (statement.variables_of (context_of B.context names.now) (statement.selected_type (context_of B.context names.now) of selects.now) ds.now known.old.functions) known.new.functions }
    ensures ready { IsReady known.new }
    ensures keeps { Extends known.old.functions known.new.functions }
{
    let found = selected_type(alloc, names, needs, of, selects, known);
    variables_of(alloc, names, needs, found, ds, known)
}
