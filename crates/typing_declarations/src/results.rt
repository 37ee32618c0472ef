//! What functions give (IEEE 1800-2017 clause 13.4.1).

ghost use Rattle.std.specs.Prelude.{◌≡◌, List, true, ◌&&◌, IfOk};
ghost use Rattle.expr_type.specs.Answers.{Gives};
ghost use Rattle.expr_type.specs.Functions as means;
ghost use Rattle.routine_fits.specs.Sound.{AllSoundFunctions};
ghost use Rattle.routine_laws.specs.Sound.{SoundResult};
ghost use Rattle.routine_laws.specs.Texts.{result_written};
ghost use Rattle.sv_types.specs.declared.statement.Function.{Function};
ghost use Rattle.sv_types.specs.declared.types.SvType.{SvType};
ghost use Rattle.expr_type.specs.Names.{Source};
ghost use Rattle.expr_type.specs.Typings.{Typing};
ghost use Rattle.expr_type.specs.Types as types;
ghost use Rattle.typing_fits.specs.Sound.{Extends};
ghost use Rattle.typing_walks.specs.Keeps.{Surrounded};
ghost use Rattle.typing_walks.specs.WrittenTypes.{dims_written};
ghost use Rattle.typing_parts.specs.Typists.{IsReady, MakesKnown};
ghost use Rattle.typing_scopes.specs.Ahead.{mapped};
ghost use Rattle.typing_scopes.specs.Scopes.{context_of};
ghost use Rattle.typing_steps.specs.Steps.{TypesTo};
ghost use Rattle.typing_declarations.specs.Giving.{no_result, result_of, result_rule, result_typed};

use crate::formal_dims::with_dims;
use crate::{TypeFound, typed_text};
use expr_type::Halt;
use frame_things::Rows;
use std::alloc::Global;
use stmt_types::local_type;
use sv_tree::FunctionResult;
use sv_types::{ParamValue, SvType};
use type_kinds::one_bit;
use typing_parts::Known;
use typing_scopes::{Base, Scope};

/// What a function gives: a value, or nothing as a task and a void function do.
#[derive(Drop)]
pub struct ResultFound {
    /// Whether it gives a value, whose name in the body is the local with the number 0.
    pub plain: bool,
    /// The type of the value; one bit of which no rule speaks where there is none.
    pub of: SvType,
    /// The names of the enums that the type's text declares.
    pub names: Rows<ParamValue>,
}

/// What a task or a void function gives. It takes no memory.
pub fn no_result(alloc: Global) -> ResultFound
    ensures { result_of result ≡ no_result }
{
    ResultFound {
        plain: false,
        of: one_bit(),
        names: Rows::new(alloc),
    }
}

// A value of a type that is whole: it has at most 65,536 bits (E701).
fn narrow_result(at: u32, typed: (TypeFound, SvType)) -> Result<ResultFound, Halt>
    ensures { (k : Source) → Gives (mapped result_of result) (result_rule k at typed.0 typed.1) }
{
    let (found, of) = typed;
    let of = local_type(at, of)?;
    let TypeFound { names, .. } = found;
    Ok(ResultFound {
        plain: true,
        of,
        names,
    })
}

// A value of a type, if that is whole.
fn result_found(at: u32, typed: Result<(TypeFound, SvType), Halt>) -> Result<ResultFound, Halt>
    ensures { (k : Source) (x : Typing (types.TypeFound × SvType)) (fs gs : List Function) → TypesTo typed (x fs) gs → TypesTo (mapped result_of result) (result_typed k at x fs) gs }
{
    match typed {
        Ok(typed) => narrow_result(at, typed),
        Err(halt) => Err(halt),
    }
}

/// What a function gives (clauses 13.4 and 13.4.1).
#[tactic(auto, using(crate::proofs::Arms::arms, typing_parts::proofs::Keeping::keepings))]
pub fn function_result<B: Base, C: Fn(u32, &mut Known) -> Result<u32, Halt>>(
    alloc: Global,
    names: &Scope<'_, B>,
    needs: &C,
    function: &sv_tree::Function,
    known: &mut Known,
) -> Result<ResultFound, Halt>
    requires needs { MakesKnown _ ((n : _) (k : _) → IsReady k.now → C.pre needs.now n k) (λ k. k.now) (C.post needs.now) (context_of B.context names.now) }
    requires names { Surrounded AllSoundFunctions (context_of B.context names.now) }
    requires written { (result_written function.now.of && dims_written function.now.unpacked) ≡ true }
    requires ready { IsReady known.old }
    ensures value { TypesTo (mapped result_of result) (means.function_result (context_of B.context names.now) function.now.name function.now.unpacked function.now.of known.old.functions) known.new.functions }
    ensures sound { IfOk result (λ r. SoundResult (result_of r) known.new.functions) }
    ensures ready { IsReady known.new }
    ensures keeps { Extends known.old.functions known.new.functions }
{
    match &function.of {
        FunctionResult::Void { .. } => Ok(no_result(alloc)),
        FunctionResult::Value(of) => {
            let ds = function.unpacked.as_slice();
            let found = typed_text(alloc, names, needs, of, known);
            let typed = with_dims(alloc, names, needs, found, ds, known);
            result_found(function.name, typed)
        }
    }
}
