//! The variables of loops.

ghost use Rattle.std.specs.Prelude.{◌≡◌, ◌≤◌, true, IfOk};
ghost use Rattle.expr_type.specs.Answers.{Gives, source};
ghost use Rattle.expr_type.specs.Names as text;
ghost use Rattle.expr_type.specs.Names.{Source};
ghost use Rattle.expr_type.specs.Operators.{not_too_long};
ghost use Rattle.expr_type.specs.Statements as statement;
ghost use Rattle.frame_things.specs.Finding.{local_id};
ghost use Rattle.pattern_types.specs.Meaning.{operand_of};
ghost use Rattle.routine_fits.specs.Sound.{AllSoundFunctions};
ghost use Rattle.stmt_laws.specs.Written.{start_written};
ghost use Rattle.sv_types.specs.Layouts.{width_of};
ghost use Rattle.typing_calls.specs.Lists.{as_meant};
ghost use Rattle.typing_declarations.specs.Loops.{variable_of};
ghost use Rattle.typing_declarations.specs.Variables.{GivenFirst, VariableAt};
ghost use Rattle.typing_fits.specs.Sound.{Extends};
ghost use Rattle.typing_parts.specs.Typists.{IsNarrowOperand, IsReady, MakesKnown};
ghost use Rattle.typing_scopes.specs.Scopes.{context_of};
ghost use Rattle.typing_sides.specs.Sides.{known_of};
ghost use Rattle.typing_steps.specs.Steps.{TypesTo};
ghost use Rattle.typing_walks.specs.Keeps.{Surrounded};

use crate::{LoopVariable, TypeFound, operand, typed_text};
use expr_type::Halt;
use frame_things::NamedLocal;
use given_types::is_above;
use pattern_types::Operand;
use std::alloc::Global;
use stmt_forms::loop_first;
use sv_tree::LoopStart;
use sv_types::{Expr, SvType};
use typing_parts::{Known, Names};
use typing_scopes::{Base, Scope};
use typing_sides::beside;

// The most bits of a loop's variable.
const MOST_BITS: u32 = 65_536;

// A type of at most 65,536 bits (E701).
fn short(at: u32, found: TypeFound) -> Result<TypeFound, Halt>
    ensures value { (k : Source) → Gives result (not_too_long k at (width_of found.of) (Ok found)) }
    ensures narrow { IfOk result (λ f. width_of f.of ≤ 65536) }
{
    if is_above(MOST_BITS, &found.of) {
        return Err(Halt::Breaks { at, rule: 701 });
    }
    Ok(found)
}

// The type of a loop's variable.
#[tactic(auto, using(typing_values::proofs::Putting::steps))]
fn loop_type<B: Base, C: Fn(u32, &mut Known) -> Result<u32, Halt>>(
    alloc: Global,
    names: &Scope<'_, B>,
    needs: &C,
    start: &LoopStart,
    known: &mut Known,
) -> Result<TypeFound, Halt>
    requires needs { MakesKnown _ ((n : _) (k : _) → IsReady k.now → C.pre needs.now n k) (λ k. k.now) (C.post needs.now) (context_of B.context names.now) }
    requires names { Surrounded AllSoundFunctions (context_of B.context names.now) }
    requires written { start_written start.now ≡ true }
    requires ready { IsReady known.old }
    ensures value { TypesTo result (statement.loop_type (context_of B.context names.now) start.now known.old.functions) known.new.functions }
    ensures narrow { IfOk result (λ f. width_of f.of ≤ 65536) }
    ensures ready { IsReady known.new }
    ensures keeps { Extends known.old.functions known.new.functions }
{
    let found = typed_text(alloc, names, needs, &start.of, known)?;
    short(start.name, found)
}

// What is given to a variable of a type that may not be whole.
fn given_first<S: Names>(
    alloc: Global,
    names: &S,
    of: &Result<TypeFound, Halt>,
    o: Operand,
) -> Result<Expr, Halt>
    requires narrow { IfOk of.now (λ f. width_of f.of ≤ 65536) }
    requires operand { IsNarrowOperand o }
    ensures { GivenFirst (S.context names.now) of.now (operand_of (S.context names.now).source o) result }
{
    match of {
        Ok(of) => loop_first(alloc, names.text(), &of.of, o),
        Err(_) => Err(Halt::Quiet),
    }
}

// The first value of a loop's variable: where its type isn't whole, it is looked at for its breaks.
#[tactic(auto, using(crate::proofs::Starting::firsts))]
fn first_value<S: Names, C: Fn(u32, &mut Known) -> Result<u32, Halt>>(
    alloc: Global,
    names: &S,
    needs: &C,
    of: &Result<TypeFound, Halt>,
    start: &LoopStart,
    known: &mut Known,
) -> Result<Expr, Halt>
    requires needs { MakesKnown _ ((n : _) (k : _) → IsReady k.now → C.pre needs.now n k) (λ k. k.now) (C.post needs.now) (S.context names.now) }
    requires names { Surrounded AllSoundFunctions (S.context names.now) }
    requires written { start_written start.now ≡ true }
    requires narrow { IfOk of.now (λ f. width_of f.of ≤ 65536) }
    requires ready { IsReady known.old }
    ensures value { TypesTo result (statement.first_by (S.context names.now) start.now (known_of of.now) known.old.functions) known.new.functions }
    ensures ready { IsReady known.new }
    ensures keeps { Extends known.old.functions known.new.functions }
{
    let o = operand(alloc, names, needs, &start.value, known)?;
    given_first(alloc, names, of, o)
}

// The local that stands at a token.
fn named_local<B: Base>(names: &Scope<'_, B>, at: u32, of: SvType) -> NamedLocal
    ensures { local_id result ≡ text.local_id (context_of B.context names.now) at of }
{
    NamedLocal {
        decl: names.declaration(at),
        number: names.local_number(at),
        of,
    }
}

// The variable of a loop at its name.
fn variable_at<B: Base>(
    names: &Scope<'_, B>,
    at: u32,
    of: Result<TypeFound, Halt>,
    first: Result<Expr, Halt>,
) -> Result<LoopVariable, Halt>
    ensures { VariableAt (context_of B.context names.now) at of first result }
{
    let (of, first) = beside(of, first)?;
    let TypeFound { of, .. } = of;
    Ok(LoopVariable {
        local: named_local(names, at, of),
        first,
    })
}

/// The variable of a loop, of a type of at most 65,536 bits (E701), with its first value, which is converted to the type (IEEE 1800-2017
/// clause 12.7.1). The first break in the order of the text counts.
pub fn loop_variable<B: Base, C: Fn(u32, &mut Known) -> Result<u32, Halt>>(
    alloc: Global,
    names: &Scope<'_, B>,
    needs: &C,
    start: &LoopStart,
    known: &mut Known,
) -> Result<LoopVariable, Halt>
    requires needs { MakesKnown _ ((n : _) (k : _) → IsReady k.now → C.pre needs.now n k) (λ k. k.now) (C.post needs.now) (context_of B.context names.now) }
    requires names { Surrounded AllSoundFunctions (context_of B.context names.now) }
    requires written { start_written start.now ≡ true }
    requires ready { IsReady known.old }
    ensures value { TypesTo (as_meant variable_of result) (statement.loop_variable (context_of B.context names.now) start.now known.old.functions) known.new.functions }
    ensures ready { IsReady known.new }
    ensures keeps { Extends known.old.functions known.new.functions }
{
    let of = loop_type(alloc, names, needs, start, known);
    let first = first_value(alloc, names, needs, &of, start, known);
    variable_at(names, start.name, of, first)
}
