//! Paths of selects behind a value (IEEE 1800-2017 clauses 7.2.1, 7.4.5, 7.4.6 and 11.5.1).

ghost use Rattle.std.specs.Prelude.{List, IfOk};
ghost use Rattle.sv_types.specs.declared.statement.Function.{Function};
ghost use Rattle.expr_type.specs.Typings.{Typing};
ghost use Rattle.expr_type.specs.declared.operand.Valued as V;
ghost use Rattle.operand_types.specs.Allowed.{IsNarrow};
ghost use Rattle.typing_fits.specs.Sound.{Extends};
ghost use Rattle.typing_steps.specs.Steps.{TypesTo};
ghost use Rattle.typing_parts.specs.Typists.{AllCanType, IsReady};
ghost use Rattle.typing_paths.specs.TypingValues.{in_select, in_selects};
ghost use Rattle.typing_paths.specs.Paths.{CanStep, path_of, selected_of, stepping_of};

use crate::behind_quiet;
use crate::steps::step;
use expr_type::{Halt, Step, Valued};
use pattern_types::Operand;
use select_types::stepped;
use std::alloc::Global;
use sv_tree::{Expr, Select};
use typing_parts::{Known, Names};

// A value and the select behind it: where what stands before isn't whole and breaks nothing, the select is looked at for its breaks.
#[tactic(auto, using(typing_steps::proofs::Combining::besides, typing_parts::proofs::Keeping::keepings))]
fn stepping<S: Names, F: Fn(&Expr, &mut Known) -> Result<Operand, Halt>>(
    alloc: Global,
    names: &S,
    typed: &F,
    from: Result<Valued, Halt>,
    select: &Select,
    known: &mut Known,
) -> Result<(Valued, Step), Halt>
    requires can { AllCanType _ _ (λ e. e.now) (λ k. k.now) (F.pre typed.now) (F.post typed.now) (S.context names.now) (in_select select.now) }
    requires narrow { IfOk from IsNarrow }
    requires ready { IsReady known.old }
    ensures value { (x : Typing V.Valued) (fs : List Function) → TypesTo from (x fs) known.old.functions → TypesTo result (stepping_of (S.context names.now) x select.now fs) known.new.functions }
    ensures can { IfOk result CanStep }
    ensures ready { IsReady known.new }
    ensures keeps { Extends known.old.functions known.new.functions }
{
    match from {
        Ok(v) => {
            let s = step(alloc, names, typed, select, known)?;
            Ok((v, s))
        }
        Err(Halt::Memory) => Err(Halt::Memory),
        Err(Halt::Breaks { at, rule }) => Err(Halt::Breaks { at, rule }),
        Err(Halt::Quiet) => Err(behind_quiet(step(alloc, names, typed, select, known))),
    }
}

// A value with one more select behind it.
#[tactic(auto, using(typing_steps::proofs::Combining::steps))]
fn selected<S: Names, F: Fn(&Expr, &mut Known) -> Result<Operand, Halt>>(
    alloc: Global,
    names: &S,
    typed: &F,
    from: Result<Valued, Halt>,
    select: &Select,
    known: &mut Known,
) -> Result<Valued, Halt>
    requires can { AllCanType _ _ (λ e. e.now) (λ k. k.now) (F.pre typed.now) (F.post typed.now) (S.context names.now) (in_select select.now) }
    requires narrow { IfOk from IsNarrow }
    requires ready { IsReady known.old }
    ensures value { (x : Typing V.Valued) (fs : List Function) → TypesTo from (x fs) known.old.functions → TypesTo result (selected_of (S.context names.now) x select.now fs) known.new.functions }
    ensures narrow { IfOk result IsNarrow }
    ensures ready { IsReady known.new }
    ensures keeps { Extends known.old.functions known.new.functions }
{
    match stepping(alloc, names, typed, from, select, known) {
        Ok((v, s)) => stepped(alloc, names.text(), v, s),
        Err(halt) => Err(halt),
    }
}

/// What selects make of a value before them, or of what isn't whole: then the selects are looked at for their breaks. It breaks E405
/// where a member isn't there, E508 where something is selected from a type that has no such parts, E411 where bounds go in the wrong
/// direction, and E701 where what is selected has more than 65,536 bits.
pub fn path<S: Names, F: Fn(&Expr, &mut Known) -> Result<Operand, Halt>>(
    alloc: Global,
    names: &S,
    typed: &F,
    first: Result<Valued, Halt>,
    selects: &[Select],
    known: &mut Known,
) -> Result<Valued, Halt>
    requires can { AllCanType _ _ (λ e. e.now) (λ k. k.now) (F.pre typed.now) (F.post typed.now) (S.context names.now) (in_selects selects.now) }
    requires narrow { IfOk first IsNarrow }
    requires ready { IsReady known.old }
    ensures value { (x : Typing V.Valued) (fs : List Function) → TypesTo first (x fs) known.old.functions → TypesTo result (path_of (S.context names.now) x selects.now fs) known.new.functions }
    ensures narrow { IfOk result IsNarrow }
    ensures ready { IsReady known.new }
    ensures keeps { Extends known.old.functions known.new.functions }
{
    let mut made = first;
    for select in selects {
        made = selected(alloc, names, typed, made, select, known);
    }
    made
}
