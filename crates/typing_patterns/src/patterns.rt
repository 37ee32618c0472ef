//! Patterns behind their ticks.

ghost use Rattle.std.specs.Prelude.{◌≡◌};
ghost use Rattle.typing_fits.specs.Operands.{SoundContext};
ghost use Rattle.typing_fits.specs.Sound.{Extends};
ghost use Rattle.typing_parts.specs.Operands.{as_operand};
ghost use Rattle.typing_parts.specs.Typists.{AllCanType, IsReady, NarrowIfOk};
ghost use Rattle.typing_patterns.specs.Written.{pattern_by};
ghost use Rattle.typing_steps.specs.Steps.{TypesTo};
ghost use Rattle.typing_values.specs.Children.{in_pattern};

use crate::items::{repeated, written};
use expr_type::Halt;
use pattern_types::Operand;
use std::alloc::Global;
use sv_tree::{Expr, Pattern};
use typing_parts::{Known, Names};
use typing_values::{behind_quiet, count};

/// A pattern behind its tick: its items as they are written, or values that are repeated (E510 where they are not even once).
#[tactic(auto, using(crate::proofs::Putting::patterns))]
pub fn pattern<S: Names, F: Fn(&Expr, &mut Known) -> Result<Operand, Halt>>(
    alloc: Global,
    names: &S,
    typed: &F,
    tick: u32,
    of: &Pattern,
    known: &mut Known,
) -> Result<Operand, Halt>
    requires names { SoundContext (S.context names.now) }
    requires can { AllCanType _ _ (λ e. e.now) (λ k. k.now) (F.pre typed.now) (F.post typed.now) (S.context names.now) (in_pattern of.now) }
    requires ready { IsReady known.old }
    ensures value { TypesTo (as_operand (S.context names.now).source result) (pattern_by (S.context names.now) tick of.now known.old.functions) known.new.functions }
    ensures narrow { NarrowIfOk result }
    ensures ready { IsReady known.new }
    ensures keeps { Extends known.old.functions known.new.functions }
{
    match of {
        Pattern::Items(items) => {
            let items = written(alloc, names, typed, items.as_slice(), known)?;
            Ok(Operand::Pattern {
                tick,
                times: 1,
                items,
            })
        }
        Pattern::Replication {
            count: times,
            items,
            ..
        } => match count(alloc, names, typed, times.get(), known) {
            Ok(times) => {
                let items = repeated(alloc, names, typed, items.as_slice(), known)?;
                Ok(Operand::Pattern { tick, times, items })
            }
            Err(Halt::Memory) => Err(Halt::Memory),
            Err(Halt::Breaks { at, rule }) => Err(Halt::Breaks { at, rule }),
            Err(Halt::Quiet) => {
                let items = repeated(alloc, names, typed, items.as_slice(), known);
                Err(behind_quiet(items))
            }
        },
    }
}
