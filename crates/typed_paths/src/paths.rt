//! Select paths, step by step.

ghost use Rattle.std.specs.Prelude.{◌≤◌};
ghost use Rattle.sv_types.specs.Expressions.{meaning};
ghost use Rattle.typed_paths.specs.Tests.{Tells, EndsInPart};
ghost use Rattle.typed_paths.specs.Typed.{IsTyped};

use crate::types::{has_elements, is_part_type, is_slide_type};
use eval_parts::{Step, step_of};
use sv_types::Expr;

/// Whether the last step of a path is a part-select.
pub fn ends_in_part(e: &Expr) -> bool
    ensures { EndsInPart result e.now }
{
    match step_of(e) {
        None => false,
        Some(Step::Signal(_)) => false,
        Some(Step::Local(_)) => false,
        Some(Step::Member(_, _)) => false,
        Some(Step::Index(_, _)) => false,
        Some(Step::Part { .. }) => true,
        Some(Step::Slide { .. }) => true,
    }
}

/// Whether an expression is a select path on a signal or local of which each step has what it needs: no member is one of a
/// part-select, what is selected from by an index or a part-select has elements, and a part-select has the bounds and elements that
/// the rules give it.
pub fn is_typed_path(e: &Expr) -> bool
    requires narrow { (meaning e.now).widest ≤ 4194304 }
    ensures { Tells result (IsTyped e.now) }
{
    match step_of(e) {
        None => false,
        Some(Step::Signal(_)) => true,
        Some(Step::Local(_)) => true,
        Some(Step::Member(from, _)) => !ends_in_part(from) && is_typed_path(from),
        Some(Step::Index(from, _)) => has_elements(&from.of) && is_typed_path(from),
        Some(Step::Part { from, left, right }) => {
            is_part_type(&e.of, &from.of, left, right) && is_typed_path(from)
        }
        Some(Step::Slide { from, width, .. }) => {
            is_slide_type(&e.of, &from.of, width) && is_typed_path(from)
        }
    }
}
