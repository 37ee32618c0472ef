//! What a select path stands on: which signals are memories, and what is no signal and no local.

ghost use Rattle.std.specs.Prelude.{option_copied, IfOk, IfSome};
ghost use Rattle.path_flatten.specs.Naming.{RootNames};
ghost use Rattle.path_flatten.specs.Stepping.{IsSound, ReadsValue};
ghost use Rattle.path_walk.specs.Bases.{value_of, IsMemoryAt};

use eval_parts::{Step, step_of};
use name_maps::is_memory;
use path_flatten::{Reading, copy_expr, whole_name, whole_value};
use std::alloc::{AllocError, Global};
use sv_source::Text;
use sv_types::Expr;
use v_tree::{SignalName, VExpr};

/// What reads all of an expression of so many bits, by the lowered one.
pub(crate) fn based(alloc: Global, base: Option<&VExpr>, width: u32) -> Result<Reading, AllocError>
    ensures sound { IfOk result IsSound }
    ensures reads { IfOk result (λ r. IfSome (value_of (option_copied base.entry)) (λ m. ReadsValue m width r)) }
    ensures names { IfOk result (λ r. IfSome (value_of (option_copied base.entry)) (λ m. RootNames m r.root)) }
{
    match base {
        None => Ok(whole_name(Text::new(alloc), width)),
        Some(value) => {
            let copy = copy_expr(alloc, value)?;
            let whole = whole_value(alloc, copy, width)?;
            Ok(whole)
        }
    }
}

/// The signal that an expression is all of, if that is a memory.
pub(crate) fn memory_at(names: &[SignalName], e: &Expr) -> Option<u32>
    ensures { IsMemoryAt names.now e.now result }
{
    match step_of(e) {
        None => None,
        Some(Step::Signal(n)) => { if is_memory(names, n) { Some(n) } else { None } }
        Some(Step::Local(_)) => None,
        Some(Step::Member(_, _)) => None,
        Some(Step::Index(_, _)) => None,
        Some(Step::Part { .. }) => None,
        Some(Step::Slide { .. }) => None,
    }
}
