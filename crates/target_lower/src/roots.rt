//! What select paths stand on.

ghost use Rattle.std.specs.Prelude.{◌≡◌, ◌≤◌, IfOk};
ghost use Rattle.sv_types.specs.Expressions.{meaning};
ghost use Rattle.target_lower.specs.Roots.{IsRootOf, OneHeld, name_under};

use eval_parts::{Step, step_of};
use name_maps::{local_text, signal_text};
use std::alloc::{AllocError, Global};
use sv_source::Text;
use sv_types::{Expr, width};
use v_tree::NameMap;

/// A signal or local by its number, if there is one.
#[derive(Clone, Copy)]
pub(crate) enum Held {
    /// None.
    Nothing,
    /// A signal.
    Signal(u32),
    /// A local.
    Local(u32),
}

/// What a path stands on, and how many bits it has.
#[derive(Clone, Copy)]
pub(crate) struct Root {
    pub held: Held,
    pub bits: u32,
}

/// The signal or local that a path stands on.
pub(crate) fn root_of(e: &Expr) -> Root
    requires narrow { (meaning e.now).widest ≤ 4194304 }
    ensures root { IsRootOf result e.now }
    ensures narrow { result.bits ≤ 4194304 }
{
    match step_of(e) {
        None => Root {
            held: Held::Nothing,
            bits: 0,
        },
        Some(Step::Signal(n)) => Root {
            held: Held::Signal(n),
            bits: width(&e.of),
        },
        Some(Step::Local(n)) => Root {
            held: Held::Local(n),
            bits: width(&e.of),
        },
        Some(Step::Member(from, _)) => root_of(from),
        Some(Step::Index(from, _)) => root_of(from),
        Some(Step::Part { from, .. }) => root_of(from),
        Some(Step::Slide { from, .. }) => root_of(from),
    }
}

/// The name under which a signal or local stands in the text.
pub(crate) fn name_of(alloc: Global, names: &NameMap, held: Held) -> Result<Text, AllocError>
    ensures { IfOk result (λ t. OneHeld names.now held → t ≡ name_under names.now held) }
{
    match held {
        Held::Nothing => Ok(Text::new(alloc)),
        Held::Signal(n) => signal_text(alloc, names.signals.as_slice(), n),
        Held::Local(n) => local_text(alloc, names.locals.as_slice(), n),
    }
}
