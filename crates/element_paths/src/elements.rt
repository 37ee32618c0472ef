//! The element of a signal that a select path goes on from.

ghost use Rattle.element_paths.specs.Elements.{TellsSignal, FindsElement};

use eval_parts::{Step, step_of};
use sv_types::{Expr, SvType};

/// An element of a signal.
#[derive(Clone, Copy)]
pub struct Element<'a> {
    /// The signal.
    pub signal: u32,
    /// The signal's type.
    pub of: &'a SvType,
    /// The element's index.
    pub index: &'a Expr,
}

/// The signal that an expression is, if it is a whole one.
pub(crate) fn whole_signal(e: &Expr) -> Option<u32>
    ensures { TellsSignal result e.now }
{
    match step_of(e) {
        None => None,
        Some(Step::Signal(n)) => Some(n),
        Some(Step::Local(_)) => None,
        Some(Step::Member(_, _)) => None,
        Some(Step::Index(_, _)) => None,
        Some(Step::Part { .. }) => None,
        Some(Step::Slide { .. }) => None,
    }
}

/// The element of a signal from which a select path goes on, or which it is.
pub fn element_under(e: &Expr) -> Option<Element<'_>>
    ensures { FindsElement result e.now }
{
    match step_of(e) {
        None => None,
        Some(Step::Signal(_)) => None,
        Some(Step::Local(_)) => None,
        Some(Step::Member(from, _)) => element_under(from),
        Some(Step::Index(from, index)) => match whole_signal(from) {
            None => element_under(from),
            Some(signal) => Some(Element {
                signal,
                of: &from.of,
                index,
            }),
        },
        Some(Step::Part { from, .. }) => element_under(from),
        Some(Step::Slide { from, .. }) => element_under(from),
    }
}
