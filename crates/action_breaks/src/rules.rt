//! The rules.

ghost use Rattle.std.specs.Prelude.{◌≡◌, ◌++◌, ℕ, false, List};
ghost use Rattle.sv_types.specs.declared.design.Design.{Design};
ghost use Rattle.design_breaks.specs.Memories.{is_edged};
ghost use Rattle.design_breaks.specs.Breaks as B;
ghost use Rattle.least_breaks.specs.Least.{IsLeastToken};
ghost use Rattle.action_breaks.specs.Misuse.{IsWrong};

use crate::misuse::misuse_of;
use sv_types::{Function, Process, ProcessKind};

/// The least tokens at which a process breaks the rules on assignments.
#[derive(Clone, Copy)]
pub struct Wrong {
    /// Of E605.
    pub at_once: Option<u32>,
    /// Of E606.
    pub deferred: Option<u32>,
}

// Whether a process waits for edges.
fn waits_for_edges(kind: &ProcessKind) -> bool
    ensures { result ≡ is_edged kind.now }
{
    match kind {
        ProcessKind::Continuous => false,
        ProcessKind::Link(_) => false,
        ProcessKind::Comb => false,
        ProcessKind::Latch => false,
        ProcessKind::Star => false,
        ProcessKind::Edges(_) => true,
    }
}

// The lesser one of the least tokens of two lists.
fn lesser_token(a: Option<u32>, b: Option<u32>) -> Option<u32>
    ensures { (xs ys : List ℕ) → IsLeastToken xs a → IsLeastToken ys b → IsLeastToken (xs ++ ys) result }
{
    match (a, b) {
        (None, b) => b,
        (Some(a), None) => Some(a),
        (Some(a), Some(b)) => Some(a.min(b)),
    }
}

/// Where a process first breaks the rules on blocking (E605) and nonblocking (E606) assignments. The functions are those of its design.
pub fn process_wrong(functions: &[Function], process: &Process) -> Wrong
    ensures { (d : Design) → functions.now ≡ d.functions → IsWrong d process.now result }
{
    let misuse = misuse_of(functions, &process.body);
    if waits_for_edges(&process.kind) {
        return Wrong {
            at_once: lesser_token(misuse.blocking, misuse.passed),
            deferred: misuse.local_later,
        };
    }
    Wrong {
        at_once: None,
        deferred: misuse.later,
    }
}

/// The first nonblocking assignment of a function (E606). The functions are those of its design.
pub fn function_deferred(functions: &[Function], function: &Function) -> Option<u32>
    ensures { (d : Design) → functions.now ≡ d.functions → IsLeastToken (B.deferred d false function.now.body) result }
{
    misuse_of(functions, &function.body).later
}
