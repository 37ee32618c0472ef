//! Calls, and what routines need.

ghost use Rattle.std.specs.Prelude.{◌≡◌, map, IfOk};
ghost use Rattle.call_circles.specs.Calls as means;
ghost use Rattle.call_circles.specs.Ways as ways;

use sqlite_items::Items;
use std::alloc::{AllocError, Global};

/// A call. A function or task is a routine, named by a number.
#[derive(Debug, Clone, Copy, Drop)]
pub struct Call {
    /// The routine that it stands in, if it stands in one.
    pub from: Option<u32>,
    /// The routine that is called.
    pub to: u32,
    /// Its token.
    pub at: u32,
}

/// A constant, type or enum name that a routine names and that is declared outside routines.
#[derive(Debug, Clone, Copy, Drop)]
pub struct Need {
    /// The routine.
    pub routine: u32,
    /// The last token of the declaration.
    pub last: u32,
}

/// Whether a call stands in a routine.
pub fn is_from(from: Option<u32>, routine: u32) -> bool
    ensures { result ≡ means.is_from from routine }
{
    match from {
        None => false,
        Some(from) => from == routine,
    }
}

/// The call turned round, if it stands in a routine.
pub fn turned(call: Call) -> Call
    ensures { result ≡ ways.turned call }
{
    match call.from {
        None => call,
        Some(from) => Call {
            from: Some(call.to),
            to: from,
            at: call.at,
        },
    }
}

/// All calls turned round.
pub fn all_turned(alloc: Global, calls: &[Call]) -> Result<Items<Call>, AllocError>
    ensures { IfOk result (λ cs. cs ≡ map ways.turned calls.now) }
{
    let mut all = Items::new(alloc);
    for call in calls {
        all.push(turned(*call))?;
    }
    Ok(all)
}

/// The lesser one of a number and one that may be missing.
fn lesser(a: u32, b: Option<u32>) -> Option<u32>
    ensures { result ≡ means.lesser a b }
{
    match b {
        None => Some(a),
        Some(b) => Some(if b < a { b } else { a }),
    }
}

/// The first number, if it counts, and one that may be missing.
pub fn lesser_if(counts: bool, a: u32, b: Option<u32>) -> Option<u32>
    ensures { result ≡ means.lesser_if counts a b }
{
    if counts { lesser(a, b) } else { b }
}
