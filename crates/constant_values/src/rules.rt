//! What stands in constants of any type.

ghost use Rattle.std.specs.Prelude.{◌≡◌, false, slice_index_or};
ghost use Rattle.std.specs.List.{list_any};
ghost use Rattle.expr_type.specs.Answers.{source};
ghost use Rattle.expr_type.specs.Uses as uses;
ghost use Rattle.constant_values.specs.Rules.{MayStand, ruled, stream_is_sooner};

use constant_types::uses_of;
use expr_type::{Halt, Source, Uses};
use std::alloc::Global;
use sv_types::{Expr, Functions};

// Whether a function is marked.
#[tactic(auto, using(constant_types::proofs::Marked::marked))]
fn is_marked(marks: &[bool], function: u32) -> bool
    ensures { result ≡ slice_index_or marks.now function false }
{
    match sv_source::at(marks, function as usize) {
        Some(mark) => *mark,
        None => false,
    }
}

// Whether one of some functions is marked.
fn is_any_marked(marks: &[bool], calls: &[u32]) -> bool
    ensures { result ≡ list_any (λ n. slice_index_or marks.now n false) calls.now }
{
    for function in calls {
        if is_marked(marks, *function) {
            return true;
        }
    }
    false
}

// Whether a stream stands in something, or in a function that it calls.
fn reaches_stream(marks: &[bool], u: &Uses) -> bool
    ensures { result ≡ uses.reaches marks.now u.now }
{
    u.streams || is_any_marked(marks, u.calls.as_slice())
}

// Whether the break of a stream, which stands at the first token, comes before another one.
fn stream_is_sooner(first: u32, at: u32, rule: u16) -> bool
    ensures { result ≡ stream_is_sooner first at rule }
{
    first < at || (first == at && 512 < rule)
}

// Which rule counts: E406 before all others; of E512 and another one that which stands first.
fn ruled(names: bool, stream: bool, first: u32, other: Result<(), Halt>) -> Result<(), Halt>
    ensures { result ≡ ruled names stream first other }
{
    if names {
        return Err(Halt::Breaks {
            at: first,
            rule: 406,
        });
    }
    if !stream {
        return other;
    }
    let by_stream = Halt::Breaks {
        at: first,
        rule: 512,
    };
    match other {
        Ok(()) => Err(by_stream),
        Err(Halt::Memory) => Err(Halt::Memory),
        Err(Halt::Quiet) => Err(by_stream),
        Err(Halt::Breaks { at, rule }) => {
            if stream_is_sooner(first, at, rule) {
                Err(by_stream)
            } else {
                Err(Halt::Breaks { at, rule })
            }
        }
    }
}

/// The rules on what stands in a constant that begins with the token `first`: E406 where it names a signal or a local, and E512 where
/// a stream stands in it or in a function that it calls, unless `other`, which is another rule on it, is broken before that.
#[tactic(auto, using(crate::proofs::Standing::standing))]
pub(crate) fn may_stand(
    alloc: Global,
    text: Source<'_>,
    first: u32,
    e: &Expr,
    other: Result<(), Halt>,
    functions: &Functions,
    marks: &[bool],
) -> Result<(), Halt>
    requires { marks.now ≡ uses.stream_marks functions.now }
    ensures { MayStand (source text.entry) first functions.now e.now other result }
{
    let uses = uses_of(alloc, e)?;
    ruled(uses.names, reaches_stream(marks, &uses), first, other)
}
