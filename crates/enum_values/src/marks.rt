//! Whether a stream stands in something or in a function that it calls, by the marks of functions.

ghost use Rattle.std.specs.Prelude.{◌≡◌, false, slice_index_or};
ghost use Rattle.std.specs.List.{list_any};
ghost use Rattle.expr_type.specs.Uses as uses;

use expr_type::Uses;

// Whether a function is marked.
#[tactic(auto, using(constant_types::proofs::Marked::marked))]
fn is_marked(marks: &[bool], function: u32) -> bool
    ensures { result ≡ slice_index_or marks.now function false }
{
    match sv_source::at(marks, function as usize) {
        Some(mark) => *mark,
        None => false,
    }
}

// Whether one of some functions is marked.
fn calls_marked(marks: &[bool], calls: &[u32]) -> bool
    ensures { result ≡ list_any (λ n. slice_index_or marks.now n false) calls.now }
{
    for function in calls {
        if is_marked(marks, *function) {
            return true;
        }
    }
    false
}

/// Whether a stream stands in something, or in a function that it calls.
pub(crate) fn reaches(marks: &[bool], u: &Uses) -> bool
    ensures { result ≡ uses.reaches marks.now u.now }
{
    u.streams || calls_marked(marks, u.calls.as_slice())
}
