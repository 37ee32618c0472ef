//! Which functions hold a stream, by themselves or by functions that they call (IEEE 1800-2017 clause 11.4.14).

ghost use Rattle.std.specs.Prelude.{◌≡◌, false, slice_index_or, IfOk};
ghost use Rattle.std.specs.List.{list_any};
ghost use Rattle.expr_type.specs.Uses as uses;

use crate::exprs::no_uses;
use crate::stmts::add_stmt;
use expr_type::Uses;
use std::alloc::{AllocError, Global};
use sv_source::Items;
use sv_types::Function;

// Whether a function is marked.
#[tactic(auto, using(crate::proofs::Marked::marked))]
fn is_marked(marks: &[bool], function: u32) -> bool
    ensures { result ≡ slice_index_or marks.now function false }
{
    match sv_source::at(marks, function as usize) {
        Some(mark) => *mark,
        None => false,
    }
}

// Whether one of some functions is marked.
fn calls_marked(marks: &[bool], calls: &[u32]) -> bool
    ensures { result ≡ list_any (λ n. slice_index_or marks.now n false) calls.now }
{
    for function in calls {
        if is_marked(marks, *function) {
            return true;
        }
    }
    false
}

/// Whether a stream stands in something, or in a function that it calls.
pub(crate) fn reaches(marks: &[bool], u: &Uses) -> bool
    ensures { result ≡ uses.reaches marks.now u.now }
{
    u.streams || calls_marked(marks, u.calls.as_slice())
}

/// Whether a function holds a stream, by the marks of the functions before it. Or want of memory.
pub fn mark_of(alloc: Global, marks: &[bool], function: &Function) -> Result<bool, AllocError>
    ensures { IfOk result (λ mark. mark ≡ uses.mark_of marks.now function.now) }
{
    let mut all = no_uses(alloc);
    add_stmt(&function.body, &mut all)?;
    Ok(reaches(marks, &all))
}

/// For each function whether it holds a stream. Each stands behind those that it calls. Or want of memory.
pub fn stream_marks(alloc: Global, functions: &[Function]) -> Result<Items<bool>, AllocError>
    ensures { IfOk result (λ marks. marks ≡ uses.stream_marks functions.now) }
{
    let mut marks = Items::new(alloc);
    for function in functions {
        let mark = mark_of(alloc, marks.as_slice(), function)?;
        marks.push(mark)?;
    }
    Ok(marks)
}
