//! A path with a number in place of an index, and its targets under the condition that the index has this number.

ghost use Rattle.std.specs.Prelude.{◌≤◌, IfOk, OnOk};
ghost use Rattle.v_meaning.specs.Values.{meaning};
ghost use Rattle.index_cases.specs.Cases.{matching};
ghost use Rattle.guarded_writes.specs.Under.{PutsUnder};
ghost use Rattle.case_targets.specs.Spreading.{HasCaseIf};

use crate::indices::{Indices, with_number};
use crate::numbers::bits_of;
use b4_core::Vec4;
use filled_paths::with_literal;
use guarded_writes::put_under;
use index_cases::has_bits;
use path_flatten::Index;
use std::alloc::{AllocError, Global};
use sv_types::Expr;
use target_flatten::Writes;
use target_walk::Given;

/// A path with a number in place of an index.
#[derive(Drop)]
pub(crate) struct Case {
    /// The bits with which the index has the number.
    pub number: Vec4,
    /// The path.
    pub path: Expr,
    /// Its indices so far, of which the number is the last one.
    pub done: Indices,
}

/// A path with a number in place of the index behind those that are done; nothing if the index never has the number.
pub(crate) fn case_of(
    alloc: Global,
    e: &Expr,
    done: &[Given],
    i: &Index,
    k: i128,
) -> Result<Option<Case>, AllocError>
    requires short { i.now.width ≤ 64 }
    ensures { IfOk result (HasCaseIf e.now done.now i.now k) }
{
    match bits_of(alloc, i, k)? {
        None => Ok(None),
        Some(number) => {
            let path = with_literal(alloc, e, done.len(), &number);
            let (number, path) = pairs::both(Ok(number), path)?;
            let (path, done) = pairs::both(Ok(path), with_number(alloc, done, k))?;
            Ok(Some(Case { number, path, done }))
        }
    }
}

/// Targets more, under the condition that an index has some bits.
pub(crate) fn put_case(
    alloc: Global,
    i: &Index,
    number: &Vec4,
    one: Writes,
    all: &mut Writes,
) -> Result<(), AllocError>
    ensures { OnOk result (PutsUnder (matching (meaning i.now.expr) number.now) one all.old all.new) }
{
    let condition = has_bits(alloc, &i.expr, number);
    let (condition, one) = pairs::both(condition, Ok(one))?;
    put_under(alloc, &condition, one, all)
}
