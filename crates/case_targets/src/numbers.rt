//! The bits with which an index has a number.

ghost use Rattle.std.specs.Prelude.{◌≤◌, IfOk};
ghost use Rattle.case_targets.specs.Spreading.{HasBitsIf};

use b4_core::Vec4;
use eval_parts::index_of;
use index_cases::number_bits;
use path_flatten::Index;
use std::alloc::{AllocError, Global};

/// The bits with which an index has a number; nothing if it never has that one.
pub(crate) fn bits_of(alloc: Global, i: &Index, k: i128) -> Result<Option<Vec4>, AllocError>
    requires short { i.now.width ≤ 64 }
    ensures { IfOk result (HasBitsIf i.now k) }
{
    let bits = number_bits(alloc, i.width, k)?;
    match index_of(&bits, i.signed) {
        None => Ok(None),
        Some(z) => { if z == k { Ok(Some(bits)) } else { Ok(None) } }
    }
}
