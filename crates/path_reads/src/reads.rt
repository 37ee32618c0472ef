//! What select paths read, in every context.

ghost use Rattle.std.specs.Prelude.{◌≡◌, ◌≤◌, IfOk, OnOk};
ghost use Rattle.sv_types.specs.Layouts.{width_of};
ghost use Rattle.v_meaning.specs.Values.{meaning};
ghost use Rattle.path_flatten.specs.Helping.{Grows};
ghost use Rattle.path_flatten.specs.Naming.{NamesRoot};
ghost use Rattle.path_flatten.specs.Stepping.{IsSound};
ghost use Rattle.path_flatten.specs.Storing.{ReadsPath, signed_as};

use crate::stored::stored_bits;
use eval_parts::is_signed;
use path_flatten::{Helpers, Reading, all_bits};
use std::alloc::{AllocError, Global};
use sv_types::{SvType, width};
use v_build::signing;
use v_tree::VExpr;

/// The same with a sign, or want of memory.
pub fn with_sign(alloc: Global, signed: bool, e: VExpr) -> Result<VExpr, AllocError>
    ensures { IfOk result (λ m. meaning m ≡ signed_as signed (meaning e)) }
{
    if signed {
        let made = signing(alloc, true, e)?;
        Ok(made)
    } else {
        Ok(e)
    }
}

/// What a path of this type reads, in every context, with its sign, by calls of some helpers. Or want of memory.
pub fn read(
    alloc: Global,
    reading: Reading,
    of: &SvType,
    helpers: &mut Helpers,
) -> Result<VExpr, AllocError>
    requires narrow { width_of of.now ≤ 4194304 }
    requires sound { IsSound reading }
    ensures grows { OnOk result (Grows helpers.old helpers.new) }
    ensures reads { IfOk result (λ m. ReadsPath reading of.now helpers.new (meaning m)) }
    ensures names { IfOk result (λ m. NamesRoot reading.root (meaning m)) }
{
    let bits = all_bits(alloc, reading, width(of), helpers)?;
    let kept = stored_bits(alloc, bits, of, helpers)?;
    let made = with_sign(alloc, is_signed(of), kept)?;
    Ok(made)
}
