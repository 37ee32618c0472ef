//! Where an expression is valued.

ghost use Rattle.std.specs.Prelude.{◌≡◌, map, IfOk};
ghost use Rattle.picks.specs.Windows.{picked, tabulated};
ghost use Rattle.v_meaning.specs.Values.{sel_meaning, width_of};
ghost use Rattle.v_eval.specs.Holding.{bit_in, bit_or_x};
ghost use Rattle.v_eval.specs.Paths.{named_or_not, IsShort};
ghost use Rattle.v_eval.specs.Windows.{window_of};

use crate::held::{Held, read};
use crate::paths::{Named, Path};
use crate::scopes::Scope;
use crate::widths::name_wide;
use b4_core::Vec4;
use std::alloc::{AllocError, Global};
use sv_source::Items;
use v_tree::VSel;

/// Vectors, in order.
pub type Vectors = Items<Vec4>;

/// Where an expression is valued: what names stand for there, and what signals and locals hold.
#[derive(Clone, Copy)]
pub struct Around<'a> {
    /// What names stand for.
    pub scope: Scope<'a>,
    /// What signals and locals hold.
    pub held: Held<'a>,
}

/// The number of what a name stands for.
pub fn number_of(named: Option<Named>) -> u64
    ensures { result ≡ (named_or_not named).number }
{
    match named {
        None => 0,
        Some(named) => named.number,
    }
}

/// What a name with selects reads, by its path. Or want of memory.
pub fn read_name(
    alloc: Global,
    held: Held<'_>,
    named: Option<Named>,
    sels: &[VSel],
    path: Path,
) -> Result<Vec4, AllocError>
    requires { IsShort path }
    ensures { IfOk result (λ v. v ≡ tabulated (width_of (named_or_not named) (map sel_meaning sels.now)) (λ j. bit_or_x (bit_in held.entry (named_or_not named).number) (picked (window_of path.window) j))) }
{
    let width = name_wide(sels, named)?;
    let bits = held.bits_of(number_of(named));
    read(alloc, bits, path.window, width)
}
