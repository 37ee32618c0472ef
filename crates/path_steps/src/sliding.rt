//! Part-selects by an index that is known in the source.

ghost use Rattle.std.specs.Prelude.{◌≡◌, ◌≤◌, ◌^◌, unsigned_abs, IfSome};
ghost use Rattle.sv_types.specs.Layouts.{width_of};
ghost use Rattle.path_flatten.specs.Stepping.{IsSound};
ghost use Rattle.path_steps.specs.Sliding.{ReadsKnownSlide};

use eval_parts::slide_at;
use path_flatten::Reading;
use sv_types::SvType;

/// So many elements from a known index on, upward or downward, or none in range where the index has x or z; of what has this type.
pub fn sliding_step(
    reading: Reading,
    of: &SvType,
    up: bool,
    count: u32,
    index: Option<i128>,
) -> Reading
    requires narrow { width_of of.now ≤ 4194304 }
    requires index { IfSome index (λ k. unsigned_abs k ≤ 2 ^ 64) }
    requires sound { IsSound reading }
    ensures sound { IsSound result }
    ensures reads { ReadsKnownSlide reading of.now up count index result }
    ensures root { result.root ≡ reading.root }
{
    Reading {
        root: reading.root,
        width: reading.width,
        window: slide_at(of, up, count, index, reading.window),
    }
}
