//! How far unrolling has come.

ghost use Rattle.std.specs.Prelude.{◌≡◌, Some};
ghost use Rattle.design_breaks.specs.Unrolling as U;
ghost use Rattle.loop_laws.specs.Walks.{one_more as spec_one_more};

use bound_values::lesser;
use design_breaks::Unrolled;

/// One more statement stands.
pub fn one_more(so_far: Unrolled) -> Unrolled
    ensures { result ≡ spec_one_more so_far }
{
    let left = match so_far.left {
        None => None,
        Some(0) => None,
        Some(n) => Some(n - 1),
    };
    Unrolled {
        left,
        endless: so_far.endless,
    }
}

/// A loop that doesn't end, or a constant that takes too long, may have been found at this token.
pub fn found(at: Option<u32>, so_far: Unrolled) -> Unrolled
    ensures { result ≡ U.found at so_far }
{
    match at {
        None => so_far,
        Some(at) => Unrolled {
            left: so_far.left,
            endless: lesser(so_far.endless, Some(at)),
        },
    }
}

/// As many statements may stand as at first.
pub fn refilled(so_far: Unrolled) -> Unrolled
    ensures { result ≡ record so_far { left = Some U.most_statements } }
{
    Unrolled {
        left: Some(1048576),
        endless: so_far.endless,
    }
}

/// What was added doesn't count, unless it is too much by itself.
pub fn with_left(left: Option<u32>, so_far: Unrolled) -> Unrolled
    ensures { result ≡ U.with_left left so_far }
{
    match so_far.left {
        None => so_far,
        Some(_) => Unrolled {
            left,
            endless: so_far.endless,
        },
    }
}

/// Whether such a token was found at this one or before it.
pub fn is_past(endless: Option<u32>, at: u32) -> bool
    ensures { result ≡ U.is_past endless at }
{
    match endless {
        None => false,
        Some(t) => t <= at,
    }
}
