//! The widths and signs at which operands are valued (IEEE 1800-2017 clause 11.8.2).

ghost use Rattle.std.specs.Prelude.{◌≡◌, ◌≤◌};
ghost use Rattle.sv_types.specs.Meanings.{wide, signed};
ghost use Rattle.sv_types.specs.Operators.{both_wide, both_signed};
ghost use Rattle.sv_types.specs.Expressions.{meaning};

use crate::layouts::is_signed;
use sv_types::{Expr, width};

/// The width of an expression alone.
#[tactic(auto, using(crate::proofs::TypeKinds::alone))]
pub fn own_width(e: &Expr) -> u32
    requires { (meaning e.now).widest ≤ 4194304 }
    ensures { result ≡ wide (meaning e.now) }
{
    width(&e.of)
}

/// Its sign.
#[tactic(auto, using(crate::proofs::TypeKinds::alone))]
pub fn own_sign(e: &Expr) -> bool
    ensures { result ≡ signed (meaning e.now) }
{
    is_signed(&e.of)
}

/// The larger width of two operands.
pub fn wider(left: &Expr, right: &Expr) -> u32
    requires left { (meaning left.now).widest ≤ 4194304 }
    requires right { (meaning right.now).widest ≤ 4194304 }
    ensures { result ≡ both_wide (meaning left.now) (meaning right.now) }
{
    own_width(left).max(own_width(right))
}

/// Whether both operands are signed.
pub fn are_signed(left: &Expr, right: &Expr) -> bool
    ensures { result ≡ both_signed (meaning left.now) (meaning right.now) }
{
    own_sign(left) && own_sign(right)
}
