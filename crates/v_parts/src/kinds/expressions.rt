//! What stands among the parts of expressions and targets.

use crate::kind::{Kind, discard};
use v_tree::{VBinaryOp, VExpr, VExprs, VExtent, VLval, VPart, VPrim, VSel, VSels, VUnaryOp};

/// An expression.
pub struct Expr;

impl Kind for Expr {
    ghost use Rattle.v_tree.specs.Parts.{as_expr};

    type Value = VExpr;

    ghost value = { as_expr };

    fn is(part: &VPart) -> bool {
        match part {
            VPart::Expr(_) => true,
            _ => false,
        }
    }

    fn take(part: VPart) -> Option<VExpr> {
        match part {
            VPart::Expr(value) => Some(value),
            rest => {
                discard(rest);
                None
            }
        }
    }
}

/// An operand.
pub struct Prim;

impl Kind for Prim {
    ghost use Rattle.v_tree.specs.Parts.{as_prim};

    type Value = VPrim;

    ghost value = { as_prim };

    fn is(part: &VPart) -> bool {
        match part {
            VPart::Prim(_) => true,
            _ => false,
        }
    }

    fn take(part: VPart) -> Option<VPrim> {
        match part {
            VPart::Prim(value) => Some(value),
            rest => {
                discard(rest);
                None
            }
        }
    }
}

/// A binary operator.
pub struct BinaryOp;

impl Kind for BinaryOp {
    ghost use Rattle.v_tree.specs.Parts.{as_binary_op};

    type Value = VBinaryOp;

    ghost value = { as_binary_op };

    fn is(part: &VPart) -> bool {
        match part {
            VPart::BinaryOp(_) => true,
            _ => false,
        }
    }

    fn take(part: VPart) -> Option<VBinaryOp> {
        match part {
            VPart::BinaryOp(value) => Some(value),
            _ => None,
        }
    }
}

/// A unary operator.
pub struct UnaryOp;

impl Kind for UnaryOp {
    ghost use Rattle.v_tree.specs.Parts.{as_unary_op};

    type Value = VUnaryOp;

    ghost value = { as_unary_op };

    fn is(part: &VPart) -> bool {
        match part {
            VPart::UnaryOp(_) => true,
            _ => false,
        }
    }

    fn take(part: VPart) -> Option<VUnaryOp> {
        match part {
            VPart::UnaryOp(value) => Some(value),
            _ => None,
        }
    }
}

/// A binary operator and its right operand.
pub struct Right;

impl Kind for Right {
    ghost use Rattle.v_tree.specs.Parts.{as_right};

    type Value = (VBinaryOp, VPrim);

    ghost value = { as_right };

    fn is(part: &VPart) -> bool {
        match part {
            VPart::Right(_, _) => true,
            _ => false,
        }
    }

    fn take(part: VPart) -> Option<(VBinaryOp, VPrim)> {
        match part {
            VPart::Right(a, b) => Some((a, b)),
            rest => {
                discard(rest);
                None
            }
        }
    }
}

/// The two values of `? :`.
pub struct Arms;

impl Kind for Arms {
    ghost use Rattle.v_tree.specs.Parts.{as_arms};

    type Value = (VPrim, VPrim);

    ghost value = { as_arms };

    fn is(part: &VPart) -> bool {
        match part {
            VPart::Arms(_, _) => true,
            _ => false,
        }
    }

    fn take(part: VPart) -> Option<(VPrim, VPrim)> {
        match part {
            VPart::Arms(a, b) => Some((a, b)),
            rest => {
                discard(rest);
                None
            }
        }
    }
}

/// The arguments of a call.
pub struct Args;

impl Kind for Args {
    ghost use Rattle.v_tree.specs.Parts.{as_args};

    type Value = VExprs;

    ghost value = { as_args };

    fn is(part: &VPart) -> bool {
        match part {
            VPart::Args(_) => true,
            _ => false,
        }
    }

    fn take(part: VPart) -> Option<VExprs> {
        match part {
            VPart::Args(value) => Some(value),
            rest => {
                discard(rest);
                None
            }
        }
    }
}

/// Whether a word is `$signed`, not `$unsigned`.
pub struct Sign;

impl Kind for Sign {
    ghost use Rattle.v_tree.specs.Parts.{as_sign};

    type Value = bool;

    ghost value = { as_sign };

    fn is(part: &VPart) -> bool {
        match part {
            VPart::Sign(_) => true,
            _ => false,
        }
    }

    fn take(part: VPart) -> Option<bool> {
        match part {
            VPart::Sign(value) => Some(value),
            _ => None,
        }
    }
}

/// A target.
pub struct Lval;

impl Kind for Lval {
    ghost use Rattle.v_tree.specs.Parts.{as_lval};

    type Value = VLval;

    ghost value = { as_lval };

    fn is(part: &VPart) -> bool {
        match part {
            VPart::Lval(_) => true,
            _ => false,
        }
    }

    fn take(part: VPart) -> Option<VLval> {
        match part {
            VPart::Lval(value) => Some(value),
            rest => {
                discard(rest);
                None
            }
        }
    }
}

/// A select.
pub struct Sel;

impl Kind for Sel {
    ghost use Rattle.v_tree.specs.Parts.{as_sel};

    type Value = VSel;

    ghost value = { as_sel };

    fn is(part: &VPart) -> bool {
        match part {
            VPart::Sel(_) => true,
            _ => false,
        }
    }

    fn take(part: VPart) -> Option<VSel> {
        match part {
            VPart::Sel(value) => Some(value),
            rest => {
                discard(rest);
                None
            }
        }
    }
}

/// The selects behind a name.
pub struct Sels;

impl Kind for Sels {
    ghost use Rattle.v_tree.specs.Parts.{as_sels};

    type Value = VSels;

    ghost value = { as_sels };

    fn is(part: &VPart) -> bool {
        match part {
            VPart::Sels(_) => true,
            _ => false,
        }
    }

    fn take(part: VPart) -> Option<VSels> {
        match part {
            VPart::Sels(value) => Some(value),
            rest => {
                discard(rest);
                None
            }
        }
    }
}

/// What stands behind the base of a select.
pub struct Extent;

impl Kind for Extent {
    ghost use Rattle.v_tree.specs.Parts.{as_extent};

    type Value = VExtent;

    ghost value = { as_extent };

    fn is(part: &VPart) -> bool {
        match part {
            VPart::Extent(_) => true,
            _ => false,
        }
    }

    fn take(part: VPart) -> Option<VExtent> {
        match part {
            VPart::Extent(value) => Some(value),
            _ => None,
        }
    }
}
