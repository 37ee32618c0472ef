//! Names and numbers among parts.

use crate::kind::{Kind, discard};
use b4_core::Vec4;
use sv_source::Text;
use v_tree::VPart;

/// A name.
pub struct Name;

impl Kind for Name {
    ghost use Rattle.v_tree.specs.Parts.{as_name};

    type Value = Text;

    ghost value = { as_name };

    fn is(part: &VPart) -> bool {
        match part {
            VPart::Name(_) => true,
            _ => false,
        }
    }

    fn take(part: VPart) -> Option<Text> {
        match part {
            VPart::Name(value) => Some(value),
            rest => {
                discard(rest);
                None
            }
        }
    }
}

/// A sized binary number, its bits least first.
pub struct Number;

impl Kind for Number {
    ghost use Rattle.v_tree.specs.Parts.{as_number};

    type Value = Vec4;

    ghost value = { as_number };

    fn is(part: &VPart) -> bool {
        match part {
            VPart::Number(_) => true,
            _ => false,
        }
    }

    fn take(part: VPart) -> Option<Vec4> {
        match part {
            VPart::Number(value) => Some(value),
            rest => {
                discard(rest);
                None
            }
        }
    }
}

/// A decimal number.
pub struct Decimal;

impl Kind for Decimal {
    ghost use Rattle.v_tree.specs.Parts.{as_decimal};

    type Value = u32;

    ghost value = { as_decimal };

    fn is(part: &VPart) -> bool {
        match part {
            VPart::Decimal(_) => true,
            _ => false,
        }
    }

    fn take(part: VPart) -> Option<u32> {
        match part {
            VPart::Decimal(value) => Some(value),
            _ => None,
        }
    }
}

/// What says something.
pub struct Something;

impl Kind for Something {
    ghost use Rattle.v_tree.specs.Parts.{as_something};

    type Value = VPart;

    ghost value = { as_something };

    fn is(part: &VPart) -> bool {
        match part {
            VPart::Nothing => false,
            _ => true,
        }
    }

    fn take(part: VPart) -> Option<VPart> {
        match part {
            VPart::Nothing => None,
            part => Some(part),
        }
    }
}
