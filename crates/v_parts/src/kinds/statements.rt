//! What stands among the parts of statements.

use crate::kind::{Kind, discard};
use v_tree::{VBranch, VCaseItem, VCaseItems, VCaseKind, VLabel, VLocal, VPart, VStmt};

/// A statement.
pub struct Stmt;

impl Kind for Stmt {
    ghost use Rattle.v_tree.specs.Parts.{as_stmt};

    type Value = VStmt;

    ghost value = { as_stmt };

    fn is(part: &VPart) -> bool {
        match part {
            VPart::Stmt(_) => true,
            _ => false,
        }
    }

    fn take(part: VPart) -> Option<VStmt> {
        match part {
            VPart::Stmt(value) => Some(value),
            rest => {
                discard(rest);
                None
            }
        }
    }
}

/// What another statement governs.
pub struct Branch;

impl Kind for Branch {
    ghost use Rattle.v_tree.specs.Parts.{as_branch};

    type Value = VBranch;

    ghost value = { as_branch };

    fn is(part: &VPart) -> bool {
        match part {
            VPart::Branch(_) => true,
            _ => false,
        }
    }

    fn take(part: VPart) -> Option<VBranch> {
        match part {
            VPart::Branch(value) => Some(value),
            rest => {
                discard(rest);
                None
            }
        }
    }
}

/// What stands behind an `else`.
pub struct Else;

impl Kind for Else {
    ghost use Rattle.v_tree.specs.Parts.{as_else};

    type Value = VBranch;

    ghost value = { as_else };

    fn is(part: &VPart) -> bool {
        match part {
            VPart::Else(_) => true,
            _ => false,
        }
    }

    fn take(part: VPart) -> Option<VBranch> {
        match part {
            VPart::Else(value) => Some(value),
            rest => {
                discard(rest);
                None
            }
        }
    }
}

/// The word of a `case`.
pub struct CaseKind;

impl Kind for CaseKind {
    ghost use Rattle.v_tree.specs.Parts.{as_case_kind};

    type Value = VCaseKind;

    ghost value = { as_case_kind };

    fn is(part: &VPart) -> bool {
        match part {
            VPart::CaseKind(_) => true,
            _ => false,
        }
    }

    fn take(part: VPart) -> Option<VCaseKind> {
        match part {
            VPart::CaseKind(value) => Some(value),
            _ => None,
        }
    }
}

/// An item of a `case`.
pub struct CaseItem;

impl Kind for CaseItem {
    ghost use Rattle.v_tree.specs.Parts.{as_case_item};

    type Value = VCaseItem;

    ghost value = { as_case_item };

    fn is(part: &VPart) -> bool {
        match part {
            VPart::CaseItem(_) => true,
            _ => false,
        }
    }

    fn take(part: VPart) -> Option<VCaseItem> {
        match part {
            VPart::CaseItem(value) => Some(value),
            rest => {
                discard(rest);
                None
            }
        }
    }
}

/// Items of a `case`.
pub struct CaseItems;

impl Kind for CaseItems {
    ghost use Rattle.v_tree.specs.Parts.{as_case_items};

    type Value = VCaseItems;

    ghost value = { as_case_items };

    fn is(part: &VPart) -> bool {
        match part {
            VPart::CaseItems(_) => true,
            _ => false,
        }
    }

    fn take(part: VPart) -> Option<VCaseItems> {
        match part {
            VPart::CaseItems(value) => Some(value),
            rest => {
                discard(rest);
                None
            }
        }
    }
}

/// Whether an assignment is nonblocking.
pub struct Later;

impl Kind for Later {
    ghost use Rattle.v_tree.specs.Parts.{as_later};

    type Value = bool;

    ghost value = { as_later };

    fn is(part: &VPart) -> bool {
        match part {
            VPart::Later(_) => true,
            _ => false,
        }
    }

    fn take(part: VPart) -> Option<bool> {
        match part {
            VPart::Later(value) => Some(value),
            _ => None,
        }
    }
}

/// The name of a block with its variables.
pub struct Label;

impl Kind for Label {
    ghost use Rattle.v_tree.specs.Parts.{as_label};

    type Value = VLabel;

    ghost value = { as_label };

    fn is(part: &VPart) -> bool {
        match part {
            VPart::Label(_) => true,
            _ => false,
        }
    }

    fn take(part: VPart) -> Option<VLabel> {
        match part {
            VPart::Label(value) => Some(value),
            rest => {
                discard(rest);
                None
            }
        }
    }
}

/// A variable of a function or a block.
pub struct Local;

impl Kind for Local {
    ghost use Rattle.v_tree.specs.Parts.{as_local};

    type Value = VLocal;

    ghost value = { as_local };

    fn is(part: &VPart) -> bool {
        match part {
            VPart::Local(_) => true,
            _ => false,
        }
    }

    fn take(part: VPart) -> Option<VLocal> {
        match part {
            VPart::Local(value) => Some(value),
            rest => {
                discard(rest);
                None
            }
        }
    }
}
