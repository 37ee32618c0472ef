//! By which signals values and runs of the target are bound, whole signals told apart: laws of the definitions. No code.
#![tactic(auto)]

ghost use Rattle.v_footprints.specs.Laws.{ModulesHang, ExpressionsHang, TargetsHang, StatementsHang, TargetsWrite, StatementsWrite};

/// What a function gives hangs on the signals that it reads.
#[tactic(auto, using(crate::proofs::Calls::modules_hang))]
pub fn functions_hang()
    ensures { ModulesHang }
{}

/// The value of an expression hangs on the signals that it reads.
#[tactic(auto, using(crate::proofs::Values::expressions_hang))]
pub fn values_hang()
    ensures { ExpressionsHang }
{}

/// What a target writes hangs on the signals that it reads.
#[tactic(auto, using(crate::proofs::Runs::targets_hang))]
pub fn targets_hang()
    ensures { TargetsHang }
{}

/// What a statement does hangs on the signals that it reads.
#[tactic(auto, using(crate::proofs::Runs::statements_hang))]
pub fn statements_hang()
    ensures { StatementsHang }
{}

/// A target writes no bit of a signal but of those that it may write.
#[tactic(auto, using(crate::proofs::Writes::targets_write))]
pub fn targets_write()
    ensures { TargetsWrite }
{}

/// A statement writes no bit of a signal but of those that it may write.
#[tactic(auto, using(crate::proofs::Writes::statements_write))]
pub fn statements_write()
    ensures { StatementsWrite }
{}
