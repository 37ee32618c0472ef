//! Laws of designs that keep the rules.

ghost use Rattle.v_runs.specs.Depths.{NeverDeeper};
ghost use Rattle.v_runs.specs.Runnable.{ProcessesRun};

/// Instances are no deeper in each other than there are modules: modules aren't recursive (IEEE 1364-2005 clause 12.1.2).
#[tactic(auto, using(crate::proofs::Depth::deep))]
pub fn never_deeper()
    ensures { NeverDeeper }
{}

/// Each process of a design that keeps the rules, with at most two selects behind each name, has the table of its module, does no
/// arithmetic on over 128 bits, and writes bits that its signals have.
#[tactic(auto, using(crate::proofs::Running::running))]
pub fn processes_run()
    ensures { ProcessesRun }
{}
