//! What is known of expressions, statements and processes before a run holds in each run. The functions are laws, and do nothing;
//! their proofs, to be cited by crates above, are in `proofs/`.
#![tactic(auto)]

ghost use Rattle.flow_laws.specs.Hangs.{ExpressionsHang};
ghost use Rattle.flow_laws.specs.Places.{ExpressionsArePlaces};
ghost use Rattle.flow_laws.specs.Statements.{StatementsConform};
ghost use Rattle.flow_laws.specs.Processes.{ProcessesRunWithin, ProcessesAreHonest, MachinesAreWellWritten, DesignsHaveOneTrace};

/// In surroundings that a sight knows of, an expression's value hangs on its reads alone, and what it selects from and which
/// bits it selects on the reads of its indices; these bits lie in its prefix, and are all of it where the prefix is exact; what is
/// known reads nothing.
pub fn expressions_hang()
    ensures { ExpressionsHang }
{}

/// A write through an expression changes no bit but those that it may write, and each that it surely writes; which ones, and to
/// what, hangs on the reads of its indices alone.
pub fn expressions_are_places()
    ensures { ExpressionsArePlaces }
{}

/// A statement whose loops have known bounds and leave their variables alone, where what is sure isn't written: each run ends
/// as one of its paths does, writes no bit but those that it may write, and each that no path leaves out which ends so; and what
/// it writes hangs on its early reads alone. A loop that would make more turns than are allowed ends after as many as are.
pub fn statements_conform()
    ensures { StatementsConform }
{}

/// A process whose loops can be unrolled, run on whatever signals hold: each run writes no bit but those that it may write, now or
/// later, and each that no path leaves out which ends as the run does; and it hangs on the signals that are read early alone, and
/// on nothing that a local held before.
pub fn processes_run_within()
    ensures { ProcessesRunWithin }
{}

/// A combinational process that reads no bit of its own before it wrote it hangs on its reads alone and writes no bit but its own
/// (IEEE 1800-2017 clause 9.2.2), and an edge process updates no bit but its own.
pub fn processes_are_honest()
    ensures { ProcessesAreHonest }
{}

/// The machine of a design of such processes is well written where no bit has two writers.
pub fn machines_are_well_written()
    ensures { MachinesAreWellWritten }
{}

/// So where besides no combinational process is stuck, the machine is sound, and any rows have exactly one trace.
pub fn designs_have_one_trace()
    ensures { DesignsHaveOneTrace }
{}
