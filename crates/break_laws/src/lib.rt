//! A typed design that breaks none of the rules on processes and on their order is a machine with one trace. The functions are laws,
//! and do nothing; their proofs, to be cited by crates above, are in `proofs/`.
#![tactic(auto)]

ghost use Rattle.break_laws.specs.Laws.{LoopsAreBounded, NothingIsReadEarly, BitsHaveOneWriter, BitsAreThere, ProcessesAreFree, SomeBreakIsLeast, DesignsHaveOneTrace};

/// A statement in which no loop breaks the rule on bounds is one whose loops have known bounds and leave their variables alone
/// (IEEE 1800-2017 clause 12.7.1), and the other way round.
pub fn loops_are_bounded()
    ensures { LoopsAreBounded }
{}

/// A combinational process that doesn't break the rule on early reads reads no bit of its own before it wrote it (IEEE 1800-2017
/// clause 9.2.2.2.1).
pub fn nothing_is_read_early()
    ensures { NothingIsReadEarly }
{}

/// Where no process breaks the rule on two writers, no two combinational processes and no two edge processes of the design's
/// machine write one bit (IEEE 1800-2017 clauses 6.5, 9.2.2 and 10.3).
pub fn bits_have_one_writer()
    ensures { BitsHaveOneWriter }
{}

/// A process in which each signal, local and variable of a loop stands with as many bits as it has reads and writes bits of signals
/// that are there, and writes no bit that the variable of a loop doesn't have.
pub fn bits_are_there()
    ensures { BitsAreThere }
{}

/// Where no process is on a circle or follows one that is, each combinational process of the machine is free.
pub fn processes_are_free()
    ensures { ProcessesAreFree }
{}

/// Where no break is the least one there is none.
pub fn some_break_is_least()
    ensures { SomeBreakIsLeast }
{}

/// A design that is shaped as an elaborated one, and breaks none of the rules on processes and on their order, is a sound machine,
/// and any rows have exactly one trace.
pub fn designs_have_one_trace()
    ensures { DesignsHaveOneTrace }
{}
