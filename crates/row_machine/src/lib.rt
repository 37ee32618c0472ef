//! Designs over rows, as abstract machines: what settles, what a row step does, and the laws of both.
//!
//! A machine stands for a source design and for a target design alike; the definitions are in `specs/`.
//! Each function here carries one law as its contract and does nothing. The proofs of the laws, to be cited by
//! crates above, are in `proofs/Laws.antt` under the functions' names.
#![tactic(auto)]

ghost use Rattle.row_machine.specs.Laws.{
  TraceOrUnsettled,
  TraceIsSettled,
  OneUnsettled,
  ReachedOrChanging,
  FreeOrStuck,
  FootprintsAreUnseen,
  LeftAreStuck,
  PlacesAreAnOrder,
  AlikeAreEqual,
  AlikeTranslates,
  EachHasOneTrace,
  IndependentAreFree,
  OneRoundTrace,
  OneRunSettles,
  OneSettled,
  OrderFrees,
  RefinementTranslates,
  RoundTraceIsTrace,
  RoundsReach,
  RoundsTrace,
  RunsTrace,
  SettlingEnds,
  SimulationAgrees,
  TargetIsFree,
};

/// Over a base and a set of started processes a sound machine has exactly one settled valuation.
pub fn one_settled()
    ensures { OneSettled }
{}

/// Settling from a set of started processes ends, with one set and one valuation.
pub fn settling_ends()
    ensures { SettlingEnds }
{}

/// A sound machine has exactly one trace for any rows.
pub fn one_trace()
    ensures { EachHasOneTrace }
{}

/// Processes that stand in an order, none following itself or a later one, are free: none is stuck.
pub fn order_frees()
    ensures { OrderFrees }
{}

/// Processes none of which reads a bit that one of them writes are free.
pub fn independent_are_free()
    ensures { IndependentAreFree }
{}

/// Places that name each process once, none following itself or a later one, give an order.
pub fn places_are_an_order()
    ensures { PlacesAreAnOrder }
{}

/// Each process is free or stuck, and not both: it is stuck if it lies on a circle, or follows a process that does.
pub fn free_or_stuck()
    ensures { FreeOrStuck }
{}

/// Processes each of which follows one of them are stuck: what is left when an order can't go on.
pub fn left_are_stuck()
    ensures { LeftAreStuck }
{}

/// One run of the processes in an order gives the settled valuation.
pub fn one_run_settles()
    ensures { OneRunSettles }
{}

/// Running the processes in an order, row by row, gives the trace.
pub fn runs_trace()
    ensures { RunsTrace }
{}

/// From the base, the rounds of a sound machine reach the settled valuation within the round limit,
/// which is one more than the number of bits that its combinational processes may write.
pub fn rounds_reach()
    ensures { RoundsReach }
{}

/// The trace of a sound machine is its trace by rounds.
pub fn rounds_trace()
    ensures { RoundsTrace }
{}

/// A trace by rounds of any machine is a trace.
pub fn round_trace_is_trace()
    ensures { RoundTraceIsTrace }
{}

/// Any machine has at most one trace by rounds.
pub fn one_round_trace()
    ensures { OneRoundTrace }
{}

/// The rounds of any machine whose processes assign only bits that they may write reach a valuation, or each of the
/// first `round_limit` rounds changes a bit, and not both.
pub fn reached_or_changing()
    ensures { ReachedOrChanging }
{}

/// The rows of such a machine have a trace by rounds, or there is a settling in which the rounds don't come to rest.
pub fn trace_or_unsettled()
    ensures { TraceOrUnsettled }
{}

/// Rows that have a trace by rounds have no settling that fails.
pub fn trace_is_settled()
    ensures { TraceIsSettled }
{}

/// The row of the settling that fails, its started processes and its base are the only ones.
pub fn one_unsettled()
    ensures { OneUnsettled }
{}

/// Machines whose processes and values are alike at each point are equal.
pub fn alike_are_equal()
    ensures { AlikeAreEqual }
{}

/// Machines that differ only in the bits that their processes are said to read and write have the same traces, and the
/// second has the first one's traces by rounds if its limit isn't lower.
pub fn footprints_are_unseen()
    ensures { FootprintsAreUnseen }
{}

/// A target that simulates its source has the source's traces and no others, for rows that are alike.
pub fn simulation_agrees()
    ensures { SimulationAgrees }
{}

/// Where no source process is stuck and copies add no dependence, no target process is stuck.
pub fn target_is_free()
    ensures { TargetIsFree }
{}

/// A target that refines its source translates it: one trace on each side, traces that agree, rounds that reach.
pub fn refinement_translates()
    ensures { RefinementTranslates }
{}

/// A target that is alike at each point translates a sound source.
pub fn alike_translates()
    ensures { AlikeTranslates }
{}
