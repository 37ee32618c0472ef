//! Laws of the definitions.

ghost use Rattle.v_zero.specs.Laws.{RoomsOfRules, InitialHeld, InitialsOfRules, FewSignals, GivenHeld, NamesAreListed, TriggeredByListed, StartHeld};

/// In a design that keeps the rules no declared value is longer than its signal (IEEE 1364-2005 clause 6.2.1).
#[tactic(auto, using(crate::proofs::Ruled::ruled))]
pub fn rooms_of_rules()
    ensures { RoomsOfRules }
{}

/// There a store of the declared values of all signals holds what the machine holds before the first row.
pub fn initial_held()
    ensures { InitialHeld }
{}

/// There an `initial` gives a signal a value of its width.
#[tactic(auto, using(crate::proofs::Ruled::ruled))]
pub fn initials_of_rules()
    ensures { InitialsOfRules }
{}

/// A design that can be run has fewer signals than there are numbers of signals.
#[tactic(auto, using(crate::proofs::Few::counting))]
pub fn few_signals()
    ensures { FewSignals }
{}

/// A store with all values of `initial` in it holds what the machine holds at time zero.
pub fn given_held()
    ensures { GivenHeld }
{}

/// A process names the bits of the signals that are listed for it.
pub fn names_are_listed()
    ensures { NamesAreListed }
{}

/// An `always @*` is started at time zero where one of the listed signals has been given another value (IEEE 1364-2005
/// clause 9.7.5).
pub fn triggered_by_listed()
    ensures { TriggeredByListed }
{}

/// A store with z in all bits of nets that nothing writes holds what the machine starts from (IEEE 1364-2005 clause 4.6).
pub fn start_held()
    ensures { StartHeld }
{}
