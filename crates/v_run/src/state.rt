//! The state of a run of statements (IEEE 1364-2005 clause 9.2).

ghost use Rattle.std.specs.Prelude.{◌≡◌};
ghost use Rattle.v_eval.specs.Holding.{holds, holding};

use crate::pieces::Pieces;
use b4_core::Vec4;
use v_eval::{Held, Slot};

/// What signals and locals hold at some point of a run, what it has written so far, and what is pending.
#[derive(Drop)]
pub struct State<'a> {
    /// What signals held when the run began.
    pub signals: &'a [Vec4],
    /// What those that it has written hold now.
    pub over: Vec<Slot>,
    /// What locals hold now.
    pub locals: Vec<Vec4>,
    /// What blocking assignments have written.
    pub written: Pieces,
    /// What nonblocking assignments will write.
    pub pending: Pieces,
}

impl State<'_> {
    /// What signals and locals hold now.
    pub fn held(&self) -> Held<'_>
        ensures { holds result ≡ holding self.now.signals.now self.now.over.items self.now.locals.items }
    {
        Held {
            signals: self.signals,
            over: self.over.as_slice(),
            locals: self.locals.as_slice(),
        }
    }
}
