//! Machines that can be run.

ghost use Rattle.std.specs.Prelude.{◌≡◌, ◌<◌, length, IfOk, IfSome, OnOk};
ghost use Rattle.row_machine.specs.Rounds.{written_bits};
ghost use Rattle.round_runner.specs.Stores.{Holds, widths};
ghost use Rattle.round_runner.specs.Parts.{StartsAtZero, Wakes, Runs, ReadsAlone, WritesAlone, HasEdge, Updates, InputsAre};

use b4_core::Vec4;
use std::alloc::{AllocError, Global};

/// A machine over rows whose processes can be run.
///
/// What its signals hold is a store: a vector for each signal in the order of the signals, the least bit first. Combinational
/// processes and edge processes have numbers, each kind from 0 on, in the order of the machine.
pub trait Processes {
    ghost use Rattle.std.specs.Prelude.{ℕ, List};
    ghost use Rattle.row_machine.specs.Machine.{Machine};

    /// The machine.
    ghost machine: { Self → Machine };

    /// How many bits each signal has.
    ghost shape: { Self → List ℕ };

    /// The signals that are the top's inputs, in port order.
    ghost inputs: { Self → List ℕ };

    /// How many combinational processes there are.
    fn combs(&self) -> usize
        ensures { result ≡ length (machine self.now).combs };

    /// How many edge processes there are.
    fn edges(&self) -> usize
        ensures { result ≡ length (machine self.now).edges };

    /// How many bits the combinational processes may write, each process counted by itself.
    fn written_bits(&self) -> u64
        ensures { result ≡ written_bits (machine self.now).combs };

    /// The signals that are the top's inputs, in port order.
    fn inputs(&self) -> &[usize]
        ensures same { result.now ≡ inputs self.now }
        ensures whole { InputsAre (machine self.now) (shape self.now) (inputs self.now) };

    /// What the signals hold before the first row.
    fn initial(&self, alloc: Global) -> Result<Vec<Vec4>, AllocError>
        ensures { IfOk result (λ v. Holds (shape self.now) (machine self.now).initial v.items) };

    /// What the signals hold by themselves when the first row is settled.
    fn start(&self, alloc: Global) -> Result<Vec<Vec4>, AllocError>
        ensures { IfOk result (λ v. Holds (shape self.now) (machine self.now).start v.items) };

    /// Whether a combinational process is started at time zero.
    fn starts_at_zero(&self, i: usize) -> bool
        requires { i < length (machine self.now).combs }
        ensures { StartsAtZero (machine self.now).combs i result };

    /// Whether a bit that a combinational process waits for differs from what it held before the first row.
    fn wakes(&self, i: usize, now: &[Vec4]) -> bool
        requires there { i < length (machine self.now).combs }
        requires now { widths now.now ≡ shape self.now }
        ensures { Wakes (machine self.now) i now.now result };

    /// Runs a combinational process on what a store holds, and puts what it assigns over another store.
    fn run(&self, alloc: Global, i: usize, held: &[Vec4], to: &mut [Vec4]) -> Result<(), AllocError>
        requires there { i < length (machine self.now).combs }
        requires held { widths held.now ≡ shape self.now }
        requires to { widths to.old ≡ shape self.now }
        ensures { OnOk result (Runs (machine self.now).combs i held.now to.old to.new) };

    /// The signals that a combinational process reads, where this is known: what it assigns hangs on their bits alone.
    fn reads(&self, i: usize) -> Option<&[usize]>
        requires { i < length (machine self.now).combs }
        ensures { IfSome result (λ ns. ReadsAlone (machine self.now).combs i ns.now) };

    /// The signals that it may write, where this is known.
    fn writes(&self, i: usize) -> Option<&[usize]>
        requires { i < length (machine self.now).combs }
        ensures { IfSome result (λ ns. WritesAlone (machine self.now).combs i ns.now) };

    /// Whether one of the signals of an edge process has its edge from the first store to the second.
    fn has_edge(&self, i: usize, last: &[Vec4], now: &[Vec4]) -> bool
        requires there { i < length (machine self.now).edges }
        requires last { widths last.now ≡ shape self.now }
        requires now { widths now.now ≡ shape self.now }
        ensures { HasEdge (machine self.now).edges i last.now now.now result };

    /// Runs an edge process on what a store holds, and puts its updates over another store.
    fn update(
        &self,
        alloc: Global,
        i: usize,
        held: &[Vec4],
        to: &mut [Vec4],
    ) -> Result<(), AllocError>
        requires there { i < length (machine self.now).edges }
        requires held { widths held.now ≡ shape self.now }
        requires to { widths to.old ≡ shape self.now }
        ensures { OnOk result (Updates (machine self.now).edges i held.now to.old to.new) };
}
