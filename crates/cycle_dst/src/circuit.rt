//! A target design as a machine whose processes can be run.

ghost use Rattle.std.specs.Prelude.{◌≡◌, ◌≤◌, ◌^◌, length};
ghost use Rattle.row_machine.specs.Rounds.{written_bits as bits_written};
ghost use Rattle.round_runner.specs.Stores.{Holds};
ghost use Rattle.round_runner.specs.Parts.{InputsAre};
ghost use Rattle.v_meaning.specs.Machine.{machine as machine_of};
ghost use Rattle.cycle_dst.specs.Circuits.{CombOf, EdgeOf, Runnable};
ghost use Rattle.cycle_dst.specs.Designs.{widths_of, top_inputs};
ghost use Rattle.cycle_dst.specs.Pairs.{Pairs};
ghost use Rattle.cycle_dst.specs.Prints.{AllPrints};
ghost use Rattle.cycle_dst.specs.Props.{props};

use crate::combs::Comb;
use crate::copies::copied;
use crate::prints::Prints;
use crate::single::{edge_comes, run_process, update_process};
use b4_core::{Items, Vec4};
use round_runner::Processes;
use std::alloc::{AllocError, Global};
use sv_source::Text;
use v_modules::Table;
use v_processes::Proc;
use v_stores::differ_in;
use v_tree::VDesign;

/// A target design with its top, and what is kept of its machine.
#[derive(Clone, Copy)]
pub struct Circuit<'a, 't> {
    /// The design.
    pub design: &'t VDesign,
    /// The name of its top.
    pub top: &'t Text,
    /// The tables of its modules by their numbers.
    pub tables: &'t [Table<'a>],
    /// Its processes.
    pub procs: &'t [Proc<'a>],
    /// The combinational ones.
    pub combs: &'t [Comb],
    /// Which signals each of these reads and may write.
    pub prints: &'t [Prints],
    /// The numbers of those that run at edges.
    pub edges: &'t [usize],
    /// The signals that are the top's inputs, in port order.
    pub inputs: &'t [usize],
    /// What the signals hold before the first row.
    pub initial: &'t [Vec4],
    /// What they hold by themselves when the first row is settled.
    pub start: &'t [Vec4],
    /// How many bits the combinational processes may write, each counted by itself.
    pub written: u64,
    ghost runnable: { Runnable (widths_of design.now top.now) tables.now procs.now } by { Prim.hlevel props },
    ghost few: { length (widths_of design.now top.now) ≤ 2 ^ 32 },
    ghost combs_are: { Pairs (CombOf (widths_of design.now top.now) tables.now procs.now) combs.now (machine_of design.now top.now).combs },
    ghost prints_are: { AllPrints prints.now (machine_of design.now top.now).combs },
    ghost edges_are: { Pairs (EdgeOf tables.now procs.now) edges.now (machine_of design.now top.now).edges },
    ghost inputs_are: { inputs.now ≡ top_inputs design.now top.now },
    ghost inputs_whole: { InputsAre (machine_of design.now top.now) (widths_of design.now top.now) (top_inputs design.now top.now) },
    ghost initial_is: { Holds (widths_of design.now top.now) (machine_of design.now top.now).initial initial.now },
    ghost start_is: { Holds (widths_of design.now top.now) (machine_of design.now top.now).start start.now },
    ghost written_is: { written ≡ bits_written (machine_of design.now top.now).combs },
}

impl Processes for Circuit<'_, '_> {
    ghost machine = { λ c. machine_of c.design.now c.top.now };

    ghost shape = { λ c. widths_of c.design.now c.top.now };

    ghost inputs = { λ c. top_inputs c.design.now c.top.now };

    fn combs(&self) -> usize {
        self.combs.len()
    }

    fn edges(&self) -> usize {
        self.edges.len()
    }

    fn written_bits(&self) -> u64 {
        self.written
    }

    fn inputs(&self) -> &[usize] {
        self.inputs
    }

    fn initial(&self, alloc: Global) -> Result<Vec<Vec4>, AllocError> {
        copied(alloc, self.initial)
    }

    fn start(&self, alloc: Global) -> Result<Vec<Vec4>, AllocError> {
        copied(alloc, self.start)
    }

    fn starts_at_zero(&self, i: usize) -> bool {
        self.combs[i].from_zero
    }

    fn wakes(&self, i: usize, now: &[Vec4]) -> bool {
        differ_in(self.combs[i].waits.as_slice(), now, self.initial)
    }

    fn run(
        &self,
        alloc: Global,
        i: usize,
        held: &[Vec4],
        to: &mut [Vec4],
    ) -> Result<(), AllocError> {
        let k = self.combs[i].process;
        run_process(alloc, self.tables, self.procs, k, held, to)
    }

    fn reads(&self, i: usize) -> Option<&[usize]> {
        match &self.prints[i].reads {
            None => None,
            Some(signals) => Some(signals.as_slice()),
        }
    }

    fn writes(&self, i: usize) -> Option<&[usize]> {
        match &self.prints[i].writes {
            None => None,
            Some(signals) => Some(signals.as_slice()),
        }
    }

    fn has_edge(&self, i: usize, last: &[Vec4], now: &[Vec4]) -> bool {
        edge_comes(self.procs, self.edges[i], last, now)
    }

    fn update(
        &self,
        alloc: Global,
        i: usize,
        held: &[Vec4],
        to: &mut [Vec4],
    ) -> Result<(), AllocError> {
        let k = self.edges[i];
        update_process(alloc, self.tables, self.procs, k, held, to)
    }
}
