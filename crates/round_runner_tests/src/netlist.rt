//! Netlists of gates and flip-flops.

ghost use Rattle.std.specs.Prelude.{◌≡◌, ℕ, ◌<◌, true, List, length, map, slice_get, IfOk};
ghost use Rattle.b4_core.specs.declared.bit.Bit4.{Bit4};
ghost use Rattle.round_runner.specs.Stores.{holding, widths, Holds, Changed};
ghost use Rattle.round_runner.specs.Rows.{FitRows};
ghost use Rattle.b4_core.specs.Bitwise.{edge_of};
ghost use Rattle.row_machine.specs.Settle as means;
ghost use Rattle.round_runner_tests.specs.Netlists as spec;

use b4_core::{Bit4, Edge, Items, Rows, Vec4, edge, negate};
use round_runner::Processes;
use std::alloc::{AllocError, Global};

/// A gate that assigns a signal another one or its negation, where its enable, if it has one, is 1.
#[derive(Debug, Clone, Copy)]
pub struct Gate {
    /// Whether it isn't started at time zero but once the signal that it assigns from isn't what it was.
    pub waits: bool,
    /// The signal that has to be 1.
    pub enable: Option<usize>,
    /// Whether it negates.
    pub negates: bool,
    /// What it assigns from.
    pub from: usize,
    /// What it assigns.
    pub to: usize,
}

/// A flip-flop.
#[derive(Debug, Clone, Copy)]
pub struct Flop {
    /// At a rising edge of this signal ..
    pub clock: usize,
    /// .. it takes this one ..
    pub from: usize,
    /// .. for this one.
    pub to: usize,
}

/// A netlist of signals of one bit.
#[derive(Debug, Drop)]
pub struct Netlist {
    initial: Items<Bit4>,
    inputs: Items<usize>,
    gates: Items<Gate>,
    flops: Items<Flop>,
    reads: Items<Items<usize>>,
    writes: Items<Items<usize>>,
    told: bool,
    ghost whole: { spec.IsWhole initial inputs gates flops reads writes },
}

// The bit of a signal.
fn bit_of(store: &[Vec4], n: usize) -> Bit4
    ensures { result ≡ holding store.now (spec.bit_of n) }
{
    match store.get(n) {
        None => Bit4::X,
        Some(vector) => match vector.as_slice().first() {
            None => Bit4::X,
            Some(bit) => *bit,
        },
    }
}

fn is_on(enable: Option<usize>, store: &[Vec4]) -> bool
    ensures { result ≡ spec.is_on enable (holding store.now) }
{
    match enable {
        None => true,
        Some(n) => match bit_of(store, n) {
            Bit4::One => true,
            Bit4::Zero => false,
            Bit4::X => false,
            Bit4::Z => false,
        },
    }
}

fn negated(negates: bool, bit: Bit4) -> Bit4
    ensures { result ≡ spec.negated negates bit }
{
    if negates { negate(bit) } else { bit }
}

// Assigns a signal, where that is on.
fn assign(to: usize, on: bool, bit: Bit4, store: &mut [Vec4])
    requires there { to < length store.old }
    requires shape { widths store.old ≡ spec.ones (length store.old) }
    ensures { Changed (spec.assigned to on bit) store.old store.new }
{
    if on {
        store[to].put(0, bit);
    }
}

fn run_gate(gate: Gate, held: &[Vec4], to: &mut [Vec4])
    requires there { gate.to < length to.old }
    requires shape { widths to.old ≡ spec.ones (length to.old) }
    ensures { Changed ((spec.comb_of gate).assigns (holding held.now)) to.old to.new }
{
    let bit = negated(gate.negates, bit_of(held, gate.from));
    assign(gate.to, is_on(gate.enable, held), bit, to);
}

fn rises(clock: usize, last: &[Vec4], now: &[Vec4]) -> bool
    ensures { result ≡ spec.is_rising (edge_of (holding last.now (spec.bit_of clock)) (holding now.now (spec.bit_of clock))) }
{
    match edge(bit_of(last, clock), bit_of(now, clock)) {
        Edge::Pos => true,
        Edge::Neg => false,
        Edge::None => false,
    }
}

fn same_bit(p: Bit4, q: Bit4) -> bool
    ensures { result ≡ means.same_bit p q }
{
    p == q
}

// The vectors of signals of one bit.
fn vectors(alloc: Global, bits: &[Bit4]) -> Result<Vec<Vec4>, AllocError>
    ensures { IfOk result (λ v. v.items ≡ spec.vectors bits.now) }
{
    let mut all = Vec::new(alloc);
    for bit in bits {
        all.push(Vec4::from_slice(alloc, &[*bit])?)?;
    }
    Ok(all)
}

impl Processes for Netlist {
    ghost machine = { λ n. spec.machine_of n.initial n.inputs n.gates n.flops };

    ghost shape = { λ n. spec.shape_of n.initial };

    ghost inputs = { λ n. n.inputs };

    fn combs(&self) -> usize {
        self.gates.len()
    }

    fn edges(&self) -> usize {
        self.flops.len()
    }

    fn written_bits(&self) -> u64 {
        self.gates.len() as u64
    }

    fn inputs(&self) -> &[usize] {
        self.inputs.as_slice()
    }

    fn initial(&self, alloc: Global) -> Result<Vec<Vec4>, AllocError> {
        self.first_store(alloc)
    }

    fn start(&self, alloc: Global) -> Result<Vec<Vec4>, AllocError> {
        self.first_store(alloc)
    }

    fn starts_at_zero(&self, i: usize) -> bool {
        !self.gates.as_slice()[i].waits
    }

    fn wakes(&self, i: usize, now: &[Vec4]) -> bool {
        let gate = self.gates.as_slice()[i];
        let was = self.was(gate.from);
        gate.waits && !same_bit(bit_of(now, gate.from), was)
    }

    fn run(
        &self,
        _alloc: Global,
        i: usize,
        held: &[Vec4],
        to: &mut [Vec4],
    ) -> Result<(), AllocError> {
        run_gate(self.gates.as_slice()[i], held, to);
        Ok(())
    }

    fn reads(&self, i: usize) -> Option<&[usize]> {
        if self.told {
            Some(self.reads.as_slice()[i].as_slice())
        } else {
            None
        }
    }

    fn writes(&self, i: usize) -> Option<&[usize]> {
        if self.told {
            Some(self.writes.as_slice()[i].as_slice())
        } else {
            None
        }
    }

    fn has_edge(&self, i: usize, last: &[Vec4], now: &[Vec4]) -> bool {
        rises(self.flops.as_slice()[i].clock, last, now)
    }

    fn update(
        &self,
        _alloc: Global,
        i: usize,
        held: &[Vec4],
        to: &mut [Vec4],
    ) -> Result<(), AllocError> {
        let flop = self.flops.as_slice()[i];
        assign(flop.to, true, bit_of(held, flop.from), to);
        Ok(())
    }
}

// Whether all inputs are signals.
fn inputs_fit(size: usize, inputs: &[usize]) -> bool
    ensures { result ≡ true → (k n : ℕ) → slice_get inputs.now k ≡ Some n → n < size }
{
    for n in inputs {
        if *n >= size {
            return false;
        }
    }
    true
}

// Whether all gates assign signals.
fn gates_fit(size: usize, gates: &[Gate]) -> bool
    ensures { result ≡ true → (k : ℕ) (g : Gate) → slice_get gates.now k ≡ Some g → g.to < size }
{
    for gate in gates {
        if gate.to >= size {
            return false;
        }
    }
    true
}

// Whether all flip-flops assign signals.
fn flops_fit(size: usize, flops: &[Flop]) -> bool
    ensures { result ≡ true → (k : ℕ) (f : Flop) → slice_get flops.now k ≡ Some f → f.to < size }
{
    for flop in flops {
        if flop.to >= size {
            return false;
        }
    }
    true
}

fn reads_of(alloc: Global, gate: Gate) -> Result<Items<usize>, AllocError>
    ensures { IfOk result (λ r. r ≡ spec.reads_of gate) }
{
    let mut signals = Items::new(alloc);
    signals.push(gate.from)?;
    if let Some(enable) = gate.enable {
        signals.push(enable)?;
    }
    Ok(signals)
}

// The signals that each gate reads.
fn all_reads(alloc: Global, gates: &[Gate]) -> Result<Items<Items<usize>>, AllocError>
    ensures { IfOk result (λ r. r ≡ map spec.reads_of gates.now) }
{
    let mut all = Items::new(alloc);
    for gate in gates {
        all.push(reads_of(alloc, *gate)?)?;
    }
    Ok(all)
}

// The signal that each gate assigns.
fn all_writes(alloc: Global, gates: &[Gate]) -> Result<Items<Items<usize>>, AllocError>
    ensures { IfOk result (λ r. r ≡ map spec.writes_of gates.now) }
{
    let mut all = Items::new(alloc);
    for gate in gates {
        let mut signals = Items::new(alloc);
        signals.push(gate.to)?;
        all.push(signals)?;
    }
    Ok(all)
}

// Whether a row has one bit for each input.
fn row_fits(inputs: &[usize], row: &[Vec4]) -> bool
    ensures long { result ≡ true → length row.now ≡ length inputs.now }
    ensures bits { result ≡ true → (k : ℕ) (v : List Bit4) → slice_get row.now k ≡ Some v → length v ≡ 1 }
{
    for vector in row {
        if vector.len() != 1 {
            return false;
        }
    }
    row.len() == inputs.len()
}

impl Netlist {
    /// The netlist with these bits before the first row, if all inputs and all that is assigned are among its signals.
    /// It tells what its gates read and write, or it doesn't.
    pub fn new(
        alloc: Global,
        initial: Items<Bit4>,
        inputs: Items<usize>,
        gates: Items<Gate>,
        flops: Items<Flop>,
        told: bool,
    ) -> Result<Option<Netlist>, AllocError> {
        let size = initial.len();
        if !inputs_fit(size, inputs.as_slice())
            || !gates_fit(size, gates.as_slice())
            || !flops_fit(size, flops.as_slice())
        {
            return Ok(None);
        }
        let reads = all_reads(alloc, gates.as_slice())?;
        let writes = all_writes(alloc, gates.as_slice())?;
        Ok(Some(Netlist {
            initial,
            inputs,
            gates,
            flops,
            reads,
            writes,
            told,
        }))
    }

    /// Whether each row has one bit for each input.
    pub fn rows_fit(&self, rows: &Rows) -> bool
        ensures { result ≡ true → FitRows (spec.shape_of self.now.initial) self.now.inputs rows.now }
    {
        for row in rows.as_slice() {
            if !row_fits(self.inputs.as_slice(), row.as_slice()) {
                return false;
            }
        }
        true
    }

    // What the signals hold before the first row.
    fn first_store(&self, alloc: Global) -> Result<Vec<Vec4>, AllocError>
        ensures { IfOk result (λ v. Holds (spec.shape_of self.now.initial) (holding (spec.vectors self.now.initial)) v.items) }
    {
        let all = vectors(alloc, self.initial.as_slice())?;
        Ok(all)
    }

    // What a signal held before the first row.
    fn was(&self, n: usize) -> Bit4
        ensures { result ≡ holding (spec.vectors self.now.initial) (spec.bit_of n) }
    {
        match self.initial.as_slice().get(n) {
            None => Bit4::X,
            Some(bit) => *bit,
        }
    }
}
