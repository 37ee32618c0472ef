//! What is kept of a declared signal.

ghost use Rattle.std.specs.Prelude.{◌≡◌, replicate, Some, IfOk};
ghost use Rattle.b4_core.specs.declared.bit.Bit4.TheVariants.{X};
ghost use Rattle.v_meaning.specs.Modules as means;
ghost use Rattle.v_meaning.specs.Scopes.{bits_of_range};
ghost use Rattle.v_instances.specs.Slots.{kind_of, signal_of};
ghost use Rattle.v_tree.specs.declared.items.VRegRest.TheVariants as R;

use b4_core::{Bit4, Items, Vec4};
use std::alloc::{AllocError, Global};
use sv_source::Text;
use v_tree::{VInit, VRegRest, VSignal};

/// How a signal is declared (IEEE 1364-2005 clauses 4.2 and 12.3.3).
#[derive(Clone, Copy, PartialEq, Eq, Debug)]
pub enum SlotKind {
    /// An input.
    Input,
    /// Any other net.
    Net,
    /// A variable.
    Variable,
}

/// A declared signal, and what it holds before the first row.
#[derive(Drop)]
pub struct Slot {
    /// Its name.
    pub name: Text,
    /// How many bits it has, or each of its words.
    pub width: u64,
    /// How many words it has, if it is a memory (clause 4.9).
    pub words: Option<u64>,
    /// How it is declared.
    pub kind: SlotKind,
    /// What its bits hold before the first row, the least bit first; those of a memory's words all hold x.
    pub initial: Vec4,
}

/// Signals in the order of their numbers.
pub type Slots = Items<Slot>;

// The bits of a range with this left bound, or of none.
fn bits_of(range: Option<u32>) -> u64
    ensures { result ≡ bits_of_range range }
{
    match range {
        Some(left) => left as u64 + 1,
        None => 1,
    }
}

// So many bits of x.
fn unknown(alloc: Global, width: u64) -> Result<Vec4, AllocError>
    ensures { IfOk result (λ v. v ≡ replicate width X) }
{
    Ok(Vec4::from_vec(vec![in alloc; Bit4::X; width as usize]?))
}

// A copy of a vector.
fn copied(alloc: Global, bits: &Vec4) -> Result<Vec4, AllocError>
    ensures { IfOk result (λ v. v ≡ bits.now) }
{
    Vec4::from_slice(alloc, bits.as_slice())
}

// Numbers one behind the other, the last one first: it is the least significant.
#[tactic(auto, using(crate::proofs::Counting::numbers_take, crate::proofs::Counting::take_whole))]
fn joined(alloc: Global, pieces: &[Vec4]) -> Result<Vec4, AllocError>
    ensures { IfOk result (λ v. v ≡ means.numbers pieces.now) }
{
    let mut bits = Vec::new(alloc);
    let mut left = pieces.len();
    while left > 0 {
        left -= 1;
        bits.extend_from_slice(pieces[left].as_slice())?;
    }
    Ok(Vec4::from_vec(bits))
}

// The bits of a declared initial value.
fn declared(alloc: Global, initial: &VInit) -> Result<Vec4, AllocError>
    ensures { IfOk result (λ v. v ≡ means.bits_of_init initial.now) }
{
    match initial {
        VInit::Number(bits) => copied(alloc, bits),
        VInit::Concat(pieces) => joined(alloc, pieces.as_slice()),
    }
}

// A signal without a declared value.
fn vector(
    alloc: Global,
    range: Option<u32>,
    name: &Text,
    kind: SlotKind,
) -> Result<Slot, AllocError>
    ensures { IfOk result (λ s. signal_of s ≡ means.vector range name.now (kind_of kind)) }
{
    let width = bits_of(range);
    let initial = unknown(alloc, width)?;
    Ok(Slot {
        name: name.copy(alloc)?,
        width,
        words: None,
        kind,
        initial,
    })
}

// A variable with a declared value.
fn valued(
    alloc: Global,
    range: Option<u32>,
    name: &Text,
    initial: &VInit,
) -> Result<Slot, AllocError>
    ensures { IfOk result (λ s. signal_of s ≡ means.valued range name.now initial.now) }
{
    let initial = declared(alloc, initial)?;
    Ok(Slot {
        name: name.copy(alloc)?,
        width: bits_of(range),
        words: None,
        kind: SlotKind::Variable,
        initial,
    })
}

// A memory of left + 1 words.
fn memory(alloc: Global, range: Option<u32>, name: &Text, left: u32) -> Result<Slot, AllocError>
    ensures { IfOk result (λ s. signal_of s ≡ means.reg_of range name.now (Some (R.Memory left))) }
{
    let word = vector(alloc, range, name, SlotKind::Variable)?;
    Ok(Slot {
        words: Some(left as u64 + 1),
        ..word
    })
}

/// What is kept of a declared signal. It fails for want of memory alone.
pub fn slot_of(alloc: Global, signal: &VSignal) -> Result<Slot, AllocError>
    ensures { IfOk result (λ s. signal_of s ≡ means.signal signal.now) }
{
    match signal {
        VSignal::Input { range, name } => vector(alloc, *range, name, SlotKind::Input),
        VSignal::Output { range, name } => vector(alloc, *range, name, SlotKind::Net),
        VSignal::OutputReg {
            range,
            name,
            initial: None,
        } => vector(alloc, *range, name, SlotKind::Variable),
        VSignal::OutputReg {
            range,
            name,
            initial: Some(initial),
        } => valued(alloc, *range, name, initial),
        VSignal::Wire { range, name } => vector(alloc, *range, name, SlotKind::Net),
        VSignal::Reg {
            range,
            name,
            rest: None,
        } => vector(alloc, *range, name, SlotKind::Variable),
        VSignal::Reg {
            range,
            name,
            rest: Some(VRegRest::Memory(left)),
        } => memory(alloc, *range, name, *left),
        VSignal::Reg {
            range,
            name,
            rest: Some(VRegRest::Initial(initial)),
        } => valued(alloc, *range, name, initial),
    }
}
