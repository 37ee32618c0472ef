//! The signals of a module by their names (IEEE 1364-2005 clauses 4.3, 4.9 and 12.7).

ghost use Rattle.std.specs.Prelude.{◌≡◌, ◌+◌, [], ◌∷◌, ◌++◌, ℕ, false, true, map, IfOk, OnOk};
ghost use Rattle.indexmap.specs.IndexMap.{keys};
ghost use Rattle.v_tree.specs.Names.{among, distinct};
ghost use Rattle.v_meaning.specs.Machine as machine;
ghost use Rattle.v_meaning.specs.Modules as means;
ghost use Rattle.v_eval.specs.Names.{signal_named};
ghost use Rattle.v_modules.specs.Named.{named_of, names_of_signals, AllNew, counted};

use indexmap::IndexMap;
use std::alloc::{AllocError, Global};
use sv_source::{Items, Text};
use v_eval::Signal;
use v_tree::{VItem, VRegRest, VSignal};

/// The name of a signal.
pub fn signal_name(signal: &VSignal) -> &Text
    ensures { result.now ≡ (means.signal signal.now).name }
{
    match signal {
        VSignal::Input { range: _, name } => name,
        VSignal::Output { range: _, name } => name,
        VSignal::OutputReg {
            range: _,
            name,
            initial: None,
        } => name,
        VSignal::OutputReg {
            range: _,
            name,
            initial: Some(_),
        } => name,
        VSignal::Wire { range: _, name } => name,
        VSignal::Reg {
            range: _,
            name,
            rest: None,
        } => name,
        VSignal::Reg {
            range: _,
            name,
            rest: Some(VRegRest::Memory(_)),
        } => name,
        VSignal::Reg {
            range: _,
            name,
            rest: Some(VRegRest::Initial(_)),
        } => name,
    }
}

// A vector.
fn vector(place: u32, left: Option<u32>) -> Signal
    ensures { result ≡ record { place = place; left = left; last = None } }
{
    Signal {
        place,
        left,
        last: None,
    }
}

/// What a module's table keeps of a signal that has this place among the signals of the module.
pub fn kept(signal: &VSignal, place: u32) -> Signal
    ensures { (first : ℕ) → signal_named first ((means.signal signal.now).name, result) ≡ named_of (first + place) (means.signal signal.now) }
{
    match signal {
        VSignal::Input { range, name: _ } => vector(place, *range),
        VSignal::Output { range, name: _ } => vector(place, *range),
        VSignal::OutputReg {
            range,
            name: _,
            initial: None,
        } => vector(place, *range),
        VSignal::OutputReg {
            range,
            name: _,
            initial: Some(_),
        } => vector(place, *range),
        VSignal::Wire { range, name: _ } => vector(place, *range),
        VSignal::Reg {
            range,
            name: _,
            rest: None,
        } => vector(place, *range),
        VSignal::Reg {
            range,
            name: _,
            rest: Some(VRegRest::Memory(last)),
        } => Signal {
            place,
            left: *range,
            last: Some(*last),
        },
        VSignal::Reg {
            range,
            name: _,
            rest: Some(VRegRest::Initial(_)),
        } => vector(place, *range),
    }
}

// A place as a short number, which memory runs out before.
fn short(place: usize) -> Result<u32, AllocError>
    ensures { IfOk result (λ n. n ≡ place) }
{
    match u32::try_from(place) {
        Ok(place) => Ok(place),
        Err(_) => Err(AllocError),
    }
}

// Adds a signal whose name isn't there.
#[tactic(auto, using(crate::proofs::Naming::naming))]
fn put(signals: &mut IndexMap<Text, Signal>, name: Text, signal: Signal) -> Result<(), AllocError>
    requires { among (keys signals.old) name ≡ false }
    ensures { OnOk result (signals.new.entries ≡ signals.old.entries ++ (name, signal) ∷ []) }
{
    signals.insert(name, signal)?;
    Ok(())
}

// Adds a declared signal whose name isn't there.
fn add_signal(
    alloc: Global,
    signals: &mut IndexMap<Text, Signal>,
    signal: &VSignal,
) -> Result<(), AllocError>
    requires { among (keys signals.old) (means.signal signal.now).name ≡ false }
    ensures keys { OnOk result (keys signals.new ≡ keys signals.old ++ (means.signal signal.now).name ∷ []) }
    ensures named { OnOk result ((first : ℕ) → map (signal_named first) signals.new.entries ≡ map (signal_named first) signals.old.entries ++ named_of (first + counted signals.old) (means.signal signal.now) ∷ []) }
{
    let place = short(signals.len())?;
    let name = signal_name(signal).copy(alloc)?;
    put(signals, name, kept(signal, place))
}

// Adds the signal that an item is, if it is one.
fn add_item(
    alloc: Global,
    signals: &mut IndexMap<Text, Signal>,
    item: &VItem,
) -> Result<(), AllocError>
    requires { AllNew (keys signals.old) (means.signals (item.now ∷ [])) }
    ensures keys { OnOk result (keys signals.new ≡ keys signals.old ++ names_of_signals (means.signals (item.now ∷ []))) }
    ensures named { OnOk result ((first : ℕ) → map (signal_named first) signals.new.entries ≡ map (signal_named first) signals.old.entries ++ means.numbered (first + counted signals.old) (means.signals (item.now ∷ []))) }
{
    match item {
        VItem::Signal(signal) => add_signal(alloc, signals, signal),
        VItem::Initial(_) => Ok(()),
        VItem::Process(_) => Ok(()),
        VItem::Function(_) => Ok(()),
        VItem::Instance(_) => Ok(()),
    }
}

/// The signals among items by their names, with their places among the signals of the module. Or want of memory.
#[tactic(auto, using(crate::proofs::Naming::naming))]
pub fn signals_of(alloc: Global, items: &[VItem]) -> Result<IndexMap<Text, Signal>, AllocError>
    requires { distinct (names_of_signals (means.signals items.now)) ≡ true }
    ensures { IfOk result (λ m. (first : ℕ) → map (signal_named first) m.entries ≡ means.numbered first (means.signals items.now)) }
{
    let mut signals = IndexMap::new(alloc);
    for item in items {
        add_item(alloc, &mut signals, item)?;
    }
    Ok(signals)
}

// Whether a signal is an input.
fn is_input(signal: &VSignal) -> bool
    ensures { result ≡ machine.is_input (means.signal signal.now).kind }
{
    match signal {
        VSignal::Input { range: _, name: _ } => true,
        VSignal::Output { range: _, name: _ } => false,
        VSignal::OutputReg {
            range: _,
            name: _,
            initial: None,
        } => false,
        VSignal::OutputReg {
            range: _,
            name: _,
            initial: Some(_),
        } => false,
        VSignal::Wire { range: _, name: _ } => false,
        VSignal::Reg {
            range: _,
            name: _,
            rest: None,
        } => false,
        VSignal::Reg {
            range: _,
            name: _,
            rest: Some(VRegRest::Memory(_)),
        } => false,
        VSignal::Reg {
            range: _,
            name: _,
            rest: Some(VRegRest::Initial(_)),
        } => false,
    }
}

// Adds whether an item that is a signal is an input.
fn add_input(item: &VItem, inputs: &mut Items<bool>) -> Result<(), AllocError>
    ensures { OnOk result (inputs.new ≡ inputs.old ++ map (λ (s : means.Signal). machine.is_input s.kind) (means.signals (item.now ∷ []))) }
{
    match item {
        VItem::Signal(signal) => inputs.push(is_input(signal)),
        VItem::Initial(_) => Ok(()),
        VItem::Process(_) => Ok(()),
        VItem::Function(_) => Ok(()),
        VItem::Instance(_) => Ok(()),
    }
}

/// Which of the signals among items are inputs, in their order. Or want of memory.
#[tactic(auto, using(crate::proofs::Naming::inputs))]
pub fn inputs_of(alloc: Global, items: &[VItem]) -> Result<Items<bool>, AllocError>
    ensures { IfOk result (λ r. r ≡ map (λ (s : means.Signal). machine.is_input s.kind) (means.signals items.now)) }
{
    let mut inputs = Items::new(alloc);
    for item in items {
        add_input(item, &mut inputs)?;
    }
    Ok(inputs)
}
