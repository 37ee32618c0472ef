//! The signals of a module by their names.

ghost use Rattle.std.specs.Prelude.{◌≡◌, ◌+◌, ◌<◌, ◌^◌, IfOk, OnOk};
ghost use Rattle.text_shape.specs.Signals as means;

use indexmap::IndexMap;
use std::alloc::{AllocError, Global};
use sv_source::Text;
use v_expr_rules::bits_of;
use v_tree::{VItem, VSignal};

/// A declared signal.
#[derive(Clone, Copy, Drop)]
pub struct Entry {
    /// Its number among the signals of its module.
    pub number: usize,
    /// How many bits it has, or a word of it.
    pub width: u64,
    /// Whether it is an input.
    pub is_input: bool,
}

/// The signals of a module by their names; of two with one name the first one counts.
#[derive(Drop)]
pub struct Signals {
    names: IndexMap<Text, Entry>,
}

fn entry_of(range: Option<u32>, is_input: bool, number: usize) -> Entry
    ensures { result ≡ means.entry_of range is_input number }
{
    Entry {
        number,
        width: bits_of(range),
        is_input,
    }
}

impl Signals {
    // No signals.
    fn new(alloc: Global) -> Signals
        ensures { means.entries result ≡ means.no_entries }
    {
        Signals {
            names: IndexMap::new(alloc),
        }
    }

    /// The first signal with a name, if there is one.
    pub fn find(&self, name: &Text) -> Option<Entry>
        ensures { result ≡ means.entries self.now name.now }
    {
        self.names.get(name).copied()
    }

    // Gives a name a signal.
    fn put(&mut self, name: Text, entry: Entry) -> Result<(), AllocError>
        ensures { OnOk result (means.entries self.new ≡ means.put (means.entries self.old) name entry) }
    {
        self.names.insert(name, entry)?;
        Ok(())
    }

    // Gives a name a signal, if it has none.
    fn add(&mut self, alloc: Global, name: &Text, entry: Entry) -> Result<(), AllocError>
        ensures { OnOk result (means.entries self.new ≡ means.added name.now entry (means.entries self.old)) }
    {
        match self.find(name) {
            Some(_) => Ok(()),
            None => self.put(name.copy(alloc)?, entry),
        }
    }

    // Adds a declared signal, which has this number.
    fn add_signal(
        &mut self,
        alloc: Global,
        signal: &VSignal,
        number: usize,
    ) -> Result<(), AllocError>
        ensures { OnOk result (means.entries self.new ≡ means.signal_added signal.now number (means.entries self.old)) }
    {
        match signal {
            VSignal::Input { range, name } => self.add(alloc, name, entry_of(*range, true, number)),
            VSignal::Output { range, name } => {
                self.add(alloc, name, entry_of(*range, false, number))
            }
            VSignal::OutputReg {
                range,
                name,
                initial: _,
            } => self.add(alloc, name, entry_of(*range, false, number)),
            VSignal::Wire { range, name } => {
                self.add(alloc, name, entry_of(*range, false, number))
            }
            VSignal::Reg {
                range,
                name,
                rest: _,
            } => self.add(alloc, name, entry_of(*range, false, number)),
        }
    }

    // Adds what an item declares, and gives the number of the next signal.
    fn add_item(&mut self, alloc: Global, item: &VItem, number: usize) -> Result<usize, AllocError>
        requires { number + 1 < 2 ^ 64 }
        ensures { means.Adds result (means.entries self.new) (means.item_added item.now (means.adding number (means.entries self.old))) }
    {
        match item {
            VItem::Signal(signal) => {
                self.add_signal(alloc, signal, number)?;
                Ok(number + 1)
            }
            VItem::Initial(_) => Ok(number),
            VItem::Process(_) => Ok(number),
            VItem::Function(_) => Ok(number),
            VItem::Instance(_) => Ok(number),
        }
    }

    /// The signals of a module of these items. Or want of memory.
    pub fn of(alloc: Global, items: &[VItem]) -> Result<Signals, AllocError>
        ensures { IfOk result (λ signals. means.entries signals ≡ (means.items_added items.now (means.adding 0 means.no_entries)).entries) }
    {
        let mut signals = Signals::new(alloc);
        let mut number = 0;
        for item in items {
            number = signals.add_item(alloc, item, number)?;
        }
        Ok(signals)
    }
}
