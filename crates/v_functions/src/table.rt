//! The functions of a module by their names.

ghost use Rattle.std.specs.Prelude.{◌≡◌, IfOk, OnOk};
ghost use Rattle.v_rules.specs.Tables.{no_numbers, number_given};
ghost use Rattle.v_functions.specs.Numbered as means;

use indexmap::IndexMap;
use std::alloc::{AllocError, Global};
use sv_source::Text;
use v_circles::short;
use v_tree::VItem;

/// The functions of a module by their names: the numbers of their items. Of two with one name the first one counts.
#[derive(Drop)]
pub struct Functions {
    numbers: IndexMap<Text, u32>,
}

impl Functions {
    // No functions.
    fn new(alloc: Global) -> Functions
        ensures { means.numbers_in result ≡ no_numbers }
    {
        Functions {
            numbers: IndexMap::new(alloc),
        }
    }

    /// The number of the first function with a name, if there is one.
    pub fn number(&self, name: &Text) -> Option<u32>
        ensures { result ≡ means.numbers_in self.now name.now }
    {
        self.numbers.get(name).copied()
    }

    // Gives a name a number.
    fn name(&mut self, name: Text, number: u32) -> Result<(), AllocError>
        ensures { OnOk result (means.numbers_in self.new ≡ number_given (means.numbers_in self.old) name number) }
    {
        self.numbers.insert(name, number)?;
        Ok(())
    }

    // Numbers the item, if it is a function.
    fn number_item(&mut self, alloc: Global, number: usize, item: &VItem) -> Result<(), AllocError>
        ensures { OnOk result (means.numbers_in self.new ≡ means.item_numbered number item.now (means.numbers_in self.old)) }
    {
        match item {
            VItem::Signal(_) => Ok(()),
            VItem::Initial(_) => Ok(()),
            VItem::Process(_) => Ok(()),
            VItem::Function(function) => {
                let number = short(number)?;
                self.name(function.name.copy(alloc)?, number)
            }
            VItem::Instance(_) => Ok(()),
        }
    }

    /// The functions of a module of these items. Or want of memory.
    pub fn of(alloc: Global, items: &[VItem]) -> Result<Functions, AllocError>
        ensures { IfOk result (λ table. means.numbers_in table ≡ means.functions_from 0 items.now) }
    {
        let mut table = Functions::new(alloc);
        let mut at = items.len();
        while at > 0 {
            at -= 1;
            table.number_item(alloc, at, &items[at])?;
        }
        Ok(table)
    }
}
