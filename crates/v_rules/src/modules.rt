//! The modules of a design and their ports.

ghost use Rattle.std.specs.Prelude.{◌≡◌, [], map, OnOk, IfOk, slice_get};
ghost use Rattle.std.specs.Option.{option_copied};
ghost use Rattle.v_rules.specs.Tables as means;

use crate::names::module_ports;
use indexmap::IndexMap;
use std::alloc::{AllocError, Global};
use sv_source::{Items, Text, at};
use v_scopes::Scope;
use v_tree::VModule;

/// The ports of modules, by the numbers of these.
pub type PortScopes = Items<Scope>;

/// The modules of a design by their names, and their ports.
#[derive(Drop)]
pub struct Modules {
    numbers: IndexMap<Text, usize>,
    ports: PortScopes,
}

impl Modules {
    // No modules.
    fn new(alloc: Global) -> Modules
        ensures none { means.numbers_in result ≡ means.no_numbers }
        ensures empty { means.ports_in result ≡ [] }
    {
        Modules {
            numbers: IndexMap::new(alloc),
            ports: PortScopes::new(alloc),
        }
    }

    /// The number of the first module with a name, if there is one.
    pub fn number(&self, name: &Text) -> Option<usize>
        ensures { result ≡ means.numbers_in self.now name.now }
    {
        self.numbers.get(name).copied()
    }

    // Gives a name a number.
    fn name(&mut self, name: Text, number: usize) -> Result<(), AllocError>
        ensures names { OnOk result (means.numbers_in self.new ≡ means.number_given (means.numbers_in self.old) name number) }
        ensures kept { means.ports_in self.new ≡ means.ports_in self.old }
    {
        self.numbers.insert(name, number)?;
        Ok(())
    }

    // Numbers the modules; of two with one name the first one counts.
    fn number_all(&mut self, alloc: Global, modules: &[VModule]) -> Result<(), AllocError>
        ensures numbers { OnOk result (means.numbers_in self.new ≡ means.numbers_from 0 modules.now (means.numbers_in self.old)) }
        ensures kept { OnOk result (means.ports_in self.new ≡ means.ports_in self.old) }
    {
        let mut at = modules.len();
        while at > 0 {
            at -= 1;
            self.name(modules[at].name.copy(alloc)?, at)?;
        }
        Ok(())
    }

    // Adds the ports of all modules.
    fn add_ports(&mut self, alloc: Global, modules: &[VModule]) -> Result<(), AllocError>
        ensures adds { OnOk result (means.ports_in self.new ≡ means.ports_added modules.now (means.ports_in self.old)) }
        ensures kept { OnOk result (means.numbers_in self.new ≡ means.numbers_in self.old) }
    {
        for module in modules {
            self.ports
                .push(module_ports(alloc, module.items.as_slice())?)?;
        }
        Ok(())
    }

    /// The table of these modules. Or want of memory.
    pub fn of(alloc: Global, modules: &[VModule]) -> Result<Modules, AllocError>
        ensures { IfOk result (λ table. means.Tables table modules.now) }
    {
        let mut table = Modules::new(alloc);
        table.number_all(alloc, modules)?;
        table.add_ports(alloc, modules)?;
        Ok(table)
    }
}

impl Modules {
    /// The ports of the module with a name, if there is one.
    pub(crate) fn find(&self, name: &Text) -> Option<&Scope>
        ensures { means.found_ports (option_copied result) ≡ means.at_number (means.ports_in self.now) (means.numbers_in self.now name.now) }
    {
        match self.number(name) {
            None => None,
            Some(number) => at(self.ports.as_slice(), number),
        }
    }
}
