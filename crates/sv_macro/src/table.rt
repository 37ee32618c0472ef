// The macros by name.
ghost use Rattle.std.specs.Prelude.{◌≡◌, OnOk};
ghost use Rattle.std.specs.Option.{option_copied, is_some};
ghost use Rattle.sv_macro.specs.Macros.{defined, undefined, marked};
ghost use Rattle.sv_macro.specs.Tables.{macros_in};

use crate::macros::Macro;
use indexmap::IndexMap;
use std::alloc::{AllocError, Global};
use sv_source::Text;

/// The table of macros. Contracts speak of what each name stands for in it.
#[derive(Drop)]
pub struct Table {
    macros: IndexMap<Text, Macro>,
}

impl Table {
    /// No macros. It takes no memory.
    pub fn new(alloc: Global) -> Table
        ensures { macros_in result ≡ (λ _. None) }
    {
        Table {
            macros: IndexMap::new(alloc),
        }
    }

    /// The macro of this name.
    pub fn find(&self, name: &Text) -> Option<&Macro>
        ensures { option_copied result ≡ macros_in self.now name.now }
    {
        self.macros.get(name)
    }

    /// Whether there is a macro of this name.
    pub fn has(&self, name: &Text) -> bool
        ensures { result ≡ is_some (macros_in self.now name.now) }
    {
        self.find(name).is_some()
    }

    /// The name stands for this macro from now on.
    pub fn define(&mut self, name: Text, value: Macro) -> Result<(), AllocError>
        ensures { OnOk result (macros_in self.new ≡ defined (macros_in self.old) name value) }
    {
        self.macros.insert(name, value)?;
        Ok(())
    }

    /// The name stands for nothing from now on.
    pub fn undefine(&mut self, name: &Text)
        ensures { macros_in self.new ≡ undefined (macros_in self.old) name.now }
    {
        self.macros.swap_remove(name);
    }

    /// The macro of this name is busy or no longer is, if there is one.
    pub fn mark(&mut self, name: &Text, busy: bool)
        ensures { macros_in self.new ≡ marked (macros_in self.old) name.now busy }
    {
        if let Some(value) = self.macros.get_mut(name) {
            value.busy = busy;
        }
    }
}
