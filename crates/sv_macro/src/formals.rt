// The formals of a macro, by name.
ghost use Rattle.std.specs.Prelude.{◌≡◌, IfOk, OnOk, if◌then◌else◌};
ghost use Rattle.std.specs.Str.{bytes_eq};
ghost use Rattle.sv_macro.specs.Macros.{formal_number};
ghost use Rattle.sv_macro.specs.Tables.{numbers_in};

use indexmap::IndexMap;
use std::alloc::{AllocError, Global};
use sv_source::Text;

/// The numbers of formals. Contracts speak of what number each name has.
#[derive(Drop)]
pub struct FormalNumbers {
    numbers: IndexMap<Text, usize>,
}

impl FormalNumbers {
    // No formals. It takes no memory.
    fn empty(alloc: Global) -> FormalNumbers
        ensures { numbers_in result ≡ (λ name. None) }
    {
        FormalNumbers {
            numbers: IndexMap::new(alloc),
        }
    }

    // The name has this number, whatever it had before.
    fn put(&mut self, name: Text, number: usize) -> Result<(), AllocError>
        ensures { OnOk result (numbers_in self.new ≡ (λ q. if bytes_eq name q then Some number else numbers_in self.old q)) }
    {
        self.numbers.insert(name, number)?;
        Ok(())
    }

    /// The numbers of these names. Of equal names the first counts.
    pub fn new(alloc: Global, formals: &[Text]) -> Result<FormalNumbers, AllocError>
        ensures { IfOk result (λ numbers. numbers_in numbers ≡ formal_number 0 formals.now) }
    {
        let mut numbers = FormalNumbers::empty(alloc);
        let mut at = formals.len();
        while at > 0 {
            at -= 1;
            numbers.put(formals[at].copy(alloc)?, at)?;
        }
        Ok(numbers)
    }

    /// The number of a name, if it is a formal.
    pub fn find(&self, name: &Text) -> Option<usize>
        ensures { result ≡ numbers_in self.now name.now }
    {
        self.numbers.get(name).copied()
    }
}
