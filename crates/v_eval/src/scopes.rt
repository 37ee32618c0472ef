//! What the names in a module, a function or a block stand for (IEEE 1364-2005 clause 12.5).

ghost use Rattle.std.specs.Prelude.{◌≡◌};
ghost use Rattle.std.specs.Str.{bytes_eq};
ghost use Rattle.indexmap.specs.IndexMap.{get};
ghost use Rattle.v_meaning.specs.Scopes as means;
ghost use Rattle.v_meaning.specs.Functions.{find};
ghost use Rattle.v_meaning.specs.Modules.{functions as functions_in};
ghost use Rattle.v_eval.specs.Names.{local_found, signal_found, names_of, nameless};
ghost use Rattle.v_eval.specs.Paths.{named_or_not};
ghost use Rattle.v_eval.specs.Functions.{function_at};

use crate::modules::{Local, Module, Signal};
use crate::paths::Named;
use indexmap::IndexMap;
use sv_source::Text;

/// The names that can be used at some place.
#[derive(Clone, Copy)]
pub struct Scope<'a> {
    /// The locals, the innermost first.
    pub locals: &'a [Local],
    /// The number of the next local.
    pub next: u32,
    /// The module.
    pub module: &'a Module<'a>,
    /// The number of the module's first signal.
    pub first: u32,
    /// How deep calls may go.
    pub depth: usize,
}

// The first of these locals that has the name.
fn find_local(locals: &[Local], name: &Text) -> Option<Named>
    ensures { result ≡ local_found locals.now name.now }
{
    for local in locals {
        if local.name == *name {
            return Some(Named {
                number: 4294967296 + local.number as u64,
                left: local.left,
                last: None,
            });
        }
    }
    None
}

// The signal that has the name.
fn find_signal(signals: &IndexMap<Text, Signal>, first: u32, name: &Text) -> Option<Named>
    ensures { result ≡ signal_found first (get bytes_eq signals.now name.now) }
{
    match signals.get(name) {
        None => None,
        Some(signal) => Some(Named {
            number: first as u64 + signal.place as u64,
            left: signal.left,
            last: signal.last,
        }),
    }
}

impl<'a> Scope<'a> {
    /// What a name stands for, if it is declared.
    #[tactic(auto, using(crate::proofs::Naming::naming))]
    pub fn find(&self, name: &Text) -> Option<Named>
        ensures { named_or_not result ≡ nameless (means.named (names_of self.now) name.now) }
    {
        match find_local(self.locals, name) {
            Some(named) => Some(named),
            None => find_signal(&self.module.signals, self.first, name),
        }
    }

    #[tactic(auto, using(crate::proofs::Naming::naming))]
    /// Where the function with a name stands among the items of the module.
    pub fn function(&self, name: &Text) -> Option<usize>
        ensures { function_at self.now.module.now.items.now result ≡ find (functions_in self.now.module.now.items.now) name.now }
    {
        self.module.functions.get(name).copied()
    }
}
