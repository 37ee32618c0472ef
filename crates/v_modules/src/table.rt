//! The table of a module.

ghost use Rattle.std.specs.Prelude.{◌≡◌, ℕ, length, map};
ghost use Rattle.v_meaning.specs.Machine.{is_input};
ghost use Rattle.v_meaning.specs.Modules as means;
ghost use Rattle.v_eval.specs.Names.{signal_named};

use sv_source::Items;
use v_eval::Module;

/// What the names of a module stand for, whatever the instance.
#[derive(Drop)]
pub struct Table<'a> {
    /// The signals and functions by their names.
    pub names: Module<'a>,
    /// How many functions there are.
    pub functions: usize,
    /// Which of its signals are inputs, by their places.
    pub inputs: Items<bool>,
    ghost named: { (first : ℕ) → map (signal_named first) names.signals.entries ≡ means.numbered first (means.signals names.items.now) },
    ghost inputs_are: { inputs ≡ map (λ (s : means.Signal). is_input s.kind) (means.signals names.items.now) },
    ghost counted: { functions ≡ length (means.functions names.items.now) },
}
