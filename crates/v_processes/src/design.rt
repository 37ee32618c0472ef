//! The modules of a design, as a walk looks at them.

use v_modules::Table;
use v_rules::Modules;
use v_tree::VModule;

/// The modules of a design, and their tables by their numbers.
#[derive(Clone, Copy)]
pub struct Design<'a, 't> {
    /// The modules.
    pub modules: &'a [VModule],
    /// Their numbers, by their names.
    pub numbers: &'t Modules,
    /// Their tables.
    pub tables: &'t [Table<'a>],
}
