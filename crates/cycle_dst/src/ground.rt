//! What the parts of a circuit are made from.

use b4_core::Vec4;
use sv_source::Text;
use v_instances::Slot;
use v_modules::Table;
use v_processes::Proc;
use v_rules::Modules;
use v_tree::VDesign;

/// A design with its top, its tables and processes, and what its signals hold at first.
#[derive(Clone, Copy)]
pub struct Ground<'a, 't> {
    /// The design.
    pub design: &'t VDesign,
    /// The name of its top.
    pub top: &'t Text,
    /// The numbers of its modules.
    pub numbers: &'t Modules,
    /// The tables of its modules by their numbers.
    pub tables: &'t [Table<'a>],
    /// Its processes.
    pub procs: &'t [Proc<'a>],
    /// Its signals in the order of their numbers.
    pub slots: &'t [Slot],
    /// What the signals hold before the first row.
    pub initial: &'t [Vec4],
    /// What they hold at time zero, once every `initial` has been made.
    pub given: &'t [Vec4],
}
