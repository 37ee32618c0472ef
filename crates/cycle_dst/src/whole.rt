//! What walks over a design find.

use sv_source::Text;
use v_instances::Slot;
use v_processes::{Design, Found};
use v_tree::VDesign;

/// A design with its top, and what walks over it found.
#[derive(Clone, Copy)]
pub struct Whole<'a, 't> {
    /// The design.
    pub design: &'t VDesign,
    /// The name of its top.
    pub top: &'t Text,
    /// Its modules by their numbers, with their tables.
    pub modules: Design<'a, 't>,
    /// Its processes and initial values.
    pub found: &'t Found<'a>,
    /// Its signals in the order of their numbers.
    pub slots: &'t [Slot],
}
