//! The target design of an elaborated design.

ghost use Rattle.std.specs.Prelude.{◌≡◌, IfOk};
ghost use Rattle.lower_design.specs.Designs.{IsTranslatable, LowersDesign, TypedIsTranslatable};
ghost use Rattle.lower_design.specs.Lowered.{AllFit, lowered};

use crate::module::lower_module;
use core_forms::core_of;
use std::alloc::{AllocError, Global};
use sv_core::Design;
use v_tree::VDesign;

/// The target design of a core form, which is dropped.
fn lower_form(alloc: Global, d: Design) -> Result<VDesign, AllocError>
    requires { AllFit d.signals d.processes }
    ensures { IfOk result (λ e. e ≡ lowered d) }
{
    lower_module(alloc, &d)
}

/// The target design of an elaborated design that has a core form: that of its core form. Its traces are those of the
/// elaborated design's own machine. The error is want of memory.
pub fn lower_elaborated(alloc: Global, d: &sv_types::Design) -> Result<VDesign, AllocError>
    requires { IsTranslatable d.now }
    ensures { IfOk result (λ e. LowersDesign d.now e) }
{
    match core_of(alloc, d)? {
        Some(core) => lower_form(alloc, core),
        None => unreachable!(),
    }
}

/// A core design that `lower` takes is one that `lower_elaborated` takes, once it has its types. The function does nothing.
pub fn typed_is_translatable()
    ensures { TypedIsTranslatable }
{}
