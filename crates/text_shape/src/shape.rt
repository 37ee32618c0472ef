//! The shape of a top.

ghost use Rattle.std.specs.Prelude.{◌≡◌, IfOk};
ghost use Rattle.std.specs.Option.{option_copied};
ghost use Rattle.v_tree.specs.Rules.{FitsTop, module_named};
ghost use Rattle.v_rules.specs.Tables.{Tables};
ghost use Rattle.text_shape.specs.Shapes as means;

use crate::ports::ports_of;
use crate::signals::Signals;
use std::alloc::{AllocError, Global};
use stim_rows::{Ports, Shape};
use sv_source::{Text, at};
use v_rules::Modules;
use v_top_rules::top_bits;
use v_tree::{VDesign, VModule};

// The first module with a name.
fn find_module<'m>(table: &Modules, modules: &'m [VModule], name: &Text) -> Option<&'m VModule>
    requires { Tables table.now modules.now }
    ensures { option_copied result ≡ module_named modules.now name.now }
{
    match table.number(name) {
        None => None,
        Some(number) => at(modules, number),
    }
}

// The shape of a module with so many bits in it and below it.
fn module_shape(alloc: Global, module: &VModule, bits: u64) -> Result<Shape, AllocError>
    ensures { IfOk result (λ shape. shape ≡ means.shape_with «module».now.items «module».now.ports bits) }
{
    let signals = Signals::of(alloc, module.items.as_slice())?;
    let names = module.ports.as_slice();
    Ok(Shape {
        inputs: ports_of(alloc, &signals, true, names)?,
        outputs: ports_of(alloc, &signals, false, names)?,
        bits,
    })
}

// The shape of a module that may be there, with so many bits.
fn shape_if(alloc: Global, module: Option<&VModule>, bits: u64) -> Result<Shape, AllocError>
    ensures { IfOk result (λ shape. shape ≡ means.shape_if (option_copied «module».entry) bits) }
{
    match module {
        None => Ok(Shape {
            inputs: Ports::new(alloc),
            outputs: Ports::new(alloc),
            bits,
        }),
        Some(module) => module_shape(alloc, module, bits),
    }
}

/// The shape of the module of this name, the top of a design that can be run with it: its inputs and its outputs in the order of
/// its port list (IEEE 1364-2005 clause 12.3), each with the number of its signal, which is its place in a valuation, and how
/// many bits all signals in it and below it have, memories with all their words. Or want of memory.
#[tactic(auto, using(crate::proofs::Shaping::shape_is))]
pub fn shape_of_text(alloc: Global, design: &VDesign, top: &Text) -> Result<Shape, AllocError>
    requires { FitsTop design.now top.now }
    ensures { IfOk result (λ shape. shape ≡ means.shape_of design.now top.now) }
{
    let modules = design.modules.as_slice();
    let table = Modules::of(alloc, modules)?;
    let bits = u64::from(top_bits(alloc, design, top)?);
    shape_if(alloc, find_module(&table, modules, top), bits)
}
