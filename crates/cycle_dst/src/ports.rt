//! The inputs of a design's top in port order (IEEE 1364-2005 clause 12.3).

ghost use Rattle.std.specs.Prelude.{◌≡◌, ◌++◌, flat_map, IfOk, OnOk};
ghost use Rattle.std.specs.Option.{option_copied};
ghost use Rattle.v_meaning.specs.Modules.{signals};
ghost use Rattle.v_modules.specs.Tables.{items_of};
ghost use Rattle.v_processes.specs.Walks.{IsTabled};
ghost use Rattle.cycle_dst.specs.Ports.{input_named, inputs_if, inputs_in, number_in};

use b4_core::Items;
use std::alloc::{AllocError, Global};
use sv_source::{Text, at};
use v_eval::number_of;
use v_modules::{Table, names_input, scope_in};
use v_processes::{Design, number_named};
use v_tree::VModule;

// The signal that a name stands for in the top.
#[tactic(auto, using(crate::proofs::TopPorts::named_alike))]
fn signal_named(table: &Table<'_>, name: &Text) -> usize
    ensures { result ≡ number_in (signals (items_of table.now)) name.now }
{
    number_of(scope_in(table, 0).find(name)) as usize
}

// Adds the signal that a name stands for, if it is an input.
fn add_input(table: &Table<'_>, name: &Text, to: &mut Items<usize>) -> Result<(), AllocError>
    ensures { OnOk result (to.new ≡ to.old ++ input_named (signals (items_of table.now)) name.now) }
{
    if names_input(table, name) {
        to.push(signal_named(table, name))
    } else {
        Ok(())
    }
}

// The inputs among these names.
fn inputs_among(
    alloc: Global,
    table: &Table<'_>,
    names: &[Text],
) -> Result<Items<usize>, AllocError>
    ensures { IfOk result (λ ns. ns ≡ flat_map (input_named (signals (items_of table.now))) names.now) }
{
    let mut inputs = Items::new(alloc);
    for name in names {
        add_input(table, name, &mut inputs)?;
    }
    Ok(inputs)
}

// The inputs of a module, if it is there.
fn module_inputs(
    alloc: Global,
    table: Option<&Table<'_>>,
    of: Option<&VModule>,
) -> Result<Items<usize>, AllocError>
    ensures { IfOk result (λ ns. ns ≡ inputs_if (option_copied table.entry) (option_copied of.entry)) }
{
    let Some(table) = table else {
        return Ok(Items::new(alloc));
    };
    match of {
        None => Ok(Items::new(alloc)),
        Some(module) => inputs_among(alloc, table, module.ports.as_slice()),
    }
}

/// The signals that are the top's inputs, in port order. Or want of memory.
#[tactic(auto, using(crate::proofs::TopPorts::top))]
pub fn inputs_of(
    alloc: Global,
    design: Design<'_, '_>,
    top: &Text,
) -> Result<Items<usize>, AllocError>
    requires { IsTabled design }
    ensures { IfOk result (λ ns. ns ≡ inputs_in design.entry.modules.now top.now) }
{
    match number_named(design, top) {
        None => Ok(Items::new(alloc)),
        Some(k) => module_inputs(alloc, at(design.tables, k), at(design.modules, k)),
    }
}
