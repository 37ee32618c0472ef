//! Modules by their names.

ghost use Rattle.std.specs.Prelude.{◌≡◌, length, MatchOption};
ghost use Rattle.std.specs.Option.{option_copied};
ghost use Rattle.v_meaning.specs.Modules as means;
ghost use Rattle.v_modules.specs.Tables.{items_of};
ghost use Rattle.v_rules.specs.Tables.{numbers_from, no_numbers};
ghost use Rattle.v_processes.specs.Connections.{ports_of};
ghost use Rattle.v_processes.specs.Walks.{IsTabled};
ghost use Rattle.v_processes.specs.Naming as spec;

use crate::design::Design;
use sv_source::{Text, at};
use v_modules::Table;
use v_tree::VItem;

/// The number of the first module with a name, if there is one.
pub fn number_named(design: Design<'_, '_>, name: &Text) -> Option<usize>
    requires { IsTabled design }
    ensures { result ≡ numbers_from 0 design.entry.modules.now no_numbers name.now }
{
    design.numbers.number(name)
}

// The items of the module with a number; none where there is no number.
fn items_numbered<'a>(design: Design<'a, '_>, number: Option<usize>) -> &'a [VItem]
    ensures { result.now ≡ spec.items_numbered design.entry.modules.now number }
{
    match number {
        None => &[],
        Some(k) => match at(design.modules, k) {
            None => &[],
            Some(module) => module.items.as_slice(),
        },
    }
}

/// The items of the module with a name; an absent one has none.
#[tactic(auto, using(crate::proofs::Named::naming))]
pub fn items_named<'a>(design: Design<'a, '_>, name: &Text) -> &'a [VItem]
    requires { IsTabled design }
    ensures { result.now ≡ means.items_of design.entry.modules.now name.now }
{
    items_numbered(design, number_named(design, name))
}

// The table of the module with a number, if there is one.
fn table_numbered<'a, 't>(design: Design<'a, 't>, number: Option<usize>) -> Option<&'t Table<'a>>
    ensures { option_copied result ≡ spec.table_numbered design.entry.tables.now number }
{
    match number {
        None => None,
        Some(k) => at(design.tables, k),
    }
}

/// The table of the module with a name, if there is one.
#[tactic(auto, using(crate::proofs::Named::naming))]
pub fn table_named<'a, 't>(design: Design<'a, 't>, name: &Text) -> Option<&'t Table<'a>>
    requires { IsTabled design }
    ensures { ports_of (option_copied result) ≡ means.signals (means.items_of design.entry.modules.now name.now) }
{
    table_numbered(design, number_named(design, name))
}

/// How many signals the module with a name has itself.
pub fn own_count(design: Design<'_, '_>, name: &Text) -> usize
    requires { IsTabled design }
    ensures { result ≡ length (means.signals (means.items_of design.entry.modules.now name.now)) }
{
    match table_named(design, name) {
        None => 0,
        Some(table) => table.inputs.len(),
    }
}
