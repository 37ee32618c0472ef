//! Tables of modules.

ghost use Rattle.std.specs.Prelude.{◌≡◌, true, map, IfOk};
ghost use Rattle.v_tree.specs.Names.{distinct};
ghost use Rattle.v_meaning.specs.Machine.{is_input};
ghost use Rattle.v_meaning.specs.Modules as means;
ghost use Rattle.v_eval.specs.Scopes as places;
ghost use Rattle.v_modules.specs.Named.{names_of_signals};
ghost use Rattle.v_modules.specs.Tables as spec;

use crate::places::{function_count, functions_of};
use crate::signals::{inputs_of, signals_of};
use crate::table::Table;
use std::alloc::{AllocError, Global};
use sv_source::{Items, Text, at};
use v_eval::{Module, Scope};
use v_tree::{VItem, VModule};

/// Tables of modules, by the numbers of these.
pub type Tables<'a> = Items<Table<'a>>;

/// The table of a module of these items. Or want of memory.
pub fn table_of<'a>(alloc: Global, items: &'a [VItem]) -> Result<Table<'a>, AllocError>
    requires { distinct (names_of_signals (means.signals items.now)) ≡ true }
    ensures { IfOk result (λ t. t.names.items.now ≡ items.now) }
{
    let inputs = inputs_of(alloc, items)?;
    let names = Module {
        signals: signals_of(alloc, items)?,
        functions: functions_of(alloc, items)?,
        items,
    };
    Ok(Table {
        names,
        functions: function_count(items),
        inputs,
    })
}

/// The tables of these modules. Or want of memory.
pub fn tables_of<'a>(alloc: Global, modules: &'a [VModule]) -> Result<Tables<'a>, AllocError>
    requires { spec.NamesStandOnce modules.now }
    ensures { IfOk result (λ ts. map spec.items_of ts ≡ map spec.items_in modules.now) }
{
    let mut tables = Tables::new(alloc);
    for module in modules {
        tables.push(table_of(alloc, module.items.as_slice())?)?;
    }
    Ok(tables)
}

/// What names stand for in an instance of a module whose first signal has this number.
pub fn scope_in<'t>(table: &'t Table<'_>, first: u32) -> Scope<'t>
    ensures { places.scope_of result ≡ means.scope_of first (spec.items_of table.now) }
{
    Scope {
        locals: &[],
        next: 0,
        module: &table.names,
        first,
        depth: table.functions,
    }
}

/// Whether the signal with a name is an input of the module.
pub fn names_input(table: &Table<'_>, name: &Text) -> bool
    ensures { result ≡ is_input (means.kind_of (means.signals (spec.items_of table.now)) name.now) }
{
    match table.names.signals.get(name) {
        None => false,
        Some(signal) => match at(table.inputs.as_slice(), signal.place as usize) {
            None => false,
            Some(input) => *input,
        },
    }
}
