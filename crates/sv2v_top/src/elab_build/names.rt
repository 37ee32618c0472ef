//! What the names of a module stand for: declared names, and the first use of one that isn't (IEEE 1800-2017 clause 23.9).

ghost use Rattle.std.specs.Prelude.{◌≡◌, ◌^◌, ◌-◌, ◌<◌, ◌≤◌, ◌++◌, ◌||◌, not, List, ℕ, map, find, length, IfOk, OnOk, option_copied, MatchOption};
ghost use Rattle.std.specs.Option.{option_map};
ghost use Rattle.std.specs.Str.{bytes_eq};
ghost use Rattle.sv2v_top.specs.declared.uses.Use.{Use as SourceUse};
ghost use Rattle.sv2v_top.specs.source.Names.{declared_by, name_of, port_word, port_names, signal_names, first_undeclared};
ghost use Rattle.sv2v_top.specs.source.Lookup.{Numbers, holds};
ghost use Rattle.sv2v_top.specs.source.Answers.{undeclared_refusal, UndeclaredGives};

use crate::name_table::Names;
use crate::uses::{Use, find_in};
use built_forms::{Item, Module, Port};
use std::alloc::{AllocError, Global};
use sv_source::{Refusal, Spot, Text};

/// The names of the ports, in the order of the header.
fn port_table(alloc: Global, ports: &[Port]) -> Result<Names, AllocError>
    ensures { IfOk result (λ names. Numbers names (map port_word ports.now)) }
{
    let mut names = Names::new(alloc);
    for port in ports {
        names.add(alloc, &port.name.word)?;
    }
    Ok(names)
}

/// Adds the name that an item declares, if it declares one.
fn add_declared(alloc: Global, names: &mut Names, item: &Item) -> Result<(), AllocError>
    ensures { OnOk result ((ns : List (List ℕ)) → Numbers names.old ns → Numbers names.new (ns ++ map name_of (declared_by item.now))) }
{
    match item {
        Item::Logic(declaration) => names.add(alloc, &declaration.name.word),
        Item::Assign(_) | Item::Comb(_) | Item::Edge { .. } => Ok(()),
    }
}

/// The first of these uses whose name is neither in the table nor the module's own.
fn first_unknown<'a>(own: &Text, names: &Names, uses: &'a [Use]) -> Option<&'a Use>
    ensures { option_copied result ≡ find (λ (u : SourceUse). not (holds names.now u.name.word || bytes_eq own.now u.name.word)) uses.now }
{
    uses.iter().find(|item| names.number(&item.name.word).is_none() && *own != item.name.word)
}

/// The refusal of a name that isn't declared.
fn undeclared_name(alloc: Global, name: &Spot) -> Result<Refusal, AllocError>
    ensures { IfOk result (λ r. r ≡ undeclared_refusal name.now) }
{
    let word = name.word.copy(alloc)?;
    let place = name.place;
    Ok(Refusal {
        rule: 401,
        place,
        word,
    })
}

/// The names of the signals of a module, or the refusal of the first use of a name that isn't declared.
pub fn signal_table(alloc: Global, source: &Module) -> Result<Result<Names, Refusal>, AllocError>
    ensures { IfOk result (UndeclaredGives source.now) }
{
    let mut names = port_table(alloc, source.ports.as_slice())?;
    for item in source.items.as_slice() {
        let found = find_in(alloc, item)?;
        if let Some(unknown) = first_unknown(&source.name.word, &names, found.names.as_slice()) {
            return Ok(Err(undeclared_name(alloc, &unknown.name)?));
        }
        add_declared(alloc, &mut names, item)?;
    }
    Ok(Ok(names))
}
