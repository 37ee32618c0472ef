//! What a module's names stand for, which rules it breaks, and the design that it elaborates to
//! (IEEE 1800-2017 clauses 3.12 and 23.2).

mod names;
mod rules;
mod signals;

ghost use Rattle.std.specs.Prelude.{◌≡◌, ◌^◌, ◌<◌, ◌≤◌, ◌&&◌, not, true, map, nat_le, List, ℕ, IfOk};
ghost use Rattle.std.specs.List.{list_all};
ghost use Rattle.sv2v_top.specs.source.Names.{declared, signal_names};
ghost use Rattle.sv2v_top.specs.source.Rules.{inputs, is_top, header_holds, elaborates, is_built, ranges_hold, signal_of};
ghost use Rattle.sv2v_top.specs.source.Lookup.{Numbers};
ghost use Rattle.sv2v_top.specs.source.Answers.{stage_refusal, absent_refusal, ElaborationGives, NamesGive, ModuleGives, TreeGives};
ghost use Rattle.lower_design.specs.Translatable.{is_helper_name};
ghost use Rattle.sv_core.specs.declared.design.Signal.{Signal as DesignSignal};

use crate::design::processes;
use crate::name_table::Names;
use built_forms::{Module, built};
use core_forms::typed;
use names::signal_table;
use package_scope::scopes;
use rules::{Tables, comb_table, items_are_built, items_fit, process_break};
use signals::{fits_in_bits, input_table, module_ranges_are_plain, signals};
use std::alloc::{AllocError, Global};
use sv_core::{Design, Signal};
use sv_source::{Fail, Place, Refusal, Text};
use sv_tree::SourceTree;

/// Whether a name begins as those of helpers do.
fn is_helper(name: &Text) -> bool
    ensures { result ≡ is_helper_name name.now }
{
    let name = name.as_bytes();
    name.len() >= 5 && &name[..5] == b"sv2v_".as_slice()
}

/// Whether a module is the top.
fn is_top(source: &Module, top: &[u8]) -> bool
    ensures { result ≡ is_top source.now top.now }
{
    source.name.word.is(top)
}

/// Whether no signal has a helper's name.
fn have_no_helpers(signals: &[Signal]) -> bool
    ensures { result ≡ list_all (λ (s : DesignSignal). not (is_helper_name s.path)) signals.now }
{
    signals.iter().all(|signal| !is_helper(&signal.path))
}

/// Whether the names of the header and of the signals hold.
fn header_fits(source: &Module, names: &Names, signals: &[Signal]) -> bool
    requires names { Numbers names.now (signal_names source.now) }
    requires signals { signals.now ≡ map signal_of (declared source.now) }
    ensures { result ≡ header_holds source.now }
{
    let own = !is_helper(&source.name.word);
    let distinct = names.are_distinct();
    let free = have_no_helpers(signals);
    own & distinct & free
}

/// Whether a module elaborates, where its ranges hold.
fn module_fits(
    alloc: Global,
    source: &Module,
    names: &Names,
    input_names: &Names,
    signals: &[Signal],
) -> Result<bool, AllocError>
    requires names { Numbers names.now (signal_names source.now) }
    requires inputs { Numbers input_names.now (inputs (declared source.now)) }
    requires ranges { ranges_hold (declared source.now) ≡ true }
    requires signals { signals.now ≡ map signal_of (declared source.now) }
    ensures { IfOk result (λ b. b ≡ elaborates source.now) }
{
    let items = items_fit(alloc, source.items.as_slice(), names, input_names)?;
    let header = header_fits(source, names, signals);
    let few = fits_in_bits(signals);
    Ok(header & few & items)
}

/// Whether a module that elaborates has built forms only and breaks no rule that isn't built.
fn module_is_built(
    alloc: Global,
    source: &Module,
    names: &Names,
    input_names: &Names,
    signals: &[Signal],
) -> Result<bool, AllocError>
    requires names { Numbers names.now (signal_names source.now) }
    requires few { names.now.next < 2 ^ 32 }
    requires inputs { Numbers input_names.now (inputs (declared source.now)) }
    requires signals { signals.now ≡ map signal_of (declared source.now) }
    ensures { IfOk result (λ b. b ≡ is_built source.now) }
{
    let written = comb_table(alloc, source.items.as_slice())?;
    let tables = Tables {
        names,
        inputs: input_names,
        written: &written,
        signals,
    };
    let items = items_are_built(alloc, source.items.as_slice(), &tables)?;
    let plain = module_ranges_are_plain(source);
    Ok(plain & items)
}

/// The head of the first file.
const HEAD: Place = Place {
    file: 0,
    line: 1,
    col: 1,
};

/// The refusal of what isn't built yet.
fn not_built(alloc: Global) -> Result<Refusal, AllocError>
    ensures { IfOk result (λ r. r ≡ stage_refusal) }
{
    let word = Text::from_bytes(alloc, b"stage")?;
    Ok(Refusal {
        rule: 999,
        place: HEAD,
        word,
    })
}

/// The refusal of a text in which the top isn't there.
fn absent(alloc: Global, top: &[u8]) -> Result<Refusal, AllocError>
    ensures { IfOk result (λ r. r ≡ absent_refusal top.now) }
{
    let word = Text::from_bytes(alloc, top)?;
    Ok(Refusal {
        rule: 408,
        place: HEAD,
        word,
    })
}

/// Refuses a source text by its first break of the rules on names, if it has one.
fn check_names(alloc: Global, tree: &SourceTree) -> Result<(), Fail>
    ensures { NamesGive tree.now result }
{
    match scopes(alloc, tree) {
        Ok(_) => Ok(()),
        Err(fail) => Err(fail),
    }
}

/// The design of a source text, by the top's name. Its first break of the rules on names is refused, then a form that isn't
/// built with E999, and a text without a module with E408.
pub fn elaborate(alloc: Global, tree: &SourceTree, top: &[u8]) -> Result<sv_types::Design, Fail>
    ensures { TreeGives tree.now top.now result }
{
    check_names(alloc, tree)?;
    let Some(found) = built(alloc, tree)? else {
        return Err(Fail::Refused(not_built(alloc)?));
    };
    let Some(source) = found else {
        return Err(Fail::Refused(absent(alloc, top)?));
    };
    elaborate_typed(alloc, &source, top)
}

/// The design of a module with its types, refused as `elaborate_module` refuses it.
fn elaborate_typed(alloc: Global, source: &Module, top: &[u8]) -> Result<sv_types::Design, Fail>
    ensures { ModuleGives source.now top.now result }
{
    match elaborate_module(alloc, source, top) {
        Ok(design) => Ok(typed(alloc, &design)?),
        Err(fail) => Err(fail),
    }
}

/// The design of a module by its names alone, by the top's name. A name that isn't declared is refused with E401, and then a module that isn't
/// the top with E408; then a rule of names or types that isn't built with E999; then the first break of the rules on processes
/// with E601 or E603; and last another rule that isn't built with E999.
fn elaborate_module(alloc: Global, source: &Module, top: &[u8]) -> Result<Design, Fail>
    ensures { ElaborationGives source.now top.now result }
{
    let names = match signal_table(alloc, source)? {
        Ok(names) => names,
        Err(refusal) => return Err(Fail::Refused(refusal)),
    };
    if !is_top(source, top) {
        return Err(Fail::Refused(absent(alloc, top)?));
    }
    let Some(signals) = signals(alloc, source)? else {
        return Err(Fail::Refused(not_built(alloc)?));
    };
    let inputs = input_table(alloc, signals.as_slice())?;
    if !module_fits(alloc, source, &names, &inputs, signals.as_slice())? {
        return Err(Fail::Refused(not_built(alloc)?));
    }
    if let Some(refusal) = process_break(alloc, source.items.as_slice())? {
        return Err(Fail::Refused(refusal));
    }
    if !module_is_built(alloc, source, &names, &inputs, signals.as_slice())? {
        return Err(Fail::Refused(not_built(alloc)?));
    }
    let processes = processes(alloc, &names, source.items.as_slice())?;
    let top = source.name.word.copy(alloc)?;
    Ok(Design {
        top,
        signals,
        processes,
    })
}
