//! The items of a module.

ghost use Rattle.std.specs.Prelude.{◌≡◌, OnOk};
ghost use Rattle.v_scopes.specs.Env.{found, hidden_in};
ghost use Rattle.v_stmt_rules.specs.Stmts.{Tells, begun, nothing};
ghost use Rattle.v_item_rules.specs.Functions.{Gives};
ghost use Rattle.v_rules.specs.Tables.{ports_in, numbers_in, at_number};
ghost use Rattle.v_rules.specs.Items as means;

use crate::modules::Modules;
use std::alloc::{AllocError, Global};
use sv_source::Text;
use v_expr_rules::{earlier, mark, plus};
use v_item_rules::{
    function_seen, initial_first, instance_seen, process_seen, range_tokens, signal_first,
    signal_tokens,
};
use v_scopes::Scope;
use v_stmt_rules::{StmtSeen, local_met};
use v_tree::{VFunction, VInitial, VInstance, VItem, VSignal};

// The token of a signal's name, where its declaration begins at a token.
fn signal_token(signal: &VSignal, at: u32) -> u32
    ensures { result ≡ means.signal_token signal.now at }
{
    match signal {
        VSignal::Input { range, name: _ } => plus(at, 1 + range_tokens(*range)),
        VSignal::Output { range, name: _ } => plus(at, 1 + range_tokens(*range)),
        VSignal::OutputReg {
            range,
            name: _,
            initial: _,
        } => plus(at, 2 + range_tokens(*range)),
        VSignal::Wire { range, name: _ } => plus(at, 1 + range_tokens(*range)),
        VSignal::Reg {
            range,
            name: _,
            rest: _,
        } => plus(at, 1 + range_tokens(*range)),
    }
}

fn signal_name(signal: &VSignal) -> &Text
    ensures { result.now ≡ means.signal_name signal.now }
{
    match signal {
        VSignal::Input { range: _, name } => name,
        VSignal::Output { range: _, name } => name,
        VSignal::OutputReg {
            range: _,
            name,
            initial: _,
        } => name,
        VSignal::Wire { range: _, name } => name,
        VSignal::Reg {
            range: _,
            name,
            rest: _,
        } => name,
    }
}

fn is_port(signal: &VSignal) -> bool
    ensures { result ≡ means.is_port signal.now }
{
    match signal {
        VSignal::Input { range: _, name: _ } => true,
        VSignal::Output { range: _, name: _ } => true,
        VSignal::OutputReg {
            range: _,
            name: _,
            initial: _,
        } => true,
        VSignal::Wire { range: _, name: _ } => false,
        VSignal::Reg {
            range: _,
            name: _,
            rest: _,
        } => false,
    }
}

// A signal, which begins at a token: its name is met once, and a port stands in the list.
fn signal_seen(
    alloc: Global,
    listed: &Scope,
    signal: &VSignal,
    at: u32,
    met: &mut Scope,
) -> Result<StmtSeen, AllocError>
    ensures { Tells result (found met.new) (means.signal_told signal.now (found listed.now) at (found met.old)) }
{
    let name = signal_name(signal);
    let token = signal_token(signal, at);
    let again = mark(local_met(alloc, met, name)?, token);
    let unlisted = mark(is_port(signal) && !listed.find(name).is_some(), token);
    Ok(StmtSeen {
        size: signal_tokens(signal),
        first: earlier(again, earlier(unlisted, signal_first(signal, at))),
    })
}

// An initial value, which begins at a token.
fn initial_seen(scope: &Scope, initial: &VInitial, at: u32) -> StmtSeen
    ensures { result ≡ means.initial_seen initial.now (found scope.now) at }
{
    StmtSeen {
        size: 5,
        first: initial_first(scope.find(&initial.name), initial.value.len(), at),
    }
}

// A function, which begins at a token and is the item with this number.
fn function_met(
    alloc: Global,
    scope: &mut Scope,
    items: &[VItem],
    function: &VFunction,
    number: usize,
    at: u32,
    met: &mut Scope,
) -> Result<StmtSeen, AllocError>
    ensures tells { Tells result (found met.new) (means.function_told function.now number (found scope.old) items.now at (found met.old)) }
    ensures keeps { OnOk result (found scope.new ≡ found scope.old) }
    ensures hides { OnOk result (hidden_in scope.new ≡ hidden_in scope.old) }
{
    let token = plus(at, 1 + range_tokens(function.range));
    let again = mark(local_met(alloc, met, &function.name)?, token);
    let seen = function_seen(alloc, scope, items, function, number, at)?;
    Ok(StmtSeen {
        size: seen.size,
        first: earlier(again, seen.first),
    })
}

// An instance of a module of the design, or of none.
fn child_seen(
    alloc: Global,
    modules: &Modules,
    scope: &Scope,
    items: &[VItem],
    instance: &VInstance,
    at: u32,
) -> Result<StmtSeen, AllocError>
    ensures { Gives result (means.child_seen (at_number (ports_in modules.now) (numbers_in modules.now instance.now.of)) instance.now (found scope.now) items.now at) }
{
    match modules.find(&instance.of) {
        Some(ports) => instance_seen(alloc, scope, items, ports, instance, at),
        None => {
            let none = Scope::new(alloc);
            let seen = instance_seen(alloc, scope, items, &none, instance, at)?;
            Ok(StmtSeen {
                size: seen.size,
                first: Some(at),
            })
        }
    }
}

// An instance, which begins at a token.
fn instance_met(
    alloc: Global,
    modules: &Modules,
    scope: &Scope,
    items: &[VItem],
    instance: &VInstance,
    at: u32,
    met: &mut Scope,
) -> Result<StmtSeen, AllocError>
    ensures { Tells result (found met.new) (means.instance_told (numbers_in modules.now) (ports_in modules.now) instance.now (found scope.now) items.now at (found met.old)) }
{
    let again = mark(local_met(alloc, met, &instance.name)?, plus(at, 1));
    let seen = child_seen(alloc, modules, scope, items, instance, at)?;
    Ok(StmtSeen {
        size: seen.size,
        first: earlier(again, seen.first),
    })
}

// The item with this number, which begins at a token.
fn item_seen(
    alloc: Global,
    modules: &Modules,
    scope: &mut Scope,
    listed: &Scope,
    items: &[VItem],
    item: &VItem,
    number: usize,
    at: u32,
    met: &mut Scope,
) -> Result<StmtSeen, AllocError>
    ensures tells { Tells result (found met.new) (means.item_told (numbers_in modules.now) (ports_in modules.now) (found listed.now) item.now number (found scope.old) items.now at (found met.old)) }
    ensures keeps { OnOk result (found scope.new ≡ found scope.old) }
    ensures hides { OnOk result (hidden_in scope.new ≡ hidden_in scope.old) }
{
    match item {
        VItem::Signal(signal) => signal_seen(alloc, listed, signal, at, met),
        VItem::Initial(initial) => Ok(initial_seen(scope, initial, at)),
        VItem::Process(process) => process_seen(alloc, scope, items, process, at, met),
        VItem::Function(function) => {
            function_met(alloc, scope, items, function, number, at, met)
        }
        VItem::Instance(instance) => {
            instance_met(alloc, modules, scope, items, instance, at, met)
        }
    }
}

fn item_added(list: StmtSeen, item: StmtSeen) -> StmtSeen
    ensures { result ≡ means.item_added list item }
{
    StmtSeen {
        size: plus(list.size, item.size),
        first: earlier(list.first, item.first),
    }
}

/// What is kept of the items of a module, of which the first one begins at a token, where names stand for these things and the
/// port list has these names. Or want of memory.
pub(crate) fn items_seen(
    alloc: Global,
    modules: &Modules,
    scope: &mut Scope,
    listed: &Scope,
    items: &[VItem],
    start: u32,
) -> Result<StmtSeen, AllocError>
    ensures { Gives result (means.items_from items.now 0 (numbers_in modules.now) (ports_in modules.now) (found listed.now) (found scope.old) items.now start (begun nothing)).seen }
{
    let mut met = Scope::new(alloc);
    let mut seen = StmtSeen {
        size: 0,
        first: None,
    };
    for number in 0..items.len() {
        let at = plus(start, seen.size);
        let item = &items[number];
        let one = item_seen(
            alloc, modules, scope, listed, items, item, number, at, &mut met,
        )?;
        seen = item_added(seen, one);
    }
    Ok(seen)
}
