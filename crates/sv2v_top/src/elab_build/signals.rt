//! The signals of a module: their kinds and widths (IEEE 1800-2017 clauses 6.9.1 and 23.2.2).

ghost use Rattle.std.specs.Prelude.{◌≡◌, ◌≤◌, ◌^◌, ◌++◌, ◌&&◌, map, sum, nat_le, [], List, ℕ, Some, None, true, false, IfOk, OnOk, MatchOption};
ghost use Rattle.std.specs.List.{list_all};
ghost use Rattle.sv_core.specs.declared.design.Signal.{Signal as DesignSignal};
ghost use Rattle.built_forms.specs.declared.forms.Direction.TheVariants.{Input};
ghost use Rattle.sv2v_top.specs.source.Names.{kind_of, range_after, ports_from, variables, declared, declared_by, declared_variable};
ghost use Rattle.sv2v_top.specs.source.Rules.{range_holds, range_width, is_plain_range, ranges_hold, ranges_are_plain, signal_of, if_input, input_paths};
ghost use Rattle.sv2v_top.specs.source.Lookup.{Numbers};

use crate::literals::decimal_up_to;
use crate::name_table::Names;
use built_forms::{Declaration, Direction, Item, Module, Port, Range};
use std::alloc::{AllocError, Global};
use sv_core::{Signal, SignalKind, Signals};
use sv_source::Items;

/// The greatest bound of a range.
const BOUND_LIMIT: u32 = (1 << 31) - 1;

/// The most bits of a signal.
const WIDTH_LIMIT: u32 = 65536;

/// The bits of a packed dimension, 1 where there is none, if its bounds are below 2^31 and it has at most 65,536.
fn width(range: &Option<Range>) -> Option<u32>
    ensures { MatchOption result (range_holds range.now ≡ false) (λ w. (range_holds range.now ≡ true) × (w ≡ range_width range.now)) }
{
    let Some(range) = range else {
        return Some(1);
    };
    let left = decimal_up_to(range.left.word.as_bytes(), BOUND_LIMIT)?;
    let right = decimal_up_to(range.right.word.as_bytes(), BOUND_LIMIT)?;
    let width = left.abs_diff(right) + 1;
    if width <= WIDTH_LIMIT {
        Some(width)
    } else {
        None
    }
}

/// What kind of signal a port declares: an input is a net, an output of a `logic` type a variable.
fn signal_kind(direction: Direction) -> SignalKind
    ensures { result ≡ kind_of direction }
{
    match direction {
        Direction::Input => SignalKind::InputNet,
        Direction::Output => SignalKind::OutputVar,
    }
}

/// Adds the signals of the ports, if each range holds.
fn add_ports(alloc: Global, ports: &[Port], signals: &mut Signals) -> Result<bool, AllocError>
    ensures { IfOk result (λ holds. (holds ≡ ranges_hold (ports_from Input None ports.now)) × (holds ≡ true → signals.new ≡ signals.old ++ map signal_of (ports_from Input None ports.now))) }
{
    let mut direction = Direction::Input;
    let mut range = &None;
    for port in ports {
        if let Some(head) = &port.head {
            direction = head.direction;
            range = &head.range;
        }
        let Some(width) = width(range) else {
            return Ok(false);
        };
        signals.push(Signal {
            path: port.name.word.copy(alloc)?,
            width,
            kind: signal_kind(direction),
        })?;
    }
    Ok(true)
}

/// The signal of a declaration, if its range holds.
fn variable(alloc: Global, declaration: &Declaration) -> Result<Option<Signal>, AllocError>
    ensures { IfOk result (λ s. MatchOption s (range_holds declaration.now.range ≡ false) (λ s. (range_holds declaration.now.range ≡ true) × (s ≡ signal_of (declared_variable declaration.now)))) }
{
    let Some(width) = width(&declaration.range) else {
        return Ok(None);
    };
    Ok(Some(Signal {
        path: declaration.name.word.copy(alloc)?,
        width,
        kind: SignalKind::Variable,
    }))
}

/// Adds the signals that items declare, if each range holds.
fn add_variables(alloc: Global, items: &[Item], signals: &mut Signals) -> Result<bool, AllocError>
    ensures { IfOk result (λ holds. (holds ≡ ranges_hold (variables items.now)) × (holds ≡ true → signals.new ≡ signals.old ++ map signal_of (variables items.now))) }
{
    for item in items {
        if let Item::Logic(declaration) = item {
            let Some(signal) = variable(alloc, declaration)? else {
                return Ok(false);
            };
            signals.push(signal)?;
        }
    }
    Ok(true)
}

/// The signals of a module, if each range holds.
pub fn signals(alloc: Global, source: &Module) -> Result<Option<Signals>, AllocError>
    ensures { IfOk result (λ r. MatchOption r (ranges_hold (declared source.now) ≡ false) (λ signals. (ranges_hold (declared source.now) ≡ true) × (signals ≡ map signal_of (declared source.now)))) }
{
    let mut signals = Items::new(alloc);
    if !add_ports(alloc, source.ports.as_slice(), &mut signals)? {
        return Ok(None);
    }
    if !add_variables(alloc, source.items.as_slice(), &mut signals)? {
        return Ok(None);
    }
    Ok(Some(signals))
}

/// Whether the signals have at most 2^22 bits together.
pub fn fits_in_bits(signals: &[Signal]) -> bool
    ensures { result ≡ nat_le (sum (map (λ (s : DesignSignal). s.width) signals.now)) (2 ^ 22) }
{
    let mut total = 0u64;
    for signal in signals {
        total += u64::from(signal.width);
        if total > 1 << 22 {
            return false;
        }
    }
    true
}

/// Adds the name of a signal, if it is an input.
fn add_input(alloc: Global, names: &mut Names, signal: &Signal) -> Result<(), AllocError>
    ensures { OnOk result ((ns : List (List ℕ)) → Numbers names.old ns → Numbers names.new (ns ++ if_input signal.now.kind signal.now.path [])) }
{
    match signal.kind {
        SignalKind::InputNet => names.add(alloc, &signal.path),
        SignalKind::OutputVar | SignalKind::Variable => Ok(()),
    }
}

/// The names of the inputs, in order.
pub fn input_table(alloc: Global, signals: &[Signal]) -> Result<Names, AllocError>
    ensures { IfOk result (λ names. Numbers names (input_paths signals.now)) }
{
    let mut names = Names::new(alloc);
    for signal in signals {
        add_input(alloc, &mut names, signal)?;
    }
    Ok(names)
}

/// Whether the bounds of a packed dimension are a decimal up to 65,535 and `0`.
fn range_is_plain(range: &Option<Range>) -> bool
    ensures { result ≡ is_plain_range range.now }
{
    match range {
        None => true,
        Some(range) => {
            let zero = range.right.word.is(b"0");
            decimal_up_to(range.left.word.as_bytes(), 65535).is_some() && zero
        }
    }
}

/// The dimension that a port has, written or taken from the port before it.
fn range_behind<'a>(range: &'a Option<Range>, port: &'a Port) -> &'a Option<Range>
    ensures { result.now ≡ range_after range.now port.now.head }
{
    match &port.head {
        Some(head) => &head.range,
        None => range,
    }
}

/// Whether the ranges of ports are plain.
fn port_ranges_are_plain(ports: &[Port]) -> bool
    ensures { result ≡ ranges_are_plain (ports_from Input None ports.now) }
{
    let mut range = &None;
    for port in ports {
        range = range_behind(range, port);
        if !range_is_plain(range) {
            return false;
        }
    }
    true
}

/// Whether the range of what an item declares is plain.
fn item_range_is_plain(item: &Item) -> bool
    ensures { result ≡ ranges_are_plain (declared_by item.now) }
{
    match item {
        Item::Logic(declaration) => range_is_plain(&declaration.range),
        Item::Assign(_) | Item::Comb(_) | Item::Edge { .. } => true,
    }
}

/// Whether the ranges of what items declare are plain.
fn item_ranges_are_plain(items: &[Item]) -> bool
    ensures { result ≡ list_all (λ i. ranges_are_plain (declared_by i)) items.now }
{
    items.iter().all(item_range_is_plain)
}

/// Whether all ranges of a module are plain.
pub fn module_ranges_are_plain(source: &Module) -> bool
    ensures { result ≡ ranges_are_plain (declared source.now) }
{
    let ports = port_ranges_are_plain(source.ports.as_slice());
    let variables = item_ranges_are_plain(source.items.as_slice());
    ports & variables
}
