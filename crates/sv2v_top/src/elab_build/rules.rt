//! The rules on items: names, literals, and what processes write and read.

ghost use Rattle.std.specs.Prelude.{◌≡◌, ◌^◌, ◌-◌, ◌<◌, ◌≤◌, ◌++◌, ◌&&◌, ◌||◌, not, List, ℕ, map, length, nat_le, [], ◌∷◌, IfOk, OnOk};
ghost use Rattle.std.specs.List.{list_all};
ghost use Rattle.sv2v_top.specs.declared.uses.Use.{Use as SourceUse};
ghost use Rattle.sv2v_top.specs.declared.uses.Literal.{Literal as SourceLiteral};
ghost use Rattle.sv2v_top.specs.source.Names.{declared, signal_names};
ghost use Rattle.sv2v_top.specs.source.Statements.{word_of, parts, sequence, item_parts, targets_in, reads_in, targets, reads, in_both};
ghost use Rattle.sv2v_top.specs.source.Literals.{is_plain_literal};
ghost use Rattle.sv_source.specs.declared.token.Spot.{Spot as SourceSpot};
ghost use Rattle.sv2v_top.specs.source.Answers.{BreaksAfter};
ghost use Rattle.sv2v_top.specs.source.Rules.{sizes_hold, are_plain, refused_at, size_holds, item_holds, writes_break, processes_break, always_written, comb_targets, has_procedure, is_comb_item, is_bit_signal, clock_is_bit, item_is_built_among};
ghost use Rattle.sv2v_top.specs.source.Lookup.{Numbers, holds};

use crate::literals::{decimal_up_to, is_plain};
use crate::name_table::Names;
use crate::uses::{Found, Literal, Role, Use, find_in, has_at_most};
use built_forms::{Item, Module, Stmt};
use std::alloc::{AllocError, Global};
use sv_core::{Signal, SignalKind};
use sv_source::{Items, Refusal, Spot, Text};

/// Names in order.
type Texts = Items<Text>;

/// Whether the size of a literal is from 1 to 128.
fn size_fits(literal: &Literal) -> bool
    ensures { result ≡ size_holds literal.now.size.word }
{
    matches!(decimal_up_to(literal.size.word.as_bytes(), 128), Some(1..))
}

/// Whether a literal has the plain form.
fn is_plain_one(literal: &Literal) -> bool
    ensures { result ≡ is_plain_literal literal.now.size.word literal.now.digits.word }
{
    is_plain(literal.size.word.as_bytes(), literal.digits.word.as_bytes())
}

/// Whether no name that is assigned to is in the table.
fn targets_are_outside(names: &Names, uses: &[Use]) -> bool
    ensures { result ≡ list_all (λ (s : SourceSpot). not (holds names.now s.word)) (targets_in uses.now) }
{
    for item in uses {
        if let Role::Target = item.role {
            if names.number(&item.name.word).is_some() {
                return false;
            }
        }
    }
    true
}

/// Whether no name that is read is in the table.
fn reads_are_outside(names: &Names, uses: &[Use]) -> bool
    ensures { result ≡ list_all (λ (s : SourceSpot). not (holds names.now s.word)) (reads_in uses.now) }
{
    for item in uses {
        if let Role::Read = item.role {
            if names.number(&item.name.word).is_some() {
                return false;
            }
        }
    }
    true
}

/// Whether an item assigns by procedure.
fn is_procedural(item: &Item) -> bool
    ensures { result ≡ has_procedure item.now }
{
    matches!(item, Item::Comb(_) | Item::Edge { .. })
}

/// Whether the names that are used are in the table.
fn uses_are_in(names: &Names, uses: &[Use]) -> bool
    ensures { result ≡ list_all (λ (u : SourceUse). holds names.now u.name.word) uses.now }
{
    uses.iter()
        .all(|item| names.number(&item.name.word).is_some())
}

/// Whether literals have sizes from 1 to 128.
fn sizes_fit(literals: &[Literal]) -> bool
    ensures { result ≡ sizes_hold literals.now }
{
    literals.iter().all(size_fits)
}

/// Whether the procedure of an item, if it has one, assigns to no input.
fn procedure_fits(item: &Item, inputs: &Names, uses: &[Use]) -> bool
    ensures { result ≡ (not (has_procedure item.now) || list_all (λ (s : SourceSpot). not (holds inputs.now s.word)) (targets_in uses.now)) }
{
    !is_procedural(item) || targets_are_outside(inputs, uses)
}

/// Whether an item holds: its names are those of signals, its procedures assign to no input, and its literals have a size.
fn item_fits(found: &Found, item: &Item, names: &Names, inputs: &Names) -> bool
    requires uses { found.now.names ≡ (item_parts item.now).names }
    requires literals { found.now.literals ≡ (item_parts item.now).literals }
    ensures { (ns is : List (List ℕ)) → Numbers names.now ns → Numbers inputs.now is → result ≡ item_holds ns is item.now }
{
    let known = uses_are_in(names, found.names.as_slice());
    let outside = procedure_fits(item, inputs, found.names.as_slice());
    let sizes = sizes_fit(found.literals.as_slice());
    known & outside & sizes
}

/// Whether all items hold.
pub fn items_fit(
    alloc: Global,
    items: &[Item],
    names: &Names,
    inputs: &Names,
) -> Result<bool, AllocError>
    ensures { IfOk result (λ b. (ns is : List (List ℕ)) → Numbers names.now ns → Numbers inputs.now is → b ≡ list_all (item_holds ns is) items.now) }
{
    for item in items {
        let found = find_in(alloc, item)?;
        if !item_fits(&found, item, names, inputs) {
            return Ok(false);
        }
    }
    Ok(true)
}

/// Adds those of the first names that are in the second table.
fn add_both(alloc: Global, first: &[Text], second: &Names, to: &mut Texts) -> Result<(), AllocError>
    ensures { OnOk result ((ns : List (List ℕ)) → Numbers second.now ns → to.new ≡ to.old ++ in_both first.now ns) }
{
    for name in first {
        if second.number(name).is_some() {
            to.push(name.copy(alloc)?)?;
        }
    }
    Ok(())
}

/// The table of names.
fn table(alloc: Global, names: &[Text]) -> Result<Names, AllocError>
    ensures { IfOk result (λ t. Numbers t names.now) }
{
    let mut table = Names::new(alloc);
    for name in names {
        table.add(alloc, name)?;
    }
    Ok(table)
}

/// Adds the names that statements write on every path.
#[cycle(always)]
#[tactic(auto, using(crate::proofs::Levels::levels))]
fn add_always_all(alloc: Global, statements: &[Stmt], to: &mut Texts) -> Result<(), AllocError>
    ensures { OnOk result (to.new ≡ to.old ++ (sequence (map parts statements.now)).always) }
{
    for stmt in statements {
        add_always(alloc, stmt, to)?;
    }
    Ok(())
}

/// Adds the names that a statement writes on every path, where each `if` may go either way.
#[cycle(always)]
#[tactic(auto, using(crate::proofs::Levels::levels))]
fn add_always(alloc: Global, stmt: &Stmt, to: &mut Texts) -> Result<(), AllocError>
    ensures { OnOk result (to.new ≡ to.old ++ (parts stmt.now).always) }
{
    match stmt {
        Stmt::Block(statements) => add_always_all(alloc, statements.as_slice(), to),
        Stmt::If { body, other, .. } => match other {
            Some(other) => {
                let mut second = Items::new(alloc);
                add_always(alloc, other.get(), &mut second)?;
                let second = table(alloc, second.as_slice())?;
                let mut first = Items::new(alloc);
                add_always(alloc, body.get(), &mut first)?;
                add_both(alloc, first.as_slice(), &second, to)
            }
            None => Ok(()),
        },
        Stmt::Assign(assign) => to.push(assign.target.word.copy(alloc)?),
    }
}

/// Adds the name of a use, if it is assigned to.
fn add_target(alloc: Global, names: &mut Names, item: &Use) -> Result<(), AllocError>
    ensures { OnOk result ((ns : List (List ℕ)) → Numbers names.old ns → Numbers names.new (ns ++ map word_of (targets_in (item.now ∷ [])))) }
{
    match item.role {
        Role::Target => names.add(alloc, &item.name.word),
        Role::Read | Role::Clock => Ok(()),
    }
}

/// Adds the names that are assigned to.
fn add_targets(alloc: Global, names: &mut Names, uses: &[Use]) -> Result<(), AllocError>
    ensures { OnOk result ((ns : List (List ℕ)) → Numbers names.old ns → Numbers names.new (ns ++ map word_of (targets_in uses.now))) }
{
    for item in uses {
        add_target(alloc, names, item)?;
    }
    Ok(())
}

/// The names that are assigned to.
fn target_table(alloc: Global, uses: &[Use]) -> Result<Names, AllocError>
    ensures { IfOk result (λ t. Numbers t (map word_of (targets_in uses.now))) }
{
    let mut names = Names::new(alloc);
    add_targets(alloc, &mut names, uses)?;
    Ok(names)
}

/// The names that a statement writes on every path.
fn statement_table(alloc: Global, body: &Stmt) -> Result<Names, AllocError>
    ensures { IfOk result (λ t. Numbers t (parts body.now).always) }
{
    let mut names = Items::new(alloc);
    add_always(alloc, body, &mut names)?;
    table(alloc, names.as_slice())
}

/// The names that an item must write: on every path of a combinational process those that it writes at all.
fn always_table(alloc: Global, item: &Item, uses: &[Use]) -> Result<Names, AllocError>
    requires { uses.now ≡ (item_parts item.now).names }
    ensures { IfOk result (λ t. Numbers t (always_written item.now)) }
{
    match item {
        Item::Comb(body) => statement_table(alloc, body),
        Item::Assign(_) => target_table(alloc, uses),
        Item::Logic(_) => target_table(alloc, uses),
        Item::Edge { .. } => target_table(alloc, uses),
    }
}

/// The refusal of a write by a rule.
fn refused(alloc: Global, rule: u16, name: &Spot) -> Result<Refusal, AllocError>
    ensures { IfOk result (λ r. r ≡ refused_at rule name.now) }
{
    let word = name.word.copy(alloc)?;
    let place = name.place;
    Ok(Refusal { rule, place, word })
}

/// The first break of the writes of a process: E601 of a signal that an earlier one writes, E603 of one that isn't written
/// on every path.
fn first_write_break(
    alloc: Global,
    written: &Names,
    always: &Names,
    uses: &[Use],
) -> Result<Option<Refusal>, AllocError>
    ensures { IfOk result (λ r. r ≡ writes_break (λ w. holds written.now w) (λ w. holds always.now w) (targets_in uses.now)) }
{
    for item in uses {
        if let Role::Target = item.role {
            if written.number(&item.name.word).is_some() {
                return Ok(Some(refused(alloc, 601, &item.name)?));
            }
            if always.number(&item.name.word).is_none() {
                return Ok(Some(refused(alloc, 603, &item.name)?));
            }
        }
    }
    Ok(None)
}

/// The first break of an item, by the names that earlier ones write. Adds those that it writes.
fn item_break(
    alloc: Global,
    written: &mut Names,
    item: &Item,
) -> Result<Option<Refusal>, AllocError>
    ensures { IfOk result (λ r. (ws : List (List ℕ)) → Numbers written.old ws → BreaksAfter ws item.now r written.new) }
{
    let found = find_in(alloc, item)?;
    let always = always_table(alloc, item, found.names.as_slice())?;
    let first = first_write_break(alloc, written, &always, found.names.as_slice())?;
    add_targets(alloc, written, found.names.as_slice())?;
    Ok(first)
}

/// The first break of the processes among items.
pub fn process_break(alloc: Global, items: &[Item]) -> Result<Option<Refusal>, AllocError>
    ensures { IfOk result (λ r. r ≡ processes_break [] items.now) }
{
    let mut written = Names::new(alloc);
    for item in items {
        if let Some(refusal) = item_break(alloc, &mut written, item)? {
            return Ok(Some(refusal));
        }
    }
    Ok(None)
}

/// Whether an item is a combinational process.
fn is_combinational(item: &Item) -> bool
    ensures { result ≡ is_comb_item item.now }
{
    matches!(item, Item::Assign(_) | Item::Comb(_))
}

/// The names that combinational processes write.
pub fn comb_table(alloc: Global, items: &[Item]) -> Result<Names, AllocError>
    ensures { IfOk result (λ t. Numbers t (comb_targets items.now)) }
{
    let mut names = Names::new(alloc);
    for item in items {
        if is_combinational(item) {
            let found = find_in(alloc, item)?;
            add_targets(alloc, &mut names, found.names.as_slice())?;
        }
    }
    Ok(names)
}

/// Whether a signal is an input of one bit.
fn is_bit_input_signal(signal: &Signal) -> bool
    ensures { result ≡ is_bit_signal signal.now }
{
    matches!(signal.kind, SignalKind::InputNet) && signal.width == 1
}

/// Whether the clock of an item, if it has one, is an input of one bit.
fn clock_fits(item: &Item, names: &Names, signals: &[Signal]) -> bool
    requires { names.now.next < 2 ^ 32 }
    ensures { (ns : List (List ℕ)) → Numbers names.now ns → result ≡ clock_is_bit signals.now ns item.now }
{
    match item {
        Item::Edge { clock, .. } => match signals.get(names.position(&clock.word) as usize) {
            Some(signal) => is_bit_input_signal(signal),
            None => false,
        },
        Item::Assign(_) | Item::Logic(_) | Item::Comb(_) => true,
    }
}

/// The tables by which items are looked at: all signals, the inputs, and what combinational processes write.
#[derive(Clone, Copy)]
pub struct Tables<'a> {
    /// The names of the signals, by number.
    pub names: &'a Names,
    /// The names of the inputs.
    pub inputs: &'a Names,
    /// The names that combinational processes write.
    pub written: &'a Names,
    /// The signals.
    pub signals: &'a [Signal],
}

/// Whether literals have the plain form.
fn literals_are_plain(literals: &[Literal]) -> bool
    ensures { result ≡ are_plain literals.now }
{
    literals.iter().all(is_plain_one)
}

/// Whether an item, if it is a combinational process, reads no name of the table.
fn reads_fit(item: &Item, written: &Names, uses: &[Use]) -> bool
    ensures { result ≡ (not (is_comb_item item.now) || list_all (λ (s : SourceSpot). not (holds written.now s.word)) (reads_in uses.now)) }
{
    !is_combinational(item) || reads_are_outside(written, uses)
}

/// Whether an item has built forms and breaks no rule that isn't built.
fn item_is_built_by(found: &Found, item: &Item, tables: &Tables<'_>) -> bool
    requires uses { found.now.names ≡ (item_parts item.now).names }
    requires literals { found.now.literals ≡ (item_parts item.now).literals }
    requires few { tables.now.names.now.next < 2 ^ 32 }
    ensures { (ns is ws : List (List ℕ)) → Numbers tables.now.names.now ns → Numbers tables.now.inputs.now is → Numbers tables.now.written.now ws → result ≡ item_is_built_among tables.now.signals.now ns is ws item.now }
{
    let uses = found.names.as_slice();
    let plain = literals_are_plain(found.literals.as_slice());
    let apart = reads_fit(item, tables.written, uses);
    let outside = targets_are_outside(tables.inputs, uses);
    let clock = clock_fits(item, tables.names, tables.signals);
    let few = has_at_most(item, 1 << 20);
    plain & apart & outside & clock & few
}

/// Whether all items have built forms and break no rule that isn't built.
pub fn items_are_built(
    alloc: Global,
    items: &[Item],
    tables: &Tables<'_>,
) -> Result<bool, AllocError>
    requires few { tables.now.names.now.next < 2 ^ 32 }
    ensures { IfOk result (λ b. (ns is ws : List (List ℕ)) → Numbers tables.now.names.now ns → Numbers tables.now.inputs.now is → Numbers tables.now.written.now ws → b ≡ list_all (item_is_built_among tables.now.signals.now ns is ws) items.now) }
{
    for item in items {
        let found = find_in(alloc, item)?;
        if !item_is_built_by(&found, item, tables) {
            return Ok(false);
        }
    }
    Ok(true)
}
