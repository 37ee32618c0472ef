ghost use Rattle.std.specs.Prelude.{◌≡◌, ◌++◌, ◌∷◌, [], ◌||◌, not, OnOk, IfOk};
ghost use Rattle.ll_engine.specs.Grammar.{named};
ghost use Rattle.ll_engine.specs.Marks.{marked};
ghost use Rattle.ll_engine.specs.Rules.{rule, name_rules, nons, has_symbol, ground_rules, may_skip, front, start_part, start_row, start_rules, lead_row, lead_rules, behind_part, follow_row, follow_rules};

use crate::rules::{Rule, Rules};
use crate::table::{Part, Row};
use sqlite_items::Items;
use std::alloc::{AllocError, Global};

/// What a head may start with: a symbol, or another head.
#[derive(Clone, Copy, Debug)]
pub enum Target {
    Symbol(u16),
    Head(u16),
}

impl Part {
    /// The head that the part names.
    pub fn named(self) -> Option<u16>
        ensures { result ≡ named self }
    {
        match self {
            Part::Term(_) => None,
            Part::Non(head) => Some(head),
            Part::Maybe(head) => Some(head),
            Part::Many(head) => Some(head),
            Part::Chain(head) => Some(head),
        }
    }

    /// Whether the part may be left out, where the marked heads can be empty.
    pub fn may_skip(self, blank: &[bool]) -> bool
        ensures { result ≡ may_skip blank.now self }
    {
        match self {
            Part::Term(_) => false,
            Part::Non(head) => is_marked(blank, head),
            Part::Maybe(_) => true,
            Part::Many(_) => true,
            Part::Chain(_) => true,
        }
    }
}

pub fn is_marked(marks: &[bool], head: u16) -> bool
    ensures { result ≡ marked marks.now head }
{
    match marks.get(head as usize) {
        Some(mark) => *mark,
        None => false,
    }
}

/// The heads that must be read.
fn nons(alloc: Global, parts: &[Part]) -> Result<Items<u16>, AllocError>
    ensures { IfOk result (λ heads. heads ≡ nons parts.now) }
{
    let mut heads = Items::new(alloc);
    for part in parts {
        match part {
            Part::Term(_) => {}
            Part::Non(head) => heads.push(*head)?,
            Part::Maybe(_) => {}
            Part::Many(_) => {}
            Part::Chain(_) => {}
        }
    }
    Ok(heads)
}

fn has_symbol(parts: &[Part]) -> bool
    ensures { result ≡ has_symbol parts.now }
{
    for part in parts {
        match part {
            Part::Term(_) => return true,
            Part::Non(_) => {}
            Part::Maybe(_) => {}
            Part::Many(_) => {}
            Part::Chain(_) => {}
        }
    }
    false
}

/// The rules by which heads have a text, or without symbols an empty one.
pub fn ground_rules(alloc: Global, symbols: bool, rows: &[Row]) -> Result<Rules, AllocError>
    ensures { IfOk result (λ rules. rules ≡ ground_rules symbols rows.now) }
{
    let mut rules = Items::new(alloc);
    for row in rows {
        if symbols || !has_symbol(row.parts.as_slice()) {
            let from = nons(alloc, row.parts.as_slice())?;
            rules.push(Rule { to: row.head, from })?;
        }
    }
    Ok(rules)
}

/// The first part that is not left out.
pub fn front(blank: &[bool], parts: &[Part]) -> Option<Part>
    ensures { result ≡ front blank.now parts.now }
{
    for part in parts {
        if !part.may_skip(blank) {
            return Some(*part);
        }
    }
    None
}

fn push_from(alloc: Global, rules: &mut Rules, to: u16, from: u16) -> Result<(), AllocError>
    ensures { OnOk result (rules.new ≡ rules.old ++ rule to (from ∷ []) ∷ []) }
{
    let mut heads = Items::new(alloc);
    heads.push(from)?;
    rules.push(Rule { to, from: heads })
}

fn push_bare(alloc: Global, rules: &mut Rules, to: u16) -> Result<(), AllocError>
    ensures { OnOk result (rules.new ≡ rules.old ++ rule to [] ∷ []) }
{
    rules.push(Rule {
        to,
        from: Items::new(alloc),
    })
}

fn push_name(
    alloc: Global,
    rules: &mut Rules,
    target: Target,
    to: u16,
    from: u16,
) -> Result<(), AllocError>
    ensures { OnOk result (rules.new ≡ rules.old ++ name_rules target to from) }
{
    push_from(alloc, rules, to, from)?;
    match target {
        Target::Symbol(_) => {}
        Target::Head(head) => {
            if from == head {
                push_bare(alloc, rules, to)?;
            }
        }
    }
    Ok(())
}

fn push_start_part(
    alloc: Global,
    rules: &mut Rules,
    target: Target,
    to: u16,
    part: Part,
) -> Result<(), AllocError>
    ensures { OnOk result (rules.new ≡ rules.old ++ start_part target to part) }
{
    match part {
        Part::Term(symbol) => match target {
            Target::Symbol(wanted) => {
                if symbol == wanted {
                    push_bare(alloc, rules, to)?;
                }
            }
            Target::Head(_) => {}
        },
        Part::Non(head) => push_name(alloc, rules, target, to, head)?,
        Part::Maybe(head) => push_name(alloc, rules, target, to, head)?,
        Part::Many(head) => push_name(alloc, rules, target, to, head)?,
        Part::Chain(head) => push_name(alloc, rules, target, to, head)?,
    }
    Ok(())
}

fn push_start_row(
    alloc: Global,
    rules: &mut Rules,
    blank: &[bool],
    target: Target,
    to: u16,
    parts: &[Part],
) -> Result<(), AllocError>
    ensures { OnOk result (rules.new ≡ rules.old ++ start_row blank.now target to parts.now) }
{
    for part in parts {
        push_start_part(alloc, rules, target, to, *part)?;
        if !part.may_skip(blank) {
            return Ok(());
        }
    }
    Ok(())
}

/// The rules by which heads start with the target.
pub fn start_rules(
    alloc: Global,
    blank: &[bool],
    target: Target,
    rows: &[Row],
) -> Result<Rules, AllocError>
    ensures { IfOk result (λ rules. rules ≡ start_rules blank.now target rows.now) }
{
    let mut rules = Items::new(alloc);
    for row in rows {
        push_start_row(
            alloc,
            &mut rules,
            blank,
            target,
            row.head,
            row.parts.as_slice(),
        )?;
    }
    Ok(rules)
}

fn push_lead_row(
    alloc: Global,
    rules: &mut Rules,
    symbol: u16,
    to: u16,
    front: Option<Part>,
) -> Result<(), AllocError>
    ensures { OnOk result (rules.new ≡ rules.old ++ lead_row symbol to front) }
{
    match front {
        None => {}
        Some(Part::Term(first)) => {
            if first == symbol {
                push_bare(alloc, rules, to)?;
            }
        }
        Some(Part::Non(head)) => push_from(alloc, rules, to, head)?,
        Some(Part::Maybe(_)) => {}
        Some(Part::Many(_)) => {}
        Some(Part::Chain(_)) => {}
    }
    Ok(())
}

/// The rules by which heads lead with the symbol.
pub fn lead_rules(
    alloc: Global,
    blank: &[bool],
    symbol: u16,
    rows: &[Row],
) -> Result<Rules, AllocError>
    ensures { IfOk result (λ rules. rules ≡ lead_rules blank.now symbol rows.now) }
{
    let mut rules = Items::new(alloc);
    for row in rows {
        push_lead_row(
            alloc,
            &mut rules,
            symbol,
            row.head,
            front(blank, row.parts.as_slice()),
        )?;
    }
    Ok(rules)
}

fn push_behind(
    alloc: Global,
    rules: &mut Rules,
    leads: &[bool],
    symbol: u16,
    to: u16,
    head: u16,
    front: Option<Part>,
) -> Result<(), AllocError>
    ensures { OnOk result (rules.new ≡ rules.old ++ behind_part leads.now symbol to head front) }
{
    match front {
        None => push_from(alloc, rules, to, head)?,
        Some(Part::Term(first)) => {
            if first == symbol {
                push_bare(alloc, rules, to)?;
            }
        }
        Some(Part::Non(first)) => {
            if is_marked(leads, first) {
                push_bare(alloc, rules, to)?;
            }
        }
        Some(Part::Maybe(_)) => {}
        Some(Part::Many(_)) => {}
        Some(Part::Chain(_)) => {}
    }
    Ok(())
}

fn push_follow_row(
    alloc: Global,
    rules: &mut Rules,
    blank: &[bool],
    leads: &[bool],
    symbol: u16,
    head: u16,
    parts: &[Part],
) -> Result<(), AllocError>
    ensures { OnOk result (rules.new ≡ rules.old ++ follow_row blank.now leads.now symbol head parts.now) }
{
    for (n, part) in parts.iter().enumerate() {
        match part.named() {
            None => {}
            Some(to) => push_behind(
                alloc,
                rules,
                leads,
                symbol,
                to,
                head,
                front(blank, &parts[n + 1..]),
            )?,
        }
    }
    Ok(())
}

/// The rules by which the symbol follows heads.
pub fn follow_rules(
    alloc: Global,
    blank: &[bool],
    leads: &[bool],
    symbol: u16,
    rows: &[Row],
) -> Result<Rules, AllocError>
    ensures { IfOk result (λ rules. rules ≡ follow_rules blank.now leads.now symbol rows.now) }
{
    let mut rules = Items::new(alloc);
    for row in rows {
        push_follow_row(
            alloc,
            &mut rules,
            blank,
            leads,
            symbol,
            row.head,
            row.parts.as_slice(),
        )?;
    }
    Ok(rules)
}
