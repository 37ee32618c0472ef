//! Targets of assignments (IEEE 1364-2005 clauses 6.1.2 and 9.2).

ghost use Rattle.std.specs.Prelude.{◌≡◌, map};
ghost use Rattle.v_tree.specs.StmtRules.{mark_breaks};
ghost use Rattle.v_scopes.specs.Env.{found};
ghost use Rattle.v_stmt_rules.specs.Targets as means;

use v_expr_rules::{
    Seen, SelsSeen, bits_plus, commas, earlier, in_context, is_net, is_wide, mark, name_bits,
    name_mark, plus, sels_seen,
};
use v_scopes::{Entry, Kind, Scope};
use v_tree::{VItem, VLval};

/// Where a statement stands.
#[derive(Clone, Copy, Drop)]
pub enum Procedure {
    /// In a function.
    InFunction,
    /// Under `always @*`.
    AtStar,
    /// Under an `always` with edges.
    AtEdges,
}

/// What is kept of a target.
#[derive(Clone, Copy, Drop)]
pub struct TargetSeen {
    /// How many tokens it has.
    pub size: u32,
    /// Its width; 129 stands for all that are greater.
    pub width: u32,
    /// The first token that breaks a rule on what it names and selects.
    pub broken: Option<u32>,
    /// The first token that breaks a rule where a procedure writes it.
    pub by_procedure: Option<u32>,
    /// The first token that breaks a rule where an `assign` drives it.
    pub by_assign: Option<u32>,
    /// Whether a part of it is no variable of a function or block.
    pub has_signal: bool,
}

fn is_written_kind(kind: Kind) -> bool
    ensures { result ≡ means.is_written_kind kind }
{
    match kind {
        Kind::Input => false,
        Kind::Net => false,
        Kind::Variable => true,
        Kind::Local => true,
    }
}

// Whether a procedure may write what a name stands for.
fn is_written(entry: Option<Entry>) -> bool
    ensures { result ≡ means.is_written entry }
{
    match entry {
        None => true,
        Some(Entry::Value { kind, left: _ }) => is_written_kind(kind),
        Some(Entry::Memory { left: _ }) => true,
        Some(Entry::Function { left: _, item: _ }) => true,
        Some(Entry::Result { left: _, item: _ }) => true,
        Some(Entry::Part) => true,
    }
}

fn is_local_kind(kind: Kind) -> bool
    ensures { result ≡ means.is_local_kind kind }
{
    match kind {
        Kind::Input => false,
        Kind::Net => false,
        Kind::Variable => false,
        Kind::Local => true,
    }
}

// Whether a name stands for a variable of a function or block.
fn is_local(entry: Option<Entry>) -> bool
    ensures { result ≡ means.is_local entry }
{
    match entry {
        None => false,
        Some(Entry::Value { kind, left: _ }) => is_local_kind(kind),
        Some(Entry::Memory { left: _ }) => false,
        Some(Entry::Function { left: _, item: _ }) => false,
        Some(Entry::Result { left: _, item: _ }) => true,
        Some(Entry::Part) => false,
    }
}

// A name with selects, which begins at a token.
fn name_target(entry: Option<Entry>, sels: SelsSeen, at: u32) -> TargetSeen
    ensures { result ≡ means.name_target entry sels at }
{
    TargetSeen {
        size: plus(1, sels.size),
        width: name_bits(entry, sels),
        broken: earlier(name_mark(entry, sels, at), sels.first),
        by_procedure: mark(!is_written(entry), at),
        by_assign: earlier(mark(!is_net(entry), at), sels.moving),
        has_signal: !is_local(entry),
    }
}

// No targets.
fn no_parts() -> TargetSeen
    ensures { result ≡ means.no_parts }
{
    TargetSeen {
        size: 0,
        width: 0,
        broken: None,
        by_procedure: None,
        by_assign: None,
        has_signal: false,
    }
}

// Targets and one more, with so many tokens before it.
fn part_added(parts: TargetSeen, before: u32, part: TargetSeen) -> TargetSeen
    ensures { result ≡ means.part_added parts before part }
{
    TargetSeen {
        size: plus(before, part.size),
        width: bits_plus(parts.width, part.width),
        broken: earlier(parts.broken, part.broken),
        by_procedure: earlier(parts.by_procedure, part.by_procedure),
        by_assign: earlier(parts.by_assign, part.by_assign),
        has_signal: parts.has_signal || part.has_signal,
    }
}

// A concatenation of targets.
fn concat_target(parts: TargetSeen) -> TargetSeen
    ensures { result ≡ means.concat_target parts }
{
    TargetSeen {
        size: plus(2, parts.size),
        width: parts.width,
        broken: parts.broken,
        by_procedure: parts.by_procedure,
        by_assign: parts.by_assign,
        has_signal: parts.has_signal,
    }
}

// Targets with commas, of which the first one begins at a token.
#[cycle(targets)]
fn parts_seen(scope: &Scope, items: &[VItem], parts: &[VLval], start: u32) -> TargetSeen
    ensures { result ≡ means.parts_from (map means.target_seen parts.now) (found scope.now) items.now start 0 means.no_parts }
{
    let mut seen = no_parts();
    for i in 0..parts.len() {
        let before = commas(i, seen.size);
        let part = target_seen(scope, items, &parts[i], plus(start, before));
        seen = part_added(seen, before, part);
    }
    seen
}

/// What is kept of a target that begins at a token, where names stand for these things in a module of these items.
#[cycle(targets)]
pub fn target_seen(scope: &Scope, items: &[VItem], target: &VLval, at: u32) -> TargetSeen
    ensures { result ≡ means.target_seen target.now (found scope.now) items.now at }
{
    match target {
        VLval::Name { name, sels } => name_target(
            scope.find(name),
            sels_seen(scope, items, sels.as_slice(), plus(at, 1)),
            at,
        ),
        VLval::Concat(parts) => {
            concat_target(parts_seen(scope, items, parts.as_slice(), plus(at, 1)))
        }
    }
}

/// Whether the mark of an assignment breaks a rule.
pub(crate) fn mark_breaks(procedure: Procedure, later: bool, signal: bool) -> bool
    ensures { result ≡ mark_breaks (means.procedure_of procedure) later signal }
{
    match procedure {
        Procedure::InFunction => later,
        Procedure::AtStar => later,
        Procedure::AtEdges => !later && signal,
    }
}

/// The first token of a value that breaks a rule, where it is assigned to a target.
pub(crate) fn assigned(target: TargetSeen, value: Seen) -> Option<u32>
    ensures { result ≡ means.assigned target value }
{
    in_context(value, is_wide(target.width) || is_wide(value.width))
}

/// The first token of a continuous assignment that breaks a rule.
pub fn assign_first(target: TargetSeen, value: Seen) -> Option<u32>
    ensures { result ≡ means.assign_first target value }
{
    earlier(
        target.broken,
        earlier(target.by_assign, assigned(target, value)),
    )
}
