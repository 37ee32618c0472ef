//! The scopes of a text in which no rule on names is broken.

ghost use Rattle.std.specs.Prelude.{◌≡◌, slice_get, IfOk};
ghost use Rattle.package_scope.specs.Answers as answers;
ghost use Rattle.package_scope.specs.Finding.{Kept};
ghost use Rattle.package_scope.specs.Lookup as meaning;
ghost use Rattle.package_scope.specs.Rules as means;
ghost use Rattle.package_scope.specs.Tables.{table_of};

use crate::breaks::{Break, first};
use crate::building::{number, word};
use crate::clashes::clashes_break;
use crate::event_breaks::kept_break;
use crate::found_uses::found_uses;
use crate::loops::loops_of;
use crate::name_table::NameTable;
use crate::named_text::NamedText;
use crate::scoped::Scopes;
use crate::table::Found;
use name_events::{Event, events_of};
use std::alloc::{AllocError, Global};
use sv_source::{Fail, Place, Refusal, Text, Token, at};
use sv_tree::SourceTree;

/// The place of a token.
fn place_of(tokens: &[Token], token: u32) -> Place
    ensures { result ≡ answers.place_in (slice_get tokens.now token) }
{
    match at(tokens, token as usize) {
        Some(token) => token.place,
        None => Place {
            file: 0,
            line: 1,
            col: 1,
        },
    }
}

/// The refusal of a break.
fn refusal(alloc: Global, tokens: &[Token], broken: Break) -> Result<Refusal, AllocError>
    ensures { IfOk result (λ r. r ≡ answers.refusal_of tokens.now broken) }
{
    let word = word(alloc, tokens, broken.at)?;
    Ok(Refusal {
        rule: broken.rule,
        place: place_of(tokens, broken.at),
        word,
    })
}

/// The least break of a rule on names, by what is known of the names.
fn first_known(
    alloc: Global,
    names: &NamedText,
    events: &[Event],
) -> Result<Option<Break>, AllocError>
    requires kept { Kept names.now.tokens.now names.now.names.now names.now.found.now names.now.loops.now }
    ensures { IfOk result (λ b. b ≡ means.least (means.all_breaks names.now.tokens.now names.now.names.now events.now)) }
{
    let _count = number(names.tokens().len())?;
    let uses = names.uses_break();
    let imports = names.imports_break();
    let wildcards = names.wildcards_break();
    let twice = clashes_break(alloc, names.table())?;
    let others = names.events_break(events);
    let kept = kept_break(names.tokens());
    let calls = names.calls_break(alloc)?;
    let rests = names.rests_break(alloc)?;
    let last = first(calls, rests);
    let further = first(twice, first(others, first(kept, last)));
    Ok(first(uses, first(imports, first(wildcards, further))))
}

/// The least break of a rule on names.
fn first_break(
    alloc: Global,
    tokens: &[Token],
    names: &NameTable,
    events: &[Event],
) -> Result<Option<Break>, AllocError>
    ensures { IfOk result (λ b. b ≡ means.least (means.all_breaks tokens.now names.now events.now)) }
{
    let found = found_uses(alloc, tokens, names, names.table().uses.as_slice())?;
    let loops = loops_of(alloc, names.table().loops.as_slice())?;
    let known = NamedText {
        tokens,
        names,
        found: &found,
        loops: &loops,
    };
    first_known(alloc, &known, events)
}

/// The answer for a tree with its names, by the break of a rule on them.
fn answer<'t>(
    alloc: Global,
    tree: &'t SourceTree,
    names: NameTable,
    broken: Option<Break>,
) -> Result<Scopes<'t>, Fail>
    requires named { names ≡ table_of tree.now }
    requires broken { broken ≡ means.names_break tree.now }
    ensures { answers.ScopesGive tree.now result }
{
    match broken {
        None => Ok(Scopes::of_names(tree, names)),
        Some(broken) => {
            discard(names);
            match refusal(alloc, tree.tokens.as_slice(), broken) {
                Ok(refusal) => Err(Fail::Refused(refusal)),
                Err(_) => Err(Fail::Memory),
            }
        }
    }
}

/// Drops a table.
fn discard(_names: NameTable) {}

/// A tree's names, and the break of a rule on them.
fn names_and_break(
    alloc: Global,
    tree: &SourceTree,
) -> Result<(NameTable, Option<Break>), AllocError>
    ensures { IfOk result (λ r. (r.0 ≡ table_of tree.now) × (r.1 ≡ means.names_break tree.now)) }
{
    let events = events_of(alloc, tree)?;
    let tokens = tree.tokens.as_slice();
    let names = NameTable::of_events(alloc, tokens, events.as_slice())?;
    let broken = first_break(alloc, tokens, &names, events.as_slice());
    pairs::both(Ok(names), broken)
}

/// The scopes of a tree, with what its names stand for, if no rule on names is broken that its tokens and declarations show:
/// E401 to E404, E609 and E610. Otherwise the rule that is broken at the first token, the least one there. It borrows the tree.
pub fn scopes<'t>(alloc: Global, tree: &'t SourceTree) -> Result<Scopes<'t>, Fail>
    ensures { answers.ScopesGive tree.now result }
{
    match names_and_break(alloc, tree) {
        Ok((names, broken)) => answer(alloc, tree, names, broken),
        Err(_) => Err(Fail::Memory),
    }
}

/// What a name stands for at a token of a scope (IEEE 1800-2017 clauses 23.9 and 26.3). It takes no memory.
pub fn lookup(scopes: &Scopes, scope: u32, name: &Text, token: u32) -> Found
    ensures { result ≡ meaning.means scopes.now.names scope name.now token }
{
    scopes.table().lookup(scope, name, token)
}
