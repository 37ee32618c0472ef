//! Keys of items in a pattern of a type.

ghost use Rattle.std.specs.Prelude.{◌≡◌, ◌<◌, ◌++◌, map, true, IfOk, OnOk};
ghost use Rattle.expr_type.specs.Answers.{source};
ghost use Rattle.expr_type.specs.Names.{word};
ghost use Rattle.expr_type.specs.Patterns.{times_over};
ghost use Rattle.pattern_types.specs.Keys as asked;
ghost use Rattle.pattern_types.specs.Meaning.{item_keys, keyed_keys};
ghost use Rattle.pattern_types.specs.Reasons.{reason_of};

use crate::items::is_default;
use crate::looks::{Look, followed_by};
use crate::operand::{Item, ItemKey, NameKey};
use expr_type::Source;
use pattern_fit::{Key, Keys};
use std::alloc::{AllocError, Global};
use sv_source::Text;

fn look_of_name(name: &NameKey) -> Look
    ensures { reason_of result ≡ asked.reason_of_name name.now }
{
    match name {
        NameKey::Number(_) => Look::Fine,
        NameKey::Nothing => Look::Fine,
        NameKey::Breaks { at, rule } => Look::Breaks {
            at: *at,
            rule: *rule,
        },
        NameKey::Quiet => Look::Quiet,
    }
}

fn look_of_key(members: bool, key: &ItemKey) -> Look
    ensures { reason_of result ≡ asked.reason_of_key members key.now }
{
    match key {
        ItemKey::InPlace => Look::Fine,
        ItemKey::ByDefault => Look::Fine,
        ItemKey::Named { otherwise, .. } => {
            if members {
                Look::Fine
            } else {
                look_of_name(otherwise)
            }
        }
        ItemKey::Numbered(_) => Look::Fine,
    }
}

/// The first break of the keys in a pattern of a type that has members or not.
#[tactic(auto, using(pattern_laws::proofs::Reasons::following))]
pub fn look_at_keys(members: bool, items: &[Item]) -> Look
    ensures { reason_of result ≡ asked.reason_of_keys members (keyed_keys (item_keys items.now)) }
{
    let mut seen = Look::Fine;
    for item in items {
        if !is_default(&item.key) {
            seen = followed_by(seen, look_of_key(members, &item.key));
        }
    }
    seen
}

fn number_of_name(name: &NameKey) -> Option<i128>
    ensures { result ≡ asked.number_of_name name.now }
{
    match name {
        NameKey::Number(n) => *n,
        NameKey::Nothing => None,
        NameKey::Breaks { .. } => None,
        NameKey::Quiet => None,
    }
}

// Whether a key without breaks stands for something.
fn stands(members: bool, key: &ItemKey) -> bool
    ensures { result ≡ asked.stands members key.now }
{
    match key {
        ItemKey::InPlace => true,
        ItemKey::ByDefault => false,
        ItemKey::Named { otherwise, .. } => members || number_of_name(otherwise).is_some(),
        ItemKey::Numbered(n) => n.is_some(),
    }
}

/// Whether each key without breaks stands for something.
pub fn all_stand(members: bool, items: &[Item]) -> bool
    ensures { result ≡ asked.all_stand members (keyed_keys (item_keys items.now)) }
{
    for item in items {
        if !is_default(&item.key) && !stands(members, &item.key) {
            return false;
        }
    }
    true
}

/// Whether a number lies between the bounds that an array may have, which are of 64 bits.
pub fn is_near(n: i128) -> bool
    ensures { result ≡ asked.is_near n }
{
    i128::from(i64::MIN) <= n && n <= i128::from(i64::MAX)
}

fn is_near_if(n: Option<i128>) -> bool
    ensures { result ≡ asked.is_near_if n }
{
    match n {
        Some(i) => is_near(i),
        None => true,
    }
}

// Whether the index that a key is may lie between the bounds of an array.
fn is_near_key(members: bool, key: &ItemKey) -> bool
    ensures { result ≡ asked.is_near_key members key.now }
{
    match key {
        ItemKey::InPlace => true,
        ItemKey::ByDefault => true,
        ItemKey::Named { otherwise, .. } => members || is_near_if(number_of_name(otherwise)),
        ItemKey::Numbered(n) => is_near_if(*n),
    }
}

/// Whether each index that is a key may lie between the bounds of an array.
pub fn all_near(members: bool, items: &[Item]) -> bool
    ensures { result ≡ asked.all_near members (keyed_keys (item_keys items.now)) }
{
    for item in items {
        if !is_default(&item.key) && !is_near_key(members, &item.key) {
            return false;
        }
    }
    true
}

// The word of a token.
fn word_at(alloc: Global, text: Source<'_>, at: u32) -> Result<Text, AllocError>
    ensures { IfOk result (λ w. w ≡ word (source text.entry) at) }
{
    match sv_source::at(text.tokens, at as usize) {
        Some(found) => found.text.copy(alloc),
        None => Ok(Text::new(alloc)),
    }
}

fn index_key(n: Option<i128>) -> Key
    requires { asked.is_near_if n ≡ true }
    ensures { result ≡ asked.index_key n }
{
    match n {
        Some(i) => Key::Index(i as i64),
        None => Key::Place,
    }
}

// A key that stands for something.
fn plain_key(
    alloc: Global,
    text: Source<'_>,
    members: bool,
    key: &ItemKey,
) -> Result<Key, AllocError>
    requires { asked.is_near_key members key.now ≡ true }
    ensures { IfOk result (λ k. k ≡ asked.plain_key (source text.entry) members key.now) }
{
    match key {
        ItemKey::InPlace => Ok(Key::Place),
        ItemKey::ByDefault => Ok(Key::Place),
        ItemKey::Named { of, otherwise } => {
            if members {
                Ok(Key::Member(word_at(alloc, text, of.name)?))
            } else {
                Ok(index_key(number_of_name(otherwise)))
            }
        }
        ItemKey::Numbered(n) => Ok(index_key(*n)),
    }
}

// Adds all keys, which stand for something.
fn add_keys(
    alloc: Global,
    text: Source<'_>,
    members: bool,
    items: &[Item],
    to: &mut Keys,
) -> Result<(), AllocError>
    requires { asked.all_near members (keyed_keys (item_keys items.now)) ≡ true }
    ensures { OnOk result (to.new ≡ to.old ++ map (asked.plain_key (source text.entry) members) (keyed_keys (item_keys items.now))) }
{
    for item in items {
        if !is_default(&item.key) {
            to.push(plain_key(alloc, text, members, &item.key)?)?;
        }
    }
    Ok(())
}

/// All keys, which stand for something, so many times over.
#[tactic(auto, using(crate::proofs::Keying::times))]
pub fn repeated_keys(
    alloc: Global,
    text: Source<'_>,
    members: bool,
    items: &[Item],
    times: u32,
) -> Result<Keys, AllocError>
    requires { 0 < times → asked.all_near members (keyed_keys (item_keys items.now)) ≡ true }
    ensures { IfOk result (λ ks. ks ≡ times_over times (map (asked.plain_key (source text.entry) members) (keyed_keys (item_keys items.now)))) }
{
    let mut keys = Keys::new(alloc);
    for _i in 0..times {
        add_keys(alloc, text, members, items, &mut keys)?;
    }
    Ok(keys)
}
