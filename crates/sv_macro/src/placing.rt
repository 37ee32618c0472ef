// The body of a macro in the place of its use.
ghost use Rattle.std.specs.Prelude.{◌≡◌, ◌≤◌, ◌<◌, ◌+◌, ◌-◌, ◌^◌, ◌++◌, ◌∷◌, [], map, length, nat_lt, IsTrue, ◌↔◌, IfOk, OnOk, MatchOption, slice_set};
ghost use Rattle.std.specs.Option.{option_map};
ghost use Rattle.sv_macro.specs.Tokens.{moved};
ghost use Rattle.sv_macro.specs.Macros as spec;

use crate::coming::{Coming, Placing};
use crate::macros::Part;
use crate::tokens::moved;
use std::alloc::{AllocError, Global};
use sv_lexer::lex;
use sv_source::{Items, Place, Text, Token, Tokens};

/// Items that are placed.
pub type Placed = Items<Coming>;

// How many tokens are placed for a part.
fn part_count(arguments: &[Tokens], part: &Part) -> usize
    ensures { result ≡ spec.part_count arguments.now part.now }
{
    match part {
        Part::Plain(_) => 1,
        Part::Formal(number) => match arguments.get(*number) {
            Some(argument) => argument.len(),
            None => 0,
        },
        Part::Join => 0,
    }
}

/// How many tokens are placed for a body, where these are at most `limit`.
pub fn placed_count(arguments: &[Tokens], parts: &[Part], limit: u64) -> Option<u64>
    requires { limit < 2 ^ 32 }
    ensures { MatchOption result (limit < spec.placed_count arguments.now parts.now) (λ count. (count ≡ spec.placed_count arguments.now parts.now) × (count ≤ limit)) }
{
    let mut count = 0;
    for part in parts {
        let more = part_count(arguments, part) as u64;
        if more > limit - count {
            return None;
        }
        count += more;
    }
    Some(count)
}

// An argument's tokens at the place of the use.
fn kept(alloc: Global, at: Place, tokens: &[Token]) -> Result<Placed, AllocError>
    ensures { IfOk result (λ items. items ≡ map (λ t. Coming.Kept (moved at t)) tokens.now) }
{
    let mut items = Placed::new(alloc);
    for token in tokens {
        items.push(Coming::Kept(moved(alloc, at, token)?))?;
    }
    Ok(items)
}

// What stands in the place of a part.
fn replaced(
    alloc: Global,
    at: Place,
    arguments: &[Tokens],
    part: &Part,
) -> Result<Placed, AllocError>
    ensures { IfOk result (λ items. items ≡ spec.replaced at arguments.now part.now) }
{
    match part {
        Part::Plain(token) => {
            let mut items = Placed::new(alloc);
            items.push(Coming::Raw(moved(alloc, at, token)?))?;
            Ok(items)
        }
        Part::Formal(number) => match arguments.get(*number) {
            Some(argument) => kept(alloc, at, argument.as_slice()),
            None => Ok(Placed::new(alloc)),
        },
        Part::Join => Ok(Placed::new(alloc)),
    }
}

fn text_of(item: &Coming) -> &[u8]
    ensures { result.now ≡ spec.text_of item.now }
{
    match item {
        Coming::Raw(token) => token.text.as_bytes(),
        Coming::Kept(token) => token.text.as_bytes(),
        Coming::FileEnd => &[],
        Coming::UseEnd(_) => &[],
    }
}

// The one token of some tokens, to be looked at for uses again.
fn only_token(at: Place, tokens: Tokens) -> Option<Coming>
    ensures { result ≡ spec.only_token at tokens }
{
    let mut tokens = tokens;
    let last = tokens.pop()?;
    if !tokens.is_empty() {
        return None;
    }
    Some(Coming::Raw(Token {
        kind: last.kind,
        text: last.text,
        place: at,
    }))
}

// The most bytes of a pasted text. Pastes can double a text again and again, so a longer one is want of memory.
const PASTED_LIMIT: usize = 1 << 26;

// The one token of a text, if it is one.
fn pasted(alloc: Global, at: Place, text: &[u8]) -> Result<Option<Coming>, AllocError>
    ensures { IfOk result (λ item. item ≡ spec.pasted at text.now) }
{
    if text.len() > PASTED_LIMIT {
        return Err(AllocError);
    }
    Ok(only_token(at, lex(alloc, 0, text)?))
}

// The token of two tokens' texts.
fn pasted_pair(
    alloc: Global,
    at: Place,
    last: &Coming,
    head: &Coming,
) -> Result<Option<Coming>, AllocError>
    ensures { IfOk result (λ item. item ≡ spec.pasted at (spec.text_of last.now ++ spec.text_of head.now)) }
{
    let mut text = Text::from_bytes(alloc, text_of(last))?;
    text.push_bytes(text_of(head))?;
    pasted(alloc, at, text.as_bytes())
}

// The front, and then the second with this first item.
fn behind_front(
    front: Placed,
    item: Option<Coming>,
    second: Placed,
) -> Result<Option<Placed>, AllocError>
    requires { 0 < length second }
    ensures { IfOk result (λ items. items ≡ option_map (λ t. front ++ slice_set second 0 t) item) }
{
    let Some(item) = item else {
        return Ok(None);
    };
    let mut second = second;
    second.set(0, item);
    let mut front = front;
    front.append(second)?;
    Ok(Some(front))
}

// The last token of the first is joined with the first of the second.
#[tactic(auto, using(crate::proofs::Placed::joined_of))]
fn joined(
    alloc: Global,
    at: Place,
    first: Placed,
    second: Placed,
) -> Result<Option<Placed>, AllocError>
    ensures { IfOk result (λ items. items ≡ spec.joined at first second) }
{
    let Some(head) = second.get(0) else {
        return Ok(Some(first));
    };
    let mut first = first;
    let Some(last) = first.pop() else {
        return Ok(Some(second));
    };
    let item = pasted_pair(alloc, at, &last, head)?;
    behind_front(first, item, second)
}

// The body with one more part.
fn with_part(
    alloc: Global,
    at: Place,
    arguments: &[Tokens],
    placing: Placing,
    part: &Part,
) -> Result<Option<Placing>, AllocError>
    ensures { IfOk result (λ next. next ≡ spec.with_part at arguments.now placing part.now) }
{
    let Placing {
        mut complete,
        chain,
        pasting,
    } = placing;
    if let Part::Join = part {
        return Ok(Some(Placing {
            complete,
            chain,
            pasting: true,
        }));
    }
    let items = replaced(alloc, at, arguments, part)?;
    if !pasting {
        complete.append(chain)?;
        return Ok(Some(Placing {
            complete,
            chain: items,
            pasting: false,
        }));
    }
    let Some(chain) = joined(alloc, at, chain, items)? else {
        return Ok(None);
    };
    Ok(Some(Placing {
        complete,
        chain,
        pasting: false,
    }))
}

/// The body with its formals replaced and its pastes made (IEEE 1800-2017 clause 22.5.1), or nothing where a pasted
/// text isn't one token.
pub fn placed(
    alloc: Global,
    at: Place,
    arguments: &[Tokens],
    parts: &[Part],
) -> Result<Option<Placed>, AllocError>
    ensures { IfOk result (λ items. items ≡ spec.placed at arguments.now parts.now) }
{
    let mut placing = Placing {
        complete: Placed::new(alloc),
        chain: Placed::new(alloc),
        pasting: false,
    };
    for part in parts {
        match with_part(alloc, at, arguments, placing, part)? {
            Some(next) => placing = next,
            None => return Ok(None),
        }
    }
    let Placing {
        mut complete,
        chain,
        pasting: _,
    } = placing;
    complete.append(chain)?;
    Ok(Some(complete))
}
