//! Breaks that are neither of a declaration nor of an import nor of a use.

ghost use Rattle.std.specs.Prelude.{◌≡◌, ◌&&◌, ◌<◌, ◌^◌, None, not, codes, length, take};
ghost use Rattle.std.specs.Str.{bytes_eq};
ghost use Rattle.package_scope.specs.Least.{least_over, least_kept};
ghost use Rattle.package_scope.specs.Finding.{Kept};
ghost use Rattle.package_scope.specs.Rules as means;
ghost use Rattle.package_scope.specs.Tables.{word};
ghost use Rattle.package_scope.specs.Walks as walks;

use crate::breaks::{Break, break_if, first};
use crate::fitting::is_bits;
use crate::named_text::NamedText;
use name_events::{Before, Declared, Event, Packedness};
use sv_source::{Kind, Text, Token};

/// What a declaration says of its type, if it is that of a type's name.
fn packedness_of(how: Declared) -> Option<Packedness>
    ensures { result ≡ walks.packedness_of how }
{
    match how {
        Declared::TypeName(packedness) => Some(packedness),
        _ => None,
    }
}

/// Whether a name begins as those that are kept for the translator.
fn has_kept_front(name: &Text) -> bool
    ensures { result ≡ bytes_eq (take 5 name.now) (codes "sv2v_") }
{
    name.as_bytes().starts_with(b"sv2v_")
}

/// Whether a token is a name that is kept for the translator.
fn is_kept(token: &Token) -> bool
    ensures { result ≡ means.is_kept token.now }
{
    match token.kind {
        Kind::Name => has_kept_front(&token.text),
        _ => false,
    }
}

/// The least break by a name that is kept for the translator.
pub fn kept_break(tokens: &[Token]) -> Option<Break>
    requires { length tokens.now < 2 ^ 32 }
    ensures { result ≡ least_kept None 0 tokens.now }
{
    let mut least = None;
    for (at, token) in tokens.iter().enumerate() {
        least = first(least, break_if(is_kept(token), 404, at as u32));
    }
    least
}

impl<'t> NamedText<'t> {
    /// What the declaration of the type at a token says of it.
    fn packedness_at(&self, token: u32) -> Option<Packedness>
        requires kept { Kept self.now.tokens.now self.now.names.now self.now.found.now self.now.loops.now }
        ensures { result ≡ walks.packedness_in (means.declaration_at self.now.tokens.now self.now.names.now token) }
    {
        match self.declaration_at(token) {
            Some(declaration) => packedness_of(declaration.how),
            None => None,
        }
    }

    /// Whether the type at a token is unpacked.
    fn is_unpacked(&self, token: u32) -> bool
        requires kept { Kept self.now.tokens.now self.now.names.now self.now.found.now self.now.loops.now }
        ensures { result ≡ means.is_unpacked self.now.tokens.now self.now.names.now token }
    {
        let mut token = token;
        let mut left = self.table().declared.len();
        while left > 0 {
            left -= 1;
            match self.packedness_at(token) {
                None => return false,
                Some(Packedness::Packed) => return false,
                Some(Packedness::Unpacked) => return true,
                Some(Packedness::AsNamed(of)) => token = of,
            }
        }
        false
    }

    /// Whether a name that may be that of an interface is.
    fn names_interface_if(&self, of: Option<u32>) -> bool
        requires kept { Kept self.now.tokens.now self.now.names.now self.now.found.now self.now.loops.now }
        ensures { result ≡ means.names_interface_if self.now.tokens.now self.now.names.now of }
    {
        match of {
            Some(of) => self.names_interface(of),
            None => false,
        }
    }

    /// Whether the port before another one has no direction that it goes on with.
    fn has_no_direction(&self, before: Before) -> bool
        requires kept { Kept self.now.tokens.now self.now.names.now self.now.found.now self.now.loops.now }
        ensures { result ≡ means.has_no_direction self.now.tokens.now self.now.names.now before }
    {
        match before {
            Before::Nothing => true,
            Before::Data => false,
            Before::Interface => true,
            Before::Named(of) => self.names_interface(of),
        }
    }

    /// Whether two tokens have one text.
    fn are_same(&self, one: u32, other: u32) -> bool
        ensures { result ≡ bytes_eq (word self.now.tokens.now one) (word self.now.tokens.now other) }
    {
        self.word(one) == self.word(other)
    }

    /// Whether a port lacks a direction.
    fn lacks_direction(&self, of: Option<u32>, before: Before) -> bool
        requires kept { Kept self.now.tokens.now self.now.names.now self.now.found.now self.now.loops.now }
        ensures { result ≡ (not (means.names_interface_if self.now.tokens.now self.now.names.now of) && means.has_no_direction self.now.tokens.now self.now.names.now before) }
    {
        !self.names_interface_if(of) && self.has_no_direction(before)
    }

    /// The break of an event.
    fn event_break(&self, event: Event) -> Option<Break>
        requires kept { Kept self.now.tokens.now self.now.names.now self.now.found.now self.now.loops.now }
        ensures { result ≡ means.least (means.event_breaks self.now.tokens.now self.now.names.now event) }
    {
        match event {
            Event::Repeats { of, name } => break_if(!self.are_same(of, name), 404, name),
            Event::Packs { of, at } => break_if(self.is_unpacked(of), 404, at),
            Event::Undirected { name, of, before } => {
                break_if(self.lacks_direction(of, before), 404, name)
            }
            Event::TypeArgument { function, at } => {
                break_if(!is_bits(self.word(function)), 404, at)
            }
            Event::Wrong { at } => Some(Break { at, rule: 404 }),
            _ => None,
        }
    }

    /// The least break of an event.
    pub(crate) fn events_break(&self, events: &[Event]) -> Option<Break>
        requires kept { Kept self.now.tokens.now self.now.names.now self.now.found.now self.now.loops.now }
        ensures { result ≡ least_over (means.event_breaks self.now.tokens.now self.now.names.now) None events.now }
    {
        let mut least = None;
        for event in events {
            least = first(least, self.event_break(*event));
        }
        least
    }
}
