//! What happens to names in a text: each event, behind the text of the token that it is about.

use case_files::escaped;
use name_events::{Event, events_of};
use std::io;
use sv_source::Token;
use sv_tree::SourceTree;

/// The token that an event is about, if it is about one.
fn token_of(event: Event) -> Option<u32> {
    match event {
        Event::Opens { first, .. } => Some(first),
        Event::Heads => None,
        Event::Closes => None,
        Event::Declares { name, .. } => Some(name),
        Event::ImportsName { name, .. } => Some(name),
        Event::ImportsAll { package, .. } => Some(package),
        Event::Uses { name, .. } => Some(name),
        Event::Runs { name, .. } => Some(name),
        Event::Repeats { name, .. } => Some(name),
        Event::Packs { of, .. } => Some(of),
        Event::Undirected { name, .. } => Some(name),
        Event::TypeArgument { at, .. } => Some(at),
        Event::Connects { port } => Some(port),
        Event::ConnectsRest { mark } => Some(mark),
        Event::Wrong { at } => Some(at),
    }
}

/// Prints one event.
fn print_event(rt: &HostRuntime, tokens: &[Token], event: Event) -> io::Result<()> {
    let token = match token_of(event) {
        Some(at) => tokens.get(at as usize),
        None => None,
    };
    match token {
        Some(token) => {
            let text = escaped(rt.alloc(), token.text.as_bytes())?;
            println!(rt; "{text} {event:?}")
        }
        None => println!(rt; "{event:?}"),
    }
}

/// Prints the events of a tree.
pub fn print_events(rt: &HostRuntime, tree: &SourceTree) -> io::Result<()> {
    for event in events_of(rt.alloc(), tree)?.as_slice() {
        print_event(rt, tree.tokens.as_slice(), *event)?;
    }
    Ok(())
}
