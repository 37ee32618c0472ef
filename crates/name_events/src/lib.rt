//! What happens to names in a source text: scopes that begin and end, names that are declared, imported and used, in one list.
#![tactic(auto)]

mod context;
mod declarations;
mod dimensions;
mod events;
mod expressions;
mod functions;
mod instances;
mod items;
mod ports;
mod statements;
mod steps;
mod types;
mod units;

pub use events::{
    Before, Declared, Event, Events, Packedness, Role, ScopeKind, SelectKind, SelectPath,
};
pub use units::events_of;
