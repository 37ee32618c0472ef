//! What stands among the parts of modules and their items.

use crate::kind::{Kind, discard};
use v_tree::{
    Texts, VConnection, VConnections, VEdge, VInit, VItem, VLocal, VModule, VPart, VRegRest,
    VSensitivity,
};

/// The names of a port list.
pub struct Ports;

impl Kind for Ports {
    ghost use Rattle.v_tree.specs.Parts.{as_ports};

    type Value = Texts;

    ghost value = { as_ports };

    fn is(part: &VPart) -> bool {
        match part {
            VPart::Ports(_) => true,
            _ => false,
        }
    }

    fn take(part: VPart) -> Option<Texts> {
        match part {
            VPart::Ports(value) => Some(value),
            rest => {
                discard(rest);
                None
            }
        }
    }
}

/// The left bound of a range.
pub struct Range;

impl Kind for Range {
    ghost use Rattle.v_tree.specs.Parts.{as_range};

    type Value = u32;

    ghost value = { as_range };

    fn is(part: &VPart) -> bool {
        match part {
            VPart::Range(_) => true,
            _ => false,
        }
    }

    fn take(part: VPart) -> Option<u32> {
        match part {
            VPart::Range(value) => Some(value),
            _ => None,
        }
    }
}

/// A declared initial value.
pub struct Initial;

impl Kind for Initial {
    ghost use Rattle.v_tree.specs.Parts.{as_initial};

    type Value = VInit;

    ghost value = { as_initial };

    fn is(part: &VPart) -> bool {
        match part {
            VPart::Initial(_) => true,
            _ => false,
        }
    }

    fn take(part: VPart) -> Option<VInit> {
        match part {
            VPart::Initial(value) => Some(value),
            rest => {
                discard(rest);
                None
            }
        }
    }
}

/// What stands behind the name of a `reg`.
pub struct RegRest;

impl Kind for RegRest {
    ghost use Rattle.v_tree.specs.Parts.{as_reg_rest};

    type Value = VRegRest;

    ghost value = { as_reg_rest };

    fn is(part: &VPart) -> bool {
        match part {
            VPart::RegRest(_) => true,
            _ => false,
        }
    }

    fn take(part: VPart) -> Option<VRegRest> {
        match part {
            VPart::RegRest(value) => Some(value),
            rest => {
                discard(rest);
                None
            }
        }
    }
}

/// An input of a function.
pub struct Input;

impl Kind for Input {
    ghost use Rattle.v_tree.specs.Parts.{as_input};

    type Value = VLocal;

    ghost value = { as_input };

    fn is(part: &VPart) -> bool {
        match part {
            VPart::Input(_) => true,
            _ => false,
        }
    }

    fn take(part: VPart) -> Option<VLocal> {
        match part {
            VPart::Input(value) => Some(value),
            rest => {
                discard(rest);
                None
            }
        }
    }
}

/// An edge.
pub struct Edge;

impl Kind for Edge {
    ghost use Rattle.v_tree.specs.Parts.{as_edge};

    type Value = VEdge;

    ghost value = { as_edge };

    fn is(part: &VPart) -> bool {
        match part {
            VPart::Edge(_) => true,
            _ => false,
        }
    }

    fn take(part: VPart) -> Option<VEdge> {
        match part {
            VPart::Edge(value) => Some(value),
            rest => {
                discard(rest);
                None
            }
        }
    }
}

/// What an `always` waits for.
pub struct Event;

impl Kind for Event {
    ghost use Rattle.v_tree.specs.Parts.{as_event};

    type Value = VSensitivity;

    ghost value = { as_event };

    fn is(part: &VPart) -> bool {
        match part {
            VPart::Event(_) => true,
            _ => false,
        }
    }

    fn take(part: VPart) -> Option<VSensitivity> {
        match part {
            VPart::Event(value) => Some(value),
            rest => {
                discard(rest);
                None
            }
        }
    }
}

/// A connection.
pub struct Connection;

impl Kind for Connection {
    ghost use Rattle.v_tree.specs.Parts.{as_connection};

    type Value = VConnection;

    ghost value = { as_connection };

    fn is(part: &VPart) -> bool {
        match part {
            VPart::Connection(_) => true,
            _ => false,
        }
    }

    fn take(part: VPart) -> Option<VConnection> {
        match part {
            VPart::Connection(value) => Some(value),
            rest => {
                discard(rest);
                None
            }
        }
    }
}

/// The connections of an instance.
pub struct Connections;

impl Kind for Connections {
    ghost use Rattle.v_tree.specs.Parts.{as_connections};

    type Value = VConnections;

    ghost value = { as_connections };

    fn is(part: &VPart) -> bool {
        match part {
            VPart::Connections(_) => true,
            _ => false,
        }
    }

    fn take(part: VPart) -> Option<VConnections> {
        match part {
            VPart::Connections(value) => Some(value),
            rest => {
                discard(rest);
                None
            }
        }
    }
}

/// An item of a module.
pub struct Item;

impl Kind for Item {
    ghost use Rattle.v_tree.specs.Parts.{as_item};

    type Value = VItem;

    ghost value = { as_item };

    fn is(part: &VPart) -> bool {
        match part {
            VPart::Item(_) => true,
            _ => false,
        }
    }

    fn take(part: VPart) -> Option<VItem> {
        match part {
            VPart::Item(value) => Some(value),
            rest => {
                discard(rest);
                None
            }
        }
    }
}

/// A module.
pub struct Module;

impl Kind for Module {
    ghost use Rattle.v_tree.specs.Parts.{as_module};

    type Value = VModule;

    ghost value = { as_module };

    fn is(part: &VPart) -> bool {
        match part {
            VPart::Module(_) => true,
            _ => false,
        }
    }

    fn take(part: VPart) -> Option<VModule> {
        match part {
            VPart::Module(value) => Some(value),
            rest => {
                discard(rest);
                None
            }
        }
    }
}
