//! Continuous assignments and processes (IEEE 1800-2017 clauses 9.2 and 10.3, A.6.1, A.6.2, A.6.5). Each `u32` is the number
//! of a token among the tree's tokens.

use crate::expressions::Expr;
use crate::statements::{Lvalue, Stmt};
use sv_source::Items;

/// An assignment of a continuous assignment (IEEE 1800-2017 A.6.1 net_assignment).
#[derive(Drop)]
pub struct NetAssignment {
    /// What is assigned.
    pub target: Lvalue,
    /// The `=`.
    pub equals: u32,
    /// The value.
    pub value: Expr,
}

/// The assignments behind one `assign`, in order.
pub type NetAssignments = Items<NetAssignment>;

/// Continuous assignments (IEEE 1800-2017 A.6.1 continuous_assign).
#[derive(Drop)]
pub struct ContinuousAssign {
    /// The word `assign`.
    pub keyword: u32,
    /// The assignments, at least one.
    pub assignments: NetAssignments,
    /// The `;`.
    pub semicolon: u32,
}

/// Which change of a signal is an event (IEEE 1800-2017 A.7.4 edge_identifier), with its word.
#[derive(Clone, Copy)]
pub enum EdgeKeyword {
    /// `posedge`
    Posedge(u32),
    /// `negedge`
    Negedge(u32),
}

/// `.member` behind the name of an event.
#[derive(Clone, Copy)]
pub struct EventMember {
    /// The `.`.
    pub dot: u32,
    /// The member's name.
    pub name: u32,
}

/// An edge that a process waits for (IEEE 1800-2017 A.6.5 event_expression).
#[derive(Clone, Copy)]
pub struct EventEdge {
    /// Which edge.
    pub keyword: EdgeKeyword,
    /// The signal's name, or that of an interface port.
    pub name: u32,
    /// The member of the interface.
    pub member: Option<EventMember>,
}

/// The edges that a process waits for, in order. The comma or the `or` between two isn't kept: it stands directly before the
/// second.
pub type EventEdges = Items<EventEdge>;

/// What an `always` waits for (IEEE 1800-2017 A.6.5 event_control).
#[derive(Drop)]
pub enum EventControl {
    /// `*`
    Star {
        /// The `*`.
        star: u32,
    },
    /// `(*)` as one mark.
    ParenthesizedStar {
        /// The `(*)`.
        mark: u32,
    },
    /// `(*` as one mark, and `)`.
    OpeningStar {
        /// The `(*`.
        mark: u32,
        /// The `)`.
        closing: u32,
    },
    /// `(`, and `*)` as one mark.
    ClosingStar {
        /// The `(`.
        opening: u32,
        /// The `*)`.
        mark: u32,
    },
    /// `(`, `*` and `)`, apart.
    SpacedStar {
        /// The `(`.
        opening: u32,
        /// The `*`.
        star: u32,
        /// The `)`.
        closing: u32,
    },
    /// `(edges)`
    Edges {
        /// The `(`.
        opening: u32,
        /// The edges, at least one.
        edges: EventEdges,
        /// The `)`.
        closing: u32,
    },
}

/// A process (IEEE 1800-2017 A.6.2 always_construct).
#[derive(Drop)]
pub enum Always {
    /// `always_comb body`
    Comb {
        /// The word `always_comb`.
        keyword: u32,
        /// The statement.
        body: Stmt,
    },
    /// `always_latch body`
    Latch {
        /// The word `always_latch`.
        keyword: u32,
        /// The statement.
        body: Stmt,
    },
    /// `always_ff @(edges) body`
    Ff {
        /// The word `always_ff`.
        keyword: u32,
        /// The `@`.
        event: u32,
        /// The `(`.
        opening: u32,
        /// The edges, at least one.
        edges: EventEdges,
        /// The `)`.
        closing: u32,
        /// The statement.
        body: Stmt,
    },
    /// `always @control body`
    Plain {
        /// The word `always`.
        keyword: u32,
        /// The `@`.
        event: u32,
        /// What it waits for.
        control: EventControl,
        /// The statement.
        body: Stmt,
    },
}
