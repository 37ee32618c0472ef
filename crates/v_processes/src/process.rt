//! What is kept of a process.

use b4_core::Items;
use v_tree::{VBranch, VExpr, VLval};

/// An edge that a process waits for.
#[derive(Clone, Copy, Drop)]
pub struct EdgeOn {
    /// Whether it is `posedge`; else it is `negedge`.
    pub rising: bool,
    /// The number of its signal.
    pub signal: u64,
}

/// Edges in the order of the text.
pub type EdgesOn = Items<EdgeOn>;

/// A port of an instance.
#[derive(Clone, Copy, Drop)]
pub struct Port {
    /// The number of its signal.
    pub number: u64,
    /// How many bits it has.
    pub bits: u128,
}

/// What a process does (IEEE 1364-2005 clauses 6.1, 9.9 and 12.3.9).
#[derive(Drop)]
pub enum Does<'a> {
    /// It assigns a value to a target, always.
    Assign {
        /// What is driven.
        to: &'a VLval,
        /// The expression that drives it.
        value: &'a VExpr,
    },
    /// It runs once a signal changes that it names.
    Star(&'a VBranch),
    /// It runs at edges.
    Edges {
        /// The edges.
        edges: EdgesOn,
        /// What it runs.
        body: &'a VBranch,
    },
    /// It gives a port of an instance a value.
    Into {
        /// The port.
        port: Port,
        /// The expression that is connected to it.
        value: &'a VExpr,
    },
    /// It gives a target what a port of an instance holds.
    From {
        /// What is connected to the port.
        to: VLval,
        /// The port.
        port: Port,
    },
}

/// A process of an instance.
#[derive(Drop)]
pub struct Proc<'a> {
    /// The number of the instance's module.
    pub of: usize,
    /// The number of the instance's first signal.
    pub first: u32,
    /// What it does.
    pub does: Does<'a>,
}

/// Processes by their numbers.
pub type Procs<'a> = Items<Proc<'a>>;
