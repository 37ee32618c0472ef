//! Signals that connections join by plain names.

ghost use Rattle.std.specs.Prelude.{◌≡◌, [], length, replicate, IfOk, OnOk};
ghost use Rattle.edge_breaks.specs.Links as spec;

use crate::names::plain_name;
use bit_sets::Span;
use flow_sets::{Found, Write};
use reach_marks::Numbers;
use std::alloc::{AllocError, Global};
use sv_types::{Process, ProcessKind};

/// A connection of a plain name to a port.
#[derive(Clone, Copy)]
pub struct Link {
    /// The number of the signal that is named.
    pub from: u32,
    /// The number of the port.
    pub to: u32,
}

// Whether a span has bits, and begins in the signal with a number.
fn is_of_port(port: u32, span: Span) -> bool
    ensures { result ≡ spec.is_of_port port span }
{
    span.low / 4294967296 == u128::from(port) && span.low < span.high
}

// Whether bits of the port with a number are written.
fn writes_port(port: u32, writes: &[Write]) -> bool
    ensures { result ≡ spec.writes_port port writes.now }
{
    for w in writes {
        if is_of_port(port, w.of.span) {
            return true;
        }
    }
    false
}

fn named(from: Option<u32>, to: u32) -> Option<Link>
    ensures { result ≡ spec.named from to }
{
    match from {
        None => None,
        Some(from) => Some(Link { from, to }),
    }
}

// The link that a connection to a port makes, by what is found of it.
fn link_to(port: u32, process: &Process, found: &Option<Found>) -> Option<Link>
    ensures { result ≡ spec.link_to port process.now found.now }
{
    match found {
        None => None,
        Some(f) => {
            if writes_port(port, f.writes.as_slice()) {
                named(plain_name(&process.body), port)
            } else {
                None
            }
        }
    }
}

// The link that a process makes, if it is a connection.
fn link_of(process: &Process, found: &Option<Found>) -> Option<Link>
    ensures { result ≡ spec.link_of process.now found.now }
{
    match &process.kind {
        ProcessKind::Continuous => None,
        ProcessKind::Link(port) => link_to(*port, process, found),
        ProcessKind::Comb => None,
        ProcessKind::Latch => None,
        ProcessKind::Star => None,
        ProcessKind::Edges(_) => None,
    }
}

fn no_followers(alloc: Global, count: usize) -> Result<Vec<Numbers>, AllocError>
    ensures { IfOk result (λ r. r.items ≡ replicate count []) }
{
    let mut next = Vec::new(alloc);
    for _k in 0..count {
        next.push(Numbers::new(alloc))?;
    }
    Ok(next)
}

// Adds a port to those that follow a signal.
fn add_link(link: Link, next: &mut Vec<Numbers>) -> Result<(), AllocError>
    ensures { OnOk result (next.new.items ≡ spec.with_link next.old.items link) }
{
    if (link.from as usize) < next.len() {
        next[link.from as usize].push(link.to)?;
    }
    Ok(())
}

// Adds the port of a link, if there is one.
fn add_link_of(link: Option<Link>, next: &mut Vec<Numbers>) -> Result<(), AllocError>
    ensures { OnOk result (next.new.items ≡ spec.with_maybe next.old.items link) }
{
    match link {
        None => Ok(()),
        Some(link) => add_link(link, next),
    }
}

/// Of each of so many signals the ports that its plain name is connected to, by what is found of processes.
pub fn followers(
    alloc: Global,
    processes: &[Process],
    found: &[Option<Found>],
    count: usize,
) -> Result<Vec<Numbers>, AllocError>
    requires { length found.now ≡ length processes.now }
    ensures { IfOk result (λ r. r.items ≡ spec.all_links (replicate count []) processes.now found.now) }
{
    let mut next = no_followers(alloc, count)?;
    for k in 0..processes.len() {
        add_link_of(link_of(&processes[k], &found[k]), &mut next)?;
    }
    Ok(next)
}
