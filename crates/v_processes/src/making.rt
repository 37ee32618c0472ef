//! Processes of an instance as they are kept.

ghost use Rattle.std.specs.Prelude.{◌≡◌, map, IfOk};
ghost use Rattle.v_meaning.specs.Modules as means;
ghost use Rattle.v_eval.specs.Scopes.{scope_of};
ghost use Rattle.v_processes.specs.Processes as spec;
ghost use Rattle.v_processes.specs.Stems.{stem_of, process_stem};

use crate::process::{Does, EdgeOn, EdgesOn};
use std::alloc::{AllocError, Global};
use v_eval::{Scope, number_of};
use v_tree::{VEdge, VProcess, VSensitivity};

// An edge on the signal that a name stands for.
#[tactic(auto, using(crate::proofs::Kept::edges))]
fn edge_on(scope: Scope<'_>, edge: &VEdge) -> EdgeOn
    ensures { spec.edge_of result ≡ means.edge_on (scope_of scope.entry) edge.now }
{
    EdgeOn {
        rising: edge.rising,
        signal: number_of(scope.find(&edge.name)),
    }
}

// Edges on the signals that names stand for.
fn edges_on(alloc: Global, scope: Scope<'_>, edges: &[VEdge]) -> Result<EdgesOn, AllocError>
    ensures { IfOk result (λ r. map spec.edge_of r ≡ map (means.edge_on (scope_of scope.entry)) edges.now) }
{
    let mut made = EdgesOn::new(alloc);
    for edge in edges {
        made.push(edge_on(scope, edge))?;
    }
    Ok(made)
}

/// What a process of a module does. Or want of memory.
pub fn does_of<'a>(
    alloc: Global,
    scope: Scope<'_>,
    process: &'a VProcess,
) -> Result<Does<'a>, AllocError>
    ensures means { IfOk result (λ d. spec.does_in d (scope_of scope.entry) ≡ means.process_of (scope_of scope.entry) process.now) }
    ensures source { IfOk result (λ d. stem_of d ≡ process_stem process.now) }
{
    match process {
        VProcess::Assign { target, value } => Ok(Does::Assign { to: target, value }),
        VProcess::Always {
            on: VSensitivity::Star,
            body,
        } => Ok(Does::Star(body)),
        VProcess::Always {
            on: VSensitivity::Edges(edges),
            body,
        } => Ok(Does::Edges {
            edges: edges_on(alloc, scope, edges.as_slice())?,
            body,
        }),
    }
}
