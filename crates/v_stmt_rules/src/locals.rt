//! The variables that a function or a block declares.

ghost use Rattle.std.specs.Prelude.{◌≡◌, is_some, IfOk, OnOk};
ghost use Rattle.v_scopes.specs.Env.{found};
ghost use Rattle.v_stmt_rules.specs.Stmts as means;

use crate::statements::StmtSeen;
use std::alloc::{AllocError, Global};
use sv_source::Text;
use v_expr_rules::{earlier, mark, plus};
use v_scopes::{Entry, Scope};
use v_tree::VLocal;

fn range_tokens(range: Option<u32>) -> u32
    ensures { result ≡ means.range_tokens range }
{
    match range {
        None => 0,
        Some(_) => 5,
    }
}

// Variables and one more, which begins at a token, and whether its name was met before.
fn local_added(local: &VLocal, at: u32, seen: StmtSeen, again: bool) -> StmtSeen
    ensures { result ≡ means.local_added local.now at seen again }
{
    let range = range_tokens(local.range);
    StmtSeen {
        size: plus(seen.size, plus(3, range)),
        first: earlier(seen.first, mark(again, plus(at, plus(1, range)))),
    }
}

/// Whether a name was met in a scope, and meets it. Or want of memory.
pub fn local_met(alloc: Global, met: &mut Scope, name: &Text) -> Result<bool, AllocError>
    ensures again { IfOk result (λ again. again ≡ is_some (found met.old name.now)) }
    ensures meets { OnOk result (found met.new ≡ means.meets (found met.old) name.now) }
{
    let again = met.find(name).is_some();
    met.declare(alloc, name, Entry::Part)?;
    Ok(again)
}

/// What is kept of variables, of which the first one begins at a token, behind what is kept of others: how many tokens they
/// have, and the first name that was met before. Or want of memory.
pub fn locals_seen(
    alloc: Global,
    met: &mut Scope,
    locals: &[VLocal],
    start: u32,
    others: StmtSeen,
) -> Result<StmtSeen, AllocError>
    ensures { means.Tells result (found met.new) (means.locals_from locals.now start (record { seen = others; met = found met.old })) }
{
    let mut seen = others;
    for local in locals {
        let at = plus(start, seen.size);
        let again = local_met(alloc, met, &local.name)?;
        seen = local_added(local, at, seen, again);
    }
    Ok(seen)
}
