//! The port list of a module (IEEE 1364-2005 clauses 12.3.2 and 12.3.3).

ghost use Rattle.std.specs.Prelude.{◌≡◌};
ghost use Rattle.v_scopes.specs.Env.{found};
ghost use Rattle.v_stmt_rules.specs.Stmts.{Tells, begun};
ghost use Rattle.v_rules.specs.Items as means;

use std::alloc::{AllocError, Global};
use sv_source::Text;
use v_expr_rules::{earlier, mark, plus};
use v_scopes::Scope;
use v_stmt_rules::{StmtSeen, local_met};

fn port_added(list: StmtSeen, again: bool, is_port: bool, at: u32) -> StmtSeen
    ensures { result ≡ means.port_added list again is_port at }
{
    StmtSeen {
        size: plus(list.size, 2),
        first: earlier(list.first, earlier(mark(again, at), mark(!is_port, at))),
    }
}

/// What is kept of the names of a port list, each with a comma, of which the first one has a token, where these are the ports
/// that the items declare. Or want of memory.
pub(crate) fn list_seen(
    alloc: Global,
    names: &[Text],
    ports: &Scope,
    start: u32,
    met: &mut Scope,
) -> Result<StmtSeen, AllocError>
    ensures { Tells result (found met.new) (means.list_from names.now (found ports.now) start (begun (found met.old))) }
{
    let mut seen = StmtSeen {
        size: 0,
        first: None,
    };
    for name in names {
        let at = plus(start, seen.size);
        let again = local_met(alloc, met, name)?;
        seen = port_added(seen, again, ports.find(name).is_some(), at);
    }
    Ok(seen)
}
