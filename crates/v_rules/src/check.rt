//! The modules of a design.

ghost use Rattle.std.specs.Prelude.{◌≡◌, IfOk};
ghost use Rattle.v_scopes.specs.Env.{found};
ghost use Rattle.v_stmt_rules.specs.Stmts.{Tells, begun, nothing};
ghost use Rattle.v_item_rules.specs.Functions.{Gives};
ghost use Rattle.v_rules.specs.Tables.{ports_in, numbers_in, numbers_from, no_numbers, ports_added};
ghost use Rattle.v_expr_rules.specs.Least.{first};
ghost use Rattle.v_rules.specs.Items as means;
ghost use Rattle.v_rules.specs.Plain.{design_plain};

use crate::items::items_seen;
use crate::lists::list_seen;
use crate::modules::Modules;
use crate::names::{module_ports, module_scope};
use std::alloc::{AllocError, Global};
use sv_source::Text;
use v_expr_rules::{earlier, mark, plus};
use v_item_rules::listed_tokens;
use v_scopes::Scope;
use v_stmt_rules::{StmtSeen, local_met};
use v_tree::{VDesign, VModule};

/// How many tokens the port list of a module has, with its parentheses.
pub fn list_tokens(names: &[Text]) -> u32
    ensures { result ≡ means.list_tokens names.now }
{
    if names.is_empty() {
        0
    } else {
        plus(2, listed_tokens(names.len()))
    }
}

// A module, which begins at a token.
fn module_seen(
    alloc: Global,
    modules: &Modules,
    module: &VModule,
    at: u32,
) -> Result<StmtSeen, AllocError>
    ensures { Gives result (means.module_seen (numbers_in modules.now) (ports_in modules.now) «module».now at) }
{
    let items = module.items.as_slice();
    let names = module.ports.as_slice();
    let ports = module_ports(alloc, items)?;
    let mut listed = Scope::new(alloc);
    let list = list_seen(alloc, names, &ports, plus(at, 3), &mut listed)?;
    let mut scope = module_scope(alloc, items)?;
    let tokens = list_tokens(names);
    let from = plus(at, plus(3, tokens));
    let body = items_seen(alloc, modules, &mut scope, &listed, items, from)?;
    Ok(StmtSeen {
        size: plus(4, plus(tokens, body.size)),
        first: earlier(list.first, body.first),
    })
}

fn module_added(list: StmtSeen, again: Option<u32>, one: StmtSeen) -> StmtSeen
    ensures { result ≡ means.module_added list again one }
{
    StmtSeen {
        size: plus(list.size, one.size),
        first: earlier(list.first, earlier(again, one.first)),
    }
}

// The modules of a design.
fn modules_seen(alloc: Global, table: &Modules, modules: &[VModule]) -> Result<StmtSeen, AllocError>
    ensures { Gives result (means.modules_from modules.now (numbers_in table.now) (ports_in table.now) (begun nothing)).seen }
{
    let mut met = Scope::new(alloc);
    let mut seen = StmtSeen {
        size: 0,
        first: None,
    };
    for module in modules {
        let at = seen.size;
        let again = mark(local_met(alloc, &mut met, &module.name)?, plus(at, 1));
        let one = module_seen(alloc, table, module, at)?;
        seen = module_added(seen, again, one);
    }
    Ok(seen)
}

// The first token that is found in a design.
fn found_first(alloc: Global, design: &VDesign) -> Result<Option<u32>, AllocError>
    ensures { IfOk result (λ r. r ≡ means.design_first design.now) }
{
    let modules = design.modules.as_slice();
    let table = Modules::of(alloc, modules)?;
    let seen = modules_seen(alloc, &table, modules)?;
    Ok(seen.first)
}

/// The first token of a design that breaks a rule on names or limits which needs no top, but for modules and functions that lead
/// back to themselves; none where it breaks no such rule. Numbers end at 2^32 - 1. Or want of memory.
pub fn first_broken(alloc: Global, design: &VDesign) -> Result<Option<u32>, AllocError>
    ensures { IfOk result (λ r. r ≡ first (design_plain design.now)) }
{
    found_first(alloc, design)
}
