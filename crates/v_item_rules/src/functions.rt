//! Functions (IEEE 1364-2005 clause 10.4).

ghost use Rattle.std.specs.Prelude.{◌≡◌, OnOk};
ghost use Rattle.v_scopes.specs.Env.{found, hidden_in, Within};
ghost use Rattle.v_stmt_rules.specs.Stmts.{stmt_told};
ghost use Rattle.v_item_rules.specs.Functions as means;

use crate::signals::range_tokens;
use std::alloc::{AllocError, Global};
use v_block_names::{declare_locals, declare_parts};
use v_expr_rules::{earlier, plus};
use v_scopes::{Entry, Scope};
use v_stmt_rules::{Procedure, StmtSeen, local_met, locals_seen, stmt_labels, stmt_seen};
use v_tree::{Texts, VFunction, VItem};

/// Declares what a function names, which is the item with this number: its result, its inputs, its variables and its blocks.
/// Or want of memory.
pub fn enter_function(
    alloc: Global,
    scope: &mut Scope,
    function: &VFunction,
    item: usize,
) -> Result<(), AllocError>
    ensures declares { OnOk result (found scope.new ≡ means.function_given function.now item (found scope.old)) }
    ensures within { OnOk result (Within scope.old scope.new) }
{
    let mut names = Texts::new(alloc);
    stmt_labels(alloc, &function.body, &mut names)?;
    declare_parts(alloc, scope, names.as_slice())?;
    declare_locals(alloc, scope, function.locals.as_slice())?;
    declare_locals(alloc, scope, function.inputs.as_slice())?;
    let result = Entry::Result {
        left: function.range,
        item,
    };
    scope.declare(alloc, &function.name, result)?;
    Ok(())
}

fn whole(range: u32, locals: StmtSeen, body: StmtSeen) -> StmtSeen
    ensures { result ≡ means.whole range locals body }
{
    StmtSeen {
        size: plus(4, plus(range, plus(locals.size, body.size))),
        first: earlier(locals.first, body.first),
    }
}

// The names of a function's inputs and variables, where its inputs begin at a token.
fn own_names(
    alloc: Global,
    met: &mut Scope,
    function: &VFunction,
    start: u32,
) -> Result<StmtSeen, AllocError>
    ensures { means.Owns result (found met.new) function.now start (found met.old) }
{
    local_met(alloc, met, &function.name)?;
    let none = StmtSeen {
        size: 0,
        first: None,
    };
    let inputs = locals_seen(alloc, met, function.inputs.as_slice(), start, none)?;
    locals_seen(alloc, met, function.locals.as_slice(), start, inputs)
}

/// What is kept of a function that begins at a token and is the item with this number of a module of these items, where names
/// stand for these things. Or want of memory. The scope is as before.
pub fn function_seen(
    alloc: Global,
    scope: &mut Scope,
    items: &[VItem],
    function: &VFunction,
    item: usize,
    at: u32,
) -> Result<StmtSeen, AllocError>
    ensures seen { means.Gives result (means.function_seen function.now item (found scope.old) items.now at) }
    ensures keeps { OnOk result (found scope.new ≡ found scope.old) }
    ensures hides { OnOk result (hidden_in scope.new ≡ hidden_in scope.old) }
{
    let range = range_tokens(function.range);
    let start = plus(at, plus(3, range));
    let mut met = Scope::new(alloc);
    let locals = own_names(alloc, &mut met, function, start)?;
    let outside = scope.mark();
    enter_function(alloc, scope, function, item)?;
    let from = plus(start, locals.size);
    let body = stmt_seen(
        alloc,
        scope,
        items,
        Procedure::InFunction,
        &function.body,
        from,
        &mut met,
    )?;
    scope.leave(outside)?;
    Ok(whole(range, locals, body))
}
