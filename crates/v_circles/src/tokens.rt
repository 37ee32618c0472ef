//! How many tokens items have.

ghost use Rattle.std.specs.Prelude.{◌≡◌, IfOk};
ghost use Rattle.v_expr_rules.specs.Least.{cap};
ghost use Rattle.v_tree.specs.Rules as means;
ghost use Rattle.v_tree.specs.declared.items.VItem.TheVariants as I;

use std::alloc::{AllocError, Global};
use v_item_rules::{function_seen, instance_seen, process_seen, signal_tokens};
use v_scopes::Scope;
use v_tree::{VFunction, VInstance, VItem, VProcess};

#[tactic(auto, using(crate::proofs::Sizes::process_size_is))]
fn process_tokens(alloc: Global, items: &[VItem], process: &VProcess) -> Result<u32, AllocError>
    ensures { IfOk result (λ r. r ≡ cap (means.process_size process.now)) }
{
    let mut scope = Scope::new(alloc);
    let mut met = Scope::new(alloc);
    let seen = process_seen(alloc, &mut scope, items, process, 0, &mut met)?;
    Ok(seen.size)
}

#[tactic(auto, using(crate::proofs::Sizes::function_size_is))]
fn function_tokens(alloc: Global, items: &[VItem], function: &VFunction) -> Result<u32, AllocError>
    ensures { IfOk result (λ r. r ≡ cap (means.function_size function.now)) }
{
    let mut scope = Scope::new(alloc);
    let seen = function_seen(alloc, &mut scope, items, function, 0, 0)?;
    Ok(seen.size)
}

#[tactic(auto, using(crate::proofs::Sizes::instance_size_is))]
fn instance_tokens(alloc: Global, items: &[VItem], instance: &VInstance) -> Result<u32, AllocError>
    ensures { IfOk result (λ r. r ≡ cap (means.item_size (I.Instance instance.now))) }
{
    let scope = Scope::new(alloc);
    let ports = Scope::new(alloc);
    let seen = instance_seen(alloc, &scope, items, &ports, instance, 0)?;
    Ok(seen.size)
}

/// How many tokens an item of a module of these items has. Or want of memory.
#[tactic(auto, using(crate::proofs::Sizes::signal_size_is))]
pub fn item_tokens(alloc: Global, items: &[VItem], item: &VItem) -> Result<u32, AllocError>
    ensures { IfOk result (λ r. r ≡ cap (means.item_size item.now)) }
{
    match item {
        VItem::Signal(signal) => Ok(signal_tokens(signal)),
        VItem::Initial(_) => Ok(5),
        VItem::Process(process) => process_tokens(alloc, items, process),
        VItem::Function(function) => function_tokens(alloc, items, function),
        VItem::Instance(instance) => instance_tokens(alloc, items, instance),
    }
}
