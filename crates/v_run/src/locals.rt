//! The locals of blocks and functions (IEEE 1364-2005 clauses 9.8 and 10.4).

ghost use Rattle.std.specs.Prelude.{◌≡◌, ◌+◌, ◌++◌, map, IfOk};
ghost use Rattle.v_meaning.specs.Statements as means;
ghost use Rattle.v_eval.specs.Names.{local_named};

use std::alloc::{AllocError, Global};
use sv_source::Items;
use v_eval::Local;
use v_tree::VLocal;

/// Locals, the innermost first.
pub type Locals = Items<Local>;

// A number of a local, which memory runs out before.
fn numbered(next: u32, i: usize) -> Result<u32, AllocError>
    ensures { IfOk result (λ n. n ≡ next + i) }
{
    let n = next as u128 + i as u128;
    if n < 4294967296 {
        Ok(n as u32)
    } else {
        Err(AllocError)
    }
}

// The same locals.
fn copies(alloc: Global, locals: &[Local], mut to: Locals) -> Result<Locals, AllocError>
    ensures { IfOk result (λ r. map local_named r ≡ map local_named to ++ map local_named locals.now) }
{
    for local in locals {
        to.push(Local {
            name: local.name.copy(alloc)?,
            number: local.number,
            left: local.left,
        })?;
    }
    Ok(to)
}

// The locals that are declared, numbered from the next one on.
fn own_locals(alloc: Global, next: u32, locals: &[VLocal]) -> Result<Locals, AllocError>
    ensures { IfOk result (λ r. map local_named r ≡ means.declared next locals.now) }
{
    let mut made = Locals::new(alloc);
    for i in 0..locals.len() {
        made.push(Local {
            name: locals[i].name.copy(alloc)?,
            number: numbered(next, i)?,
            left: locals[i].range,
        })?;
    }
    Ok(made)
}

/// The locals in a block or function: those that it declares, numbered from the next one on, and behind them those around it.
/// Or want of memory.
pub fn declared(
    alloc: Global,
    next: u32,
    locals: &[VLocal],
    outer: &[Local],
) -> Result<Locals, AllocError>
    ensures { IfOk result (λ r. map local_named r ≡ means.declared next locals.now ++ map local_named outer.now) }
{
    let own = own_locals(alloc, next, locals)?;
    Ok(copies(alloc, outer, own)?)
}
