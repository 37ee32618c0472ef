//! What signals and locals hold, and what select paths read of it (IEEE 1800-2017 clauses 7.4.6 and 11.5.1).

ghost use Rattle.std.specs.Prelude.{◌≡◌, ◌≤◌, IfOk};
ghost use Rattle.sv_types.specs.Expressions.{meaning};
ghost use Rattle.eval_parts.specs.Places.{IsNear};
ghost use Rattle.eval_exprs.specs.Held.{bits_of_path};
ghost use Rattle.eval_exprs.specs.declared.held.Held.{Held};

use b4_core::Vec4;
use eval_parts::{Found, extended, own_width, read};
use std::alloc::{AllocError, Global};
use sv_types::{Expr, Function, store};

/// The functions that calls name, and how deep calls may go.
#[derive(Clone, Copy)]
pub struct Scope<'a> {
    /// The functions by place.
    pub functions: &'a [Function],
    /// How many calls may lie one in another.
    pub depth: usize,
}

/// What signals and locals hold while an expression is valued: a slot for each by its number, its bits least first.
#[derive(Clone, Copy)]
pub struct Held<'a> {
    /// Signals. One without bits isn't held, and one behind the last slot neither.
    pub signals: &'a [Option<Vec4>],
    /// Locals. One without bits holds the default of its type.
    pub locals: &'a [Option<Vec4>],
    /// What calls name.
    pub scope: Scope<'a>,
}

/// The bits of a select path that was found, stored as its type stores them, at a width and a sign.
pub fn read_path(
    alloc: Global,
    held: Held<'_>,
    e: &Expr,
    found: &Found,
    width: u32,
    signed: bool,
) -> Result<Vec4, AllocError>
    requires narrow { (meaning e.now).widest ≤ 4194304 }
    requires near { IsNear found.now.window.shift }
    ensures { IfOk result (λ r. r ≡ bits_of_path held.entry e.now found.now width signed) }
{
    let bits = read(alloc, found, held.signals, held.locals, own_width(e))?;
    let stored = store(alloc, &e.of, &bits)?;
    Ok(extended(alloc, &stored, width, signed)?)
}
