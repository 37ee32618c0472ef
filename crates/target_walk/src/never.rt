//! What is named by a path of which nothing is written (IEEE 1800-2017 clause 9.4.2.2).

ghost use Rattle.std.specs.Prelude.{◌≡◌, [], ◌∷◌, None, IfOk};
ghost use Rattle.b4_core.specs.declared.bit.Bit4.TheVariants.{Zero};
ghost use Rattle.v_meaning.specs.Values as means;
ghost use Rattle.v_meaning.specs.Values.{meaning};
ghost use Rattle.target_walk.specs.Naming.{IsNever, NamesAlso, is_lowered, has_lowered, NamesFrom};
ghost use Rattle.target_walk.specs.Owning.{AllFixed};

use crate::given::Given;
use b4_core::{Bit4, Vec4};
use path_flatten::copy_expr;
use std::alloc::{AllocError, Global};
use target_flatten::Writes;
use v_build::{both, literal};
use v_tree::VExpr;

/// A condition that never holds.
fn never(alloc: Global) -> Result<VExpr, AllocError>
    ensures { IfOk result (λ m. meaning m ≡ means.literal (Zero ∷ [])) }
{
    let bits = Vec4::from_slice(alloc, &[Bit4::Zero])?;
    Ok(literal(bits))
}

/// A condition, and an expression besides.
fn besides(alloc: Global, guard: VExpr, e: &VExpr) -> Result<VExpr, AllocError>
    ensures { IfOk result (λ m. meaning m ≡ means.both (meaning guard) (meaning e.now)) }
{
    let (guard, e) = pairs::both(Ok(guard), copy_expr(alloc, e))?;
    both(alloc, guard, e)
}

/// A condition, and a lowered index besides.
fn with_index(alloc: Global, guard: VExpr, given: &Given) -> Result<VExpr, AllocError>
    ensures { IfOk result (λ m. NamesAlso (meaning guard) given.now (meaning m)) }
{
    match given {
        Given::Known(_) => Ok(guard),
        Given::Lowered { index, .. } => { besides(alloc, guard, &index.expr) }
    }
}

/// A condition that never holds, and names what indices do.
fn naming(alloc: Global, indices: &[Given]) -> Result<VExpr, AllocError>
    ensures { IfOk result (λ m. IsNever indices.now (meaning m)) }
{
    let mut guard = never(alloc)?;
    for given in indices {
        guard = with_index(alloc, guard, given)?;
    }
    Ok(guard)
}

/// Whether an index is lowered.
fn is_lowered(given: &Given) -> bool
    ensures { result ≡ is_lowered given.now }
{
    match given {
        Given::Known(_) => false,
        Given::Lowered { .. } => true,
    }
}

/// Whether one of them is.
fn any_lowered(indices: &[Given]) -> bool
    ensures { result ≡ has_lowered indices.now }
{
    for given in indices {
        if is_lowered(given) {
            return true;
        }
    }
    false
}

/// Targets for a path.
#[derive(Drop)]
pub struct Targets {
    /// The targets, all of whose guards and indices are valued before the first one is written.
    pub writes: Writes,
    /// What names lowered indices where nothing is written: an expression that never holds, for an `if` without a statement.
    pub named: Option<VExpr>,
}

/// Targets of what is written of a path with these indices: an expression names what lowered ones do where nothing is written. Or want
/// of memory.
pub fn with_names(
    alloc: Global,
    indices: &[Given],
    writes: Result<Writes, AllocError>,
) -> Result<Targets, AllocError>
    ensures names { IfOk result (NamesFrom indices.now writes) }
    ensures bare { IfOk result (λ r. AllFixed indices.now → r.named ≡ None) }
{
    let writes = writes?;
    if writes.is_empty() && any_lowered(indices) {
        let (writes, named) = pairs::both(Ok(writes), naming(alloc, indices))?;
        return Ok(Targets {
            writes,
            named: Some(named),
        });
    }
    Ok(Targets {
        writes,
        named: None,
    })
}
