//! Names with selects (IEEE 1364-2005 clause 5.2).

ghost use Rattle.std.specs.Prelude.{◌≡◌, Some, None, IfOk};
ghost use Rattle.v_meaning.specs.Values as means;
ghost use Rattle.v_meaning.specs.Values.{meaning, sel_meaning, decimal_base, expression_base};
ghost use Rattle.v_tree.specs.declared.expressions.VExtent.TheVariants.{Down, Up};
ghost use Rattle.v_build.specs.Trees.{sel_meanings};

use std::alloc::{AllocError, Global};
use sv_source::{Boxed, Text};
use v_tree::{VExpr, VExtent, VPrim, VSel, VSels};

/// A name with selects, the first one outermost.
pub fn name(name: Text, sels: VSels) -> VExpr
    ensures { meaning result ≡ means.reference name (sel_meanings sels) }
{
    VExpr::Prim(VPrim::Name { name, sels })
}

/// `[base]`, by a number.
pub fn decimal_bit(base: u32) -> VSel
    ensures { sel_meaning result ≡ decimal_base base None }
{
    VSel::Decimal { base, extent: None }
}

/// `[left:right]`
pub fn decimal_part(left: u32, right: u32) -> VSel
    ensures { sel_meaning result ≡ decimal_base left (Some (Down right)) }
{
    VSel::Decimal {
        base: left,
        extent: Some(VExtent::Down(right)),
    }
}

/// `[base]`, by an expression.
pub fn bit_select(alloc: Global, base: VExpr) -> Result<VSel, AllocError>
    ensures { IfOk result (λ s. sel_meaning s ≡ expression_base (meaning base) None) }
{
    let base = Boxed::new(alloc, base)?;
    Ok(VSel::Expr { base, extent: None })
}

/// `[base +: width]`
pub fn slide(alloc: Global, base: VExpr, width: u32) -> Result<VSel, AllocError>
    ensures { IfOk result (λ s. sel_meaning s ≡ expression_base (meaning base) (Some (Up width))) }
{
    let base = Boxed::new(alloc, base)?;
    Ok(VSel::Expr {
        base,
        extent: Some(VExtent::Up(width)),
    })
}
