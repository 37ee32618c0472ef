//! Operands, and what is asked of them.

ghost use Rattle.std.specs.Prelude.{◌≡◌, ◌≤◌, ◌∷◌, [], map, IfOk};
ghost use Rattle.sv_types.specs.Expressions.{meaning};
ghost use Rattle.sv_types.specs.Meanings.{wide, signed};
ghost use Rattle.sv_types.specs.Operators.{both_wide, both_signed};
ghost use Rattle.eval_forms.specs.Asked.{asked, alone_asked, bits_asked, again_asked, place_asked};
ghost use Rattle.eval_forms.specs.declared.asked.Ask.TheVariants.{Bits, Again, Place};

use eval_parts::{are_signed, own_sign, own_width, wider};
use std::alloc::{AllocError, Global};
use sv_types::Expr;

/// What is asked of an expression.
#[derive(Clone, Copy)]
pub enum Ask {
    /// Its bits at a width and a sign.
    Bits(u32, bool),
    /// The same, where it was valued before.
    Again(u32, bool),
    /// What it stands on, and which bits of that it names.
    Place,
}

/// An operand, and what is asked of it.
#[derive(Clone, Copy)]
pub struct Operand<'a> {
    /// The operand.
    pub of: &'a Expr,
    /// What is asked of it.
    pub ask: Ask,
}

/// Its bits at a width and a sign.
pub fn bits<'a>(of: &'a Expr, width: u32, signed: bool) -> Operand<'a>
    ensures { asked result ≡ bits_asked of.now width signed }
{
    Operand {
        of,
        ask: Ask::Bits(width, signed),
    }
}

/// Its bits at its own width and sign.
pub fn alone<'a>(of: &'a Expr) -> Operand<'a>
    requires { (meaning of.now).widest ≤ 4194304 }
    ensures { asked result ≡ alone_asked of.now }
{
    bits(of, own_width(of), own_sign(of))
}

/// Its bits at the larger width of it and another one, and signed if both are.
pub fn beside<'a>(of: &'a Expr, left: &Expr, right: &Expr) -> Operand<'a>
    requires left { (meaning left.now).widest ≤ 4194304 }
    requires right { (meaning right.now).widest ≤ 4194304 }
    ensures { asked result ≡ bits_asked of.now (both_wide (meaning left.now) (meaning right.now)) (both_signed (meaning left.now) (meaning right.now)) }
{
    bits(of, wider(left, right), are_signed(left, right))
}

/// The same, where it was valued before.
pub fn again<'a>(of: &'a Expr, right: &Expr) -> Operand<'a>
    requires left { (meaning of.now).widest ≤ 4194304 }
    requires right { (meaning right.now).widest ≤ 4194304 }
    ensures { asked result ≡ again_asked of.now (both_wide (meaning of.now) (meaning right.now)) (both_signed (meaning of.now) (meaning right.now)) }
{
    Operand {
        of,
        ask: Ask::Again(wider(of, right), are_signed(of, right)),
    }
}

/// What it stands on.
pub fn place<'a>(of: &'a Expr) -> Operand<'a>
    ensures { asked result ≡ place_asked of.now }
{
    Operand {
        of,
        ask: Ask::Place,
    }
}

/// One operand.
pub fn one<'a>(alloc: Global, a: Operand<'a>) -> Result<Vec<Operand<'a>>, AllocError>
    ensures { IfOk result (λ v. map asked v.items ≡ asked a.entry ∷ []) }
{
    let mut all = Vec::with_capacity(alloc, 1)?;
    all.push(a)?;
    Ok(all)
}

/// Two operands.
pub fn two<'a>(
    alloc: Global,
    a: Operand<'a>,
    b: Operand<'a>,
) -> Result<Vec<Operand<'a>>, AllocError>
    ensures { IfOk result (λ v. map asked v.items ≡ asked a.entry ∷ asked b.entry ∷ []) }
{
    let mut all = Vec::with_capacity(alloc, 2)?;
    all.push(a)?;
    all.push(b)?;
    Ok(all)
}

/// Three operands.
pub fn three<'a>(
    alloc: Global,
    a: Operand<'a>,
    b: Operand<'a>,
    c: Operand<'a>,
) -> Result<Vec<Operand<'a>>, AllocError>
    ensures { IfOk result (λ v. map asked v.items ≡ asked a.entry ∷ asked b.entry ∷ asked c.entry ∷ []) }
{
    let mut all = Vec::with_capacity(alloc, 3)?;
    all.push(a)?;
    all.push(b)?;
    all.push(c)?;
    Ok(all)
}
