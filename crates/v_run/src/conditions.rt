//! Conditions, and what the items of a `case` match (IEEE 1364-2005 clauses 9.4 and 9.5).

ghost use Rattle.std.specs.Prelude.{◌≡◌, ◌≤◌, IfOk};
ghost use Rattle.b4_core.specs.Bits.{is_one, known4, same4};
ghost use Rattle.v_meaning.specs.Runs as means;
ghost use Rattle.v_meaning.specs.Values.{meaning};
ghost use Rattle.v_eval.specs.Answering.{Answers};
ghost use Rattle.v_eval.specs.Holding.{holds};
ghost use Rattle.v_eval.specs.Limits.{limits, most_alone};
ghost use Rattle.v_eval.specs.Scopes.{scope_of};

use b4_core::{Bit4, Vec4, truth};
use std::alloc::{AllocError, Global};
use v_eval::{Around, Held, Vectors, own, value};
use v_tree::{VCaseKind, VExpr};

// Whether a bit is 1.
fn is_set(b: Bit4) -> bool
    ensures { result ≡ is_one b }
{
    match b {
        Bit4::One => true,
        Bit4::Zero | Bit4::X | Bit4::Z => false,
    }
}

/// Whether a condition is true by what is held: an unknown one isn't. Or want of memory.
#[tactic(auto, using(crate::proofs::Deciding::deciding))]
pub fn is_true<F: Fn(Held<'_>, usize, Vectors) -> Result<Vec4, AllocError>>(
    alloc: Global,
    around: Around<'_>,
    call: &F,
    on: &VExpr,
) -> Result<bool, AllocError>
    requires callable { F.IsAlwaysCallable call.now }
    requires right { Answers around.scope (F.post call.now) }
    requires narrow { most_alone (limits on.now) (scope_of around.scope) ≤ 128 }
    ensures { IfOk result (λ b. b ≡ means.is_true (meaning on.now) (scope_of around.entry.scope) (holds around.entry.held)) }
{
    let at = own(around.scope, on)?;
    let bits = value(alloc, around, call, on, at)?;
    Ok(is_set(truth(&bits)))
}

// Whether a bit is z.
fn is_impedance(b: Bit4) -> bool
    ensures { result ≡ means.is_z b }
{
    match b {
        Bit4::Z => true,
        Bit4::Zero | Bit4::One | Bit4::X => false,
    }
}

// Whether a bit is 0 or 1.
fn is_known_bit(b: Bit4) -> bool
    ensures { result ≡ known4 b }
{
    match b {
        Bit4::Zero | Bit4::One => true,
        Bit4::X | Bit4::Z => false,
    }
}

// Whether two bits are the same.
fn is_same(p: Bit4, q: Bit4) -> bool
    ensures { result ≡ same4 p q }
{
    p == q
}

// Whether a bit of a selector and one of an item match.
fn bits_match(kind: VCaseKind, p: Bit4, q: Bit4) -> bool
    ensures { result ≡ means.match4 kind p q }
{
    match kind {
        VCaseKind::Plain => is_same(p, q),
        VCaseKind::Z => is_same(p, q) || is_impedance(p) || is_impedance(q),
        VCaseKind::X => is_same(p, q) || !(is_known_bit(p) && is_known_bit(q)),
    }
}

/// Whether a selector and a value of an item match.
pub fn agree(kind: VCaseKind, selector: &Vec4, item: &Vec4) -> bool
    ensures { result ≡ means.agree kind selector.now item.now }
{
    selector
        .as_slice()
        .iter()
        .zip(item.as_slice())
        .all(|(p, q)| bits_match(kind, *p, *q))
}
