//! `for` loops.

ghost use Rattle.std.specs.Prelude.{◌≡◌, ◌≤◌, ℕ, false, pos, IfOk};
ghost use Rattle.b4_core.specs.Vectors.{vec};
ghost use Rattle.expr_type.specs.Answers.{Gives, source};
ghost use Rattle.expr_type.specs.Forms.{cast_expr};
ghost use Rattle.expr_type.specs.Names.{Context, spot};
ghost use Rattle.expr_type.specs.Operands as rule;
ghost use Rattle.expr_type.specs.Operators.{expr_at};
ghost use Rattle.expr_type.specs.Shapes as shape;
ghost use Rattle.expr_type.specs.Statements as statement;
ghost use Rattle.operand_types.specs.Allowed.{IsNarrow, IsNarrowExpr};
ghost use Rattle.pattern_types.specs.Meaning.{operand_of};
ghost use Rattle.sv_types.specs.Layouts.{width_of};
ghost use Rattle.sv_types.specs.declared.expression.Form.TheVariants as form;
ghost use Rattle.sv_types.specs.declared.statement.Stmt.TheVariants as made;
ghost use Rattle.stmt_forms.specs.Loops.{NarrowPlain, chosen_of, pattern_cast};

use b4_core::{Bit4, Vec4};
use eval_parts::is_signed;
use expr_type::{Halt, Source, Valued};
use given_types::may_give;
use operand_types::spot_at;
use pattern_types::{Operand, passed};
use std::alloc::{AllocError, Global};
use sv_source::{Boxed, Spot};
use sv_types::{Expr, Form, Stmt, SvType, width};
use type_kinds::{copy_type, one_bit, vector};

// An expression of a type at its first token.
fn expr_of(
    alloc: Global,
    text: Source<'_>,
    first: u32,
    of: SvType,
    form: Form,
) -> Result<Expr, AllocError>
    ensures { IfOk result (λ e. e ≡ expr_at (source text.entry) first of form) }
{
    let (spot, (of, form)) = pairs::both(spot_at(alloc, text, first), Ok((of, form)))?;
    Ok(Expr { of, spot, form })
}

// An expression that is cast to a type.
fn cast(
    alloc: Global,
    text: Source<'_>,
    first: u32,
    t: &SvType,
    e: Expr,
) -> Result<Expr, AllocError>
    ensures { IfOk result (λ c. c ≡ (cast_expr (source text.entry) first t.now e).expr) }
{
    let inner = Boxed::new(alloc, e)?;
    let t = copy_type(alloc, t)?;
    expr_of(alloc, text, first, t, Form::Cast(inner))
}

// A literal that is no longer than its bits.
fn literal(
    alloc: Global,
    text: Source<'_>,
    first: u32,
    of: SvType,
    bits: Vec4,
) -> Result<Expr, AllocError>
    ensures { IfOk result (λ e. e ≡ expr_at (source text.entry) first of (form.Literal bits false)) }
{
    let form = Form::Literal {
        bits,
        goes_on: false,
    };
    expr_of(alloc, text, first, of, form)
}

// So many zeros.
#[tactic(auto, using(crate::proofs::Zeros::zeros))]
fn zeros(alloc: Global, count: u32) -> Result<Vec4, AllocError>
    ensures { IfOk result (λ v. v ≡ vec count (pos 0)) }
{
    let mut bits = Vec::new(alloc);
    let mut left = count;
    while left > 0 {
        bits.push(Bit4::Zero)?;
        left -= 1;
    }
    Ok(Vec4::from_vec(bits))
}

// A test that is always true.
fn always(alloc: Global, text: Source<'_>, at: u32) -> Result<Expr, AllocError>
    ensures { (k : Context) → source text.entry ≡ k.source → IfOk result (λ e. e ≡ statement.always k at) }
{
    let mut bits = Vec::new(alloc);
    bits.push(Bit4::One)?;
    literal(alloc, text, at, one_bit(), Vec4::from_vec(bits))
}

// The arm of a `?:` that is never taken.
fn zero(
    alloc: Global,
    text: Source<'_>,
    at: u32,
    width: u32,
    signed: bool,
) -> Result<Expr, AllocError>
    ensures { IfOk result (λ e. e ≡ expr_at (source text.entry) at (shape.vector width signed) (form.Literal (vec width (pos 0)) false)) }
{
    let bits = zeros(alloc, width)?;
    let of = vector(alloc, width, signed)?;
    literal(alloc, text, at, of, bits)
}

// Parts of an expression on the heap.
fn three(alloc: Global, a: Expr, b: Expr, c: Expr) -> Result<Form, AllocError>
    ensures { IfOk result (λ f. f ≡ form.Choose a b c) }
{
    let two = pairs::both(Boxed::new(alloc, a), Boxed::new(alloc, b));
    let ((test, first), second) = pairs::both(two, Boxed::new(alloc, c))?;
    Ok(Form::Choose(test, first, second))
}

// A value as the arm of a `?:` of so many bits that is always taken.
fn chosen(alloc: Global, text: Source<'_>, at: u32, width: u32, e: Expr) -> Result<Expr, AllocError>
    ensures { (k : Context) → source text.entry ≡ k.source → IfOk result (λ c. c ≡ chosen_of k at width e) }
{
    let signed = is_signed(&e.of);
    let parts = pairs::both(
        always(alloc, text, at),
        zero(alloc, text, at, width, signed),
    );
    let ((test, other), e) = pairs::both(parts, Ok(e))?;
    let form = three(alloc, test, e, other);
    let (of, form) = pairs::both(vector(alloc, width, signed), form)?;
    expr_of(alloc, text, at, of, form)
}

// A value of at least so many bits.
fn widened(alloc: Global, text: Source<'_>, at: u32, bits: u32, e: Expr) -> Result<Expr, AllocError>
    requires { IsNarrowExpr e }
    ensures { (k : Context) → source text.entry ≡ k.source → IfOk result (λ c. c ≡ statement.widened k at bits e) }
{
    if width(&e.of) >= bits {
        return Ok(e);
    }
    chosen(alloc, text, at, bits, e)
}

// A first value that is no pattern.
#[tactic(auto, using(crate::proofs::Looping::looping))]
fn value_first(alloc: Global, text: Source<'_>, t: &SvType, v: Valued) -> Result<Expr, Halt>
    requires short { width_of t.now ≤ 65536 }
    requires narrow { IsNarrow v }
    ensures { (k : Context) → source text.entry ≡ k.source → Gives result (statement.loop_first k t.now (rule.Plain v)) }
{
    may_give(text, t, &v)?;
    let Valued { first, expr, .. } = v;
    let wide = widened(alloc, text, first, width(t), expr)?;
    Ok(cast(alloc, text, first, t, wide)?)
}

// A first value that is a pattern at its `'`.
#[tactic(auto, using(crate::proofs::Looping::looping))]
fn pattern_first(
    alloc: Global,
    text: Source<'_>,
    t: &SvType,
    tick: u32,
    o: Operand,
) -> Result<Expr, Halt>
    ensures { (k : Context) → source text.entry ≡ k.source → Gives result (pattern_cast k.source t.now tick (rule.passed k.source t.now (operand_of k.source o))) }
{
    let value = passed(alloc, text, t, o)?;
    Ok(cast(alloc, text, tick, t, value)?)
}

/// The first value of a loop's variable, of a type of at most 65,536 bits (IEEE 1800-2017 clause 12.7.1): a value has the width of the
/// variable at least and is converted to its type, as is a pattern, and no stream can stand there (E512).
#[tactic(auto, using(crate::proofs::Looping::firsts))]
pub fn loop_first(alloc: Global, text: Source<'_>, t: &SvType, o: Operand) -> Result<Expr, Halt>
    requires short { width_of t.now ≤ 65536 }
    requires narrow { NarrowPlain o }
    ensures { (k : Context) → source text.entry ≡ k.source → Gives result (statement.loop_first k t.now (operand_of k.source o)) }
{
    match o {
        Operand::Plain(v) => value_first(alloc, text, t, v),
        Operand::Pattern { tick, times, items } => {
            let pattern = Operand::Pattern { tick, times, items };
            pattern_first(alloc, text, t, tick, pattern)
        }
        Operand::Stream(v) => Err(Halt::Breaks {
            at: v.first,
            rule: 512,
        }),
    }
}

/// What a loop's head says.
#[derive(Drop)]
pub struct Head {
    /// The number of its variable.
    pub local: u32,
    /// Its first value.
    pub first: Expr,
    /// Whether another turn is made.
    pub test: Expr,
    /// Its value in the next turn.
    pub step: Expr,
}

// A loop by its parts.
fn loop_by(head: Head, body: Boxed<Stmt>, spot: Spot) -> Stmt
    ensures { result ≡ made.Loop head.local head.first head.test head.step body spot }
{
    let Head {
        local,
        first,
        test,
        step,
    } = head;
    Stmt::Loop {
        local,
        first,
        test,
        step,
        body,
        spot,
    }
}

/// A loop at its `for`.
pub fn loop_stmt(
    alloc: Global,
    text: Source<'_>,
    at: u32,
    head: Head,
    body: Stmt,
) -> Result<Stmt, AllocError>
    ensures { IfOk result (λ s. s ≡ made.Loop head.local head.first head.test head.step body (spot (source text.entry) at)) }
{
    let parts = pairs::both(Boxed::new(alloc, body), spot_at(alloc, text, at));
    let ((body, spot), head) = pairs::both(parts, Ok(head))?;
    Ok(loop_by(head, body, spot))
}
