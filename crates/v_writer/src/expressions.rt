//! The text of expressions and of targets.

ghost use Rattle.std.specs.Prelude.{◌≡◌, map};
ghost use Rattle.v_writer.specs.Sheets.{set};
ghost use Rattle.v_writer.specs.Layout.{unary_mark, binary_mark, extent_layout, perhaps, comma, listed, in_turn, sign_word, between, sel_layout, prim_layout, expr_layout, lval_layout};

use crate::page::Page;
use v_tree::{VBinaryOp, VExpr, VExtent, VLval, VPrim, VSel, VUnaryOp};

/// The mark of a unary operator.
fn unary_bytes(op: VUnaryOp) -> &'static [u8]
    ensures { result.now ≡ unary_mark op }
{
    match op {
        VUnaryOp::Not => b"~",
        VUnaryOp::LogicalNot => b"!",
        VUnaryOp::Neg => b"-",
        VUnaryOp::And => b"&",
        VUnaryOp::Nand => b"~&",
        VUnaryOp::Or => b"|",
        VUnaryOp::Nor => b"~|",
        VUnaryOp::Xor => b"^",
        VUnaryOp::Xnor => b"~^",
    }
}

/// The mark of a binary operator.
fn binary_bytes(op: VBinaryOp) -> &'static [u8]
    ensures { result.now ≡ binary_mark op }
{
    match op {
        VBinaryOp::Add => b"+",
        VBinaryOp::Sub => b"-",
        VBinaryOp::Mul => b"*",
        VBinaryOp::Div => b"/",
        VBinaryOp::Rem => b"%",
        VBinaryOp::Power => b"**",
        VBinaryOp::ShiftLeft => b"<<",
        VBinaryOp::ShiftRight => b">>",
        VBinaryOp::ArithmeticLeft => b"<<<",
        VBinaryOp::ArithmeticRight => b">>>",
        VBinaryOp::Less => b"<",
        VBinaryOp::LessEqual => b"<=",
        VBinaryOp::Greater => b">",
        VBinaryOp::GreaterEqual => b">=",
        VBinaryOp::Equal => b"==",
        VBinaryOp::NotEqual => b"!=",
        VBinaryOp::CaseEqual => b"===",
        VBinaryOp::CaseNotEqual => b"!==",
        VBinaryOp::And => b"&",
        VBinaryOp::Or => b"|",
        VBinaryOp::Xor => b"^",
        VBinaryOp::Xnor => b"~^",
        VBinaryOp::LogicalAnd => b"&&",
        VBinaryOp::LogicalOr => b"||",
    }
}

/// Writes what stands behind the base of a select.
#[tactic(auto, using(crate::proofs::Layouts::writing))]
fn write_extent(extent: Option<VExtent>, page: &mut Page)
    ensures { page.new ≡ set page.old (perhaps extent_layout extent) }
{
    match extent {
        None => {}
        Some(VExtent::Down(right)) => {
            page.mark(b":");
            page.whole(right);
        }
        Some(VExtent::Up(width)) => {
            page.space();
            page.mark(b"+:");
            page.space();
            page.whole(width);
        }
    }
}

/// Writes a select.
#[cycle(write_expr)]
#[tactic(auto, using(crate::proofs::Layouts::writing))]
fn write_sel(sel: &VSel, page: &mut Page)
    ensures { page.new ≡ set page.old (sel_layout sel.now) }
{
    page.mark(b"[");
    match sel {
        VSel::Decimal { base, extent } => {
            page.whole(*base);
            write_extent(*extent, page);
        }
        VSel::Expr { base, extent } => {
            write_expr(base.get(), page);
            write_extent(*extent, page);
        }
    }
    page.mark(b"]");
}

/// Writes selects.
#[cycle(write_expr)]
#[tactic(auto, using(crate::proofs::Layouts::writing))]
fn write_sels(sels: &[VSel], page: &mut Page)
    ensures { page.new ≡ set page.old (in_turn (map sel_layout sels.now)) }
{
    for sel in sels {
        write_sel(sel, page);
    }
}

/// Writes a comma and a space, but before the first one of a list.
#[tactic(auto, using(crate::proofs::Layouts::writing))]
pub fn write_comma(first: bool, page: &mut Page)
    ensures { page.new ≡ set page.old (comma first) }
{
    if !first {
        page.mark(b",");
        page.space();
    }
}

/// Writes expressions with commas between.
#[cycle(write_expr)]
#[tactic(auto, using(crate::proofs::Layouts::writing))]
pub fn write_list(exprs: &[VExpr], page: &mut Page)
    ensures { page.new ≡ set page.old (listed (map expr_layout exprs.now)) }
{
    let mut first = true;
    for expr in exprs {
        write_comma(first, page);
        write_expr(expr, page);
        first = false;
    }
}

/// The word of a change of sign.
fn sign_bytes(signed: bool) -> &'static [u8]
    ensures { result.now ≡ sign_word signed }
{
    if signed { b"$signed" } else { b"$unsigned" }
}

/// Writes an operand.
#[cycle(write_expr)]
#[tactic(auto, using(crate::proofs::Layouts::writing))]
fn write_prim(prim: &VPrim, page: &mut Page)
    ensures { page.new ≡ set page.old (prim_layout prim.now) }
{
    match prim {
        VPrim::Number(bits) => page.number(bits),
        VPrim::Paren(inner) => {
            page.mark(b"(");
            write_expr(inner.get(), page);
            page.mark(b")");
        }
        VPrim::Name { name, sels } => {
            page.name(name);
            write_sels(sels.as_slice(), page);
        }
        VPrim::Call { function, args } => {
            page.name(function);
            page.mark(b"(");
            write_list(args.as_slice(), page);
            page.mark(b")");
        }
        VPrim::Repeat { count, items } => {
            page.mark(b"{");
            page.whole(*count);
            page.mark(b"{");
            write_list(items.as_slice(), page);
            page.mark(b"}");
            page.mark(b"}");
        }
        VPrim::Concat(items) => {
            page.mark(b"{");
            write_list(items.as_slice(), page);
            page.mark(b"}");
        }
        VPrim::Sign { signed, of } => {
            page.word(sign_bytes(*signed));
            page.mark(b"(");
            write_expr(of.get(), page);
            page.mark(b")");
        }
    }
}

/// Writes a mark with a space on either side.
#[tactic(auto, using(crate::proofs::Layouts::writing))]
fn write_between(mark: &[u8], page: &mut Page)
    ensures { page.new ≡ set page.old (between mark.now) }
{
    page.space();
    page.mark(mark);
    page.space();
}

/// Writes an expression.
#[cycle(write_expr)]
#[tactic(auto, using(crate::proofs::Layouts::writing))]
pub fn write_expr(expr: &VExpr, page: &mut Page)
    ensures { page.new ≡ set page.old (expr_layout expr.now) }
{
    match expr {
        VExpr::Prim(prim) => write_prim(prim, page),
        VExpr::Unary { op, of } => {
            page.mark(unary_bytes(*op));
            write_prim(of, page);
        }
        VExpr::Binary { op, left, right } => {
            write_prim(left, page);
            write_between(binary_bytes(*op), page);
            write_prim(right, page);
        }
        VExpr::Choose { on, then, other } => {
            write_prim(on, page);
            write_between(b"?", page);
            write_prim(then, page);
            write_between(b":", page);
            write_prim(other, page);
        }
    }
}

/// Writes targets with commas between.
#[cycle(write_lval)]
#[tactic(auto, using(crate::proofs::Layouts::writing))]
fn write_lvals(lvals: &[VLval], page: &mut Page)
    ensures { page.new ≡ set page.old (listed (map lval_layout lvals.now)) }
{
    let mut first = true;
    for lval in lvals {
        write_comma(first, page);
        write_lval(lval, page);
        first = false;
    }
}

/// Writes a target.
#[cycle(write_lval)]
#[tactic(auto, using(crate::proofs::Layouts::writing))]
pub fn write_lval(lval: &VLval, page: &mut Page)
    ensures { page.new ≡ set page.old (lval_layout lval.now) }
{
    match lval {
        VLval::Name { name, sels } => {
            page.name(name);
            write_sels(sels.as_slice(), page);
        }
        VLval::Concat(parts) => {
            page.mark(b"{");
            write_lvals(parts.as_slice(), page);
            page.mark(b"}");
        }
    }
}
