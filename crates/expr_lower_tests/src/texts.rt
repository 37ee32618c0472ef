//! The texts of target expressions, without spaces.

use crate::marks::{binary_mark, unary_mark};
use std::alloc::AllocError;
use sv_source::Text;
use tree_words::put_bits;
use v_tree::{VExpr, VExtent, VPrim, VSel};

/// Puts a name.
pub fn put_name(name: &Text, to: &mut String) -> Result<(), AllocError> {
    for byte in name.as_bytes() {
        to.push(char::from(*byte))?;
    }
    Ok(())
}

/// Puts a decimal number.
pub fn put_number(n: u32, to: &mut String) -> Result<(), AllocError> {
    let text = format!(in *to.allocator(); "{n}")?;
    to.push_str(&text)
}

fn put_extent(extent: Option<VExtent>, to: &mut String) -> Result<(), AllocError> {
    match extent {
        None => Ok(()),
        Some(VExtent::Down(right)) => {
            to.push(':')?;
            put_number(right, to)
        }
        Some(VExtent::Up(width)) => {
            to.push_str("+:")?;
            put_number(width, to)
        }
    }
}

#[cycle(put)]
fn put_sel(sel: &VSel, to: &mut String) -> Result<(), AllocError> {
    to.push('[')?;
    match sel {
        VSel::Decimal { base, extent } => {
            put_number(*base, to)?;
            put_extent(*extent, to)?;
        }
        VSel::Expr { base, extent } => {
            put_expr(base.get(), to)?;
            put_extent(*extent, to)?;
        }
    }
    to.push(']')
}

/// Puts selects.
#[cycle(put)]
pub fn put_sels(sels: &[VSel], to: &mut String) -> Result<(), AllocError> {
    for sel in sels {
        put_sel(sel, to)?;
    }
    Ok(())
}

#[cycle(put)]
fn put_list(exprs: &[VExpr], to: &mut String) -> Result<(), AllocError> {
    let mut first = true;
    for expr in exprs {
        if !first {
            to.push(',')?;
        }
        put_expr(expr, to)?;
        first = false;
    }
    Ok(())
}

#[cycle(put)]
fn put_prim(prim: &VPrim, to: &mut String) -> Result<(), AllocError> {
    match prim {
        VPrim::Number(bits) => {
            to.push('\'')?;
            put_bits(bits, to)
        }
        VPrim::Paren(inner) => {
            to.push('(')?;
            put_expr(inner.get(), to)?;
            to.push(')')
        }
        VPrim::Name { name, sels } => {
            put_name(name, to)?;
            put_sels(sels.as_slice(), to)
        }
        VPrim::Call { function, args } => {
            put_name(function, to)?;
            to.push('(')?;
            put_list(args.as_slice(), to)?;
            to.push(')')
        }
        VPrim::Repeat { count, items } => {
            to.push('{')?;
            put_number(*count, to)?;
            to.push('{')?;
            put_list(items.as_slice(), to)?;
            to.push_str("}}")
        }
        VPrim::Concat(items) => {
            to.push('{')?;
            put_list(items.as_slice(), to)?;
            to.push('}')
        }
        VPrim::Sign { signed, of } => {
            to.push_str(if *signed { "$signed(" } else { "$unsigned(" })?;
            put_expr(of.get(), to)?;
            to.push(')')
        }
    }
}

/// Puts an expression.
#[cycle(put)]
pub fn put_expr(expr: &VExpr, to: &mut String) -> Result<(), AllocError> {
    match expr {
        VExpr::Prim(prim) => put_prim(prim, to),
        VExpr::Unary { op, of } => {
            to.push_str(unary_mark(*op))?;
            put_prim(of, to)
        }
        VExpr::Binary { op, left, right } => {
            put_prim(left, to)?;
            to.push_str(binary_mark(*op))?;
            put_prim(right, to)
        }
        VExpr::Choose { on, then, other } => {
            put_prim(on, to)?;
            to.push('?')?;
            put_prim(then, to)?;
            to.push(':')?;
            put_prim(other, to)
        }
    }
}
