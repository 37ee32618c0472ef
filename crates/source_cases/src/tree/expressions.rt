//! Expressions.

use crate::tree::operators::{
    binary_operator_name, part_operator_name, stream_operator_name, type_keyword_name,
    unary_operator_name,
};
use crate::tree::printer::Printer;
use crate::tree::words::{print_qualified_name, print_signing};
use sv_tree::{
    Cast, Dimension, Expr, KeywordType, Pattern, PatternItem, Select, SliceSize, ValueRange,
};

/// Prints a type that one word names.
pub fn print_keyword_type(keyword_type: &KeywordType, out: &mut Printer) {
    out.open(type_keyword_name(keyword_type.keyword));
    out.token(keyword_type.at);
    if let Some(signing) = &keyword_type.signing {
        print_signing(signing, out);
    }
    out.close();
}

/// Prints dimensions.
#[cycle(expr)]
pub fn print_dimensions(dimensions: &[Dimension], out: &mut Printer) {
    for dimension in dimensions {
        match dimension {
            Dimension::Size {
                opening,
                size,
                closing,
            } => {
                out.open("Size");
                out.token(*opening);
                print_expr(size, out);
                out.token(*closing);
                out.close();
            }
            Dimension::Range {
                opening,
                left,
                colon,
                right,
                closing,
            } => {
                out.open("Range");
                out.token(*opening);
                print_expr(left, out);
                out.token(*colon);
                print_expr(right, out);
                out.token(*closing);
                out.close();
            }
        }
    }
}

/// Prints selects.
#[cycle(expr)]
pub fn print_selects(selects: &[Select], out: &mut Printer) {
    for select in selects {
        match select {
            Select::Member { dot, name } => out.leaf("Member", &[*dot, *name]),
            Select::Index {
                opening,
                index,
                closing,
            } => {
                out.open("Index");
                out.token(*opening);
                print_expr(index, out);
                out.token(*closing);
                out.close();
            }
            Select::Part {
                opening,
                left,
                operator,
                at,
                right,
                closing,
            } => {
                out.open("Part");
                out.token(*opening);
                print_expr(left, out);
                out.word(part_operator_name(*operator));
                out.token(*at);
                print_expr(right, out);
                out.token(*closing);
                out.close();
            }
        }
    }
}

/// Prints the items on the right of `inside`.
#[cycle(expr)]
pub fn print_value_ranges(value_ranges: &[ValueRange], out: &mut Printer) {
    for value_range in value_ranges {
        match value_range {
            ValueRange::Value(inner) => print_expr(inner, out),
            ValueRange::Range {
                opening,
                low,
                colon,
                high,
                closing,
            } => {
                out.open("Range");
                out.token(*opening);
                print_expr(low, out);
                out.token(*colon);
                print_expr(high, out);
                out.token(*closing);
                out.close();
            }
        }
    }
}

/// Prints the items of a pattern.
#[cycle(expr)]
pub fn print_pattern_items(pattern_items: &[PatternItem], out: &mut Printer) {
    for pattern_item in pattern_items {
        match pattern_item {
            PatternItem::Default {
                keyword,
                colon,
                value,
            } => {
                out.open("Default");
                out.tokens(&[*keyword, *colon]);
                print_expr(value, out);
                out.close();
            }
            PatternItem::Keyed { key, colon, value } => {
                out.open("Keyed");
                print_expr(key, out);
                out.token(*colon);
                print_expr(value, out);
                out.close();
            }
            PatternItem::Value(inner) => print_expr(inner, out),
        }
    }
}

/// Prints a pattern.
#[cycle(expr)]
pub fn print_pattern(pattern: &Pattern, out: &mut Printer) {
    match pattern {
        Pattern::Items(items) => {
            out.open("Items");
            print_pattern_items(items.as_slice(), out);
            out.close();
        }
        Pattern::Replication {
            count,
            opening,
            items,
            closing,
        } => {
            out.open("Replication");
            print_expr(count.get(), out);
            out.token(*opening);
            print_exprs(items.as_slice(), out);
            out.token(*closing);
            out.close();
        }
    }
}

/// Prints a cast.
#[cycle(expr)]
pub fn print_cast(cast: &Cast, out: &mut Printer) {
    match cast {
        Cast::Value {
            tick,
            opening,
            value,
            closing,
        } => {
            out.open("Value");
            out.tokens(&[*tick, *opening]);
            print_expr(value.get(), out);
            out.token(*closing);
            out.close();
        }
        Cast::Pattern {
            tick,
            opening,
            pattern,
            closing,
        } => {
            out.open("Pattern");
            out.tokens(&[*tick, *opening]);
            print_pattern(pattern, out);
            out.token(*closing);
            out.close();
        }
    }
}

/// Prints a slice size.
#[cycle(expr)]
pub fn print_slice_size(slice_size: &SliceSize, out: &mut Printer) {
    match slice_size {
        SliceSize::Decimal { digits } => out.leaf("Decimal", &[*digits]),
        SliceSize::Keyword(inner) => print_keyword_type(inner, out),
        SliceSize::Name(inner) => print_qualified_name(inner, out),
        SliceSize::Parenthesized {
            opening,
            value,
            closing,
        } => {
            out.open("Parenthesized");
            out.token(*opening);
            print_expr(value.get(), out);
            out.token(*closing);
            out.close();
        }
    }
}

/// Prints an expression.
#[cycle(expr)]
pub fn print_expr(expr: &Expr, out: &mut Printer) {
    match expr {
        Expr::Conditional {
            test,
            question,
            first,
            colon,
            second,
        } => {
            out.open("Conditional");
            print_expr(test.get(), out);
            out.token(*question);
            print_expr(first.get(), out);
            out.token(*colon);
            print_expr(second.get(), out);
            out.close();
        }
        Expr::Binary {
            left,
            operator,
            at,
            right,
        } => {
            out.open("Binary");
            print_expr(left.get(), out);
            out.word(binary_operator_name(*operator));
            out.token(*at);
            print_expr(right.get(), out);
            out.close();
        }
        Expr::Inside {
            value,
            keyword,
            opening,
            ranges,
            closing,
        } => {
            out.open("Inside");
            print_expr(value.get(), out);
            out.tokens(&[*keyword, *opening]);
            print_value_ranges(ranges.as_slice(), out);
            out.token(*closing);
            out.close();
        }
        Expr::Unary {
            operator,
            at,
            operand,
        } => {
            out.open("Unary");
            out.word(unary_operator_name(*operator));
            out.token(*at);
            print_expr(operand.get(), out);
            out.close();
        }
        Expr::Decimal { digits } => out.leaf("Decimal", &[*digits]),
        Expr::Sized { size, digits } => out.leaf("Sized", &[*size, *digits]),
        Expr::SizeCast { size, cast } => {
            out.open("SizeCast");
            out.token(*size);
            print_cast(cast.get(), out);
            out.close();
        }
        Expr::Based { digits } => out.leaf("Based", &[*digits]),
        Expr::Fill { digit } => out.leaf("Fill", &[*digit]),
        Expr::Parenthesized {
            opening,
            value,
            closing,
            cast,
        } => {
            out.open("Parenthesized");
            out.token(*opening);
            print_expr(value.get(), out);
            out.token(*closing);
            if let Some(cast) = cast {
                print_cast(cast.get(), out);
            }
            out.close();
        }
        Expr::Replication {
            opening,
            count,
            inner_opening,
            items,
            inner_closing,
            closing,
        } => {
            out.open("Replication");
            out.token(*opening);
            print_expr(count.get(), out);
            out.token(*inner_opening);
            print_exprs(items.as_slice(), out);
            out.tokens(&[*inner_closing, *closing]);
            out.close();
        }
        Expr::Concatenation {
            opening,
            items,
            closing,
        } => {
            out.open("Concatenation");
            out.token(*opening);
            print_exprs(items.as_slice(), out);
            out.token(*closing);
            out.close();
        }
        Expr::Stream {
            opening,
            operator,
            at,
            size,
            inner_opening,
            items,
            inner_closing,
            closing,
        } => {
            out.open("Stream");
            out.token(*opening);
            out.word(stream_operator_name(*operator));
            out.token(*at);
            if let Some(size) = size {
                print_slice_size(size.get(), out);
            }
            out.token(*inner_opening);
            print_exprs(items.as_slice(), out);
            out.tokens(&[*inner_closing, *closing]);
            out.close();
        }
        Expr::Pattern {
            tick,
            opening,
            pattern,
            closing,
        } => {
            out.open("Pattern");
            out.tokens(&[*tick, *opening]);
            print_pattern(pattern.get(), out);
            out.token(*closing);
            out.close();
        }
        Expr::Type { of, packed, cast } => {
            out.open("Type");
            print_keyword_type(of, out);
            print_dimensions(packed.as_slice(), out);
            if let Some(cast) = cast {
                print_cast(cast.get(), out);
            }
            out.close();
        }
        Expr::SigningCast { signing, cast } => {
            out.open("SigningCast");
            print_signing(signing, out);
            print_cast(cast.get(), out);
            out.close();
        }
        Expr::SystemCall {
            name,
            opening,
            argument,
            closing,
        } => {
            out.open("SystemCall");
            out.tokens(&[*name, *opening]);
            print_expr(argument.get(), out);
            out.token(*closing);
            out.close();
        }
        Expr::Call {
            of,
            opening,
            arguments,
            closing,
            cast,
        } => {
            out.open("Call");
            print_qualified_name(of, out);
            out.token(*opening);
            print_exprs(arguments.as_slice(), out);
            out.token(*closing);
            if let Some(cast) = cast {
                print_cast(cast.get(), out);
            }
            out.close();
        }
        Expr::Name { of, selects, cast } => {
            out.open("Name");
            print_qualified_name(of, out);
            print_selects(selects.as_slice(), out);
            if let Some(cast) = cast {
                print_cast(cast.get(), out);
            }
            out.close();
        }
    }
}

/// Prints expressions.
#[cycle(expr)]
pub fn print_exprs(exprs: &[Expr], out: &mut Printer) {
    for expr in exprs {
        print_expr(expr, out);
    }
}
