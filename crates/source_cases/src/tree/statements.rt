//! Statements.

use crate::tree::declarations::{print_declarators, print_parameter_declaration};
use crate::tree::expressions::{print_expr, print_exprs, print_selects, print_slice_size};
use crate::tree::operators::{assignment_operator_name, step_operator_name, stream_operator_name};
use crate::tree::printer::Printer;
use crate::tree::types::print_type_text;
use crate::tree::words::{
    print_case_keyword, print_label, print_qualified_name, print_unique_priority,
};
use sv_tree::{BlockItem, CaseItem, Else, LoopStart, LoopStep, Lvalue, Stmt};

/// Prints a target.
#[cycle(lvalue)]
pub fn print_lvalue(lvalue: &Lvalue, out: &mut Printer) {
    match lvalue {
        Lvalue::Name { name, selects } => {
            out.open("Name");
            out.token(*name);
            print_selects(selects.as_slice(), out);
            out.close();
        }
        Lvalue::Concatenation {
            opening,
            targets,
            closing,
        } => {
            out.open("Concatenation");
            out.token(*opening);
            print_lvalues(targets.as_slice(), out);
            out.token(*closing);
            out.close();
        }
        Lvalue::Stream {
            opening,
            operator,
            at,
            size,
            inner_opening,
            targets,
            inner_closing,
            closing,
        } => {
            out.open("Stream");
            out.token(*opening);
            out.word(stream_operator_name(*operator));
            out.token(*at);
            if let Some(size) = size {
                print_slice_size(size, out);
            }
            out.token(*inner_opening);
            print_lvalues(targets.as_slice(), out);
            out.tokens(&[*inner_closing, *closing]);
            out.close();
        }
    }
}

/// Prints the variable of a loop, with its first value.
pub fn print_loop_start(loop_start: &LoopStart, out: &mut Printer) {
    out.open("LoopStart");
    print_type_text(&loop_start.of, out);
    out.tokens(&[loop_start.name, loop_start.equals]);
    print_expr(&loop_start.value, out);
    out.close();
}

/// Prints the step of a loop.
pub fn print_loop_step(loop_step: &LoopStep, out: &mut Printer) {
    match loop_step {
        LoopStep::Assign {
            name,
            operator,
            at,
            value,
        } => {
            out.open("Assign");
            out.token(*name);
            out.word(assignment_operator_name(*operator));
            out.token(*at);
            print_expr(value, out);
            out.close();
        }
        LoopStep::Postfix { name, operator, at } => {
            out.open("Postfix");
            out.token(*name);
            out.word(step_operator_name(*operator));
            out.token(*at);
            out.close();
        }
        LoopStep::Prefix { operator, at, name } => {
            out.open("Prefix");
            out.word(step_operator_name(*operator));
            out.tokens(&[*at, *name]);
            out.close();
        }
    }
}

/// Prints a case item.
#[cycle(stmt)]
pub fn print_case_item(case_item: &CaseItem, out: &mut Printer) {
    match case_item {
        CaseItem::Values {
            values,
            colon,
            body,
        } => {
            out.line("Values");
            print_exprs(values.as_slice(), out);
            out.token(*colon);
            print_stmt(body, out);
            out.close();
        }
        CaseItem::Default {
            keyword,
            colon,
            body,
        } => {
            out.line("Default");
            out.token(*keyword);
            out.maybe(*colon);
            print_stmt(body, out);
            out.close();
        }
    }
}

/// Prints an `else`.
#[cycle(stmt)]
pub fn print_else(other: &Else, out: &mut Printer) {
    out.line("Else");
    out.token(other.keyword);
    print_stmt(&other.body, out);
    out.close();
}

/// Prints a block item.
#[cycle(stmt)]
pub fn print_block_item(block_item: &BlockItem, out: &mut Printer) {
    match block_item {
        BlockItem::Statement(inner) => print_stmt(inner, out),
        BlockItem::Parameters(inner) => print_parameter_declaration(inner, out),
        BlockItem::Variables {
            automatic,
            var,
            of,
            declarators,
            semicolon,
        } => {
            out.line("Variables");
            out.maybe(*automatic);
            out.maybe(*var);
            print_type_text(of, out);
            print_declarators(declarators.as_slice(), out);
            out.token(*semicolon);
            out.close();
        }
        BlockItem::NamedVariables {
            of,
            selects,
            declarators,
            semicolon,
        } => {
            out.line("NamedVariables");
            out.token(*of);
            print_selects(selects.as_slice(), out);
            print_declarators(declarators.as_slice(), out);
            out.token(*semicolon);
            out.close();
        }
    }
}

/// Prints a statement.
#[cycle(stmt)]
pub fn print_stmt(stmt: &Stmt, out: &mut Printer) {
    match stmt {
        Stmt::Block {
            begin,
            label,
            items,
            end,
            end_label,
        } => {
            out.line("Block");
            out.token(*begin);
            if let Some(label) = label {
                print_label(label, out);
            }
            print_block_items(items.as_slice(), out);
            out.token(*end);
            if let Some(end_label) = end_label {
                print_label(end_label, out);
            }
            out.close();
        }
        Stmt::If {
            promise,
            keyword,
            opening,
            test,
            closing,
            body,
            other,
        } => {
            out.line("If");
            if let Some(promise) = promise {
                print_unique_priority(promise, out);
            }
            out.tokens(&[*keyword, *opening]);
            print_expr(test, out);
            out.token(*closing);
            print_stmt(body.get(), out);
            if let Some(other) = other {
                print_else(other.get(), out);
            }
            out.close();
        }
        Stmt::Case {
            promise,
            keyword,
            opening,
            value,
            closing,
            items,
            end,
        } => {
            out.line("Case");
            if let Some(promise) = promise {
                print_unique_priority(promise, out);
            }
            print_case_keyword(keyword, out);
            out.token(*opening);
            print_expr(value, out);
            out.token(*closing);
            print_case_items(items.as_slice(), out);
            out.token(*end);
            out.close();
        }
        Stmt::For {
            keyword,
            opening,
            first,
            first_semicolon,
            test,
            test_semicolon,
            step,
            closing,
            body,
        } => {
            out.line("For");
            out.tokens(&[*keyword, *opening]);
            print_loop_start(first, out);
            out.token(*first_semicolon);
            print_expr(test, out);
            out.token(*test_semicolon);
            print_loop_step(step, out);
            out.token(*closing);
            print_stmt(body.get(), out);
            out.close();
        }
        Stmt::Break { keyword, semicolon } => out.line_leaf("Break", &[*keyword, *semicolon]),
        Stmt::Continue { keyword, semicolon } => out.line_leaf("Continue", &[*keyword, *semicolon]),
        Stmt::Return {
            keyword,
            value,
            semicolon,
        } => {
            out.line("Return");
            out.token(*keyword);
            if let Some(value) = value {
                print_expr(value, out);
            }
            out.token(*semicolon);
            out.close();
        }
        Stmt::Call {
            of,
            opening,
            arguments,
            closing,
            semicolon,
        } => {
            out.line("Call");
            print_qualified_name(of, out);
            out.token(*opening);
            print_exprs(arguments.as_slice(), out);
            out.tokens(&[*closing, *semicolon]);
            out.close();
        }
        Stmt::Assign {
            target,
            operator,
            at,
            value,
            semicolon,
        } => {
            out.line("Assign");
            print_lvalue(target, out);
            out.word(assignment_operator_name(*operator));
            out.token(*at);
            print_expr(value, out);
            out.token(*semicolon);
            out.close();
        }
        Stmt::Postfix {
            name,
            selects,
            operator,
            at,
            semicolon,
        } => {
            out.line("Postfix");
            out.token(*name);
            print_selects(selects.as_slice(), out);
            out.word(step_operator_name(*operator));
            out.tokens(&[*at, *semicolon]);
            out.close();
        }
        Stmt::Prefix {
            operator,
            at,
            name,
            selects,
            semicolon,
        } => {
            out.line("Prefix");
            out.word(step_operator_name(*operator));
            out.tokens(&[*at, *name]);
            print_selects(selects.as_slice(), out);
            out.token(*semicolon);
            out.close();
        }
        Stmt::Empty { semicolon } => out.line_leaf("Empty", &[*semicolon]),
    }
}

/// Prints block items.
#[cycle(stmt)]
pub fn print_block_items(block_items: &[BlockItem], out: &mut Printer) {
    for block_item in block_items {
        print_block_item(block_item, out);
    }
}

/// Prints case items.
#[cycle(stmt)]
pub fn print_case_items(case_items: &[CaseItem], out: &mut Printer) {
    for case_item in case_items {
        print_case_item(case_item, out);
    }
}

/// Prints targets.
#[cycle(lvalue)]
pub fn print_lvalues(lvalues: &[Lvalue], out: &mut Printer) {
    for lvalue in lvalues {
        print_lvalue(lvalue, out);
    }
}
