//! Functions, tasks and the items of modules.

use crate::tree::declarations::{
    print_data_declaration, print_genvar_declaration, print_import, print_parameter_declaration,
};
use crate::tree::expressions::{print_dimensions, print_expr, print_exprs};
use crate::tree::instances::{print_instantiation, print_modport_declaration};
use crate::tree::ports::print_formal_list;
use crate::tree::printer::Printer;
use crate::tree::processes::{print_always, print_continuous_assign};
use crate::tree::statements::{print_block_items, print_loop_step};
use crate::tree::types::{print_type_declaration, print_type_text};
use crate::tree::words::{print_label, print_lifetime};
use sv_tree::{
    CaseGenerateItem, Function, FunctionResult, GenerateBlock, GenerateElse, GenerateLoop, Item,
    Task,
};

/// Prints what a function gives.
pub fn print_function_result(function_result: &FunctionResult, out: &mut Printer) {
    match function_result {
        FunctionResult::Void { keyword } => out.leaf("Void", &[*keyword]),
        FunctionResult::Value(inner) => print_type_text(inner, out),
    }
}

/// Prints a function.
pub fn print_function(function: &Function, out: &mut Printer) {
    out.line("Function");
    out.token(function.keyword);
    if let Some(lifetime) = &function.lifetime {
        print_lifetime(lifetime, out);
    }
    print_function_result(&function.of, out);
    out.token(function.name);
    print_dimensions(function.unpacked.as_slice(), out);
    if let Some(formals) = &function.formals {
        print_formal_list(formals, out);
    }
    out.token(function.semicolon);
    print_block_items(function.items.as_slice(), out);
    out.token(function.end);
    if let Some(end_label) = &function.end_label {
        print_label(end_label, out);
    }
    out.close();
}

/// Prints a task.
pub fn print_task(task: &Task, out: &mut Printer) {
    out.line("Task");
    out.token(task.keyword);
    if let Some(lifetime) = &task.lifetime {
        print_lifetime(lifetime, out);
    }
    out.token(task.name);
    if let Some(formals) = &task.formals {
        print_formal_list(formals, out);
    }
    out.token(task.semicolon);
    print_block_items(task.items.as_slice(), out);
    out.token(task.end);
    if let Some(end_label) = &task.end_label {
        print_label(end_label, out);
    }
    out.close();
}

/// Prints what stands between the parentheses of a generate loop.
pub fn print_generate_loop(generate_loop: &GenerateLoop, out: &mut Printer) {
    out.open("GenerateLoop");
    out.maybe(generate_loop.genvar);
    out.tokens(&[generate_loop.name, generate_loop.equals]);
    print_expr(&generate_loop.first, out);
    out.token(generate_loop.first_semicolon);
    print_expr(&generate_loop.test, out);
    out.token(generate_loop.test_semicolon);
    print_loop_step(&generate_loop.step, out);
    out.close();
}

/// Prints an item of a generate `case`.
#[cycle(item)]
pub fn print_case_generate_item(case_generate_item: &CaseGenerateItem, out: &mut Printer) {
    match case_generate_item {
        CaseGenerateItem::Values {
            values,
            colon,
            body,
        } => {
            out.line("Values");
            print_exprs(values.as_slice(), out);
            out.token(*colon);
            print_generate_block(body, out);
            out.close();
        }
        CaseGenerateItem::Default {
            keyword,
            colon,
            body,
        } => {
            out.line("Default");
            out.token(*keyword);
            out.maybe(*colon);
            print_generate_block(body, out);
            out.close();
        }
    }
}

/// Prints the `else` of a generate construct.
#[cycle(item)]
pub fn print_generate_else(other: &GenerateElse, out: &mut Printer) {
    out.line("GenerateElse");
    out.token(other.keyword);
    print_generate_block(&other.body, out);
    out.close();
}

/// Prints a generate block.
#[cycle(item)]
pub fn print_generate_block(generate_block: &GenerateBlock, out: &mut Printer) {
    match generate_block {
        GenerateBlock::Block {
            begin,
            label,
            items,
            end,
            end_label,
        } => {
            out.line("Block");
            out.token(*begin);
            if let Some(label) = label {
                print_label(label, out);
            }
            print_module_items(items.as_slice(), out);
            out.token(*end);
            if let Some(end_label) = end_label {
                print_label(end_label, out);
            }
            out.close();
        }
        GenerateBlock::Single(inner) => print_item(inner.get(), out),
    }
}

/// Prints an item.
#[cycle(item)]
pub fn print_item(item: &Item, out: &mut Printer) {
    match item {
        Item::Parameters(inner) => print_parameter_declaration(inner, out),
        Item::Typedef(inner) => print_type_declaration(inner, out),
        Item::Import(inner) => print_import(inner, out),
        Item::Function(inner) => print_function(inner, out),
        Item::Task(inner) => print_task(inner, out),
        Item::Data(inner) => print_data_declaration(inner, out),
        Item::Genvars(inner) => print_genvar_declaration(inner, out),
        Item::Assign(inner) => print_continuous_assign(inner, out),
        Item::Always(inner) => print_always(inner, out),
        Item::Generate {
            keyword,
            items,
            end,
        } => {
            out.line("Generate");
            out.token(*keyword);
            print_module_items(items.as_slice(), out);
            out.token(*end);
            out.close();
        }
        Item::LoopGenerate {
            keyword,
            opening,
            control,
            closing,
            body,
        } => {
            out.line("LoopGenerate");
            out.tokens(&[*keyword, *opening]);
            print_generate_loop(control, out);
            out.token(*closing);
            print_generate_block(body.get(), out);
            out.close();
        }
        Item::IfGenerate {
            keyword,
            opening,
            test,
            closing,
            body,
            other,
        } => {
            out.line("IfGenerate");
            out.tokens(&[*keyword, *opening]);
            print_expr(test, out);
            out.token(*closing);
            print_generate_block(body.get(), out);
            if let Some(other) = other {
                print_generate_else(other.get(), out);
            }
            out.close();
        }
        Item::CaseGenerate {
            keyword,
            opening,
            value,
            closing,
            items,
            end,
        } => {
            out.line("CaseGenerate");
            out.tokens(&[*keyword, *opening]);
            print_expr(value, out);
            out.token(*closing);
            print_case_generate_items(items.as_slice(), out);
            out.token(*end);
            out.close();
        }
        Item::Modports(inner) => print_modport_declaration(inner, out),
        Item::Instances(inner) => print_instantiation(inner, out),
        Item::Empty { semicolon } => out.line_leaf("Empty", &[*semicolon]),
    }
}

/// Prints the items of a generate `case`.
#[cycle(item)]
pub fn print_case_generate_items(case_generate_items: &[CaseGenerateItem], out: &mut Printer) {
    for case_generate_item in case_generate_items {
        print_case_generate_item(case_generate_item, out);
    }
}

/// Prints items.
#[cycle(item)]
pub fn print_module_items(module_items: &[Item], out: &mut Printer) {
    for item in module_items {
        print_item(item, out);
    }
}
