//! Declarations.

use crate::tree::expressions::print_dimensions;
use crate::tree::printer::Printer;
use crate::tree::types::{print_initializer, print_type_text};
use crate::tree::words::{print_net_or_variable, print_parameter_keyword};
use sv_tree::{
    DataDeclaration, Declarator, GenvarDeclaration, Import, ImportItem, ParameterBody,
    ParameterDeclaration,
};

/// Prints a declared name.
pub fn print_declarator(declarator: &Declarator, out: &mut Printer) {
    out.open("Declarator");
    out.token(declarator.name);
    print_dimensions(declarator.unpacked.as_slice(), out);
    if let Some(initial) = &declarator.initial {
        print_initializer(initial, out);
    }
    out.close();
}

/// Prints what a parameter stands for.
pub fn print_parameter_body(parameter_body: &ParameterBody, out: &mut Printer) {
    match parameter_body {
        ParameterBody::Type {
            keyword,
            name,
            initial,
        } => {
            out.open("Type");
            out.tokens(&[*keyword, *name]);
            if let Some(initial) = initial {
                print_initializer(initial, out);
            }
            out.close();
        }
        ParameterBody::Value { of, declarator } => {
            out.open("Value");
            print_type_text(of, out);
            print_declarator(declarator, out);
            out.close();
        }
    }
}

/// Prints a declaration of parameters.
pub fn print_parameter_declaration(
    parameter_declaration: &ParameterDeclaration,
    out: &mut Printer,
) {
    out.line("ParameterDeclaration");
    print_parameter_keyword(&parameter_declaration.keyword, out);
    print_parameter_bodies(parameter_declaration.bodies.as_slice(), out);
    out.token(parameter_declaration.semicolon);
    out.close();
}

/// Prints what is imported.
pub fn print_import_item(import_item: &ImportItem, out: &mut Printer) {
    match import_item {
        ImportItem::Name {
            package,
            colons,
            name,
        } => out.leaf("Name", &[*package, *colons, *name]),
        ImportItem::All {
            package,
            colons,
            star,
        } => out.leaf("All", &[*package, *colons, *star]),
    }
}

/// Prints a declaration of imports.
pub fn print_import(import: &Import, out: &mut Printer) {
    out.line("Import");
    out.token(import.keyword);
    print_import_items(import.items.as_slice(), out);
    out.token(import.semicolon);
    out.close();
}

/// Prints nets or variables.
pub fn print_data_declaration(data_declaration: &DataDeclaration, out: &mut Printer) {
    out.line("DataDeclaration");
    if let Some(net) = &data_declaration.net {
        print_net_or_variable(net, out);
    }
    print_type_text(&data_declaration.of, out);
    print_declarators(data_declaration.declarators.as_slice(), out);
    out.token(data_declaration.semicolon);
    out.close();
}

/// Prints names of generate loops.
pub fn print_genvar_declaration(genvar_declaration: &GenvarDeclaration, out: &mut Printer) {
    out.line("GenvarDeclaration");
    out.token(genvar_declaration.keyword);
    out.tokens(genvar_declaration.names.as_slice());
    out.token(genvar_declaration.semicolon);
    out.close();
}

/// Prints declared names.
pub fn print_declarators(declarators: &[Declarator], out: &mut Printer) {
    for declarator in declarators {
        print_declarator(declarator, out);
    }
}

/// Prints declarations of imports.
pub fn print_imports(imports: &[Import], out: &mut Printer) {
    for import in imports {
        print_import(import, out);
    }
}

/// Prints what a declaration imports.
pub fn print_import_items(import_items: &[ImportItem], out: &mut Printer) {
    for import_item in import_items {
        print_import_item(import_item, out);
    }
}

/// Prints parameters behind one word.
pub fn print_parameter_bodies(parameter_bodies: &[ParameterBody], out: &mut Printer) {
    for parameter_body in parameter_bodies {
        print_parameter_body(parameter_body, out);
    }
}
