//! The descriptions of a source text.

use crate::tree::declarations::{print_import, print_parameter_declaration};
use crate::tree::items::{print_function, print_module_items, print_task};
use crate::tree::ports::print_header;
use crate::tree::printer::Printer;
use crate::tree::types::print_type_declaration;
use crate::tree::words::{print_label, print_lifetime};
use sv_tree::{Module, Package, PackageItem, Unit};

/// Prints a package item.
pub fn print_package_item(package_item: &PackageItem, out: &mut Printer) {
    match package_item {
        PackageItem::Import(inner) => print_import(inner, out),
        PackageItem::Typedef(inner) => print_type_declaration(inner, out),
        PackageItem::Parameters(inner) => print_parameter_declaration(inner, out),
        PackageItem::Function(inner) => print_function(inner, out),
        PackageItem::Task(inner) => print_task(inner, out),
        PackageItem::Empty { semicolon } => out.line_leaf("Empty", &[*semicolon]),
    }
}

/// Prints a package.
pub fn print_package(package: &Package, out: &mut Printer) {
    out.line("Package");
    out.token(package.keyword);
    if let Some(lifetime) = &package.lifetime {
        print_lifetime(lifetime, out);
    }
    out.tokens(&[package.name, package.semicolon]);
    print_package_items(package.items.as_slice(), out);
    out.token(package.end);
    if let Some(end_label) = &package.end_label {
        print_label(end_label, out);
    }
    out.close();
}

/// Prints a module or an interface.
pub fn print_module(name: &str, module: &Module, out: &mut Printer) {
    out.line(name);
    out.token(module.keyword);
    print_header(&module.header, out);
    print_module_items(module.items.as_slice(), out);
    out.token(module.end);
    if let Some(end_label) = &module.end_label {
        print_label(end_label, out);
    }
    out.close();
}

/// Prints a description.
pub fn print_unit(unit: &Unit, out: &mut Printer) {
    match unit {
        Unit::Package(inner) => print_package(inner, out),
        Unit::Module(inner) => print_module("Module", inner, out),
        Unit::Interface(inner) => print_module("Interface", inner, out),
        Unit::Import(inner) => print_import(inner, out),
        Unit::Typedef(inner) => print_type_declaration(inner, out),
        Unit::Parameters(inner) => print_parameter_declaration(inner, out),
        Unit::Function(inner) => print_function(inner, out),
        Unit::Task(inner) => print_task(inner, out),
        Unit::Empty { semicolon } => out.line_leaf("Empty", &[*semicolon]),
    }
}

/// Prints package items.
pub fn print_package_items(package_items: &[PackageItem], out: &mut Printer) {
    for package_item in package_items {
        print_package_item(package_item, out);
    }
}

/// Prints the descriptions of a source text.
pub fn print_units(units: &[Unit], out: &mut Printer) {
    for unit in units {
        print_unit(unit, out);
    }
}
