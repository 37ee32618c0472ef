//! Types.

use crate::tree::expressions::{print_dimensions, print_expr, print_keyword_type};
use crate::tree::printer::Printer;
use crate::tree::words::{print_aggregate, print_qualified_name, print_signing};
use sv_tree::{
    DimensionedName, EnumBase, EnumName, Initializer, Member, Packing, TypeDeclaration, TypeText,
};

/// Prints `packed`, with its sign.
pub fn print_packing(packing: &Packing, out: &mut Printer) {
    out.open("Packing");
    out.token(packing.keyword);
    if let Some(signing) = &packing.signing {
        print_signing(signing, out);
    }
    out.close();
}

/// Prints a first value.
pub fn print_initializer(initializer: &Initializer, out: &mut Printer) {
    out.open("Initializer");
    out.token(initializer.equals);
    print_expr(&initializer.value, out);
    out.close();
}

/// Prints a name of an enumeration.
pub fn print_enum_name(enum_name: &EnumName, out: &mut Printer) {
    out.open("EnumName");
    out.token(enum_name.name);
    if let Some(value) = &enum_name.value {
        print_initializer(value, out);
    }
    out.close();
}

/// Prints the type under an enumeration.
pub fn print_enum_base(enum_base: &EnumBase, out: &mut Printer) {
    match enum_base {
        EnumBase::Keyword { of, packed } => {
            out.open("Keyword");
            print_keyword_type(of, out);
            print_dimensions(packed.as_slice(), out);
            out.close();
        }
        EnumBase::Named { of, packed } => {
            out.open("Named");
            print_qualified_name(of, out);
            print_dimensions(packed.as_slice(), out);
            out.close();
        }
    }
}

/// Prints a name with dimensions.
pub fn print_dimensioned_name(dimensioned_name: &DimensionedName, out: &mut Printer) {
    out.open("DimensionedName");
    out.token(dimensioned_name.name);
    print_dimensions(dimensioned_name.unpacked.as_slice(), out);
    out.close();
}

/// Prints members of one type.
#[cycle(types)]
pub fn print_member(member: &Member, out: &mut Printer) {
    out.line("Member");
    print_type_text(&member.of, out);
    print_dimensioned_names(member.names.as_slice(), out);
    out.token(member.semicolon);
    out.close();
}

/// Prints a type.
#[cycle(types)]
pub fn print_type_text(type_text: &TypeText, out: &mut Printer) {
    match type_text {
        TypeText::Keyword { of, packed } => {
            out.open("Keyword");
            print_keyword_type(of, out);
            print_dimensions(packed.as_slice(), out);
            out.close();
        }
        TypeText::Structure {
            aggregate,
            packing,
            opening,
            members,
            closing,
            packed,
        } => {
            out.open("Structure");
            print_aggregate(aggregate, out);
            if let Some(packing) = packing {
                print_packing(packing, out);
            }
            out.token(*opening);
            print_members(members.as_slice(), out);
            out.token(*closing);
            print_dimensions(packed.as_slice(), out);
            out.close();
        }
        TypeText::Enumeration {
            keyword,
            base,
            opening,
            names,
            closing,
            packed,
        } => {
            out.open("Enumeration");
            out.token(*keyword);
            if let Some(base) = base {
                print_enum_base(base, out);
            }
            out.token(*opening);
            print_enum_names(names.as_slice(), out);
            out.token(*closing);
            print_dimensions(packed.as_slice(), out);
            out.close();
        }
        TypeText::Named { of, packed } => {
            out.open("Named");
            print_qualified_name(of, out);
            print_dimensions(packed.as_slice(), out);
            out.close();
        }
        TypeText::Implicit { signing, packed } => {
            out.open("Implicit");
            if let Some(signing) = signing {
                print_signing(signing, out);
            }
            print_dimensions(packed.as_slice(), out);
            out.close();
        }
    }
}

/// Prints a declaration of a type.
pub fn print_type_declaration(type_declaration: &TypeDeclaration, out: &mut Printer) {
    out.line("TypeDeclaration");
    out.token(type_declaration.keyword);
    print_type_text(&type_declaration.of, out);
    out.token(type_declaration.name);
    print_dimensions(type_declaration.unpacked.as_slice(), out);
    out.token(type_declaration.semicolon);
    out.close();
}

/// Prints names with dimensions.
pub fn print_dimensioned_names(dimensioned_names: &[DimensionedName], out: &mut Printer) {
    for dimensioned_name in dimensioned_names {
        print_dimensioned_name(dimensioned_name, out);
    }
}

/// Prints the names of an enumeration.
pub fn print_enum_names(enum_names: &[EnumName], out: &mut Printer) {
    for enum_name in enum_names {
        print_enum_name(enum_name, out);
    }
}

/// Prints the members of a structure or a union.
#[cycle(types)]
pub fn print_members(members: &[Member], out: &mut Printer) {
    for member in members {
        print_member(member, out);
    }
}
