//! Words that stand alone, names and labels.

use crate::tree::printer::Printer;
use sv_tree::{
    Aggregate, CaseKeyword, Direction, EdgeKeyword, FormalDirection, Label, Lifetime,
    NetOrVariable, ParameterKeyword, QualifiedName, Signing, UniquePriority,
};

/// Prints a lifetime.
pub fn print_lifetime(lifetime: &Lifetime, out: &mut Printer) {
    match lifetime {
        Lifetime::Automatic(at) => out.leaf("Automatic", &[*at]),
        Lifetime::Static(at) => out.leaf("Static", &[*at]),
    }
}

/// Prints a direction.
pub fn print_direction(direction: &Direction, out: &mut Printer) {
    match direction {
        Direction::Input(at) => out.leaf("Input", &[*at]),
        Direction::Output(at) => out.leaf("Output", &[*at]),
    }
}

/// Prints a formal direction.
pub fn print_formal_direction(formal_direction: &FormalDirection, out: &mut Printer) {
    match formal_direction {
        FormalDirection::Input(at) => out.leaf("Input", &[*at]),
        FormalDirection::Output(at) => out.leaf("Output", &[*at]),
        FormalDirection::Inout(at) => out.leaf("Inout", &[*at]),
    }
}

/// Prints `wire` or `var`.
pub fn print_net_or_variable(net_or_variable: &NetOrVariable, out: &mut Printer) {
    match net_or_variable {
        NetOrVariable::Wire(at) => out.leaf("Wire", &[*at]),
        NetOrVariable::Var(at) => out.leaf("Var", &[*at]),
    }
}

/// Prints a sign.
pub fn print_signing(signing: &Signing, out: &mut Printer) {
    match signing {
        Signing::Signed(at) => out.leaf("Signed", &[*at]),
        Signing::Unsigned(at) => out.leaf("Unsigned", &[*at]),
    }
}

/// Prints `struct` or `union`.
pub fn print_aggregate(aggregate: &Aggregate, out: &mut Printer) {
    match aggregate {
        Aggregate::Struct(at) => out.leaf("Struct", &[*at]),
        Aggregate::Union(at) => out.leaf("Union", &[*at]),
    }
}

/// Prints `parameter` or `localparam`.
pub fn print_parameter_keyword(parameter_keyword: &ParameterKeyword, out: &mut Printer) {
    match parameter_keyword {
        ParameterKeyword::Parameter(at) => out.leaf("Parameter", &[*at]),
        ParameterKeyword::Localparam(at) => out.leaf("Localparam", &[*at]),
    }
}

/// Prints `posedge` or `negedge`.
pub fn print_edge_keyword(edge_keyword: &EdgeKeyword, out: &mut Printer) {
    match edge_keyword {
        EdgeKeyword::Posedge(at) => out.leaf("Posedge", &[*at]),
        EdgeKeyword::Negedge(at) => out.leaf("Negedge", &[*at]),
    }
}

/// Prints `unique`, `unique0` or `priority`.
pub fn print_unique_priority(unique_priority: &UniquePriority, out: &mut Printer) {
    match unique_priority {
        UniquePriority::Unique(at) => out.leaf("Unique", &[*at]),
        UniquePriority::Unique0(at) => out.leaf("Unique0", &[*at]),
        UniquePriority::Priority(at) => out.leaf("Priority", &[*at]),
    }
}

/// Prints the word of a `case`.
pub fn print_case_keyword(case_keyword: &CaseKeyword, out: &mut Printer) {
    match case_keyword {
        CaseKeyword::Case(at) => out.leaf("Case", &[*at]),
        CaseKeyword::Casez(at) => out.leaf("Casez", &[*at]),
        CaseKeyword::Casex(at) => out.leaf("Casex", &[*at]),
    }
}

/// Prints a label.
pub fn print_label(label: &Label, out: &mut Printer) {
    out.leaf("Label", &[label.colon, label.name]);
}

/// Prints a name, with its package.
pub fn print_qualified_name(name: &QualifiedName, out: &mut Printer) {
    if let Some(scope) = &name.scope {
        out.tokens(&[scope.package, scope.colons]);
    }
    out.token(name.name);
}
