//! Headers of modules and interfaces, and formal arguments.

use crate::tree::declarations::{print_imports, print_parameter_body};
use crate::tree::expressions::print_dimensions;
use crate::tree::printer::Printer;
use crate::tree::types::print_type_text;
use crate::tree::words::{
    print_direction, print_formal_direction, print_lifetime, print_net_or_variable,
    print_parameter_keyword,
};
use sv_tree::{
    Formal, FormalList, Header, ParameterPort, ParameterPortList, Port, PortList, PortText,
};

/// Prints the type and the name of a port.
pub fn print_port_text(port_text: &PortText, out: &mut Printer) {
    match port_text {
        PortText::Typed { of, name, unpacked } => {
            out.open("Typed");
            print_type_text(of, out);
            out.token(*name);
            print_dimensions(unpacked.as_slice(), out);
            out.close();
        }
        PortText::Modport {
            interface,
            dot,
            modport,
            name,
        } => out.leaf("Modport", &[*interface, *dot, *modport, *name]),
        PortText::Bare { name, unpacked } => {
            out.open("Bare");
            out.token(*name);
            print_dimensions(unpacked.as_slice(), out);
            out.close();
        }
    }
}

/// Prints a port.
pub fn print_port(port: &Port, out: &mut Printer) {
    out.line("Port");
    if let Some(direction) = &port.direction {
        print_direction(direction, out);
    }
    if let Some(net) = &port.net {
        print_net_or_variable(net, out);
    }
    print_port_text(&port.text, out);
    out.close();
}

/// Prints `(ports)`.
pub fn print_port_list(port_list: &PortList, out: &mut Printer) {
    out.open("PortList");
    out.token(port_list.opening);
    print_ports(port_list.ports.as_slice(), out);
    out.token(port_list.closing);
    out.close();
}

/// Prints a parameter of a header.
pub fn print_parameter_port(parameter_port: &ParameterPort, out: &mut Printer) {
    out.line("ParameterPort");
    if let Some(keyword) = &parameter_port.keyword {
        print_parameter_keyword(keyword, out);
    }
    print_parameter_body(&parameter_port.body, out);
    out.close();
}

/// Prints `#(parameters)`.
pub fn print_parameter_port_list(parameter_port_list: &ParameterPortList, out: &mut Printer) {
    out.open("ParameterPortList");
    out.tokens(&[parameter_port_list.hash, parameter_port_list.opening]);
    print_parameter_ports(parameter_port_list.parameters.as_slice(), out);
    out.token(parameter_port_list.closing);
    out.close();
}

/// Prints a header.
pub fn print_header(header: &Header, out: &mut Printer) {
    out.open("Header");
    if let Some(lifetime) = &header.lifetime {
        print_lifetime(lifetime, out);
    }
    out.token(header.name);
    print_imports(header.imports.as_slice(), out);
    if let Some(parameters) = &header.parameters {
        print_parameter_port_list(parameters, out);
    }
    if let Some(ports) = &header.ports {
        print_port_list(ports, out);
    }
    out.token(header.semicolon);
    out.close();
}

/// Prints a formal argument.
pub fn print_formal(formal: &Formal, out: &mut Printer) {
    out.line("Formal");
    if let Some(direction) = &formal.direction {
        print_formal_direction(direction, out);
    }
    print_port_text(&formal.text, out);
    out.close();
}

/// Prints `(formals)`.
pub fn print_formal_list(formal_list: &FormalList, out: &mut Printer) {
    out.open("FormalList");
    out.token(formal_list.opening);
    print_formals(formal_list.formals.as_slice(), out);
    out.token(formal_list.closing);
    out.close();
}

/// Prints formal arguments.
pub fn print_formals(formals: &[Formal], out: &mut Printer) {
    for formal in formals {
        print_formal(formal, out);
    }
}

/// Prints the parameters of a header.
pub fn print_parameter_ports(parameter_ports: &[ParameterPort], out: &mut Printer) {
    for parameter_port in parameter_ports {
        print_parameter_port(parameter_port, out);
    }
}

/// Prints ports.
pub fn print_ports(ports: &[Port], out: &mut Printer) {
    for port in ports {
        print_port(port, out);
    }
}
