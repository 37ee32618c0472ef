//! Instances and modports.

use crate::tree::expressions::print_expr;
use crate::tree::printer::Printer;
use crate::tree::words::print_direction;
use sv_tree::{
    Bind, Connection, Instance, Instantiation, Modport, ModportDeclaration, ModportPort,
    ParameterBinds,
};

/// Prints what a parameter is set to.
pub fn print_bind(bind: &Bind, out: &mut Printer) {
    match bind {
        Bind::Named {
            dot,
            name,
            opening,
            value,
            closing,
        } => {
            out.open("Named");
            out.tokens(&[*dot, *name, *opening]);
            if let Some(value) = value {
                print_expr(value, out);
            }
            out.token(*closing);
            out.close();
        }
        Bind::Ordered(inner) => print_expr(inner, out),
    }
}

/// Prints what the parameters of instances are set to.
pub fn print_parameter_binds(parameter_binds: &ParameterBinds, out: &mut Printer) {
    out.open("ParameterBinds");
    out.tokens(&[parameter_binds.hash, parameter_binds.opening]);
    print_binds(parameter_binds.binds.as_slice(), out);
    out.token(parameter_binds.closing);
    out.close();
}

/// Prints a connection.
pub fn print_connection(connection: &Connection, out: &mut Printer) {
    match connection {
        Connection::Implicit { dot, name } => out.leaf("Implicit", &[*dot, *name]),
        Connection::Named {
            dot,
            name,
            opening,
            value,
            closing,
        } => {
            out.open("Named");
            out.tokens(&[*dot, *name, *opening]);
            if let Some(value) = value {
                print_expr(value, out);
            }
            out.token(*closing);
            out.close();
        }
        Connection::All { mark } => out.leaf("All", &[*mark]),
        Connection::Ordered(inner) => print_expr(inner, out),
    }
}

/// Prints an instance.
pub fn print_instance(instance: &Instance, out: &mut Printer) {
    out.open("Instance");
    out.tokens(&[instance.name, instance.opening]);
    print_connections(instance.connections.as_slice(), out);
    out.token(instance.closing);
    out.close();
}

/// Prints instances of a module or an interface.
pub fn print_instantiation(instantiation: &Instantiation, out: &mut Printer) {
    out.line("Instantiation");
    out.token(instantiation.of);
    if let Some(parameters) = &instantiation.parameters {
        print_parameter_binds(parameters, out);
    }
    print_instances(instantiation.instances.as_slice(), out);
    out.token(instantiation.semicolon);
    out.close();
}

/// Prints a member that a modport lists.
pub fn print_modport_port(modport_port: &ModportPort, out: &mut Printer) {
    out.open("ModportPort");
    if let Some(direction) = &modport_port.direction {
        print_direction(direction, out);
    }
    out.token(modport_port.name);
    out.close();
}

/// Prints a modport.
pub fn print_modport(modport: &Modport, out: &mut Printer) {
    out.open("Modport");
    out.tokens(&[modport.name, modport.opening]);
    print_modport_ports(modport.ports.as_slice(), out);
    out.token(modport.closing);
    out.close();
}

/// Prints a declaration of modports.
pub fn print_modport_declaration(modport_declaration: &ModportDeclaration, out: &mut Printer) {
    out.line("ModportDeclaration");
    out.token(modport_declaration.keyword);
    print_modports(modport_declaration.modports.as_slice(), out);
    out.token(modport_declaration.semicolon);
    out.close();
}

/// Prints what parameters are set to.
pub fn print_binds(binds: &[Bind], out: &mut Printer) {
    for bind in binds {
        print_bind(bind, out);
    }
}

/// Prints connections.
pub fn print_connections(connections: &[Connection], out: &mut Printer) {
    for connection in connections {
        print_connection(connection, out);
    }
}

/// Prints instances.
pub fn print_instances(instances: &[Instance], out: &mut Printer) {
    for instance in instances {
        print_instance(instance, out);
    }
}

/// Prints modports.
pub fn print_modports(modports: &[Modport], out: &mut Printer) {
    for modport in modports {
        print_modport(modport, out);
    }
}

/// Prints the members that a modport lists.
pub fn print_modport_ports(modport_ports: &[ModportPort], out: &mut Printer) {
    for modport_port in modport_ports {
        print_modport_port(modport_port, out);
    }
}
