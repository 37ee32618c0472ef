//! Continuous assignments and processes.

use crate::tree::expressions::print_expr;
use crate::tree::printer::Printer;
use crate::tree::statements::{print_lvalue, print_stmt};
use crate::tree::words::print_edge_keyword;
use sv_tree::{Always, ContinuousAssign, EventControl, EventEdge, EventMember, NetAssignment};

/// Prints an assignment of a continuous assignment.
pub fn print_net_assignment(net_assignment: &NetAssignment, out: &mut Printer) {
    out.open("NetAssignment");
    print_lvalue(&net_assignment.target, out);
    out.token(net_assignment.equals);
    print_expr(&net_assignment.value, out);
    out.close();
}

/// Prints continuous assignments.
pub fn print_continuous_assign(continuous_assign: &ContinuousAssign, out: &mut Printer) {
    out.line("ContinuousAssign");
    out.token(continuous_assign.keyword);
    print_net_assignments(continuous_assign.assignments.as_slice(), out);
    out.token(continuous_assign.semicolon);
    out.close();
}

/// Prints the member of an event.
pub fn print_event_member(event_member: &EventMember, out: &mut Printer) {
    out.leaf("EventMember", &[event_member.dot, event_member.name]);
}

/// Prints an edge.
pub fn print_event_edge(event_edge: &EventEdge, out: &mut Printer) {
    out.open("EventEdge");
    print_edge_keyword(&event_edge.keyword, out);
    out.token(event_edge.name);
    if let Some(member) = &event_edge.member {
        print_event_member(member, out);
    }
    out.close();
}

/// Prints what a process waits for.
pub fn print_event_control(event_control: &EventControl, out: &mut Printer) {
    match event_control {
        EventControl::Star { star } => out.leaf("Star", &[*star]),
        EventControl::ParenthesizedStar { mark } => out.leaf("ParenthesizedStar", &[*mark]),
        EventControl::OpeningStar { mark, closing } => out.leaf("OpeningStar", &[*mark, *closing]),
        EventControl::ClosingStar { opening, mark } => out.leaf("ClosingStar", &[*opening, *mark]),
        EventControl::SpacedStar {
            opening,
            star,
            closing,
        } => out.leaf("SpacedStar", &[*opening, *star, *closing]),
        EventControl::Edges {
            opening,
            edges,
            closing,
        } => {
            out.open("Edges");
            out.token(*opening);
            print_event_edges(edges.as_slice(), out);
            out.token(*closing);
            out.close();
        }
    }
}

/// Prints a process.
pub fn print_always(always: &Always, out: &mut Printer) {
    match always {
        Always::Comb { keyword, body } => {
            out.line("Comb");
            out.token(*keyword);
            print_stmt(body, out);
            out.close();
        }
        Always::Latch { keyword, body } => {
            out.line("Latch");
            out.token(*keyword);
            print_stmt(body, out);
            out.close();
        }
        Always::Ff {
            keyword,
            event,
            opening,
            edges,
            closing,
            body,
        } => {
            out.line("Ff");
            out.tokens(&[*keyword, *event, *opening]);
            print_event_edges(edges.as_slice(), out);
            out.token(*closing);
            print_stmt(body, out);
            out.close();
        }
        Always::Plain {
            keyword,
            event,
            control,
            body,
        } => {
            out.line("Plain");
            out.tokens(&[*keyword, *event]);
            print_event_control(control, out);
            print_stmt(body, out);
            out.close();
        }
    }
}

/// Prints edges.
pub fn print_event_edges(event_edges: &[EventEdge], out: &mut Printer) {
    for event_edge in event_edges {
        print_event_edge(event_edge, out);
    }
}

/// Prints the assignments behind one `assign`.
pub fn print_net_assignments(net_assignments: &[NetAssignment], out: &mut Printer) {
    for net_assignment in net_assignments {
        print_net_assignment(net_assignment, out);
    }
}
