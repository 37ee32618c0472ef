//! The text of the items of modules.

ghost use Rattle.std.specs.Prelude.{◌≡◌, map, ◌∷◌, [], false, true};
ghost use Rattle.v_tree.specs.declared.items.VConnection.{VConnection};
ghost use Rattle.v_writer.specs.Margins.{levels};
ghost use Rattle.v_writer.specs.Sheets.{set};
ghost use Rattle.v_writer.specs.Layout.{perhaps, listed, edge_word, edge_layout, further_edges, edges_layout, sensitivity_layout, number_layout, init_layout, initial_layout, rest_layout, signal_layout, at_zero_layout, process_layout, function_head, function_layout, expr_layout, connection_layout, instance_layout, item_layout, line};

use crate::expressions::{write_comma, write_expr, write_lval};
use crate::margin::Margin;
use crate::page::Page;
use crate::statements::{write_branch, write_declared, write_locals, write_stmt, write_store};
use b4_core::Vec4;
use v_tree::{
    VConnection, VEdge, VExpr, VFunction, VInit, VInitial, VInstance, VItem, VProcess, VRegRest,
    VSensitivity, VSignal,
};

/// The keyword of an edge.
fn edge_bytes(rising: bool) -> &'static [u8]
    ensures { result.now ≡ edge_word rising }
{
    if rising { b"posedge" } else { b"negedge" }
}

/// Writes an edge.
#[tactic(auto, using(crate::proofs::Layouts::writing))]
fn write_edge(edge: &VEdge, page: &mut Page)
    ensures { page.new ≡ set page.old (edge_layout edge.now) }
{
    page.word(edge_bytes(edge.rising));
    page.space();
    page.name(&edge.name);
}

/// Writes ` or ` and the edge for each of these.
#[tactic(auto, using(crate::proofs::Layouts::writing))]
fn write_further_edges(edges: &[VEdge], page: &mut Page)
    ensures { page.new ≡ set page.old (further_edges edges.now) }
{
    for edge in edges {
        page.space();
        page.word(b"or");
        page.space();
        write_edge(edge, page);
    }
}

/// Writes edges.
#[tactic(auto, using(crate::proofs::Layouts::writing))]
fn write_edges(edges: &[VEdge], page: &mut Page)
    ensures { page.new ≡ set page.old (edges_layout edges.now) }
{
    if let [first, others @ ..] = edges {
        write_edge(first, page);
        write_further_edges(others, page);
    }
}

/// Writes what an `always` waits for and a space.
#[tactic(auto, using(crate::proofs::Layouts::writing))]
fn write_sensitivity(on: &VSensitivity, page: &mut Page)
    ensures { page.new ≡ set page.old (sensitivity_layout on.now) }
{
    match on {
        VSensitivity::Star => page.mark(b"*"),
        VSensitivity::Edges(edges) => {
            page.mark(b"(");
            write_edges(edges.as_slice(), page);
            page.mark(b")");
        }
    }
    page.space();
}

/// Writes numbers with commas between.
#[tactic(auto, using(crate::proofs::Layouts::writing))]
fn write_numbers(numbers: &[Vec4], page: &mut Page)
    ensures { page.new ≡ set page.old (listed (map number_layout numbers.now)) }
{
    let mut first = true;
    for number in numbers {
        write_comma(first, page);
        page.number(number);
        first = false;
    }
}

/// Writes ` = ` and a declared initial value.
#[tactic(auto, using(crate::proofs::Layouts::writing))]
fn write_init(init: &VInit, page: &mut Page)
    ensures { page.new ≡ set page.old (initial_layout init.now) }
{
    write_store(false, page);
    match init {
        VInit::Number(bits) => page.number(bits),
        VInit::Concat(pieces) => {
            page.mark(b"{");
            write_numbers(pieces.as_slice(), page);
            page.mark(b"}");
        }
    }
}

/// Writes a declared initial value, or nothing where there is none.
#[tactic(auto, using(crate::proofs::Layouts::writing))]
fn write_optional_init(init: &Option<VInit>, page: &mut Page)
    ensures { page.new ≡ set page.old (perhaps initial_layout init.now) }
{
    if let Some(init) = init {
        write_init(init, page);
    }
}

/// Writes what stands behind the name of a `reg`.
#[tactic(auto, using(crate::proofs::Layouts::writing))]
fn write_rest(rest: &Option<VRegRest>, page: &mut Page)
    ensures { page.new ≡ set page.old (perhaps rest_layout rest.now) }
{
    match rest {
        None => {}
        Some(VRegRest::Memory(left)) => {
            page.space();
            page.mark(b"[");
            page.whole(*left);
            page.mark(b":");
            page.whole(0);
            page.mark(b"]");
        }
        Some(VRegRest::Initial(init)) => write_init(init, page),
    }
}

/// Writes the declaration of a signal.
#[tactic(auto, using(crate::proofs::Layouts::writing))]
fn write_signal(signal: &VSignal, page: &mut Page)
    ensures { page.new ≡ set page.old (signal_layout signal.now) }
{
    match signal {
        VSignal::Input { range, name } => write_declared(b"input", *range, name, page),
        VSignal::Output { range, name } => write_declared(b"output", *range, name, page),
        VSignal::OutputReg {
            range,
            name,
            initial,
        } => {
            page.word(b"output");
            page.space();
            write_declared(b"reg", *range, name, page);
            write_optional_init(initial, page);
        }
        VSignal::Wire { range, name } => write_declared(b"wire", *range, name, page),
        VSignal::Reg { range, name, rest } => {
            write_declared(b"reg", *range, name, page);
            write_rest(rest, page);
        }
    }
    page.mark(b";");
}

/// Writes an `initial`.
#[tactic(auto, using(crate::proofs::Layouts::writing))]
fn write_initial(initial: &VInitial, page: &mut Page)
    ensures { page.new ≡ set page.old (at_zero_layout initial.now) }
{
    page.word(b"initial");
    page.space();
    page.name(&initial.name);
    write_store(true, page);
    page.number(&initial.value);
    page.mark(b";");
}

/// Writes a process.
#[tactic(auto, using(crate::proofs::Layouts::writing))]
fn write_process(process: &VProcess, page: &mut Page)
    ensures { page.new ≡ set page.old (process_layout process.now) }
{
    match process {
        VProcess::Assign { target, value } => {
            page.word(b"assign");
            page.space();
            write_lval(target, page);
            write_store(false, page);
            write_expr(value, page);
            page.mark(b";");
        }
        VProcess::Always { on, body } => {
            page.word(b"always");
            page.space();
            page.mark(b"@");
            write_sensitivity(on, page);
            write_branch(body, Margin::edge().inner(), page);
        }
    }
}

/// Writes the first line of a function, and those of its inputs and variables.
#[tactic(auto, using(crate::proofs::Layouts::writing))]
fn write_function_head(function: &VFunction, margin: Margin<'_>, page: &mut Page)
    requires { levels margin ≡ 2 }
    ensures { page.new ≡ set page.old (function_head function.now) }
{
    write_declared(b"function", function.range, &function.name, page);
    page.mark(b";");
    write_locals(b"input", function.inputs.as_slice(), margin, page);
    write_locals(b"reg", function.locals.as_slice(), margin, page);
}

/// Writes a function.
#[tactic(auto, using(crate::proofs::Layouts::writing))]
fn write_function(function: &VFunction, page: &mut Page)
    ensures { page.new ≡ set page.old (function_layout function.now) }
{
    let edge = Margin::edge();
    let outer = edge.inner();
    write_function_head(function, outer.inner(), page);
    page.line(outer.inner());
    write_stmt(&function.body, outer.inner(), page);
    page.line(outer);
    page.word(b"endfunction");
}

/// Writes an expression, or nothing where there is none.
#[tactic(auto, using(crate::proofs::Layouts::writing))]
fn write_value(value: &Option<VExpr>, page: &mut Page)
    ensures { page.new ≡ set page.old (perhaps expr_layout value.now) }
{
    if let Some(value) = value {
        write_expr(value, page);
    }
}

/// Writes a connection.
#[tactic(auto, using(crate::proofs::Layouts::writing))]
fn write_connection(connection: &VConnection, page: &mut Page)
    ensures { page.new ≡ set page.old (connection_layout connection.now) }
{
    page.mark(b".");
    page.name(&connection.port);
    page.mark(b"(");
    write_value(&connection.value, page);
    page.mark(b")");
}

/// Writes connections with commas between.
#[tactic(auto, using(crate::proofs::Layouts::writing))]
fn write_connections(connections: &[VConnection], page: &mut Page)
    ensures { page.new ≡ set page.old (listed (map connection_layout connections.now)) }
{
    let mut first = true;
    for connection in connections {
        write_comma(first, page);
        write_connection(connection, page);
        first = false;
    }
}

/// Writes an instance.
#[tactic(auto, using(crate::proofs::Layouts::writing))]
fn write_instance(instance: &VInstance, page: &mut Page)
    ensures { page.new ≡ set page.old (instance_layout instance.now) }
{
    page.name(&instance.of);
    page.space();
    page.name(&instance.name);
    page.space();
    page.mark(b"(");
    write_connections(instance.connections.as_slice(), page);
    page.mark(b")");
    page.mark(b";");
}

/// Writes an item.
pub fn write_item(item: &VItem, page: &mut Page)
    ensures { page.new ≡ set page.old (item_layout item.now) }
{
    match item {
        VItem::Signal(signal) => write_signal(signal, page),
        VItem::Initial(initial) => write_initial(initial, page),
        VItem::Process(process) => write_process(process, page),
        VItem::Function(function) => write_function(function, page),
        VItem::Instance(instance) => write_instance(instance, page),
    }
}
