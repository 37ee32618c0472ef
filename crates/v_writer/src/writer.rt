//! The text of a target design.

ghost use Rattle.std.specs.Prelude.{◌≡◌, ◌+◌, ◌≤◌, ◌^◌, ◌-◌, ◌∷◌, [], codes, min, map, length, true, vec_len, vec_capacity};
ghost use Rattle.v_tree.specs.Grammatical.{is_of_grammar};
ghost use Rattle.v_tree.specs.Rules.{Keeps};
ghost use Rattle.v_writer.specs.Sheets.{set};
ghost use Rattle.v_writer.specs.Writing.{Writes};
ghost use Rattle.v_writer.specs.Layout.{listed, lines, in_turn, port_layout, ports_layout, item_layout, header_layout, module_line, line, word, text_layout, text_of};

use crate::expressions::write_comma;
use crate::items::write_item;
use crate::margin::Margin;
use crate::page::Page;
use std::mem;
use sv_source::Text;
use v_tree::{VDesign, VItem, VModule};

/// Writes names with commas between.
#[tactic(auto, using(crate::proofs::Layouts::writing))]
fn write_names(names: &[Text], page: &mut Page)
    ensures { page.new ≡ set page.old (listed (map port_layout names.now)) }
{
    let mut first = true;
    for name in names {
        write_comma(first, page);
        page.name(name);
        first = false;
    }
}

/// Writes the port list in parentheses, or nothing where there are no ports.
#[tactic(auto, using(crate::proofs::Layouts::writing))]
fn write_ports(ports: &[Text], page: &mut Page)
    ensures { page.new ≡ set page.old (ports_layout ports.now) }
{
    if !ports.is_empty() {
        page.space();
        page.mark(b"(");
        write_names(ports, page);
        page.mark(b")");
    }
}

/// Writes items, each on a line of its own.
#[tactic(auto, using(crate::proofs::Layouts::writing))]
fn write_items(items: &[VItem], page: &mut Page)
    ensures { page.new ≡ set page.old (lines 1 (map item_layout items.now)) }
{
    for item in items {
        page.line(Margin::edge().inner());
        write_item(item, page);
    }
}

/// Writes the header of a module.
#[tactic(auto, using(crate::proofs::Layouts::writing))]
fn write_header(m: &VModule, page: &mut Page)
    ensures { page.new ≡ set page.old (header_layout m.now) }
{
    page.word(b"module");
    page.space();
    page.name(&m.name);
    write_ports(m.ports.as_slice(), page);
    page.mark(b";");
}

/// Writes the end of a module with the end of its last line.
#[tactic(auto, using(crate::proofs::Layouts::writing))]
fn write_end(page: &mut Page)
    ensures { page.new ≡ set page.old (line 0 ∷ word (codes "endmodule") ∷ line 0 ∷ []) }
{
    page.line(Margin::edge());
    page.word(b"endmodule");
    page.line(Margin::edge());
}

/// Writes a module with the end of its last line.
fn write_module(m: &VModule, page: &mut Page)
    ensures { page.new ≡ set page.old (module_line m.now) }
{
    write_header(m, page);
    write_items(m.items.as_slice(), page);
    write_end(page);
}

/// Writes modules one behind the other.
#[tactic(auto, using(crate::proofs::Layouts::writing))]
fn write_modules(modules: &[VModule], page: &mut Page)
    ensures { page.new ≡ set page.old (in_turn (map module_line modules.now)) }
{
    for m in modules {
        write_module(m, page);
    }
}

/// The length of a design's text in bytes, or 2^64 - 1 where it is longer. It takes no memory.
pub fn text_len(d: &VDesign) -> u64
    ensures { result ≡ min (length (text_of d.now)) (2 ^ 64 - 1) }
{
    let mut page = Page::measured();
    write_modules(d.modules.as_slice(), &mut page);
    page.length()
}

/// Appends the text of a design, in time linear in its length and without taking memory. The design must be of the target
/// grammar and keep the rules that need no top, and `to` must have spare room for the text.
pub fn write_text(d: &VDesign, to: &mut Vec<u8>)
    requires grammar { is_of_grammar d.now ≡ true }
    requires keeps { Keeps d.now }
    requires room { vec_len to.old + length (text_of d.now) ≤ vec_capacity to.old }
    ensures { Writes d.now to.old.items to.new.items }
{
    let bytes = mem::replace(to, Vec::new(*to.allocator()));
    let mut page = Page::behind(bytes);
    write_modules(d.modules.as_slice(), &mut page);
    if let Some(bytes) = page.into_bytes() {
        *to = bytes;
    }
}
