//! The text of statements.

ghost use Rattle.std.specs.Prelude.{◌≡◌, map, ◌∷◌, []};
ghost use Rattle.v_writer.specs.Margins.{levels};
ghost use Rattle.v_writer.specs.Sheets.{set};
ghost use Rattle.v_writer.specs.Layout.{line, perhaps, range_layout, declared, local_layout, lines, store_mark, between, label_layout, placed, case_word, case_head, case_items, expr_layout, stmt_layout, case_layout, branch_layout, else_of};

use crate::expressions::{write_expr, write_list, write_lval};
use crate::margin::Margin;
use crate::page::Page;
use sv_source::Text;
use v_tree::{VBranch, VCaseItem, VCaseItems, VCaseKind, VExpr, VLabel, VLocal, VStmt};

/// Writes a range and a space.
#[tactic(auto, using(crate::proofs::Layouts::writing))]
fn write_range(range: Option<u32>, page: &mut Page)
    ensures { page.new ≡ set page.old (perhaps range_layout range) }
{
    if let Some(left) = range {
        page.mark(b"[");
        page.whole(left);
        page.mark(b":");
        page.whole(0);
        page.mark(b"]");
        page.space();
    }
}

/// Writes a declaration up to its name.
#[tactic(auto, using(crate::proofs::Layouts::writing))]
pub fn write_declared(keyword: &[u8], range: Option<u32>, name: &Text, page: &mut Page)
    ensures { page.new ≡ set page.old (declared keyword.now range name.now) }
{
    page.word(keyword);
    page.space();
    write_range(range, page);
    page.name(name);
}

/// Writes declarations, each on a line of its own.
#[tactic(auto, using(crate::proofs::Layouts::writing))]
pub fn write_locals(keyword: &[u8], locals: &[VLocal], margin: Margin<'_>, page: &mut Page)
    ensures { page.new ≡ set page.old (lines (levels margin.entry) (map (local_layout keyword.now) locals.now)) }
{
    for local in locals {
        page.line(margin);
        write_declared(keyword, local.range, &local.name, page);
        page.mark(b";");
    }
}

/// The mark of an assignment.
fn store_bytes(later: bool) -> &'static [u8]
    ensures { result.now ≡ store_mark later }
{
    if later { b"<=" } else { b"=" }
}

/// Writes the mark of an assignment with a space on either side.
#[tactic(auto, using(crate::proofs::Layouts::writing))]
pub fn write_store(later: bool, page: &mut Page)
    ensures { page.new ≡ set page.old (between (store_mark later)) }
{
    page.space();
    page.mark(store_bytes(later));
    page.space();
}

/// Writes the name of a block and its variables.
#[tactic(auto, using(crate::proofs::Layouts::writing))]
fn write_label(label: &Option<VLabel>, margin: Margin<'_>, page: &mut Page)
    ensures { page.new ≡ set page.old (perhaps (label_layout (levels margin.entry)) label.now) }
{
    if let Some(label) = label {
        page.space();
        page.mark(b":");
        page.space();
        page.name(&label.name);
        write_locals(b"reg", label.locals.as_slice(), margin, page);
    }
}

/// The word of a `case`.
fn case_bytes(kind: VCaseKind) -> &'static [u8]
    ensures { result.now ≡ case_word kind }
{
    match kind {
        VCaseKind::Plain => b"case",
        VCaseKind::Z => b"casez",
        VCaseKind::X => b"casex",
    }
}

/// Writes the head of a `case`.
#[tactic(auto, using(crate::proofs::Layouts::writing))]
fn write_case_head(kind: VCaseKind, on: &VExpr, page: &mut Page)
    ensures { page.new ≡ set page.old (case_head kind (expr_layout on.now)) }
{
    page.word(case_bytes(kind));
    page.space();
    page.mark(b"(");
    write_expr(on, page);
    page.mark(b")");
}

/// Writes a statement whose line has this margin.
#[cycle(write_stmt)]
#[tactic(auto, using(crate::proofs::Layouts::writing))]
pub fn write_stmt(stmt: &VStmt, margin: Margin<'_>, page: &mut Page)
    ensures { page.new ≡ set page.old (stmt_layout stmt.now (levels margin.entry)) }
{
    match stmt {
        VStmt::Block { label, stmts } => {
            page.word(b"begin");
            write_label(label, margin.inner(), page);
            write_lines(stmts.as_slice(), margin.inner(), page);
            page.line(margin);
            page.word(b"end");
        }
        VStmt::If { on, then, other } => {
            page.word(b"if");
            page.space();
            page.mark(b"(");
            write_expr(on, page);
            page.mark(b")");
            page.space();
            write_branch(then, margin, page);
            write_else(other, margin, page);
        }
        VStmt::Case { kind, on, items } => {
            write_case_head(*kind, on, page);
            write_case_items(items, margin, page);
        }
        VStmt::Assign {
            target,
            value,
            later,
        } => {
            write_lval(target, page);
            write_store(*later, page);
            write_expr(value, page);
            page.mark(b";");
        }
    }
}

/// Writes statements, each on a line of its own.
#[cycle(write_stmt)]
#[tactic(auto, using(crate::proofs::Layouts::writing))]
fn write_lines(stmts: &[VStmt], margin: Margin<'_>, page: &mut Page)
    ensures { page.new ≡ set page.old (lines (levels margin.entry) (placed (levels margin.entry) (map stmt_layout stmts.now))) }
{
    for stmt in stmts {
        page.line(margin);
        write_stmt(stmt, margin, page);
    }
}

/// Writes an item of a `case`.
#[cycle(write_stmt)]
#[tactic(auto, using(crate::proofs::Layouts::writing))]
fn write_item(item: &VCaseItem, margin: Margin<'_>, page: &mut Page)
    ensures { page.new ≡ set page.old (case_layout item.now (levels margin.entry)) }
{
    match item {
        VCaseItem::Item { values, body } => {
            write_list(values.as_slice(), page);
            page.mark(b":");
            page.space();
            write_branch(body, margin, page);
        }
        VCaseItem::Default(body) => {
            page.word(b"default");
            page.mark(b":");
            page.space();
            write_branch(body, margin, page);
        }
    }
}

/// Writes items of a `case`, each on a line of its own.
#[cycle(write_stmt)]
#[tactic(auto, using(crate::proofs::Layouts::writing))]
fn write_items(items: &[VCaseItem], margin: Margin<'_>, page: &mut Page)
    ensures { page.new ≡ set page.old (lines (levels margin.entry) (placed (levels margin.entry) (map case_layout items.now))) }
{
    for item in items {
        page.line(margin);
        write_item(item, margin, page);
    }
}

/// Writes the items of a `case` and its last line.
#[cycle(write_stmt)]
#[tactic(auto, using(crate::proofs::Layouts::writing))]
fn write_case_items(items: &VCaseItems, margin: Margin<'_>, page: &mut Page)
    ensures { page.new ≡ set page.old (case_items (levels margin.entry) (map case_layout items.now)) }
{
    write_items(items.as_slice(), margin.inner(), page);
    page.line(margin);
    page.word(b"endcase");
}

/// Writes what an `if`, an `else`, an item of a `case` or an `always` governs.
#[cycle(write_stmt)]
#[tactic(auto, using(crate::proofs::Layouts::writing))]
pub fn write_branch(branch: &VBranch, margin: Margin<'_>, page: &mut Page)
    ensures { page.new ≡ set page.old (branch_layout branch.now (levels margin.entry)) }
{
    match branch {
        VBranch::Statement(stmt) => write_stmt(stmt.get(), margin, page),
        VBranch::Empty => page.mark(b";"),
    }
}

/// Writes an `else`, or nothing where there is none.
#[cycle(write_stmt)]
#[tactic(auto, using(crate::proofs::Layouts::writing))]
fn write_else(other: &Option<VBranch>, margin: Margin<'_>, page: &mut Page)
    ensures { page.new ≡ set page.old (else_of (levels margin.entry) other.now) }
{
    if let Some(branch) = other {
        page.line(margin);
        page.word(b"else");
        page.space();
        write_branch(branch, margin, page);
    }
}
