//! Blocks.

ghost use Rattle.std.specs.Prelude.{◌≡◌, ◌≤◌, ◌++◌, reverse, IfOk};
ghost use Rattle.expr_type.specs.Answers.{Gives};
ghost use Rattle.expr_type.specs.Names.{Source};
ghost use Rattle.expr_type.specs.Operators as operator;
ghost use Rattle.expr_type.specs.Statements as statement;
ghost use Rattle.sv_types.specs.Layouts.{width_of};
ghost use Rattle.sv_types.specs.declared.statement.Stmt.TheVariants as made;
ghost use Rattle.stmt_types.specs.declared.blocks.BlockPart.TheVariants as part;
ghost use Rattle.stmt_types.specs.Blocks.{block_stmt, built_of, open_block, part_built};

use expr_type::Halt;
use given_types::is_above;
use std::alloc::{AllocError, Global};
use sv_types::{Local, Locals, Stmt, Stmts, SvType};

/// A part of a block: a statement, or the locals of a declaration.
#[derive(Drop)]
pub enum BlockPart {
    /// A statement.
    Statement(Stmt),
    /// The locals that a declaration makes, in their order.
    Declared(Locals),
}

// The locals and the statements of a block, the last ones first.
#[derive(Drop)]
struct Open {
    locals: Vec<Local>,
    body: Vec<Stmt>,
}

/// The most bits that a local has.
pub const MOST_OF_LOCAL: u32 = 65_536;

/// The type of a local whose name stands at a token: it has at most 65,536 bits (E701).
pub fn local_type(at: u32, t: SvType) -> Result<SvType, Halt>
    ensures value { (k : Source) → Gives result (operator.not_too_long k at (width_of t) (Ok t)) }
    ensures narrow { IfOk result (λ u. width_of u ≤ 65536) }
{
    if is_above(MOST_OF_LOCAL, &t) {
        return Err(Halt::Breaks { at, rule: 701 });
    }
    Ok(t)
}

// Locals with others in front of them, the last ones first.
#[tactic(auto, using(crate::proofs::Building::locals))]
fn with_locals(locals: Vec<Local>, before: Locals) -> Result<Vec<Local>, AllocError>
    ensures { IfOk result (λ v. v.items ≡ locals.items ++ reverse before) }
{
    let mut made = locals;
    let mut rest = before;
    while let Some(local) = rest.pop() {
        made.push(local)?;
    }
    Ok(made)
}

// A block of locals and statements.
fn closed(under: Open) -> Stmt
    ensures { result ≡ block_stmt (open_block under) }
{
    let Open {
        mut locals,
        mut body,
    } = under;
    locals.reverse();
    body.reverse();
    Stmt::Block {
        locals: Locals::from_vec(locals),
        body: Stmts::from_vec(body),
    }
}

// What stands behind a statement: a block where it has locals.
#[tactic(auto, using(crate::proofs::Building::behinds))]
fn behind(alloc: Global, under: Open) -> Result<Vec<Stmt>, AllocError>
    ensures { IfOk result (λ v. reverse v.items ≡ statement.in_block (open_block under).locals (open_block under).body) }
{
    if under.locals.is_empty() {
        return Ok(under.body);
    }
    let mut body = Vec::new(alloc);
    body.push(closed(under))?;
    Ok(body)
}

// A statement in front of what stands behind it.
#[tactic(auto, using(crate::proofs::Building::parts))]
fn with_statement(alloc: Global, under: Open, s: Stmt) -> Result<Open, AllocError>
    ensures { IfOk result (λ o. open_block o ≡ part_built (part.Statement s) (open_block under)) }
{
    let (mut body, s) = pairs::both(behind(alloc, under), Ok(s))?;
    body.push(s)?;
    Ok(Open {
        locals: Vec::new(alloc),
        body,
    })
}

// The locals of a declaration in front of what stands behind it.
#[tactic(auto, using(crate::proofs::Building::parts))]
fn with_declared(under: Open, before: Locals) -> Result<Open, AllocError>
    ensures { IfOk result (λ o. open_block o ≡ part_built (part.Declared before) (open_block under)) }
{
    let Open { locals, body } = under;
    let (locals, body) = pairs::both(with_locals(locals, before), Ok(body))?;
    Ok(Open { locals, body })
}

// One part more in front.
fn with_part(alloc: Global, under: Open, part: BlockPart) -> Result<Open, AllocError>
    ensures { IfOk result (λ o. open_block o ≡ part_built part (open_block under)) }
{
    match part {
        BlockPart::Statement(s) => with_statement(alloc, under, s),
        BlockPart::Declared(before) => with_declared(under, before),
    }
}

/// A block of its parts in the order of the text (IEEE 1800-2017 clause 9.3.1): a declaration behind statements opens a block with
/// what stands behind it.
#[tactic(auto, using(crate::proofs::Building::built))]
pub fn block_of(alloc: Global, parts: Vec<BlockPart>) -> Result<Stmt, AllocError>
    ensures { IfOk result (λ s. s ≡ block_stmt (built_of parts.items)) }
{
    let mut rest = parts;
    let mut under = Open {
        locals: Vec::new(alloc),
        body: Vec::new(alloc),
    };
    while let Some(part) = rest.pop() {
        under = with_part(alloc, under, part)?;
    }
    Ok(closed(under))
}
