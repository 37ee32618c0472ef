//! Items of blocks, and the blocks that they make.

ghost use Rattle.std.specs.Prelude.{◌≡◌};
ghost use Rattle.typing_calls.specs.Lists.{as_meant};
ghost use Rattle.typing_scopes.specs.Scopes.{context_of};
ghost use Rattle.typing_stmt_parts.specs.Parts.{AddsPart, BlockBy, GoesIn, Joins};
ghost use Rattle.typing_stmt_parts.specs.declared.parts.Part.TheVariants as variant;

use expr_type::Halt;
use std::alloc::Global;
use stmt_types::{BlockPart, block_of};
use sv_types::Stmt;
use typing_scopes::{Base, Declared, Scope};

/// An item of a block as it is typed.
#[derive(Drop)]
pub enum Part {
    /// A statement.
    Statement(Stmt),
    /// What a declaration brings in.
    Declared(Declared),
}

/// A statement as an item.
pub fn of_statement(s: Result<Stmt, Halt>) -> Result<Part, Halt>
    ensures { result ≡ as_meant variant.Statement s }
{
    match s {
        Ok(whole) => Ok(Part::Statement(whole)),
        Err(halt) => Err(halt),
    }
}

/// What a declaration brings in as an item.
pub fn of_declared(d: Result<Declared, Halt>) -> Result<Part, Halt>
    ensures { result ≡ as_meant variant.Declared d }
{
    match d {
        Ok(whole) => Ok(Part::Declared(whole)),
        Err(halt) => Err(halt),
    }
}

// What a part is in a block: what it declares stands in the scope of those behind it.
fn gone_in<B: Base>(scope: &mut Scope<'_, B>, part: Part) -> Result<BlockPart, Halt>
    ensures { GoesIn (context_of B.context scope.old) (context_of B.context scope.new) part result }
{
    match part {
        Part::Statement(s) => Ok(BlockPart::Statement(s)),
        Part::Declared(declared) => {
            let locals = scope.add(declared)?;
            Ok(BlockPart::Declared(locals))
        }
    }
}

// One thing more, where all before it are whole.
fn added<T: Drop>(made: Option<Vec<T>>, part: T) -> Result<Option<Vec<T>>, Halt>
    ensures { AddsPart made part result }
{
    match made {
        None => Ok(None),
        Some(mut made) => {
            made.push(part)?;
            Ok(Some(made))
        }
    }
}

/// Parts of a block with one more behind them, whose declarations stand in the scope. None are made where one isn't whole and breaks no
/// rule; a broken rule and want of memory are handed on.
pub fn joined<B: Base>(
    made: Option<Vec<BlockPart>>,
    scope: &mut Scope<'_, B>,
    part: Result<Part, Halt>,
) -> Result<Option<Vec<BlockPart>>, Halt>
    ensures { Joins made (context_of B.context scope.old) (context_of B.context scope.new) part result }
{
    match part {
        Ok(part) => {
            let part = gone_in(scope, part)?;
            added(made, part)
        }
        Err(Halt::Quiet) => Ok(None),
        Err(Halt::Memory) => Err(Halt::Memory),
        Err(Halt::Breaks { at, rule }) => Err(Halt::Breaks { at, rule }),
    }
}

/// The block of parts, where all of them are whole (IEEE 1800-2017 clause 9.3.1).
pub fn block_by(alloc: Global, made: Option<Vec<BlockPart>>) -> Result<Stmt, Halt>
    ensures { BlockBy made result }
{
    match made {
        None => Err(Halt::Quiet),
        Some(parts) => Ok(block_of(alloc, parts)?),
    }
}
