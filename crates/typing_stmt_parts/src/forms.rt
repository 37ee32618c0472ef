//! Statements that are nothing or may be left out.

ghost use Rattle.std.specs.Prelude.{◌≡◌, Some};
ghost use Rattle.expr_type.specs.Statements as statement;
ghost use Rattle.typing_calls.specs.Lists.{as_meant};

use expr_type::Halt;
use std::alloc::Global;
use sv_types::{Locals, Stmt, Stmts};

/// Nothing, as a statement (IEEE 1800-2017 A.6.4).
pub fn empty(alloc: Global) -> Stmt
    ensures { result ≡ statement.empty }
{
    Stmt::Block {
        locals: Locals::new(alloc),
        body: Stmts::new(alloc),
    }
}

/// A statement behind `else`, which may be left out (IEEE 1800-2017 clause 12.4).
pub fn some_of(made: Result<Stmt, Halt>) -> Result<Option<Stmt>, Halt>
    ensures { result ≡ as_meant Some made }
{
    match made {
        Ok(there) => Ok(Some(there)),
        Err(halt) => Err(halt),
    }
}
