//! Paths of functions in an instance.

ghost use Rattle.std.specs.Prelude.{◌≡◌, IfOk};
ghost use Rattle.typing_stmts.specs.RoutinePaths.{path_behind};

use std::alloc::{AllocError, Global};
use sv_source::Text;

/// The path of a function in the block with a path: its name behind that, with a full stop between, if the block has one (IEEE 1800-2017
/// clause 23.6), or want of memory.
pub fn function_path(alloc: Global, block: Text, name: &Text) -> Result<Text, AllocError>
    ensures { IfOk result (λ p. p ≡ path_behind block name.now) }
{
    if block.is_empty() {
        return name.copy(alloc);
    }
    let mut path = block;
    path.push(b'.')?;
    path.push_bytes(name.as_bytes())?;
    Ok(path)
}
