//! Declarations of blocks and variables.

ghost use Rattle.std.specs.Prelude.{◌≡◌, OnOk};
ghost use Rattle.v_scopes.specs.Env.{found, Within};
ghost use Rattle.v_block_names.specs.Blocks as means;

use std::alloc::{AllocError, Global};
use sv_source::Text;
use v_scopes::{Entry, Kind, Scope};
use v_tree::VLocal;

/// Declares blocks or instances, so that of two with one name the first one counts. Or want of memory.
pub fn declare_parts(alloc: Global, scope: &mut Scope, names: &[Text]) -> Result<(), AllocError>
    ensures declares { OnOk result (found scope.new ≡ means.parts_given names.now (found scope.old)) }
    ensures within { OnOk result (Within scope.old scope.new) }
{
    let mut at = names.len();
    while at > 0 {
        at -= 1;
        scope.declare(alloc, &names[at], Entry::Part)?;
    }
    Ok(())
}

/// Declares variables, so that of two with one name the first one counts. Or want of memory.
pub fn declare_locals(alloc: Global, scope: &mut Scope, locals: &[VLocal]) -> Result<(), AllocError>
    ensures declares { OnOk result (found scope.new ≡ means.locals_given locals.now (found scope.old)) }
    ensures within { OnOk result (Within scope.old scope.new) }
{
    let mut at = locals.len();
    while at > 0 {
        at -= 1;
        let local = &locals[at];
        let entry = Entry::Value {
            kind: Kind::Local,
            left: local.range,
        };
        scope.declare(alloc, &local.name, entry)?;
    }
    Ok(())
}
