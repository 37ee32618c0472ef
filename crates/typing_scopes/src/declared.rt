//! What declarations bring in.

ghost use Rattle.std.specs.Prelude.{◌≡◌};
ghost use Rattle.expr_type.specs.Statements.{nothing};
ghost use Rattle.typing_scopes.specs.Scopes.{means};

use frame_things::{NamedLocal, Rows};
use std::alloc::Global;
use sv_source::Items;
use sv_types::{Locals, ParamType, ParamValue};

/// What names stand for behind declarations, the latest first, and the locals that they make, in the order of the text.
#[derive(Drop)]
pub struct Declared {
    /// Parameters and names of enums, with their values.
    pub values: Rows<ParamValue>,
    /// Types.
    pub types: Rows<ParamType>,
    /// Names of locals.
    pub ids: Rows<NamedLocal>,
    /// Locals.
    pub locals: Locals,
}

impl Declared {
    /// What no declarations bring in. It takes no memory.
    pub fn nothing(alloc: Global) -> Declared
        ensures { means result ≡ nothing }
    {
        Declared {
            values: Rows::new(alloc),
            types: Rows::new(alloc),
            ids: Rows::new(alloc),
            locals: Items::new(alloc),
        }
    }
}
