//! Types that are found.

ghost use Rattle.std.specs.Prelude.{◌≡◌};
ghost use Rattle.expr_type.specs.Types as means;

use frame_things::Rows;
use std::alloc::Global;
use std::marker::Model;
use sv_types::{ParamValue, SvType};

/// A type, and the values of the enum names that its text declares. Contracts see them as `expr_type` has them, the latest name first.
#[derive(Drop)]
pub struct TypeFound {
    /// The type.
    pub of: SvType,
    /// The names.
    pub names: Rows<ParamValue>,
}

impl Model for TypeFound {
    ghost use Rattle.expr_type.specs.Types as types;
    ghost use Rattle.std.specs.Coded.{codes};
    ghost use Rattle.sv_types.specs.contracts.types.SvType as t;
    ghost use Rattle.sv_types.specs.contracts.types.Value as v;

    ghost Value = { types.TypeFound };

    ghost view = { λ f. record { of = f.of; names = f.names } };

    ghost coded = { Prim.hlevel (codes, t.the_row.coded, v.the_row.coded) };
}

impl TypeFound {
    /// A type whose text declares no names. It takes no memory.
    pub fn only(alloc: Global, of: SvType) -> TypeFound
        ensures { result ≡ means.only of }
    {
        TypeFound {
            of,
            names: Rows::new(alloc),
        }
    }
}
