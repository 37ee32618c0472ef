//! What is declared in scopes that stand in one another.

ghost use Rattle.std.specs.Prelude.{◌≡◌, nat_eq};
ghost use Rattle.std.specs.Option.{option_copied};
ghost use Rattle.frame_things.specs.Places.{first_by};
ghost use Rattle.typing_scopes.specs.Scopes.{lists};

use frame_things::{NamedLocal, Rows};
use std::alloc::Global;
use sv_types::{ParamType, ParamValue};

/// What is declared in a scope, the latest first, and in those around it.
#[derive(Drop)]
pub struct Level<'s> {
    /// Parameters and names of enums, with their values.
    pub values: Rows<ParamValue>,
    /// Types.
    pub types: Rows<ParamType>,
    /// Locals.
    pub locals: Rows<NamedLocal>,
    /// The scope around.
    pub outer: Option<&'s Level<'s>>,
}

impl<'s> Level<'s> {
    /// The local that a declaration is, if it is one.
    pub(crate) fn local(&self, declaration: u32) -> Option<&NamedLocal>
        ensures { option_copied result ≡ first_by (λ l. nat_eq l.decl declaration) (lists self.now).locals }
    {
        match self.locals.find(declaration) {
            Some(local) => Some(local),
            None => match self.outer {
                None => None,
                Some(outer) => outer.local(declaration),
            },
        }
    }

    /// The value of a declaration, if it has one.
    pub(crate) fn value(&self, declaration: u32) -> Option<&ParamValue>
        ensures { option_copied result ≡ first_by (λ v. nat_eq v.decl declaration) (lists self.now).values }
    {
        match self.values.find(declaration) {
            Some(value) => Some(value),
            None => match self.outer {
                None => None,
                Some(outer) => outer.value(declaration),
            },
        }
    }

    /// The type that a declaration names, if it does.
    pub(crate) fn named_type(&self, declaration: u32) -> Option<&ParamType>
        ensures { option_copied result ≡ first_by (λ t. nat_eq t.decl declaration) (lists self.now).types }
    {
        match self.types.find(declaration) {
            Some(named) => Some(named),
            None => match self.outer {
                None => None,
                Some(outer) => outer.named_type(declaration),
            },
        }
    }
}
