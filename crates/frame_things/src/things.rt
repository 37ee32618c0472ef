//! What declarations stand for by a frame's lists, and by what has been met behind them.

ghost use Rattle.std.specs.Prelude.{◌≡◌, [], ◌++◌, map};
ghost use Rattle.expr_type.specs.Names as names;
ghost use Rattle.frame_things.specs.Finding.{IsValue, IsType, IsLocal, local_id};

use crate::finding::FrameThings;
use crate::numbered::Numbered;
use crate::rows::Rows;
use std::alloc::Global;
use sv_types::{ParamType, ParamValue, SvType};

/// A local, a formal, a loop variable, or a function's result in its own body.
pub struct NamedLocal {
    /// The number of the declaration.
    pub decl: u32,
    /// The number of the local.
    pub number: u32,
    /// Its type.
    pub of: SvType,
}

impl Drop for NamedLocal {
    fn drop(self) {
        let NamedLocal {
            decl: _,
            number: _,
            of: _,
        } = self;
    }
}

impl Numbered for NamedLocal {
    ghost number = { λ l. l.decl };

    fn number(&self) -> u32 {
        self.decl
    }
}

/// The things of a frame, and those that stand for them or beside them behind the declarations of a text, the latest first.
#[derive(Drop)]
pub struct Things<'f> {
    /// Those of the frame.
    pub base: FrameThings<'f>,
    /// Values behind declarations.
    pub values: Rows<ParamValue>,
    /// Types behind declarations.
    pub types: Rows<ParamType>,
    /// Locals.
    pub locals: Rows<NamedLocal>,
}

impl<'f> Things<'f> {
    /// Those of a frame alone. It takes no memory.
    pub fn new(alloc: Global, base: FrameThings<'f>) -> Things<'f>
        ensures base { result.base ≡ base.entry }
        ensures values { result.values ≡ [] }
        ensures types { result.types ≡ [] }
        ensures locals { result.locals ≡ [] }
    {
        Things {
            base,
            values: Rows::new(alloc),
            types: Rows::new(alloc),
            locals: Rows::new(alloc),
        }
    }

    /// The local that a declaration is, if it is one.
    pub fn local(&self, declaration: u32) -> Option<&NamedLocal>
        ensures { IsLocal (λ l. l.now) result (names.local_in declaration (map local_id self.now.locals)) }
    {
        self.locals.find(declaration)
    }

    /// The value of a declaration, if it has one.
    pub fn value(&self, declaration: u32) -> Option<&ParamValue>
        ensures { IsValue (λ v. v.now) result (names.value_in declaration (self.now.values ++ self.now.base.frame.now.values)) }
    {
        match self.values.find(declaration) {
            Some(value) => Some(value),
            None => self.base.value(declaration),
        }
    }

    /// The type that a declaration names, if it does.
    pub fn named_type(&self, declaration: u32) -> Option<&ParamType>
        ensures { IsType (λ t. t.now) result (names.type_in declaration (self.now.types ++ self.now.base.frame.now.types)) }
    {
        match self.types.find(declaration) {
            Some(named) => Some(named),
            None => self.base.named_type(declaration),
        }
    }
}
