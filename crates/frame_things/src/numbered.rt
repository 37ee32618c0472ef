//! Things that have the number of a declaration.

ghost use Rattle.std.specs.Prelude.{◌≡◌, ℕ};

use sv_types::{ParamType, ParamValue};

/// A thing with the number of its declaration.
pub trait Numbered {
    ghost number: { Self → ℕ };

    /// The number.
    fn number(&self) -> u32
        ensures { result ≡ number self.now };
}

impl Numbered for ParamValue {
    ghost number = { λ v. v.decl };

    fn number(&self) -> u32 {
        self.decl
    }
}

impl Numbered for ParamType {
    ghost number = { λ t. t.decl };

    fn number(&self) -> u32 {
        self.decl
    }
}
