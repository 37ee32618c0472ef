//! Nets, which statements don't assign to.

ghost use Rattle.std.specs.Prelude.{◌≡◌};
ghost use Rattle.expr_type.specs.Names.{word};

use typing_parts::Names;
use typing_scopes::{Base, Scope};

/// A text of which the nets are known (IEEE 1800-2017 clause 6.5).
pub trait Nets: Names {
    /// Whether a declaration is a net's.
    fn is_net(&self, declaration: u32) -> bool
        ensures { result ≡ (Self.context self.now).is_net declaration };

    /// Whether the member of an interface's instance or port whose name stands at a token is a net.
    fn is_net_member(&self, interface: u32, name: u32) -> bool
        ensures { result ≡ (Self.context self.now).is_net_member interface (word (Self.context self.now).source name) };
}

impl<'s, B: Base> Nets for Scope<'s, B> {
    fn is_net(&self, declaration: u32) -> bool {
        self.base.is_net(declaration)
    }

    fn is_net_member(&self, interface: u32, name: u32) -> bool {
        self.base.is_net_member(interface, name)
    }
}
