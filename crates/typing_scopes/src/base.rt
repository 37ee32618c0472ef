//! Texts that blocks stand in.

ghost use Rattle.std.specs.Prelude.{◌≡◌};
ghost use Rattle.std.specs.Option.{option_copied};
ghost use Rattle.expr_type.specs.Names.{word};

use sv_types::SvType;
use typing_parts::Names;

/// A text that declarations of blocks stand in: what it knows beside what its names stand for.
pub trait Base: Names {
    /// Whether a declaration is a net's (IEEE 1800-2017 clause 6.5).
    fn is_net(&self, declaration: u32) -> bool
        ensures { result ≡ (Self.context self.now).is_net declaration };

    /// Whether the member of an interface's instance or port whose name stands at a token is a net (IEEE 1800-2017 clause 25.3).
    fn is_net_member(&self, interface: u32, name: u32) -> bool
        ensures { result ≡ (Self.context self.now).is_net_member interface (word (Self.context self.now).source name) };

    /// The number of the declaration whose name stands at a token.
    fn declaration(&self, at: u32) -> u32
        ensures { result ≡ (Self.context self.now).declared at };

    /// The declaration that is the local with the number 0.
    fn start(&self) -> u32
        ensures { result ≡ (Self.context self.now).base };

    /// The type of what `return` gives, if it gives something (IEEE 1800-2017 clause 13.4.1).
    fn given(&self) -> Option<&SvType>
        ensures { option_copied result ≡ (Self.context self.now).result };
}
