//! Nets of a source text, and the numbers of its declarations.

ghost use Rattle.std.specs.Prelude.{◌≡◌, ◌-◌, length};
ghost use Rattle.frame_texts.specs.Frames as means;
ghost use Rattle.package_scope.specs.Lookup as lookup;
ghost use Rattle.package_scope.specs.Rules as rules;

use crate::counting::count_before;
use crate::source_names::SourceNames;
use name_events::Declared;
use sv_source::{Text, at};

impl<'t> SourceNames<'t> {
    /// Whether what is declared is a net (IEEE 1800-2017 clauses 6.5 and 23.2.2.3).
    fn declares_net(&self, how: Declared) -> bool
        ensures { result ≡ means.is_net_kind self.now.tree.now self.now.names.now how }
    {
        match how {
            Declared::Net => true,
            Declared::NamedPort { net, .. } => net,
            _ => false,
        }
    }

    /// Whether a declaration is a net's.
    pub fn is_net(&self, declaration: u32) -> bool
        ensures { result ≡ means.how self.now.tree.now self.now.names.now (means.is_net_kind self.now.tree.now self.now.names.now) declaration }
    {
        match self.names.declaration(declaration) {
            None => false,
            Some(declaration) => self.declares_net(declaration.how),
        }
    }

    /// The scope of the interface that the use at a token finds.
    fn used_scope(&self, token: u32) -> Option<u32>
        ensures { result ≡ means.scope_of self.now.tree.now self.now.names.now (rules.declaration_at self.now.tree.now.tokens self.now.names.now token) }
    {
        match self.declaration_at(token) {
            None => None,
            Some(declaration) => Some(declaration.inner),
        }
    }

    /// The scope of the interface of an instance or a port: in a header with a modport its name stands three tokens before the port's.
    fn interface_scope(&self, at: u32, how: Declared) -> Option<u32>
        ensures { result ≡ means.interface_of self.now.tree.now self.now.names.now at how }
    {
        match how {
            Declared::InterfacePort => self.used_scope(at.saturating_sub(3)),
            Declared::NamedPort { of, .. } => self.used_scope(of),
            Declared::Instance { of } => self.used_scope(of),
            _ => None,
        }
    }

    /// What an interface declares under a name.
    fn declared_in(&self, interface: u32, name: &Text) -> Option<u32>
        ensures { result ≡ lookup.own self.now.names.now interface name.now (length self.now.tree.now.tokens) }
    {
        self.names.own(interface, name, self.end)
    }

    /// Whether what an interface declares under a name is a net.
    fn is_net_in(&self, interface: Option<u32>, name: &Text) -> bool
        ensures { result ≡ means.is_net_in self.now.tree.now self.now.names.now interface name.now }
    {
        match interface {
            None => false,
            Some(scope) => match self.declared_in(scope, name) {
                None => false,
                Some(member) => self.is_net(member),
            },
        }
    }

    /// Whether the member with a name of an interface's instance or port is a net (IEEE 1800-2017 clause 25.3).
    pub fn is_net_member(&self, declaration: u32, name: &Text) -> bool
        ensures { result ≡ means.net_member self.now.tree.now self.now.names.now declaration name.now }
    {
        match self.names.declaration(declaration) {
            None => false,
            Some(declaration) => {
                self.is_net_in(self.interface_scope(declaration.at, declaration.how), name)
            }
        }
    }

    /// How many declarations stand before a token.
    fn declared_before(&self, token: u32) -> usize
        ensures { result ≡ means.declared_before self.now.tree.now self.now.names.now token }
    {
        match at(self.before.as_slice(), token as usize) {
            Some(count) => *count,
            None => count_before(self.names.table().declared.as_slice(), token),
        }
    }

    /// The number of the last declaration before a token, or 0 where none stands before it.
    pub fn last_before(&self, token: u32) -> u32
        ensures { result ≡ means.declared_before self.now.tree.now self.now.names.now token - 1 }
    {
        self.declared_before(token).saturating_sub(1) as u32
    }

    /// The number of the declaration whose name stands at a token, or how many declarations there are where none stands there.
    pub fn number(&self, token: u32) -> u32
        ensures { result ≡ means.number_from self.now.tree.now self.now.names.now 0 token self.now.names.now.declared }
    {
        self.declared(token) as u32
    }
}
