//! What names stand for in a scope.

ghost use Rattle.std.specs.Prelude.{◌≡◌};
ghost use Rattle.expr_type.specs.Names as names;
ghost use Rattle.typing_parts.specs.Things.{StandsFor};
ghost use Rattle.typing_scopes.specs.Scopes.{context_of};
ghost use Rattle.typing_scopes.specs.Ranks.{rank_of};

use crate::base::Base;
use crate::scope::Scope;
use expr_type::Source;
use sv_tree::QualifiedName;
use sv_types::SignalId;
use typing_parts::{Names, Thing};

// How soon a thing is found of a declaration: locals before values, values before types, and types before the rest.
fn rank(of: Thing<'_>) -> u8
    ensures { result ≡ rank_of of.entry }
{
    match of {
        Thing::Local(_, _) => 0,
        Thing::Constant(_, _) => 1,
        Thing::TypeName(_) => 2,
        Thing::Signal(_, _) => 3,
        Thing::Interface(_) => 3,
        Thing::Other(_) => 3,
        Thing::Nothing => 3,
    }
}

impl<'s, B: Base> Scope<'s, B> {
    // What a declaration stands for that stands for this in the text.
    fn thing_of<'a>(&'a self, declaration: u32, around: Thing<'a>) -> Thing<'a>
        requires { StandsFor around (names.thing_of (B.context self.now.base.now) declaration) }
        ensures { StandsFor result (names.thing_of (context_of B.context self.now) declaration) }
    {
        let rank = rank(around);
        if let Some(local) = self.level.local(declaration) {
            return Thing::Local(local.number, &local.of);
        }
        if rank == 0 {
            return around;
        }
        if let Some(value) = self.level.value(declaration) {
            return Thing::Constant(&value.of, &value.value);
        }
        if rank == 1 {
            return around;
        }
        if let Some(named) = self.level.named_type(declaration) {
            return Thing::TypeName(&named.of);
        }
        around
    }
}

impl<'s, B: Base> Names for Scope<'s, B> {
    ghost context = { context_of B.context };

    fn text(&self) -> Source<'_> {
        self.base.text()
    }

    fn thing(&self, of: QualifiedName) -> Thing<'_> {
        match self.base.found(of) {
            None => Thing::Nothing,
            Some(declaration) => self.thing_of(declaration, self.base.thing(of)),
        }
    }

    fn found(&self, of: QualifiedName) -> Option<u32> {
        self.base.found(of)
    }

    fn member(&self, interface: u32, name: u32) -> Option<&SignalId> {
        self.base.member(interface, name)
    }

    fn formal_count(&self, routine: u32) -> Option<usize> {
        self.base.formal_count(routine)
    }

    fn key_rule(&self, declaration: u32) -> Option<u16> {
        self.base.key_rule(declaration)
    }
}
