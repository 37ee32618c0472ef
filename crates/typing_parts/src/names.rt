//! What the names of a text stand for.

ghost use Rattle.std.specs.Prelude.{◌≡◌, ℕ, List};
ghost use Rattle.expr_type.specs.Answers.{source};
ghost use Rattle.expr_type.specs.Names as names;
ghost use Rattle.expr_type.specs.Names.{Context};
ghost use Rattle.typing_parts.specs.Things.{Counts, StandsFor, IsMember};

use expr_type::Source;
use sv_tree::QualifiedName;
use sv_types::{SignalId, SvType, Value};

/// What a name stands for (IEEE 1800-2017 clause 23.9).
#[derive(Clone, Copy)]
pub enum Thing<'t> {
    /// A signal, by its number.
    Signal(u32, &'t SvType),
    /// A local, a formal, a loop variable or a function's result, by its number.
    Local(u32, &'t SvType),
    /// A parameter, a genvar or the name of an enum, with its value.
    Constant(&'t SvType, &'t Value),
    /// A type.
    TypeName(&'t SvType),
    /// An instance or a port of an interface, by its declaration.
    Interface(u32),
    /// Another declaration: a function, or one that is broken.
    Other(u32),
    /// Nothing that is declared.
    Nothing,
}

/// A text in which expressions are typed, with what its names stand for there.
pub trait Names {
    ghost context: { Self → Context };

    /// Its tokens, and the instance in whose text they are read.
    fn text(&self) -> Source<'_>
        ensures { source result ≡ (context self.now).source };

    /// What a name stands for.
    fn thing(&self, of: QualifiedName) -> Thing<'_>
        ensures { StandsFor result (names.thing (context self.now) of) };

    /// The declaration that a name finds, by its number.
    fn found(&self, of: QualifiedName) -> Option<u32>
        ensures { result ≡ (context self.now).finds of };

    /// The member of an interface's instance or port that the name at a token is, if it is one.
    fn member(&self, interface: u32, name: u32) -> Option<&SignalId>
        ensures { IsMember (λ s. s.now) result (names.member_in interface (names.word (context self.now).source name) (context self.now).signals) };

    /// How many formals the function or task with this declaration has, if it is one.
    fn formal_count(&self, routine: u32) -> Option<usize>
        ensures { Counts result ((context self.now).text routine) };

    /// The rule that a name which finds a declaration breaks as a pattern's key where it stands for nothing (E404 or E406), or none
    /// where the declaration is broken (IEEE 1800-2017 clause 10.9).
    fn key_rule(&self, declaration: u32) -> Option<u16>
        ensures { result ≡ (context self.now).key_rule declaration };
}
