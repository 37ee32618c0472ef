//! The texts of a frame in which expressions are typed.

ghost use Rattle.std.specs.Prelude.{◌≡◌, [], ◌++◌, map, None, length};
ghost use Rattle.std.specs.Option.{option_copied};
ghost use Rattle.expr_type.specs.Names as names;
ghost use Rattle.frame_texts.specs.Frames as means;
ghost use Rattle.typing_parts.specs.Things.{StandsFor};
ghost use Rattle.typing_names.specs.Texts.{context_of, module_thing};

use crate::source_names::SourceNames;
use crate::text::{FrameText, Start};
use expr_type::Source;
use frame_things::{FrameThings, Things};
use std::alloc::Global;
use sv_source::Text;
use sv_tree::QualifiedName;
use sv_types::{SignalId, SvType};
use typing_parts::{Names, Thing};
use typing_scopes::Base;

impl<'a, 't> FrameText<'a, 't> {
    /// The text of a frame whose items begin at a token. It takes no memory.
    pub fn new(
        alloc: Global,
        source: &'a SourceNames<'t>,
        frame: FrameThings<'a>,
        at: u32,
    ) -> FrameText<'a, 't>
        ensures { context_of result ≡ means.context source.now.tree.now source.now.names.now frame.entry.frame.now at }
    {
        FrameText {
            source,
            things: Things::new(alloc, frame),
            at,
            depth: source.names.table().declared.len(),
            start: Start::Items,
            result: None,
            whole: Text::new(alloc),
        }
    }

    /// What a declaration of a module stands for that is no local, value or type.
    fn module_thing(&self, declaration: u32) -> Thing<'_>
        ensures { StandsFor result (module_thing self.now.source.now.tree.now self.now.source.now.names.now self.now.things.base.frame.now declaration) }
    {
        if let Some(signal) = self.things.base.signal(declaration, &self.whole) {
            return Thing::Signal(signal.signal, &signal.of);
        }
        if self.source.is_interface(declaration) {
            Thing::Interface(declaration)
        } else {
            Thing::Other(declaration)
        }
    }

    /// What the declaration with a number stands for.
    fn thing_of(&self, declaration: u32) -> Thing<'_>
        ensures { StandsFor result (names.thing_of (context_of self.now) declaration) }
    {
        if let Some(local) = self.things.local(declaration) {
            return Thing::Local(local.number, &local.of);
        }
        if let Some(value) = self.things.value(declaration) {
            return Thing::Constant(&value.of, &value.value);
        }
        if let Some(named) = self.things.named_type(declaration) {
            return Thing::TypeName(&named.of);
        }
        match self.start {
            Start::Items => self.module_thing(declaration),
            Start::Routine(_) => Thing::Other(declaration),
        }
    }
}

impl<'a, 't> Names for FrameText<'a, 't> {
    ghost context = { context_of };

    fn text(&self) -> Source<'_> {
        Source {
            tokens: self.source.tree.tokens.as_slice(),
            instance: self.things.base.frame.instance,
        }
    }

    fn thing(&self, of: QualifiedName) -> Thing<'_> {
        match self.source.found(of) {
            None => Thing::Nothing,
            Some(declaration) => self.thing_of(declaration),
        }
    }

    fn found(&self, of: QualifiedName) -> Option<u32> {
        self.source.found(of)
    }

    fn member(&self, interface: u32, name: u32) -> Option<&SignalId> {
        match self.start {
            Start::Items => self.things.base.member(interface, self.source.word(name)),
            Start::Routine(_) => None,
        }
    }

    fn formal_count(&self, routine: u32) -> Option<usize> {
        self.source.formal_count(routine)
    }

    fn key_rule(&self, declaration: u32) -> Option<u16> {
        match self.start {
            Start::Items => self.source.key_rule(declaration),
            Start::Routine(_) => self.source.hidden_rule(declaration),
        }
    }
}

impl<'a, 't> Base for FrameText<'a, 't> {
    fn is_net(&self, declaration: u32) -> bool {
        self.source.is_net(declaration)
    }

    fn is_net_member(&self, interface: u32, name: u32) -> bool {
        self.source.is_net_member(interface, self.source.word(name))
    }

    fn declaration(&self, at: u32) -> u32 {
        self.source.number(at)
    }

    fn start(&self) -> u32 {
        match self.start {
            Start::Items => self.source.last_before(self.at),
            Start::Routine(declaration) => declaration,
        }
    }

    fn given(&self) -> Option<&SvType> {
        self.result
    }
}
