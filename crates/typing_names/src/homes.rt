//! The blocks in whose texts things are declared.

ghost use Rattle.std.specs.Prelude.{◌≡◌, ◌≤◌, length, take, Some, IfOk, IfSome};
ghost use Rattle.frame_texts.specs.Frames as means;
ghost use Rattle.package_scope.specs.Tables as tables;
ghost use Rattle.typing_names.specs.Homes.{home_at};

use crate::source_names::SourceNames;
use name_events::ScopeKind;
use std::alloc::{AllocError, Global};
use sv_source::Text;
use sv_types::Frame;

impl<'t> SourceNames<'t> {
    /// Whether a scope is that of a generate construct (IEEE 1800-2017 clause 27).
    fn is_generate(&self, kind: ScopeKind) -> bool
        ensures { result ≡ means.is_generate self.now.tree.now self.now.names.now kind }
    {
        match kind {
            ScopeKind::GenerateLoop => true,
            ScopeKind::GenerateBlock => true,
            _ => false,
        }
    }

    /// Whether the scope with this number is that of a generate construct.
    fn is_generate_scope(&self, scope: u32) -> bool
        ensures { result ≡ means.is_generate_scope self.now.tree.now self.now.names.now scope }
    {
        match self.names.scope(scope) {
            None => false,
            Some(scope) => self.is_generate(scope.kind),
        }
    }

    /// The scope around the one with this number.
    fn outer(&self, scope: u32) -> u32
        ensures { result ≡ tables.outer self.now.names.now.scopes scope }
    {
        match self.names.scope(scope) {
            None => 0,
            Some(scope) => scope.outer,
        }
    }

    /// Where the last full stop of a path's first bytes stands, or 0.
    fn last_stop(&self, path: &[u8], end: usize) -> usize
        requires inside { end ≤ length path.now }
        ensures bound { result ≤ end }
        ensures shorter { take result path.now ≡ means.shorter self.now.tree.now self.now.names.now (take end path.now) }
    {
        let mut left = end;
        while left > 0 {
            left -= 1;
            if path[left] == b'.' {
                return left;
            }
        }
        0
    }

    /// How many bytes of the path of a frame's block are the path of the block whose scope this is, if the frame's block stands in it.
    fn path_end(&self, frame: &Frame, scope: u32) -> Option<usize>
        ensures bound { IfSome result (λ n. n ≤ length frame.now.path) }
        ensures home { home_at frame.now result ≡ means.home_from self.now.tree.now self.now.names.now (length self.now.names.now.scopes) (home_at frame.now (Some (length frame.now.path))) frame.now.scope scope }
    {
        let path = frame.path.as_bytes();
        let mut end = path.len();
        let mut inner = frame.scope;
        let mut left = self.names.table().scopes.len();
        while left > 0 {
            left -= 1;
            if inner == scope {
                return Some(end);
            }
            if !self.is_generate_scope(inner) {
                return None;
            }
            end = self.last_stop(path, end);
            inner = self.outer(inner);
        }
        None
    }

    /// The block in whose text something is declared that a text of a frame finds: its instance and its path in it (IEEE 1800-2017
    /// clauses 23.9 and 27.6). What stands outside the frame's instance is of instance 0. It takes time by the depth of scopes.
    pub fn home(
        &self,
        alloc: Global,
        frame: &Frame,
        declaration: u32,
    ) -> Result<(u32, Text), AllocError>
        ensures { IfOk result (λ h. means.home_in self.now.tree.now self.now.names.now frame.now declaration ≡ record { instance = h.0; path = h.1 }) }
    {
        let Some(declaration) = self.names.declaration(declaration) else {
            return Ok((0, Text::new(alloc)));
        };
        match self.path_end(frame, declaration.scope) {
            None => Ok((0, Text::new(alloc))),
            Some(end) => {
                let path = Text::from_bytes(alloc, &frame.path.as_bytes()[..end])?;
                Ok((frame.instance, path))
            }
        }
    }
}
