//! What declarations stand for by a frame's lists and their index.

ghost use Rattle.std.specs.Prelude.{◌≡◌, [], ◌∷◌};
ghost use Rattle.expr_type.specs.Names as names;
ghost use Rattle.frame_things.specs.Finding.{IsIndexOf, IsValue, IsType, IsSignal, IsMember};

use crate::frame_index::FrameIndex;
use sv_source::{Text, at};
use sv_types::{Frame, ParamType, ParamValue, SignalId};

/// A frame with the index of its lists.
#[derive(Clone, Copy)]
pub struct FrameThings<'f> {
    /// The frame.
    pub frame: &'f Frame,
    /// The index.
    pub index: &'f FrameIndex,
    ghost indexed: { IsIndexOf frame.now index.now },
}

impl<'f> FrameThings<'f> {
    /// A frame with the index of its lists.
    pub fn new(frame: &'f Frame, index: &'f FrameIndex) -> FrameThings<'f>
        requires { IsIndexOf frame.now index.now }
        ensures { result.frame.now ≡ frame.now }
    {
        FrameThings { frame, index }
    }

    /// The value of a declaration, if it has one.
    pub fn value(&self, declaration: u32) -> Option<&ParamValue>
        ensures { IsValue (λ v. v.now) result (names.value_in declaration self.now.frame.now.values) }
    {
        match self.index.values.of(declaration) {
            None => None,
            Some(place) => at(self.frame.values.as_slice(), place),
        }
    }

    /// The type that a declaration names, if it does.
    pub fn named_type(&self, declaration: u32) -> Option<&ParamType>
        ensures { IsType (λ t. t.now) result (names.type_in declaration self.now.frame.now.types) }
    {
        match self.index.types.of(declaration) {
            None => None,
            Some(place) => at(self.frame.types.as_slice(), place),
        }
    }

    /// The member of an interface's instance or port that has a name, if there is one.
    pub fn member(&self, interface: u32, name: &Text) -> Option<&SignalId>
        ensures { IsMember (λ s. s.now) result (names.member_in interface name.now self.now.frame.now.signals) }
    {
        match self.index.signals.of(interface, name) {
            None => None,
            Some(place) => at(self.frame.signals.as_slice(), place),
        }
    }

    /// The signal that a declaration is, if it is one.
    pub fn signal(&self, declaration: u32, whole: &Text) -> Option<&SignalId>
        requires { whole.now ≡ [] }
        ensures { IsSignal (λ s. s.now) result (names.signal_in declaration self.now.frame.now.signals) }
    {
        match self.index.signals.of(declaration, whole) {
            None => None,
            Some(place) => at(self.frame.signals.as_slice(), place),
        }
    }
}
