//! The names that a written text uses.

ghost use Rattle.std.specs.Prelude.{◌≡◌, ◌++◌, IfOk, OnOk, decimal};
ghost use Rattle.v_tree.specs.Printing.{printed, kind_text, helper_text, HelperNames};

use crate::reserved::is_simple;
use itoa::Buffer;
use std::alloc::{AllocError, Global};
use sv_source::{Items, Text};

/// How the paths of signals, instances and modules that aren't simple names are printed.
#[derive(Clone, Copy)]
pub enum Names {
    /// As escaped identifiers.
    Paths,
    /// As simple names, made of the path without its marks.
    Plain,
}

/// The name of a signal of an elaborated design in a written text.
#[derive(Drop)]
pub struct SignalName {
    /// The signal's number.
    pub signal: u32,
    /// The number of the instance of the text, in preorder from 0.
    pub instance: u32,
    /// The name, without the backslash and the space of an escaped identifier.
    pub name: Text,
    /// Whether the signal is a memory there.
    pub memory: bool,
}

/// Names of signals.
pub type SignalNames = Items<SignalName>;

/// The name of a function of an elaborated design in a written text.
#[derive(Drop)]
pub struct FunctionName {
    /// The function's number.
    pub function: u32,
    /// The name.
    pub name: Text,
}

/// Names of functions.
pub type FunctionNames = Items<FunctionName>;

/// The name of a local variable of an elaborated design in a written text.
#[derive(Drop)]
pub struct LocalName {
    /// The variable's number.
    pub local: u32,
    /// The name.
    pub name: Text,
}

/// Names of local variables.
pub type LocalNames = Items<LocalName>;

/// Under which names the things of an elaborated design stand in a written text.
#[derive(Drop)]
pub struct NameMap {
    /// The signals.
    pub signals: SignalNames,
    /// The functions.
    pub functions: FunctionNames,
    /// The local variables.
    pub locals: LocalNames,
}

/// What a helper function gives of a vector.
#[derive(Clone, Copy)]
pub enum HelperKind {
    /// The vector itself, by its own width.
    Cast,
    /// The vector with 0 for each x and z.
    TwoState,
    /// `part` bits from a signed offset of `index` bits on; a bit that is out of range, and each one if the offset has x or
    /// z, is x.
    Select {
        /// How many bits it gives.
        part: u32,
        /// How many bits the offset has.
        index: u32,
    },
    /// Whether it equals a second one but where that has x or z.
    WildEq,
}

/// A helper function.
#[derive(Clone, Copy)]
pub struct Helper {
    /// What it gives.
    pub kind: HelperKind,
    /// The width of its vector.
    pub width: u32,
}

/// The name of a path as it is printed: a simple name as it is, any other path as an escaped identifier with its backslash
/// and its space (IEEE 1364-2005 clause 3.7.1). Or want of memory.
pub fn print_name(alloc: Global, path: &Text) -> Result<Text, AllocError>
    ensures { IfOk result (λ name. name ≡ printed path.now) }
{
    if is_simple(path.as_bytes()) {
        return path.copy(alloc);
    }
    let mut name = Text::from_bytes(alloc, b"\\")?;
    name.push_bytes(path.as_bytes())?;
    name.push(b' ')?;
    Ok(name)
}

/// Appends a decimal number.
pub(crate) fn push_decimal(n: u64, to: &mut Text) -> Result<(), AllocError>
    ensures { OnOk result (to.new ≡ to.old ++ decimal n) }
{
    let mut buffer = Buffer::new();
    to.push_bytes(buffer.format(n).as_bytes())
}

/// Appends the name of a kind.
#[tactic(auto, using(crate::proofs::HelperNames::appends))]
fn push_kind(kind: HelperKind, to: &mut Text) -> Result<(), AllocError>
    ensures { OnOk result (to.new ≡ to.old ++ kind_text kind) }
{
    match kind {
        HelperKind::Cast => to.push_bytes(b"cast"),
        HelperKind::TwoState => to.push_bytes(b"two_state"),
        HelperKind::Select { part, index } => {
            to.push_bytes(b"select_")?;
            push_decimal(u64::from(part), to)?;
            to.push_bytes(b"_")?;
            push_decimal(u64::from(index), to)
        }
        HelperKind::WildEq => to.push_bytes(b"wild_eq"),
    }
}

/// The name of a helper function, which begins with `sv2v_h_`, or want of memory. Two helpers have two names
/// (`helper_names_differ`).
#[tactic(auto, using(crate::proofs::HelperNames::appends))]
pub fn helper_name(alloc: Global, h: &Helper) -> Result<Text, AllocError>
    ensures { IfOk result (λ name. name ≡ helper_text h.now) }
{
    let mut name = Text::from_bytes(alloc, b"sv2v_h_")?;
    push_kind(h.kind, &mut name)?;
    name.push_bytes(b"_")?;
    push_decimal(u64::from(h.width), &mut name)?;
    Ok(name)
}

/// The law that two helpers have two names.
pub fn helper_names_differ()
    ensures { HelperNames }
{}
