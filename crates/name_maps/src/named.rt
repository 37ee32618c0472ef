//! The names under which signals, locals and functions stand in the text.

ghost use Rattle.std.specs.Prelude.{◌≡◌, IfOk};
ghost use Rattle.name_maps.specs.Named.{signal_name, is_memory, local_name, function_name, OneSignal, OneLocal, OneFunction};

use crate::places::{function_place, local_place, signal_place};
use std::alloc::{AllocError, Global};
use sv_source::Text;
use v_tree::{FunctionName, LocalName, SignalName};

/// The name of a signal, or want of memory.
pub fn signal_text(alloc: Global, names: &[SignalName], n: u32) -> Result<Text, AllocError>
    ensures { IfOk result (λ t. OneSignal names.now n → t ≡ signal_name names.now n) }
{
    match signal_place(names, n) {
        Some(at) => names[at].name.copy(alloc),
        None => Ok(Text::new(alloc)),
    }
}

/// Whether a signal is a memory in the text.
pub fn is_memory(names: &[SignalName], n: u32) -> bool
    ensures { OneSignal names.now n → result ≡ is_memory names.now n }
{
    match signal_place(names, n) {
        Some(at) => names[at].memory,
        None => false,
    }
}

/// The name of a local, or want of memory.
pub fn local_text(alloc: Global, names: &[LocalName], n: u32) -> Result<Text, AllocError>
    ensures { IfOk result (λ t. OneLocal names.now n → t ≡ local_name names.now n) }
{
    match local_place(names, n) {
        Some(at) => names[at].name.copy(alloc),
        None => Ok(Text::new(alloc)),
    }
}

/// The name of a function, or want of memory.
pub fn function_text(alloc: Global, names: &[FunctionName], n: u32) -> Result<Text, AllocError>
    ensures { IfOk result (λ t. OneFunction names.now n → t ≡ function_name names.now n) }
{
    match function_place(names, n) {
        Some(at) => names[at].name.copy(alloc),
        None => Ok(Text::new(alloc)),
    }
}
