//! Places of the entries of a map by their numbers: found by bisection where the numbers ascend, else one by one.

ghost use Rattle.name_maps.specs.Places.{IsPlace};

use v_tree::{FunctionName, LocalName, SignalName};

/// The place of a signal.
pub fn signal_place(names: &[SignalName], n: u32) -> Option<usize>
    ensures { IsPlace (λ s. s.signal) names.now n result }
{
    if let Ok(at) = names.binary_search_by_key(&n, |name| name.signal) {
        if names[at].signal == n {
            return Some(at);
        }
    }
    names.iter().position(|name| name.signal == n)
}

/// The place of a local.
pub fn local_place(names: &[LocalName], n: u32) -> Option<usize>
    ensures { IsPlace (λ l. l.local) names.now n result }
{
    if let Ok(at) = names.binary_search_by_key(&n, |name| name.local) {
        if names[at].local == n {
            return Some(at);
        }
    }
    names.iter().position(|name| name.local == n)
}

/// The place of a function.
pub fn function_place(names: &[FunctionName], n: u32) -> Option<usize>
    ensures { IsPlace (λ f. f.function) names.now n result }
{
    if let Ok(at) = names.binary_search_by_key(&n, |name| name.function) {
        if names[at].function == n {
            return Some(at);
        }
    }
    names.iter().position(|name| name.function == n)
}
