//! Select paths in elements of arrays, as paths in the elements alone.
#![tactic(auto)]
