//! The functions that are known.

use function_places::FunctionPlaces;
use sv_source::Items;
use sv_types::Functions;

/// The functions that are known so far, whether each of them holds a stream (IEEE 1800-2017 clause 11.4.14), and where each is
/// declared.
#[derive(Drop)]
pub struct Known {
    /// The functions by their places.
    pub functions: Functions,
    /// For each of them whether it holds a stream, by itself or by functions that it calls.
    pub marks: Items<bool>,
    /// Their places by where they are declared.
    pub places: FunctionPlaces,
}
