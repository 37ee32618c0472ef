//! Laws of select paths that are written: which of their bits are in range, where they stand in the vector that holds what they stand
//! on, and which names with selects write them. They are lemmas, to be cited by the crates that lower.
#![tactic(auto)]
