//! Laws on processes and functions whose loops can be unrolled: no constant in them takes too long, and what is known of them
//! before a run counts no more statements than may stand. They stand in `proofs/`, to be cited by crates above; there are no
//! functions.
#![tactic(auto)]
