//! Laws on the rules on loops: constant indices by the operands of expressions, and unrolled lists by their parts. They stand in
//! `proofs/`, to be cited by crates above; there are no functions.
#![tactic(auto)]
