//! Where the texts of a frame stand, in `specs/`: what their names stand for by the scopes of the source and by the frame, and what
//! the calls that type expressions, statements and functions give. There is no code here yet.
#![tactic(auto)]
