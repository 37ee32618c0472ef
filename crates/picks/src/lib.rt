//! The bits of a signal that a select path names. Both languages' paths are these windows.
#![tactic(auto)]
