//! Tests of the operators on planes, beside the operators on lists, at lengths round those of words and lanes.
#![tactic(auto)]

#[cfg(test)]
mod lengths;
