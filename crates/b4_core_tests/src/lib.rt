//! Tests of the operators on four-state vectors, over a table of cases.
#![tactic(auto)]

#[cfg(test)]
mod cases;
#[cfg(test)]
mod table;
