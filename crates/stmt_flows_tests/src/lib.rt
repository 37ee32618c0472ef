//! Tests of what is known of statements before they run, over a table of typed statements.
#![tactic(auto)]

#[cfg(test)]
mod flows;
mod limits;
#[cfg(test)]
mod tables;
