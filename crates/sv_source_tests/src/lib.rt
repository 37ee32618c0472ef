//! Tests of sv_source.
#![tactic(auto)]

#[cfg(test)]
mod caller;
#[cfg(test)]
mod lines;
#[cfg(test)]
mod memory;
#[cfg(test)]
mod real;
#[cfg(test)]
mod texts;
