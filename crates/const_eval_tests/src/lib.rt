//! Tests of constant evaluation, over tables of typed expressions, statements and functions.
#![tactic(auto)]

#[cfg(test)]
mod calls;
#[cfg(test)]
mod expressions;
#[cfg(test)]
mod forms;
mod functions;
#[cfg(test)]
mod operators;
#[cfg(test)]
mod routines;
#[cfg(test)]
mod runs;
#[cfg(test)]
mod statements;
#[cfg(test)]
mod stmt_tables;
