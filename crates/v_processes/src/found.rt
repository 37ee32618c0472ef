//! What a walk finds.

use crate::process::Procs;
use b4_core::{Items, Vec4};

/// `initial name <= value;` in an instance.
#[derive(Drop)]
pub struct Initial<'a> {
    /// The number of the signal.
    pub number: u64,
    /// Its value, the least bit first.
    pub value: &'a Vec4,
}

/// Initial values in order.
pub type Initials<'a> = Items<Initial<'a>>;

/// The processes and initial values of a design.
#[derive(Drop)]
pub struct Found<'a> {
    /// The processes: those of an instance in the order of the text, the connections of a child where the child stands, and then
    /// those of the instances in it.
    pub procs: Procs<'a>,
    /// The initial values, in the same order.
    pub initials: Initials<'a>,
}
