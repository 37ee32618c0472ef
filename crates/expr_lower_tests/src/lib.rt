//! Tests of lowered expressions and of targets for select paths, over tables of typed expressions and of the texts that are wanted.
#![tactic(auto)]

#[cfg(test)]
mod calls;
#[cfg(test)]
mod cases;
#[cfg(test)]
mod designs;
#[cfg(test)]
mod flattened;
#[cfg(test)]
mod forms;
#[cfg(test)]
mod lowered;
#[cfg(test)]
mod marks;
#[cfg(test)]
mod memories;
#[cfg(test)]
mod paths;
#[cfg(test)]
mod targets;
#[cfg(test)]
mod texts;
#[cfg(test)]
mod written;
