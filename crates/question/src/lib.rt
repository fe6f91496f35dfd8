// Questions to a straight roll: which are accepted, the table that is written for one, and the search over it.
#![tactic(auto)]

pub mod asking;
pub mod beginning;
mod filling;
