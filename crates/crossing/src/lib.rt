// Questions to a crossed roll, and the search for one: a straight search for each rank total.
#![tactic(auto)]

mod advancing;
pub mod asking;
pub mod beginning;
mod course;
pub mod ranks;
pub mod state;
