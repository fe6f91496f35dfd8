// The search for sets of a given number of entries whose totals lie in a band. It reads a table of the totals of
// neighbouring entries, and hands out one set after another, with as many spaces examined at a time as it is allowed.
// Places count from 1, and so do the positions of a set where the definitions speak of them; the code keeps position i
// at index i - 1 of its arrays.
#![tactic(auto)]

pub mod advancing;
mod children;
mod examining;
mod frontier;
mod level;
mod opening;
pub mod starting;
pub mod state;
mod waiting;
mod whole;
mod work;
