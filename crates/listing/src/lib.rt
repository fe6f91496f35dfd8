// The listing of a roll file: each question put to the roll as it then stands, with the sets that were found.
#![tactic(auto)]

pub mod c;
pub mod listing;
mod questions;
mod text;
mod walk;
