// Roll files: reading a roll from the records of a file, and writing one.
#![tactic(auto)]

pub mod encoding;
pub mod reading;
pub mod writing;
