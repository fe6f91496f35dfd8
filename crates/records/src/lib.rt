// The records of a roll file: going through a file from one to the next, and what their bodies say.
#![tactic(auto)]

pub mod decoding;
pub mod reader;
