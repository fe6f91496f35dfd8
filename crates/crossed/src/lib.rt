// Crossed rolls: entries with amounts in one to four columns, in the order of their numbers.
#![tactic(auto)]

pub mod asked;
pub mod entering;
pub mod entries;
pub mod rolls;
