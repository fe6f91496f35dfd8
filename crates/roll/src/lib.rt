// Rolls of open entries, and the numbered refusals of all calls.
#![tactic(auto)]

pub mod entering;
pub mod entry;
pub mod keeping;
pub mod ledger;
pub mod refusal;
pub mod straight;
mod values;
