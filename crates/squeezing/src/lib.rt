// Spaces of sets of entries, and squeezing them to what a band of totals leaves. Totals are looked up in a table of the
// totals of neighbouring entries. Places count from 1, and so do the positions of a set where the definitions speak of
// them; the code keeps position i at index i - 1 of its arrays.
#![tactic(auto)]

mod fixed;
pub mod frame;
mod lowering;
mod passes;
mod raising;
pub mod spaces;
pub mod table;
