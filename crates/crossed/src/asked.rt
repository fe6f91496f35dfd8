use crate::entries::Amounts;
use measure::Band;

// Asks for sets of so many entries whose totals lie in the band in each column.
// Kept: a type beside the straight question, since a crossed one has no side.
#[derive(Clone, Copy)]
pub struct Question {
    pub size: usize,
    pub band: Band<Amounts>,
}
