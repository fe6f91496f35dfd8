use crate::frontier::Frontier;
use measure::Band;

// What changes while a search goes on: the spaces that wait, the sought band, and room for the totals of one pass.
#[derive(Drop)]
pub struct Work<M> {
    pub frontier: Frontier,
    pub band: Band<M>,
    pub room: [M; 121],
}
