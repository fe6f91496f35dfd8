ghost use Rattle.exploring.specs.Meaning.{Sound};
ghost use Rattle.crossing.specs.Ranks.{ranks, rank_row, rank_span};

use crate::course::Course;
use crate::ranks::Ranked;
use exploring::state::Search as Searching;

// A crossed search: the straight search of one rank total, whose table holds the totals of neighbours, and the course
// through the others.
#[derive(Drop)]
pub struct Search<'t> {
    pub(crate) straight: Searching<'t, Ranked>,
    pub(crate) course: Course,
    ghost sound: { Sound ranks rank_row rank_span straight },
}
