ghost use Rattle.std.specs.Prelude.{◌≤◌, length};
ghost use Rattle.squeezing.specs.Table.{offset};

use crate::work::Work;

// A search over a table of the totals of neighbours, which stays as it is while the search lives.
#[derive(Drop)]
pub struct Search<'t, M> {
    pub(crate) table: &'t [M],
    pub(crate) work: Work<M>,
    ghost long: { offset work.frontier.root.n work.frontier.root.m ≤ length table.now },
}

// How an advance ended: with a set, with its allowance spent, or with no space left.
#[derive(Clone, Copy, PartialEq, Eq, Debug)]
pub enum Told {
    Set,
    Spent,
    Finished,
}

// What an advance tells: how it ended, and how many spaces it examined.
#[derive(Clone, Copy, PartialEq, Eq, Debug)]
pub struct Answer {
    pub told: Told,
    pub steps: u32,
}
