// Runs of a search from its begin to its end, and why a case does not agree.
use crate::dice::Dice;
use crate::walking::Places;
use exploring::state::{Answer, Told};
use roll::refusal::Refusal;
use std::alloc::{AllocError, AllocFailed, Global};

// The most advances of one search. Kept: a count ends the loop, since an advance that is allowed 0 steps takes none.
const MOST_ADVANCES: u32 = 20_000;

// Why a case does not agree: there is no memory for it, a call refuses, or something is told that should not be.
#[derive(Debug, Drop)]
pub enum Failure {
    OutOfMemory,
    Refused(Refusal),
    Wrong,
}

impl From<AllocError> for Failure {
    fn from(_e: AllocError) -> Failure {
        Failure::OutOfMemory
    }
}

impl<T: Drop> From<AllocFailed<T>> for Failure {
    fn from(_e: AllocFailed<T>) -> Failure {
        Failure::OutOfMemory
    }
}

impl From<Refusal> for Failure {
    fn from(refusal: Refusal) -> Failure {
        Failure::Refused(refusal)
    }
}

// A case goes on only if this holds.
pub fn expect(holds: bool) -> Result<(), Failure> {
    holds.then_some(()).ok_or(Failure::Wrong)
}

// What a search told in all: its sets in turn, and its steps.
#[derive(Drop)]
pub struct Run {
    pub sets: Vec<Places>,
    pub steps: u32,
}

// The set on a page: so many places, rising, and the rest of the page as it was, all zero.
fn set_on(page: &[u16], size: usize) -> Result<Places, Failure> {
    let (places, rest) = page.split_at_checked(size).ok_or(Failure::Wrong)?;
    expect(places.iter().all(|place| (1..=8).contains(place)))?;
    expect(places.is_sorted_by(|a, b| a < b))?;
    expect(rest.iter().all(|place| *place == 0))?;
    Ok(
        places
            .iter()
            .fold(Places::default(), |set, place| set.with(*place)),
    )
}

// How a search is advanced: with the most that can be allowed, or, where all its steps are known, with up to three at a
// time.
#[derive(Drop)]
pub struct Drive<'d> {
    pub heap: Global,
    pub dice: &'d mut Dice,
    pub known: Option<u32>,
}

impl<'d> Drive<'d> {
    // What the next advance is allowed.
    fn allowance(&mut self) -> u32 {
        match self.known {
            Some(_) => self.dice.below(4),
            None => u32::MAX,
        }
    }

    // Advances a search for sets of so many places to its end. Each advance keeps to its allowance, and is spent only
    // with all of it and with steps still to come.
    pub(crate) fn run<F: FnMut(u32, &mut [u16]) -> Result<Answer, Refusal>>(
        mut self,
        size: usize,
        mut advance: F,
    ) -> Result<Run, Failure>
        requires { F.IsAlwaysCallable advance }
    {
        let mut sets = Vec::new(self.heap);
        let mut steps = 0u32;
        for _ in 0..MOST_ADVANCES {
            let allowance = self.allowance();
            let mut page = [0; 9];
            let answer = advance(allowance, &mut page)?;
            steps = steps.saturating_add(answer.steps);
            expect(answer.steps <= allowance)?;
            match answer.told {
                Told::Set => sets.push(set_on(&page, size)?)?,
                Told::Spent => {
                    set_on(&page, 0)?;
                    expect(answer.steps == allowance)?;
                    expect(self.known.is_some_and(|all| steps < all))?;
                }
                Told::Finished => {
                    set_on(&page, 0)?;
                    return Ok(Run { sets, steps });
                }
            }
        }
        Err(Failure::Wrong)
    }
}
