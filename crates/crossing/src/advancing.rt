// A crossed search goes on, from one rank total to the next.
ghost use Rattle.std.specs.Prelude.{◌≡◌, ◌<◌, ◌≤◌, length, drop, IfOk, IfErr, MatchResult};
ghost use Rattle.roll.specs.declared.refusal.Refusal.TheVariants.{ShortPage};
ghost use Rattle.sets.specs.Advance.{run};
ghost use Rattle.sets.specs.Crossed.{shadow as shadow_of};
ghost use Rattle.exploring.specs.Meaning.{size_of, Same, Ran};
ghost use Rattle.crossed.specs.Entries.{row_of};
ghost use Rattle.crossing.specs.Ranks.{rank_row};
ghost use Rattle.crossing.specs.Meaning.{Next, to_come, later_than};

use crate::course::Course;
use crate::ranks::{Ranked, shadow};
use crate::state::Search;
use exploring::state::{Answer, Told};
use measure::Band;
use roll::refusal::Refusal;

impl Course {
    // The band of the rank total that is explored now.
    pub(crate) fn ends(self) -> Band<Ranked>
        ensures low { rank_row result.low ≡ shadow_of (row_of self.falls) self.rank (row_of self.band.low) }
        ensures high { rank_row result.high ≡ shadow_of (row_of self.falls) self.rank (row_of self.band.high) }
    {
        Band {
            low: shadow(self.falls, self.rank, self.band.low),
            high: shadow(self.falls, self.rank, self.band.high),
        }
    }
}

impl<'t> Search<'t> {
    // How many places each set of the search has.
    pub fn places(&self) -> usize
        ensures { result ≡ size_of self.now.straight }
    {
        self.straight.places()
    }

    // Passes on to the next rank total.
    fn pass_on(&mut self)
        requires { self.old.course.rank < self.old.course.last }
        ensures course { Next self.old.course self.new.course }
        ensures same { Same self.old.straight self.new.straight }
        ensures comes { to_come self.new ≡ later_than self.old }
    {
        self.course.rank += 1;
        self.straight.restart(self.course.ends());
    }

    // Examines spaces until one holds a set, the allowance is spent, or none waits for any rank total. A page too short for a
    // set is refused.
    pub fn advance(&mut self, allowance: u32, page: &mut [u16]) -> Result<Answer, Refusal>
        ensures same { Same self.old.straight self.new.straight }
        ensures beyond { drop (size_of self.old.straight) page.new ≡ drop (size_of self.old.straight) page.old }
        ensures safe { MatchResult result (λ a. (a.steps ≤ allowance) × (size_of self.old.straight ≤ length page.old)) (λ e. (e ≡ ShortPage) × (length page.old < size_of self.old.straight)) }
        ensures refused { IfErr result (λ _. (self.new ≡ self.old) × (page.new ≡ page.old)) }
        ensures counted { IfOk result (λ a. a.told ≡ Told.Set → 0 < a.steps) }
        ensures is { IfOk result (λ a. Ran (run (to_come self.old) allowance 0) a page.old page.new (to_come self.new)) }
    {
        if page.len() < self.places() {
            return Err(Refusal::ShortPage);
        }
        let mut steps = 0;
        'ranks: loop {
            let answer = self.straight.advance(allowance - steps, page)?;
            steps += answer.steps;
            let over = matches!(answer.told, Told::Finished);
            if !over || self.course.rank == self.course.last {
                return Ok(Answer {
                    told: answer.told,
                    steps,
                });
            }
            self.pass_on();
        }
    }
}
