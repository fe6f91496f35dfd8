ghost use Rattle.std.specs.Prelude.{◌≡◌, ◌<◌, ◌≤◌, length, drop, IfOk, MatchResult};
ghost use Rattle.roll.specs.declared.refusal.Refusal.TheVariants.{ShortPage};
ghost use Rattle.sets.specs.Advance.{run};
ghost use Rattle.exploring.specs.Meaning.{coming, size_of, Ran, Same, Sound};

use crate::examining::examine;
use crate::state::{Answer, Search, Told};
use measure::Measure;
use roll::refusal::Refusal;

impl<'t, M: Measure> Search<'t, M> {
    // Examines spaces until one holds a set, the allowance is spent, or none waits. A page too short for a set is refused.
    // Kept: `Sound` is a premise and no fact of the type, since `over` takes any table, also one that holds no totals.
    pub fn advance(&mut self, allowance: u32, page: &mut [u16]) -> Result<Answer, Refusal>
        ensures same { Same self.old self.new }
        ensures beyond { drop (size_of self.old) page.new ≡ drop (size_of self.old) page.old }
        ensures safe { MatchResult result (λ a. (a.steps ≤ allowance) × (size_of self.old ≤ length page.old)) (λ e. (e ≡ ShortPage) × (length page.old < size_of self.old) × (self.new.work ≡ self.old.work) × (page.new ≡ page.old)) }
        ensures counted { IfOk result (λ a. a.told ≡ Told.Set → 0 < a.steps) }
        ensures is { Sound M.algebra M.Measure.row M.span self.old → IfOk result (λ a. Ran (run (coming M.algebra M.Measure.row self.old) allowance 0) a page.old page.new (coming M.algebra M.Measure.row self.new)) }
    {
        if page.len() < self.work.frontier.root.m {
            return Err(Refusal::ShortPage);
        }
        'steps: for steps in 0..allowance {
            if !self.work.frontier.waits() {
                return Ok(Answer {
                    told: Told::Finished,
                    steps,
                });
            }
            if examine(self.table, &mut self.work, page) {
                return Ok(Answer {
                    told: Told::Set,
                    steps: steps + 1,
                });
            }
        }
        let told = if self.work.frontier.waits() {
            Told::Spent
        } else {
            Told::Finished
        };
        Ok(Answer {
            told,
            steps: allowance,
        })
    }
}
