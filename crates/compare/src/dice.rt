// A fixed source of chance.
ghost use Rattle.std.specs.Prelude.{◌<◌};

// The state of a linear congruential generator.
#[derive(Drop)]
pub struct Dice {
    state: u64,
}

impl Dice {
    // A source that gives the same numbers in each run.
    pub fn new() -> Dice {
        Dice { state: 20_240_229 }
    }

    // A number below the given one; 0 if that is 0.
    pub fn below(&mut self, sides: u32) -> u32
        ensures { 0 < sides → result < sides }
    {
        self.state = self
            .state
            .wrapping_mul(6_364_136_223_846_793_005)
            .wrapping_add(1_442_695_040_888_963_407);
        (self.state >> 33) as u32 % sides.max(1)
    }

    // An amount from the given one up, of so many.
    pub fn amount(&mut self, low: i64, count: u32) -> i64 {
        low.saturating_add(i64::from(self.below(count)))
    }
}
