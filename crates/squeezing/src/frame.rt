ghost use Rattle.std.specs.Prelude.{◌≤◌};
ghost use Rattle.squeezing.specs.Standing.{Roomy, Rising, Under, Upto};

// A space of sets of `m` of `n` places: the lower and the upper place of each position, the first at index 0. What lies
// past the first `m` of `lo` and `hi` does not matter.
// Kept: two fixed arrays and how much of them counts, since a search copies spaces in lent memory and allocates nothing.
#[derive(Clone, Copy)]
pub struct Frame {
    pub n: usize,
    pub m: usize,
    pub lo: [u16; 120],
    pub hi: [u16; 120],
    ghost small: { m ≤ 120 },
    ghost roomy: { Roomy m lo },
    ghost lows: { Rising m lo },
    ghost highs: { Rising m hi },
    ghost under: { Under m lo hi },
    ghost upto: { Upto m n hi },
    ghost few: { n ≤ 120 },
}
