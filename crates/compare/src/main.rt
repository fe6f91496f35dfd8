// Compares the searches with a walk over all sets, on small rolls from a fixed source of chance, and prints for each
// kind of case how many agreed.
#![tactic(auto)]

mod cases;
mod crossings;
mod dice;
mod driving;
mod rolls;
mod walking;

use cases::{Compared, compare};
use crossed::entries::Columns;
use dice::Dice;
use std::io;

// How many cases each kind has.
const CASES: usize = 4_000;

// Compares cases of these kinds in turn, and prints how many agreed.
fn report(rt: &HostRuntime, dice: &mut Dice, name: &str, kinds: &[Compared]) -> io::Result<()> {
    let agreed = kinds
        .iter()
        .cycle()
        .take(CASES)
        .filter(|what| compare(rt.alloc(), dice, **what).is_ok())
        .count();
    println!(rt; "{name} {agreed} of {CASES}")
}

fn main(rt: HostRuntime) -> io::Result<()> {
    let mut dice = Dice::new();
    let crossed = [Columns::One, Columns::Two, Columns::Three, Columns::Four];
    report(&rt, &mut dice, "amounts", &[Compared::Amounts])?;
    report(&rt, &mut dice, "pairs", &[Compared::Pairs])?;
    report(&rt, &mut dice, "complements", &[Compared::Complements])?;
    report(&rt, &mut dice, "crossed", &crossed.map(Compared::Crossed))
}
