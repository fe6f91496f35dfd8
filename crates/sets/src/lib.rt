// Sets of places and the search for those whose totals lie in a band: definitions, and what holds of them.
#![tactic(auto)]

ghost use Rattle.sets.specs.Statements.{Complements, TraceFinds, TraceCounts};
ghost use Rattle.sets.specs.Crossings.{CrossedFinds, CrossedSound, CrossedComplete, CrossedOrder, CrossedOnce, CrossedCounts};

// What holds of every search, of its definitions: its sets are the solutions in place order, its steps are bounded, and complements mirror.
pub fn traces_are_exact()
    ensures finds { TraceFinds }
    ensures counts { TraceCounts }
    ensures complements { Complements }
{}

// What holds of every crossed search, of its definitions: its sets are exactly those whose totals lie in the band in each column, each
// once and in order, and its steps are bounded.
pub fn crossings_are_exact()
    ensures finds { CrossedFinds }
    ensures sound { CrossedSound }
    ensures complete { CrossedComplete }
    ensures order { CrossedOrder }
    ensures once { CrossedOnce }
    ensures counts { CrossedCounts }
{}
