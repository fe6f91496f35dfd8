// Kinds of amount. A kind is known by what its values mean: rows of whole numbers that add and compare.
#![tactic(auto)]

ghost use Rattle.std.specs.Prelude.{◌≡◌, ℕ, ◌+◌, ◌≤◌, max, List, [], ◌∷◌, ◌++◌, ℤ, nat_le, refl};
ghost use Rattle.measure.specs.Algebra.{Algebra, Laws, Own, joined};
ghost use Rattle.measure.specs.Cents.{cents, span_of, SpanLeast};
ghost use Rattle.measure.specs.CentsLaws.{cents_laws};
ghost use Rattle.measure.specs.JoinedLaws.{joined_laws, own-joined};

// A kind of amount: what its values mean, and five functions that do exactly what the meaning says.
// Kept: definitions take `algebra`, `row` and `span` one by one, since worked examples compute with them over plain rows.
// The span of a value bounds its size: sums and differences are exact wherever two spans make at most 240.
pub trait Measure: Copy {
    ghost algebra: { Algebra };

    ghost row: { Self → List ℤ };

    ghost span: { Self → ℕ };

    // The value that alters no other.
    fn nothing() -> Self
        ensures exact { row result ≡ algebra.nothing }
        ensures small { span result ≡ 0 };

    // The sum.
    fn plus(self, other: Self) -> Self
        ensures exact { span self + span other ≤ 240 → row result ≡ algebra.plus (row self) (row other) }
        ensures small { span self + span other ≤ 240 → span result ≤ span self + span other };

    // The sum with the reverse of the other.
    fn minus(self, other: Self) -> Self
        ensures exact { span self + span other ≤ 240 → row result ≡ algebra.plus (row self) (algebra.reverse (row other)) }
        ensures small { span self + span other ≤ 240 → span result ≤ span self + span other };

    // Whether this value is not above the other.
    fn not_above(self, other: Self) -> bool
        ensures { result ≡ algebra.not_above (row self) (row other) };

    // Whether a roll or a question may hold the value.
    fn admitted(self) -> bool
        ensures { result ≡ nat_le (span self) 1 };

    ghost lawful: { Laws algebra };

    ghost owned: { (v : Self) → Own algebra (row v) };
}

// An amount of money: a signed number of cents.
#[derive(Clone, Copy)]
pub struct Cents {
    pub value: i64,
}

impl Measure for Cents {
    ghost algebra = { cents };

    ghost row = { λ c. c.value ∷ [] };

    ghost span = { λ c. span_of c.value };

    ghost lawful = { cents_laws };

    ghost owned = { λ c. refl };

    fn nothing() -> Cents {
        Cents { value: 0 }
    }

    fn plus(self, other: Cents) -> Cents {
        Cents {
            value: self.value.saturating_add(other.value),
        }
    }

    fn minus(self, other: Cents) -> Cents {
        Cents {
            value: self.value.saturating_sub(other.value),
        }
    }

    fn not_above(self, other: Cents) -> bool {
        self.value <= other.value
    }

    fn admitted(self) -> bool {
        (-2_000_000_000_000_000..=2_000_000_000_000_000).contains(&self.value)
    }
}

// Two values side by side, added and compared part by part.
#[derive(Clone, Copy)]
pub struct Pair<A, B> {
    pub first: A,
    pub second: B,
}

impl<A: Measure, B: Measure> Measure for Pair<A, B> {
    ghost algebra = { joined A.Measure.algebra B.Measure.algebra };

    ghost row = { λ p. A.Measure.row p.first ++ B.Measure.row p.second };

    ghost span = { λ p. max (A.Measure.span p.first) (B.Measure.span p.second) };

    ghost lawful = { joined_laws A.Measure.lawful B.Measure.lawful };

    ghost owned = { λ v.
        let a = A.Measure in
        let b = B.Measure in
        own-joined a.lawful b.lawful (A.Measure.row v.first) (B.Measure.row v.second) (a.owned v.first) (b.owned v.second) };

    fn nothing() -> Pair<A, B> {
        Pair {
            first: A::nothing(),
            second: B::nothing(),
        }
    }

    #[tactic(auto, using(crate::specs::JoinedLaws::joined_steps))]
    fn plus(self, other: Pair<A, B>) -> Pair<A, B> {
        Pair {
            first: self.first.plus(other.first),
            second: self.second.plus(other.second),
        }
    }

    fn minus(self, other: Pair<A, B>) -> Pair<A, B> {
        Pair {
            first: self.first.minus(other.first),
            second: self.second.minus(other.second),
        }
    }

    fn not_above(self, other: Pair<A, B>) -> bool {
        self.first.not_above(other.first) && self.second.not_above(other.second)
    }

    fn admitted(self) -> bool {
        self.first.admitted() && self.second.admitted()
    }
}

// A band of values: from a low end to a high one, both counted in.
#[derive(Clone, Copy)]
pub struct Band<M> {
    pub low: M,
    pub high: M,
}

// The span of an amount is the least that will do.
pub fn spans_are_least()
    ensures { SpanLeast }
{}
