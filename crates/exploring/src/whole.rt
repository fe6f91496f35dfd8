ghost use Rattle.std.specs.Prelude.{◌≡◌, ℕ, ◌+◌, ◌-◌, ◌<◌, ◌≤◌, slice_index};

use squeezing::frame::Frame;

// Every set of `m` of `n` places.
// Kept: a loop, since `array::from_fn` was proved, but with that proof the crate's statements could not be written for the crates above.
pub(crate) fn whole(n: usize, m: usize) -> Frame
    requires { (m ≤ n) × (n ≤ 120) }
    ensures same { (result.n ≡ n) × (result.m ≡ m) }
    ensures lowest { (j : ℕ) → j < m → slice_index result.lo j ≡ 1 + j }
    ensures highest { (j : ℕ) → j < m → slice_index result.hi j ≡ n - m + 1 + j }
{
    let mut lo = [0; 120];
    let mut hi = [0; 120];
    for j in 0..m {
        lo[j] = (1 + j) as u16;
        hi[j] = (n - m + 1 + j) as u16;
    }
    Frame { n, m, lo, hi }
}
