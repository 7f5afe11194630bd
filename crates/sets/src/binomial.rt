// Binomials, and refusal 8 (01, "Combinations and paths" and "Refusal numbers").
// Source: `n_choose_k` of cross_validation.rs and of backtesting_engine.rs. Changed against them:
// - a number is read from a constant table, where the Rust multiplies and divides its way up to it;
// - k above n gives 0, where the Rust wants k ≤ n;
// - overflow is no answer of `n_choose_k`: `too_many` is asked beforehand, by a division, where the Rust has `checked_mul`.
ghost use Rattle.std.specs.Prelude.{◌≡◌, ◌≤◌, ◌<◌};
ghost use Rattle.paper.specs.Sets.{choose, too_many};

use crate::choice::Choice;
use crate::triangle::TRIANGLE;

// C(n,k).
pub fn n_choose_k(n: usize, k: usize) -> u64
    requires { n ≤ 64 }
    ensures { result ≡ choose n k }
{
    if n < k {
        0
    } else {
        TRIANGLE[n * (n + 1) / 2 + k]
    }
}

impl Choice {
    // Refusal 8, j being the lesser of k and n - k: C(n,j)·j exceeds 2^64 - 1. The product is not made.
    pub fn too_many(self) -> bool
        ensures { result ≡ too_many self.n self.k }
    {
        let j = self.k.min(self.n - self.k);
        u64::MAX / (j as u64) < n_choose_k(self.n, j)
    }
}
