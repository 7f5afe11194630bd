// k of n folds in numbers that 2, 6 and 11 let pass, and a split among their sets, which 13 lets pass (01, "Combinations and
// paths" and "Refusal numbers"). New against the Rust, which checks anew wherever it needs to know: here what a
// check has found stays with the numbers.
ghost use Rattle.std.specs.Prelude.{◌≡◌, true, false, ◌≤◌, ◌<◌, MatchOption};
ghost use Rattle.paper.specs.Sets.{is_split};
ghost use Rattle.paper.specs.Handed.{list_of};

use crate::split::is_split;
use paper::FoldSet;

// Each split tests k of n folds.
#[derive(Clone, Copy)]
pub struct Choice {
    pub n: usize,
    pub k: usize,
    ghost some: { 0 < k },
    ghost fewer: { k < n },
    ghost small: { n ≤ 64 },
}

// A split: one of these sets.
#[derive(Clone, Copy)]
pub struct Split {
    pub choice: Choice,
    pub set: FoldSet,
    ghost is: { is_split choice.n choice.k (list_of set) ≡ true },
}

impl Choice {
    // The fold set as a split, if it is one.
    pub fn split(self, set: FoldSet) -> Option<Split>
        ensures { MatchOption result (is_split self.n self.k (list_of set) ≡ false) (λ s. (s.choice.n ≡ self.n) × (s.choice.k ≡ self.k) × (s.set ≡ set)) }
    {
        if is_split(self.n, self.k, set) {
            Some(Split { choice: self, set })
        } else {
            None
        }
    }
}
