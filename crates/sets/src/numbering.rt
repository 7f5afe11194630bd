// The fold set of a split number, and the number of a fold set (01, "Combinations and paths").
// Source: `cpcv_splits`, which numbers what Itertools' `combinations` gives, and `combinations_recursive` of
// backtesting_engine.rs. Changed against them:
// - one split a call, by its number: the recursion chooses a part by a binomial and goes into that part only;
// - the set is a struct with its folds in the first of 64 places, where the Rust has a `Vec`;
// - the way back is new.
ghost use Rattle.std.specs.Prelude.{◌≡◌, [], ◌∷◌, ◌++◌, ◌<◌, ◌+◌, get_or, drop};
ghost use Rattle.paper.specs.Sets.{choose, listing, entry};
ghost use Rattle.paper.specs.Handed.{handed, list_of};
ghost use Rattle.paper.specs.Places.{place_of};
ghost use Rattle.sets.specs.Work.{Tidy, Rest, Tail, Place};

use crate::binomial::n_choose_k;
use crate::choice::{Choice, Split};
use paper::{FoldNumber, FoldSet};

// The set with one fold more at its end.
pub fn with_fold(set: FoldSet, fold: usize) -> FoldSet
    requires { Tidy set × (set.count < 64) }
    ensures { result ≡ handed (list_of set ++ fold ∷ []) }
{
    let mut out = set;
    let at = set.count;
    out.folds[at] = FoldNumber(fold);
    out.count = at + 1;
    out
}

// `set`, with set `number` of the k-element sets of the n folds from `first` on behind it.
#[tactic(auto, using(paper::proofs::Listing::choose_past))]
fn with_rest(set: FoldSet, first: usize, n: usize, k: usize, number: u64) -> FoldSet
    requires { Rest set first n k number }
    ensures { result ≡ handed (list_of set ++ get_or (listing first n k) number []) }
{
    if k == 0 {
        return set;
    }
    let hold_first = n_choose_k(n - 1, k - 1);
    if number < hold_first {
        with_rest(with_fold(set, first), first + 1, n - 1, k - 1, number)
    } else {
        with_rest(set, first + 1, n - 1, k, number - hold_first)
    }
}

impl Choice {
    // The folds of split `number`.
    pub fn set_at(self, number: u64) -> FoldSet
        requires { number < choose self.n self.k }
        ensures { result ≡ handed (entry self.n self.k number) }
    {
        with_rest(FoldSet::none(), 0, self.n, self.k, number)
    }
}

// The number, among the sets of the n folds from `first` on, of what stands in `set` from place `at` on.
#[tactic(auto, using(crate::proofs::NumberingLaws::tail_some))]
fn number_from(set: FoldSet, k: usize, at: usize, first: usize, n: usize) -> u64
    requires { Tail set k at first n }
    ensures { Place (drop at (list_of set)) first n result }
{
    if at == k {
        return 0;
    }
    if set.folds[at].0 == first {
        number_from(set, k, at + 1, first + 1, n - 1)
    } else {
        n_choose_k(n - 1, k - at - 1) + number_from(set, k, at, first + 1, n - 1)
    }
}

impl Split {
    // The number of the split.
    pub fn number(self) -> u64
        ensures { result ≡ place_of self.choice.n self.choice.k (list_of self.set) }
    {
        number_from(self.set, self.choice.k, 0, 0, self.choice.n)
    }
}
